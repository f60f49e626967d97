//! The values of an object's properties. The numbers were computed by another program.

use kube_meta::{DynamicObject, List, ObjectMeta, Text, TextMap};
use kube_streams::predicates::{annotations, finalizers, generation, labels, resource_version};
use kube_streams::{FnPredicate, Predicate};
use std::alloc::Global;
use std::panic::Expect;
use std::process::Abort;

/// An object, a property, and its value. The object `full` has all properties; another one has the generation that it is named by, if
/// any, and no other property. `both` combines generation and version; `either` is the version, or else the generation.
const VALUES: &str = "\
full generation 3719803776375581067
full version 6559768642691309808
full labels 14440557738715755993
full annotations 9293253282460112337
full finalizers 17258855008697999997
full both 13477763842899525787
full either 6559768642691309808
-1 generation 7520123224966509604
-1 version none
-1 labels 8750168172674097106
-1 finalizers 356021204681317216
7 both 18404737571765746040
7 either 3719803776375581067
none both none";

fn text(rt: &impl Abort, alloc: Global, text: &str) -> Text {
    Text::new(alloc, text).expect(rt, "memory")
}

/// Adds a text under a key.
fn add(rt: &impl Abort, alloc: Global, map: &mut TextMap, key: &str, value: &str) {
    let value = text(rt, alloc, value);
    map.insert(alloc, key, value).expect(rt, "memory");
}

/// An object that has all properties.
fn full(rt: &impl Abort, alloc: Global) -> DynamicObject {
    let mut labels = TextMap::new(alloc);
    add(rt, alloc, &mut labels, "tier", "");
    add(rt, alloc, &mut labels, "app", "web");
    let mut annotations = TextMap::new(alloc);
    add(rt, alloc, &mut annotations, "note", "x");
    let (first, second) = (text(rt, alloc, "a/b"), text(rt, alloc, "c"));
    let finalizers = vec![in alloc; first, second].expect(rt, "memory");
    DynamicObject::bare(ObjectMeta {
        resource_version: Some(text(rt, alloc, "12")),
        generation: Some(7),
        labels: Some(labels),
        annotations: Some(annotations),
        finalizers: Some(List::from(finalizers)),
        ..ObjectMeta::empty()
    })
}

fn object(rt: &impl Abort, alloc: Global, name: &str) -> DynamicObject {
    if name == "full" {
        return full(rt, alloc);
    }
    DynamicObject::bare(ObjectMeta {
        generation: name.parse().ok(),
        ..ObjectMeta::empty()
    })
}

fn both(object: &DynamicObject) -> Option<u64> {
    FnPredicate(generation::<DynamicObject>)
        .combine(FnPredicate(resource_version::<DynamicObject>))
        .hash_property(object)
}

fn either(object: &DynamicObject) -> Option<u64> {
    FnPredicate(resource_version::<DynamicObject>)
        .fallback(FnPredicate(generation::<DynamicObject>))
        .hash_property(object)
}

fn value(object: &DynamicObject, property: &str) -> Option<u64> {
    match property {
        "generation" => generation(object),
        "version" => resource_version(object),
        "labels" => labels(object),
        "annotations" => annotations(object),
        "finalizers" => finalizers(object),
        "both" => both(object),
        _ => either(object),
    }
}

fn value_of(rt: &impl Abort, alloc: Global, name: &str, property: &str) -> Option<u64> {
    let object = object(rt, alloc, name);
    value(&object, property)
}

#[test]
fn each_property_has_its_value(rt: HostRuntime) {
    for line in VALUES.split('\n') {
        let (name, rest) = line.split_once(' ').unwrap_or(("", ""));
        let (property, wanted) = rest.split_once(' ').unwrap_or(("", ""));
        assert_eq!(rt;
            value_of(&rt, rt.alloc(), name, property),
            wanted.parse().ok(),
            "{line}"
        );
    }
}
