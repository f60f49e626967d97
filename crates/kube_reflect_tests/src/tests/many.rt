//! Many stored objects: each is found however many there are, as long as a look-up doesn't look at all of them.

use super::objects::{Maps, key_of, name_of, named};
use super::steps::{drop_writer, with_places};
use kube_meta::{DynamicObject, ObjectRef};
use kube_reflect::Cache;
use kube_watch::Event;
use std::alloc::Global;
use std::panic::Expect;
use std::process::Abort;

/// The object of a number is applied. Their names are of one length, and they rise.
fn apply_by(rt: &impl Abort, alloc: Global, writer: &mut Maps, number: u32) {
    let name = format!(in alloc; "{number}").expect(rt, "memory");
    let event = Event::Apply(named(rt, alloc, name.as_str()));
    writer
        .apply_watcher_event(alloc, &event)
        .expect(rt, "applied");
}

/// A writer to which the objects of these numbers were applied.
fn with_objects(rt: &impl Abort, alloc: Global, first: u32, end: u32) -> Maps {
    let mut writer = with_places(rt, alloc, 1);
    for number in first..end {
        apply_by(rt, alloc, &mut writer, number);
    }
    writer
}

/// Whether the object of a name is found under its reference.
fn is_found(cache: &Cache<DynamicObject>, key: &ObjectRef<DynamicObject>, name: &str) -> bool {
    match cache.get(key) {
        Some(object) => name_of(&**object) == name,
        None => false,
    }
}

/// The object of a number is found five times.
fn check_found(rt: &impl Abort, alloc: Global, cache: &Cache<DynamicObject>, number: u32) {
    let name = format!(in alloc; "{number}").expect(rt, "memory");
    let key = key_of(rt, alloc, name.as_str());
    for _time in 0..5 {
        assert!(rt; is_found(cache, &key, name.as_str()), "{name}");
    }
}

/// Each object of these numbers is found five times.
fn check_each(rt: &impl Abort, alloc: Global, cache: &Cache<DynamicObject>, first: u32, end: u32) {
    for number in first..end {
        check_found(rt, alloc, cache, number);
    }
}

#[test]
fn two_hundred_thousand_objects_are_found_a_million_times(rt: HostRuntime) {
    let writer = with_objects(&rt, rt.alloc(), 1_000_000, 1_200_000);
    assert_eq!(rt; writer.cache().len(), 200_000);
    check_each(&rt, rt.alloc(), writer.cache(), 1_000_000, 1_200_000);
    drop_writer(writer);
}
