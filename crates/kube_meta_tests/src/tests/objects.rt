//! Objects, read from JSON and written.

use kube_meta::reading::member;
use kube_meta::{DynamicObject, ObjectFault, read_object, write_object};
use serde_json::Value;
use std::alloc::Global;
use std::panic::Expect;
use std::process::Abort;

/// Objects, and what is written of each, a line for each.
const WRITTEN: &str = r##"{} => {"metadata":{}}
{"metadata":null} => {"metadata":{}}
{"metadata":{}} => {"metadata":{}}
{"apiVersion":"v1","kind":"Pod"} => {"apiVersion":"v1","kind":"Pod","metadata":{}}
{"kind":"","apiVersion":""} => {"apiVersion":"","kind":"","metadata":{}}
{"apiVersion":null,"kind":null} => {"metadata":{}}
{"metadata":{"name":"a"}} => {"metadata":{"name":"a"}}
{"metadata":{"name":""}} => {"metadata":{"name":""}}
{"metadata":{"name":null}} => {"metadata":{}}
{"metadata":{"uid":"u","resourceVersion":"7","namespace":"ns","name":"a","deletionTimestamp":"t"}} => {"metadata":{"deletionTimestamp":"t","name":"a","namespace":"ns","resourceVersion":"7","uid":"u"}}
{"metadata":{"generation":0}} => {"metadata":{"generation":0}}
{"metadata":{"generation":null}} => {"metadata":{}}
{"metadata":{"generation":9223372036854775807}} => {"metadata":{"generation":9223372036854775807}}
{"metadata":{"generation":-9223372036854775808}} => {"metadata":{"generation":-9223372036854775808}}
{"metadata":{"labels":{}}} => {"metadata":{}}
{"metadata":{"labels":null}} => {"metadata":{}}
{"metadata":{"labels":{"b":"1","a":""}}} => {"metadata":{"labels":{"a":"","b":"1"}}}
{"metadata":{"annotations":{}}} => {"metadata":{}}
{"metadata":{"annotations":{"k":"v"}}} => {"metadata":{"annotations":{"k":"v"}}}
{"metadata":{"finalizers":[]}} => {"metadata":{}}
{"metadata":{"finalizers":["b","a","b"]}} => {"metadata":{"finalizers":["b","a","b"]}}
{"metadata":{"ownerReferences":[]}} => {"metadata":{}}
{"metadata":{"ownerReferences":[{"uid":"u","name":"n","kind":"Node","controller":true,"apiVersion":"v1"}]}} => {"metadata":{"ownerReferences":[{"apiVersion":"v1","kind":"Node","name":"n","uid":"u"}]}}
{"metadata":{"generateName":"x","managedFields":[1.5]}} => {"metadata":{}}
{"metadata":{"name":"a"},"metadata":{"name":"b"}} => {"metadata":{"name":"b"}}
{"":1} => {"":1,"metadata":{}}
{"x":18446744073709551615} => {"metadata":{},"x":18446744073709551615}
{"x":-9223372036854775808} => {"metadata":{},"x":-9223372036854775808}
{"x":1,"x":2} => {"metadata":{},"x":2}
{"z":{},"y":[],"x":null} => {"metadata":{},"x":null,"y":[],"z":{}}
{"status":{"phase":"Running"},"spec":{"kind":1,"metadata":[2]}} => {"metadata":{},"spec":{"kind":1,"metadata":[2]},"status":{"phase":"Running"}}"##;

/// Texts that are no objects, and the first fault of each, a line for each.
const REFUSED: &str = r##"null => shape 
1 => shape 
1.5 => shape 
"a" => shape 
true => shape 
[] => shape 
{"metadata":[]} => shape /metadata
{"metadata":1.5} => shape /metadata
{"apiVersion":"v1"} => shape /kind
{"apiVersion":"v1","kind":null} => shape /kind
{"apiVersion":"v1","kind":{}} => shape /kind
{"kind":"Pod"} => shape /apiVersion
{"apiVersion":null,"kind":"Pod"} => shape /apiVersion
{"apiVersion":1} => shape /apiVersion
{"kind":1} => shape /apiVersion
{"metadata":{"name":[]}} => shape /metadata/name
{"metadata":{"name":1}} => shape /metadata/name
{"metadata":{"namespace":{}}} => shape /metadata/namespace
{"metadata":{"uid":1}} => shape /metadata/uid
{"metadata":{"resourceVersion":7}} => shape /metadata/resourceVersion
{"metadata":{"deletionTimestamp":true}} => shape /metadata/deletionTimestamp
{"metadata":{"generation":9223372036854775808}} => shape /metadata/generation
{"metadata":{"generation":-9223372036854775809}} => shape /metadata/generation
{"metadata":{"generation":1.0}} => shape /metadata/generation
{"metadata":{"generation":1e0}} => shape /metadata/generation
{"metadata":{"generation":-0}} => shape /metadata/generation
{"metadata":{"generation":"1"}} => shape /metadata/generation
{"metadata":{"labels":[]}} => shape /metadata/labels
{"metadata":{"labels":{"b":1,"a":2}}} => shape /metadata/labels/a
{"metadata":{"labels":{"a":"1","b":null}}} => shape /metadata/labels/b
{"metadata":{"labels":{"a~/é":1}}} => shape /metadata/labels/a~0~1é
{"metadata":{"annotations":{"k":{}}}} => shape /metadata/annotations/k
{"metadata":{"finalizers":{}}} => shape /metadata/finalizers
{"metadata":{"finalizers":["a",null]}} => shape /metadata/finalizers/1
{"metadata":{"ownerReferences":{}}} => shape /metadata/ownerReferences
{"metadata":{"ownerReferences":[null]}} => shape /metadata/ownerReferences/0
{"metadata":{"ownerReferences":[{}]}} => shape /metadata/ownerReferences/0/apiVersion
{"metadata":{"ownerReferences":[{"apiVersion":"v1","kind":"Node","name":"n"}]}} => shape /metadata/ownerReferences/0/uid
{"metadata":{"ownerReferences":[{"apiVersion":"v1","kind":"Node","name":"n","uid":null}]}} => shape /metadata/ownerReferences/0/uid
{"metadata":{"uid":1,"namespace":1}} => shape /metadata/namespace
{"metadata":{"ownerReferences":1,"labels":1}} => shape /metadata/labels
{"apiVersion":1,"metadata":1,"spec":1.5} => shape /apiVersion
{"metadata":{"finalizers":1},"spec":1.5} => shape /metadata/finalizers
{"spec":{"size":1.5}} => fraction /spec/size
{"spec":{"size":[1,2.5]}} => fraction /spec/size/1
{"b":1.5,"a":[{"x":1},{"y":2.5}]} => fraction /a/1/y
{"a~b":{"c/d":1.0}} => fraction /a~0b/c~1d
{"":1.5} => fraction /
{"x":18446744073709551616} => fraction /x
{"x":-9223372036854775809} => fraction /x
{"x":-0} => fraction /x
{"x":1e0} => fraction /x"##;

/// What is written of the object that a text is, or its first fault.
fn answer(rt: &impl Abort, alloc: Global, text: &str) -> String {
    let value = Value::from_str(alloc, text).expect(rt, "JSON");
    match read_object(alloc, value) {
        Ok(object) => written(rt, alloc, &object),
        Err(fault) => told(rt, alloc, &fault),
    }
}

/// What is told of a fault.
fn told(rt: &impl Abort, alloc: Global, fault: &ObjectFault) -> String {
    match fault {
        ObjectFault::Shape(place) => format!(in alloc; "shape {place}").expect(rt, "memory"),
        ObjectFault::Fraction(place) => format!(in alloc; "fraction {place}").expect(rt, "memory"),
        ObjectFault::NoMemory => String::from_str(alloc, "no memory").expect(rt, "memory"),
    }
}

fn written(rt: &impl Abort, alloc: Global, object: &DynamicObject) -> String {
    let value = write_object(alloc, object).expect(rt, "memory");
    value.to_string(alloc).expect(rt, "memory")
}

/// What stands before the arrow, and what behind it.
fn halves(line: &str) -> (&str, &str) {
    line.split_once(" => ").unwrap_or(("", ""))
}

/// A text is answered so.
fn answers(rt: &impl Abort, alloc: Global, text: &str, wanted: &str) {
    let answer = answer(rt, alloc, text);
    assert_eq!(rt; answer.as_str(), wanted);
}

#[test]
fn objects_are_written_in_one_form(rt: HostRuntime) {
    for line in WRITTEN.split('\n') {
        let (text, wanted) = halves(line);
        answers(&rt, rt.alloc(), text, wanted);
        answers(&rt, rt.alloc(), wanted, wanted);
    }
}

#[test]
fn the_first_fault_is_told_by_its_place(rt: HostRuntime) {
    for line in REFUSED.split('\n') {
        let (text, wanted) = halves(line);
        answers(&rt, rt.alloc(), text, wanted);
    }
}

#[test]
fn greatest_number_is_read(rt: HostRuntime) {
    let text = r#"{"term":18446744073709551615}"#;
    let value = Value::from_str(rt.alloc(), text).expect(&rt, "JSON");
    let term: u64 = member(rt.alloc(), &value, "term").expect(&rt, "a number");
    assert_eq!(rt; term, u64::MAX);
}
