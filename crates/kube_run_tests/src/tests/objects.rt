//! Worked scripts with objects of every form.

use crate::tests::{line, outcome};
use std::alloc::{AllocError, Global};
use std::process::Abort;
use std::test::Fail;

/// Items, and what is written of each wherever a trace has it.
const SHOWN: [(&str, &str); 11] = [
    (
        r#"{"metadata":{"name":"a"}}"#,
        r#"{"metadata":{"name":"a"}}"#,
    ),
    (
        r#"{"metadata":{"name":"a"},"kind":"ConfigMap","apiVersion":"v1"}"#,
        r#"{"apiVersion":"v1","kind":"ConfigMap","metadata":{"name":"a"}}"#,
    ),
    (
        r#"{"metadata":{"name":"a","labels":{"tier":"2","app":"x"},"resourceVersion":"1"}}"#,
        r#"{"metadata":{"labels":{"app":"x","tier":"2"},"name":"a","resourceVersion":"1"}}"#,
    ),
    (
        r#"{"metadata":{"name":"a","annotations":{"note/x":"a \"b\"\n\u0001é"}}}"#,
        r#"{"metadata":{"annotations":{"note/x":"a \"b\"\n\u0001é"},"name":"a"}}"#,
    ),
    (
        r#"{"metadata":{"name":"a","finalizers":["z/z","a/a","z/z"],"deletionTimestamp":"2024-01-01T00:00:00Z"}}"#,
        r#"{"metadata":{"deletionTimestamp":"2024-01-01T00:00:00Z","finalizers":["z/z","a/a","z/z"],"name":"a"}}"#,
    ),
    (
        r#"{"metadata":{"ownerReferences":[{"uid":"u","name":"n","kind":"Node","controller":true,"apiVersion":"v1"}],"name":"a","uid":"7","generation":-3}}"#,
        r#"{"metadata":{"generation":-3,"name":"a","ownerReferences":[{"apiVersion":"v1","kind":"Node","name":"n","uid":"u"}],"uid":"7"}}"#,
    ),
    (
        r#"{"metadata":{"name":"a","labels":{},"annotations":{},"finalizers":[],"ownerReferences":[],"namespace":null,"managedFields":[1.5]}}"#,
        r#"{"metadata":{"name":"a"}}"#,
    ),
    (
        r#"{"spec":{"z":[],"y":null,"x":{"w":[1,-2,"t",true,{}]}},"metadata":{"name":"a"}}"#,
        r#"{"metadata":{"name":"a"},"spec":{"x":{"w":[1,-2,"t",true,{}]},"y":null,"z":[]}}"#,
    ),
    (
        r#"{"status":null,"":[],"data":{"k":"v"},"metadata":{"name":"a"},"Zone":false}"#,
        r#"{"":[],"Zone":false,"data":{"k":"v"},"metadata":{"name":"a"},"status":null}"#,
    ),
    (
        r#"{"metadata":{"name":"a"},"spec":[18446744073709551615,-9223372036854775808,0]}"#,
        r#"{"metadata":{"name":"a"},"spec":[18446744073709551615,-9223372036854775808,0]}"#,
    ),
    (
        r#"{"metadata":{"name":"a"},"spec":{"metadata":{"labels":{}},"kind":1,"apiVersion":null}}"#,
        r#"{"metadata":{"name":"a"},"spec":{"apiVersion":null,"kind":1,"metadata":{"labels":{}}}}"#,
    ),
];

/// Items that are no objects, each with its first fault.
const REFUSED: [(&str, &str); 13] = [
    (
        r#"{"metadata":{"name":"a"},"spec":{"size":1.5}}"#,
        r#"{"error":"script","fault":"fraction","place":"/root/lists/0/items/0/spec/size"}"#,
    ),
    (
        r#"{"metadata":{"name":"a"},"spec":[1e0]}"#,
        r#"{"error":"script","fault":"fraction","place":"/root/lists/0/items/0/spec/0"}"#,
    ),
    (
        r#"{"metadata":{"name":"a"},"spec":-0}"#,
        r#"{"error":"script","fault":"fraction","place":"/root/lists/0/items/0/spec"}"#,
    ),
    (
        r#"{"metadata":{"name":1}}"#,
        r#"{"error":"script","fault":"shape","place":"/root/lists/0/items/0/metadata/name"}"#,
    ),
    (
        r#"{"metadata":{"name":"a","labels":{"app":1}}}"#,
        r#"{"error":"script","fault":"shape","place":"/root/lists/0/items/0/metadata/labels/app"}"#,
    ),
    (
        r#"{"metadata":[1]}"#,
        r#"{"error":"script","fault":"shape","place":"/root/lists/0/items/0/metadata"}"#,
    ),
    (
        r#"{"metadata":{"name":"a","ownerReferences":[{"apiVersion":"v1","kind":"Node","name":"n"}]}}"#,
        r#"{"error":"script","fault":"shape","place":"/root/lists/0/items/0/metadata/ownerReferences/0/uid"}"#,
    ),
    (
        r#"{"metadata":{"name":"a","finalizers":[null]}}"#,
        r#"{"error":"script","fault":"shape","place":"/root/lists/0/items/0/metadata/finalizers/0"}"#,
    ),
    (
        r#"{"metadata":{"name":"a"},"apiVersion":"v1"}"#,
        r#"{"error":"script","fault":"shape","place":"/root/lists/0/items/0/kind"}"#,
    ),
    (
        r#"{"metadata":{"name":"a"},"kind":"ConfigMap"}"#,
        r#"{"error":"script","fault":"shape","place":"/root/lists/0/items/0/apiVersion"}"#,
    ),
    (
        r#"null"#,
        r#"{"error":"script","fault":"shape","place":"/root/lists/0/items/0"}"#,
    ),
    (
        r#"[]"#,
        r#"{"error":"script","fault":"shape","place":"/root/lists/0/items/0"}"#,
    ),
    (
        r#""a""#,
        r#"{"error":"script","fault":"shape","place":"/root/lists/0/items/0"}"#,
    ),
];

/// The script of a page with this item, of a watch that waits, and of a turn that takes once and shows the store.
fn script_of(alloc: Global, item: &str) -> Result<String, AllocError> {
    let mut script = String::from_str(
        alloc,
        r#"{"kind":{"group":"","version":"v1","kind":"ConfigMap","plural":"configmaps"},"root":{"lists":[{"items":["#,
    )?;
    script.push_str(item)?;
    script.push_str(
        r#"],"metadata":{"resourceVersion":"1"}}],"watches":[[{"wait":1000000000000}]]},"turns":[{"at":0,"budget":[1],"show":true}]}"#,
    )?;
    Ok(script)
}

/// Its trace, where this is written of the item, whose name is `a`.
fn trace_of(alloc: Global, object: &str) -> Result<String, AllocError> {
    let mut trace = String::from_str(
        alloc,
        r#"{"asks":[{"answer":"page","call":"list","from":null,"items":["#,
    )?;
    trace.push_str(object)?;
    trace.push_str(
        r#"],"requests":["ConfigMap.v1./a"],"source":0,"token":null,"version":"1"}],"at":0,"ended":false,"finished":[],"stops":["budget"],"store":["#,
    )?;
    trace.push_str(object)?;
    trace.push_str(r#"],"taken":[{"found":true,"object":"#)?;
    trace.push_str(object)?;
    trace.push_str(r#","reason":"object updated","ref":"ConfigMap.v1./a"}],"turn":0}"#)?;
    Ok(trace)
}

/// The program ends so for the script of an item, and writes this line.
fn ends<R: Abort + AllocGlobal>(rt: &R, item: &str, number: u8, wanted: &str) -> Result<(), Fail> {
    let alloc = rt.alloc();
    let script = script_of(alloc, item)?;
    let (status, written) = outcome(alloc, "run", script.as_bytes())?;
    assert_eq!(rt; status, number);
    assert_eq!(rt; written.as_slice(), line(alloc, wanted)?.as_slice());
    Ok(())
}

/// An item is an object of which this is written wherever a trace has it.
fn shows<R: Abort + AllocGlobal>(rt: &R, item: &str, object: &str) -> Result<(), Fail> {
    let trace = trace_of(rt.alloc(), object)?;
    ends(rt, item, 0, trace.as_str())
}

#[test]
fn objects_are_shown_in_one_form(rt: HostRuntime) -> Result<(), Fail> {
    for (item, object) in SHOWN {
        shows(&rt, item, object)?;
    }
    Ok(())
}

#[test]
fn other_items_are_refused(rt: HostRuntime) -> Result<(), Fail> {
    for (item, fault) in REFUSED {
        ends(&rt, item, 3, fault)?;
    }
    Ok(())
}
