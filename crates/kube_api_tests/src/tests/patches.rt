//! Patches of documents, as RFC 6902 has them, with a test for null that passes where nothing is.

use kube_api::copies::copy_patch;
use kube_api::patch::is_equal;
use kube_api::{Patch, PatchRefusal, apply_patch};
use kube_meta::Text;
use serde_json::Value;
use std::alloc::Global;
use std::panic::Expect;
use std::process::Abort;
use std::test::Fail;

/// A document, a patch, and what becomes of the document: its text, or the refusal with the operation's number.
type Row = (&'static str, &'static str, &'static str);

/// Additions to objects, and to the whole document.
const OBJECTS: [Row; 13] = [
    ("{}", "[]", "{}"),
    ("{}", r#"[["add","/a",1]]"#, r#"{"a":1}"#),
    (r#"{"a":1}"#, r#"[["add","/a",[null]]]"#, r#"{"a":[null]}"#),
    ("{}", r#"[["add","/",1]]"#, r#"{"":1}"#),
    (r#"{"a":{}}"#, r#"[["add","/a/",1]]"#, r#"{"a":{"":1}}"#),
    (r#"{"a":{}}"#, r#"[["add","/a/b/c",1]]"#, "PathMissing 0"),
    (r#"{"a":1}"#, r#"[["add","/a/b",1]]"#, "PathMissing 0"),
    (r#"{"a":"x"}"#, r#"[["add","/a/0",1]]"#, "PathMissing 0"),
    ("{}", r#"[["add","a",1]]"#, "PathMissing 0"),
    (
        "{}",
        r#"[["add","/a",{}],["add","/a/b",[]],["add","/a/b/-",2]]"#,
        r#"{"a":{"b":[2]}}"#,
    ),
    ("{}", r#"[["add","",{"b":2}]]"#, r#"{"b":2}"#),
    ("{}", r#"[["add","",[1]]]"#, "NotAnObject"),
    (
        r#"{"a":1}"#,
        r#"[["add","",null],["add","",{"c":3}]]"#,
        r#"{"c":3}"#,
    ),
];

/// Additions to arrays.
const ARRAYS: [Row; 15] = [
    (
        r#"{"a":[1,3]}"#,
        r#"[["add","/a/1",2]]"#,
        r#"{"a":[1,2,3]}"#,
    ),
    (r#"{"a":[1]}"#, r#"[["add","/a/0",0]]"#, r#"{"a":[0,1]}"#),
    (r#"{"a":[1]}"#, r#"[["add","/a/1",2]]"#, r#"{"a":[1,2]}"#),
    (r#"{"a":[1]}"#, r#"[["add","/a/2",2]]"#, "PathMissing 0"),
    (r#"{"a":[1]}"#, r#"[["add","/a/-",2]]"#, r#"{"a":[1,2]}"#),
    (
        r#"{"a":[]}"#,
        r#"[["add","/a/-",[]],["add","/a/0/-",1]]"#,
        r#"{"a":[[1]]}"#,
    ),
    (r#"{"a":[1]}"#, r#"[["add","/a/-/b",2]]"#, "PathMissing 0"),
    (r#"{"a":[1]}"#, r#"[["add","/a/01",2]]"#, "PathMissing 0"),
    (r#"{"a":[1]}"#, r#"[["add","/a/+1",2]]"#, "PathMissing 0"),
    (r#"{"a":[1]}"#, r#"[["add","/a/1e0",2]]"#, "PathMissing 0"),
    (r#"{"a":[1]}"#, r#"[["add","/a/x",2]]"#, "PathMissing 0"),
    (r#"{"a":[1]}"#, r#"[["add","/a/",2]]"#, "PathMissing 0"),
    (
        r#"{"a":[1]}"#,
        r#"[["add","/a/18446744073709551616",2]]"#,
        "PathMissing 0",
    ),
    (
        r#"{"a":[[1,2],{"b":[3]}]}"#,
        r#"[["add","/a/1/b/0",2],["add","/a/0/1",9]]"#,
        r#"{"a":[[1,9,2],{"b":[2,3]}]}"#,
    ),
    (
        r#"{"-":1}"#,
        r#"[["add","/-",2],["add","/0",3]]"#,
        r#"{"-":2,"0":3}"#,
    ),
];

/// Removals.
const REMOVALS: [Row; 11] = [
    (r#"{"a":1,"b":2}"#, r#"[["remove","/a"]]"#, r#"{"b":2}"#),
    (
        r#"{"a":[1,2,3]}"#,
        r#"[["remove","/a/1"]]"#,
        r#"{"a":[1,3]}"#,
    ),
    (
        r#"{"a":[1,2,3]}"#,
        r#"[["remove","/a/0"],["remove","/a/1"]]"#,
        r#"{"a":[2]}"#,
    ),
    (r#"{"a":[1]}"#, r#"[["remove","/a/1"]]"#, "PathMissing 0"),
    (r#"{"a":[1]}"#, r#"[["remove","/a/-"]]"#, "PathMissing 0"),
    (r#"{"a":[1]}"#, r#"[["remove","/a/00"]]"#, "PathMissing 0"),
    (r#"{"a":1}"#, r#"[["remove","/b"]]"#, "PathMissing 0"),
    (r#"{"a":1}"#, r#"[["remove","b"]]"#, "PathMissing 0"),
    (r#"{"a":1}"#, r#"[["remove","/a/b"]]"#, "PathMissing 0"),
    (r#"{"a":null}"#, r#"[["remove","/a"]]"#, "{}"),
    (r#"{"a":1}"#, r#"[["remove",""]]"#, "NotAnObject"),
];

/// Names with escapes, and patches of which an operation is refused.
const ESCAPES: [Row; 6] = [
    (
        "{}",
        r#"[["add","/a~1b",1],["add","/a~0b",2],["add","/~01",3]]"#,
        r#"{"a/b":1,"a~b":2,"~1":3}"#,
    ),
    (
        r#"{"a/b":{"~":1}}"#,
        r#"[["test","/a~1b/~0",1],["remove","/a~1b/~0"]]"#,
        r#"{"a/b":{}}"#,
    ),
    (r#"{"~":1,"/":2}"#, r#"[["remove","/~1"]]"#, r#"{"~":1}"#),
    (
        r#"{"~2":1,"~":2}"#,
        r#"[["test","/~2",1],["test","/~",2]]"#,
        r#"{"~":2,"~2":1}"#,
    ),
    (
        r#"{"a":1}"#,
        r#"[["remove","/a"],["test","/b",1]]"#,
        "TestFailed 1",
    ),
    (
        r#"{"a":1}"#,
        r#"[["add","/b",2],["test","/b",2],["remove","/c"],["remove","/a"]]"#,
        "PathMissing 2",
    ),
];

/// Tests of values.
const TESTS: [Row; 14] = [
    (
        r#"{"a":{"b":1,"c":[2]}}"#,
        r#"[["test","/a",{"c":[2],"b":1}]]"#,
        r#"{"a":{"b":1,"c":[2]}}"#,
    ),
    (r#"{"a":[1,2]}"#, r#"[["test","/a",[2,1]]]"#, "TestFailed 0"),
    (r#"{"a":1}"#, r#"[["test","/a",2]]"#, "TestFailed 0"),
    (r#"{"a":"1"}"#, r#"[["test","/a",1]]"#, "TestFailed 0"),
    (
        r#"{"a":{"b":1}}"#,
        r#"[["test","/a",{"b":1,"c":null}]]"#,
        "TestFailed 0",
    ),
    (r#"{"a":1}"#, r#"[["test","/b",1]]"#, "TestFailed 0"),
    (r#"{"a":1}"#, r#"[["test","b",1]]"#, "TestFailed 0"),
    (
        r#"{"a":1}"#,
        r#"[["test","/b",null],["test","/a/b",null],["test","/a",null]]"#,
        "TestFailed 2",
    ),
    (
        r#"{"a":null}"#,
        r#"[["test","/a",null],["test","a",null]]"#,
        r#"{"a":null}"#,
    ),
    (
        r#"{"a":[1]}"#,
        r#"[["test","/a/0",1],["test","/a/1",null],["test","/a/00",1]]"#,
        "TestFailed 2",
    ),
    ("{}", r#"[["test","",{}]]"#, "{}"),
    (
        r#"{"a":18446744073709551615}"#,
        r#"[["test","/a",18446744073709551615]]"#,
        r#"{"a":18446744073709551615}"#,
    ),
    (
        r#"{"metadata":{"x":18446744073709551616}}"#,
        r#"[["test","/metadata/x",18446744073709551616]]"#,
        "TestFailed 0",
    ),
    (
        r#"{"metadata":{"x":[1.5]}}"#,
        r#"[["test","/metadata/x",[1.5]]]"#,
        "TestFailed 0",
    ),
];

/// Documents that would be no object, or another one.
const IDENTITIES: [Row; 10] = [
    ("{}", r#"[["add","/x",1.5]]"#, "NotAnObject"),
    (
        r#"{"metadata":{"name":"a"}}"#,
        r#"[["add","/metadata/name","b"]]"#,
        "NotAnObject",
    ),
    (
        r#"{"metadata":{"name":"a","uid":"u"}}"#,
        r#"[["remove","/metadata/uid"]]"#,
        "NotAnObject",
    ),
    (
        r#"{"metadata":{}}"#,
        r#"[["add","/metadata/namespace","n"]]"#,
        "NotAnObject",
    ),
    (
        r#"{"metadata":{"name":"a"}}"#,
        r#"[["add","/metadata/name","b"],["add","/metadata/name","a"]]"#,
        r#"{"metadata":{"name":"a"}}"#,
    ),
    (
        "null",
        r#"[["add","",{"metadata":{"name":"a"}}]]"#,
        "NotAnObject",
    ),
    (
        r#"{"metadata":{"name":"a"},"x":1.5}"#,
        r#"[["remove","/x"]]"#,
        r#"{"metadata":{"name":"a"}}"#,
    ),
    (
        r#"{"metadata":{"name":"a"},"x":1.5}"#,
        r#"[["remove","/x"],["remove","/metadata/name"]]"#,
        "NotAnObject",
    ),
    (
        r#"{"metadata":{"name":"a","labels":5}}"#,
        r#"[["remove","/metadata/labels"]]"#,
        r#"{"metadata":{"name":"a"}}"#,
    ),
    (
        r#"{"metadata":{"name":null}}"#,
        r#"[["remove","/metadata/name"]]"#,
        r#"{"metadata":{}}"#,
    ),
];

/// A copy of a value, and null for none.
fn copied(rt: &impl Abort, value: Option<&Value>) -> Value {
    match value {
        Some(value) => value.clone().expect(rt, "memory"),
        None => Value::Null,
    }
}

/// The operation that a list of its kind, path and value stands for.
fn operation(rt: &impl Abort, alloc: Global, given: &Value) -> Patch {
    let kind = given.get(0).and_then(Value::as_str).unwrap_or("");
    let path = given.get(1).and_then(Value::as_str).unwrap_or("");
    let path = Text::new(alloc, path).expect(rt, "memory");
    match kind {
        "test" => Patch::Test {
            path,
            value: copied(rt, given.get(2)),
        },
        "add" => Patch::Add {
            path,
            value: copied(rt, given.get(2)),
        },
        _ => Patch::Remove { path },
    }
}

/// The operations of a value that is read.
fn listed(rt: &impl Abort, alloc: Global, given: &Value) -> Vec<Patch> {
    let mut patch = Vec::new(alloc);
    if let Some(items) = given.as_array() {
        for item in items {
            patch.push(operation(rt, alloc, item)).expect(rt, "memory");
        }
    }
    patch
}

fn operations(rt: &impl Abort, alloc: Global, text: &str) -> Vec<Patch> {
    let given = Value::from_str(alloc, text).expect(rt, "JSON");
    listed(rt, alloc, &given)
}

fn text_of(rt: &impl Abort, alloc: Global, value: &Value) -> String {
    value.to_string(alloc).expect(rt, "memory")
}

fn refused(rt: &impl Abort, alloc: Global, refusal: PatchRefusal) -> String {
    match refusal {
        PatchRefusal::TestFailed(number) | PatchRefusal::PathMissing(number) => {
            format!(in alloc; "{refusal} {number}").expect(rt, "memory")
        }
        _ => format!(in alloc; "{refusal}").expect(rt, "memory"),
    }
}

/// Whether a value's text is this.
fn has_text(rt: &impl Abort, alloc: Global, value: &Value, text: &str) -> bool {
    let now = text_of(rt, alloc, value);
    now.as_str() == text
}

/// The text of a refusal; a document that was refused is as it was.
fn refusal_of(
    rt: &impl Abort,
    alloc: Global,
    value: &Value,
    before: &str,
    refusal: PatchRefusal,
) -> String {
    if has_text(rt, alloc, value, before) {
        refused(rt, alloc, refusal)
    } else {
        String::from_str(alloc, "changed").expect(rt, "memory")
    }
}

/// The answer's text; a patch of more than 9 operations has none.
fn patched(rt: &impl Abort, alloc: Global, value: &mut Value, patch: &[Patch]) -> String {
    if patch.len() > 9 {
        return String::new(alloc);
    }
    let before = text_of(rt, alloc, value);
    match apply_patch(alloc, value, patch) {
        Ok(()) => text_of(rt, alloc, value),
        Err(refusal) => refusal_of(rt, alloc, value, before.as_str(), refusal),
    }
}

/// The same of a document and a patch as texts, of which a copy is applied.
fn answer(rt: &impl Abort, alloc: Global, document: &str, patch: &str) -> String {
    let mut value = Value::from_str(alloc, document).expect(rt, "JSON");
    let patch = operations(rt, alloc, patch);
    let copy = copy_patch(alloc, &patch).expect(rt, "memory");
    patched(rt, alloc, &mut value, &copy)
}

/// Each document becomes what it is to.
fn check<R: Abort + AllocGlobal>(rt: &R, rows: &[Row]) {
    for (document, patch, wanted) in rows {
        let answer = answer(rt, rt.alloc(), document, patch);
        assert_eq!(rt; answer.as_str(), *wanted);
    }
}

#[test]
fn additions_to_objects(rt: HostRuntime) -> Result<(), Fail> {
    check(&rt, &OBJECTS);
    Ok(())
}

#[test]
fn additions_to_arrays(rt: HostRuntime) -> Result<(), Fail> {
    check(&rt, &ARRAYS);
    Ok(())
}

#[test]
fn removals(rt: HostRuntime) -> Result<(), Fail> {
    check(&rt, &REMOVALS);
    Ok(())
}

#[test]
fn escapes_and_all_or_none(rt: HostRuntime) -> Result<(), Fail> {
    check(&rt, &ESCAPES);
    Ok(())
}

#[test]
fn tests_of_values(rt: HostRuntime) -> Result<(), Fail> {
    check(&rt, &TESTS);
    Ok(())
}

#[test]
fn the_object_stays_that_object(rt: HostRuntime) -> Result<(), Fail> {
    check(&rt, &IDENTITIES);
    Ok(())
}

/// Two values, and whether they are equal.
const VALUES: [(&str, &str, bool); 4] = [
    ("1", "1", true),
    ("1.5", "1.5", false),
    (r#"{"a":[1],"b":null}"#, r#"{ "b": null, "a": [1] }"#, true),
    (r#"{"a":1}"#, r#"{"a":"1"}"#, false),
];

fn are_equal(rt: &impl Abort, alloc: Global, left: &str, right: &str) -> bool {
    let left = Value::from_str(alloc, left).expect(rt, "JSON");
    let right = Value::from_str(alloc, right).expect(rt, "JSON");
    is_equal(alloc, &left, &right).expect(rt, "memory")
}

#[test]
fn values_are_equal(rt: HostRuntime) -> Result<(), Fail> {
    for (left, right, equal) in &VALUES {
        let answer = are_equal(&rt, rt.alloc(), left, right);
        assert_eq!(rt; answer, *equal);
    }
    Ok(())
}
