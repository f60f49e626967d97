//! Objects and refusals, and what is written of them.

mod records;

use json::Writer;
use kube_meta::{NoMemory, Text};
use kube_object::ScriptObject;
use kube_text::refusal::{Refusal, refusal_line};
use kube_text::show::Show;
use serde_json::Value;
use std::alloc::{AllocError, Global};
use std::process::Abort;
use std::test::Fail;

/// Objects, and what is written of each.
const SHOWN: [(&str, &str); 14] = [
    (
        r#"{"metadata":{"name":"a"}}"#,
        r#"{"metadata":{"name":"a"}}"#,
    ),
    (
        r#"{"metadata":{"name":"a"},"kind":"ConfigMap","apiVersion":"v1"}"#,
        r#"{"apiVersion":"v1","kind":"ConfigMap","metadata":{"name":"a"}}"#,
    ),
    (
        r#"{"metadata":{"name":"a","labels":{"tier":"2","app":"x"},"resourceVersion":"1"}}"#,
        r#"{"metadata":{"labels":{"app":"x","tier":"2"},"name":"a","resourceVersion":"1"}}"#,
    ),
    (
        r#"{"metadata":{"name":"a","annotations":{"note/x":"a \"b\"\n\u0001é"}}}"#,
        r#"{"metadata":{"annotations":{"note/x":"a \"b\"\n\u0001é"},"name":"a"}}"#,
    ),
    (
        r#"{"metadata":{"name":"a","finalizers":["z/z","a/a","z/z"],"deletionTimestamp":"2024-01-01T00:00:00Z"}}"#,
        r#"{"metadata":{"deletionTimestamp":"2024-01-01T00:00:00Z","finalizers":["z/z","a/a","z/z"],"name":"a"}}"#,
    ),
    (
        r#"{"metadata":{"ownerReferences":[{"uid":"u","name":"n","kind":"Node","controller":true,"apiVersion":"v1"}],"name":"a","uid":"7","generation":-3}}"#,
        r#"{"metadata":{"generation":-3,"name":"a","ownerReferences":[{"apiVersion":"v1","kind":"Node","name":"n","uid":"u"}],"uid":"7"}}"#,
    ),
    (
        r#"{"metadata":{"name":"a","labels":{},"annotations":{},"finalizers":[],"ownerReferences":[],"namespace":null,"managedFields":[1.5]}}"#,
        r#"{"metadata":{"name":"a"}}"#,
    ),
    (
        r#"{"spec":{"z":[],"y":null,"x":{"w":[1,-2,"t",true,{}]}},"metadata":{"name":"a"}}"#,
        r#"{"metadata":{"name":"a"},"spec":{"x":{"w":[1,-2,"t",true,{}]},"y":null,"z":[]}}"#,
    ),
    (
        r#"{"status":null,"":[],"data":{"k":"v"},"metadata":{"name":"a"},"Zone":false}"#,
        r#"{"":[],"Zone":false,"data":{"k":"v"},"metadata":{"name":"a"},"status":null}"#,
    ),
    (
        r#"{"metadata":{"name":"a"},"spec":[18446744073709551615,-9223372036854775808,0]}"#,
        r#"{"metadata":{"name":"a"},"spec":[18446744073709551615,-9223372036854775808,0]}"#,
    ),
    (
        r#"{"metadata":{"name":"a"},"spec":{"metadata":{"labels":{}},"kind":1,"apiVersion":null}}"#,
        r#"{"metadata":{"name":"a"},"spec":{"apiVersion":null,"kind":1,"metadata":{"labels":{}}}}"#,
    ),
    (
        r#"{"zone":1,"metadata":{"name":"a"},"lead":2,"kind":"K","apiVersion":"v1","alpha":3,"apiVersions":4,"kinds":5,"metadatas":6}"#,
        r#"{"alpha":3,"apiVersion":"v1","apiVersions":4,"kind":"K","kinds":5,"lead":2,"metadata":{"name":"a"},"metadatas":6,"zone":1}"#,
    ),
    ("{}", r#"{"metadata":{}}"#),
    (
        r#"{"metadata":{"name":"","generation":0}}"#,
        r#"{"metadata":{"generation":0,"name":""}}"#,
    ),
];

/// What is written of the object that a text is.
fn shown(alloc: Global, text: &str) -> Result<Vec<u8>, Fail> {
    let object = ScriptObject::read(alloc, Value::from_str(alloc, text)?)?;
    let mut writer = Writer::new(Vec::new(alloc));
    object.show(alloc, &mut writer)?;
    Ok(writer.into_inner())
}

#[test]
fn objects_are_written_in_one_form(rt: HostRuntime) -> Result<(), Fail> {
    for (text, wanted) in SHOWN {
        assert_eq!(rt; shown(rt.alloc(), text)?.as_slice(), wanted.as_bytes());
    }
    Ok(())
}

/// Why there is no trace, by its kind.
#[derive(Clone, Copy)]
enum Why {
    Usage,
    TooLong,
    Syntax,
    Shape,
    Fraction,
    Moment,
    NotRunning,
    Twice,
    Unnamed,
}

/// Refusals at the place `/a` or at turn 1, finish 2 and source 3, and the line of each.
const REFUSED: [(Why, &str); 9] = [
    (Why::Usage, r#"{"error":"usage"}"#),
    (Why::TooLong, r#"{"error":"script","fault":"too long"}"#),
    (Why::Syntax, r#"{"error":"script","fault":"syntax"}"#),
    (
        Why::Shape,
        r#"{"error":"script","fault":"shape","place":"/a"}"#,
    ),
    (
        Why::Fraction,
        r#"{"error":"script","fault":"fraction","place":"/a"}"#,
    ),
    (Why::Moment, r#"{"error":"turn","turn":1,"why":"moment"}"#),
    (
        Why::NotRunning,
        r#"{"error":"turn","finish":2,"turn":1,"why":"not running"}"#,
    ),
    (
        Why::Twice,
        r#"{"error":"turn","finish":2,"turn":1,"why":"twice"}"#,
    ),
    (Why::Unnamed, r#"{"error":"unnamed","source":3,"turn":1}"#),
];

fn refusal(alloc: Global, why: Why) -> Result<Refusal, NoMemory> {
    match why {
        Why::Usage => Ok(Refusal::Usage),
        Why::TooLong => Ok(Refusal::TooLong),
        Why::Syntax => Ok(Refusal::Syntax),
        Why::Shape => Ok(Refusal::Shape {
            place: Text::new(alloc, "/a")?,
        }),
        Why::Fraction => Ok(Refusal::Fraction {
            place: Text::new(alloc, "/a")?,
        }),
        Why::Moment => Ok(Refusal::Moment { turn: 1 }),
        Why::NotRunning => Ok(Refusal::NotRunning { turn: 1, finish: 2 }),
        Why::Twice => Ok(Refusal::Twice { turn: 1, finish: 2 }),
        Why::Unnamed => Ok(Refusal::Unnamed { source: 3, turn: 1 }),
    }
}

/// A line, with its line feed.
fn line(alloc: Global, text: &str) -> Result<Vec<u8>, AllocError> {
    let mut line = Vec::from_slice(alloc, text.as_bytes())?;
    line.push(10)?;
    Ok(line)
}

#[test]
fn refusals_have_their_lines(rt: HostRuntime) -> Result<(), Fail> {
    let alloc = rt.alloc();
    for (why, wanted) in REFUSED {
        let written = refusal_line(alloc, &refusal(alloc, why)?)?;
        assert_eq!(rt; written.as_slice(), line(alloc, wanted)?.as_slice());
    }
    Ok(())
}
