//! Conditions, finalizers, waits and lives as tables, and each public call with ample memory.

mod conditions;
mod lives;
mod served;
mod texts;
mod waits;

use kube_api::ApiError;
use kube_meta::{DynamicObject, Text, read_object};
use serde_json::Value;
use std::alloc::Global;
use std::fmt;
use std::panic::Expect;
use std::process::Abort;

fn text(rt: &impl Abort, alloc: Global, text: &str) -> Text {
    Text::new(alloc, text).expect(rt, "memory")
}

/// A string of its own.
fn owned(rt: &impl Abort, alloc: Global, text: &str) -> String {
    String::from_str(alloc, text).expect(rt, "memory")
}

/// A call that could not be made.
fn fault(rt: &impl Abort, alloc: Global) -> ApiError {
    ApiError::Transport(text(rt, alloc, "torn"))
}

/// The object of a JSON text.
fn object(rt: &impl Abort, alloc: Global, text: &str) -> DynamicObject {
    let value = Value::from_str(alloc, text).expect(rt, "JSON");
    read_object(alloc, value).expect(rt, "an object")
}

/// The object of metadata as JSON.
fn with_metadata(rt: &impl Abort, alloc: Global, metadata: &str) -> DynamicObject {
    let text = format!(in alloc; "{{\"metadata\":{metadata}}}").expect(rt, "memory");
    object(rt, alloc, text.as_str())
}

/// The fault of a branch.
#[derive(Clone, Copy, Debug)]
struct Torn;

impl fmt::Display for Torn {
    fn fmt<W: fmt::Write>(&self, f: &mut fmt::Formatter<W>) -> fmt::Result {
        f.write_str("torn")
    }
}

/// What stands before the first bar of a line, and what behind it.
fn halves(line: &str) -> (&str, &str) {
    line.split_once(" | ").unwrap_or(("", ""))
}

fn is_text(rt: &impl Abort, text: &str, wanted: &str) {
    assert_eq!(rt; text, wanted);
}
