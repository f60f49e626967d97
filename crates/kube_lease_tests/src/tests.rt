//! Leases, candidates and elections as tables, and each public call with ample memory.

ghost use Rattle.std.specs.Prelude.{◌≡◌};

mod elections;
mod leases;
mod polls;

use kube_meta::{DynamicObject, Text, read_object};
use serde_json::Value;
use std::alloc::Global;
use std::panic::Expect;
use std::process::Abort;

fn text(rt: &impl Abort, alloc: Global, text: &str) -> Text
    ensures { result ≡ text.now }
{
    Text::new(alloc, text).expect(rt, "memory")
}

/// A string of its own.
fn owned(rt: &impl Abort, alloc: Global, text: &str) -> String {
    String::from_str(alloc, text).expect(rt, "memory")
}

/// The object of a spec as JSON.
fn with_spec(rt: &impl Abort, alloc: Global, spec: &str) -> DynamicObject {
    let text = format!(in alloc; "{{\"metadata\":{{\"name\":\"lease\"}},\"spec\":{spec}}}").expect(
        rt, "memory",
    );
    let value = Value::from_str(alloc, text.as_str()).expect(rt, "JSON");
    read_object(alloc, value).expect(rt, "an object")
}

/// What stands before the first bar of a line, and what behind it.
fn halves(line: &str) -> (&str, &str) {
    line.split_once(" | ").unwrap_or(("", ""))
}

fn is_text(rt: &impl Abort, text: &str, wanted: &str) {
    assert_eq!(rt; text, wanted);
}
