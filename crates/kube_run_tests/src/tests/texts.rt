//! What is no JSON text, and how deep one may nest.

use crate::tests::ends;
use std::alloc::{AllocError, Global};
use std::process::Abort;
use std::test::Fail;

/// The head of a script without turns, whose last member is still to be written.
const HEAD: &str =
    r#"{"kind":{"group":"","version":"v1","kind":"ConfigMap","plural":"configmaps"},"root":{},"more":"#;

/// The line for what is no JSON text.
const SYNTAX: &str = r#"{"error":"script","fault":"syntax"}"#;

/// Last members of such a script that make it no JSON text, as bytes with the closing brace.
const BROKEN: [&[u8]; 12] = [
    b"",
    b"0",
    b"0}}",
    b"0}0",
    b"01}",
    b"+1}",
    b".5}",
    b"nil}",
    b"'a'}",
    b"[1,]}",
    b"\"\xff\"}",
    b"\"\\ud800\"}",
];

/// The script with this behind its head.
fn with_last(alloc: Global, last: &[u8]) -> Result<Vec<u8>, AllocError> {
    let mut bytes = Vec::from_slice(alloc, HEAD.as_bytes())?;
    bytes.extend_from_slice(last)?;
    Ok(bytes)
}

/// So many arrays, one in the other, and the closing brace.
fn nested(alloc: Global, depth: usize) -> Result<Vec<u8>, AllocError> {
    let mut bytes = vec![in alloc; b'['; depth]?;
    bytes.extend_from_slice(&vec![in alloc; b']'; depth]?)?;
    bytes.push(b'}')?;
    Ok(bytes)
}

/// The script with so many arrays in its last member ends so, and writes this line.
fn nests<R: Abort + AllocGlobal>(
    rt: &R,
    depth: usize,
    number: u8,
    wanted: &str,
) -> Result<(), Fail> {
    let script = with_last(rt.alloc(), &nested(rt.alloc(), depth)?)?;
    ends(rt, "run", &script, number, wanted)
}

#[test]
fn refuses_what_is_no_text(rt: HostRuntime) -> Result<(), Fail> {
    for last in BROKEN {
        ends(&rt, "run", &with_last(rt.alloc(), last)?, 3, SYNTAX)?;
    }
    ends(&rt, "run", b"\xef\xbb\xbf{}", 3, SYNTAX)
}

#[test]
fn nests_to_127(rt: HostRuntime) -> Result<(), Fail> {
    // The script itself is the first of them.
    nests(&rt, 126, 0, "")?;
    nests(&rt, 127, 3, SYNTAX)?;
    nests(&rt, 100000, 3, SYNTAX)
}
