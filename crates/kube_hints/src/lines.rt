//! What is told of a script.

use crate::expected::expected;
use crate::unread::{Unread, find_unread};
use kube_meta::{NoMemory, Text};
use kube_script::LoadError;
use kube_script::load::script;
use serde_json::Value;
use std::alloc::Global;

/// What is told of the bytes of a script, a line each: why they are none, and which members nothing reads (at most 20, and then
/// how many more).
///
/// # Errors
///
/// `NoMemory` where there is none for the lines.
pub fn hints(alloc: Global, bytes: &[u8]) -> Result<Vec<String>, NoMemory> {
    let mut lines = Vec::new(alloc);
    match Value::from_slice(alloc, bytes) {
        Ok(value) => {
            add_fault(alloc, &mut lines, bytes, &value)?;
            add_unread(alloc, &mut lines, find_unread(alloc, &value)?)?;
        }
        Err(error) if error.is_memory() => return Err(NoMemory),
        Err(error) => lines.push(format!(in alloc; "no JSON: {error}")?)?,
    }
    Ok(lines)
}

/// Adds why a value is no script.
fn add_fault(
    alloc: Global,
    lines: &mut Vec<String>,
    bytes: &[u8],
    value: &Value,
) -> Result<(), NoMemory> {
    let Err(error) = script(alloc, bytes) else {
        return Ok(());
    };
    match error {
        LoadError::Shape(place) => lines.push(shape(alloc, value, &place)?)?,
        LoadError::Fraction(place) => {
            lines.push(format!(in alloc; "at {place}: expected a whole number of 64 bits")?)?
        }
        LoadError::NoMemory => return Err(NoMemory),
        LoadError::TooLong | LoadError::Syntax => {}
    }
    Ok(())
}

/// What was expected at a place.
fn shape(alloc: Global, value: &Value, place: &Text) -> Result<String, NoMemory> {
    let what = expected(alloc, place.as_str())?;
    if value.pointer(place.as_str()).is_some() {
        return Ok(format!(in alloc; "at {place}: expected {what}")?);
    }
    Ok(format!(in alloc; "missing: {place}, {what}")?)
}

/// Adds the members that nothing reads.
fn add_unread(alloc: Global, lines: &mut Vec<String>, unread: Unread) -> Result<(), NoMemory> {
    for place in &unread.places {
        lines.push(format!(in alloc; "not read: {place}")?)?;
    }
    let more = unread.more;
    if more > 0 {
        lines.push(format!(in alloc; "not read: {more} more")?)?;
    }
    Ok(())
}
