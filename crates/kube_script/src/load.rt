//! The script that bytes are.

ghost use Rattle.kube_script.specs.Loaded.{Answers};
ghost use Rattle.kube_script.specs.Whole.{script_of};

use crate::owned::OwnedRow;
use crate::script::Script;
use kube_meta::{ObjectFault, Text};
use serde_json::Value;
use std::alloc::Global;

/// Why bytes are no script. Places are JSON Pointers (RFC 6901).
#[derive(Debug, Drop)]
pub enum LoadError {
    /// Memory could not be had.
    NoMemory,
    /// They are more than 16,777,216.
    TooLong,
    /// They aren't UTF-8, have no reading as JSON, or nest deeper than 127.
    Syntax,
    /// What stands there, or is missing there, has not the form of a script.
    Shape(Text),
    /// In an object there stands a number that is neither a `u64` nor an `i64`.
    Fraction(Text),
}

/// The script that bytes are: one JSON text (RFC 8259) by `serde_json`'s reading, of the form that `specs/Script.antt` says.
///
/// # Errors
///
/// Each variant of `LoadError` where it says, the first in their order: length, text, and then the first fault in the order
/// of the tables. `NoMemory` may come anywhere.
#[tactic(auto, using(crate::proofs::Utf8::is_text, crate::proofs::Utf8::no_text), unfolding(crate::specs::Whole::script_of))]
pub fn script(alloc: Global, bytes: &[u8]) -> Result<Script, LoadError>
    ensures { Answers result (script_of bytes.now) }
{
    if bytes.len() > 16_777_216 {
        return Err(LoadError::TooLong);
    }
    let value = match Value::from_slice(alloc, bytes) {
        Ok(value) => value,
        Err(error) if error.is_memory() => return Err(LoadError::NoMemory),
        Err(_) => return Err(LoadError::Syntax),
    };
    match Script::read(alloc, value) {
        Ok(script) => Ok(script),
        Err(ObjectFault::NoMemory) => Err(LoadError::NoMemory),
        Err(ObjectFault::Shape(place)) => Err(LoadError::Shape(place)),
        Err(ObjectFault::Fraction(place)) => Err(LoadError::Fraction(place)),
    }
}
