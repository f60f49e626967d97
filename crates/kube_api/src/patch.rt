//! Patches of objects as JSON (RFC 6902).

ghost use Rattle.std.specs.Prelude.{◌≡◌, ◌<◌, ◌^◌, length, map, option_map, ok_or, Ok, Err, IfOk, IfErr, OnOk, OnErr};
ghost use Rattle.serde_json.specs.View.{view, items_view, members_view};
ghost use Rattle.serde_json.specs.Written.{has_float, items_have_float, members_have_float};
ghost use Rattle.kube_api.specs.Changes.{change_of};
ghost use Rattle.kube_api.specs.Patches.{operation_of, patched, performed, performed_from, Performs, changed_at, found_at, passes as passes_data, is_equal as is_equal_data, stays, is_object, has_same, text_of};
ghost use Rattle.kube_api.specs.declared.patch.PatchRefusal.TheVariants.{NoMemory as out_of_memory, PathMissing};

use crate::change::{Change, changed};
use crate::pointer::{find, parts};
use kube_meta::{NoMemory, ObjectFault, Text, read_object};
use serde_json::{Map, Value};
use std::alloc::{AllocError, Global};
use std::mem;
use thiserror::Error;

/// An operation of a patch (RFC 6902, sections 4.1, 4.2 and 4.6). A path is a JSON Pointer (RFC 6901).
#[derive(Debug, Drop)]
pub enum Patch {
    /// The value at the path is this one. A test for null passes too where nothing is there.
    Test { path: Text, value: Value },
    /// Sets a member of an object, inserts an item before the one at an index, or appends one at `-`.
    Add { path: Text, value: Value },
    /// Takes out what is there.
    Remove { path: Text },
}

/// Why a patch was refused. The numbers are those of its operations, from 0.
#[derive(Clone, Copy, Debug, PartialEq, Eq, Error)]
pub enum PatchRefusal {
    #[error("out of memory")]
    NoMemory,
    /// There is no object of that name.
    #[error("NotFound")]
    NotFound,
    /// Another value, or none, is at the path of a test.
    #[error("TestFailed")]
    TestFailed(u32),
    /// An addition has no parent or is past its length, or nothing is where something is to be removed.
    #[error("PathMissing")]
    PathMissing(u32),
    /// The document would be no object, or one with another name, namespace or uid.
    #[error("NotAnObject")]
    NotAnObject,
}

/// Applies a patch to a document: all of its operations in order, or none.
///
/// Values are equal where neither holds a number that is neither a `u64` nor an `i64`, and their texts without spaces
/// are equal. An item's index is decimal without a leading zero. Removing the whole document leaves null.
///
/// Errors: `TestFailed`, `PathMissing` and `NotAnObject` as said there, and `NoMemory`. The document is then as it was.
pub fn apply_patch(alloc: Global, document: &mut Value, patch: &[Patch]) -> Result<(), PatchRefusal>
    requires { length patch.now < 2 ^ 32 }
    ensures ok { OnOk result (patched (map operation_of patch.now) (view document.old) ≡ Ok (view document.new)) }
    ensures refused { IfErr result (λ e. ¬ (e ≡ out_of_memory) → patched (map operation_of patch.now) (view document.old) ≡ Err e) }
    ensures unchanged { OnErr result (document.new ≡ document.old) }
{
    let mut after = document.clone()?;
    perform_all(alloc, &mut after, patch)?;
    if !stays_itself(alloc, document, &after)? {
        return Err(PatchRefusal::NotAnObject);
    }
    *document = after;
    Ok(())
}

/// Performs the operations in order, as far as the first that is refused.
///
/// Errors: those of `apply_patch`, and the document is then spoilt.
fn perform_all(alloc: Global, document: &mut Value, patch: &[Patch]) -> Result<(), PatchRefusal>
    requires { length patch.now < 2 ^ 32 }
    ensures { Performs result (view document.new) (performed_from 0 (map operation_of patch.now) (view document.old)) }
{
    for index in 0..patch.len() {
        perform(alloc, document, &patch[index], index as u32)?;
    }
    Ok(())
}

fn perform(
    alloc: Global,
    document: &mut Value,
    operation: &Patch,
    number: u32,
) -> Result<(), PatchRefusal>
    ensures { Performs result (view document.new) (performed number (operation_of operation.now) (view document.old)) }
{
    match operation {
        Patch::Test { path, value } => {
            if passes(alloc, document, path, value)? {
                Ok(())
            } else {
                Err(PatchRefusal::TestFailed(number))
            }
        }
        Patch::Add { path, value } => {
            let part = value.clone()?;
            change(alloc, document, path, Change::Put(part), number)
        }
        Patch::Remove { path } => change(alloc, document, path, Change::Take, number),
    }
}

fn change(
    alloc: Global,
    document: &mut Value,
    path: &Text,
    change: Change,
    number: u32,
) -> Result<(), PatchRefusal>
    ensures { Performs result (view document.new) (ok_or (changed_at (change_of change) path.now (view document.old)) (PathMissing number)) }
{
    let Some(names) = parts(alloc, path.as_str())? else {
        return Err(PatchRefusal::PathMissing(number));
    };
    let before = mem::replace(document, Value::Null);
    match changed(alloc, before, names.as_slice(), change)? {
        Some(after) => {
            *document = after;
            Ok(())
        }
        None => Err(PatchRefusal::PathMissing(number)),
    }
}

fn passes(alloc: Global, document: &Value, path: &Text, value: &Value) -> Result<bool, NoMemory>
    ensures { IfOk result (λ passed. passed ≡ passes_data (view value.now) (found_at path.now (view document.now))) }
{
    let Some(names) = parts(alloc, path.as_str())? else {
        return Ok(value.is_null());
    };
    match find(document, names.as_slice()) {
        Some(found) => is_equal(alloc, found, value),
        None => Ok(value.is_null()),
    }
}

/// Whether values are equal, as a patch's test has it.
///
/// Errors: `NoMemory`.
pub fn is_equal(alloc: Global, left: &Value, right: &Value) -> Result<bool, NoMemory>
    ensures { IfOk result (λ equal. equal ≡ is_equal_data (view left.now) (view right.now)) }
{
    if holds_fraction(left) || holds_fraction(right) {
        return Ok(false);
    }
    Ok(left.to_string(alloc)? == right.to_string(alloc)?)
}

#[cycle(fraction)]
fn holds_fraction(value: &Value) -> bool
    ensures { result ≡ has_float (view value.now) }
{
    match value {
        Value::Number(number) => number.is_f64(),
        Value::Array(items) => item_holds_fraction(items),
        Value::Object(members) => member_holds_fraction(members),
        _ => false,
    }
}

#[cycle(fraction)]
fn item_holds_fraction(items: &[Value]) -> bool
    ensures { result ≡ items_have_float (items_view items.now) }
{
    for item in items {
        if holds_fraction(item) {
            return true;
        }
    }
    false
}

#[cycle(fraction)]
fn member_holds_fraction(members: &Map<String, Value>) -> bool
    ensures { result ≡ members_have_float (members_view members.now.entries) }
{
    for (_name, value) in members.iter() {
        if holds_fraction(value) {
            return true;
        }
    }
    false
}

/// Whether a document is an object with the name, the namespace and the uid of the one before.
///
/// Errors: `NoMemory`.
fn stays_itself(alloc: Global, before: &Value, after: &Value) -> Result<bool, NoMemory>
    ensures { IfOk result (λ same. same ≡ stays (view before.now) (view after.now)) }
{
    if !is_object(alloc, after)? {
        return Ok(false);
    }
    Ok(
        has_same(before, after, "name")
            && has_same(before, after, "namespace")
            && has_same(before, after, "uid"),
    )
}

/// Whether an object can be read of a document.
///
/// Errors: `NoMemory`.
fn is_object(alloc: Global, document: &Value) -> Result<bool, NoMemory>
    ensures { IfOk result (λ read. read ≡ is_object (view document.now)) }
{
    match read_object(alloc, document.clone()?) {
        Ok(_) => Ok(true),
        Err(ObjectFault::NoMemory) => Err(NoMemory),
        Err(_) => Ok(false),
    }
}

fn has_same(before: &Value, after: &Value, name: &str) -> bool
    ensures { result ≡ has_same name.now (view before.now) (view after.now) }
{
    text_of(before, name) == text_of(after, name)
}

/// The text that the metadata of a document hold under a name.
fn text_of<'a>(document: &'a Value, name: &str) -> Option<&'a str>
    ensures { option_map (λ t. t.now) result ≡ text_of name.now (view document.now) }
{
    document.get("metadata")?.get(name)?.as_str()
}

impl From<NoMemory> for PatchRefusal {
    ghost from_gives = { λ _ e. e ≡ out_of_memory };

    fn from(_error: NoMemory) -> PatchRefusal {
        PatchRefusal::NoMemory
    }
}

impl From<AllocError> for PatchRefusal {
    ghost from_gives = { λ _ e. e ≡ out_of_memory };

    fn from(_error: AllocError) -> PatchRefusal {
        PatchRefusal::NoMemory
    }
}
