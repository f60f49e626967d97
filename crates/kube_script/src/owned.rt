//! Readers that keep content of the value, which is moved and not copied.

ghost use Rattle.std.specs.Prelude.{◌≡◌, List, Result, Option, map, option_map};
ghost use Rattle.std.specs.Arc.{arc_value};
ghost use Rattle.serde_json.specs.Data.{Data};
ghost use Rattle.serde_json.specs.Find.{get};
ghost use Rattle.serde_json.specs.View.{view, items_view};
ghost use Rattle.kube_meta.specs.declared.object_fault.ObjectFault.{ObjectFault as fault_data};
ghost use Rattle.kube_meta.specs.Places.{Gives};
ghost use Rattle.kube_meta.specs.Reading.{ObjectData as object_record, object_data_at, field, needed, items_at, list_at, optional, maybe_field};
ghost use Rattle.kube_script.specs.Reading.{list_field, list_of};

use kube_meta::ObjectFault;
use kube_object::ScriptObject;
use serde_json::Value;
use std::alloc::Global;
use std::sync::Arc;

/// What a value can be read as that isn't needed afterwards.
pub trait OwnedRow: Drop {
    /// What is read, as plain data.
    ghost Seen: { Type 0 };

    ghost seen: { Self → Seen };

    /// The reading, with the first fault.
    ghost reads: { Data → Result Seen fault_data };

    /// Reads a value, whose members may be moved.
    ///
    /// Errors: `Shape` and `Fraction` with the place of the first fault (a JSON Pointer, RFC 6901), and `NoMemory`.
    fn read(alloc: Global, value: Value) -> Result<Self, ObjectFault>
        ensures { Gives seen result (reads (view value)) };
}

impl OwnedRow for ScriptObject {
    ghost Seen = { object_record };

    ghost seen = { λ o. o };

    ghost reads = { object_data_at };

    fn read(alloc: Global, value: Value) -> Result<ScriptObject, ObjectFault> {
        ScriptObject::read(alloc, value)
    }
}

impl<R: OwnedRow> OwnedRow for Arc<R> {
    ghost Seen = { R.Seen };

    ghost seen = { λ a. R.seen (arc_value a) };

    ghost reads = { R.reads };

    fn read(alloc: Global, value: Value) -> Result<Arc<R>, ObjectFault> {
        let row = R::read(alloc, value)?;
        Ok(Arc::new(alloc, row)?)
    }
}

impl<R: OwnedRow> OwnedRow for Vec<R> {
    ghost Seen = { List R.Seen };

    ghost seen = { λ v. map R.seen v.items };

    ghost reads = { list_at R.reads };

    #[tactic(auto, unfolding(kube_meta::specs::Reading::list_at))]
    fn read(alloc: Global, value: Value) -> Result<Vec<R>, ObjectFault> {
        match value {
            Value::Array(values) => owned_items(alloc, values),
            _ => Err(ObjectFault::shape(alloc)),
        }
    }
}

/// The items of a list.
fn owned_items<R: OwnedRow>(alloc: Global, values: Vec<Value>) -> Result<Vec<R>, ObjectFault>
    ensures { Gives (λ v. map R.seen v.items) result (items_at R.reads 0 (items_view values.items)) }
{
    let mut rows = Vec::new(alloc);
    for value in values {
        match R::read(alloc, value) {
            Ok(row) => rows.push(row)?,
            Err(fault) => return Err(fault.in_item(alloc, rows.len())),
        }
    }
    Ok(rows)
}

/// A member that must be there.
#[tactic(auto, unfolding(kube_meta::specs::Reading::field))]
pub fn owned_member<R: OwnedRow>(alloc: Global, value: Value, name: &str) -> Result<R, ObjectFault>
    ensures { Gives R.seen result (field name.now R.reads (view value)) }
{
    match moved_out(value, name) {
        None => Err(ObjectFault::shape(alloc).under(alloc, name)),
        Some(inner) => match R::read(alloc, inner) {
            Ok(row) => Ok(row),
            Err(fault) => Err(fault.under(alloc, name)),
        },
    }
}

/// A member that may be absent or null.
#[tactic(auto, unfolding(kube_meta::specs::Reading::maybe_field))]
pub fn owned_maybe<R: OwnedRow>(
    alloc: Global,
    value: Value,
    name: &str,
) -> Result<Option<R>, ObjectFault>
    ensures { Gives (option_map R.seen) result (maybe_field name.now R.reads (view value)) }
{
    match moved_out(value, name) {
        None => Ok(None),
        Some(inner) => match unless_null(alloc, inner) {
            Ok(row) => Ok(row),
            Err(fault) => Err(fault.under(alloc, name)),
        },
    }
}

/// An array that is empty where it is absent.
#[tactic(auto, unfolding(crate::specs::Reading::list_field, crate::specs::Reading::default_field))]
pub fn owned_list<R: OwnedRow>(
    alloc: Global,
    value: Value,
    name: &str,
) -> Result<Vec<R>, ObjectFault>
    ensures { Gives (λ v. map R.seen v.items) result (list_field name.now R.reads (view value)) }
{
    match owned_maybe(alloc, value, name)? {
        Some(rows) => Ok(rows),
        None => Ok(Vec::new(alloc)),
    }
}

fn unless_null<R: OwnedRow>(alloc: Global, value: Value) -> Result<Option<R>, ObjectFault>
    ensures { Gives (option_map R.seen) result (optional R.reads (view value)) }
{
    match value {
        Value::Null => Ok(None),
        _ => Ok(Some(R::read(alloc, value)?)),
    }
}

/// The value of a member.
fn moved_out(mut value: Value, name: &str) -> Option<Value>
    ensures { option_map view result ≡ get name.now (view value) }
{
    value.get_mut(name).map(Value::take)
}

/// An array that was moved out of an object, empty where it is absent.
pub fn list_out<R: OwnedRow>(
    alloc: Global,
    value: Option<Value>,
    name: &str,
) -> Result<Vec<R>, ObjectFault>
    ensures { Gives (λ v. map R.seen v.items) result (list_of name.now R.reads (option_map view value)) }
{
    match value {
        None => Ok(Vec::new(alloc)),
        Some(inner) => match unless_null(alloc, inner) {
            Ok(Some(rows)) => Ok(rows),
            Ok(None) => Ok(Vec::new(alloc)),
            Err(fault) => Err(fault.under(alloc, name)),
        },
    }
}

/// A member that was moved out of an object, and must be there.
pub fn member_out<R: OwnedRow>(
    alloc: Global,
    value: Option<Value>,
    name: &str,
) -> Result<R, ObjectFault>
    ensures { Gives R.seen result (needed name.now R.reads (option_map view value)) }
{
    match value {
        None => Err(ObjectFault::shape(alloc).under(alloc, name)),
        Some(inner) => match R::read(alloc, inner) {
            Ok(row) => Ok(row),
            Err(fault) => Err(fault.under(alloc, name)),
        },
    }
}
