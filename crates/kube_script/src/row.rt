//! Readers over a value, of whatever is read.

ghost use Rattle.std.specs.Prelude.{◌≡◌, ℕ, Bool, List, Result, map, option_map};
ghost use Rattle.serde_json.specs.Data.{Data};
ghost use Rattle.serde_json.specs.View.{view, items_view, members_view};
ghost use Rattle.kube_meta.specs.declared.object_fault.ObjectFault.{ObjectFault as fault_data};
ghost use Rattle.kube_meta.specs.Places.{Gives};
ghost use Rattle.kube_meta.specs.Reading.{text_at, pairs_at, texts_at, items_at, list_at, field, optional, maybe_field, object_at};
ghost use Rattle.kube_script.specs.Reading.{flag_at, number_at, small_at, short_at, default_field, list_field};

use kube_meta::{ObjectFault, Text, TextMap};
use serde_json::{Map, Value};
use std::alloc::Global;

/// What a value can be read as.
pub trait Row: Drop {
    /// What is read, as plain data.
    ghost Seen: { Type 0 };

    ghost seen: { Self → Seen };

    /// The reading, with the first fault.
    ghost reads: { Data → Result Seen fault_data };

    /// Reads a value.
    ///
    /// Errors: `Shape` and `Fraction` with the place of the first fault (a JSON Pointer, RFC 6901), and `NoMemory`.
    fn read(alloc: Global, value: &Value) -> Result<Self, ObjectFault>
        ensures { Gives seen result (reads (view value.now)) };
}

impl Row for Text {
    ghost Seen = { List ℕ };

    ghost seen = { λ t. t };

    ghost reads = { text_at };

    fn read(alloc: Global, value: &Value) -> Result<Text, ObjectFault> {
        match value.as_str() {
            Some(text) => Ok(Text::new(alloc, text)?),
            None => Err(ObjectFault::shape(alloc)),
        }
    }
}

impl Row for u64 {
    ghost Seen = { ℕ };

    ghost seen = { λ n. n };

    ghost reads = { number_at };

    fn read(alloc: Global, value: &Value) -> Result<u64, ObjectFault> {
        match value.as_u64() {
            Some(number) => Ok(number),
            None => Err(ObjectFault::shape(alloc)),
        }
    }
}

impl Row for u32 {
    ghost Seen = { ℕ };

    ghost seen = { λ n. n };

    ghost reads = { small_at };

    #[tactic(auto, unfolding(crate::specs::Reading::small_at))]
    fn read(alloc: Global, value: &Value) -> Result<u32, ObjectFault> {
        let number: u64 = Row::read(alloc, value)?;
        if number > u32::MAX as u64 {
            return Err(ObjectFault::shape(alloc));
        }
        Ok(number as u32)
    }
}

impl Row for u16 {
    ghost Seen = { ℕ };

    ghost seen = { λ n. n };

    ghost reads = { short_at };

    #[tactic(auto, unfolding(crate::specs::Reading::short_at))]
    fn read(alloc: Global, value: &Value) -> Result<u16, ObjectFault> {
        let number: u64 = Row::read(alloc, value)?;
        if number > u16::MAX as u64 {
            return Err(ObjectFault::shape(alloc));
        }
        Ok(number as u16)
    }
}

impl Row for bool {
    ghost Seen = { Bool };

    ghost seen = { λ b. b };

    ghost reads = { flag_at };

    fn read(alloc: Global, value: &Value) -> Result<bool, ObjectFault> {
        match value.as_bool() {
            Some(flag) => Ok(flag),
            None => Err(ObjectFault::shape(alloc)),
        }
    }
}

impl Row for TextMap {
    ghost Seen = { List (List ℕ × List ℕ) };

    ghost seen = { λ m. m };

    ghost reads = { texts_at };

    #[tactic(auto, unfolding(kube_meta::specs::Reading::texts_at))]
    fn read(alloc: Global, value: &Value) -> Result<TextMap, ObjectFault> {
        match value.as_object() {
            Some(members) => texts(alloc, members),
            None => Err(ObjectFault::shape(alloc)),
        }
    }
}

/// The texts under their names.
fn texts(alloc: Global, members: &Map<String, Value>) -> Result<TextMap, ObjectFault>
    ensures { Gives (λ x. x) result (pairs_at (members_view members.now.entries)) }
{
    let mut texts = TextMap::new(alloc);
    for (name, value) in members.iter() {
        match Text::read(alloc, value) {
            Ok(text) => texts.insert(alloc, name.as_str(), text)?,
            Err(fault) => return Err(fault.under(alloc, name.as_str())),
        }
    }
    Ok(texts)
}

impl<R: Row> Row for Vec<R> {
    ghost Seen = { List R.Seen };

    ghost seen = { λ v. map R.seen v.items };

    ghost reads = { list_at R.reads };

    #[tactic(auto, unfolding(kube_meta::specs::Reading::list_at))]
    fn read(alloc: Global, value: &Value) -> Result<Vec<R>, ObjectFault> {
        match value.as_array() {
            Some(values) => items(alloc, values),
            None => Err(ObjectFault::shape(alloc)),
        }
    }
}

/// The items of a list.
fn items<R: Row>(alloc: Global, values: &[Value]) -> Result<Vec<R>, ObjectFault>
    ensures { Gives (λ v. map R.seen v.items) result (items_at R.reads 0 (items_view values.now)) }
{
    let mut rows = Vec::new(alloc);
    for index in 0..values.len() {
        match R::read(alloc, &values[index]) {
            Ok(row) => rows.push(row)?,
            Err(fault) => return Err(fault.in_item(alloc, index)),
        }
    }
    Ok(rows)
}

/// A member that must be there.
#[tactic(auto, unfolding(kube_meta::specs::Reading::field))]
pub fn member<R: Row>(alloc: Global, value: &Value, name: &str) -> Result<R, ObjectFault>
    ensures { Gives R.seen result (field name.now R.reads (view value.now)) }
{
    match value.get(name) {
        None => Err(ObjectFault::shape(alloc).under(alloc, name)),
        Some(inner) => match R::read(alloc, inner) {
            Ok(row) => Ok(row),
            Err(fault) => Err(fault.under(alloc, name)),
        },
    }
}

/// A member that may be absent or null.
#[tactic(auto, unfolding(kube_meta::specs::Reading::maybe_field))]
pub fn maybe_member<R: Row>(
    alloc: Global,
    value: &Value,
    name: &str,
) -> Result<Option<R>, ObjectFault>
    ensures { Gives (option_map R.seen) result (maybe_field name.now R.reads (view value.now)) }
{
    match value.get(name) {
        None => Ok(None),
        Some(inner) => match unless_null(alloc, inner) {
            Ok(row) => Ok(row),
            Err(fault) => Err(fault.under(alloc, name)),
        },
    }
}

fn unless_null<R: Row>(alloc: Global, value: &Value) -> Result<Option<R>, ObjectFault>
    ensures { Gives (option_map R.seen) result (optional R.reads (view value.now)) }
{
    match value {
        Value::Null => Ok(None),
        _ => Ok(Some(R::read(alloc, value)?)),
    }
}

/// A member that has a default.
#[tactic(auto, unfolding(crate::specs::Reading::default_field))]
pub fn default_member<R: Row>(
    alloc: Global,
    value: &Value,
    name: &str,
    default: R,
) -> Result<R, ObjectFault>
    ensures { Gives R.seen result (default_field name.now R.reads (R.seen default) (view value.now)) }
{
    match maybe_member(alloc, value, name)? {
        Some(row) => Ok(row),
        None => Ok(default),
    }
}

/// An array that is empty where it is absent.
#[tactic(auto, unfolding(crate::specs::Reading::list_field, crate::specs::Reading::default_field))]
pub fn list_member<R: Row>(alloc: Global, value: &Value, name: &str) -> Result<Vec<R>, ObjectFault>
    ensures { Gives (λ v. map R.seen v.items) result (list_field name.now R.reads (view value.now)) }
{
    match maybe_member(alloc, value, name)? {
        Some(rows) => Ok(rows),
        None => Ok(Vec::new(alloc)),
    }
}

/// The value is an object, whatever its members.
#[tactic(auto, unfolding(kube_meta::specs::Reading::object_at))]
pub fn is_object(alloc: Global, value: &Value) -> Result<(), ObjectFault>
    ensures { Gives (λ x. x) result (object_at (view value.now)) }
{
    match value.as_object() {
        Some(_) => Ok(()),
        None => Err(ObjectFault::shape(alloc)),
    }
}
