//! Changes of one part of a value.

ghost use Rattle.std.specs.Prelude.{◌≡◌, IfOk, option_and_then, option_map};
ghost use Rattle.serde_json.specs.View.{view, items_view, members_view};
ghost use Rattle.kube_api.specs.Changes.{change_of, left};
ghost use Rattle.kube_api.specs.Patches.{changed_by, changed_part, changed_member as changed_member_data, changed_item as changed_item_data, whole_after, part_after, added as added_data, removed as removed_data, inserted_item, removed_item, new_index};
ghost use Rattle.serde_json.specs.Find.{index_of};

use crate::pointer::index;
use kube_meta::{NoMemory, Text};
use serde_json::{Map, Value};
use std::alloc::Global;
use std::mem;

/// What is done at a place.
#[derive(Drop)]
pub(crate) enum Change {
    Put(Value),
    Take,
}

/// The value, changed at the end of the names; none where something on the way is missing.
///
/// Errors: `NoMemory`.
#[cycle(changed)]
pub(crate) fn changed(
    alloc: Global,
    value: Value,
    names: &[Text],
    change: Change,
) -> Result<Option<Value>, NoMemory>
    ensures { IfOk result (λ v. option_map view v ≡ changed_by (change_of change) names.now (view value)) }
{
    match names {
        [] => Ok(Some(whole(change))),
        [name] => part_changed(alloc, value, name.as_str(), change),
        [name, rest @ ..] => changed_within(alloc, value, name.as_str(), rest, change),
    }
}

/// The value, with one of its parts changed at the end of the other names.
#[cycle(changed)]
fn changed_within(
    alloc: Global,
    value: Value,
    name: &str,
    rest: &[Text],
    change: Change,
) -> Result<Option<Value>, NoMemory>
    ensures { IfOk result (λ v. option_map view v ≡ changed_part (changed_by (change_of change) rest.now) name.now (view value)) }
{
    match value {
        Value::Object(mut members) => {
            if change_member(alloc, &mut members, name, rest, change)? {
                Ok(Some(Value::Object(members)))
            } else {
                Ok(None)
            }
        }
        Value::Array(mut items) => {
            if change_item(alloc, &mut items, name, rest, change)? {
                Ok(Some(Value::Array(items)))
            } else {
                Ok(None)
            }
        }
        _ => Ok(None),
    }
}

#[cycle(changed)]
fn change_member(
    alloc: Global,
    members: &mut Map<String, Value>,
    name: &str,
    rest: &[Text],
    change: Change,
) -> Result<bool, NoMemory>
    ensures { IfOk result (λ done. left done (members_view members.new.entries) ≡ changed_member_data (changed_by (change_of change) rest.now) name.now (members_view members.old.entries)) }
{
    let Some(part) = members.get_mut(name) else {
        return Ok(false);
    };
    let before = mem::replace(part, Value::Null);
    let Some(after) = changed(alloc, before, rest, change)? else {
        return Ok(false);
    };
    *part = after;
    Ok(true)
}

#[cycle(changed)]
fn change_item(
    alloc: Global,
    items: &mut Vec<Value>,
    name: &str,
    rest: &[Text],
    change: Change,
) -> Result<bool, NoMemory>
    ensures { IfOk result (λ done. left done (items_view items.new.items) ≡ option_and_then (λ i. changed_item_data (changed_by (change_of change) rest.now) i (items_view items.old.items)) (index_of name.now)) }
{
    let Some(i) = index(name) else {
        return Ok(false);
    };
    if items.len() <= i {
        return Ok(false);
    }
    let before = mem::replace(&mut items[i], Value::Null);
    let Some(after) = changed(alloc, before, rest, change)? else {
        return Ok(false);
    };
    items[i] = after;
    Ok(true)
}

fn whole(change: Change) -> Value
    ensures { view result ≡ whole_after (change_of change) }
{
    match change {
        Change::Put(value) => value,
        Change::Take => Value::Null,
    }
}

fn part_changed(
    alloc: Global,
    value: Value,
    name: &str,
    change: Change,
) -> Result<Option<Value>, NoMemory>
    ensures { IfOk result (λ v. option_map view v ≡ part_after (change_of change) name.now (view value)) }
{
    match change {
        Change::Put(part) => added(alloc, value, name, part),
        Change::Take => Ok(removed(value, name)),
    }
}

fn added(alloc: Global, value: Value, name: &str, part: Value) -> Result<Option<Value>, NoMemory>
    ensures { IfOk result (λ v. option_map view v ≡ added_data (view part) name.now (view value)) }
{
    match value {
        Value::Object(mut members) => {
            let name = String::from_str(alloc, name)?;
            members.insert(name, part)?;
            Ok(Some(Value::Object(members)))
        }
        Value::Array(mut items) => {
            if insert(&mut items, name, part)? {
                Ok(Some(Value::Array(items)))
            } else {
                Ok(None)
            }
        }
        _ => Ok(None),
    }
}

fn insert(items: &mut Vec<Value>, name: &str, part: Value) -> Result<bool, NoMemory>
    ensures { IfOk result (λ done. left done (items_view items.new.items) ≡ option_and_then (λ i. inserted_item i (view part) (items_view items.old.items)) (new_index name.now (items_view items.old.items))) }
{
    let Some(i) = place(items, name) else {
        return Ok(false);
    };
    if items.len() < i {
        return Ok(false);
    }
    items.insert(i, part)?;
    Ok(true)
}

/// The index before which an item is inserted: `-` is the one past the last.
fn place(items: &[Value], name: &str) -> Option<usize>
    ensures { result ≡ new_index name.now (items_view items.now) }
{
    if name == "-" {
        Some(items.len())
    } else {
        index(name)
    }
}

fn removed(value: Value, name: &str) -> Option<Value>
    ensures { option_map view result ≡ removed_data name.now (view value) }
{
    match value {
        Value::Object(mut members) => match members.remove(name) {
            Some(_part) => Some(Value::Object(members)),
            None => None,
        },
        Value::Array(mut items) => {
            if take_out(&mut items, name) {
                Some(Value::Array(items))
            } else {
                None
            }
        }
        _ => None,
    }
}

fn take_out(items: &mut Vec<Value>, name: &str) -> bool
    ensures { left result (items_view items.new.items) ≡ option_and_then (λ i. removed_item i (items_view items.old.items)) (index_of name.now) }
{
    let Some(i) = index(name) else {
        return false;
    };
    if items.len() <= i {
        return false;
    }
    let _item = items.remove(i);
    true
}
