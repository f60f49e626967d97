//! Objects from JSON.

ghost use Rattle.std.specs.Prelude.{◌≡◌, Result, Option, option_map};
ghost use Rattle.serde_json.specs.Data.{Data};
ghost use Rattle.serde_json.specs.Find.{get};
ghost use Rattle.serde_json.specs.View.{view, items_view, members_view};
ghost use Rattle.kube_meta.specs.declared.object_fault.ObjectFault.{ObjectFault as fault_data};
ghost use Rattle.kube_meta.specs.Places.{Gives};
ghost use Rattle.kube_meta.specs.Reading.{seen_object, unless_empty, text_at, whole_at, unsigned_at, pairs_at, texts_at, items_at, list_at, field, optional, maybe_field, full_field, object_at, owner_at, meta_at, is_value, has_types, types_at, whole_numbers, whole_items as whole_items_at, whole_members as whole_members_at, others, content_at, object_data_at};

use crate::dynamic::DynamicObject;
use crate::list::List;
use crate::metadata::{ObjectMeta, OwnerReference, TypeMeta};
use crate::object_fault::ObjectFault;
use crate::text::Text;
use crate::text_map::TextMap;
use serde_json::{Map, Value};
use std::alloc::Global;

/// The object that a value is.
///
/// It keeps the value's members but its types and metadata as the object's content, without a copy. Of the metadata it
/// keeps what `ObjectMeta` has. Null counts as absent for each member that this library names, and so does an empty
/// list or map in the metadata.
///
/// A fault is the first one: of the value itself, of `apiVersion`, of `kind`, which are there both or neither, of
/// `metadata` and its members in the order of `ObjectMeta`, and then a number in the other members, in the order of
/// their names.
///
/// Errors: `Shape` and `Fraction` with the place of the first fault (a JSON pointer, RFC 6901), and `NoMemory`.
#[tactic(auto, unfolding(crate::specs::Reading::object_data_at))]
pub fn read_object(alloc: Global, value: Value) -> Result<DynamicObject, ObjectFault>
    ensures { Gives seen_object result (object_data_at (view value)) }
{
    is_object(alloc, &value)?;
    let types = types(alloc, &value)?;
    let metadata = match maybe_member(alloc, &value, "metadata")? {
        Some(metadata) => metadata,
        None => ObjectMeta::empty(),
    };
    let content = content(alloc, value)?;
    Ok(DynamicObject {
        types,
        metadata,
        content,
    })
}

/// What a value can be read as.
pub trait Readable: Drop {
    /// The reading, with the first fault.
    ghost reads: { Data → Result Self fault_data };

    /// Reads a value.
    ///
    /// Errors: `Shape` and `Fraction` with the place of the first fault (a JSON Pointer, RFC 6901), and `NoMemory`.
    fn read(alloc: Global, value: &Value) -> Result<Self, ObjectFault>
        ensures { Gives (λ x. x) result (reads (view value.now)) };
}

impl Readable for Text {
    ghost reads = { text_at };

    fn read(alloc: Global, value: &Value) -> Result<Text, ObjectFault> {
        match value.as_str() {
            Some(text) => Ok(Text::new(alloc, text)?),
            None => Err(ObjectFault::shape(alloc)),
        }
    }
}

impl Readable for i64 {
    ghost reads = { whole_at };

    fn read(alloc: Global, value: &Value) -> Result<i64, ObjectFault> {
        match value.as_i64() {
            Some(number) => Ok(number),
            None => Err(ObjectFault::shape(alloc)),
        }
    }
}

impl Readable for u64 {
    ghost reads = { unsigned_at };

    fn read(alloc: Global, value: &Value) -> Result<u64, ObjectFault> {
        match value.as_u64() {
            Some(number) => Ok(number),
            None => Err(ObjectFault::shape(alloc)),
        }
    }
}

impl Readable for TextMap {
    ghost reads = { texts_at };

    #[tactic(auto, unfolding(crate::specs::Reading::texts_at))]
    fn read(alloc: Global, value: &Value) -> Result<TextMap, ObjectFault> {
        match value.as_object() {
            Some(members) => texts(alloc, members),
            None => Err(ObjectFault::shape(alloc)),
        }
    }
}

/// The texts under their names.
fn texts(alloc: Global, members: &Map<String, Value>) -> Result<TextMap, ObjectFault>
    ensures { Gives (λ x. x) result (pairs_at (members_view members.now.entries)) }
{
    let mut texts = TextMap::new(alloc);
    for (name, value) in members.iter() {
        match Text::read(alloc, value) {
            Ok(text) => texts.insert(alloc, name.as_str(), text)?,
            Err(fault) => return Err(fault.under(alloc, name.as_str())),
        }
    }
    Ok(texts)
}

impl<T: Readable> Readable for List<T> {
    ghost reads = { list_at T.reads };

    #[tactic(auto, unfolding(crate::specs::Reading::list_at))]
    fn read(alloc: Global, value: &Value) -> Result<List<T>, ObjectFault> {
        match value.as_array() {
            Some(values) => items(alloc, values),
            None => Err(ObjectFault::shape(alloc)),
        }
    }
}

/// The items of a list.
fn items<T: Readable>(alloc: Global, values: &[Value]) -> Result<List<T>, ObjectFault>
    ensures { Gives (λ x. x) result (items_at T.reads 0 (items_view values.now)) }
{
    let mut items = List::new(alloc);
    for index in 0..values.len() {
        match T::read(alloc, &values[index]) {
            Ok(item) => items.push(item)?,
            Err(fault) => return Err(fault.in_item(alloc, index)),
        }
    }
    Ok(items)
}

/// A member that must be there.
///
/// Errors: `Shape` with the member's place where it is absent, those of its reading under its place, and `NoMemory`.
#[tactic(auto, unfolding(crate::specs::Reading::field))]
pub fn member<T: Readable>(alloc: Global, value: &Value, name: &str) -> Result<T, ObjectFault>
    ensures { Gives (λ x. x) result (field name.now T.reads (view value.now)) }
{
    match value.get(name) {
        None => Err(ObjectFault::shape(alloc).under(alloc, name)),
        Some(inner) => match T::read(alloc, inner) {
            Ok(read) => Ok(read),
            Err(fault) => Err(fault.under(alloc, name)),
        },
    }
}

/// A member that may be absent or null.
///
/// Errors: those of its reading under its place, and `NoMemory`.
#[tactic(auto, unfolding(crate::specs::Reading::maybe_field))]
pub fn maybe_member<T: Readable>(
    alloc: Global,
    value: &Value,
    name: &str,
) -> Result<Option<T>, ObjectFault>
    ensures { Gives (λ x. x) result (maybe_field name.now T.reads (view value.now)) }
{
    match value.get(name) {
        None => Ok(None),
        Some(inner) => match unless_null(alloc, inner) {
            Ok(read) => Ok(read),
            Err(fault) => Err(fault.under(alloc, name)),
        },
    }
}

fn unless_null<T: Readable>(alloc: Global, value: &Value) -> Result<Option<T>, ObjectFault>
    ensures { Gives (λ x. x) result (optional T.reads (view value.now)) }
{
    match value {
        Value::Null => Ok(None),
        _ => Ok(Some(T::read(alloc, value)?)),
    }
}

/// Texts under names, absent where there is none.
#[tactic(auto, unfolding(crate::specs::Reading::full_field))]
fn maybe_texts(alloc: Global, value: &Value, name: &str) -> Result<Option<TextMap>, ObjectFault>
    ensures { Gives (λ x. x) result (full_field name.now texts_at (view value.now)) }
{
    match maybe_member(alloc, value, name)? {
        Some(texts) => Ok(unless_no_text(texts)),
        None => Ok(None),
    }
}

fn unless_no_text(texts: TextMap) -> Option<TextMap>
    ensures { result ≡ unless_empty (Some texts) }
{
    if texts.is_empty() { None } else { Some(texts) }
}

/// A list, absent where it has no item.
#[tactic(auto, unfolding(crate::specs::Reading::full_field))]
fn maybe_list<T: Readable>(
    alloc: Global,
    value: &Value,
    name: &str,
) -> Result<Option<List<T>>, ObjectFault>
    ensures { Gives (λ x. x) result (full_field name.now (list_at T.reads) (view value.now)) }
{
    match maybe_member(alloc, value, name)? {
        Some(items) => Ok(unless_no_item(items)),
        None => Ok(None),
    }
}

fn unless_no_item<T: Drop>(items: List<T>) -> Option<List<T>>
    ensures { result ≡ unless_empty (Some items) }
{
    if items.is_empty() { None } else { Some(items) }
}

/// The value is an object, whatever its members.
///
/// Errors: `Shape` with the empty place where it is none, and `NoMemory`.
#[tactic(auto, unfolding(crate::specs::Reading::object_at))]
pub fn is_object(alloc: Global, value: &Value) -> Result<(), ObjectFault>
    ensures { Gives (λ x. x) result (object_at (view value.now)) }
{
    match value.as_object() {
        Some(_) => Ok(()),
        None => Err(ObjectFault::shape(alloc)),
    }
}

impl Readable for OwnerReference {
    ghost reads = { owner_at };

    #[tactic(auto, unfolding(crate::specs::Reading::owner_at))]
    fn read(alloc: Global, value: &Value) -> Result<OwnerReference, ObjectFault> {
        is_object(alloc, value)?;
        let api_version = member(alloc, value, "apiVersion")?;
        let kind = member(alloc, value, "kind")?;
        let name = member(alloc, value, "name")?;
        let uid = member(alloc, value, "uid")?;
        Ok(OwnerReference {
            api_version,
            kind,
            name,
            uid,
        })
    }
}

impl Readable for ObjectMeta {
    ghost reads = { meta_at };

    #[tactic(auto, unfolding(crate::specs::Reading::meta_at))]
    fn read(alloc: Global, value: &Value) -> Result<ObjectMeta, ObjectFault> {
        is_object(alloc, value)?;
        let name = maybe_member(alloc, value, "name")?;
        let namespace = maybe_member(alloc, value, "namespace")?;
        let uid = maybe_member(alloc, value, "uid")?;
        let resource_version = maybe_member(alloc, value, "resourceVersion")?;
        let deletion_timestamp = maybe_member(alloc, value, "deletionTimestamp")?;
        let generation = maybe_member(alloc, value, "generation")?;
        let labels = maybe_texts(alloc, value, "labels")?;
        let annotations = maybe_texts(alloc, value, "annotations")?;
        let finalizers = maybe_list(alloc, value, "finalizers")?;
        let owner_references = maybe_list(alloc, value, "ownerReferences")?;
        Ok(ObjectMeta {
            name,
            namespace,
            uid,
            resource_version,
            deletion_timestamp,
            generation,
            labels,
            annotations,
            finalizers,
            owner_references,
        })
    }
}

/// The object's own word on its type.
#[tactic(auto, unfolding(crate::specs::Reading::types_at))]
fn types(alloc: Global, value: &Value) -> Result<Option<TypeMeta>, ObjectFault>
    ensures { Gives (λ x. x) result (types_at (view value.now)) }
{
    if !names_type(value) {
        return Ok(None);
    }
    let api_version = member(alloc, value, "apiVersion")?;
    let kind = member(alloc, value, "kind")?;
    Ok(Some(TypeMeta { api_version, kind }))
}

#[tactic(auto, unfolding(crate::specs::Reading::has_types))]
fn names_type(value: &Value) -> bool
    ensures { result ≡ has_types (view value.now) }
{
    is_there(value.get("apiVersion")) || is_there(value.get("kind"))
}

/// Whether a member is there and not null.
fn is_there(member: Option<&Value>) -> bool
    ensures { result ≡ is_value (option_map (λ v. view v.now) member.entry) }
{
    match member {
        Some(Value::Null) => false,
        Some(_) => true,
        None => false,
    }
}

/// The value's members but its types and metadata.
#[tactic(auto, unfolding(crate::specs::Reading::content_at))]
fn content(alloc: Global, value: Value) -> Result<Value, ObjectFault>
    ensures { Gives view result (content_at (view value)) }
{
    let Value::Object(mut members) = value else {
        return Err(ObjectFault::shape(alloc));
    };
    remove_named(&mut members);
    whole_members(alloc, &members)?;
    Ok(Value::Object(members))
}

#[tactic(auto, unfolding(crate::specs::Reading::others))]
pub(crate) fn remove_named(members: &mut Map<String, Value>)
    ensures { members_view members.new.entries ≡ others (members_view members.old.entries) }
{
    members.remove("metadata");
    members.remove("kind");
    members.remove("apiVersion");
}

/// Each number in the value is a `u64` or an `i64`.
#[cycle(whole)]
fn whole(alloc: Global, value: &Value) -> Result<(), ObjectFault>
    ensures { Gives (λ x. x) result (whole_numbers (view value.now)) }
{
    match value {
        Value::Number(number) if number.is_f64() => {
            Err(ObjectFault::Fraction(Text::from(String::new(alloc))))
        }
        Value::Array(values) => whole_items(alloc, values),
        Value::Object(members) => whole_members(alloc, members),
        _ => Ok(()),
    }
}

#[cycle(whole)]
fn whole_items(alloc: Global, values: &[Value]) -> Result<(), ObjectFault>
    ensures { Gives (λ x. x) result (whole_items_at 0 (items_view values.now)) }
{
    for index in 0..values.len() {
        if let Err(fault) = whole(alloc, &values[index]) {
            return Err(fault.in_item(alloc, index));
        }
    }
    Ok(())
}

#[cycle(whole)]
fn whole_members(alloc: Global, members: &Map<String, Value>) -> Result<(), ObjectFault>
    ensures { Gives (λ x. x) result (whole_members_at (members_view members.now.entries)) }
{
    for (name, value) in members.iter() {
        if let Err(fault) = whole(alloc, value) {
            return Err(fault.under(alloc, name.as_str()));
        }
    }
    Ok(())
}
