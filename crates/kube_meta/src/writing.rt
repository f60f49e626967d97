//! Objects as JSON.

ghost use Rattle.std.specs.Prelude.{◌≡◌, option_map, IfOk, IfSome, OnOk, Ok};
ghost use Rattle.serde_json.specs.Data.{Data, string as string_of, number as number_of, put as put_data};
ghost use Rattle.serde_json.specs.Find.{of_integer};
ghost use Rattle.serde_json.specs.View.{view, members_view};
ghost use Rattle.kube_meta.specs.Reading.{seen_object, object_data_at, others, unless_empty};
ghost use Rattle.kube_meta.specs.Writing.{put_if as put_data_if, with_fields, texts_data, list_data, owner_data, meta_fields, meta_data, type_fields, content_members, object_data, IsContent, IsSmall, as_read};

use crate::dynamic::DynamicObject;
use crate::list::List;
use crate::memory::NoMemory;
use crate::metadata::{ObjectMeta, OwnerReference, TypeMeta};
use crate::reading::remove_named;
use crate::text::Text;
use crate::text_map::TextMap;
use serde_json::{Map, Value};
use std::alloc::Global;

/// The object as JSON, in memory of its own.
///
/// It leaves out what is absent, empty lists and maps of the metadata, and members of the content that are named
/// `apiVersion`, `kind` or `metadata`. The member `metadata` is always there.
///
/// Errors: `NoMemory`.
pub fn write_object(alloc: Global, object: &DynamicObject) -> Result<Value, NoMemory>
    ensures members { IfOk result (λ v. view v ≡ object_data (seen_object object.now)) }
    ensures reads_back { IfOk result (λ v. IsContent (view object.now.content)
        → object_data_at (view v) ≡ Ok (as_read (seen_object object.now))) }
{
    generation_fits(&object.metadata);
    let mut members = content(alloc, &object.content)?;
    put_types(alloc, &mut members, &object.types)?;
    let metadata = object.metadata.value(alloc)?;
    serde_json::put(&mut members, alloc, "metadata", metadata)?;
    Ok(Value::Object(members))
}

/// An object's generation is an `i64`.
fn generation_fits(meta: &ObjectMeta)
    ensures { IfSome meta.now.generation IsSmall }
{
    if let Some(generation) = meta.generation {
        let _value = generation;
    }
}

/// The members of an object's content.
#[tactic(auto, unfolding(crate::specs::Reading::others))]
fn content(alloc: Global, content: &Value) -> Result<Map<String, Value>, NoMemory>
    ensures { IfOk result (λ m. members_view m.entries ≡ others (content_members (view content.now))) }
{
    match content.clone()? {
        Value::Object(mut members) => {
            remove_named(&mut members);
            Ok(members)
        }
        _ => Ok(Map::new(alloc)),
    }
}

fn put_types(
    alloc: Global,
    members: &mut Map<String, Value>,
    types: &Option<TypeMeta>,
) -> Result<(), NoMemory>
    ensures { OnOk result (members_view members.new.entries ≡ with_fields (type_fields types.now) (members_view members.old.entries)) }
{
    match types {
        Some(types) => {
            put_value(alloc, members, "apiVersion", &types.api_version)?;
            put_value(alloc, members, "kind", &types.kind)
        }
        None => Ok(()),
    }
}

/// What can be written as a value.
trait Writable: Drop {
    ghost data_of: { Self → Data };

    /// The value.
    ///
    /// Errors: `NoMemory`.
    fn value(&self, alloc: Global) -> Result<Value, NoMemory>
        ensures { IfOk result (λ v. view v ≡ data_of self.now) };
}

impl Writable for Text {
    ghost data_of = { string_of };

    fn value(&self, alloc: Global) -> Result<Value, NoMemory> {
        Ok(Value::String(String::from_str(alloc, self.as_str())?))
    }
}

impl Writable for i64 {
    ghost data_of = { λ z. number_of (of_integer z) };

    fn value(&self, _alloc: Global) -> Result<Value, NoMemory> {
        Ok(Value::from(*self))
    }
}

impl Writable for TextMap {
    ghost data_of = { texts_data };

    fn value(&self, alloc: Global) -> Result<Value, NoMemory> {
        let mut members = Map::new(alloc);
        for (name, text) in self.as_map().iter() {
            let value = text.value(alloc)?;
            serde_json::put(&mut members, alloc, name.as_str(), value)?;
        }
        Ok(Value::Object(members))
    }
}

impl<T: Writable> Writable for List<T> {
    ghost data_of = { list_data T.data_of };

    fn value(&self, alloc: Global) -> Result<Value, NoMemory> {
        let mut values = Vec::new(alloc);
        for item in self.as_slice() {
            values.push(item.value(alloc)?)?;
        }
        Ok(Value::Array(values))
    }
}

impl Writable for OwnerReference {
    ghost data_of = { owner_data };

    fn value(&self, alloc: Global) -> Result<Value, NoMemory> {
        let api_version = self.api_version.value(alloc)?;
        let kind = self.kind.value(alloc)?;
        let name = self.name.value(alloc)?;
        let uid = self.uid.value(alloc)?;
        let mut members = Map::new(alloc);
        serde_json::put(&mut members, alloc, "apiVersion", api_version)?;
        serde_json::put(&mut members, alloc, "kind", kind)?;
        serde_json::put(&mut members, alloc, "name", name)?;
        serde_json::put(&mut members, alloc, "uid", uid)?;
        Ok(Value::Object(members))
    }
}

impl Writable for ObjectMeta {
    ghost data_of = { meta_data };

    #[tactic(auto, unfolding(crate::specs::Writing::meta_data))]
    fn value(&self, alloc: Global) -> Result<Value, NoMemory> {
        let mut members = Map::new(alloc);
        put_meta(alloc, &mut members, self)?;
        Ok(Value::Object(members))
    }
}

#[tactic(auto, unfolding(crate::specs::Writing::meta_fields))]
fn put_meta(
    alloc: Global,
    members: &mut Map<String, Value>,
    meta: &ObjectMeta,
) -> Result<(), NoMemory>
    ensures { OnOk result (members_view members.new.entries ≡ with_fields (meta_fields meta.now) (members_view members.old.entries)) }
{
    put_if(alloc, members, "name", &meta.name)?;
    put_if(alloc, members, "namespace", &meta.namespace)?;
    put_if(alloc, members, "uid", &meta.uid)?;
    put_if(alloc, members, "resourceVersion", &meta.resource_version)?;
    put_if(
        alloc,
        members,
        "deletionTimestamp",
        &meta.deletion_timestamp,
    )?;
    put_if(alloc, members, "generation", &meta.generation)?;
    put_texts(alloc, members, "labels", &meta.labels)?;
    put_texts(alloc, members, "annotations", &meta.annotations)?;
    put_list(alloc, members, "finalizers", &meta.finalizers)?;
    put_list(alloc, members, "ownerReferences", &meta.owner_references)?;
    Ok(())
}

/// Puts a member.
fn put_value<T: Writable>(
    alloc: Global,
    members: &mut Map<String, Value>,
    name: &str,
    value: &T,
) -> Result<(), NoMemory>
    ensures { OnOk result (members_view members.new.entries ≡ put_data name.now (T.data_of value.now) (members_view members.old.entries)) }
{
    let value = value.value(alloc)?;
    serde_json::put(members, alloc, name, value)?;
    Ok(())
}

/// Puts a member where its value is there.
fn put_if<T: Writable>(
    alloc: Global,
    members: &mut Map<String, Value>,
    name: &str,
    value: &Option<T>,
) -> Result<(), NoMemory>
    ensures { OnOk result (members_view members.new.entries ≡ put_data_if name.now (option_map T.data_of value.now) (members_view members.old.entries)) }
{
    match value {
        Some(value) => put_value(alloc, members, name, value),
        None => Ok(()),
    }
}

/// Puts texts under their names, unless there are none.
fn put_texts(
    alloc: Global,
    members: &mut Map<String, Value>,
    name: &str,
    texts: &Option<TextMap>,
) -> Result<(), NoMemory>
    ensures { OnOk result (members_view members.new.entries ≡ put_data_if name.now (option_map texts_data (unless_empty texts.now)) (members_view members.old.entries)) }
{
    match texts {
        Some(texts) if !texts.is_empty() => put_value(alloc, members, name, texts),
        _ => Ok(()),
    }
}

/// Puts a list, unless it is empty.
fn put_list<T: Writable>(
    alloc: Global,
    members: &mut Map<String, Value>,
    name: &str,
    items: &Option<List<T>>,
) -> Result<(), NoMemory>
    ensures { OnOk result (members_view members.new.entries ≡ put_data_if name.now (option_map (list_data T.data_of) (unless_empty items.now)) (members_view members.old.entries)) }
{
    match items {
        Some(items) if !items.is_empty() => put_value(alloc, members, name, items),
        _ => Ok(()),
    }
}
