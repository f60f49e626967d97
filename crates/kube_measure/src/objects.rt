//! Objects of a cache.

use crate::mixed;
use crate::words::ObjectPhase;
use kube_meta::{ApiResource, DynamicObject, NoMemory, ObjectMeta, ObjectRef, Text};
use kube_reflect::{WriteError, Writer};
use kube_watch::Event;
use std::alloc::Global;
use std::sync::Arc;

type Object = Arc<DynamicObject>;

type Key = ObjectRef<DynamicObject>;

fn config_maps(alloc: Global) -> Result<Arc<ApiResource>, NoMemory> {
    Arc::new(
        alloc,
        ApiResource {
            group: Text::new(alloc, "")?,
            version: Text::new(alloc, "v1")?,
            api_version: Text::new(alloc, "v1")?,
            kind: Text::new(alloc, "ConfigMap")?,
            plural: Text::new(alloc, "configmaps")?,
        },
    )
    .map_err(NoMemory::from)
}

/// The names are of one length, and rise as the numbers do.
fn name_of(alloc: Global, number: u32) -> Result<Text, NoMemory> {
    let number = number.saturating_add(1_000_000);
    Ok(Text::from(format!(in alloc; "{number}")?))
}

fn metadata_of(alloc: Global, number: u32) -> Result<ObjectMeta, NoMemory> {
    let mut metadata = ObjectMeta::empty();
    metadata.name = Some(name_of(alloc, number)?);
    metadata.namespace = Some(Text::new(alloc, "default")?);
    Ok(metadata)
}

fn object_of(alloc: Global, number: u32) -> Result<Object, NoMemory> {
    let object = DynamicObject::bare(metadata_of(alloc, number)?);
    Ok(Arc::new(alloc, object)?)
}

/// The number that comes at a place, in the order of the numbers or in a mixed one.
fn at(place: u32, is_mixed: bool, count: u32) -> u32 {
    if is_mixed { mixed(place, count) } else { place }
}

fn objects_of(alloc: Global, is_mixed: bool, count: u32) -> Result<Vec<Object>, NoMemory> {
    let mut objects = Vec::new(alloc);
    for place in 0..count {
        objects.push(object_of(alloc, at(place, is_mixed, count))?)?;
    }
    Ok(objects)
}

fn key_of(alloc: Global, name: &Text, kind: &Arc<ApiResource>) -> Result<Key, NoMemory> {
    let key = ObjectRef::new_with(alloc, name.as_str(), kind.clone()?)?;
    key.within(alloc, "default")
}

/// The references to the objects, in a mixed order.
fn keys_of(alloc: Global, kind: &Arc<ApiResource>, count: u32) -> Result<Vec<Key>, NoMemory> {
    let mut keys = Vec::new(alloc);
    for place in 0..count {
        let name = name_of(alloc, mixed(place, count))?;
        keys.push(key_of(alloc, &name, kind)?)?;
    }
    Ok(keys)
}

fn share(object: &Object) -> Result<Object, NoMemory> {
    Ok(object.clone()?)
}

fn apply_each(
    alloc: Global,
    writer: &mut Writer<DynamicObject>,
    objects: &[Object],
) -> Result<(), WriteError> {
    for object in objects {
        writer.apply_watcher_event(alloc, &Event::Apply(share(object)?))?;
    }
    Ok(())
}

fn delete_each(
    alloc: Global,
    writer: &mut Writer<DynamicObject>,
    objects: &[Object],
) -> Result<(), WriteError> {
    for object in objects {
        writer.apply_watcher_event(alloc, &Event::Delete(share(object)?))?;
    }
    Ok(())
}

/// How many of the objects are found.
fn found(writer: &Writer<DynamicObject>, keys: &[Key]) -> usize {
    let mut found = 0usize;
    for key in keys {
        if writer.cache().get(key).is_some() {
            found = found.saturating_add(1);
        }
    }
    found
}

/// A list that tells of all objects.
fn list_of(alloc: Global, objects: &[Object]) -> Result<Vec<Event<Object>>, NoMemory> {
    let mut events = Vec::new(alloc);
    events.push(Event::Init)?;
    for object in objects {
        events.push(Event::InitApply(share(object)?))?;
    }
    events.push(Event::InitDone)?;
    Ok(events)
}

fn tell_list(
    alloc: Global,
    writer: &mut Writer<DynamicObject>,
    objects: &[Object],
    is_applied: bool,
) -> Result<(), WriteError> {
    let events = list_of(alloc, objects)?;
    if is_applied {
        return writer.apply_watcher_events(alloc, &events);
    }
    Ok(())
}

/// The phases after each object was applied.
fn go_on(
    alloc: Global,
    writer: &mut Writer<DynamicObject>,
    objects: &[Object],
    keys: &[Key],
    phase: ObjectPhase,
) -> Result<usize, WriteError> {
    apply_each(alloc, writer, objects)?;
    let found = match phase {
        ObjectPhase::Get | ObjectPhase::Delete => found(writer, keys),
        _ => 0,
    };
    if let ObjectPhase::Delete = phase {
        delete_each(alloc, writer, objects)?;
    }
    Ok(found)
}

fn go_through(
    alloc: Global,
    writer: &mut Writer<DynamicObject>,
    objects: &[Object],
    keys: &[Key],
    phase: ObjectPhase,
) -> Result<usize, WriteError> {
    match phase {
        ObjectPhase::Nothing => return Ok(0),
        ObjectPhase::Tell => tell_list(alloc, writer, objects, false)?,
        ObjectPhase::List => tell_list(alloc, writer, objects, true)?,
        _ => apply_each(alloc, writer, objects)?,
    }
    match phase {
        ObjectPhase::Again | ObjectPhase::Get | ObjectPhase::Delete => {
            go_on(alloc, writer, objects, keys, phase)
        }
        _ => Ok(0),
    }
}

/// How many objects are stored at the end, and were found.
fn sums(
    alloc: Global,
    mut writer: Writer<DynamicObject>,
    objects: &[Object],
    keys: &[Key],
    phase: ObjectPhase,
) -> Option<usize> {
    match go_through(alloc, &mut writer, objects, keys, phase) {
        Ok(found) => Some(found.saturating_add(writer.cache().len())),
        Err(_) => None,
    }
}

fn writer_of(alloc: Global, kind: &Arc<ApiResource>) -> Result<Writer<DynamicObject>, NoMemory> {
    Writer::new(alloc, kind.clone()?, 1)
}

/// How many objects are stored at the end and were found, if there was memory.
pub fn measured(alloc: Global, is_mixed: bool, phase: ObjectPhase, count: u32) -> Option<usize> {
    let kind = config_maps(alloc).ok()?;
    let objects = objects_of(alloc, is_mixed, count).ok()?;
    let keys = keys_of(alloc, &kind, count).ok()?;
    let writer = writer_of(alloc, &kind).ok()?;
    sums(alloc, writer, &objects, &keys, phase)
}
