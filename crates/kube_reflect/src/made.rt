//! What the events of a watcher make: the stored objects, the list under way, and whether a list was complete.

ghost use Rattle.std.specs.Prelude.{◌≡◌, true, false, IfOk, OnOk, OnErr, IsErrOf};
ghost use Rattle.std.specs.Arc.{arc_value};
ghost use Rattle.kube_meta.specs.Keys.{reference_of, key_of, is_named};
ghost use Rattle.kube_watch.specs.Events.{event_map};
ghost use Rattle.kube_reflect.specs.Cached.{nothing, applied, has_name};

use crate::buffer::Buffer;
use crate::cache::Cache;
use crate::store::WriteError;
use kube_meta::{NoMemory, ObjectRef, RefError, Resource, TypeInfo};
use kube_watch::Event;
use std::alloc::Global;
use std::marker::Model;
use std::sync::Arc;

/// What the events of a watcher make.
#[derive(Drop)]
pub(crate) struct Made<K: Resource> {
    cache: Cache<K>,
    buffer: Buffer<K>,
    is_ready: bool,
}

impl<K: Resource> Model for Made<K> {
    ghost use Rattle.kube_reflect.specs.Cached.{Kept};

    ghost Value = { Kept K };

    ghost view = { λ m. record { cache = m.cache; buffer = m.buffer; is_ready = m.is_ready } };
}

/// The same object.
fn share<K: Drop>(object: &Arc<K>) -> Result<Arc<K>, NoMemory>
    ensures { IfOk result (λ a. arc_value a ≡ arc_value object.now) }
{
    Ok(Arc::try_clone(object)?)
}

/// The reference of an object of a type.
pub(crate) fn key<K: Resource>(
    alloc: Global,
    dyntype: &K::DynamicType,
    object: &K,
) -> Result<ObjectRef<K>, WriteError>
    ensures named { IfOk result (λ r. is_named (K.meta_of object.now) ≡ true) }
    ensures reference { IfOk result (λ r. reference_of K.type_of r ≡ key_of (K.type_of dyntype.now) (K.meta_of object.now)) }
    ensures unnamed { IsErrOf result WriteError.Unnamed → is_named (K.meta_of object.now) ≡ false }
{
    let dyntype = dyntype.share(alloc)?;
    match ObjectRef::from_obj_with(alloc, object, dyntype) {
        Ok(reference) => Ok(reference),
        Err(RefError::Unnamed) => Err(WriteError::Unnamed),
        Err(RefError::NoMemory) => Err(WriteError::NoMemory),
    }
}

impl<K: Resource> Made<K> {
    // What no event made.
    pub(crate) fn new(alloc: Global) -> Made<K>
        ensures { result ≡ nothing }
    {
        Made {
            cache: Cache::new(alloc),
            buffer: Buffer::new(alloc),
            is_ready: false,
        }
    }

    // What is stored.
    pub(crate) fn cache(&self) -> &Cache<K>
        ensures { result.now ≡ self.now.cache }
    {
        &self.cache
    }

    // Whether a list was complete.
    pub(crate) fn is_ready(&self) -> bool
        ensures { result ≡ self.now.is_ready }
    {
        self.is_ready
    }

    // The same once more, with the same references and objects.
    pub(crate) fn copy(&self, alloc: Global) -> Result<Made<K>, NoMemory>
        ensures { IfOk result (λ m. m ≡ self.now) }
    {
        Ok(Made {
            cache: self.cache.copy(alloc)?,
            buffer: self.buffer.copy(alloc)?,
            is_ready: self.is_ready,
        })
    }

    // Applies one event to objects of a type. After a refusal, and after want of memory, all is as before.
    pub(crate) fn apply(
        &mut self,
        alloc: Global,
        dyntype: &K::DynamicType,
        event: &Event<Arc<K>>,
    ) -> Result<(), WriteError>
        ensures applied { OnOk result (self.new ≡ applied (λ o. key_of (K.type_of dyntype.now) (K.meta_of o)) self.old (event_map arc_value event.now)) }
        ensures named { OnOk result (has_name K.meta_of (event_map arc_value event.now) ≡ true) }
        ensures unnamed { IsErrOf result WriteError.Unnamed → has_name K.meta_of (event_map arc_value event.now) ≡ false }
        ensures err { OnErr result (self.new ≡ self.old) }
    {
        match event {
            Event::Apply(object) => {
                let key = key(alloc, dyntype, &**object)?;
                let object = share(object)?;
                self.cache.put(alloc, key, object)?;
            }
            Event::Delete(object) => {
                let key = key(alloc, dyntype, &**object)?;
                self.cache.remove(key);
            }
            Event::Init => self.buffer = Buffer::new(alloc),
            Event::InitApply(object) => {
                let key = key(alloc, dyntype, &**object)?;
                let object = share(object)?;
                self.buffer.put(alloc, key, object)?;
            }
            Event::InitDone => {
                self.cache = self.buffer.take(alloc)?;
                self.is_ready = true;
            }
        }
        Ok(())
    }
}
