//! The list under way (the `buffer` of kube-runtime's `Writer`).

ghost use Rattle.std.specs.Prelude.{◌≡◌, [], IfOk, OnOk, OnErr};
ghost use Rattle.std.specs.Arc.{arc_value};
ghost use Rattle.std.specs.List.{fold};
ghost use Rattle.kube_meta.specs.Keys.{reference_of};
ghost use Rattle.kube_reflect.specs.Cached.{put_under};
ghost use Rattle.kube_reflect.specs.Views.{all_stored};

use crate::cache::Cache;
use crate::places::{in_order, rise};
use crate::stored::{Stored, again};
use kube_meta::{NoMemory, ObjectRef, Resource};
use std::alloc::Global;
use std::marker::Model;
use std::mem::replace;
use std::sync::Arc;

/// What a list has brought so far, in order, each object under its reference, also where a reference came again.
///
/// Contracts see it as the list of pairs of a reference and an object that these make where each is put in the place of the
/// one under an equal reference, or last.
#[derive(Drop)]
pub(crate) struct Buffer<K: Resource> {
    items: Vec<Stored<K>>,
}

impl<K: Resource> Model for Buffer<K> {
    ghost use Rattle.std.specs.Prelude.{List, []};
    ghost use Rattle.std.specs.List.{fold};
    ghost use Rattle.kube_meta.specs.Reference.{Reference};
    ghost use Rattle.kube_reflect.specs.Cached.{put_under};
    ghost use Rattle.kube_reflect.specs.Views.{all_stored};

    ghost Value = { List (Reference × K) };

    ghost view = { λ b. fold put_under [] (all_stored K.type_of b.items.items) };
}

/// A cache in which each item was put in turn.
fn put_each<K: Resource>(alloc: Global, items: &[Stored<K>]) -> Result<Cache<K>, NoMemory>
    ensures { IfOk result (λ c. c ≡ fold put_under [] (all_stored K.type_of items.now)) }
{
    let mut cache = Cache::new(alloc);
    for stored in items {
        cache.put_stored(stored.again()?)?;
    }
    Ok(cache)
}

impl<K: Resource> Buffer<K> {
    // Nothing.
    pub(crate) fn new(alloc: Global) -> Buffer<K>
        ensures { result ≡ [] }
    {
        Buffer {
            items: Vec::new(alloc),
        }
    }

    // Puts an object in the place of the one under an equal reference, or last.
    pub(crate) fn put(
        &mut self,
        alloc: Global,
        reference: ObjectRef<K>,
        object: Arc<K>,
    ) -> Result<(), NoMemory>
        ensures ok { OnOk result (self.new ≡ put_under self.old (reference_of K.type_of reference, arc_value object)) }
        ensures err { OnErr result (self.new ≡ self.old) }
    {
        let reference = Arc::new(alloc, reference)?;
        self.items.push(Stored { reference, object })?;
        Ok(())
    }

    // Another one with the same references and objects.
    pub(crate) fn copy(&self, alloc: Global) -> Result<Buffer<K>, NoMemory>
        ensures { IfOk result (λ b. b ≡ self.now) }
    {
        Ok(Buffer {
            items: again(alloc, &self.items)?,
        })
    }

    // What it holds, as a cache; nothing is left. The places are sorted once where no reference came again.
    pub(crate) fn take(&mut self, alloc: Global) -> Result<Cache<K>, NoMemory>
        ensures cache { IfOk result (λ c. c ≡ self.old) }
        ensures left { OnOk result (self.new ≡ []) }
        ensures err { OnErr result (self.new ≡ self.old) }
    {
        let places = in_order(alloc, &self.items)?;
        if rise(&self.items, &places) {
            let items = replace(&mut self.items, Vec::new(alloc));
            return Ok(Cache::indexed(items, places));
        }
        let cache = put_each(alloc, &self.items)?;
        self.items = Vec::new(alloc);
        Ok(cache)
    }
}
