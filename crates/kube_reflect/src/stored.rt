//! Objects beside their references.

ghost use Rattle.std.specs.Prelude.{◌≡◌, OnOk, OnErr};
ghost use Rattle.kube_reflect.specs.Cached.{put_under, drop_under};
ghost use Rattle.kube_reflect.specs.Indexes.{references, IsIndex, IsSearched};
ghost use Rattle.kube_reflect.specs.Views.{stored_of, all_stored};
ghost use Rattle.std.specs.Prelude.{slice_get, slice_set, vec_len, ◌<◌, not, Err, IfOk, IfSome};
ghost use Rattle.std.specs.List.{filter};
ghost use Rattle.std.specs.Arc.{arc_value};
ghost use Rattle.kube_meta.specs.Keys.{reference_of};
ghost use Rattle.kube_meta.specs.Reference.{same_reference};

use crate::places::{close_up, position};
use kube_meta::{NoMemory, ObjectRef, Resource};
use std::alloc::Global;
use std::sync::Arc;

/// An object under its reference.
#[derive(Drop)]
pub struct Stored<K: Resource> {
    pub reference: Arc<ObjectRef<K>>,
    pub object: Arc<K>,
}

impl<K: Resource> Stored<K> {
    /// The same reference and object once more, shared.
    ///
    /// Errors: `NoMemory`.
    pub fn again(&self) -> Result<Stored<K>, NoMemory>
        ensures { IfOk result (λ s. stored_of K.type_of s ≡ stored_of K.type_of self.now) }
    {
        Ok(Stored {
            reference: Arc::try_clone(&self.reference)?,
            object: Arc::try_clone(&self.object)?,
        })
    }
}

/// Stored items again.
pub fn again<K: Resource>(alloc: Global, items: &[Stored<K>]) -> Result<Vec<Stored<K>>, NoMemory>
    ensures { IfOk result (λ v. all_stored K.type_of v.items ≡ all_stored K.type_of items.now) }
{
    let mut copies = Vec::new(alloc);
    for stored in items {
        copies.push(stored.again()?)?;
    }
    Ok(copies)
}

/// The object of an item in place of another one.
fn write<K: Resource>(items: &mut Vec<Stored<K>>, place: usize, object: Arc<K>)
    requires { place < vec_len items.old }
    ensures { IfSome (slice_get items.old.items place) (λ s. items.new.items ≡ slice_set items.old.items place (record s { object = object })) }
{
    items[place].object = object;
}

/// Puts an item last, whose reference no item has and whose place would stand at `position`.
fn push<K: Resource>(
    items: &mut Vec<Stored<K>>,
    places: &mut Vec<usize>,
    position: usize,
    stored: Stored<K>,
) -> Result<(), NoMemory>
    requires index { IsIndex (references (all_stored K.type_of items.old.items)) places.old.items }
    requires searched { IsSearched (references (all_stored K.type_of items.old.items)) places.old.items (stored_of K.type_of stored).0 (Err position) }
    ensures index { IsIndex (references (all_stored K.type_of items.new.items)) places.new.items }
    ensures ok { OnOk result (all_stored K.type_of items.new.items ≡ put_under (all_stored K.type_of items.old.items) (stored_of K.type_of stored)) }
    ensures err { OnErr result (items.new.items ≡ items.old.items) }
{
    places.reserve(1)?;
    let last = items.len();
    items.push(stored)?;
    if places.insert(position, last).is_err() {
        unreachable!()
    }
    Ok(())
}

/// Puts an item in the place of the one under an equal reference, whose reference stays, or last.
pub fn put_stored<K: Resource>(
    items: &mut Vec<Stored<K>>,
    places: &mut Vec<usize>,
    stored: Stored<K>,
) -> Result<(), NoMemory>
    requires index { IsIndex (references (all_stored K.type_of items.old.items)) places.old.items }
    ensures index { IsIndex (references (all_stored K.type_of items.new.items)) places.new.items }
    ensures ok { OnOk result (all_stored K.type_of items.new.items ≡ put_under (all_stored K.type_of items.old.items) (stored_of K.type_of stored)) }
    ensures err { OnErr result (items.new.items ≡ items.old.items) }
{
    match position(items, places, &stored.reference) {
        Ok(position) => {
            write(items, places[position], stored.object);
            Ok(())
        }
        Err(position) => push(items, places, position, stored),
    }
}

/// Puts an object in the place of the one under an equal reference, whose reference stays, or last.
pub fn put<K: Resource>(
    alloc: Global,
    items: &mut Vec<Stored<K>>,
    places: &mut Vec<usize>,
    reference: ObjectRef<K>,
    object: Arc<K>,
) -> Result<(), NoMemory>
    requires index { IsIndex (references (all_stored K.type_of items.old.items)) places.old.items }
    ensures index { IsIndex (references (all_stored K.type_of items.new.items)) places.new.items }
    ensures ok { OnOk result (all_stored K.type_of items.new.items
        ≡ put_under (all_stored K.type_of items.old.items) (reference_of K.type_of reference, arc_value object)) }
    ensures err { OnErr result (items.new.items ≡ items.old.items) }
{
    match position(items, places, &reference) {
        Ok(position) => {
            write(items, places[position], object);
            Ok(())
        }
        Err(position) => {
            let reference = Arc::new(alloc, reference)?;
            push(items, places, position, Stored { reference, object })
        }
    }
}

/// Drops what is under an equal reference.
pub fn remove<K: Resource>(
    items: &mut Vec<Stored<K>>,
    places: &mut Vec<usize>,
    reference: &ObjectRef<K>,
)
    requires index { IsIndex (references (all_stored K.type_of items.old.items)) places.old.items }
    ensures index { IsIndex (references (all_stored K.type_of items.new.items)) places.new.items }
    ensures items { items.new.items ≡ filter (λ s. not (same_reference (reference_of K.type_of (arc_value s.reference)) (reference_of K.type_of reference.now))) items.old.items }
{
    let Ok(position) = position(items, places, reference) else {
        return;
    };
    let place = places.remove(position);
    items.remove(place);
    close_up(places, place);
}
