//! The stored objects (kube-runtime's `Store`, where it is read by the one that writes it).

ghost use Rattle.std.specs.Prelude.{◌≡◌, ◌↔◌, ◌<◌, [], IfOk, OnOk, OnErr, IsTrue, length, map, option_copied};
ghost use Rattle.std.specs.List.{filter, find};
ghost use Rattle.std.specs.Option.{option_map};
ghost use Rattle.std.specs.Arc.{arc_value};
ghost use Rattle.std.specs.Fn.{FnReturnsAt};
ghost use Rattle.kube_meta.specs.Keys.{reference_of};
ghost use Rattle.kube_meta.specs.Reference.{same_reference};
ghost use Rattle.kube_reflect.specs.Reads.{object_at, objects, IsFirst, IsFiltered, is_selected};
ghost use Rattle.kube_reflect.specs.Cached.{put_under, drop_under};
ghost use Rattle.kube_reflect.specs.Indexes.{references, sought, IsIndex, IsLookUp, AreTwoLookUps};
ghost use Rattle.kube_reflect.specs.Views.{stored_of, all_stored};

use crate::places::look_up;
use crate::steps::Steps;
use crate::stored::{Stored, again, put, put_stored, remove};
use kube_meta::{NoMemory, ObjectRef, Resource, Selector, TextMap};
use std::alloc::Global;
use std::collections::VecDeque;
use std::marker::{Brand, Model};
use std::sync::Arc;
use std::sync::ledger::{Blank, Ledger};

/// The stored objects, each under its reference, in the order in which their references came.
///
/// Contracts see it as the list of pairs of a reference and an object.
#[derive(Drop)]
pub struct Cache<K: Resource> {
    items: Vec<Stored<K>>,
    places: Vec<usize>,
}

impl<K: Resource> Model for Cache<K> {
    ghost use Rattle.std.specs.Prelude.{List};
    ghost use Rattle.kube_meta.specs.Reference.{Reference};
    ghost use Rattle.kube_reflect.specs.Views.{all_stored};
    ghost use Rattle.kube_reflect.specs.Indexes.{references, IsIndex};

    ghost Value = { List (Reference × K) };

    ghost view = { λ c. all_stored K.type_of c.items.items };

    ghost invariant = { λ c. IsIndex (references (all_stored K.type_of c.items.items)) c.places.items };
}

/// Whether an object passes.
fn lets_pass<K, P: Fn(&K) -> bool>(p: &P, object: &K) -> bool
    requires { P.IsAlwaysCallable p.now }
    ensures { FnReturnsAt P.Fn p.now object.now result }
{
    p(object)
}

/// The object under a reference, `within` its namespace or without it. A step is one place of the index that is looked at.
fn find_by<'a, K: Resource, L: Ledger>(
    items: &'a [Stored<K>],
    places: &[usize],
    reference: &ObjectRef<K>,
    within: bool,
    steps: &mut Steps<L>,
) -> Option<&'a Arc<K>>
    requires index { IsIndex (references (all_stored K.type_of items.now)) places.now }
    ensures found { option_map arc_value (option_copied result)
        ≡ option_map (λ s. arc_value s.object) (find (λ s. same_reference (reference_of K.type_of (arc_value s.reference)) (sought within (reference_of K.type_of reference.now))) items.now) }
    ensures cost { IsLookUp (length items.now) steps.old steps.new }
{
    match look_up(items, places, reference, within, steps) {
        Ok(position) => Some(&items[places[position]].object),
        Err(_) => None,
    }
}

/// Whether a selector holds of an object; `none` is the map without labels.
fn is_selected<K: Resource>(selector: &Selector, object: &K, none: &TextMap) -> bool
    requires { none.now ≡ [] }
    ensures { result ≡ is_selected selector.now (K.meta_of object.now) }
{
    match &object.meta().labels {
        Some(labels) => selector.matches(labels),
        None => selector.matches(none),
    }
}

impl<K: Resource> Cache<K> {
    // Nothing.
    pub(crate) fn new(alloc: Global) -> Cache<K>
        ensures { result ≡ [] }
    {
        Cache {
            items: Vec::new(alloc),
            places: Vec::new(alloc),
        }
    }

    // These items, whose places are sorted.
    pub(crate) fn indexed(items: Vec<Stored<K>>, places: Vec<usize>) -> Cache<K>
        requires { IsIndex (references (all_stored K.type_of items.items)) places.items }
        ensures { result ≡ all_stored K.type_of items.items }
    {
        Cache { items, places }
    }

    // Puts an object in the place of the one under an equal reference, or last.
    pub(crate) fn put(
        &mut self,
        alloc: Global,
        reference: ObjectRef<K>,
        object: Arc<K>,
    ) -> Result<(), NoMemory>
        ensures ok { OnOk result (self.new ≡ put_under self.old (reference_of K.type_of reference, arc_value object)) }
        ensures err { OnErr result (self.new ≡ self.old) }
    {
        put(alloc, &mut self.items, &mut self.places, reference, object)
    }

    // Puts an item in the place of the one under an equal reference, or last.
    pub(crate) fn put_stored(&mut self, stored: Stored<K>) -> Result<(), NoMemory>
        ensures ok { OnOk result (self.new ≡ put_under self.old (stored_of K.type_of stored)) }
        ensures err { OnErr result (self.new ≡ self.old) }
    {
        put_stored(&mut self.items, &mut self.places, stored)
    }

    // Drops the object under an equal reference.
    pub(crate) fn remove(&mut self, reference: ObjectRef<K>)
        ensures { (object : K) → self.new ≡ drop_under self.old (reference_of K.type_of reference, object) }
    {
        remove(&mut self.items, &mut self.places, &reference);
    }

    // The references, in order.
    pub(crate) fn queue_keys(&self, alloc: Global) -> Result<VecDeque<ObjectRef<K>>, NoMemory>
        ensures { IfOk result (λ v. map (reference_of K.type_of) v.items ≡ map (λ p. p.0) self.now) }
    {
        let mut keys = VecDeque::new(alloc);
        for stored in &self.items {
            keys.push_back(stored.reference.copy(alloc)?)?;
        }
        Ok(keys)
    }

    /// The references under which objects are stored, in order.
    ///
    /// # Errors
    ///
    /// `NoMemory` where there is none for the copies.
    pub fn keys(&self, alloc: Global) -> Result<Vec<ObjectRef<K>>, NoMemory>
        ensures { IfOk result (λ v. map (reference_of K.type_of) v.items ≡ map (λ p. p.0) self.now) }
    {
        Ok(Vec::from(self.queue_keys(alloc)?))
    }

    // Another one with the same references and objects.
    pub(crate) fn copy(&self, alloc: Global) -> Result<Cache<K>, NoMemory>
        ensures { IfOk result (λ c. c ≡ self.now) }
    {
        Ok(Cache {
            items: again(alloc, &self.items)?,
            places: self.places.clone()?,
        })
    }

    /// The object under a reference, or else under it without its namespace, as cluster-scoped objects are stored.
    pub fn get(&self, key: &ObjectRef<K>) -> Option<&Arc<K>>
        ensures { option_map arc_value (option_copied result) ≡ object_at self.now (reference_of K.type_of key.now) }
    {
        self.get_by::<Brand>(Blank::new(1), key)
    }

    // The same by a counter that is dropped.
    fn get_by<L: Ledger>(&self, blank: Blank, key: &ObjectRef<K>) -> Option<&Arc<K>>
        requires name { blank.name ≡ L.name }
        requires parts { blank.parts ≡ L.parts }
        requires some { 0 < blank.parts }
        ensures { option_map arc_value (option_copied result) ≡ object_at self.now (reference_of K.type_of key.now) }
    {
        let mut steps: Steps<L> = Steps::new(blank);
        self.get_counted(key, &mut steps)
    }

    /// The same in counted steps: a step is one place of the sorted index that is looked at.
    pub fn get_counted<L: Ledger>(
        &self,
        key: &ObjectRef<K>,
        steps: &mut Steps<L>,
    ) -> Option<&Arc<K>>
        ensures found { option_map arc_value (option_copied result) ≡ object_at self.now (reference_of K.type_of key.now) }
        ensures cost { AreTwoLookUps (length self.now) steps.old steps.new }
    {
        match find_by(&self.items, &self.places, key, true, steps) {
            Some(object) => Some(object),
            None => find_by(&self.items, &self.places, key, false, steps),
        }
    }

    /// The first object that passes.
    pub fn find<P: Fn(&K) -> bool>(&self, p: P) -> Option<&Arc<K>>
        requires { P.IsAlwaysCallable p }
        ensures { IsFirst (FnReturnsAt P.Fn p) (objects self.now) (option_map arc_value (option_copied result)) }
    {
        for stored in &self.items {
            if lets_pass(&p, &*stored.object) {
                return Some(&stored.object);
            }
        }
        None
    }

    /// All objects, in order.
    ///
    /// # Errors
    ///
    /// `NoMemory` where memory could not be had.
    pub fn state(&self, alloc: Global) -> Result<Vec<Arc<K>>, NoMemory>
        ensures { IfOk result (λ v. map arc_value v.items ≡ objects self.now) }
    {
        let mut objects = Vec::new(alloc);
        for stored in &self.items {
            objects.push(Arc::try_clone(&stored.object)?)?;
        }
        Ok(objects)
    }

    /// The objects that pass, in order.
    ///
    /// # Errors
    ///
    /// `NoMemory` where memory could not be had.
    pub fn state_filter<P: Fn(&K) -> bool>(
        &self,
        alloc: Global,
        p: P,
    ) -> Result<Vec<Arc<K>>, NoMemory>
        requires { P.IsAlwaysCallable p }
        ensures { IfOk result (λ v. IsFiltered (FnReturnsAt P.Fn p) (objects self.now) (map arc_value v.items)) }
    {
        let mut objects = Vec::new(alloc);
        for stored in &self.items {
            if lets_pass(&p, &*stored.object) {
                objects.push(Arc::try_clone(&stored.object)?)?;
            }
        }
        Ok(objects)
    }

    /// The objects whose labels a selector selects, in order. An object without labels has none of them.
    ///
    /// # Errors
    ///
    /// `NoMemory` where memory could not be had.
    pub fn state_filter_selector(
        &self,
        alloc: Global,
        selector: &Selector,
    ) -> Result<Vec<Arc<K>>, NoMemory>
        ensures { IfOk result (λ v. map arc_value v.items ≡ filter (λ o. is_selected selector.now (K.meta_of o)) (objects self.now)) }
    {
        let none = TextMap::new(alloc);
        let mut objects = Vec::new(alloc);
        for stored in &self.items {
            if is_selected(selector, &*stored.object, &none) {
                objects.push(Arc::try_clone(&stored.object)?)?;
            }
        }
        Ok(objects)
    }

    /// How many objects are stored.
    pub fn len(&self) -> usize
        ensures { result ≡ length self.now }
    {
        self.items.len()
    }

    /// Whether none is stored.
    pub fn is_empty(&self) -> bool
        ensures { IsTrue result ↔ (self.now ≡ []) }
    {
        self.items.is_empty()
    }
}
