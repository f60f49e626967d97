//! Handles that read what a writer published (kube-runtime's `reflector::Store`).

ghost use Rattle.std.specs.Prelude.{◌≡◌, ◌↔◌, [], true, false, IfOk, IsTrue, length, map, option_copied};
ghost use Rattle.std.specs.List.{filter};
ghost use Rattle.std.specs.Option.{option_map};
ghost use Rattle.std.specs.Arc.{arc_value};
ghost use Rattle.std.specs.Fn.{FnReturnsAt};
ghost use Rattle.kube_meta.specs.Keys.{reference_of};
ghost use Rattle.kube_reflect.specs.Reads.{object_at, objects, IsFirst, IsFiltered, is_selected};
ghost use mathlib.Core.List.{IsPrefix};
ghost use Rattle.kube_reflect.specs.Entries.{is_readable, IsPublished};
ghost use Rattle.kube_reflect.specs.Published.{stored_in, readiness, ready_by};

use crate::cache::Cache;
use crate::copies::copied::{Copied, Op};
use crate::copies::handle::{Handle, has_ended};
use crate::copies::mark::Mark;
use crate::copies::rule::{Keeps, View};
use crate::copies::shelf::Shelf;
use crate::history::History;
use kube_meta::{NoMemory, ObjectRef, Polled, Resource, Selector};
use std::alloc::Global;
use std::marker::Model;
use std::sync::{Arc, Wait};
use thiserror::Error;

/// The writer ended before a list was complete.
#[derive(Clone, Copy, Debug, PartialEq, Eq, Error)]
#[error("writer was dropped before store became ready")]
pub struct WriterDropped;

/// What a publish made readable.
///
/// Contracts see it as the book of its writer, the events that it had applied, and the list that was made readable, with where
/// publishes were.
#[derive(Drop)]
pub struct Published<K: Resource> {
    mark: Mark<K>,
    history: History<K>,
}

impl<K: Resource> Model for Published<K> {
    ghost use Rattle.kube_reflect.specs.Entries.{IsPublished};
    ghost use Rattle.kube_reflect.specs.Writers.{Notice};

    ghost Value = { Notice K };

    ghost view = { λ n. record { book = n.mark.seen.book; events = n.history.log; shown = n.mark.seen.log } };

    ghost invariant = { λ n. IsPublished n.mark.seen.log n.history.log };
}

impl<K: Resource> Published<K> {
    // The note of these events, which the book of a writer has.
    pub(crate) fn new(mark: Mark<K>, history: History<K>) -> Published<K>
        requires { IsPublished mark.seen.log history.log }
        ensures { result ≡ record { book = mark.seen.book; events = history.log; shown = mark.seen.log } }
    {
        Published { mark, history }
    }
}

/// What a writer that has ended leaves: the copies that its handles read, also after this was dropped.
///
/// Contracts see it as the book of its writer, and the list that it made readable.
#[derive(Drop)]
pub struct Ended<K: Resource> {
    shelf: Shelf<Copied<K>, Op<K>, View<K>, Keeps<K>>,
}

impl<K: Resource> Model for Ended<K> {
    ghost use Rattle.kube_reflect.specs.Writers.{Left};

    ghost Value = { Left K };

    ghost view = { λ e. record { book = e.shelf.shown.mark.seen.book; shown = e.shelf.shown.mark.seen.log } };
}

impl<K: Resource> Ended<K> {
    // What is left with these copies.
    pub(crate) fn new(shelf: Shelf<Copied<K>, Op<K>, View<K>, Keeps<K>>) -> Ended<K>
        ensures { result ≡ record { book = shelf.shown.mark.seen.book; shown = shelf.shown.mark.seen.log } }
    {
        Ended { shelf }
    }
}

/// A handle that reads what a writer published, also in another thread.
///
/// Each read is by one list of what its writer told: it gives what these events store. Until the first publish that is
/// nothing. Each list begins with the one of the read before, and with that of each note that was learnt. A read waits
/// where it found an older one, and never for another reader.
///
/// Contracts see the handle as the book of its writer, the type of its objects, and the list that it read or learnt.
#[derive(Drop)]
pub struct Store<K: Resource> {
    handle: Handle<K>,
}

impl<K: Resource> Model for Store<K> {
    ghost use Rattle.kube_reflect.specs.Writers.{Reader};

    ghost Value = { Reader K };

    ghost view = { λ s. record { book = s.handle.home.book; kind = K.type_of s.handle.home.dyntype; seen = s.handle.seen } };
}

/// The object that was found, shared.
fn share_found<K: Drop>(found: Option<&Arc<K>>) -> Result<Option<Arc<K>>, NoMemory>
    ensures { IfOk result (λ o. option_map arc_value o ≡ option_map arc_value (option_copied found.entry)) }
{
    match found {
        Some(object) => Ok(Some(Arc::try_clone(object)?)),
        None => Ok(None),
    }
}

/// The object under a reference, or else under it without its namespace, shared.
fn get_in<K: Resource>(cache: &Cache<K>, key: &ObjectRef<K>) -> Result<Option<Arc<K>>, NoMemory>
    ensures { IfOk result (λ o. option_map arc_value o ≡ object_at cache.now (reference_of K.type_of key.now)) }
{
    share_found(cache.get(key))
}

/// The first object that passes, shared.
fn find_in<K: Resource, P: Fn(&K) -> bool>(
    cache: &Cache<K>,
    p: P,
) -> Result<Option<Arc<K>>, NoMemory>
    requires { P.IsAlwaysCallable p }
    ensures { IfOk result (λ o. IsFirst (FnReturnsAt P.Fn p) (objects cache.now) (option_map arc_value o)) }
{
    share_found(cache.find(p))
}

/// Whether a list was complete, or never will be.
fn ready(is_ready: bool, has_ended: bool) -> Polled<Result<(), WriterDropped>>
    ensures { result ≡ ready_by is_ready has_ended }
{
    if is_ready {
        return Polled::Ready(Ok(()));
    }
    if has_ended {
        return Polled::Ready(Err(WriterDropped));
    }
    Polled::NotReady
}

impl<K: Resource> Store<K> {
    // A handle that has read nothing.
    pub(crate) fn new(handle: Handle<K>) -> Store<K>
        ensures { result ≡ record { book = handle.home.book; kind = K.type_of handle.home.dyntype; seen = handle.seen } }
    {
        Store { handle }
    }

    /// The type of its objects. Nothing is read for it.
    pub fn dyntype(&self) -> &K::DynamicType
        ensures { K.type_of result.now ≡ self.now.kind }
    {
        self.handle.dyntype()
    }

    /// Takes in what a publish of this handle's writer made readable: no later read is of an older list. The note stays as
    /// it is.
    pub fn learn(&mut self, note: &mut Published<K>)
        requires same_writer { note.old.book ≡ self.old.book }
        ensures own { (self.new.book ≡ self.old.book) × (self.new.kind ≡ self.old.kind) }
        ensures later { IsPrefix self.old.seen self.new.seen }
        ensures learnt { IsPrefix note.old.shown self.new.seen }
        ensures note { note.new ≡ note.old }
    {
        self.handle.learn(&note.mark);
    }

    /// Whether what was read or learnt is a beginning of what a note of this handle's writer names, or all of it; else it
    /// begins with what the note names. It does no look.
    pub fn is_before(&self, note: &Published<K>) -> bool
        requires same_writer { note.now.book ≡ self.now.book }
        ensures before { result ≡ true → IsPrefix self.now.seen note.now.shown }
        ensures behind { result ≡ false → IsPrefix note.now.shown self.now.seen }
    {
        self.handle.is_before(&note.mark)
    }

    /// Whether a list was complete in what is read: `NotReady` where it was not and the writer has not ended,
    /// `WriterDropped` where the writer ended before.
    pub fn poll_ready<R: Wait>(&mut self, rt: &R) -> Polled<Result<(), WriterDropped>>
        ensures read { result ≡ readiness K.meta_of self.new }
        ensures own { (self.new.book ≡ self.old.book) × (self.new.kind ≡ self.old.kind) }
        ensures later { IsPrefix self.old.seen self.new.seen }
        ensures readable { is_readable self.new.seen ≡ true }
    {
        let reading = self.handle.enter(rt);
        let is_ready = self.handle.made(&reading).is_ready();
        let has_ended = has_ended(&reading);
        self.handle.leave(reading);
        ready(is_ready, has_ended)
    }

    /// The object under a reference, or else under it without its namespace, as cluster-scoped objects are stored.
    ///
    /// # Errors
    ///
    /// `NoMemory` where the object could not be shared.
    pub fn get<R: Wait>(
        &mut self,
        rt: &R,
        _alloc: Global,
        key: &ObjectRef<K>,
    ) -> Result<Option<Arc<K>>, NoMemory>
        ensures read { IfOk result (λ o. option_map arc_value o ≡ object_at (stored_in K.meta_of self.new) (reference_of K.type_of key.now)) }
        ensures own { (self.new.book ≡ self.old.book) × (self.new.kind ≡ self.old.kind) }
        ensures later { IsPrefix self.old.seen self.new.seen }
        ensures readable { is_readable self.new.seen ≡ true }
    {
        let reading = self.handle.enter(rt);
        let found = get_in(self.handle.made(&reading).cache(), key);
        self.handle.leave(reading);
        found
    }

    /// The first object that passes.
    ///
    /// # Errors
    ///
    /// `NoMemory` where the object could not be shared.
    pub fn find<R: Wait, P: Fn(&K) -> bool>(
        &mut self,
        rt: &R,
        _alloc: Global,
        p: P,
    ) -> Result<Option<Arc<K>>, NoMemory>
        requires { P.IsAlwaysCallable p }
        ensures read { IfOk result (λ o. IsFirst (FnReturnsAt P.Fn p) (objects (stored_in K.meta_of self.new)) (option_map arc_value o)) }
        ensures own { (self.new.book ≡ self.old.book) × (self.new.kind ≡ self.old.kind) }
        ensures later { IsPrefix self.old.seen self.new.seen }
        ensures readable { is_readable self.new.seen ≡ true }
    {
        let reading = self.handle.enter(rt);
        let found = find_in(self.handle.made(&reading).cache(), p);
        self.handle.leave(reading);
        found
    }

    /// All objects, in order.
    ///
    /// # Errors
    ///
    /// `NoMemory` where memory could not be had.
    pub fn state<R: Wait>(&mut self, rt: &R, alloc: Global) -> Result<Vec<Arc<K>>, NoMemory>
        ensures read { IfOk result (λ v. map arc_value v.items ≡ objects (stored_in K.meta_of self.new)) }
        ensures own { (self.new.book ≡ self.old.book) × (self.new.kind ≡ self.old.kind) }
        ensures later { IsPrefix self.old.seen self.new.seen }
        ensures readable { is_readable self.new.seen ≡ true }
    {
        let reading = self.handle.enter(rt);
        let objects = self.handle.made(&reading).cache().state(alloc);
        self.handle.leave(reading);
        objects
    }

    /// The objects that pass, in order.
    ///
    /// # Errors
    ///
    /// `NoMemory` where memory could not be had.
    pub fn state_filter<R: Wait, P: Fn(&K) -> bool>(
        &mut self,
        rt: &R,
        alloc: Global,
        p: P,
    ) -> Result<Vec<Arc<K>>, NoMemory>
        requires { P.IsAlwaysCallable p }
        ensures read { IfOk result (λ v. IsFiltered (FnReturnsAt P.Fn p) (objects (stored_in K.meta_of self.new)) (map arc_value v.items)) }
        ensures own { (self.new.book ≡ self.old.book) × (self.new.kind ≡ self.old.kind) }
        ensures later { IsPrefix self.old.seen self.new.seen }
        ensures readable { is_readable self.new.seen ≡ true }
    {
        let reading = self.handle.enter(rt);
        let objects = self.handle.made(&reading).cache().state_filter(alloc, p);
        self.handle.leave(reading);
        objects
    }

    /// The objects whose labels a selector selects, in order. An object without labels has none of them.
    ///
    /// # Errors
    ///
    /// `NoMemory` where memory could not be had.
    pub fn state_filter_selector<R: Wait>(
        &mut self,
        rt: &R,
        alloc: Global,
        selector: &Selector,
    ) -> Result<Vec<Arc<K>>, NoMemory>
        ensures read { IfOk result (λ v. map arc_value v.items ≡ filter (λ o. is_selected selector.now (K.meta_of o)) (objects (stored_in K.meta_of self.new))) }
        ensures own { (self.new.book ≡ self.old.book) × (self.new.kind ≡ self.old.kind) }
        ensures later { IsPrefix self.old.seen self.new.seen }
        ensures readable { is_readable self.new.seen ≡ true }
    {
        let reading = self.handle.enter(rt);
        let objects = self
            .handle
            .made(&reading)
            .cache()
            .state_filter_selector(alloc, selector);
        self.handle.leave(reading);
        objects
    }

    /// The references under which objects are stored, in order.
    ///
    /// # Errors
    ///
    /// `NoMemory` where memory could not be had.
    pub fn keys<R: Wait>(&mut self, rt: &R, alloc: Global) -> Result<Vec<ObjectRef<K>>, NoMemory>
        ensures read { IfOk result (λ v. map (reference_of K.type_of) v.items ≡ map (λ e. e.0) (stored_in K.meta_of self.new)) }
        ensures own { (self.new.book ≡ self.old.book) × (self.new.kind ≡ self.old.kind) }
        ensures later { IsPrefix self.old.seen self.new.seen }
        ensures readable { is_readable self.new.seen ≡ true }
    {
        let reading = self.handle.enter(rt);
        let keys = self.handle.made(&reading).cache().keys(alloc);
        self.handle.leave(reading);
        keys
    }

    /// How many objects are stored.
    pub fn len<R: Wait>(&mut self, rt: &R) -> usize
        ensures read { result ≡ length (stored_in K.meta_of self.new) }
        ensures own { (self.new.book ≡ self.old.book) × (self.new.kind ≡ self.old.kind) }
        ensures later { IsPrefix self.old.seen self.new.seen }
        ensures readable { is_readable self.new.seen ≡ true }
    {
        let reading = self.handle.enter(rt);
        let len = self.handle.made(&reading).cache().len();
        self.handle.leave(reading);
        len
    }

    /// Whether none is stored.
    pub fn is_empty<R: Wait>(&mut self, rt: &R) -> bool
        ensures read { IsTrue result ↔ (stored_in K.meta_of self.new ≡ []) }
        ensures own { (self.new.book ≡ self.old.book) × (self.new.kind ≡ self.old.kind) }
        ensures later { IsPrefix self.old.seen self.new.seen }
        ensures readable { is_readable self.new.seen ≡ true }
    {
        let reading = self.handle.enter(rt);
        let is_empty = self.handle.made(&reading).cache().is_empty();
        self.handle.leave(reading);
        is_empty
    }
}
