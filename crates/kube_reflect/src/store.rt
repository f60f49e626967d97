//! The one that writes a cache (kube-runtime's `reflector::store`).

ghost use Rattle.std.specs.Prelude.{◌≡◌, ◌↔◌, ◌⊎◌, ◌≤◌, ◌<◌, ◌-◌, ◌^◌, [], ◌∷◌, ◌++◌, length, map, true, false, Some, None, IfOk, IfErr, IfSome, IsNone, OnOk, OnErr, IsErrOf, is_some};
ghost use Rattle.std.specs.Arc.{arc_value};
ghost use Rattle.std.specs.List.{fold, list_all};
ghost use Rattle.kube_meta.specs.Keys.{reference_of, key_of, is_named};
ghost use Rattle.kube_watch.specs.Events.{event_map};
ghost use Rattle.kube_reflect.specs.Cached.{has_name};
ghost use Rattle.kube_reflect.specs.declared.copies.law.Entry.TheVariants.{End};
ghost use Rattle.kube_reflect.specs.Entries.{told_in, ended, with_publish, IsPublished};
ghost use Rattle.kube_reflect.specs.Shareds.{Tells, HasShown};
ghost use Rattle.kube_reflect.specs.Subscribers.{new_ring, next_map};
ghost use Rattle.kube_reflect.specs.Writers.{new_writer, new_reader, published, with_event, has_live, fresh, is_live, AllStay, is_lagged, next_number, with_offer, with_subscriber, without_subscriber, with_close, references_for, answer_for, after_answer};

use crate::cache::Cache;
use crate::copies::shared::Shared;
use crate::dispatcher::ReflectHandle;
use crate::keeper::Keeper;
pub use crate::reader::{Ended, Published, Store, WriterDropped};
pub use crate::ring::OfferError;
use crate::ring::Ring;
use kube_meta::{Next, NoMemory, ObjectRef, Resource, TypeInfo};
use kube_watch::Event;
use std::alloc::Global;
use std::collections::VecDeque;
use std::marker::Model;
use std::slice::from_ref;
use std::sync::{Arc, Wait};
use thiserror::Error;

/// Why an event was not applied.
#[derive(Clone, Copy, Debug, PartialEq, Eq, Error)]
pub enum WriteError {
    /// The object of the event has no name.
    #[error("object has no name")]
    Unnamed,
    /// Memory could not be had.
    #[error("out of memory")]
    NoMemory,
}

impl From<NoMemory> for WriteError {
    ghost use Rattle.std.specs.Prelude.{◌≡◌};
    ghost use Rattle.kube_reflect.specs.declared.store.WriteError.TheVariants.{NoMemory};

    ghost from_gives = { λ _ e. e ≡ NoMemory };

    fn from(_error: NoMemory) -> WriteError {
        WriteError::NoMemory
    }
}

/// Applies the events of a watcher to a cache, publishes it for readers, and offers references to subscribers where it is
/// shared.
///
/// Contracts see it as the type of its objects, all events that it has applied, what they made (the cache, the list under
/// way and whether a list was complete), the list that its publishes made readable, how many reader places it has left, its
/// ring of offers, and its book, which tells it from other writers.
#[derive(Drop)]
pub struct Writer<K: Resource> {
    keeper: Keeper<K>,
    ring: Option<Ring<K>>,
    count: u64,
    shared: Shared<K>,
}

impl<K: Resource> Model for Writer<K> {
    ghost use Rattle.kube_reflect.specs.Shareds.{Tells};
    ghost use Rattle.kube_reflect.specs.Writers.{Writing};

    ghost Value = { Writing K };

    ghost view = { λ w. record { kind = w.keeper.kind; kept = w.keeper.kept; events = w.keeper.events; shown = w.shared.named; readers = w.shared.readers; ring = w.ring; book = w.shared.home.book } };

    ghost invariant = { λ w. Tells K.type_of w.keeper w.count w.shared };
}

/// Makes readable what is kept.
#[tactic(auto, using(crate::proofs::Telling::made_told))]
fn show_kept<K: Resource, R: Wait>(
    rt: &R,
    alloc: Global,
    keeper: &Keeper<K>,
    count: u64,
    shared: &mut Shared<K>,
) -> Result<(), NoMemory>
    requires { Tells K.type_of keeper.now count shared.old }
    ensures tells { Tells K.type_of keeper.now count shared.new }
    ensures home { shared.new.home ≡ shared.old.home }
    ensures readers { shared.new.readers ≡ shared.old.readers }
    ensures named { (shared.new.named ≡ shared.old.named) ⊎ (shared.new.named ≡ with_publish shared.old.named keeper.now.events) }
    ensures shown { OnOk result (HasShown shared.old shared.new keeper.now.events) }
{
    shared.publish(rt, alloc, keeper.made(), keeper.history(), count)
}

/// A writer of an empty cache, and its first store handle. `readers` is how many handles there are, this one included.
///
/// # Errors
///
/// `NoMemory` where memory could not be had.
pub fn store<K: Resource<DynamicType = ()>>(
    alloc: Global,
    readers: u32,
) -> Result<(Store<K>, Writer<K>), NoMemory>
    requires { 1 ≤ readers }
    ensures writer { IfOk result (λ p. p.1 ≡ new_writer (K.type_of tt) (readers - 1) None p.1.book) }
    ensures store { IfOk result (λ p. p.0 ≡ new_reader p.1) }
{
    with_first(Writer::new(alloc, (), readers)?)
}

/// As `store`, with a writer that takes subscribers: `buf_size` is how many offered references each of them may leave
/// before no more are offered. One that takes none then holds back the reflector and all other subscribers.
///
/// # Errors
///
/// `NoMemory` where memory could not be had.
pub fn store_shared<K: Resource<DynamicType = ()>>(
    alloc: Global,
    buf_size: u32,
    readers: u32,
) -> Result<(Store<K>, Writer<K>), NoMemory>
    requires room { 1 ≤ buf_size }
    requires readers { 1 ≤ readers }
    ensures writer { IfOk result (λ p. p.1 ≡ new_writer (K.type_of tt) (readers - 1) (Some (new_ring buf_size)) p.1.book) }
    ensures store { IfOk result (λ p. p.0 ≡ new_reader p.1) }
{
    with_first(Writer::new_shared(alloc, buf_size, (), readers)?)
}

/// A writer with a place left, and the handle that takes it.
fn with_first<K: Resource>(writer: Writer<K>) -> Result<(Store<K>, Writer<K>), NoMemory>
    requires { 1 ≤ writer.readers }
    ensures { IfOk result (λ p. (p.1 ≡ record writer { readers = writer.readers - 1 }) × (p.0 ≡ new_reader p.1)) }
{
    let mut writer = writer;
    match writer.as_reader() {
        Some(store) => Ok((store, writer)),
        None => unreachable!(),
    }
}

impl<K: Resource> Writer<K> {
    /// A writer of an empty cache, which takes no subscribers. `readers` is how many store handles it can give.
    ///
    /// # Errors
    ///
    /// `NoMemory` where memory could not be had.
    pub fn new(alloc: Global, t: K::DynamicType, readers: u32) -> Result<Writer<K>, NoMemory>
        requires { 1 ≤ readers }
        ensures { IfOk result (λ w. w ≡ new_writer (K.type_of t) readers None w.book) }
    {
        Writer::with_ring(alloc, t, readers, None)
    }

    /// A writer of an empty cache, which takes subscribers: `buf_size` is how many offered references each of them may
    /// leave before no more are offered.
    ///
    /// # Errors
    ///
    /// `NoMemory` where memory could not be had.
    pub fn new_shared(
        alloc: Global,
        buf_size: u32,
        t: K::DynamicType,
        readers: u32,
    ) -> Result<Writer<K>, NoMemory>
        requires room { 1 ≤ buf_size }
        requires readers { 1 ≤ readers }
        ensures { IfOk result (λ w. w ≡ new_writer (K.type_of t) readers (Some (new_ring buf_size)) w.book) }
    {
        Writer::with_ring(alloc, t, readers, Some(Ring::new(alloc, buf_size)))
    }

    // A writer of an empty cache, with this ring.
    fn with_ring(
        alloc: Global,
        t: K::DynamicType,
        readers: u32,
        ring: Option<Ring<K>>,
    ) -> Result<Writer<K>, NoMemory>
        ensures { IfOk result (λ w. w ≡ new_writer (K.type_of t) readers ring w.book) }
    {
        let dyntype = Arc::new(alloc, t.share(alloc)?)?;
        Ok(Writer {
            keeper: Keeper::new(alloc, t),
            ring,
            count: 0,
            shared: Shared::new(alloc, dyntype, readers)?,
        })
    }

    /// A handle that reads what this writer publishes. None where all its reader places were handed out.
    pub fn as_reader(&mut self) -> Option<Store<K>>
        ensures none { IsNone result ↔ (self.old.readers ≡ 0) }
        ensures writer { self.new ≡ record self.old { readers = self.old.readers - 1 } }
        ensures store { IfSome result (λ s. s ≡ new_reader self.old) }
    {
        let handle = self.shared.as_reader()?;
        Some(Store::new(handle))
    }

    /// Makes readable what is stored now: handles then read this cache. The note names all events that were applied. Where
    /// this waits, it waits for reads that began before.
    ///
    /// The first publish copies the cache, and hands each handle what it reads with. A writer that is dropped after it
    /// leaves its copies in memory, for the handles that read them.
    ///
    /// # Errors
    ///
    /// `NoMemory` where memory could not be had. Handles read then what they read before, or all of it; the next publish
    /// goes on from there.
    pub fn publish<R: Wait>(&mut self, rt: &R, alloc: Global) -> Result<Published<K>, NoMemory>
        ensures rest { self.new ≡ record self.old { shown = self.new.shown } }
        ensures writer { OnOk result (self.new ≡ published self.old) }
        ensures note { IfOk result (λ n. n.book ≡ self.old.book) }
        ensures events { IfOk result (λ n. n.events ≡ self.old.events) }
        ensures shown { IfOk result (λ n. n.shown ≡ self.new.shown) }
        ensures list { IfOk result (λ n. IsPublished n.shown n.events) }
        ensures err { OnErr result ((self.new ≡ self.old) ⊎ (self.new ≡ published self.old)) }
    {
        show_kept(rt, alloc, &self.keeper, self.count, &mut self.shared)?;
        let note = Published::new(self.shared.mark(), self.keeper.history().again());
        Ok(note)
    }

    /// Makes readable what is stored now, and that no more follows. After want of memory the writer comes back as it was, or
    /// as a publish left it.
    ///
    /// # Errors
    ///
    /// `NoMemory`, with the writer, where memory could not be had.
    pub fn end<R: Wait>(self, rt: &R, alloc: Global) -> Result<Ended<K>, (Writer<K>, NoMemory)>
        ensures ended { IfOk result (λ e. e.book ≡ self.book) }
        ensures events { IfOk result (λ e. told_in e.shown ≡ ended self.events) }
        ensures shown { IfOk result (λ e. e.shown ≡ (published self).shown ++ End ∷ []) }
        ensures err { IfErr result (λ e. (e.0 ≡ self) ⊎ (e.0 ≡ published self)) }
    {
        let Writer {
            keeper,
            ring,
            count,
            mut shared,
        } = self;
        if let Err(error) = show_kept(rt, alloc, &keeper, count, &mut shared) {
            let writer = Writer {
                keeper,
                ring,
                count,
                shared,
            };
            return Err((writer, error));
        }
        match shared.add_end() {
            Ok(()) => Ok(Ended::new(shared.finish(rt))),
            Err(error) => {
                let writer = Writer {
                    keeper,
                    ring,
                    count,
                    shared,
                };
                Err((writer, error))
            }
        }
    }

    /// What is stored.
    pub fn cache(&self) -> &Cache<K>
        ensures { result.now ≡ self.now.kept.cache }
    {
        self.keeper.cache()
    }

    /// Whether a list was complete: after the first `InitDone`.
    pub fn is_ready(&self) -> bool
        ensures { result ≡ self.now.kept.is_ready }
    {
        self.keeper.is_ready()
    }

    /// Applies one event.
    ///
    /// `Apply` puts its object into the cache in the place of the one under an equal reference, or last; `Delete` removes
    /// it; `Init` begins a list; `InitApply` puts its object into that list; `InitDone` puts the list in place of the
    /// cache, also where no `Init` came.
    ///
    /// # Errors
    ///
    /// `Unnamed` where the object of the event has no name. After that, and after want of memory, the writer is as before.
    pub fn apply_watcher_event(
        &mut self,
        alloc: Global,
        event: &Event<Arc<K>>,
    ) -> Result<(), WriteError>
        ensures applied { OnOk result (self.new ≡ with_event arc_value K.meta_of self.old event.now) }
        ensures named { OnOk result (has_name K.meta_of (event_map arc_value event.now) ≡ true) }
        ensures unnamed { IsErrOf result WriteError.Unnamed → has_name K.meta_of (event_map arc_value event.now) ≡ false }
        ensures err { OnErr result (self.new ≡ self.old) }
        ensures live { AllStay self.old self.new }
    {
        if self.count + 1 >= 1 << 62 {
            return Err(WriteError::NoMemory);
        }
        let ops = self.shared.prepare(alloc, from_ref(event))?;
        self.keeper.apply(alloc, event)?;
        self.shared.add(ops);
        self.count += 1;
        Ok(())
    }

    /// Applies all of these events in order, or none, as those of a whole list, or of a page of it. See
    /// `apply_watcher_event`.
    ///
    /// What they make takes its memory beside what is stored before anything of the writer changes.
    ///
    /// # Errors
    ///
    /// `Unnamed` where the object of one of them has no name. After that, and after want of memory, the writer is as before.
    pub fn apply_watcher_events(
        &mut self,
        alloc: Global,
        events: &[Event<Arc<K>>],
    ) -> Result<(), WriteError>
        ensures applied { OnOk result (self.new ≡ fold (with_event arc_value K.meta_of) self.old events.now) }
        ensures named { OnOk result (list_all (λ e. has_name K.meta_of (event_map arc_value e)) events.now ≡ true) }
        ensures unnamed { IsErrOf result WriteError.Unnamed → list_all (λ e. has_name K.meta_of (event_map arc_value e)) events.now ≡ false }
        ensures err { OnErr result (self.new ≡ self.old) }
        ensures live { AllStay self.old self.new }
    {
        let count = events.len() as u64;
        if count >= (1 << 62) - self.count {
            return Err(WriteError::NoMemory);
        }
        let ops = self.shared.prepare(alloc, events)?;
        self.keeper.apply_all(alloc, events)?;
        self.shared.add(ops);
        self.count += count;
        Ok(())
    }

    /// Adds a subscriber, which takes what is offered from now on. None where the writer is not shared.
    ///
    /// # Errors
    ///
    /// `NoMemory` where there is none for one subscriber more; the writer is then as before.
    pub fn subscribe(&mut self, _alloc: Global) -> Result<Option<ReflectHandle<K>>, NoMemory>
        ensures none { IfOk result (λ o. is_some o ≡ is_some self.old.ring) }
        ensures handle { IfOk result (λ o. IfSome o (λ h. h ≡ fresh (next_number self.old))) }
        ensures writer { OnOk result (self.new ≡ with_subscriber self.old []) }
        ensures own { IfOk result (λ o. IfSome o (λ h. is_live self.new h.number ≡ true)) }
        ensures err { OnErr result (self.new ≡ self.old) }
        ensures live { AllStay self.old self.new }
    {
        self.subscribe_once()
    }

    // The same, without a word on those that stay.
    fn subscribe_once(&mut self) -> Result<Option<ReflectHandle<K>>, NoMemory>
        ensures none { IfOk result (λ o. is_some o ≡ is_some self.old.ring) }
        ensures handle { IfOk result (λ o. IfSome o (λ h. h ≡ fresh (next_number self.old))) }
        ensures writer { OnOk result (self.new ≡ with_subscriber self.old []) }
        ensures err { OnErr result (self.new ≡ self.old) }
    {
        match &mut self.ring {
            Some(ring) => {
                let number = ring.subscribe()?;
                Ok(Some(ReflectHandle::new(number)))
            }
            None => Ok(None),
        }
    }

    /// Offers a reference to each live subscriber. `Full` where one of them has not taken as many offered references as
    /// it may leave; the writer is then as before, also after want of memory. The reference is dropped where there is no
    /// live subscriber.
    ///
    /// # Errors
    ///
    /// `Full` where a live subscriber lags behind, and `NoMemory`; the writer is then as before.
    pub fn offer(&mut self, _alloc: Global, reference: ObjectRef<K>) -> Result<(), OfferError>
        ensures offered { OnOk result (self.new ≡ with_offer self.old (reference_of K.type_of reference)) }
        ensures room { OnOk result (is_lagged self.old ≡ false) }
        ensures full { IsErrOf result OfferError.Full → is_lagged self.old ≡ true }
        ensures err { OnErr result (self.new ≡ self.old) }
        ensures live { AllStay self.old self.new }
    {
        match self.offer_once(reference) {
            Ok(()) => Ok(()),
            Err(error) => Err(error),
        }
    }

    // The same, without a word on those that stay.
    fn offer_once(&mut self, reference: ObjectRef<K>) -> Result<(), OfferError>
        ensures offered { OnOk result (self.new ≡ with_offer self.old (reference_of K.type_of reference)) }
        ensures room { OnOk result (is_lagged self.old ≡ false) }
        ensures full { IsErrOf result OfferError.Full → is_lagged self.old ≡ true }
        ensures err { OnErr result (self.new ≡ self.old) }
    {
        match &mut self.ring {
            Some(ring) => ring.offer(reference),
            None => Ok(()),
        }
    }

    // The same where no live subscriber lags behind.
    pub(crate) fn offer_now(
        &mut self,
        alloc: Global,
        reference: ObjectRef<K>,
    ) -> Result<(), NoMemory>
        requires { is_lagged self.old ≡ false }
        ensures offered { OnOk result (self.new ≡ with_offer self.old (reference_of K.type_of reference)) }
        ensures err { OnErr result (self.new ≡ self.old) }
        ensures live { AllStay self.old self.new }
    {
        match self.offer(alloc, reference) {
            Ok(()) => Ok(()),
            Err(OfferError::NoMemory) => Err(NoMemory),
            Err(OfferError::Full) => unreachable!(),
        }
    }

    // The reference of a named object, alone.
    pub(crate) fn queue_key(
        &self,
        alloc: Global,
        object: &K,
    ) -> Result<VecDeque<ObjectRef<K>>, NoMemory>
        requires { is_named (K.meta_of object.now) ≡ true }
        ensures { IfOk result (λ v. map (reference_of K.type_of) v.items ≡ key_of self.now.kind (K.meta_of object.now) ∷ []) }
    {
        self.keeper.queue_key(alloc, object)
    }

    // Whether there is a live subscriber.
    pub(crate) fn has_subscribers(&self) -> bool
        ensures { result ≡ has_live self.now }
    {
        match &self.ring {
            Some(ring) => ring.has_subscribers(),
            None => false,
        }
    }

    // Whether a live subscriber has not taken as many offered references as it may leave.
    pub(crate) fn is_lagged(&self) -> bool
        ensures { result ≡ is_lagged self.now }
    {
        match &self.ring {
            Some(ring) => ring.is_full(),
            None => false,
        }
    }

    /// No more offers follow: each subscriber ends once it has taken all.
    pub fn close_subscribers(&mut self)
        ensures closed { self.new ≡ with_close self.old }
        ensures live { AllStay self.old self.new }
    {
        if let Some(ring) = &mut self.ring {
            ring.close();
        }
    }

    // The next object of a subscriber.
    pub(crate) fn take_next(&mut self, number: usize) -> Result<Next<Arc<K>>, NoMemory>
        requires { is_live self.old number ≡ true }
        ensures answer { IfOk result (λ a. next_map arc_value a ≡ answer_for self.old number) }
        ensures taken { OnOk result (self.new ≡ after_answer self.old number) }
        ensures err { OnErr result (self.new ≡ self.old) }
        ensures live { AllStay self.old self.new }
    {
        match &mut self.ring {
            Some(ring) => ring.take_next(self.keeper.cache(), number),
            None => unreachable!(),
        }
    }

    // One more subscriber, for which the same references wait.
    pub(crate) fn copy_subscriber(&mut self, number: usize) -> Result<usize, NoMemory>
        requires { is_live self.old number ≡ true }
        ensures number { IfOk result (λ n. n ≡ next_number self.old) }
        ensures writer { OnOk result (self.new ≡ with_subscriber self.old (references_for self.old number)) }
        ensures own { IfOk result (λ n. is_live self.new n ≡ true) }
        ensures err { OnErr result (self.new ≡ self.old) }
        ensures live { AllStay self.old self.new }
    {
        self.copy_once(number)
    }

    // The same, without a word on those that stay.
    fn copy_once(&mut self, number: usize) -> Result<usize, NoMemory>
        requires { is_live self.old number ≡ true }
        ensures number { IfOk result (λ n. n ≡ next_number self.old) }
        ensures writer { OnOk result (self.new ≡ with_subscriber self.old (references_for self.old number)) }
        ensures err { OnErr result (self.new ≡ self.old) }
    {
        match &mut self.ring {
            Some(ring) => ring.copy(number),
            None => unreachable!(),
        }
    }

    // Ends a subscription.
    pub(crate) fn end_subscriber(&mut self, number: usize)
        requires { is_live self.old number ≡ true }
        ensures { self.new ≡ without_subscriber self.old number }
    {
        if let Some(ring) = &mut self.ring {
            ring.leave(number);
        }
    }
}
