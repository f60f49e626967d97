//! What is offered and not yet taken (kube-runtime's `Dispatcher`, and the channel on which it stands).

ghost use Rattle.std.specs.Prelude.{◌≡◌, ◌<◌, ◌≤◌, ◌-◌, ◌+◌, ◌^◌, ◌++◌, ◌∷◌, [], true, false, Some, None, IfOk, IfSome, OnOk, OnErr, IsErrOf, length, map, drop, vec_len, slice_get, slice_set, is_some};
ghost use Rattle.std.specs.List.{list_any};
ghost use Rattle.std.specs.Option.{option_map, option_flatten};
ghost use Rattle.std.specs.Arc.{arc_value};
ghost use Rattle.kube_meta.specs.Keys.{reference_of};
ghost use Rattle.kube_reflect.specs.Subscribers.{is_full, offered, free_number, placed, subscribed, with_waiting, waiting_for, closed, new_ring, first_stored, given, left, next_map};
ghost use Rattle.kube_reflect.specs.Lags.{reaches, one_more, pushed};

use crate::cache::Cache;
use crate::lags::Lags;
use kube_meta::{Next, NoMemory, ObjectRef, Resource};
use std::alloc::Global;
use std::collections::VecDeque;
use std::marker::Model;
use std::sync::Arc;
use thiserror::Error;

/// Why a reference was not offered.
#[derive(Clone, Copy, Debug, PartialEq, Eq, Error)]
pub enum OfferError {
    /// A live subscriber has not taken as many offered references as it may leave.
    #[error("a subscriber lags behind")]
    Full,
    /// Memory could not be had.
    #[error("out of memory")]
    NoMemory,
}

impl From<NoMemory> for OfferError {
    ghost use Rattle.std.specs.Prelude.{◌≡◌};
    ghost use Rattle.kube_reflect.specs.declared.ring.OfferError.TheVariants.{NoMemory};

    ghost from_gives = { λ _ e. e ≡ NoMemory };

    fn from(_error: NoMemory) -> OfferError {
        OfferError::NoMemory
    }
}

/// The last references that were offered, and of each subscriber how many of them it has not taken.
#[derive(Drop)]
pub struct Ring<K: Resource> {
    room: u32,
    references: VecDeque<ObjectRef<K>>,
    lags: Lags,
    is_closed: bool,
}

impl<K: Resource> Model for Ring<K> {
    ghost use Rattle.std.specs.Prelude.{◌≡◌, true, map, length};
    ghost use Rattle.std.specs.List.{list_all};
    ghost use Rattle.kube_meta.specs.Keys.{reference_of};
    ghost use Rattle.kube_reflect.specs.Subscribers.{Ring};
    ghost use Rattle.kube_reflect.specs.Lags.{lagging, is_within};

    ghost Value = { Ring };

    ghost view = { λ r. record { room = r.room; waiting = map (lagging (map (reference_of K.type_of) r.references.items)) r.lags; is_closed = r.is_closed } };

    ghost invariant = { λ r. list_all (is_within (length r.references.items)) r.lags ≡ true };
}

/// Adds a reference. The first one goes where there are as many as there is room for.
fn push<K: Resource>(
    references: &mut VecDeque<ObjectRef<K>>,
    room: u32,
    reference: ObjectRef<K>,
) -> Result<(), NoMemory>
    ensures ok { OnOk result (references.new.items ≡ pushed room references.old.items reference) }
    ensures err { OnErr result (references.new.items ≡ references.old.items) }
{
    if room as usize <= references.len() {
        if let Some(_first) = references.pop_front() {
            references.push_back_reserved(reference);
            return Ok(());
        }
    }
    references.push_back(reference)?;
    Ok(())
}

/// The first object that is stored under one of the references from a place on, and how many references follow.
fn share_first<K: Resource>(
    cache: &Cache<K>,
    references: &VecDeque<ObjectRef<K>>,
    from: usize,
) -> Result<Option<(Arc<K>, usize)>, NoMemory>
    ensures first { IfOk result (λ o. option_map (λ p. (arc_value p.0, drop (length references.now.items - p.1) (map (reference_of K.type_of) references.now.items))) o
        ≡ first_stored cache.now (drop from (map (reference_of K.type_of) references.now.items))) }
    ensures within { IfOk result (λ o. IfSome o (λ p. p.1 ≤ length references.now.items)) }
{
    for place in from..references.len() {
        let reference = &references[place];
        if let Some(object) = cache.get(reference) {
            let object = Arc::try_clone(object)?;
            return Ok(Some((object, references.len() - 1 - place)));
        }
    }
    Ok(None)
}

/// The answer where no reference waits under which an object is stored.
fn none_left<K>(is_closed: bool) -> Next<Arc<K>>
    ensures { next_map arc_value result ≡ given is_closed None }
{
    if is_closed { Next::End } else { Next::NotReady }
}

impl<K: Resource> Ring<K> {
    /// A ring without subscribers, of which each may leave so many offered references.
    pub fn new(alloc: Global, room: u32) -> Ring<K>
        ensures { result ≡ new_ring room }
    {
        Ring {
            room,
            references: VecDeque::new(alloc),
            lags: Lags::new(alloc),
            is_closed: false,
        }
    }

    /// Whether a live subscriber has not taken as many offered references as it may leave.
    pub fn is_full(&self) -> bool
        ensures { result ≡ is_full self.now }
    {
        self.lags.any_reaches(self.room)
    }

    /// Whether there is a live subscriber.
    pub fn has_subscribers(&self) -> bool
        ensures { result ≡ list_any is_some self.now.waiting }
    {
        self.lags.any_there()
    }

    /// Offers a reference to each live subscriber.
    pub fn offer(&mut self, reference: ObjectRef<K>) -> Result<(), OfferError>
        ensures ok { OnOk result (self.new ≡ offered self.old (reference_of K.type_of reference)) }
        ensures room { OnOk result (is_full self.old ≡ false) }
        ensures full { IsErrOf result OfferError.Full → is_full self.old ≡ true }
        ensures err { OnErr result (self.new ≡ self.old) }
    {
        if self.lags.any_reaches(self.room) {
            return Err(OfferError::Full);
        }
        if self.lags.any_there() {
            push(&mut self.references, self.room, reference)?;
            self.lags.raise(self.room);
        }
        Ok(())
    }

    /// Adds a subscriber that takes what is offered from now on.
    pub fn subscribe(&mut self) -> Result<usize, NoMemory>
        ensures ok { OnOk result (self.new ≡ subscribed self.old []) }
        ensures number { IfOk result (λ number. number ≡ free_number self.old.waiting) }
        ensures err { OnErr result (self.new ≡ self.old) }
    {
        let number = self.lags.add(0)?;
        Ok(number)
    }

    /// Adds a subscriber that takes what another one has not taken, and what is offered from now on.
    pub fn copy(&mut self, number: usize) -> Result<usize, NoMemory>
        requires { is_some (waiting_for self.old number) ≡ true }
        ensures ok { OnOk result (IfSome (waiting_for self.old number) (λ rs. self.new ≡ subscribed self.old rs)) }
        ensures number { IfOk result (λ number. number ≡ free_number self.old.waiting) }
        ensures err { OnErr result (self.new ≡ self.old) }
    {
        let Some(lag) = self.lags.lag(number) else {
            unreachable!()
        };
        let number = self.lags.add(lag)?;
        Ok(number)
    }

    /// Ends a subscription.
    pub fn leave(&mut self, number: usize)
        requires { is_some (waiting_for self.old number) ≡ true }
        ensures { self.new ≡ with_waiting self.old number None }
    {
        self.lags.leave(number);
    }

    /// No more offers follow.
    pub fn close(&mut self)
        ensures { self.new ≡ closed self.old }
    {
        self.is_closed = true;
    }

    /// The first object that is stored under a reference that waits for a subscriber, which has then taken that
    /// reference and those before it. Where there is none it has taken all.
    pub fn take_next(&mut self, cache: &Cache<K>, number: usize) -> Result<Next<Arc<K>>, NoMemory>
        requires { is_some (waiting_for self.old number) ≡ true }
        ensures answer { IfOk result (λ a. IfSome (waiting_for self.old number) (λ rs. next_map arc_value a ≡ given self.old.is_closed (first_stored cache.now rs))) }
        ensures taken { OnOk result (IfSome (waiting_for self.old number) (λ rs. self.new ≡ with_waiting self.old number (Some (left (first_stored cache.now rs))))) }
        ensures err { OnErr result (self.new ≡ self.old) }
    {
        let Some(lag) = self.lags.lag(number) else {
            unreachable!()
        };
        let from = self.references.len().saturating_sub(lag);
        match share_first(cache, &self.references, from)? {
            Some((object, after)) => {
                self.lags.set(number, after);
                Ok(Next::Item(object))
            }
            None => {
                self.lags.set(number, 0);
                Ok(none_left(self.is_closed))
            }
        }
    }
}
