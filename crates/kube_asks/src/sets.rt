//! The sets of related sources: none, one, and two sets beside each other.

ghost use Rattle.std.specs.Prelude.{◌≡◌, ◌∷◌, [], ◌++◌, ◌+◌, ◌-◌, ◌<◌, ◌^◌, ◌==◌, length, map, nat_lt, Err, ⊤};
ghost use Rattle.kube_asks.specs.Places.{Either, HoldsAt, ChangesAt};
ghost use Rattle.kube_watch.specs.declared.stream.StreamFault.{StreamFault};

use crate::related::Related;
use crate::set::RelatedSet;
use kube_meta::{Moment, Resource};
use kube_turn::SourceExchange;
use kube_watch::StreamFault;
use std::alloc::Global;

/// No source.
#[derive(Clone, Copy, Debug, PartialEq, Eq)]
pub struct NoRelated;

impl<K: Resource> RelatedSet<K> for NoRelated {
    ghost use Rattle.std.specs.Prelude.{[], None, ⊤};

    ghost feeds = { λ s. [] };

    ghost can_poll = { λ s. ⊤ };

    ghost alike = { λ s u. ⊤ };

    ghost stands = { λ s p own. ⊤ };

    ghost fault_at = { λ s p. None };

    ghost polls = { λ s p own now x s'. ⊥ };

    ghost breaks = { λ s p now s'. ⊥ };

    ghost loses = { λ s p now s'. ⊥ };

    fn count(&self) -> u32 {
        0
    }

    // It has no place to be polled, so it asks for less than the trait.
    fn poll_at(
        &mut self,
        _alloc: Global,
        _place: u32,
        _now: Moment,
    ) -> Result<SourceExchange<K>, StreamFault>
        ensures { result ≡ Err StreamFault.NoMemory }
    {
        Err(StreamFault::NoMemory)
    }
}

/// One source.
#[derive(Drop)]
pub struct One<T>(pub T);

impl<K: Resource, T: Related<K>> RelatedSet<K> for One<T> {
    ghost use Rattle.std.specs.Prelude.{◌∷◌, [], ◌==◌, None, if◌then◌else◌, ⊤};
    ghost use Rattle.kube_asks.specs.Places.{Either};

    ghost feeds = { λ s. T.settings s.0 ∷ [] };

    ghost can_poll = { λ s. T.can_poll s.0 };

    ghost alike = { λ s u. T.alike s.0 u.0 };

    ghost stands = { λ s p own. Either (p == 0) (T.stands s.0 own) ⊤ };

    ghost fault_at = { λ s p. (if p == 0 then T.fault s.0 else None) };

    ghost polls = { λ s p own now x s'. Either (p == 0) (T.polls s.0 own now x s'.0) ⊥ };

    ghost breaks = { λ s p now s'. T.breaks s.0 now s'.0 };

    ghost loses = { λ s p now s'. T.loses s.0 now s'.0 };

    fn count(&self) -> u32 {
        1
    }

    fn poll_at(
        &mut self,
        alloc: Global,
        _place: u32,
        now: Moment,
    ) -> Result<SourceExchange<K>, StreamFault> {
        self.0.poll_unit(alloc, now)
    }
}

/// The sources of one set, and then those of another: the places of the second begin after those of the first.
#[derive(Drop)]
pub struct Beside<S, T> {
    pub first: S,
    pub rest: T,
}

impl<K: Resource, S: RelatedSet<K>, T: RelatedSet<K>> RelatedSet<K> for Beside<S, T> {
    ghost use Rattle.std.specs.Prelude.{◌≡◌, ◌++◌, ◌-◌, nat_lt, length, if◌then◌else◌};
    ghost use Rattle.kube_asks.specs.Places.{Either};

    ghost feeds = { λ s. S.feeds s.first ++ T.feeds s.rest };

    ghost can_poll = { λ s. S.can_poll s.first × T.can_poll s.rest };

    ghost alike = { λ s u. S.alike s.first u.first × T.alike s.rest u.rest };

    ghost stands = { λ s p own. Either (nat_lt p (length (S.feeds s.first))) (S.stands s.first p own) (T.stands s.rest (p - length (S.feeds s.first)) own) };

    ghost fault_at = { λ s p. (if nat_lt p (length (S.feeds s.first)) then S.fault_at s.first p else T.fault_at s.rest (p - length (S.feeds s.first))) };

    ghost polls = { λ s p own now x s'. Either (nat_lt p (length (S.feeds s.first)))
        (S.polls s.first p own now x s'.first × (s'.rest ≡ s.rest))
        (T.polls s.rest (p - length (S.feeds s.first)) own now x s'.rest × (s'.first ≡ s.first)) };

    ghost breaks = { λ s p now s'. Either (nat_lt p (length (S.feeds s.first)))
        (S.breaks s.first p now s'.first × (s'.rest ≡ s.rest))
        (T.breaks s.rest (p - length (S.feeds s.first)) now s'.rest × (s'.first ≡ s.first)) };

    ghost loses = { λ s p now s'. Either (nat_lt p (length (S.feeds s.first)))
        (S.loses s.first p now s'.first × (s'.rest ≡ s.rest))
        (T.loses s.rest (p - length (S.feeds s.first)) now s'.rest × (s'.first ≡ s.first)) };

    fn count(&self) -> u32 {
        self.first.count() + self.rest.count()
    }

    fn poll_at(
        &mut self,
        alloc: Global,
        place: u32,
        now: Moment,
    ) -> Result<SourceExchange<K>, StreamFault> {
        let before = self.first.count();
        if place < before {
            self.first.poll_at(alloc, place, now)
        } else {
            self.rest.poll_at(alloc, place - before, now)
        }
    }
}
