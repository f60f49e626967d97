//! Lists of related sources of one type.

use crate::related::Related;
use crate::set::RelatedSet;
use kube_meta::{Moment, NoMemory, Resource};
use kube_turn::SourceExchange;
use kube_watch::StreamFault;
use std::alloc::Global;

/// Sources of one type, at their places in the list.
#[derive(Drop)]
pub struct RelatedList<T> {
    pub items: Vec<T>,
}

impl<T: Drop> RelatedList<T> {
    ghost use Rattle.std.specs.Prelude.{◌≡◌, ◌++◌, ◌∷◌, [], OnOk, OnErr};

    /// No source.
    pub fn new(alloc: Global) -> RelatedList<T>
        ensures { result.items.items ≡ [] }
    {
        RelatedList {
            items: Vec::new(alloc),
        }
    }

    /// Adds a source after the others.
    ///
    /// Errors: `NoMemory`, and the list stays as it was; the source is dropped.
    pub fn push(&mut self, source: T) -> Result<(), NoMemory>
        ensures ok { OnOk result (self.new.items.items ≡ self.old.items.items ++ source ∷ []) }
        ensures err { OnErr result (self.new.items.items ≡ self.old.items.items) }
    {
        self.items.push(source)?;
        Ok(())
    }
}

impl<K: Resource, T: Related<K>> RelatedSet<K> for RelatedList<T> {
    ghost use Rattle.std.specs.Prelude.{map, slice_get, unwrap_or, None};
    ghost use Rattle.std.specs.List.{AllByRecursion, AllZip};
    ghost use Rattle.kube_asks.specs.Places.{HoldsAt, ChangesAt};

    ghost feeds = { λ s. map T.settings s.items.items };

    ghost can_poll = { λ s. AllByRecursion T.can_poll s.items.items };

    ghost alike = { λ s u. AllZip T.alike s.items.items u.items.items };

    ghost stands = { λ s p own. HoldsAt (λ t. T.stands t own) s.items.items p };

    ghost fault_at = { λ s p. unwrap_or (slice_get (map T.fault s.items.items) p) None };

    ghost polls = { λ s p own now x s'. ChangesAt (λ t u. T.polls t own now x u) p s.items.items s'.items.items };

    ghost breaks = { λ s p now s'. ChangesAt (λ t u. T.breaks t now u) p s.items.items s'.items.items };

    ghost loses = { λ s p now s'. ChangesAt (λ t u. T.loses t now u) p s.items.items s'.items.items };

    fn count(&self) -> u32 {
        self.items.len() as u32
    }

    fn poll_at(
        &mut self,
        alloc: Global,
        place: u32,
        now: Moment,
    ) -> Result<SourceExchange<K>, StreamFault> {
        let source = &mut self.items[place as usize];
        source.poll_unit(alloc, now)
    }
}
