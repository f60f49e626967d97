//! What lies under the lock: the stock, with what happened to it.

ghost use Rattle.std.specs.Prelude.{◌≡◌, ◌<◌, ◌^◌, [], ◌∷◌, ◌++◌, length, Option, OnOk, OnErr};
ghost use Rattle.kube_lock_tests.specs.Stocks.{MayHappen, Took, Marked};

use crate::entry::{Event, What};
use crate::stock::{Stock, Thing};
use kube_lock::Kept;
use std::alloc::{AllocError, Global};
use std::marker::Model;
use std::snapshot::Snapshot;

/// A stock, with what happened to it since it was opened.
#[derive(Drop)]
pub struct Desk<K: Thing> {
    stock: Stock<K>,
    events: Vec<Event<K>>,
    opened: Snapshot<Stock<K>>,
}

impl<K: Thing> Model for Desk<K> {
    ghost use Rattle.kube_lock_tests.specs.Stocks.{Desked, Leaves};

    ghost Value = { Desked K K.Place };

    ghost view = { λ d. record { opened = d.opened.value; entries = d.events.items } };

    ghost invariant = { λ d. Leaves d.opened.value d.events.items d.stock };
}

impl<K: Thing> Kept for Desk<K> {
    ghost use Rattle.kube_lock_tests.specs.Stocks.{MayHappen, front_may_happen, number_of};

    type Entry = Event<K>;

    type Opening = Stock<K>;

    ghost entries = { λ d. d.entries };

    ghost number = { number_of };

    ghost opened = { λ d. d.opened };

    ghost legal = { MayHappen };

    ghost fronts = { front_may_happen };
}

impl<K: Thing> Desk<K> {
    /// A stock to which nothing happened yet.
    pub fn new(alloc: Global, stock: Stock<K>) -> Desk<K>
        ensures opened { result.opened ≡ stock }
        ensures none { result.entries ≡ [] }
    {
        let opened = Snapshot::of(&stock);
        Desk {
            stock,
            events: Vec::new(alloc),
            opened,
        }
    }

    /// Takes the last thing, and says whether there was one.
    pub(crate) fn take(&mut self, pass: u64) -> Result<bool, AllocError>
        ensures opened { self.new.opened ≡ self.old.opened }
        ensures taken { OnOk result ((thing : Option K) × (self.new.entries ≡ self.old.entries ++ Took pass thing ∷ [])) }
        ensures err { OnErr result (self.new.entries ≡ self.old.entries) }
        ensures legal { MayHappen self.new.opened self.new.entries }
        ensures short { length self.new.entries < 2 ^ 64 }
    {
        self.events.reserve(1)?;
        let thing = self.stock.take();
        let found = thing.is_some();
        self.events.push_reserved(Event {
            pass,
            what: What::Took(thing),
        });
        Ok(found)
    }

    /// Leaves a mark.
    pub(crate) fn mark(&mut self, pass: u64) -> Result<(), AllocError>
        ensures opened { self.new.opened ≡ self.old.opened }
        ensures marked { OnOk result (self.new.entries ≡ self.old.entries ++ Marked pass ∷ []) }
        ensures err { OnErr result (self.new.entries ≡ self.old.entries) }
        ensures legal { MayHappen self.new.opened self.new.entries }
        ensures short { length self.new.entries < 2 ^ 64 }
    {
        self.events.reserve(1)?;
        self.events.push_reserved(Event {
            pass,
            what: What::Marked,
        });
        Ok(())
    }

    /// What happened.
    pub fn into_events(self) -> Vec<Event<K>>
        ensures { result.items ≡ self.entries }
    {
        let Desk {
            stock: _,
            events,
            opened: _,
        } = self;
        events
    }
}
