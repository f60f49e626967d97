//! What is opened: a value of a type with parameters, as a controller's core is.

ghost use Rattle.std.specs.Prelude.{◌≡◌};
ghost use Rattle.kube_lock_tests.specs.Stocks.{IsTake};

use std::marker::Model;

/// A type of things, with what is known of it when the program runs.
pub trait Thing: Drop {
    type Place: Drop;
}

/// Things, of which the last is taken first.
#[derive(Drop)]
pub struct Stock<K: Thing> {
    things: Vec<K>,
    place: K::Place,
}

impl<K: Thing> Model for Stock<K> {
    ghost use Rattle.kube_lock_tests.specs.Stocks.{Stocked};

    ghost Value = { Stocked K K.Place };

    ghost view = { λ s. record { things = s.things.items; place = s.place } };
}

impl<K: Thing> Stock<K> {
    /// These things at this place.
    pub fn new(things: Vec<K>, place: K::Place) -> Stock<K>
        ensures { result ≡ record { things = things.items; place = place } }
    {
        Stock { things, place }
    }

    /// The last thing, where there is one.
    pub(crate) fn take(&mut self) -> Option<K>
        ensures { IsTake self.old result self.new }
    {
        self.things.pop()
    }
}
