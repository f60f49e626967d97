//! Passes and turns.

ghost use Rattle.std.specs.Prelude.{◌≡◌};

use crate::kept::Kept;
use crate::rule::Place;
use std::marker::Model;

/// Who may enter a lock. It has a number, which no other pass of the lock has.
///
/// Contracts see it as its lock's table, what was opened, its number, the beginning of the history that it has seen, and
/// its own entries. One pass of a lock also keeps how many numbers were given.
#[derive(Drop)]
pub struct Pass<C: Kept> {
    pub(crate) seat: Place<C, C::Entry, C::Opening>,
    pub(crate) number: u64,
}

impl<C: Kept> Model for Pass<C> {
    ghost use Rattle.kube_lock.specs.Passes.{Passing, passing, IsFree};

    ghost Value = { Passing C.Entry C.Opening };

    ghost view = { λ p. passing p.seat.table_id p.number p.seat.me.0 };

    ghost invariant = { λ p. IsFree p.seat.me p.number };
}

impl<C: Kept> Pass<C> {
    /// Its number.
    pub fn number(&self) -> u64
        ensures { result ≡ self.now.number }
    {
        self.number
    }
}

/// A pass whose turn has come: what lies under the lock is out with it. It has no drop, so it is spent by what puts that
/// back.
pub struct Turn<C: Kept> {
    pub(crate) seat: Place<C, C::Entry, C::Opening>,
    pub(crate) number: u64,
}

impl<C: Kept> Model for Turn<C> {
    ghost use Rattle.kube_lock.specs.Passes.{Passing, passing, IsServed};

    ghost Value = { Passing C.Entry C.Opening };

    ghost view = { λ p. passing p.seat.table_id p.number p.seat.me.0 };

    ghost invariant = { λ p. IsServed p.seat.me p.number };
}
