//! How a lock is closed.

ghost use Rattle.std.specs.Prelude.{◌≡◌, ◌<◌, [], length};
ghost use Rattle.std.specs.List.{AllByRecursion};
ghost use Rattle.kube_lock.specs.Seats.{IsOf, IsIdle};
ghost use Rattle.kube_lock.specs.Passes.{Passing, IsPassOf};
ghost use Rattle.kube_lock.specs.Whole.{BoundsNumbers, IsWhole, Covers};

use crate::kept::Kept;
use crate::lock::Lock;
use crate::pass::Pass;
use crate::rule::Place;
use crate::steps::join;
use crate::waiting::wait_turn;
use std::sync::Wait;

impl<C: Kept> Lock<C> {
    /// Ends it, and gives what lay under the lock, with the whole history. It begins with what each pass has seen, and
    /// has as its entries just each pass's own; of numbers that were never given it has none, as the pass tells that
    /// keeps their count.
    pub fn close<R: Wait>(self, rt: &R, mut passes: Vec<Pass<C>>) -> C
        requires some { 0 < length passes.items }
        requires passes { AllByRecursion (IsPassOf self) passes.items }
        ensures legal { C.legal self.opening (C.entries result) }
        ensures opened { C.opened result ≡ self.opening }
        ensures whole { AllByRecursion (IsWhole C.number (C.entries result)) passes.items }
        ensures others { AllByRecursion (BoundsNumbers C.number (C.entries result)) passes.items }
    {
        let Some(last) = passes.pop() else {
            unreachable!()
        };
        let Pass {
            mut seat,
            number: _,
        } = last;
        gather(&self, &mut seat, passes);
        wait_turn(rt, &self.table.shared, &mut seat)
    }
}

// Takes in what all of these know.
fn gather<C: Kept>(
    lock: &Lock<C>,
    seat: &mut Place<C, C::Entry, C::Opening>,
    mut passes: Vec<Pass<C>>,
)
    requires table { IsOf lock.now.table seat.old }
    requires idle { IsIdle seat.old }
    requires passes { AllByRecursion (IsPassOf lock.now) passes.items }
    ensures table { IsOf lock.now.table seat.new }
    ensures idle { IsIdle seat.new }
    ensures number { seat.new.me.0.number ≡ seat.old.me.0.number }
    ensures opening { seat.new.me.0.opening ≡ seat.old.me.0.opening }
    ensures keeps { (p : Passing C.Entry C.Opening) → Covers C.number C.legal seat.old.me.0 p → Covers C.number C.legal seat.new.me.0 p }
    ensures covers { AllByRecursion (Covers C.number C.legal seat.new.me.0) passes.items }
{
    while let Some(other) = passes.pop() {
        let Pass {
            seat: there,
            number: _,
        } = other;
        join(&lock.table.shared, seat, there);
    }
}
