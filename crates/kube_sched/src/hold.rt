//! Views of a scheduler that hold messages back (kube-runtime's `HoldUnless` and `Hold`).

ghost use Rattle.std.specs.Prelude.{◌≡◌, true, false, IfOk, OnErr, IsErr};
ghost use Rattle.std.specs.Fn.{FnReturnsAt};
ghost use Rattle.kube_sched.specs.Schedule.{passes_none};
ghost use Rattle.kube_sched.specs.Polls.{Lost, Polled};

use crate::requests::Requests;
use crate::scheduled::Scheduled;
use kube_meta::{Moment, Next, NoMemory};
use std::alloc::Global;
use std::hash::Hash;

/// A scheduler that gives only messages that pass, and holds the others.
#[derive(Drop)]
pub struct HoldUnless<'a, T: Eq + Hash, R, C> {
    scheduled: &'a mut Scheduled<T, R>,
    can_take_message: C,
}

/// A scheduler that holds all messages.
#[derive(Drop)]
pub struct Hold<'a, T: Eq + Hash, R> {
    scheduled: &'a mut Scheduled<T, R>,
}

impl<T: Eq + Hash + Drop, R: Requests<T>> Scheduled<T, R> {
    /// A view that gives only messages that pass.
    pub fn hold_unless<C: Fn(&T) -> bool>(&mut self, c: C) -> HoldUnless<'_, T, R, C>
        ensures same_reference { result.scheduled.ghost_name ≡ self.entry.ghost_name }
        ensures scheduled { result.scheduled.now ≡ self.old }
        ensures passes { result.can_take_message ≡ c }
    {
        HoldUnless {
            scheduled: self,
            can_take_message: c,
        }
    }

    /// A view that gives no message.
    pub fn hold(&mut self) -> Hold<'_, T, R>
        ensures same_reference { result.scheduled.ghost_name ≡ self.entry.ghost_name }
        ensures scheduled { result.scheduled.now ≡ self.old }
    {
        Hold { scheduled: self }
    }
}

impl<T: Eq + Hash + Drop, R: Requests<T>, C: Fn(&T) -> bool> HoldUnless<'_, T, R, C> {
    /// The first waiting message that passes, after at most `fuel` requests. See `Scheduled::poll_next`.
    ///
    /// # Errors
    ///
    /// `NoMemory` as `Scheduled::poll_next`.
    pub fn poll_next(&mut self, alloc: Global, now: Moment, fuel: u32) -> Result<Next<T>, NoMemory>
        requires { C.IsAlwaysCallable self.old.can_take_message }
        ensures polled { IfOk result (λ a. Polled T.eq (FnReturnsAt C.Fn self.old.can_take_message) R.told now fuel self.old.scheduled.now self.new.scheduled.now a) }
        ensures spent { OnErr result (self.new.scheduled.now.is_spent ≡ true) }
        ensures stays_spent { self.old.scheduled.now.is_spent ≡ true → IsErr result }
        ensures lost { self.old.scheduled.now.is_spent ≡ false → OnErr result (Lost T.eq R.told now fuel self.old.scheduled.now self.new.scheduled.now) }
        ensures unchanged { self.old.scheduled.now.is_spent ≡ true → self.new.scheduled.now ≡ self.old.scheduled.now }
        ensures same_reference { self.new.scheduled.ghost_name ≡ self.old.scheduled.ghost_name }
        ensures passes { self.new.can_take_message ≡ self.old.can_take_message }
    {
        self.scheduled
            .poll_passing(alloc, now, fuel, &self.can_take_message)
    }
}

impl<T: Eq + Hash + Drop, R: Requests<T>> Hold<'_, T, R> {
    /// No message, after at most `fuel` requests. See `Scheduled::poll_next`.
    ///
    /// # Errors
    ///
    /// `NoMemory` as `Scheduled::poll_next`.
    pub fn poll_next(&mut self, alloc: Global, now: Moment, fuel: u32) -> Result<Next<T>, NoMemory>
        ensures polled { IfOk result (λ a. Polled T.eq passes_none R.told now fuel self.old.scheduled.now self.new.scheduled.now a) }
        ensures spent { OnErr result (self.new.scheduled.now.is_spent ≡ true) }
        ensures stays_spent { self.old.scheduled.now.is_spent ≡ true → IsErr result }
        ensures lost { self.old.scheduled.now.is_spent ≡ false → OnErr result (Lost T.eq R.told now fuel self.old.scheduled.now self.new.scheduled.now) }
        ensures unchanged { self.old.scheduled.now.is_spent ≡ true → self.new.scheduled.now ≡ self.old.scheduled.now }
        ensures same_reference { self.new.scheduled.ghost_name ≡ self.old.scheduled.ghost_name }
    {
        self.scheduled.poll_held(alloc, now, fuel)
    }
}
