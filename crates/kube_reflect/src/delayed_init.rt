//! A value that one thread sets once and another one sees (kube-runtime's `utils::delayed_init`).

ghost use Rattle.std.specs.Prelude.{◌≡◌, ◌<◌, [], ◌∷◌, Ok, Some, None, IfOk, IfSome, IsSome};
ghost use Rattle.rtrb.specs.Ring.{sent, received, known_free};
ghost use Rattle.kube_reflect.specs.Once.{head_of, listed};
ghost use Rattle.kube_reflect.specs.Fates.{IsNamed};
ghost use Rattle.kube_reflect.specs.DelayedInits.{abandoned, answer_of};

mod fate;
mod law;
mod outcome;

use fate::{Fate, Giver, Taker};
use kube_meta::{NoMemory, Polled};
use law::{Law, Nothing, Sets};
use logbook::{Offer, Seen, Start, Word};
use outcome::Outcome;
use rtrb::RingBuffer;
use std::alloc::Global;
use std::marker::Model;
use std::sync::Wait;
use thiserror::Error;

/// The initializer was abandoned: no value follows (kube-runtime's `delayed_init::InitDropped`).
#[derive(Clone, Copy, Debug, PartialEq, Eq, Error)]
#[error("initializer was dropped before value was initialized")]
pub struct InitDropped;

/// The side of a delayed value that sets its outcome: a value, or that none follows (kube-runtime's
/// `delayed_init::Initializer`).
///
/// Contracts see it as the book of the value. Where it is dropped and sets nothing, the other side never becomes ready.
#[derive(Drop)]
pub struct Initializer<T> {
    head: Word<Result<T, InitDropped>, u64, Law<T>>,
    seen: Seen<Result<T, InitDropped>, u64, Law<T>>,
    ring: Giver<T>,
}

impl<T> Model for Initializer<T> {
    ghost use Rattle.std.specs.Prelude.{◌≡◌, ◌<◌, []};
    ghost use Rattle.rtrb.specs.Ring.{sent, known_free};
    ghost use Rattle.kube_reflect.specs.Once.{head_of};
    ghost use Rattle.kube_reflect.specs.Fates.{IsNamed};
    ghost use Rattle.kube_reflect.specs.DelayedInits.{Setter};

    ghost Value = { Setter };

    ghost view = { λ i. record { book = i.seen.book } };

    ghost invariant = { λ i. (i.head ≡ head_of i.seen.book) × (i.seen.log ≡ []) × IsNamed (sent i.ring) i.seen.book × (0 < known_free i.ring) };
}

/// What an initializer leaves: the outcome that it set. Whoever learns it knows the outcome without a look.
///
/// Contracts see it as the book of the value and the outcome that was set.
#[derive(Drop)]
pub struct InitNote<T> {
    inner: Outcome<T>,
}

impl<T> Model for InitNote<T> {
    ghost use Rattle.kube_reflect.specs.DelayedInits.{Noted};

    ghost Value = { Noted T };

    ghost view = { λ n. record { book = n.inner.seen.book; outcome = n.inner.outcome } };
}

/// The side of a delayed value that sees its outcome (kube-runtime's `DelayedInit`).
///
/// Contracts see it as the book of the value, and the outcome that it knows, which it found or learnt from a note.
#[derive(Drop)]
pub struct DelayedInit<T> {
    ring: Taker<T>,
    seen: Seen<Result<T, InitDropped>, u64, Law<T>>,
    outcome: Option<Result<T, InitDropped>>,
}

impl<T> Model for DelayedInit<T> {
    ghost use Rattle.std.specs.Prelude.{◌≡◌};
    ghost use Rattle.rtrb.specs.Ring.{received};
    ghost use Rattle.kube_reflect.specs.Once.{listed};
    ghost use Rattle.kube_reflect.specs.Fates.{IsNamed};
    ghost use Rattle.kube_reflect.specs.DelayedInits.{Delayed};

    ghost Value = { Delayed T };

    ghost view = { λ d. record { book = d.seen.book; outcome = d.outcome } };

    ghost invariant = { λ d. IsNamed (received d.ring) d.seen.book × (d.seen.log ≡ listed d.outcome) };
}

/// Sets the outcome, where none was set.
fn try_set<T: Copy>(
    head: &Word<Result<T, InitDropped>, u64, Law<T>>,
    seen: &Seen<Result<T, InitDropped>, u64, Law<T>>,
    outcome: Result<T, InitDropped>,
) -> Option<Outcome<T>>
    requires head { head.now ≡ head_of seen.now.book }
    requires empty { seen.now.log ≡ [] }
    ensures { IfSome result (λ o. (o.seen.book ≡ seen.now.book) × (o.outcome ≡ outcome)) }
{
    let mut longer = seen.again();
    let mut offer: Offer<Result<T, InitDropped>, u64, Law<T>, Nothing> = longer.plain::<
        Nothing,
        Result<T, InitDropped>,
        Sets,
    >(&outcome);
    let mut pen = longer.no_pen();
    let found = head.compare_exchange::<Sets, Nothing>(0, 1, &mut longer, &mut offer, &mut pen);
    if found == 0 {
        Some(Outcome {
            outcome,
            seen: longer,
        })
    } else {
        None
    }
}

impl<T: Copy> Initializer<T> {
    /// Sets the value, which the other side then sees for good. The note names it.
    pub fn init<R: Wait>(self, rt: &R, value: T) -> InitNote<T>
        ensures { result ≡ record { book = self.book; outcome = Ok value } }
    {
        self.set(rt, Ok(value))
    }

    /// Sets that no value follows: the other side then sees `InitDropped` for good. The note names that.
    pub fn abandon<R: Wait>(self, rt: &R) -> InitNote<T>
        ensures { result ≡ record { book = self.book; outcome = abandoned } }
    {
        self.set(rt, Err(InitDropped))
    }

    // Sets the outcome. There is one initializer, so the first try does it.
    fn set<R: Wait>(self, rt: &R, outcome: Result<T, InitDropped>) -> InitNote<T>
        ensures { result ≡ record { book = self.book; outcome = outcome } }
    {
        let Initializer {
            head,
            seen,
            mut ring,
        } = self;
        for _turn in rt.forever() {
            if let Some(set) = try_set(&head, &seen, outcome) {
                let inner = set.again();
                ring.push_reserved(Fate::Set(set));
                return InitNote { inner };
            }
        }
        unreachable!()
    }
}

impl<T: Copy> DelayedInit<T> {
    /// The two sides of a value of which nothing is known yet.
    ///
    /// # Errors
    ///
    /// `NoMemory` where memory could not be had.
    pub fn new(alloc: Global) -> Result<(Initializer<T>, DelayedInit<T>), NoMemory>
        ensures book { IfOk result (λ p. p.1.book ≡ p.0.book) }
        ensures unknown { IfOk result (λ p. p.1.outcome ≡ None) }
    {
        let (seen, mut first, _second) = Seen::open(Start::alone(), 0, 0);
        let head = Word::tracked(0, &mut first);
        let (mut giver, mut taker): (Giver<T>, Taker<T>) = RingBuffer::with_protocol(alloc, 2)?;
        giver.push_reserved(Fate::Name(seen.again()));
        taker.slots_beside(&mut giver);
        drop(taker.pop_known());
        let delayed = DelayedInit {
            ring: taker,
            seen: seen.again(),
            outcome: None,
        };
        let initializer = Initializer {
            head,
            seen,
            ring: giver,
        };
        Ok((initializer, delayed))
    }

    /// Takes in the outcome that a note of its initializer names. What was known before is the same.
    pub fn learn(&mut self, note: &InitNote<T>)
        requires own { note.now.book ≡ self.old.book }
        ensures known { self.new ≡ record { book = self.old.book; outcome = Some note.now.outcome } }
        ensures same { IfSome self.old.outcome (λ o. o ≡ note.now.outcome) }
    {
        self.take_in(&note.inner);
    }

    // The same by the outcome itself.
    fn take_in(&mut self, set: &Outcome<T>)
        requires own { set.now.seen.book ≡ self.old.book }
        ensures known { self.new ≡ record { book = self.old.book; outcome = Some set.now.outcome } }
        ensures same { IfSome self.old.outcome (λ o. o ≡ set.now.outcome) }
    {
        self.seen.learn(&set.seen);
        self.outcome = Some(set.outcome);
    }

    /// What is known is what a note of its initializer names. It does nothing at run time.
    pub fn agrees(&self, note: &InitNote<T>)
        requires own { note.now.book ≡ self.now.book }
        ensures { IfSome self.now.outcome (λ o. o ≡ note.now.outcome) }
    {
        let mut both = self.seen.again();
        both.learn(&note.inner.seen);
    }

    /// The outcome, once it is known, and then the same for good (`DelayedInit::get`, which waits for it).
    ///
    /// `NotReady` where no note was learnt, no look found an outcome before, and its look in this call finds none. `Err`
    /// is the outcome of an initializer that was abandoned.
    pub fn poll_get<R: Wait>(&mut self, _rt: &R) -> Polled<Result<T, InitDropped>>
        ensures answer { result ≡ answer_of self.new.outcome }
        ensures same { IsSome self.old.outcome → self.new ≡ self.old }
        ensures own { self.new.book ≡ self.old.book }
    {
        if self.outcome.is_none() {
            self.look();
        }
        match self.outcome {
            Some(outcome) => Polled::Ready(outcome),
            None => Polled::NotReady,
        }
    }

    // Looks into the ring.
    fn look(&mut self)
        ensures { self.new.book ≡ self.old.book }
    {
        if let Ok(Fate::Set(set)) = self.ring.pop() {
            self.take_in(&set);
        }
    }
}
