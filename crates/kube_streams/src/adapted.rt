//! Streams made of other ones.

ghost use Rattle.std.specs.Prelude.{◌≡◌, ◌≤◌, [], ◌∷◌, ◌++◌, None, Ok, OnOk, OnErr};
ghost use Rattle.kube_watch.specs.Asking.{Said};
ghost use Rattle.kube_streams.specs.Adapts.{Asked, Comes, IsTaken};

use kube_meta::{Moment, Next, NoMemory};
use kube_watch::stream::fault_of;
use kube_watch::{Error, Event, EventStream, StreamFault};
use std::alloc::Global;
use std::collections::VecDeque;
use std::marker::Model;

/// What is made of what a stream gives, one thing after another.
pub trait Adapt<I: Drop, J: Drop>: Drop {
    ghost use Rattle.std.specs.Prelude.{◌≡◌, ℕ, List, [], OnErr, ⊤};
    ghost use Rattle.kube_streams.specs.Adapts.{IsTaken, Told};

    /// What is made of one thing at a moment in nanoseconds: by the state before it, what is given, and the state after it.
    ghost takes: { ℕ → Self → Told I → List (Told J) → Self → Type 0 };

    /// Whether a thing must have a name and has none.
    ghost unnamed: { Self → Told I → Type 0 } = { λ _ _. ⊥ };

    /// Whether it may be asked: one that calls a closure says so that the closure may be called.
    ghost may: { Self → Type 0 } = { λ _. ⊤ };

    /// Makes of one thing what is to be given, and puts that where nothing waits.
    ///
    /// # Errors
    ///
    /// `NoMemory`; `Unnamed` where the thing must have a name and has none. After either it is as before, nothing waits, and
    /// the thing is dropped.
    fn take(
        &mut self,
        alloc: Global,
        now: Moment,
        told: Result<I, Error>,
        waiting: &mut VecDeque<Result<J, Error>>,
    ) -> Result<(), StreamFault>
        requires may { may self.old }
        requires none { waiting.old.items ≡ [] }
        ensures may { may self.new }
        ensures taken { IsTaken (takes now.0 self.old told waiting.new.items self.new) (unnamed self.old told) result }
        ensures err { OnErr result ((self.new ≡ self.old) × (waiting.new.items ≡ [])) };
}

/// What has an object, or none.
pub trait OfObject {
    type Object: Drop;
}

impl<T: Drop> OfObject for Event<T> {
    type Object = T;
}

/// The objects of a stream's events.
pub type ObjectOf<S> = <<S as EventStream>::Item as OfObject>::Object;

/// Puts one thing at the end of what waits.
///
/// # Errors
///
/// `NoMemory` where there is none for it: what waits is as before, and the thing is dropped.
pub fn wait<J: Drop>(
    waiting: &mut VecDeque<Result<J, Error>>,
    given: Result<J, Error>,
) -> Result<(), NoMemory>
    ensures added { OnOk result (waiting.new.items ≡ waiting.old.items ++ given ∷ []) }
    ensures err { OnErr result (waiting.new.items ≡ waiting.old.items) }
{
    waiting.push_back(given)?;
    Ok(())
}

/// A stream of what is made of what another one gives: J of the items of S, by T.
#[derive(Drop)]
pub struct Adapted<S, T, J> {
    stream: S,
    adapt: T,
    waiting: VecDeque<Result<J, Error>>,
    fault: Option<StreamFault>,
}

impl<S, T, J> Model for Adapted<S, T, J> {
    ghost use Rattle.kube_streams.specs.Adapts.{Adapting};

    ghost Value = { Adapting S T J };

    ghost view = { λ a. record { stream = a.stream; adapt = a.adapt; waiting = a.waiting.items; fault = a.fault } };
}

impl<S, T, J> Adapted<S, T, J> {
    /// What `adapt` makes of what `stream` gives. Nothing waits yet.
    pub fn new(alloc: Global, stream: S, adapt: T) -> Adapted<S, T, J>
        ensures { result ≡ record { stream = stream; adapt = adapt; waiting = []; fault = None } }
    {
        Adapted {
            stream,
            adapt,
            waiting: VecDeque::new(alloc),
            fault: None,
        }
    }
}

impl<S: EventStream, J: Drop, T: Adapt<S::Item, J>> Adapted<S, T, J> {
    // What one thing gives: the first of it, and the rest waits.
    fn take(
        &mut self,
        alloc: Global,
        now: Moment,
        told: Result<S::Item, Error>,
    ) -> Option<Result<Next<Result<J, Error>>, StreamFault>>
        requires may { T.may self.old.adapt }
        requires none { self.old.waiting ≡ [] }
        ensures may { T.may self.new.adapt }
        ensures stream { self.new.stream ≡ self.old.stream }
        ensures fault { self.new.fault ≡ self.old.fault }
        ensures taken { Comes (Said S.polls S.told) T.takes T.unnamed now.0 self.old.adapt (Ok (Next.Item told)) result self.new.waiting self.new.adapt }
    {
        if let Err(fault) = self.adapt.take(alloc, now, told, &mut self.waiting) {
            return Some(Err(fault));
        }
        match self.waiting.pop_front() {
            Some(first) => Some(Ok(Next::Item(first))),
            None => None,
        }
    }

    // What an answer of the stream comes to; none where it gives nothing.
    fn pass(
        &mut self,
        alloc: Global,
        now: Moment,
        answer: Result<Next<Result<S::Item, Error>>, StreamFault>,
    ) -> Option<Result<Next<Result<J, Error>>, StreamFault>>
        requires may { T.may self.old.adapt }
        requires none { self.old.waiting ≡ [] }
        ensures may { T.may self.new.adapt }
        ensures stream { self.new.stream ≡ self.old.stream }
        ensures fault { self.new.fault ≡ self.old.fault }
        ensures passed { Comes (Said S.polls S.told) T.takes T.unnamed now.0 self.old.adapt answer result self.new.waiting self.new.adapt }
    {
        match answer {
            Ok(Next::Item(told)) => self.take(alloc, now, told),
            Ok(Next::NotReady) => Some(Ok(Next::NotReady)),
            Ok(Next::End) => Some(Ok(Next::End)),
            Ok(Next::Spent) => None,
            Err(fault) => Some(Err(fault)),
        }
    }

    // Asks the stream until something comes of it, at most so often.
    fn ask(
        &mut self,
        alloc: Global,
        now: Moment,
        fuel: u32,
    ) -> Result<Next<Result<J, Error>>, StreamFault>
        requires can { S.can_poll self.old.stream }
        requires may { T.may self.old.adapt }
        requires none { self.old.waiting ≡ [] }
        ensures can { S.can_poll self.new.stream }
        ensures may { T.may self.new.adapt }
        ensures fault { self.new.fault ≡ self.old.fault }
        ensures asked { Asked (Said S.polls S.told) T.takes T.unnamed now.0 fuel self.old.stream self.old.adapt result self.new.waiting self.new.stream self.new.adapt }
    {
        for _asked in 0..fuel {
            let answer = self.stream.poll_next(alloc, now, 1);
            if let Some(answer) = self.pass(alloc, now, answer) {
                return answer;
            }
        }
        Ok(Next::Spent)
    }
}

impl<S: EventStream, J: Drop, T: Adapt<S::Item, J>> EventStream for Adapted<S, T, J> {
    ghost use Rattle.std.specs.Prelude.{None};
    ghost use Rattle.kube_watch.specs.Asking.{Said};
    ghost use Rattle.kube_streams.specs.Adapts.{Adapted as IsAdapted};

    type Item = J;

    ghost told = { λ _. None };

    ghost fault = { λ a. a.fault };

    ghost can_poll = { λ a. S.can_poll a.stream × T.may a.adapt };

    ghost polls = { λ a now fuel answer b. IsAdapted (Said S.polls S.told) T.takes T.unnamed a.fault a now fuel answer b };

    fn poll_next(
        &mut self,
        alloc: Global,
        now: Moment,
        fuel: u32,
    ) -> Result<Next<Result<J, Error>>, StreamFault> {
        if let Some(fault) = self.fault {
            return Err(fault);
        }
        if let Some(first) = self.waiting.pop_front() {
            return Ok(Next::Item(first));
        }
        let answer = self.ask(alloc, now, fuel);
        self.fault = fault_of(&answer);
        answer
    }
}
