//! A watcher as a stream of what happens.

ghost use Rattle.std.specs.Prelude.{◌≡◌, IfOk, OnErr, not};
ghost use Rattle.kube_model.specs.Owed.{is_not_ready};

use crate::event::Event;
use crate::stream::{EventStream, StreamFault};
use crate::unit::Unit;
use crate::watching::Watcher;
use kube_api::ApiMode;
use kube_meta::{Moment, Next, NoMemory};
use kube_model::call::Answer;
use kube_model::error::Error;
use std::alloc::Global;
use std::collections::VecDeque;
use std::sync::Arc;

/// Whether a call was answered.
fn is_ready(answer: &Answer) -> bool
    ensures { result ≡ not (is_not_ready answer.now) }
{
    match answer {
        Answer::NotReady => false,
        _ => true,
    }
}

impl<A: ApiMode> Watcher<A> {
    ghost use Rattle.std.specs.Prelude.{List, [], true, false, IsErr, OnOk};
    ghost use Rattle.kube_watch.specs.Watching.{TakesFirst, next_told};
    ghost use Rattle.kube_model.specs.World.{Watched};
    ghost use Rattle.kube_model.specs.History.{Dated};
    ghost use Rattle.kube_model.specs.Owed.{owed};
    ghost use Rattle.kube_watch.specs.Stands.{StandsFor, api_of, exchanges_in, is_spent, settings_in};
    ghost use Rattle.kube_watch.specs.Polls.{Filled, Lost, Polled, api_in};
    ghost use Rattle.kube_watch.specs.Calls.{IsAskedOnce};

    // Takes the first of what waits.
    pub(crate) fn take_told(&mut self) -> Option<Result<Event<Arc<A::Value>>, Error>>
        ensures { TakesFirst self.old result self.new }
    {
        if let Some(event) = self.events.pop_front() {
            return Some(Ok(event));
        }
        match self.error.take() {
            Some(error) => Some(Err(error)),
            None => None,
        }
    }

    // Whether a call of it could have no memory.
    pub(crate) fn is_spent(&self) -> bool
        ensures { result ≡ is_spent self.now }
    {
        self.spent
    }

    // Makes the owed call, and keeps what it tells in place of what waits. Whether it was ready.
    pub(crate) fn fill(&mut self, alloc: Global, now: Moment) -> Result<bool, NoMemory>
        ensures unspent { OnOk result (is_spent self.new ≡ false) }
        ensures filled { IfOk result (λ ready. Filled (api_in A.ApiMode A.Value.meta_of) now.0 self.old ready self.new) }
        ensures err { OnErr result (is_spent self.new ≡ true) }
        ensures lost { OnErr result ((ds : List (Dated A.Value)) → StandsFor ds self.old
            → IsAskedOnce (settings_in self.old) (owed (Watched (settings_in self.old)) (exchanges_in ds)) (A.talk (api_of self.old)) (A.talk (api_of self.new))) }
    {
        let unit = self.poll_unit(alloc, now)?;
        let Unit {
            answer,
            events,
            error,
            ..
        } = unit;
        self.events = VecDeque::from_vec(Vec::from(events));
        self.error = error;
        Ok(is_ready(&answer))
    }

    // Makes calls until one tells something or is not ready, at most so many.
    fn ask(
        &mut self,
        alloc: Global,
        now: Moment,
        fuel: u32,
    ) -> Result<Next<Result<Event<Arc<A::Value>>, Error>>, NoMemory>
        ensures unspent { is_spent self.old ≡ false → OnOk result (is_spent self.new ≡ false) }
        ensures asked { self.old.waiting ≡ [] → IfOk result (λ a. Polled (api_in A.ApiMode A.Value.meta_of) now.0 fuel self.old (next_told a) self.new) }
        ensures err { OnErr result (is_spent self.new ≡ true) }
        ensures lost { self.old.waiting ≡ [] → OnErr result (Lost (api_in A.ApiMode A.Value.meta_of) now.0 fuel self.old self.new) }
    {
        for _asked in 0..fuel {
            let ready = self.fill(alloc, now)?;
            if let Some(told) = self.take_told() {
                return Ok(Next::Item(told));
            }
            if !ready {
                return Ok(Next::NotReady);
            }
        }
        Ok(Next::Spent)
    }

    /// The next event or error: one that waits, or the first of the first call that tells something.
    ///
    /// `NotReady` where a call was not ready, and its window is not over; `Spent` after `fuel` calls that told nothing.
    /// A watcher never ends. After an error it asks again at the next poll: apply a backoff to it.
    ///
    /// Errors: `NoMemory`, and only that from then on.
    pub fn poll_next(
        &mut self,
        alloc: Global,
        now: Moment,
        fuel: u32,
    ) -> Result<Next<Result<Event<Arc<A::Value>>, Error>>, NoMemory>
        ensures polled { IfOk result (λ a. Polled (api_in A.ApiMode A.Value.meta_of) now.0 fuel self.old (next_told a) self.new) }
        ensures err { OnErr result (is_spent self.new ≡ true) }
        ensures lost { OnErr result (Lost (api_in A.ApiMode A.Value.meta_of) now.0 fuel self.old self.new) }
        ensures spent { is_spent self.old ≡ true → IsErr result × (self.new ≡ self.old) }
        ensures unspent { OnOk result ((is_spent self.old ≡ false) × (is_spent self.new ≡ false)) }
    {
        if self.spent {
            return Err(NoMemory);
        }
        match self.take_told() {
            Some(told) => Ok(Next::Item(told)),
            None => self.ask(alloc, now, fuel),
        }
    }
}

/// The events and errors of the watcher, one by one.
impl<A: ApiMode> EventStream for Watcher<A> {
    ghost use Rattle.std.specs.Prelude.{None};
    ghost use Rattle.kube_watch.specs.Polls.{IsPolled, api_in, fault_of};

    type Item = Event<Arc<A::Value>>;

    ghost told = { λ _. None };

    ghost fault = { fault_of };

    ghost polls = { λ old now fuel answer new. IsPolled (api_in A.ApiMode A.Value.meta_of) now fuel old answer new };

    fn poll_next(
        &mut self,
        alloc: Global,
        now: Moment,
        fuel: u32,
    ) -> Result<Next<Result<Event<Arc<A::Value>>, Error>>, StreamFault> {
        match Watcher::poll_next(self, alloc, now, fuel) {
            Ok(answer) => Ok(answer),
            Err(NoMemory) => Err(StreamFault::NoMemory),
        }
    }
}
