//! Events whose objects are changed (kube-runtime's `utils::event_modify`).

ghost use Rattle.std.specs.Prelude.{◌≡◌, None};
ghost use Rattle.std.specs.Fn.{CalledAtMut};
ghost use Rattle.kube_streams.specs.Modifies.{AnswerChanged, IsChanged};

use kube_meta::{Moment, Next};
use kube_watch::stream::{ask, fault_of};
use kube_watch::{Error, Event, EventStream, StreamFault};
use std::alloc::Global;
use std::marker::Model;

/// A stream of events whose objects a closure changes before they are given (kube-runtime's `EventModify`).
#[derive(Drop)]
pub struct EventModify<S, F> {
    stream: S,
    f: F,
    fault: Option<StreamFault>,
}

impl<S, F> Model for EventModify<S, F> {
    ghost use Rattle.kube_streams.specs.Modifies.{Modifying};

    ghost Value = { Modifying S F };

    ghost view = { λ m. record { stream = m.stream; f = m.f; fault = m.fault } };
}

impl<S, F> EventModify<S, F> {
    pub(crate) fn new(stream: S, f: F) -> EventModify<S, F>
        ensures { result ≡ record { stream = stream; f = f; fault = None } }
    {
        EventModify {
            stream,
            f,
            fault: None,
        }
    }
}

/// What a call of `f` leaves of an object.
fn changed<T, F: FnMut(&mut T)>(f: &mut F, mut object: T) -> T
    requires may { F.IsAlwaysCallable f.old }
    ensures may { F.IsAlwaysCallable f.new }
    ensures changed { CalledAtMut F.FnMut f.old object tt f.new result }
{
    f(&mut object);
    object
}

/// The event with its object changed.
fn event_changed<T, F: FnMut(&mut T)>(f: &mut F, event: Event<T>) -> Event<T>
    requires may { F.IsAlwaysCallable f.old }
    ensures may { F.IsAlwaysCallable f.new }
    ensures changed { IsChanged F.FnMut f.old event result f.new }
{
    match event {
        Event::Apply(object) => Event::Apply(changed(f, object)),
        Event::Delete(object) => Event::Delete(changed(f, object)),
        Event::InitApply(object) => Event::InitApply(changed(f, object)),
        Event::Init => Event::Init,
        Event::InitDone => Event::InitDone,
    }
}

/// The answer with its object changed.
fn answer_changed<T, F: FnMut(&mut T)>(
    f: &mut F,
    answer: Result<Next<Result<Event<T>, Error>>, StreamFault>,
) -> Result<Next<Result<Event<T>, Error>>, StreamFault>
    requires may { F.IsAlwaysCallable f.old }
    ensures may { F.IsAlwaysCallable f.new }
    ensures changed { AnswerChanged F.FnMut f.old answer result f.new }
{
    match answer {
        Ok(Next::Item(Ok(event))) => Ok(Next::Item(Ok(event_changed(f, event)))),
        answer => answer,
    }
}

impl<T: Drop, S: EventStream<Item = Event<T>>, F: FnMut(&mut T) + Drop> EventStream
    for EventModify<S, F> {
    ghost use Rattle.std.specs.Prelude.{None};
    ghost use Rattle.kube_watch.specs.Asking.{Said};
    ghost use Rattle.kube_streams.specs.Modifies.{Modified};

    type Item = Event<T>;

    ghost told = { λ _. None };

    ghost fault = { λ m. m.fault };

    ghost can_poll = { λ m. S.can_poll m.stream × F.IsAlwaysCallable m.f };

    ghost polls = { λ m now fuel answer n. Modified F.FnMut (Said S.polls S.told) m.fault now fuel m answer n };

    fn poll_next(
        &mut self,
        alloc: Global,
        now: Moment,
        fuel: u32,
    ) -> Result<Next<Result<Event<T>, Error>>, StreamFault> {
        if let Some(fault) = self.fault {
            return Err(fault);
        }
        let last = ask(&mut self.stream, alloc, now, fuel);
        let answer = answer_changed(&mut self.f, last);
        self.fault = fault_of(&answer);
        answer
    }
}
