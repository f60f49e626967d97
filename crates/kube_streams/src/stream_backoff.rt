//! A stream that pauses after an error (kube-runtime's `utils::stream_backoff`).

ghost use Rattle.std.specs.Prelude.{◌≡◌, ◌≤◌, ◌≤◌, None};
ghost use Rattle.kube_streams.specs.Pauses.{Passed, backoff_after, state_after};
ghost use Rattle.kube_watch.specs.Asking.{Said, fault_in};

use kube_backoff::Backoff;
use kube_meta::{Moment, Next};
use kube_watch::stream::{ask, fault_of};
use kube_watch::{Error, EventStream, StreamFault};
use std::alloc::Global;
use std::marker::Model;

/// Whether a stream is asked.
#[derive(Clone, Copy, Debug)]
pub enum State {
    Awake,
    /// Not before this moment.
    BackingOff(Moment),
    /// Never again.
    GivenUp,
}

/// A stream that gives its errors, and after each of them pauses for as long as a backoff says (kube-runtime's
/// `StreamBackoff`).
///
/// An item and the stream's end reset the backoff. Where the backoff gives no delay the stream has ended.
#[derive(Drop)]
pub struct StreamBackoff<S, B> {
    stream: S,
    backoff: B,
    state: State,
    fault: Option<StreamFault>,
}

impl<S, B> Model for StreamBackoff<S, B> {
    ghost use Rattle.kube_streams.specs.Pauses.{Pausing};

    ghost Value = { Pausing S B };

    ghost view = { λ p. record { stream = p.stream; backoff = p.backoff; state = p.state; fault = p.fault } };
}

impl<S: EventStream, B: Backoff> StreamBackoff<S, B> {
    /// A stream that waits after each error for as long as the backoff says (`kube_runtime::utils::StreamBackoff`).
    pub fn new(stream: S, backoff: B) -> StreamBackoff<S, B>
        ensures { result ≡ record { stream = stream; backoff = backoff; state = State.Awake; fault = None } }
    {
        StreamBackoff {
            stream,
            backoff,
            state: State::Awake,
            fault: None,
        }
    }

    // Keeps what an answer leaves.
    fn keep(&mut self, now: Moment, answer: &Result<Next<Result<S::Item, Error>>, StreamFault>)
        ensures stream { self.new.stream ≡ self.old.stream }
        ensures backoff { self.new.backoff ≡ backoff_after B.delayed B.restarted now.0 self.old.backoff answer.now }
        ensures state { self.new.state ≡ state_after B.delay now.0 self.old.backoff answer.now }
        ensures fault { self.new.fault ≡ fault_in answer.now }
    {
        self.state = State::Awake;
        self.fault = fault_of(answer);
        match answer {
            Ok(Next::Item(Err(_))) => {
                self.state = match self.backoff.next(now) {
                    Some(delay) => State::BackingOff(now.plus(delay)),
                    None => State::GivenUp,
                };
            }
            Ok(Next::Item(Ok(_))) | Ok(Next::End) => self.backoff.reset(),
            Ok(Next::NotReady) | Ok(Next::Spent) | Err(_) => {}
        }
    }

    // Asks the stream.
    fn pass(
        &mut self,
        alloc: Global,
        now: Moment,
        fuel: u32,
    ) -> Result<Next<Result<S::Item, Error>>, StreamFault>
        requires can { S.can_poll self.old.stream }
        requires fuel { 1 ≤ fuel }
        ensures can { S.can_poll self.new.stream }
        ensures passed { Passed B.delay B.delayed B.restarted (Said S.polls S.told) now.0 fuel self.old result self.new }
    {
        let answer = ask(&mut self.stream, alloc, now, fuel);
        self.keep(now, &answer);
        answer
    }
}

impl<S: EventStream, B: Backoff> EventStream for StreamBackoff<S, B> {
    ghost use Rattle.std.specs.Prelude.{None};
    ghost use Rattle.kube_watch.specs.Asking.{Said};
    ghost use Rattle.kube_streams.specs.Pauses.{Paused};

    type Item = S::Item;

    ghost told = { λ _. None };

    ghost fault = { λ p. p.fault };

    ghost can_poll = { λ p. S.can_poll p.stream };

    ghost polls = { λ p now fuel answer q. Paused B.delay B.delayed B.restarted (Said S.polls S.told) p.fault now fuel p answer q };

    fn poll_next(
        &mut self,
        alloc: Global,
        now: Moment,
        fuel: u32,
    ) -> Result<Next<Result<S::Item, Error>>, StreamFault> {
        if let Some(fault) = self.fault {
            return Err(fault);
        }
        match self.state {
            State::Awake => self.pass(alloc, now, fuel),
            State::BackingOff(until) => {
                if now < until {
                    return Ok(Next::NotReady);
                }
                self.pass(alloc, now, fuel)
            }
            State::GivenUp => Ok(Next::End),
        }
    }
}
