//! Streams of what happens.

ghost use Rattle.std.specs.Prelude.{◌≡◌, ◌≤◌};
ghost use Rattle.kube_watch.specs.Asking.{Asked, Said, fault_in, gives_something};

use kube_meta::{Moment, Next, NoMemory};
use kube_model::error::Error;
use std::alloc::Global;

/// Why a stream gives nothing any more.
#[derive(Clone, Copy, Debug, PartialEq, Eq)]
pub enum StreamFault {
    /// Memory could not be had.
    NoMemory,
    /// An object that must become a reference has no name.
    Unnamed,
}

impl From<NoMemory> for StreamFault {
    ghost use Rattle.std.specs.Prelude.{◌≡◌};
    ghost use Rattle.kube_watch.specs.declared.stream.StreamFault.{StreamFault};

    ghost from_gives = { λ e f. f ≡ StreamFault.NoMemory };

    fn from(_error: NoMemory) -> StreamFault {
        StreamFault::NoMemory
    }
}

/// A stream of items and errors that is polled at moments (the streams that kube-runtime's `WatchStreamExt` extends).
///
/// A stream that answered a fault answers only that from then on.
pub trait EventStream: Drop {
    ghost use Rattle.std.specs.Prelude.{ℕ, List, Option, Some, None, Err, ⊤, ◌≡◌, ◌≤◌};
    ghost use Rattle.kube_watch.specs.Streams.{Answer, told_after};
    ghost use Rattle.kube_watch.specs.Asking.{fault_in};
    ghost use Rattle.kube_watch.specs.declared.stream.StreamFault.{StreamFault as fault_data};

    /// What it gives.
    type Item: Drop;

    /// What it answered so far, where it tells that. Want of memory is no such answer.
    ghost told: { Self → Option (List (Answer Self.Item)) };

    /// Whether it may be polled: so a stream that calls a closure says that the closure may be called.
    ghost can_poll: { Self → Type 0 } = { λ _. ⊤ };

    /// The fault that it answered last, which is all that it answers from then on; none where there was no fault.
    ghost fault: { Self → Option fault_data };

    /// What a poll makes of the stream, where it says so: the stream before it, the moment in nanoseconds, the fuel, the
    /// answer, the stream after it. Where it doesn't say so that may be anything.
    ghost polls: { Self → ℕ → ℕ → Answer Self.Item → Self → Type 0 } = { λ _ _ _ _ _. ⊤ };

    /// The next item or error; `Spent` where so many answers of what it stands on gave nothing.
    ///
    /// Errors: `NoMemory`; `Unnamed` where an object that must become a reference has no name. After one only that.
    fn poll_next(
        &mut self,
        alloc: Global,
        now: Moment,
        fuel: u32,
    ) -> Result<Next<Result<Self::Item, Error>>, StreamFault>
        requires may { can_poll self.old }
        requires fuel { 1 ≤ fuel }
        ensures may { can_poll self.new }
        ensures told { told self.new ≡ told_after (told self.old) result }
        ensures fault { fault self.new ≡ fault_in result }
        ensures after { (f : fault_data) → fault self.old ≡ Some f → result ≡ Err f }
        ensures polls { polls self.old now.0 fuel result self.new };
}

/// Whether an answer gives something.
fn gives_something<I>(answer: &Result<Next<Result<I, Error>>, StreamFault>) -> bool
    ensures { result ≡ gives_something answer.now }
{
    match answer {
        Ok(Next::Spent) => false,
        _ => true,
    }
}

/// An answer of a stream that gave something, or the last of so many.
///
/// Errors: those of the stream.
pub fn ask<S: EventStream>(
    stream: &mut S,
    alloc: Global,
    now: Moment,
    fuel: u32,
) -> Result<Next<Result<S::Item, Error>>, StreamFault>
    requires may { S.can_poll stream.old }
    requires fuel { 1 ≤ fuel }
    ensures may { S.can_poll stream.new }
    ensures asked { Asked (Said S.polls S.told) now.0 fuel stream.old result stream.new }
{
    for _idle in 0..fuel - 1 {
        let answer = stream.poll_next(alloc, now, 1);
        if gives_something(&answer) {
            return answer;
        }
    }
    stream.poll_next(alloc, now, 1)
}

/// The fault of an answer of a stream, if it is one.
pub fn fault_of<I>(answer: &Result<Next<Result<I, Error>>, StreamFault>) -> Option<StreamFault>
    ensures { result ≡ fault_in answer.now }
{
    match answer {
        Ok(_) => None,
        Err(fault) => Some(*fault),
    }
}
