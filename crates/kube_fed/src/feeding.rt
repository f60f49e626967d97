//! Streams that feed sources.

ghost use Rattle.std.specs.Prelude.{◌≡◌};
ghost use Rattle.kube_fed.specs.Feedings.{standing_after};

use kube_meta::{Moment, Next};
use kube_watch::{Error, EventStream, StreamFault};
use std::alloc::Global;

/// Whether a stream is asked.
#[derive(Clone, Copy, Debug, PartialEq, Eq)]
pub enum Standing {
    /// It is asked.
    Open,
    /// It has ended: it isn't asked again, and counts as one that is not ready.
    Ended,
    /// A fault came of it: it isn't asked again, and the fault is all that is answered.
    Failed(StreamFault),
}

/// A stream that is asked until it has ended or a fault came of it (futures' `StreamExt::fuse`).
#[derive(Drop)]
pub struct Feeding<St> {
    pub stream: St,
    pub standing: Standing,
}

/// How a stream stands after an answer.
fn standing_after<I>(answer: &Result<Next<Result<I, Error>>, StreamFault>) -> Standing
    ensures { result ≡ standing_after answer.now }
{
    match answer {
        Ok(Next::End) => Standing::Ended,
        Ok(_) => Standing::Open,
        Err(fault) => Standing::Failed(*fault),
    }
}

impl<St> Feeding<St> {
    ghost use Rattle.kube_fed.specs.declared.feeding.Standing.TheVariants.{Open, Failed};

    /// A stream that has not been asked.
    pub fn new(stream: St) -> Feeding<St>
        ensures { result ≡ record { stream = stream; standing = Open } }
    {
        Feeding {
            stream,
            standing: Standing::Open,
        }
    }

    /// A fault came of what the stream gave.
    pub(crate) fn fail(&mut self, fault: StreamFault)
        ensures { self.new ≡ record self.old { standing = Failed fault } }
    {
        self.standing = Standing::Failed(fault);
    }
}

impl<St: EventStream> Feeding<St> {
    ghost use Rattle.std.specs.Prelude.{IfErr, Some, Err};
    ghost use Rattle.kube_watch.specs.declared.stream.StreamFault.{StreamFault as fault_data};
    ghost use Rattle.kube_watch.specs.Asking.{Said, fault_in};
    ghost use Rattle.kube_fed.specs.declared.feeding.Standing.TheVariants.{Failed};
    ghost use Rattle.kube_fed.specs.Feedings.{IsAsked, failed_in};

    /// What the stream answers a poll with fuel 1; `NotReady` without a poll where it has ended.
    ///
    /// Errors: those of the stream, and without a poll the one that came of it earlier.
    pub(crate) fn ask(
        &mut self,
        alloc: Global,
        now: Moment,
    ) -> Result<Next<Result<St::Item, Error>>, StreamFault>
        requires may { St.can_poll self.old.stream }
        ensures may { St.can_poll self.new.stream }
        ensures asked { IsAsked (Said St.polls St.told) now.0 self.old result self.new }
        ensures fault { IfErr result (λ f. self.new.standing ≡ Failed f) }
        ensures standing { failed_in self.new.standing ≡ fault_in result }
        ensures after { (f : fault_data) → failed_in self.old.standing ≡ Some f → (result ≡ Err f) × (self.new ≡ self.old) }
    {
        match self.standing {
            Standing::Open => {
                let answer = self.stream.poll_next(alloc, now, 1);
                self.standing = standing_after(&answer);
                answer
            }
            Standing::Ended => Ok(Next::NotReady),
            Standing::Failed(fault) => Err(fault),
        }
    }
}
