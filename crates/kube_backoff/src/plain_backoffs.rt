//! Plain backoffs.

ghost use Rattle.std.specs.Prelude.{◌≡◌, ◌+◌, Some, None};
ghost use Rattle.kube_backoff.specs.Backoffs.{saturated};

use crate::backoff::Backoff;
use kube_meta::Moment;

/// Always the same delay, in nanoseconds.
#[derive(Clone, Copy, Debug, PartialEq, Eq)]
pub struct ConstantBackoff {
    pub delay: u64,
}

impl Backoff for ConstantBackoff {
    ghost delay = { λ b now. Some b.delay };

    ghost delayed = { λ b now. b };

    ghost restarted = { λ b. b };

    fn next(&mut self, _now: Moment) -> Option<u64> {
        Some(self.delay)
    }

    fn reset(&mut self) {}
}

/// Delays that grow by a step, in nanoseconds: the step at first.
#[derive(Clone, Copy, Debug, PartialEq, Eq)]
pub struct LinearBackoff {
    pub step: u64,
    /// The next delay.
    pub next: u64,
}

impl LinearBackoff {
    /// Delays of one step, two steps and so on; the step in nanoseconds.
    pub fn new(step: u64) -> LinearBackoff
        ensures { result ≡ record { step = step; next = step } }
    {
        LinearBackoff { step, next: step }
    }
}

impl Backoff for LinearBackoff {
    ghost delay = { λ b now. Some b.next };

    ghost delayed = { λ b now. record b { next = saturated (b.next + b.step) } };

    ghost restarted = { λ b. record b { next = b.step } };

    fn next(&mut self, _now: Moment) -> Option<u64> {
        let delay = self.next;
        self.next = self.next.saturating_add(self.step);
        Some(delay)
    }

    fn reset(&mut self) {
        self.next = self.step;
    }
}

/// No delay at all: a stream with it is given up at its first error.
#[derive(Clone, Copy, Debug, PartialEq, Eq)]
pub struct StopBackoff;

impl Backoff for StopBackoff {
    ghost delay = { λ b now. None };

    ghost delayed = { λ b now. b };

    ghost restarted = { λ b. b };

    fn next(&mut self, _now: Moment) -> Option<u64> {
        None
    }

    fn reset(&mut self) {}
}
