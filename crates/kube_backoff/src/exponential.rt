//! Delays that grow by a factor.

ghost use Rattle.std.specs.Prelude.{◌≡◌, ◌≤◌, ◌*◌, ◌/◌, Some, None, min};
ghost use Rattle.kube_backoff.specs.Backoffs.{next_delay};

use crate::backoff::Backoff;
use kube_meta::Moment;
use std::marker::Model;

/// Delays that grow by a whole ratio up to a greatest one (kube-runtime's `ExponentialBackoff`, without jitter).
#[derive(Debug, Drop)]
pub struct ExponentialBackoff {
    min: u64,
    num: u64,
    den: u64,
    cap: u64,
    last: Option<u64>,
}

impl Model for ExponentialBackoff {
    ghost use Rattle.std.specs.Prelude.{◌≤◌};
    ghost use Rattle.kube_backoff.specs.Backoffs.{Exponential};

    ghost Value = { Exponential };

    ghost view = { λ b. record { min = b.min; num = b.num; den = b.den; cap = b.cap; last = b.last } };

    ghost invariant = { λ b. 1 ≤ b.den };
}

impl ExponentialBackoff {
    /// The first delay is `min`, each next one the last times `num` divided by `den`, rounded down; none is greater than
    /// `cap`. In nanoseconds.
    pub fn new(min: u64, num: u64, den: u64, cap: u64) -> ExponentialBackoff
        requires { 1 ≤ den }
        ensures { result ≡ record { min = min; num = num; den = den; cap = cap; last = None } }
    {
        ExponentialBackoff {
            min,
            num,
            den,
            cap,
            last: None,
        }
    }
}

/// The lesser of a cap and a delay that grew.
fn grown(last: u64, num: u64, den: u64, cap: u64) -> u64
    requires { 1 ≤ den }
    ensures { result ≡ min cap ((last * num) / den) }
{
    let grown = u128::from(last) * u128::from(num) / u128::from(den);
    if grown < u128::from(cap) {
        grown as u64
    } else {
        cap
    }
}

impl Backoff for ExponentialBackoff {
    ghost delay = { λ b now. Some (next_delay b) };

    ghost delayed = { λ b now. record b { last = Some (next_delay b) } };

    ghost restarted = { λ b. record b { last = None } };

    fn next(&mut self, _now: Moment) -> Option<u64> {
        let delay = match self.last {
            None => self.min.min(self.cap),
            Some(last) => grown(last, self.num, self.den, self.cap),
        };
        self.last = Some(delay);
        Some(delay)
    }

    fn reset(&mut self) {
        self.last = None;
    }
}
