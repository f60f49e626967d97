//! The backoff of a script's controller.

ghost use Rattle.std.specs.Prelude.{◌≡◌};
ghost use Rattle.kube_script.specs.Pauses.{backoff_of, delay_at, delayed_at, begun_anew};
ghost use Rattle.kube_script.specs.Seen.{seen_backoff};

use crate::settings::BackoffRow;
use kube_backoff::{Backoff, DefaultBackoff, ExponentialBackoff, StopBackoff};
use kube_meta::Moment;

/// How the controller of a script pauses after errors.
#[derive(Debug, Drop)]
pub enum ScriptBackoff {
    /// As kube-runtime's `DefaultBackoff` does.
    ByDefault(DefaultBackoff),
    /// Not at all: the first error ends the asking.
    Stopping(StopBackoff),
    /// By delays that grow by a whole ratio.
    Exponential(ExponentialBackoff),
}

impl Backoff for ScriptBackoff {
    ghost delay = { delay_at };

    ghost delayed = { delayed_at };

    ghost restarted = { begun_anew };

    fn next(&mut self, now: Moment) -> Option<u64> {
        match self {
            ScriptBackoff::ByDefault(backoff) => backoff.next(now),
            ScriptBackoff::Stopping(backoff) => backoff.next(now),
            ScriptBackoff::Exponential(backoff) => backoff.next(now),
        }
    }

    fn reset(&mut self) {
        match self {
            ScriptBackoff::ByDefault(backoff) => backoff.reset(),
            ScriptBackoff::Stopping(backoff) => backoff.reset(),
            ScriptBackoff::Exponential(backoff) => backoff.reset(),
        }
    }
}

impl BackoffRow {
    /// The backoff that a script names, before its first delay.
    pub fn into_backoff(self) -> ScriptBackoff
        ensures { result ≡ backoff_of (seen_backoff self) }
    {
        match self {
            BackoffRow::ByDefault => ScriptBackoff::ByDefault(DefaultBackoff::default()),
            BackoffRow::Stopping => ScriptBackoff::Stopping(StopBackoff),
            BackoffRow::Exponential { min, num, den, cap } => {
                ScriptBackoff::Exponential(ExponentialBackoff::new(min, num, den.get(), cap))
            }
        }
    }
}
