//! A backoff that begins anew where nothing failed for a while.

ghost use Rattle.std.specs.Prelude.{◌≡◌, ℕ, Some, None};
ghost use Rattle.kube_backoff.specs.Backoffs.{asked_at, default_backoff, is_long_ago, next_delay, restarted_exponential};

use crate::backoff::Backoff;
use crate::exponential::ExponentialBackoff;
use kube_meta::Moment;
use std::marker::Model;

/// A backoff that is reset where its last delay was asked for longer ago than a duration (kube-runtime's
/// `ResetTimerBackoff`).
#[derive(Debug, Drop)]
pub struct ResetTimerBackoff<B> {
    backoff: B,
    // In nanoseconds, as moments count.
    last_backoff: Option<u64>,
    reset_duration: u64,
}

impl<B> Model for ResetTimerBackoff<B> {
    ghost use Rattle.kube_backoff.specs.Backoffs.{ResetTimer};

    ghost Value = { ResetTimer B };

    ghost view = { λ b. record { inner = b.backoff; last = b.last_backoff; reset = b.reset_duration } };
}

impl<B: Backoff> ResetTimerBackoff<B> {
    /// Resets `backoff` before it is asked, where strictly more than `reset` nanoseconds passed since it was asked last.
    pub fn new(backoff: B, reset: u64) -> ResetTimerBackoff<B>
        ensures { result ≡ record { inner = backoff; last = None; reset = reset } }
    {
        ResetTimerBackoff {
            backoff,
            last_backoff: None,
            reset_duration: reset,
        }
    }
}

/// Whether more than a duration passed since a moment; no sum passes the greatest moment.
fn is_long_ago(last: Option<u64>, reset: u64, now: Moment) -> bool
    ensures { result ≡ is_long_ago last reset now.0 }
{
    match last {
        Some(last) => now.0.saturating_sub(last) > reset,
        None => false,
    }
}

impl<B: Backoff> Backoff for ResetTimerBackoff<B> {
    ghost delay = { λ b now. B.delay (asked_at B.restarted b now) now };

    ghost delayed = { λ b now. record b { inner = B.delayed (asked_at B.restarted b now) now; last = Some now } };

    ghost restarted = { λ b. record b { inner = B.restarted b.inner } };

    fn next(&mut self, now: Moment) -> Option<u64> {
        if is_long_ago(self.last_backoff, self.reset_duration, now) {
            self.backoff.reset();
        }
        self.last_backoff = Some(now.0);
        self.backoff.next(now)
    }

    fn reset(&mut self) {
        self.backoff.reset();
    }
}

/// The backoff of a watcher that is told none: from 800 ms by a factor of 2 to 30 s, and anew after 120 s (kube-runtime's
/// `DefaultBackoff`).
#[derive(Debug, Drop)]
pub struct DefaultBackoff {
    strategy: ResetTimerBackoff<ExponentialBackoff>,
}

impl Model for DefaultBackoff {
    ghost use Rattle.kube_backoff.specs.Backoffs.{ResetTimer, Exponential};

    ghost Value = { ResetTimer Exponential };

    ghost view = { λ b. b.strategy };
}

impl Default for DefaultBackoff {
    fn default() -> DefaultBackoff
        ensures { result ≡ default_backoff }
    {
        let exponential = ExponentialBackoff::new(800_000_000, 2, 1, 30_000_000_000);
        DefaultBackoff {
            strategy: ResetTimerBackoff::new(exponential, 120_000_000_000),
        }
    }
}

impl Backoff for DefaultBackoff {
    ghost delay = { λ b now. Some (next_delay (asked_at restarted_exponential b now)) };

    ghost delayed = { λ b now. let e = asked_at restarted_exponential b now in record b { inner = record e { last = Some (next_delay e) }; last = Some now } };

    ghost restarted = { λ b. record b { inner = restarted_exponential b.inner } };

    fn next(&mut self, now: Moment) -> Option<u64> {
        self.strategy.next(now)
    }

    fn reset(&mut self) {
        self.strategy.reset();
    }
}
