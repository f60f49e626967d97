//! How long to wait after a failure.

use kube_meta::Moment;

/// Delays after failures (kube-runtime's `Backoff`). Both calls are functions of its state.
pub trait Backoff: Drop {
    ghost use Rattle.std.specs.Prelude.{ℕ, Option, ◌≡◌};

    /// The delay in nanoseconds at a moment; none where it gives up.
    ghost delay: { Self → ℕ → Option ℕ };

    /// The state after a delay at a moment.
    ghost delayed: { Self → ℕ → Self };

    /// The state after a reset.
    ghost restarted: { Self → Self };

    /// The next delay, in nanoseconds; none where it gives up.
    fn next(&mut self, now: Moment) -> Option<u64>
        ensures delay { result ≡ delay self.old now.0 }
        ensures delayed { self.new ≡ delayed self.old now.0 };

    /// Begins anew.
    fn reset(&mut self)
        ensures restarted { self.new ≡ restarted self.old };
}
