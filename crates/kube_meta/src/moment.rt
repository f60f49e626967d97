//! Moments, which the caller hands in.

ghost use Rattle.std.specs.Prelude.{◌≡◌, ◌+◌, ◌-◌, ◌^◌, min};

/// A moment, in whole nanoseconds from a start that the caller chooses.
///
/// No call of this library reads a clock.
#[derive(Clone, Copy, Debug, PartialEq, Eq, PartialOrd, Ord, Hash)]
pub struct Moment(pub u64);

impl Moment {
    /// The moment that is this many nanoseconds later. The sum stops at the greatest `u64`.
    pub fn plus(self, nanos: u64) -> Moment
        ensures { result.0 ≡ min (self.0 + nanos) (2 ^ 64 - 1) }
    {
        Moment(self.0.saturating_add(nanos))
    }
}
