//! An outcome that was set.

ghost use Rattle.std.specs.Prelude.{◌≡◌, [], ◌∷◌};

use crate::delayed_init::InitDropped;
use crate::delayed_init::law::Law;
use logbook::Seen;

/// An outcome that was set, with the book that says so.
#[derive(Drop)]
pub struct Outcome<T> {
    pub outcome: Result<T, InitDropped>,
    pub seen: Seen<Result<T, InitDropped>, u64, Law<T>>,
    ghost is_set: { seen.log ≡ outcome ∷ [] },
}

impl<T: Copy> Outcome<T> {
    /// The same outcome once more.
    pub fn again(&self) -> Outcome<T>
        ensures { result ≡ self.now }
    {
        Outcome {
            outcome: self.outcome,
            seen: self.seen.again(),
        }
    }
}
