//! Where an open watch stands in its steps.

/// A place in the steps of a watch.
#[derive(Clone, Copy, Debug, PartialEq, Eq)]
pub struct Place {
    /// The step, counted from 0.
    pub step: usize,
    /// How many of its events were given.
    pub given: usize,
    /// Since when its silence runs, in nanoseconds.
    pub since: Option<u64>,
}

impl Place {
    ghost use Rattle.std.specs.Prelude.{◌≡◌, None};

    /// Before the first event of a step.
    pub fn before(step: usize) -> Place
        ensures { result ≡ record { step = step; given = 0; since = None } }
    {
        Place {
            step,
            given: 0,
            since: None,
        }
    }
}
