//! Whether a turn asks for the end, and why sources are asked no more in it.

/// What a turn asks of a controller's end.
#[derive(Clone, Copy, Debug, PartialEq, Eq)]
pub enum Shutdown {
    No,
    /// What runs is waited for.
    Graceful,
    /// The turn is the last.
    Forced,
}

/// Why a source was asked no more in a turn.
#[derive(Clone, Copy, Debug, PartialEq, Eq)]
pub enum Stop {
    /// It told not ready in this turn.
    NotReady,
    /// Shutdown was asked.
    Shutdown,
    /// Its budget is used up.
    Budget,
    /// An error pauses all sources.
    Paused,
}
