//! What may lie under the lock.

ghost use Rattle.std.specs.Prelude.{ℕ, List, ◌++◌};

/// A value that tells the list of what happened to it since it was opened: each entry with the number of the pass that
/// made it. It also tells what it was when it was opened.
pub trait Kept: Drop {
    type Entry;

    type Opening;

    ghost entries: { Self → List Self.Entry };

    ghost number: { Self.Entry → ℕ };

    ghost opened: { Self → Self.Opening };

    /// The test of a history: whether this may have happened to what was opened.
    ghost legal: { Self.Opening → List Self.Entry → Type 0 };

    /// Each beginning of a history that passes the test passes it too.
    ghost fronts: { (opening : Self.Opening) (front rest : List Self.Entry) → legal opening (front ++ rest) → legal opening front };
}
