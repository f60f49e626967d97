//! Laws of the program's definitions: each is the contract of a function that does nothing.

ghost use Rattle.std.specs.Prelude.{◌≡◌, ◌++◌, ℕ, List, Result};
ghost use Rattle.kube_run.specs.GeneratedRun.{AreTotals};
ghost use Rattle.kube_run.specs.Served.{Ends, IsBegun};
ghost use Rattle.kube_run.specs.declared.totals.Totals.{Totals};
ghost use Rattle.kube_run.specs.declared.status.Status.{Status};
ghost use Rattle.kube_script.specs.Script.{Script};
ghost use Rattle.kube_script.specs.Whole.{Cause};

/// An input has one end: how the program ends for it, where nothing fails, and the text that it writes.
pub fn one_end()
    ensures end { (input : Result Script Cause) (s t : Status) (xs ys : List ℕ) → Ends s input xs → Ends t input ys → (s ≡ t) × (xs ≡ ys) }
{}

/// A text of which the program may have written a part where a write or memory failed begins the text of the input's end.
pub fn begins_the_text()
    ensures begins { (input : Result Script Cause) (s : Status) (xs ys : List ℕ) → IsBegun input xs → Ends s input ys → (rest : List ℕ) × (ys ≡ xs ++ rest) }
{}

/// A generated input has one run, and so one line of totals.
pub fn one_total()
    ensures total { (seed objects turns : ℕ) (a b : Totals) → AreTotals seed objects turns a → AreTotals seed objects turns b → a ≡ b }
{}
