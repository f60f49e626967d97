//! Laws of the definitions: each is the contract of a function that does nothing.

ghost use Rattle.std.specs.Prelude.{◌≡◌, true, false};
ghost use Rattle.kube_meta.specs.Reference.{Reference, reference_before};

/// By namespace and name no reference comes before itself, the order is transitive, and of two references neither of
/// which comes before the other the namespaces and the names are equal.
pub fn references_have_an_order()
    ensures itself { (a : Reference) → reference_before a a ≡ false }
    ensures transitive { (a b c : Reference) → reference_before a b ≡ true → reference_before b c ≡ true → reference_before a c ≡ true }
    ensures namespaces { (a b : Reference) → reference_before a b ≡ false → reference_before b a ≡ false → a.namespace ≡ b.namespace }
    ensures names { (a b : Reference) → reference_before a b ≡ false → reference_before b a ≡ false → a.name ≡ b.name }
{}
