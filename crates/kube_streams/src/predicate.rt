//! Predicates: what of an object is looked at to say whether it changed (kube-runtime's `utils::predicate`).

ghost use Rattle.std.specs.Prelude.{◌≡◌, ◌++◌};
ghost use Rattle.std.specs.Fn.{FnReturnsAt};
ghost use Rattle.kube_streams.specs.Properties.{Combines, FallsBack, combined as combined_value, folded, hashed, part_bytes};

use crate::fold::Fold;
use std::hash::Hasher;

/// A property of an object, as a value of 64 bits. Equal properties have equal values; others nearly always other ones.
pub trait Predicate<K>: Drop {
    ghost use Rattle.std.specs.Prelude.{ℕ, Option, ⊤};

    /// The values that it may give of an object.
    ghost gives: { Self → K → Option ℕ → Type 0 };

    /// Whether it may be asked of an object: one that calls a closure says so that the closure may be called, and one of
    /// two parts says so which of them it asks.
    ghost may: { Self → K → Type 0 } = { λ _ _. ⊤ };

    /// The value of an object's property; none where the object has no such property.
    fn hash_property(&self, obj: &K) -> Option<u64>
        requires may { may self.now obj.now }
        ensures gives { gives self.now obj.now result };

    /// This property, and another one of the objects that don't have this one.
    final fn fallback<F: Predicate<K>>(self, f: F) -> Fallback<Self, F>
    where
        Self: Sized,
        ensures { result ≡ record { first = self; second = f } }
    {
        Fallback {
            first: self,
            second: f,
        }
    }

    /// This property and another one, as far as an object has them.
    final fn combine<F: Predicate<K>>(self, f: F) -> Combine<Self, F>
    where
        Self: Sized,
        ensures { result ≡ record { first = self; second = f } }
    {
        Combine {
            first: self,
            second: f,
        }
    }
}

/// A predicate that is a closure.
#[derive(Drop)]
pub struct FnPredicate<F>(pub F);

impl<K, F: Fn(&K) -> Option<u64>> Predicate<K> for FnPredicate<F> {
    ghost gives = { λ p object value. FnReturnsAt F.Fn p.0 object value };

    ghost may = { λ p object. F.IsAlwaysCallable p.0 };

    fn hash_property(&self, obj: &K) -> Option<u64> {
        (self.0)(obj)
    }
}

/// A predicate, and another one where it gives none (what `Predicate::fallback` gives). The second is asked exactly of the
/// objects of which the first gives none: so only of these it must be such that it may be asked.
#[derive(Clone, Copy, Debug, Drop, PartialEq, Eq)]
pub struct Fallback<A, B> {
    pub first: A,
    pub second: B,
}

impl<K, A: Predicate<K>, B: Predicate<K>> Predicate<K> for Fallback<A, B> {
    ghost use Rattle.std.specs.Prelude.{None};

    ghost gives = { λ p object value. FallsBack (A.gives p.first object) (B.gives p.second object) value };

    ghost may = { λ p object. A.may p.first object × (A.gives p.first object None → B.may p.second object) };

    fn hash_property(&self, obj: &K) -> Option<u64> {
        match self.first.hash_property(obj) {
            Some(value) => Some(value),
            None => self.second.hash_property(obj),
        }
    }
}

/// Two predicates, both of which count (what `Predicate::combine` gives).
#[derive(Clone, Copy, Debug, Drop, PartialEq, Eq)]
pub struct Combine<A, B> {
    pub first: A,
    pub second: B,
}

/// A part of what is combined.
fn part(fold: &mut Fold, value: Option<u64>)
    ensures { fold.new ≡ folded fold.old (part_bytes value) }
{
    match value {
        Some(value) => {
            fold.write_u8(1);
            fold.number(value);
        }
        None => fold.write_u8(0),
    }
}

/// Both parts, as one value.
fn both(a: Option<u64>, b: Option<u64>) -> u64
    ensures { result ≡ hashed 6 (part_bytes a ++ part_bytes b) }
{
    let mut fold = Fold::new(6);
    part(&mut fold, a);
    part(&mut fold, b);
    fold.finish()
}

/// Both values as one.
fn combined(a: Option<u64>, b: Option<u64>) -> Option<u64>
    ensures { result ≡ combined_value a b }
{
    match (a, b) {
        (None, None) => None,
        (a, b) => Some(both(a, b)),
    }
}

impl<K, A: Predicate<K>, B: Predicate<K>> Predicate<K> for Combine<A, B> {
    ghost gives = { λ p object value. Combines (A.gives p.first object) (B.gives p.second object) value };

    ghost may = { λ p object. A.may p.first object × B.may p.second object };

    fn hash_property(&self, obj: &K) -> Option<u64> {
        let a = self.first.hash_property(obj);
        let b = self.second.hash_property(obj);
        combined(a, b)
    }
}
