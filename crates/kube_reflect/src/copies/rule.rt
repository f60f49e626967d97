//! The rule of the two copies.

use crate::copies::copied::{Copied, Op};
use crate::copies::mark::Origin;
use atomic_table::{Join, Split};
use crossbeam_utils::rule::{Outcome, Protocol};
use kube_meta::Resource;
use left_right::reader::{Reader, Reading};
use left_right::writer::Writer;
use std::marker::PhantomData;

/// What a place knows: a list of the writer's, if any. No value of it is made.
pub struct View<K: Resource> {
    pub at: Option<Origin<K>>,
}

/// The copy that is shown is what its list makes, and each place knows a list of the same writer, or nothing.
pub struct Keeps<K: Resource> {
    of: PhantomData<K>,
}

impl<K: Resource> Protocol<Copied<K>, View<K>> for Keeps<K> {
    ghost use Rattle.std.specs.Prelude.{None};
    ghost use Rattle.kube_reflect.specs.Ruled.{AllKept};

    ghost holds = { AllKept K.type_of K.meta_of };

    ghost first = { record { at = None } };
}

/// What a look at the copy that is shown tells.
pub struct Sees;

impl<K: Resource> Outcome<Copied<K>, View<K>> for Sees {
    ghost use Rattle.kube_reflect.specs.Ruled.{Saw};

    ghost then = { Saw K.type_of K.meta_of };
}

/// A new reader is told what the writer knows.
pub struct Notes;

impl<K: Resource> Split<View<K>> for Notes {
    ghost left = { λ v. v };

    ghost right = { λ v. v };
}

/// A reader that ends brings what it knows.
pub struct Brings;

impl<K: Resource> Join<View<K>> for Brings {
    ghost use Rattle.std.specs.Prelude.{None};

    ghost both = { λ v w. w };

    ghost spent = { record { at = None } };
}

/// A reader of the two copies.
pub type TwoReader<K> = Reader<Copied<K>, View<K>, Keeps<K>>;

/// A look of a reader at the copy that stands.
pub type TwoReading<K> = Reading<Copied<K>, View<K>, Keeps<K>>;

/// The writer of the two copies.
pub type TwoWriter<K> = Writer<Copied<K>, Op<K>, View<K>, Keeps<K>>;
