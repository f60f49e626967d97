//! The rule of an outcome's book.

use crate::delayed_init::InitDropped;
use logbook::{Gain, Plain, Play, Rule};
use std::marker::PhantomData;

/// At most one outcome was set, and the first word is how many.
pub struct Law<T> {
    of: PhantomData<T>,
}

impl<T> Rule<Result<T, InitDropped>, u64> for Law<T> {
    ghost use Rattle.std.specs.Prelude.{[]};
    ghost use base.Fml.{ftrue};
    ghost use Rattle.kube_reflect.specs.Once.{IsOnce};

    ghost holds = { λ cells log. IsOnce cells log };

    ghost first = { [] };

    ghost hinted = { λ n log. Unit {0} };

    ghost shows = { λ log. [] };

    ghost keeps = { λ names log. ftrue };

    ghost moves = { λ ask before after answer. Unit {0} };
}

/// Callers trade nothing.
pub struct Nothing;

impl<T> Gain<Result<T, InitDropped>, u64> for Nothing {
    ghost use base.Fml.{ftrue};

    ghost after = { λ names about answer. ftrue };
}

/// A step that sets the outcome.
pub struct Sets;

impl<T> Play<Result<T, InitDropped>, u64> for Sets {
    ghost use Rattle.kube_reflect.specs.Once.{IsSet};

    ghost then = { IsSet };
}

impl<T> Plain<Result<T, InitDropped>, Result<T, InitDropped>, u64> for Sets {
    ghost use Rattle.std.specs.Prelude.{None};

    ghost ask = { λ outcome. outcome };

    ghost state = { λ outcome. None };
}
