//! The rule of the book of what a writer tells its readers.

use crate::history::Entries;
use kube_watch::Event;
use logbook::{Gain, Plain, Play, Rule};

/// What a writer tells: an event that was applied, that a publish made readable what stands before, or that no more
/// follow, which is readable too. No value of it is made.
pub enum Entry<K> {
    Told(Event<K>),
    Shown,
    End,
}

/// The first word is the length of the list.
pub struct Law;

impl<K> Rule<Entry<K>, u64> for Law {
    ghost use Rattle.std.specs.Prelude.{[]};
    ghost use base.Fml.{ftrue};
    ghost use Rattle.kube_reflect.specs.Books.{IsCounted};

    ghost holds = { λ cells log. IsCounted cells log };

    ghost first = { [] };

    ghost hinted = { λ n log. Unit {0} };

    ghost shows = { λ log. [] };

    ghost keeps = { λ names log. ftrue };

    ghost moves = { λ ask before after answer. Unit {0} };
}

/// Callers trade nothing.
pub struct Nothing;

impl<K> Gain<Entry<K>, u64> for Nothing {
    ghost use base.Fml.{ftrue};

    ghost after = { λ names about answer. ftrue };
}

/// A step that adds an entry.
pub struct Add;

impl<K> Play<Entry<K>, u64> for Add {
    ghost use Rattle.kube_reflect.specs.Books.{Adds};

    ghost then = { Adds };
}

/// The entry at a place of a list.
#[derive(Drop)]
pub struct Next<K> {
    pub all: Entries<K>,
    pub at: u64,
}

impl<K> Plain<Next<K>, Entry<K>, u64> for Add {
    ghost use Rattle.std.specs.Prelude.{None};
    ghost use Rattle.kube_reflect.specs.Entries.{entry_at};

    ghost ask = { λ next. entry_at next.all.log next.at };

    ghost state = { λ next. None };
}
