//! Entries of a history: their values are of a type of definitions, with the same parameter.

use std::marker::Model;

/// What a pass did: it took the last thing, where there was one, or it left a mark.
#[derive(Drop)]
pub enum What<K: Drop> {
    Took(Option<K>),
    Marked,
}

/// What happened, with the number of the pass that did it.
#[derive(Drop)]
pub struct Event<K: Drop> {
    pub(crate) pass: u64,
    pub(crate) what: What<K>,
}

impl<K: Drop> Model for Event<K> {
    ghost use Rattle.kube_lock_tests.specs.Stocks.{Entry};
    ghost use Rattle.kube_lock_tests.specs.Events.{entry_of};

    ghost Value = { Entry K };

    ghost view = { λ e. entry_of e.pass e.what };
}
