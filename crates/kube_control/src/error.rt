//! Why a run ends early.

use kube_meta::Resource;
use kube_step::BadTurn;
use kube_turn::Trace;
use std::fmt;
use thiserror::Error;

/// Why a run ends early, with the records of the turns before.
#[derive(Drop, Error)]
#[error_bound(K: fmt::Debug, E: fmt::Debug, K::DynamicType: fmt::Debug)]
#[derive_where(Debug; K, E, K::DynamicType)]
pub enum RunError<K: Resource, E: Drop> {
    /// Memory could not be had. The controller is spent.
    #[error("out of memory")]
    NoMemory {
        trace: Trace<K, E>,
    },
    /// In the turn of this number, counted from 0 in this run, an item of this source, of which the root is 0, must become a
    /// reference and has no name. The controller is spent; its store is as before that exchange.
    #[error("source {source} gave an object without a name in turn {turn}")]
    UnnamedObject {
        turn: u32,
        source: u32,
        trace: Trace<K, E>,
    },
    /// The turn of this number, counted from 0 in this run, is refused. It changed nothing, and the controller goes on.
    #[error("turn {turn} is refused: {why}")]
    BadTurn {
        turn: u32,
        why: BadTurn,
        trace: Trace<K, E>,
    },
    /// An earlier run had no memory, or met an object without a name. The trace is empty.
    #[error("an earlier run failed")]
    Spent {
        trace: Trace<K, E>,
    },
}
