//! What turns did.

use crate::exchange::SourceExchange;
use crate::taken::Taken;
use kube_meta::{Action, List, Moment, ObjectRef, Resource};
use kube_model::error::RunnerError;
use kube_model::turn::Stop;
use std::sync::Arc;

/// A finish with the action that was taken for it.
#[derive(Drop)]
#[derive_where(Debug; K, E, K::DynamicType)]
pub struct Finished<K: Resource, E: Drop> {
    pub reference: ObjectRef<K>,
    pub outcome: Result<Action, E>,
    /// The outcome's own, or what the error policy answered.
    pub action: Action,
}

/// What a turn did.
#[derive(Drop)]
#[derive_where(Debug; K, E, K::DynamicType)]
pub struct TurnRecord<K: Resource, E: Drop> {
    pub at: Moment,
    pub finished: List<Finished<K, E>>,
    /// What was asked, in order.
    pub exchanges: List<SourceExchange<K>>,
    /// For each source, why it was asked no more.
    pub stops: List<Stop>,
    /// What was taken, in order.
    pub taken: List<Taken<K>>,
    /// The stored objects in the store's order, where the turn asks to show them.
    pub store: Option<List<Arc<K>>>,
    /// Why the runner ended, if it did. It never does where objects are listed and watched.
    pub runner: Option<RunnerError>,
    /// Whether the trace ends with this record.
    pub ended: bool,
}

/// The records of a run's turns.
#[derive(Drop)]
#[derive_where(Debug; K, E, K::DynamicType)]
pub struct Trace<K: Resource, E: Drop> {
    pub records: List<TurnRecord<K, E>>,
}
