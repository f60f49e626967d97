//! Calls of a controller's sources, with their answers.

use crate::request::ReconcileRequest;
use kube_meta::{List, Resource};
use kube_model::call::{Answer, Call};
use kube_model::error::Error;
use std::sync::Arc;

/// A call of one source with its answer.
#[derive(Drop)]
#[derive_where(Debug; K, K::DynamicType)]
pub struct SourceExchange<K: Resource> {
    /// The source's number: the root is 0, related ones follow.
    pub source: u32,
    pub call: Call,
    pub answer: Answer,
    /// The root's objects that came, and none of a related source.
    pub items: List<Arc<K>>,
    /// What it requests, in order.
    pub requests: List<ReconcileRequest<K>>,
    /// The watcher's error, if it is one.
    pub error: Option<Error>,
}
