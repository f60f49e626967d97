//! What one call of a watcher gave.

use crate::event::Event;
use kube_meta::List;
use kube_model::call::{Answer, Call};
use kube_model::error::Error;
use std::sync::Arc;

/// A call of a watcher with its answer, before what they tell is made of them.
#[derive(Drop)]
pub struct Exchange<V: Drop> {
    /// Whether the call belongs to a watch that sends the objects that are there first.
    pub initial: bool,
    pub call: Call,
    pub answer: Answer,
    /// The objects that came: those of a page, or the one of an item of a watch.
    pub items: List<Arc<V>>,
    pub error: Option<Error>,
}

/// A call of a watcher with its answer, and what they tell.
#[derive(Drop)]
pub struct Unit<V: Drop> {
    pub call: Call,
    pub answer: Answer,
    /// The objects that came: those of a page, or the one of an item of a watch.
    pub items: List<Arc<V>>,
    /// What it tells of them, in order, before the error.
    pub events: List<Event<Arc<V>>>,
    pub error: Option<Error>,
}
