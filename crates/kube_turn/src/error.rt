//! Errors of reconciles and of what brings them about (kube-runtime's `controller::Error`).

use kube_meta::{DynamicObject, ObjectRef};
use kube_model::error::{Error as WatcherError, RunnerError};
use std::fmt;
use thiserror::Error;

/// Why a turn's result is no reconcile that ended well.
#[derive(Debug, Drop, Error)]
#[error_bound(E: fmt::Display + fmt::Debug)]
pub enum Error<E> {
    /// Nothing was stored under this reference as it was taken.
    #[error("tried to reconcile object {0} that was not found in local store")]
    ObjectNotFound(Box<ObjectRef<DynamicObject>>),
    /// The reconciler gave this fault for the object of this reference.
    #[error("reconciler for object {1} failed: {0}")]
    ReconcilerFailed(E, Box<ObjectRef<DynamicObject>>),
    /// A source gave this error.
    #[error("event queue error: {0}")]
    QueueError(WatcherError),
    /// The runner ended early.
    #[error("runner error: {0}")]
    RunnerError(RunnerError),
}
