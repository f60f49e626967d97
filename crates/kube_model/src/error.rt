//! Errors of an API, of a watcher and of a runner.

ghost use Rattle.std.specs.Prelude.{Some};

use kube_meta::Text;
use std::fmt;
use thiserror::Error;

/// What an API server says of a call that failed (Kubernetes API concept "Status").
#[derive(Debug, Drop)]
pub struct Status {
    /// The code of HTTP. 410 says that a version is too old to be watched from.
    pub code: u16,
    pub reason: Text,
    pub message: Text,
    /// The identifier of the object that the call was about.
    pub uid: Option<Text>,
}

impl fmt::Display for Status {
    ghost output = { λ s. Some s.message };

    fn fmt<W: fmt::Write>(&self, f: &mut fmt::Formatter<W>) -> fmt::Result {
        f.write_str(self.message.as_str())
    }
}

/// Why a call to an API failed (in place of `kube::Error`).
#[derive(Debug, Drop)]
pub enum ApiError {
    /// The server refused it.
    Api(Status),
    /// The events of a watch could not be read.
    ReadEvents(Text),
    /// The server was not reached.
    Transport(Text),
}

impl fmt::Display for ApiError {
    ghost use Rattle.kube_model.specs.ErrorTexts.{fault_text};

    ghost output = { λ e. Some (fault_text e) };

    fn fmt<W: fmt::Write>(&self, f: &mut fmt::Formatter<W>) -> fmt::Result {
        match self {
            ApiError::Api(status) => f.write_str(status.message.as_str()),
            ApiError::ReadEvents(text) => f.write_str(text.as_str()),
            ApiError::Transport(text) => f.write_str(text.as_str()),
        }
    }
}

/// Why a watcher had no event to give (kube-runtime's `watcher::Error`).
#[derive(Debug, Drop, Error)]
pub enum Error {
    #[error("failed to perform initial object list: {0}")]
    InitialListFailed(ApiError),
    #[error("failed to start watching object: {0}")]
    WatchStartFailed(ApiError),
    #[error("error returned by apiserver during watch: {0}")]
    WatchError(Status),
    #[error("watch stream failed: {0}")]
    WatchFailed(ApiError),
    #[error("no metadata.resourceVersion in watch result (does resource support watch?)")]
    NoResourceVersion,
}

/// The writer of a store was dropped before the store was ready (kube-runtime's `store::WriterDropped`).
#[derive(Clone, Copy, Debug, PartialEq, Eq, Error)]
#[error("writer was dropped before store became ready")]
pub struct WriterDropped;

/// Why a runner ended early (kube-runtime's `controller::runner::Error`).
#[derive(Clone, Copy, Debug, PartialEq, Eq, Error)]
pub enum RunnerError {
    #[error("readiness gate failed to become ready: {0}")]
    Readiness(WriterDropped),
}
