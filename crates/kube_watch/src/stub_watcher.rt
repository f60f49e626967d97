//! What a test asks of a watcher's errors.

ghost use Rattle.std.specs.Prelude.{◌↔◌, IsTrue};
ghost use Rattle.kube_watch.specs.Graceful.{IsGraceful};

use kube_model::error::{ApiError, Error};

/// Whether an error only says that a `TestMode` has no watch left: the start of a watch or a watch failed with
/// `ReadEvents("TestMode watch sequence exhausted")`.
pub fn error_indicates_graceful_watch_seq_exhaustion(err: &Error) -> bool
    ensures { IsTrue result ↔ IsGraceful err.now }
{
    match err {
        Error::WatchStartFailed(ApiError::ReadEvents(text))
        | Error::WatchFailed(ApiError::ReadEvents(text)) => {
            text.as_str() == "TestMode watch sequence exhausted"
        }
        _ => false,
    }
}
