//! What the watcher and the controller tell each other, and the definitions on which every theorem stands.
#![tactic(auto)]

pub mod call;
pub mod error;
pub mod laws;
pub mod params;
pub mod reason;
pub mod refused;
pub mod rows;
pub mod turn;

pub use call::{Answer, Call};
pub use error::{ApiError, Error, RunnerError, Status, WriterDropped};
pub use params::{ListParams, VersionMatch, WatchParams};
pub use reason::ReconcileReason;
pub use turn::{Shutdown, Stop};
