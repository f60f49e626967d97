//! The watcher: it lists and watches an API and tells what happens to its objects.
#![tactic(auto)]

mod calls;
pub mod config;
pub mod event;
mod idle;
pub mod laws;
pub mod object;
pub mod polling;
mod state;
pub mod stream;
pub mod stub_watcher;
mod tell;
pub mod unit;
pub mod watcher;
pub mod watching;

pub use config::{Config, InitialListStrategy, ListSemantic};
pub use event::Event;
pub use kube_model::call::{Answer, Call};
pub use kube_model::error::{ApiError, Error, Status};
pub use object::{WatchObject, watch_object};
pub use stream::{EventStream, StreamFault};
pub use stub_watcher::error_indicates_graceful_watch_seq_exhaustion;
pub use tell::events_of;
pub use unit::{Exchange, Unit};
pub use watching::Watcher;
