//! Who is asked next: roots, related sources and sets of them, asked in turn.
#![tactic(auto)]

pub mod asks;
pub mod laws;
pub mod mapper;
pub mod mapping;
mod noting;
pub mod related;
pub mod related_list;
pub mod related_watch;
pub mod root;
pub mod set;
pub mod sets;
pub mod watch_root;

pub use asks::{AskFault, Asks};
pub use kube_backoff::Backoff;
pub use kube_turn::{ReconcileRequest, SourceExchange};
pub use kube_watch::StreamFault;
pub use mapper::{ByFunction, ByLabel, Mapper, Owners};
pub use related::Related;
pub use related_list::RelatedList;
pub use related_watch::RelatedWatch;
pub use root::RootSource;
pub use set::RelatedSet;
pub use sets::{Beside, NoRelated, One};
pub use watch_root::WatchRoot;
