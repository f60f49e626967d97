//! Controllers that are fed by streams and read a store, and appliers.
#![tactic(auto)]

pub mod controller;
mod finishes;
mod parts;
pub mod queued;
mod reads;
mod requests;
mod sources;
mod stopped;
mod takes;
mod turn;

pub use controller::FedController;
pub use kube_asks::{
    Backoff, Beside, ByFunction, ByLabel, Mapper, NoRelated, One, Owners, Related, RelatedList,
    RelatedSet, RelatedWatch, RootSource,
};
pub use kube_backoff::DefaultBackoff;
pub use kube_control::RunError;
pub use kube_fed::{QueueRoot, RelatedStream, StreamRoot};
pub use kube_reflect::Store;
pub use kube_step::{BadTurn, Handed, Reconciler, Recorder};
pub use kube_turn::{Config, Finish, Finished, ReconcileRequest, Taken, Trace, Turn, TurnRecord};
pub use queued::{Applier, NoBackoff, applier};
