//! Finalizers, conditions on an object, and waiting for one (kube-runtime's `finalizer` and `wait`).
#![tactic(auto)]

pub mod conditions;
pub mod delete;
pub mod finalizer;
pub mod kinds;
pub mod laws;
mod life;
pub mod parts;
mod patches;
mod play;
pub mod wait;

pub use delete::{DeleteAndFinalize, DeleteFailed};
pub use finalizer::{Decision, Event, Finalizer, PatchFailed};
pub use kube_api::{Patch, PatchRefusal, apply_patch};
pub use wait::{AwaitCondition, Condition, FnCondition};
