//! Leader election by a lease object: candidates hold it in turn, by tested patches, and never two at once.
#![tactic(auto)]

mod candidate;
mod election;
pub mod laws;
mod lease;
mod patches;
mod play;
mod poll;
pub mod rows;

pub use candidate::{Candidate, LeaseDecision};
pub use lease::{LeaseFault, LeaseView, new_lease, read_lease};
pub use poll::LeaseAnswer;
