//! What decides in a controller: what is stored, what waits and what runs.
#![tactic(auto)]

pub mod controller_core;
pub mod laws;
pub mod pending;
pub mod requests;
mod storing;
pub mod taking;

pub use controller_core::Core;
pub use pending::Pending;
