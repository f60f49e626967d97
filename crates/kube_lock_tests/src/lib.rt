//! Tests of kube_lock: things of any type under a lock, and workers that take from them.
#![tactic(auto)]

mod desk;
mod entry;
mod stock;
mod worker;

pub use desk::Desk;
pub use entry::{Event, What};
pub use stock::{Stock, Thing};
pub use worker::{both_take_all, look, mark, take};

#[cfg(test)]
mod tests;
