//! What happens to the core of a controller, and that a turn is a list of such events.
#![tactic(auto)]

pub mod laws;
pub mod rows;
