//! What is told on standard error of a script that may not mean what its writer meant.
#![tactic(auto)]

mod expected;
mod lines;
mod unread;

pub use lines::hints;
