//! A ticket lock around one value, the passes that share it between threads, and the one history of what they did to it.
#![tactic(auto)]

mod closing;
pub mod crossing;
mod kept;
mod lock;
mod meeting;
mod opening;
mod pass;
mod rule;
mod steps;
mod view;
mod waiting;

pub use kept::Kept;
pub use lock::Lock;
pub use opening::OpenError;
pub use pass::{Pass, Turn};
