//! How long to wait after failures (kube-runtime's `utils::backoff_reset_timer` and the `backon` strategies that it takes).
#![tactic(auto)]

pub mod backoff;
pub mod backoff_reset_timer;
pub mod exponential;
pub mod plain_backoffs;

pub use backoff::Backoff;
pub use backoff_reset_timer::{DefaultBackoff, ResetTimerBackoff};
pub use exponential::ExponentialBackoff;
pub use plain_backoffs::{ConstantBackoff, LinearBackoff, StopBackoff};
