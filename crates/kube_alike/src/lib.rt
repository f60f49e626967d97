//! Laws of controllers that are fed by what a watcher tells, beside those that list and watch: both request and start the same.
#![tactic(auto)]

pub mod keeps;
pub mod settles;
pub mod starts;
