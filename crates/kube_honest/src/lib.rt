//! What a controller stores over an API that is honest.
#![tactic(auto)]

pub mod controllers;
pub mod laws;
#[cfg(test)]
mod tests;
