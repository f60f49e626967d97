//! Inputs of any size, made from a few numbers.
#![tactic(auto)]

pub mod changes;
pub mod input;
pub mod objects;
pub mod pages;

pub use input::generated;
