//! What bytes are read from; standard input as a source, standard output and standard error as sinks.
#![tactic(auto)]

pub mod source;
pub mod stdio;

pub use source::{NeverFailsSource, Source, VecSource};
