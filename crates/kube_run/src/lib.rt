//! The program: runs a controller by a script, and writes the trace of its turns; or over a generated input, and writes its totals.
#![tactic(auto)]

pub mod command;
pub mod generated;
pub mod heard;
pub mod input;
pub mod laws;
pub mod mapper;
pub mod play;
pub mod process;
pub mod program;
pub mod status;
pub mod totals;
pub mod trace;
