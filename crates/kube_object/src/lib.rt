//! Objects of the Kubernetes API that contracts see as data.
#![tactic(auto)]

pub mod script_object;

pub use script_object::ScriptObject;
