//! An API server in memory, and connections to it: lists are whole states, and watches are without gaps.
#![tactic(auto)]

mod conn;
mod entry;
pub mod laws;
mod log;
mod object;
mod object_told;
mod objects;
mod place;
pub mod rows;
mod selector;
pub mod server;
mod server_objects;
mod status;
mod talk;
mod token;
mod watching;

pub use conn::Conn;
pub use server::{Server, ServerRefusal};
pub use server_objects::ServerObjects;
