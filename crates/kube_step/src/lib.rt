//! The parts of a controller's turn, over who is asked next and over what decides: which turns are refused, finishes, asks
//! and takes.
#![tactic(auto)]

pub mod finishes;
pub mod reconciler;
pub mod refusal;
pub mod sources;
pub mod takes;
pub mod turn;

pub use finishes::finish_all;
pub use reconciler::{Handed, Reconciler, Recorder};
pub use refusal::{BadTurn, refused};
pub use sources::ask_all;
pub use takes::take_all;
pub use turn::take_turn;
