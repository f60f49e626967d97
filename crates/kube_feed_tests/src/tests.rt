//! Controllers that are fed by streams, and appliers.

mod applier;
mod fed;
mod node;
