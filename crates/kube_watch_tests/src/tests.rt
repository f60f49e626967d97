//! Scripts with what a watcher makes of them, and each call once with ample memory.

mod cases;
mod config;
mod event;
mod object;
mod polls;
mod script;
