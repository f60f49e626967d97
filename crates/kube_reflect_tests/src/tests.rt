//! Each public call, and the rows that were worked out by hand.

mod delayed_init;
mod many;
mod node;
mod objects;
mod readers;
mod reflect;
mod shown;
mod steps;
