//! The two copies of what a writer stores: its readers read one, and a publish changes the other and then shows it.

pub(crate) mod absorb;
pub(crate) mod book;
pub(crate) mod copied;
pub(crate) mod hand;
pub(crate) mod handle;
pub(crate) mod law;
pub(crate) mod mark;
pub(crate) mod rule;
pub(crate) mod shared;
pub(crate) mod shelf;
pub(crate) mod show;
