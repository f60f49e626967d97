//! What a seat of the table knows.

use std::collections::LinkedList;

/// A number whose seat was taken in, with its own entries. No value of it is made.
pub struct Joined<E> {
    pub number: u64,
    pub own: LinkedList<E>,
}

/// What a seat knows: what was opened (which a spent seat doesn't know), the beginning of the history that it has seen,
/// its number with its own entries, the ticket that it has drawn, whether it holds the slot, and how many numbers were
/// given, where it keeps that count. From each join stay the two lists that were seen, and the number that was taken in.
/// No value of it is made.
pub struct View<E, P> {
    pub opening: Option<P>,
    pub seen: LinkedList<E>,
    pub own: LinkedList<E>,
    pub number: Option<u64>,
    pub ticket: Option<u64>,
    pub holds: bool,
    pub given: Option<u64>,
    pub fronts: LinkedList<LinkedList<E>>,
    pub joined: LinkedList<Joined<E>>,
}
