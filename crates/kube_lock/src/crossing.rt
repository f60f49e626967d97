//! What may cross threads: where what lies under a lock may, the lock may be shared by threads and handed to another, and
//! a pass may be handed to another. Nothing calls these functions; that they are accepted says so.

use crate::kept::Kept;
use crate::lock::Lock;
use crate::pass::Pass;
use std::thread::{self, Threads};

fn end<T: Drop>(_value: T) {}

fn look<T>(_value: &T) {}

/// A lock goes to another thread, and ends there.
pub fn lock_ends_there<C: Kept + Send, R: Threads>(rt: &R, lock: Lock<C>) {
    thread::join(rt, move || end(lock), || ());
}

/// A pass goes to another thread, and ends there, while both threads have the lock.
pub fn pass_ends_there<C: Kept + Send, R: Threads>(rt: &R, lock: &Lock<C>, pass: Pass<C>) {
    let there = move || {
        look(lock);
        end(pass);
    };
    thread::join(rt, there, || look(lock));
}
