//! How a lock is opened.

ghost use Rattle.std.specs.Prelude.{◌≡◌, ◌≤◌, ◌<◌, ◌+◌, [], ◌∷◌, ◌++◌, length, Some, IfOk, IfErr, vec_len, vec_capacity};
ghost use Rattle.kube_lock.specs.Seats.{IsOf};
ghost use Rattle.std.specs.List.{AllByRecursion};
ghost use Rattle.kube_lock.specs.Passes.{dealt_all, fresh, IsPassOf};
ghost use Rattle.kube_lock.specs.Views.{dealer};
ghost use Rattle.kube_lock.specs.declared.opening.OpenError.TheVariants.{NoMemory};

use crate::kept::Kept;
use crate::lock::Lock;
use crate::pass::Pass;
use crate::rule::Place;
use crate::steps::{join, split_number};
use atomic_table::{Refused, Table};
use std::alloc::{AllocFailed, Global};
use std::snapshot::Snapshot;

/// There was no memory. What was to lie under the lock comes back.
#[derive(Drop)]
pub enum OpenError<C> {
    NoMemory(C),
}

impl<C: Kept> Lock<C> {
    /// Puts a value under a lock, with passes that share it, numbered from 0. To the value nothing has happened yet.
    pub fn open(
        alloc: Global,
        value: C,
        passes: u32,
    ) -> Result<(Lock<C>, Vec<Pass<C>>), OpenError<C>>
        requires count { (1 ≤ passes) × (passes ≤ 64) }
        requires empty { C.entries value ≡ [] }
        requires legal { C.legal (C.opened value) [] }
        ensures lock { IfOk result (λ r. r.0.opening ≡ C.opened value) }
        ensures passes { IfOk result (λ r. r.1.items ≡ dealt_all r.0.table (C.opened value) passes) }
        ensures all { IfOk result (λ r. length r.1.items ≡ passes) }
        ensures theirs { IfOk result (λ r. AllByRecursion (IsPassOf r.0) r.1.items) }
        ensures err { IfErr result (λ e. e ≡ NoMemory value) }
    {
        let Ok(mut dealt) = Vec::with_capacity(alloc, passes as usize) else {
            return Err(OpenError::NoMemory(value));
        };
        let key = Snapshot::of(&value);
        let mut slots = Vec::new(alloc);
        if let Err(AllocFailed { value }) = slots.push(Some(value)) {
            return match value {
                Some(value) => Err(OpenError::NoMemory(value)),
                None => unreachable!(),
            };
        }
        match Table::new(alloc, &[0, 0, 0], slots, &key) {
            Ok((table, root)) => {
                let lock = Lock { table };
                deal(&lock, root, &mut dealt, passes);
                Ok((lock, dealt))
            }
            Err(Refused { mut slots }) => match slots.pop() {
                Some(Some(value)) => Err(OpenError::NoMemory(value)),
                _ => unreachable!(),
            },
        }
    }
}

// Gives the numbers from 0 on to new passes. The last one keeps their count.
fn deal<C: Kept>(
    lock: &Lock<C>,
    mut root: Place<C, C::Entry, C::Opening>,
    dealt: &mut Vec<Pass<C>>,
    passes: u32,
)
    requires table { IsOf lock.now.table root }
    requires root { root.me ≡ (dealer lock.now.opening 0, []) }
    requires count { (1 ≤ passes) × (passes ≤ 64) }
    requires room { passes ≤ vec_capacity dealt.old }
    requires none { dealt.old.items ≡ [] }
    ensures { dealt.new.items ≡ dealt_all lock.now.table lock.now.opening passes }
{
    for number in 0..passes - 1 {
        let seat = split_number(&lock.table.shared, &mut root);
        dealt.push_reserved(Pass {
            seat,
            number: u64::from(number),
        });
    }
    dealt.push_reserved(last(lock, root, u64::from(passes - 1)));
}

// The last pass.
fn last<C: Kept>(lock: &Lock<C>, mut root: Place<C, C::Entry, C::Opening>, number: u64) -> Pass<C>
    requires table { IsOf lock.now.table root }
    requires root { root.me ≡ (dealer lock.now.opening number, []) }
    requires few { number < 64 }
    ensures { result ≡ record (fresh lock.now.table lock.now.opening number) { given = Some (number + 1) } }
{
    let board = &lock.table.shared;
    let mut seat = split_number(board, &mut root);
    join(board, &mut seat, root);
    Pass { seat, number }
}
