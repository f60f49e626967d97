//! Which turns are refused.

ghost use Rattle.std.specs.Prelude.{◌≡◌, ◌≤◌, ◌^◌, ◌||◌, nat_le, nat_lt, [], ℕ, List, None, length, map, option_map, IfOk, slice_set, true, false};
ghost use Rattle.kube_model.specs.History.{Message, Step};
ghost use Rattle.kube_model.specs.Queue.{QueueEvent};
ghost use Rattle.kube_model.specs.Takes.{Running, running};
ghost use Rattle.kube_model.specs.Traces.{last_moment, refusal, refused_finish};
ghost use Rattle.kube_history.specs.CoreWorld.{CoreWorld};
ghost use Rattle.kube_core.specs.Pendings.{Stands};
ghost use Rattle.kube_turn.specs.Records.{finish_of, turn_of};
ghost use Rattle.kube_step.specs.Errors.{refusal_of};
ghost use Rattle.kube_step.specs.Marks.{is_marked};

use kube_core::Pending;
use kube_meta::{Moment, NoMemory, Resource};
use kube_turn::{Finish, Turn};
use std::alloc::Global;
use thiserror::Error;

/// Moments are below this one.
const MOMENT_END: u64 = 9_223_372_036_854_775_808;

/// Why a turn is refused. It changes nothing.
#[derive(Clone, Copy, Debug, PartialEq, Eq, Error)]
pub enum BadTurn {
    /// Its moment is 2^63 or more, or before that of the last turn (0 at first). Both are in nanoseconds.
    #[error("its moment is too late, or before the last turn's")]
    Moment { at: Moment, last: Moment },
    /// The finish of this number, counted from 0, names a reference that doesn't run.
    #[error("finish {finish} names a reference that doesn't run")]
    NotRunning { finish: usize },
    /// The finish of this number, counted from 0, names a reference that an earlier one names.
    #[error("finish {finish} names a reference that an earlier one names")]
    Twice { finish: usize },
}

/// As many marks, none of which is set.
///
/// # Errors
///
/// `NoMemory`.
pub fn no_marks(alloc: Global, count: usize) -> Result<Vec<bool>, NoMemory>
    ensures long { IfOk result (λ v. length v.items ≡ count) }
    ensures none { IfOk result (λ v. (place : ℕ) → is_marked v.items place ≡ false) }
{
    let mut marks = Vec::new(alloc);
    for _place in 0..count {
        marks.push(false)?;
    }
    Ok(marks)
}

/// Whether a place is marked.
pub fn is_marked(marks: &[bool], place: usize) -> bool
    ensures { result ≡ is_marked marks.now place }
{
    match marks.get(place) {
        Some(mark) => *mark,
        None => false,
    }
}

/// Marks a place.
pub fn mark(marks: &mut Vec<bool>, place: usize)
    ensures { marks.new.items ≡ slice_set marks.old.items place true }
{
    if place < marks.len() {
        marks[place] = true;
    }
}

/// Why the first of these finishes that is refused is.
fn refused_finish<K: Resource, E: Drop>(
    alloc: Global,
    pending: &Pending<K>,
    finishes: &[Finish<K, E>],
) -> Result<Option<BadTurn>, NoMemory>
    ensures { IfOk result (λ o. (core : CoreWorld K) (qs : List (QueueEvent Message)) (rs : List (Running K)) → Stands K.type_of core pending.now qs rs
        → option_map refusal_of o ≡ refused_finish rs [] 0 (map (finish_of K.type_of) finishes.now)) }
{
    let mut marks = no_marks(alloc, pending.running_len())?;
    for (finish, ended) in finishes.iter().enumerate() {
        let Some(place) = pending.running_place(&ended.reference) else {
            return Ok(Some(BadTurn::NotRunning { finish }));
        };
        if is_marked(marks.as_slice(), place) {
            return Ok(Some(BadTurn::Twice { finish }));
        }
        mark(&mut marks, place);
    }
    Ok(None)
}

/// Whether a turn's moment is too late, or before that of the last turn.
fn is_bad(at: Moment, last: Moment) -> bool
    ensures bad { result ≡ (nat_le (2 ^ 63) at.0 || nat_lt at.0 last.0) }
    ensures later { result ≡ false → last.0 ≤ at.0 }
{
    at.0 >= MOMENT_END || at.0 < last.0
}

/// Why a turn is refused, if it is. `last` is the moment of the last turn.
///
/// # Errors
///
/// `NoMemory` where there is none for a mark of each reference that runs.
pub fn refused<K: Resource, E: Drop>(
    alloc: Global,
    pending: &Pending<K>,
    last: Moment,
    turn: &Turn<K, E>,
) -> Result<Option<BadTurn>, NoMemory>
    ensures why { IfOk result (λ o. (core : CoreWorld K) (qs : List (QueueEvent Message)) (rs : List (Running K)) (h : List (Step K)) → Stands K.type_of core pending.now qs rs → rs ≡ running h → last.0 ≡ last_moment h
        → option_map refusal_of o ≡ refusal h (turn_of K.type_of turn.now)) }
    ensures later { IfOk result (λ o. o ≡ None → last.0 ≤ turn.now.at.0) }
{
    if is_bad(turn.at, last) {
        return Ok(Some(BadTurn::Moment { at: turn.at, last }));
    }
    refused_finish(alloc, pending, turn.finishes.as_slice())
}
