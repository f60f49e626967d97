//! The changes of a generated input.

ghost use Rattle.std.specs.Prelude.{◌≡◌, ◌<◌, ◌++◌, ◌∷◌, [], IfOk, OnOk};
ghost use Rattle.kube_model.specs.Raw.{GivesModified};
ghost use Rattle.kube_api.specs.Sequences.{steps_of};
ghost use Rattle.kube_api.specs.TestScript.{Gives, Pauses};
ghost use Rattle.kube_gen.specs.Generated.{next_number, parent_at, picked, second, change_steps, quiet_steps};

use crate::objects::parent;
use kube_api::{SequenceStep, WatchEvent};
use kube_meta::NoMemory;
use kube_object::ScriptObject;
use std::alloc::Global;
use std::collections::VecDeque;

/// A second, and how long a watch is silent at last, in nanoseconds.
const SECOND: u64 = 1_000_000_000;

const SILENCE: u64 = 10_000 * SECOND;

/// The number after a number, as if by chance.
fn next_number(number: u64) -> u64
    ensures { result ≡ next_number number }
{
    number
        .wrapping_mul(6_364_136_223_846_793_005)
        .wrapping_add(1_442_695_040_888_963_407)
}

/// Which of so many parents a number picks.
fn pick(number: u64, parents: u32) -> u32
    requires { 0 < parents }
    ensures { result ≡ picked number parents }
{
    ((number >> 33) % u64::from(parents)) as u32
}

/// The steps of a change: a second of silence, and then the parent in its new version.
fn push_change(
    alloc: Global,
    steps: &mut Vec<SequenceStep<ScriptObject>>,
    parent_number: u32,
    version: u64,
) -> Result<(), NoMemory>
    ensures { OnOk result (steps_of steps.new.items ≡ steps_of steps.old.items ++ Pauses second ∷ Gives (GivesModified (parent_at parent_number version)) ∷ []) }
{
    let mut events = VecDeque::new(alloc);
    events.push_back(Ok(WatchEvent::Modified(parent(alloc, parent_number, version)?)))?;
    steps.push(SequenceStep::Wait(SECOND))?;
    steps.push(SequenceStep::List(events))?;
    Ok(())
}

/// The steps of the root's watch: a change a second, so many times.
///
/// # Errors
///
/// `NoMemory` where memory could not be had.
pub fn changes(
    alloc: Global,
    seed: u64,
    parents: u32,
    count: u32,
) -> Result<Vec<SequenceStep<ScriptObject>>, NoMemory>
    requires { 0 < parents }
    ensures { IfOk result (λ v. steps_of v.items ≡ change_steps seed parents count) }
{
    let mut steps = Vec::new(alloc);
    let mut number = seed;
    for place in 0..count {
        number = next_number(number);
        let version = u64::from(parents) + u64::from(place) + 1;
        push_change(alloc, &mut steps, pick(number, parents), version)?;
    }
    steps.push(SequenceStep::Wait(SILENCE))?;
    Ok(steps)
}

/// The steps of the related watch: silence.
///
/// # Errors
///
/// `NoMemory` where memory could not be had.
pub fn silence(alloc: Global) -> Result<Vec<SequenceStep<ScriptObject>>, NoMemory>
    ensures { IfOk result (λ v. steps_of v.items ≡ quiet_steps) }
{
    let mut steps = Vec::new(alloc);
    steps.push(SequenceStep::Wait(SILENCE))?;
    Ok(steps)
}
