//! What a watch of a scripted API gives.

ghost use Rattle.std.specs.Prelude.{◌≡◌, []};
ghost use Rattle.kube_api.specs.Sequences.{steps_of};

use crate::event::WatchEvent;
use kube_model::error::ApiError;
use std::alloc::Global;
use std::collections::VecDeque;
use std::marker::Model;

/// A step of a watch.
#[derive(Drop)]
pub enum SequenceStep<K: Drop> {
    /// Events that come one by one, and calls that fail.
    List(VecDeque<Result<WatchEvent<K>, ApiError>>),
    /// Nothing comes for so many nanoseconds from the poll that meets this step.
    Wait(u64),
}

/// The steps of one watch (those of kube-runtime's `TestMode`).
#[derive(Drop)]
pub struct Sequence<K: Drop> {
    steps: Vec<SequenceStep<K>>,
}

impl<K: Drop> Model for Sequence<K> {
    ghost use Rattle.std.specs.Prelude.{List};
    ghost use Rattle.kube_api.specs.TestScript.{Step};
    ghost use Rattle.kube_api.specs.Sequences.{steps_of};

    ghost Value = { List (Step K) };

    ghost view = { λ s. steps_of s.steps.items };
}

impl<K: Drop> Sequence<K> {
    /// A watch with these steps.
    pub fn new(steps: Vec<SequenceStep<K>>) -> Sequence<K>
        ensures { result ≡ steps_of steps.items }
    {
        Sequence { steps }
    }

    /// A watch that is over at once.
    pub fn default(alloc: Global) -> Sequence<K>
        ensures { result ≡ [] }
    {
        Sequence {
            steps: Vec::new(alloc),
        }
    }

    /// Its steps.
    pub(crate) fn into_steps(self) -> Vec<SequenceStep<K>>
        ensures { steps_of result.items ≡ self }
    {
        let Sequence { steps } = self;
        steps
    }
}
