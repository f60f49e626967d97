//! An open watch of a scripted API.

ghost use Rattle.std.specs.Prelude.{◌≡◌, IfOk, Some, drop};
ghost use Rattle.kube_api.specs.Answers.{next_answer};
ghost use Rattle.kube_api.specs.TestScript.{just_opened, poll_watch, IsSilent};
ghost use Rattle.kube_api.specs.Ready.{IsNotReady};
ghost use Rattle.kube_api.specs.Places.{left_at, is_over, Stands};

use crate::copies::copy_given;
use crate::event::WatchEvent;
use crate::place::Place;
use crate::sequence::{Sequence, SequenceStep};
use kube_meta::{Moment, NoMemory, Polled};
use kube_model::error::ApiError;
use std::alloc::Global;
use std::marker::Model;

/// Whether a step has no answer left at a moment.
fn is_over_at<K: Drop>(step: &SequenceStep<K>, place: Place, now: Moment) -> bool
    ensures { result ≡ is_over now.0 place step.now }
{
    match step {
        SequenceStep::List(events) => events.len() <= place.given,
        SequenceStep::Wait(nanos) => *nanos <= now.0.saturating_sub(place.since.unwrap_or(now.0)),
    }
}

/// The first place from here whose step is not over at a moment.
fn settled<K: Drop>(steps: &[SequenceStep<K>], from: Place, now: Moment) -> Place
    ensures same { poll_watch now.0 (left_at steps.now result) ≡ poll_watch now.0 (left_at steps.now from) }
    ensures stands { Stands now.0 result (drop result.step steps.now) }
{
    let mut place = from;
    while place.step < steps.len() && is_over_at(&steps[place.step], place, now) {
        place = Place::before(place.step + 1);
    }
    place
}

/// The answer at a place whose step is not over.
fn answer_at<K: Drop>(
    alloc: Global,
    steps: &[SequenceStep<K>],
    place: Place,
    now: Moment,
) -> Result<Polled<Option<Result<WatchEvent<K>, ApiError>>>, NoMemory>
    requires { Stands now.0 place (drop place.step steps.now) }
    ensures answer { IfOk result (λ a. next_answer a ≡ (poll_watch now.0 (left_at steps.now place)).answer) }
    ensures silent { IfOk result (λ a. IsNotReady a → IsSilent now.0 (Some (poll_watch now.0 (left_at steps.now place)).left)) }
{
    if place.step >= steps.len() {
        return Ok(Polled::Ready(None));
    }
    match &steps[place.step] {
        SequenceStep::List(events) => {
            let event = copy_given(alloc, &events[place.given])?;
            Ok(Polled::Ready(Some(event)))
        }
        SequenceStep::Wait(_) => Ok(Polled::NotReady),
    }
}

/// The place after the answer at a place whose step is not over.
fn place_after<K: Drop>(steps: &[SequenceStep<K>], place: Place, now: Moment) -> Place
    requires { Stands now.0 place (drop place.step steps.now) }
    ensures { left_at steps.now result ≡ (poll_watch now.0 (left_at steps.now place)).left }
{
    if place.step >= steps.len() {
        return place;
    }
    match &steps[place.step] {
        SequenceStep::List(_) => Place {
            given: place.given + 1,
            ..place
        },
        SequenceStep::Wait(_) => Place {
            since: Some(place.since.unwrap_or(now.0)),
            ..place
        },
    }
}

/// A watch that was opened.
#[derive(Drop)]
pub struct OpenWatch<K: Drop> {
    steps: Vec<SequenceStep<K>>,
    place: Place,
}

impl<K: Drop> Model for OpenWatch<K> {
    ghost use Rattle.kube_api.specs.TestScript.{OpenedWatch};

    ghost Value = { OpenedWatch K };

    ghost use Rattle.kube_api.specs.Places.{left_at};

    ghost view = { λ w. left_at w.steps.items w.place };
}

impl<K: Drop> OpenWatch<K> {
    /// A watch of which nothing was given yet.
    pub fn open(sequence: Sequence<K>) -> OpenWatch<K>
        ensures { result ≡ just_opened sequence }
    {
        OpenWatch {
            steps: sequence.into_steps(),
            place: Place::before(0),
        }
    }

    /// What the next poll is answered, if it comes at this moment.
    pub fn answer(
        &self,
        alloc: Global,
        now: Moment,
    ) -> Result<Polled<Option<Result<WatchEvent<K>, ApiError>>>, NoMemory>
        ensures answer { IfOk result (λ a. next_answer a ≡ (poll_watch now.0 self.now).answer) }
        ensures silent { IfOk result (λ a. IsNotReady a → IsSilent now.0 (Some (poll_watch now.0 self.now).left)) }
    {
        let steps = self.steps.as_slice();
        answer_at(alloc, steps, settled(steps, self.place, now), now)
    }

    /// Goes past what was answered at this moment.
    pub fn advance(&mut self, now: Moment)
        ensures { self.new ≡ (poll_watch now.0 self.old).left }
    {
        let steps = self.steps.as_slice();
        self.place = place_after(steps, settled(steps, self.place, now), now);
    }
}
