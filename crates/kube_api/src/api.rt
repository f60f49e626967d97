//! An API of lists and watches (kube-runtime's `watcher::ApiMode`).

use crate::event::{Page, WatchEvent};
use kube_meta::{Moment, NoMemory, Polled, Resource};
use kube_model::error::ApiError;
use kube_model::params::{ListParams, WatchParams};
use std::alloc::Global;

/// An API of lists and watches of one type of objects.
///
/// The open watch lives in the value: a watch call that opens closes the old one. Want of memory takes nothing
/// from what the API tells.
pub trait ApiMode: Drop {
    ghost use Rattle.std.specs.Prelude.{ℕ, List, Option, None, IfOk, OnErr, ⊤, ◌≡◌, ◌≤◌, ◌-◌, ◌^◌};
    ghost use Rattle.kube_model.specs.Raw.{Raw, grown, ListAsked, WatchAsked, NextAsked, Ends, FaultRose, IsNeverOpened, is_fault};
    ghost use Rattle.kube_api.specs.Answers.{list_answer, watch_answer, next_answer, is_watch_fault};

    /// The type of the objects.
    type Value: Resource;

    /// The calls so far with their answers, where the API tells them. Where it doesn't say so it tells none.
    ghost talk: { Self → Option (List (Raw Self.Value)) } = { λ _. None };

    /// How often a call failed. Where it doesn't say so the count stands at its end, at which it need not rise.
    ghost faults: { Self → ℕ } = { λ _. 2 ^ 64 - 1 };

    /// What a call with its answer, at a moment in nanoseconds, makes of the API, where it says so: the API before it, the
    /// moment, the call with its answer, the API after it. Where it doesn't say so that may be anything.
    ghost moves: { Self → ℕ → Raw Self.Value → Self → Type 0 } = { λ _ _ _ _. ⊤ };

    /// A page of a list.
    ///
    /// Errors: `NoMemory`, and the API has told nothing. A fault of the API is an answer.
    fn list(
        &mut self,
        alloc: Global,
        params: &ListParams,
        now: Moment,
    ) -> Result<Polled<Result<Page<Self::Value>, ApiError>>, NoMemory>
        ensures grows { IfOk result (λ a. talk self.new ≡ grown (talk self.old) (record { call = ListAsked params.now; answer = list_answer a })) }
        ensures unchanged { OnErr result (talk self.new ≡ talk self.old) }
        ensures moves { IfOk result (λ a. moves self.old now.0 (record { call = ListAsked params.now; answer = list_answer a }) self.new) }
        ensures faults { IfOk result (λ a. FaultRose (is_fault (list_answer a)) (faults self.old) (faults self.new)) }
        ensures rises { faults self.old ≤ faults self.new };

    /// A watch from a version, which takes the place of the open one.
    ///
    /// Errors: `NoMemory`, and the API has told nothing; the open watch stays. A fault of the API is an answer.
    fn watch(
        &mut self,
        alloc: Global,
        params: &WatchParams,
        version: &str,
        now: Moment,
    ) -> Result<Polled<Result<(), ApiError>>, NoMemory>
        ensures grows { IfOk result (λ a. talk self.new ≡ grown (talk self.old) (record { call = WatchAsked params.now version.now; answer = watch_answer a })) }
        ensures unchanged { OnErr result (talk self.new ≡ talk self.old) }
        ensures moves { IfOk result (λ a. moves self.old now.0 (record { call = WatchAsked params.now version.now; answer = watch_answer a }) self.new) }
        ensures faults { IfOk result (λ a. FaultRose (is_watch_fault a) (faults self.old) (faults self.new)) }
        ensures rises { faults self.old ≤ faults self.new };

    /// The next event of the open watch; none where it is over, or where no watch was opened.
    ///
    /// Errors: `NoMemory`, and the API has told nothing. A fault of the API is an answer.
    fn next(
        &mut self,
        alloc: Global,
        now: Moment,
    ) -> Result<Polled<Option<Result<WatchEvent<Self::Value>, ApiError>>>, NoMemory>
        ensures grows { IfOk result (λ a. talk self.new ≡ grown (talk self.old) (record { call = NextAsked; answer = next_answer a })) }
        ensures unchanged { OnErr result (talk self.new ≡ talk self.old) }
        ensures moves { IfOk result (λ a. moves self.old now.0 (record { call = NextAsked; answer = next_answer a }) self.new) }
        ensures never_opened { IsNeverOpened (talk self.old) → IfOk result (λ a. next_answer a ≡ Ends) }
        ensures faults { IfOk result (λ a. FaultRose (is_fault (next_answer a)) (faults self.old) (faults self.new)) }
        ensures rises { faults self.old ≤ faults self.new };
}
