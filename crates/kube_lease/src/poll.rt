//! Polls of a candidate.

ghost use Rattle.std.specs.Prelude.{◌≡◌, ◌≤◌, ◌<◌, ◌^◌, length, IfOk, IfSome, OnErr, map, option_map};
ghost use Rattle.serde_json.specs.View.{view};
ghost use Rattle.kube_api.specs.ObjectTalk.{patch_answer};
ghost use Rattle.kube_api.specs.Patches.{operation_of};
ghost use Rattle.kube_final.specs.FinalizerPolls.{objects_in};
ghost use Rattle.kube_lease.specs.Leases.{Lease, choice};
ghost use Rattle.kube_lease.specs.Polls.{IsAnsweredBy, IsAskedAtMostOnce, IsDone, IsHeld, IsLost, IsPatched, IsPolled, IsSent, IsUnasked, IsUnsent, patch_of};
ghost use Rattle.kube_lease.specs.Reading.{lease_at};

use crate::candidate::{Candidate, LeaseDecision};
use crate::lease::LeaseFault;
use crate::patches::{renewal, taking};
use kube_api::{ApiError, ObjectApi, Patch, PatchAnswer, PatchRefusal};
use kube_meta::{DynamicObject, Moment, NoMemory, Polled, Text};
use std::alloc::Global;

/// What a poll of a candidate comes to.
#[derive(Debug, Drop)]
pub enum LeaseAnswer {
    /// The patch was done: the lease is held in this term until then, and was observed.
    Held { term: u64, until: Moment },
    /// Nothing was sent: another one holds the lease until then, or nothing would last longer.
    Wait { until: Moment },
    /// Nothing was sent: no lease was observed.
    Unseen,
    /// Nothing was sent: there is no term any more.
    LastTerm,
    /// The patch was refused: the lease is not as it was observed, or there is none.
    Lost(PatchRefusal),
    Fault(ApiError),
    /// The patch was done, and the object is no lease: the place is the first that is missing or of another form.
    Malformed(Text),
}

/// Sends a patch.
///
/// Errors: `NoMemory`, and nothing was asked.
fn send<A: ObjectApi<Value = DynamicObject>>(
    alloc: Global,
    api: &mut A,
    name: &Text,
    patch: &[Patch],
    now: Moment,
) -> Result<Polled<PatchAnswer<DynamicObject>>, NoMemory>
    requires { length patch.now < 2 ^ 32 }
    ensures sent { IfOk result (λ a. IsPatched (objects_in A.ObjectApi) name.now (map operation_of patch.now) now.0 api.old (patch_answer a) api.new) }
    ensures unasked { OnErr result (IsUnasked (objects_in A.ObjectApi) api.old api.new) }
    ensures rises { A.faults api.old ≤ A.faults api.new }
{
    let answer = api.patch(alloc, name.as_str(), patch, now)?;
    Ok(answer)
}

impl Candidate {
    // The patch of what it decides on the lease that it observed last, if it has one.
    fn patch(&self, alloc: Global, now: Moment) -> Result<Option<Vec<Patch>>, NoMemory>
        ensures operations { IfOk result (λ p. option_map (λ v. map operation_of v.items) p ≡ patch_of self.now now.0) }
        ensures few { IfOk result (λ p. IfSome p (λ v. length v.items < 2 ^ 32)) }
    {
        let Some(seen) = &self.seen else {
            return Ok(None);
        };
        let until = now.plus(self.duration);
        match self.decide(now) {
            LeaseDecision::Renew => Ok(Some(renewal(alloc, seen, until)?)),
            LeaseDecision::Take => {
                let next = seen.term + 1;
                Ok(Some(taking(alloc, self.id.as_str(), seen, next, until)?))
            }
            LeaseDecision::Unseen | LeaseDecision::Wait { .. } | LeaseDecision::LastTerm => {
                Ok(None)
            }
        }
    }

    // That it holds the lease that it observed last.
    fn held(&self) -> LeaseAnswer
        ensures { (l : Lease) → self.now.seen ≡ Some l → IsHeld l (Polled.Ready result) }
    {
        match &self.seen {
            Some(seen) => LeaseAnswer::Held {
                term: seen.term,
                until: seen.until,
            },
            None => LeaseAnswer::Unseen,
        }
    }

    // Observes the object of a patch that was done.
    fn observe_done(
        &mut self,
        alloc: Global,
        object: &DynamicObject,
    ) -> Result<LeaseAnswer, NoMemory>
        ensures done { IfOk result (λ a. IsDone (lease_at (view object.now.content)) self.old (Polled.Ready a) self.new) }
        ensures left { OnErr result (self.new ≡ self.old) }
    {
        match self.observe(alloc, object) {
            Ok(()) => Ok(self.held()),
            Err(LeaseFault::Malformed(place)) => Ok(LeaseAnswer::Malformed(place)),
            Err(LeaseFault::NoMemory) => Err(NoMemory),
        }
    }

    // What the answer to a patch comes to.
    fn learn(
        &mut self,
        alloc: Global,
        answer: Polled<PatchAnswer<DynamicObject>>,
    ) -> Result<Polled<LeaseAnswer>, NoMemory>
        ensures answered { IfOk result (λ a. IsAnsweredBy (patch_answer answer) self.old a self.new) }
        ensures left { OnErr result (self.new ≡ self.old) }
    {
        match answer {
            Polled::NotReady => Ok(Polled::NotReady),
            Polled::Ready(PatchAnswer::Done(object)) => {
                let object: &DynamicObject = &object;
                let answer = self.observe_done(alloc, object)?;
                Ok(Polled::Ready(answer))
            }
            Polled::Ready(PatchAnswer::Refused(refusal)) => {
                Ok(Polled::Ready(LeaseAnswer::Lost(refusal)))
            }
            Polled::Ready(PatchAnswer::Fault(error)) => {
                Ok(Polled::Ready(LeaseAnswer::Fault(error)))
            }
        }
    }

    // Sends a patch, and learns what it was answered.
    fn ask<A: ObjectApi<Value = DynamicObject>>(
        &mut self,
        alloc: Global,
        api: &mut A,
        patch: &[Patch],
        now: Moment,
    ) -> Result<Polled<LeaseAnswer>, NoMemory>
        requires { length patch.now < 2 ^ 32 }
        ensures sent { IfOk result (λ a. IsSent (objects_in A.ObjectApi) (map operation_of patch.now) now.0 api.old self.old a api.new self.new) }
        ensures rises { A.faults api.old ≤ A.faults api.new }
        ensures left { OnErr result (self.new ≡ self.old) }
        ensures lost { OnErr result (IsAskedAtMostOnce (objects_in A.ObjectApi) self.old.lease (map operation_of patch.now) now.0 api.old api.new) }
    {
        let answer = send(alloc, api, &self.lease, patch, now)?;
        let learnt = self.learn(alloc, answer)?;
        Ok(learnt)
    }

    // What it comes to where nothing is sent.
    fn unsent(&self, now: Moment) -> LeaseAnswer
        ensures { IsUnsent (choice self.now.id self.now.duration now.0 self.now.seen) (Polled.Ready result) }
    {
        match self.decide(now) {
            LeaseDecision::Wait { until } => LeaseAnswer::Wait { until },
            LeaseDecision::LastTerm => LeaseAnswer::LastTerm,
            LeaseDecision::Unseen | LeaseDecision::Renew | LeaseDecision::Take => {
                LeaseAnswer::Unseen
            }
        }
    }

    /// Decides once, and sends the patch that the decision has, if any.
    ///
    /// `NotReady` where the API wasn't ready now: then poll again, which decides anew. A fault of the API is an answer, and
    /// tells nothing of whether the patch was done.
    ///
    /// Errors: `NoMemory`, and the candidate is as before: nothing was asked, or the reply of its one patch is lost.
    pub fn poll<A: ObjectApi<Value = DynamicObject>>(
        &mut self,
        alloc: Global,
        api: &mut A,
        now: Moment,
    ) -> Result<Polled<LeaseAnswer>, NoMemory>
        ensures polled { IfOk result (λ a. IsPolled (objects_in A.ObjectApi) now.0 api.old self.old a api.new self.new) }
        ensures rises { A.faults api.old ≤ A.faults api.new }
        ensures left { OnErr result (self.new ≡ self.old) }
        ensures lost { OnErr result (IsLost (objects_in A.ObjectApi) now.0 self.old api.old api.new) }
    {
        let patch = self.patch(alloc, now)?;
        match patch {
            Some(patch) => {
                let answer = self.ask(alloc, api, patch.as_slice(), now)?;
                Ok(answer)
            }
            None => Ok(Polled::Ready(self.unsent(now))),
        }
    }
}
