//! Candidates: who may lead (in place of client-go's `LeaderElector`).

ghost use Rattle.std.specs.Prelude.{◌≡◌, [], IfOk, IfErr, OnOk, OnErr};
ghost use Rattle.serde_json.specs.View.{view};
ghost use Rattle.kube_lease.specs.Leases.{choice, choice_on, choice_of_holder, choice_of_other};
ghost use Rattle.kube_lease.specs.Reading.{IsFaultOf, lease_at, lease_of};
ghost use Rattle.kube_lease.specs.Candidates.{choice_in, greater as greater_of, IsObserved, is_above as is_above_in, may_act_at, standing};

use crate::lease::{LeaseFault, LeaseView, read_lease};
use kube_meta::{DynamicObject, Moment, NoMemory, Text};
use std::alloc::Global;
use std::marker::Model;

/// What a candidate does about a lease.
#[derive(Clone, Copy, Debug, PartialEq, Eq)]
pub enum LeaseDecision {
    /// It has observed no lease.
    Unseen,
    /// It holds the lease and makes it last longer.
    Renew,
    /// Another one holds it until then, or it itself and nothing would last longer.
    Wait { until: Moment },
    /// The lease is free and its term the greatest `u64`, so there is none to take.
    LastTerm,
    /// The lease is free.
    Take,
}

/// A term, and the moment up to which its holder may act.
#[derive(Clone, Copy, Debug)]
pub(crate) struct Claim {
    pub term: u64,
    pub until: u64,
}

fn is_above(a: Claim, b: Claim) -> bool
    ensures { result ≡ is_above_in a b }
{
    a.term > b.term || (a.term == b.term && a.until > b.until)
}

fn greater(a: Option<Claim>, b: Claim) -> Claim
    ensures { result ≡ greater_of a b }
{
    match a {
        Some(a) if is_above(a, b) => a,
        _ => b,
    }
}

/// A candidate for the lease of a name.
///
/// It reads no clock: `now` is the server's moment. One behind it would let a candidate act past its claim.
#[derive(Drop)]
pub struct Candidate {
    pub(crate) id: Text,
    pub(crate) lease: Text,
    pub(crate) duration: u64,
    pub(crate) seen: Option<LeaseView>,
    pub(crate) claim: Option<Claim>,
}

impl Model for Candidate {
    ghost use Rattle.std.specs.Option.{option_map};
    ghost use Rattle.kube_lease.specs.Reading.{lease_of};
    ghost use Rattle.kube_lease.specs.Candidates.{Standing};

    ghost Value = { Standing };

    ghost view = { λ c. record { id = c.id; lease = c.lease; duration = c.duration; seen = option_map lease_of c.seen; claim = c.claim } };
}

/// What is decided on a lease.
fn decide_on(id: &str, duration: u64, now: Moment, seen: &LeaseView) -> LeaseDecision
    ensures { choice_in result ≡ choice_on id.now duration now.0 (lease_of seen.now) }
{
    if seen.holder.as_str() == id {
        return decide_as_holder(duration, now, seen);
    }
    decide_as_other(now, seen)
}

fn decide_as_holder(duration: u64, now: Moment, seen: &LeaseView) -> LeaseDecision
    ensures { choice_in result ≡ choice_of_holder duration now.0 (lease_of seen.now) }
{
    if seen.until.0 < now.plus(duration).0 {
        return LeaseDecision::Renew;
    }
    LeaseDecision::Wait { until: seen.until }
}

fn decide_as_other(now: Moment, seen: &LeaseView) -> LeaseDecision
    ensures { choice_in result ≡ choice_of_other now.0 (lease_of seen.now) }
{
    if now.0 < seen.until.0 {
        return LeaseDecision::Wait { until: seen.until };
    }
    if seen.term == u64::MAX {
        return LeaseDecision::LastTerm;
    }
    LeaseDecision::Take
}

impl Candidate {
    /// A candidate of an id, which no other one has, for the lease of a name. It holds the lease for `duration` nanoseconds from
    /// each moment at which it takes or renews it.
    ///
    /// Errors: `NoMemory`.
    pub fn new(alloc: Global, id: &str, lease: &str, duration: u64) -> Result<Candidate, NoMemory>
        requires { id.now ≡ [] → ⊥ }
        ensures { IfOk result (λ c. c ≡ standing id.now lease.now duration) }
    {
        Ok(Candidate {
            id: Text::new(alloc, id)?,
            lease: Text::new(alloc, lease)?,
            duration,
            seen: None,
            claim: None,
        })
    }

    /// Observes the lease as it was at some moment. Where this candidate held it then, its claim is the greater of this one and
    /// that of before, by term, then by `until`.
    ///
    /// Errors: `Malformed` where the object is no lease, and `NoMemory`; the candidate is then as before.
    pub fn observe(&mut self, alloc: Global, object: &DynamicObject) -> Result<(), LeaseFault>
        ensures observed { OnOk result (IsObserved (lease_at (view object.now.content)) self.old self.new) }
        ensures fault { IfErr result (λ e. IsFaultOf (lease_at (view object.now.content)) e) }
        ensures left { OnErr result (self.new ≡ self.old) }
    {
        let seen = read_lease(alloc, object)?;
        if seen.holder.as_str() == self.id.as_str() {
            let claim = Claim {
                term: seen.term,
                until: seen.until.0,
            };
            self.claim = Some(greater(self.claim, claim));
        }
        self.seen = Some(seen);
        Ok(())
    }

    /// What it does at a moment about the lease that it observed last.
    pub fn decide(&self, now: Moment) -> LeaseDecision
        ensures { choice_in result ≡ choice self.now.id self.now.duration now.0 self.now.seen }
    {
        match &self.seen {
            Some(seen) => decide_on(self.id.as_str(), self.duration, now, seen),
            None => LeaseDecision::Unseen,
        }
    }

    /// Whether it leads at a moment: it has a claim that lasts past it.
    pub fn may_act(&self, now: Moment) -> bool
        ensures { result ≡ may_act_at self.now.claim now.0 }
    {
        match self.claim {
            Some(claim) => now.0 < claim.until,
            None => false,
        }
    }
}
