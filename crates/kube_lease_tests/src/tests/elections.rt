//! The worked elections, played on a server.

ghost use Rattle.std.specs.Prelude.{◌≡◌, ◌++◌};
ghost use Rattle.kube_lease.specs.Rows.{both as both_of, lost_reply, observed_at_3, renewed_at_5, taken_at_15, tried_at_10};

use super::{is_text, text};
use kube_lease::laws::{Entrant, LeaseStep, PlayedElection, one_holder, play};
use kube_lease::read_lease;
use kube_lease::rows::{
    candidates_are_entrants, lost_reply_gives_no_claim, renewal_keeps_the_lease,
};
use kube_meta::Moment;
use std::alloc::Global;
use std::panic::Expect;
use std::process::Abort;
use std::rt::HostRuntime;

fn both(rt: &impl Abort, alloc: Global) -> Vec<Entrant>
    ensures { result.items ≡ both_of }
{
    let x = Entrant {
        id: text(rt, alloc, "x"),
        duration: 10,
    };
    let y = Entrant {
        id: text(rt, alloc, "y"),
        duration: 10,
    };
    vec![in alloc; x, y].expect(rt, "memory")
}

fn observe(candidate: u32, state: u32) -> LeaseStep
    ensures { result ≡ LeaseStep.Observe candidate state }
{
    LeaseStep::Observe { candidate, state }
}

fn reply(candidate: u32, send: u32) -> LeaseStep
    ensures { result ≡ LeaseStep.Reply candidate send }
{
    LeaseStep::Reply { candidate, send }
}

fn send(candidate: u32) -> LeaseStep
    ensures { result ≡ LeaseStep.Send candidate }
{
    LeaseStep::Send { candidate }
}

fn arrive(send: u32) -> LeaseStep
    ensures { result ≡ LeaseStep.Arrive send }
{
    LeaseStep::Arrive { send }
}

fn tick(by: u64) -> LeaseStep
    ensures { result ≡ LeaseStep.Tick by }
{
    LeaseStep::Tick { by }
}

fn renewal(rt: &impl Abort, alloc: Global) -> Vec<LeaseStep>
    ensures { result.items ≡ renewed_at_5 ++ tried_at_10 ++ taken_at_15 }
{
    let steps = vec![in alloc;
        observe(0, 0),
        send(0),
        arrive(0),
        reply(0, 0),
        observe(1, 1),
        tick(5),
        send(0),
        arrive(1),
        reply(0, 1),
        tick(5),
        send(1),
        arrive(2),
        tick(5),
        observe(1, 2),
        send(1),
        arrive(3),
        reply(1, 3),
    ];
    steps.expect(rt, "memory")
}

fn loss(rt: &impl Abort, alloc: Global) -> Vec<LeaseStep>
    ensures { result.items ≡ lost_reply ++ observed_at_3 }
{
    let steps = vec![in alloc; observe(0, 0), send(0), arrive(0), tick(3), observe(0, 1)];
    steps.expect(rt, "memory")
}

/// An election in which the second candidate takes the lease once it has observed the renewal.
fn renewed(rt: &impl Abort, alloc: Global) -> PlayedElection {
    let entrants = both(rt, alloc);
    let election = renewal(rt, alloc);
    candidates_are_entrants();
    renewal_keeps_the_lease();
    one_holder(entrants.as_slice(), election.as_slice());
    play(alloc, entrants.as_slice(), election.as_slice()).expect(rt, "memory")
}

/// An election in which the first candidate observes that it holds the lease, since its reply is lost.
fn lost(rt: &impl Abort, alloc: Global) -> PlayedElection {
    let entrants = both(rt, alloc);
    let election = loss(rt, alloc);
    candidates_are_entrants();
    lost_reply_gives_no_claim();
    play(alloc, entrants.as_slice(), election.as_slice()).expect(rt, "memory")
}

/// Whether the candidate of a number may act at a moment.
fn acts(played: &PlayedElection, number: usize, now: u64) -> bool {
    match played.candidates.as_slice().get(number) {
        Some(candidate) => candidate.may_act(Moment(now)),
        None => false,
    }
}

/// The lease, and who may act at a moment.
fn shown(rt: &impl Abort, alloc: Global, played: &PlayedElection, now: u64) -> String {
    let lease = read_lease(alloc, &played.lease).expect(rt, "a lease");
    let (x, y) = (acts(played, 0, now), acts(played, 1, now));
    let (term, until) = (lease.term, lease.until.0);
    format!(in alloc; "{} {term} {until}: {x} {y}", lease.holder).expect(rt, "memory")
}

#[test]
fn elections_that_are_played(rt: HostRuntime) {
    let alloc = rt.alloc();
    let renewed = renewed(&rt, alloc);
    let shown_at_15 = shown(&rt, alloc, &renewed, 15);
    is_text(&rt, shown_at_15.as_str(), "y 2 25: false true");
    let lost = lost(&rt, alloc);
    let shown_at_9 = shown(&rt, alloc, &lost, 9);
    is_text(&rt, shown_at_9.as_str(), "x 1 10: true false");
}
