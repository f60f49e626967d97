//! What is read of an object, and what is decided on it.

use super::{halves, is_text, owned, with_spec};
use kube_lease::{Candidate, LeaseDecision, LeaseFault, read_lease};
use kube_meta::{DynamicObject, Moment};
use std::alloc::Global;
use std::panic::Expect;
use std::process::Abort;
use std::rt::HostRuntime;

/// A spec; the lease that it is, or the first place at which it is none.
const READ: &str = r#"{"holder":"x","term":1,"until":2} | x 1 2
{"until":18446744073709551615,"term":0,"holder":""} |  0 18446744073709551615
{} | /spec/holder
[] | /spec/holder
{"holder":1,"term":"1","until":2} | /spec/holder
{"holder":"x","term":-1} | /spec/term
{"holder":"x","term":1} | /spec/until
{"holder":"x","term":1,"until":"2"} | /spec/until"#;

fn read(rt: &impl Abort, alloc: Global, object: &DynamicObject) -> String {
    match read_lease(alloc, object) {
        Ok(lease) => {
            let (term, until) = (lease.term, lease.until.0);
            format!(in alloc; "{} {term} {until}", lease.holder).expect(rt, "memory")
        }
        Err(LeaseFault::Malformed(place)) => owned(rt, alloc, place.as_str()),
        Err(LeaseFault::NoMemory) => owned(rt, alloc, "no memory"),
    }
}

#[test]
fn leases_of_objects(rt: HostRuntime) {
    for line in READ.split('\n') {
        let (spec, wanted) = halves(line);
        let object = with_spec(&rt, rt.alloc(), spec);
        let read = read(&rt, rt.alloc(), &object);
        is_text(&rt, read.as_str(), wanted);
    }
}

/// A spec that x observes, which holds a lease for 10; what it decides at 7. In order: it is free; another one's, and over; another
/// one's, and not over; x's own, which a renewal makes last longer, or doesn't; free, and its term the last.
const DECIDED: &str = r#"{"holder":"","term":0,"until":0} | take
{"holder":"y","term":3,"until":7} | take
{"holder":"y","term":3,"until":8} | wait 8
{"holder":"x","term":3,"until":2} | renew
{"holder":"x","term":3,"until":17} | wait 17
{"holder":"y","term":18446744073709551615,"until":7} | last term"#;

fn decided(rt: &impl Abort, alloc: Global, object: &DynamicObject) -> String {
    let mut candidate = Candidate::new(alloc, "x", "lease", 10).expect(rt, "memory");
    candidate.observe(alloc, object).expect(rt, "a lease");
    match candidate.decide(Moment(7)) {
        LeaseDecision::Unseen => owned(rt, alloc, "unseen"),
        LeaseDecision::Renew => owned(rt, alloc, "renew"),
        LeaseDecision::Wait { until } => {
            format!(in alloc; "wait {}", until.0).expect(rt, "memory")
        }
        LeaseDecision::LastTerm => owned(rt, alloc, "last term"),
        LeaseDecision::Take => owned(rt, alloc, "take"),
    }
}

#[test]
fn decisions_on_leases(rt: HostRuntime) {
    for line in DECIDED.split('\n') {
        let (spec, wanted) = halves(line);
        let object = with_spec(&rt, rt.alloc(), spec);
        let decided = decided(&rt, rt.alloc(), &object);
        is_text(&rt, decided.as_str(), wanted);
    }
}
