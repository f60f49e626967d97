//! How errors are shown.

use kube_reflect::{InitDropped, OfferError, WriteError, WriterDropped};
use std::alloc::Global;
use std::fmt::Display;
use std::panic::Expect;
use std::process::Abort;

fn check<E: Display>(rt: &impl Abort, alloc: Global, error: &E, wanted: &str) {
    let shown = format!(in alloc; "{error}").expect(rt, "memory");
    assert_eq!(rt; shown.as_str(), wanted);
}

#[test]
fn errors_are_shown(rt: HostRuntime) {
    let alloc = rt.alloc();
    check(&rt, alloc, &OfferError::Full, "a subscriber lags behind");
    check(&rt, alloc, &WriteError::Unnamed, "object has no name");
    check(
        &rt,
        alloc,
        &WriterDropped,
        "writer was dropped before store became ready",
    );
    check(
        &rt,
        alloc,
        &InitDropped,
        "initializer was dropped before value was initialized",
    );
}
