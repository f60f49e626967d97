//! Events.

use super::script::object;
use kube_meta::DynamicObject;
use kube_watch::Event;
use std::alloc::Global;
use std::panic::Expect;
use std::process::Abort;
use std::sync::Arc;

/// How an event is shown, and how its copy is.
fn shown_with_copy(rt: &impl Abort, alloc: Global, event: &Event<Arc<DynamicObject>>) -> String {
    let copy = event.copy().expect(rt, "memory");
    format!(in alloc; "{event}, {copy}").expect(rt, "memory")
}

/// The same of one that ends with it.
fn shown_twice(rt: &impl Abort, alloc: Global, event: Event<Arc<DynamicObject>>) -> String {
    shown_with_copy(rt, alloc, &event)
}

#[test]
fn events_are_shown_by_kind_and_name(rt: HostRuntime) {
    let alloc = rt.alloc();
    let object = object(&rt, alloc, "a", "1");
    let shown = shown_twice(&rt, alloc, Event::InitApply(object));
    assert_eq!(rt; shown.as_str(), "InitApply(a), InitApply(a)");
}
