//! Waits over a scripted API.

ghost use Rattle.std.specs.Prelude.{◌≡◌, false, Option};
ghost use Rattle.kube_meta.specs.declared.dynamic.DynamicObject.{DynamicObject as Object};

use super::{fault, halves, is_text, owned, with_metadata};
use kube_api::{ApiError, Page, ResultPage, Sequence, SequenceStep, TestMode, WatchEvent};
use kube_final::conditions::{is_created, is_deleted};
use kube_final::wait::{AwaitCondition, Condition, Error};
use kube_meta::{DynamicObject, Moment, Next};
use std::alloc::Global;
use std::collections::VecDeque;
use std::panic::Expect;
use std::process::Abort;
use std::rt::HostRuntime;
use std::sync::Arc;

type Listed = Result<Page<DynamicObject>, ApiError>;

/// The object of a uid.
fn shared(rt: &impl Abort, alloc: Global, uid: &str) -> Arc<DynamicObject> {
    let metadata = format!(in alloc;
        "{{\"name\":\"a\",\"uid\":\"{uid}\",\"resourceVersion\":\"2\"}}"
    ).expect(rt, "memory");
    let object = with_metadata(rt, alloc, metadata.as_str());
    Arc::new(alloc, object).expect(rt, "memory")
}

/// The object of a uid; none where that is `none`.
fn objects(rt: &impl Abort, alloc: Global, uid: &str) -> Vec<Arc<DynamicObject>> {
    let mut objects = Vec::new(alloc);
    if uid != "none" {
        objects.push(shared(rt, alloc, uid)).expect(rt, "memory");
    }
    objects
}

/// A page of the object of a uid, and version 1; a fault where the uid is `fault`.
fn listed(rt: &impl Abort, alloc: Global, uid: &str) -> Listed {
    if uid == "fault" {
        return Err(fault(rt, alloc));
    }
    let page = ResultPage::empty(alloc)
        .resource_version(alloc, Some("1"))
        .expect(rt, "memory");
    Ok(page.items(objects(rt, alloc, uid)).into_page())
}

/// A watch that tells that the object `uid-1` is deleted, and then waits.
fn watched(rt: &impl Abort, alloc: Global) -> Sequence<DynamicObject> {
    let mut events = VecDeque::new(alloc);
    events
        .push_back(Ok(WatchEvent::Deleted(shared(rt, alloc, "uid-1"))))
        .expect(rt, "memory");
    let steps = vec![in alloc; SequenceStep::List(events), SequenceStep::Wait(1000)];
    Sequence::new(steps.expect(rt, "memory"))
}

/// An API whose first list has the object of a uid, and whose watch deletes the object `uid-1`.
pub fn api(rt: &impl Abort, alloc: Global, uid: &str) -> TestMode<DynamicObject> {
    let lists = vec![in alloc; listed(rt, alloc, uid)].expect(rt, "memory");
    let watches = vec![in alloc; watched(rt, alloc)].expect(rt, "memory");
    TestMode::new(alloc, lists, watches)
}

fn shown(
    rt: &impl Abort,
    alloc: Global,
    found: &Next<Result<Option<Arc<DynamicObject>>, Error>>,
) -> String {
    match found {
        Next::Item(Ok(Some(_object))) => owned(rt, alloc, "object"),
        Next::Item(Ok(None)) => owned(rt, alloc, "none"),
        Next::Item(Err(error)) => format!(in alloc; "{error}").expect(rt, "memory"),
        Next::Spent => owned(rt, alloc, "spent"),
        Next::NotReady | Next::End => owned(rt, alloc, "another answer"),
    }
}

/// What one poll of a wait gives.
fn polled<C: Condition<DynamicObject>>(
    rt: &impl Abort,
    alloc: Global,
    wait: &mut AwaitCondition<TestMode<DynamicObject>, C>,
    fuel: u32,
) -> String
    requires unready { wait.old.is_over ≡ false }
    requires may { (object : Option Object) → C.may wait.old.condition object }
{
    let found = wait
        .poll(alloc, Moment(0), fuel.max(1))
        .expect(rt, "memory");
    shown(rt, alloc, &found)
}

/// What a wait over an API gives, whose first list has the object of a uid.
fn awaited<C: Condition<DynamicObject>>(
    rt: &impl Abort,
    alloc: Global,
    uid: &str,
    condition: C,
    fuel: u32,
) -> String
    requires may { (object : Option Object) → C.may condition object }
{
    let api = api(rt, alloc, uid);
    let mut wait = AwaitCondition::new(alloc, api, "a", condition).expect(rt, "memory");
    polled(rt, alloc, &mut wait, fuel)
}

/// The uid of the object of the first list, fuel, and what a wait for an object and one for its end come to.
const WAITS: &str = "\
uid-1 | 1 | object | spent
uid-1 | 2 | object | spent
uid-1 | 3 | object | none
uid-2 | 1 | object | object
none | 1 | spent | none
fault | 9 | failed to probe for whether the condition is fulfilled yet: failed to perform initial object list: torn | failed to probe for whether the condition is fulfilled yet: failed to perform initial object list: torn";

/// A row is so.
fn waits(rt: &impl Abort, alloc: Global, line: &str) {
    let (uid, rest) = halves(line);
    let (number, rest) = halves(rest);
    let (created, gone) = halves(rest);
    let fuel = number.parse().unwrap_or(1);
    let answer = awaited(rt, alloc, uid, is_created(), fuel);
    is_text(rt, answer.as_str(), created);
    let answer = awaited(rt, alloc, uid, is_deleted("uid-1"), fuel);
    is_text(rt, answer.as_str(), gone);
}

#[test]
fn waits_for_an_object(rt: HostRuntime) {
    for line in WAITS.split('\n') {
        waits(&rt, rt.alloc(), line);
    }
}
