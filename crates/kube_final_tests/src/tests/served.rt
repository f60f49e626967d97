//! Finalizers and deletions over the objects of a server.

ghost use Rattle.std.specs.Prelude.{◌≡◌, false, true, IfOk};
ghost use Rattle.kube_watch.specs.Stands.{api_of};
ghost use Rattle.kube_server.specs.Connections.{IsSameLog};
ghost use Rattle.kube_server.specs.History.{IsLater};

use super::waits::api;
use super::{Torn, halves, is_text, owned, with_metadata};
use kube_api::TestMode;
use kube_final::delete;
use kube_final::delete::DeleteAndFinalize;
use kube_final::finalizer::{Error, Event, Finalizer};
use kube_meta::{Action, ApiResource, DynamicObject, Moment, Next, NoMemory, ObjectRef, Polled};
use kube_server::{Conn, Server, ServerObjects};
use std::alloc::Global;
use std::panic::Expect;
use std::process::Abort;
use std::rt::HostRuntime;
use std::sync::Arc;

fn resource(rt: &impl Abort, alloc: Global) -> Arc<ApiResource> {
    let resource = ApiResource::new(alloc, "", "v1", "ConfigMap", "configmaps");
    Arc::new(alloc, resource.expect(rt, "memory")).expect(rt, "memory")
}

fn key(rt: &impl Abort, alloc: Global) -> ObjectRef<DynamicObject> {
    let resource = resource(rt, alloc);
    ObjectRef::new_with(alloc, "x", resource).expect(rt, "memory")
}

fn remove(rt: &impl Abort, alloc: Global, server: &mut Server)
    ensures { IsLater server.old.changes server.new.changes server.old.compacted server.new.compacted }
{
    let key = key(rt, alloc);
    server.remove(alloc, &key).expect(rt, "it is there");
}

/// Puts the object of metadata as JSON; takes it away where that is `gone`, and leaves all as it is where it is `-`.
fn put(rt: &impl Abort, alloc: Global, server: &mut Server, metadata: &str) {
    match metadata {
        "-" => {}
        "gone" => remove(rt, alloc, server),
        _ => {
            let object = with_metadata(rt, alloc, metadata);
            server.put(alloc, object).expect(rt, "it has a name");
        }
    }
}

/// How many finalizers the object has on the server.
fn left(rt: &impl Abort, alloc: Global, server: &Server) -> Option<usize> {
    let key = key(rt, alloc);
    let object = server.get(alloc, &key).expect(rt, "memory")?;
    match &object.metadata.finalizers {
        Some(names) => Some(names.len()),
        None => Some(0),
    }
}

/// A finalizer of the object as the server has it.
fn guarded(rt: &impl Abort, alloc: Global, server: &Server) -> Finalizer<DynamicObject>
    ensures { result.is_over ≡ false }
{
    let key = key(rt, alloc);
    let held = server.get(alloc, &key).expect(rt, "memory");
    let object = held.expect(rt, "it is there").clone().expect(rt, "memory");
    Finalizer::new(alloc, "f", object).expect(rt, "memory")
}

fn action_text(rt: &impl Abort, alloc: Global, action: &Action) -> String {
    match action.requeue_after() {
        Some(nanos) => format!(in alloc; "after {nanos}").expect(rt, "memory"),
        None => owned(rt, alloc, "after change"),
    }
}

fn shown(rt: &impl Abort, alloc: Global, answer: &Polled<Result<Action, Error<Torn>>>) -> String {
    match answer {
        Polled::NotReady => owned(rt, alloc, "not ready"),
        Polled::Ready(Ok(action)) => action_text(rt, alloc, action),
        Polled::Ready(Err(error)) => format!(in alloc; "{error}").expect(rt, "memory"),
    }
}

/// How a branch ends: `ok`, `err`, or not yet.
fn branch_of(branch: &str) -> Option<Result<Action, Torn>> {
    match branch {
        "ok" => Some(Ok(Action::requeue(7))),
        "err" => Some(Err(Torn)),
        _ => None,
    }
}

/// What a poll over the objects of a server comes to.
fn polled(
    rt: &impl Abort,
    alloc: Global,
    finalizer: &mut Finalizer<DynamicObject>,
    objects: &mut ServerObjects<'_>,
    branch: &str,
) -> String
    requires unready { finalizer.old.is_over ≡ false }
{
    let answer = finalizer
        .poll(alloc, objects, branch_of(branch), Moment(5))
        .expect(rt, "memory");
    shown(rt, alloc, &answer)
}

/// What a poll over the server comes to.
fn polled_over(
    rt: &impl Abort,
    alloc: Global,
    finalizer: &mut Finalizer<DynamicObject>,
    server: &mut Server,
    branch: &str,
) -> String
    requires unready { finalizer.old.is_over ≡ false }
{
    let mut objects = server.objects_in(alloc, None).expect(rt, "memory");
    polled(rt, alloc, finalizer, &mut objects, branch)
}

/// The branch that is owed.
fn owed(rt: &impl Abort, finalizer: &Finalizer<DynamicObject>) -> &'static str {
    match finalizer.event().expect(rt, "memory") {
        Some(Event::Apply(_)) => "apply",
        Some(Event::Cleanup(_)) => "cleanup",
        None => "none",
    }
}

/// What the object is when it is seen; what another party makes of it then; the branch; and what comes of that: the branch that was
/// owed, the answer of the poll, and how many finalizers the object has then.
///
/// In order: one patch, which changes the object once; nothing is sent where the branch is owed and was not given, or failed, or where
/// an object is deleted that another party holds; after the branch it goes on; the finalizer goes after the cleanup, and the object
/// with the last one; a patch that meets another list is refused, and leaves it as it is.
const ROWS: &str = r#"{"name":"x"} | - | none | none: after change, Some(1)
{"name":"x","finalizers":["a","b"]} | - | none | none: after change, Some(3)
{"name":"x","finalizers":["f"]} | - | none | apply: not ready, Some(1)
{"name":"x","finalizers":["a","f"]} | - | err | apply: failed to apply object: torn, Some(2)
{"name":"x","finalizers":["f"],"deletionTimestamp":"1"} | - | none | cleanup: not ready, Some(1)
{"name":"x","finalizers":["f"],"deletionTimestamp":"1"} | - | err | cleanup: failed to clean up object: torn, Some(1)
{"name":"x","finalizers":["a"],"deletionTimestamp":"1"} | - | none | none: after change, Some(1)
{"name":"x","finalizers":["a","f"]} | - | ok | apply: after 7, Some(2)
{"name":"x","finalizers":["a","f"],"deletionTimestamp":"1"} | - | ok | cleanup: after 7, Some(1)
{"name":"x","finalizers":["f"],"deletionTimestamp":"1"} | - | ok | cleanup: after 7, None
{"name":"x"} | {"name":"x","finalizers":["a"]} | none | none: failed to add finalizer: TestFailed, Some(1)
{"name":"x","finalizers":["a"]} | {"name":"x","finalizers":["a","b"]} | none | none: failed to add finalizer: TestFailed, Some(2)
{"name":"x","finalizers":["a","f"],"deletionTimestamp":"1"} | {"name":"x","finalizers":["f"],"deletionTimestamp":"1"} | ok | cleanup: failed to remove finalizer: TestFailed, Some(1)
{"name":"x","finalizers":["a"]} | gone | none | none: failed to add finalizer: NotFound, None"#;

/// What comes of a finalizer of the object that was seen, where another party changes the object then.
fn guards(rt: &impl Abort, alloc: Global, server: &mut Server, then: &str, branch: &str) -> String {
    let mut finalizer = guarded(rt, alloc, server);
    put(rt, alloc, server, then);
    let owed = owed(rt, &finalizer);
    let answer = polled_over(rt, alloc, &mut finalizer, server, branch);
    format!(in alloc; "{owed}: {answer}").expect(rt, "memory")
}

/// What a deletion comes to, whose watch tells that `uid-1` goes.
fn ended(rt: &impl Abort, alloc: Global, answer: &Next<Result<(), delete::Error>>) -> String {
    match answer {
        Next::Item(Ok(())) => owned(rt, alloc, "gone"),
        Next::Item(Err(error)) => format!(in alloc; "{error}").expect(rt, "memory"),
        _ => owned(rt, alloc, "another answer"),
    }
}

/// Deletes the object of the server, and waits.
fn deleted(
    rt: &impl Abort,
    alloc: Global,
    deletion: &mut DeleteAndFinalize<TestMode<DynamicObject>>,
    objects: &mut ServerObjects<'_>,
) -> String
    requires unready { deletion.old.is_over ≡ false }
{
    let answer = deletion
        .poll(alloc, objects, Moment(5), 9)
        .expect(rt, "memory");
    ended(rt, alloc, &answer)
}

/// The object on the server; `deletes`, and the answer of the poll with how many finalizers the object has then.
const DELETIONS: &str = r#"- | deletes | - | failed to delete object: NotFound, None
{"name":"x"} | deletes | - | gone, None
{"name":"x","finalizers":["a"]} | deletes | - | gone, Some(1)
{"name":"x","uid":""} | deletes | - | deleted object has no UID to wait for, None"#;

fn deletes(rt: &impl Abort, alloc: Global, server: &mut Server) -> String {
    let api = api(rt, alloc, "uid-1");
    let mut deletion = DeleteAndFinalize::new(alloc, api, "x").expect(rt, "memory");
    let mut objects = server.objects_in(alloc, None).expect(rt, "memory");
    deleted(rt, alloc, &mut deletion, &mut objects)
}

/// What is done on a server.
fn done(rt: &impl Abort, alloc: Global, server: &mut Server, then: &str, branch: &str) -> String {
    match then {
        "deletes" => deletes(rt, alloc, server),
        _ => guards(rt, alloc, server, then, branch),
    }
}

/// What a row comes to, with a server on which nothing is yet.
fn come_of(rt: &impl Abort, alloc: Global, seen: &str, then: &str, branch: &str) -> String {
    let mut server = Server::new(alloc, resource(rt, alloc));
    put(rt, alloc, &mut server, seen);
    let answer = done(rt, alloc, &mut server, then, branch);
    let left = left(rt, alloc, &server);
    format!(in alloc; "{answer}, {left:?}").expect(rt, "memory")
}

/// A row is so.
fn holds(rt: &impl Abort, alloc: Global, line: &str) {
    let (seen, rest) = halves(line);
    let (then, rest) = halves(rest);
    let (branch, wanted) = halves(rest);
    let answer = come_of(rt, alloc, seen, then, branch);
    is_text(rt, answer.as_str(), wanted);
}

#[test]
fn finalizers_over_a_server(rt: HostRuntime) {
    for line in ROWS.split('\n') {
        holds(&rt, rt.alloc(), line);
    }
}

#[test]
fn deletions_over_a_server(rt: HostRuntime) {
    for line in DELETIONS.split('\n') {
        holds(&rt, rt.alloc(), line);
    }
}

/// Polls a deletion that watches a connection to the server. Whether the object is not known to be gone yet.
///
/// Errors: `NoMemory`.
fn waits(
    alloc: Global,
    deletion: &mut DeleteAndFinalize<Conn>,
    objects: &mut ServerObjects<'_>,
) -> Result<bool, NoMemory>
    requires unready { deletion.old.is_over ≡ false }
    ensures unready { IfOk result (λ waits. waits ≡ true → deletion.new.is_over ≡ false) }
    ensures log { IfOk result (λ _. IsSameLog (api_of deletion.old.watch.watcher) (api_of deletion.new.watch.watcher)) }
    ensures later { IfOk result (λ _. IsLater objects.old.server.now.changes objects.new.server.now.changes objects.old.server.now.compacted objects.new.server.now.compacted) }
{
    let answer = deletion.poll(alloc, objects, Moment(5), 9)?;
    Ok(matches!(answer, Next::NotReady))
}

/// Whether a wait ends once its connection has heard that the object went, and not before.
///
/// Errors: `NoMemory`.
fn hears_of_the_end(rt: &impl Abort, alloc: Global) -> Result<bool, NoMemory> {
    let mut server = Server::new(alloc, resource(rt, alloc));
    put(rt, alloc, &mut server, r#"{"name":"x","finalizers":["a"]}"#);
    let conn = Conn::new(alloc, &server)?;
    let mut deletion = DeleteAndFinalize::new(alloc, conn, "x")?;
    let mut objects = server.objects_in(alloc, None)?;
    let there = waits(alloc, &mut deletion, &mut objects)?;
    if !there {
        return Ok(false);
    }
    remove(rt, alloc, objects.server);
    let unheard = waits(alloc, &mut deletion, &mut objects)?;
    if !unheard {
        return Ok(false);
    }
    let watched = deletion.api_mut();
    watched.feed(alloc, objects.server)?;
    let waits = waits(alloc, &mut deletion, &mut objects)?;
    Ok(!waits)
}

#[test]
fn waits_over_a_fed_connection(rt: HostRuntime) {
    let hears = hears_of_the_end(&rt, rt.alloc()).expect(&rt, "memory");
    assert!(rt; hears);
}
