//! Scripts of what is done with a server and a connection, and what comes of it.

ghost use Rattle.std.specs.Prelude.{◌≡◌};
ghost use Rattle.kube_server.specs.History.{IsLater};

use kube_api::{ApiError, ApiMode, ListParams, Page, Patch, WatchEvent, WatchParams};
use kube_meta::{
    ApiResource, DynamicObject, List, Moment, NoMemory, ObjectMeta, ObjectRef, Polled, Text,
};
use kube_server::{Conn, Server};
use serde_json::Value;
use std::alloc::Global;
use std::fmt;
use std::panic::Expect;
use std::process::Abort;
use std::sync::Arc;

fn resource(rt: &impl Abort, alloc: Global) -> Arc<ApiResource> {
    let resource = ApiResource::new(alloc, "", "v1", "ConfigMap", "configmaps");
    Arc::new(alloc, resource.expect(rt, "memory")).expect(rt, "memory")
}

fn made(rt: &impl Abort, alloc: Global, text: &str) -> Text {
    Text::new(alloc, text).expect(rt, "memory")
}

/// The text; none where it is empty or `-`.
fn text(rt: &impl Abort, alloc: Global, text: &str) -> Option<Text> {
    match text {
        "" | "-" => None,
        _ => Some(made(rt, alloc, text)),
    }
}

/// An object of a name; held by the finalizer `f`, or by none.
fn object(rt: &impl Abort, alloc: Global, name: &str, held: bool) -> DynamicObject {
    let mut finalizers = List::new(alloc);
    if held {
        finalizers.push(made(rt, alloc, "f")).expect(rt, "memory");
    }
    DynamicObject::bare(ObjectMeta {
        name: text(rt, alloc, name),
        finalizers: Some(finalizers),
        ..ObjectMeta::empty()
    })
}

fn key(rt: &impl Abort, alloc: Global, name: &str) -> ObjectRef<DynamicObject> {
    let resource = resource(rt, alloc);
    ObjectRef::new_with(alloc, name, resource).expect(rt, "memory")
}

fn list_params(
    rt: &impl Abort,
    alloc: Global,
    limit: &str,
    token: &str,
    labels: &str,
    fields: &str,
) -> ListParams {
    ListParams {
        label_selector: text(rt, alloc, labels),
        field_selector: text(rt, alloc, fields),
        limit: Some(limit.parse().unwrap_or(0)),
        continue_token: text(rt, alloc, token),
        resource_version: None,
        version_match: None,
    }
}

fn watch_params(
    rt: &impl Abort,
    alloc: Global,
    initial: bool,
    labels: &str,
    fields: &str,
) -> WatchParams {
    WatchParams {
        label_selector: text(rt, alloc, labels),
        field_selector: text(rt, alloc, fields),
        timeout: None,
        bookmarks: true,
        send_initial_events: initial,
    }
}

/// The operation that is said by its kind, path and value; null for no value.
fn operation(rt: &impl Abort, alloc: Global, said: &str) -> Patch {
    let (kind, rest) = said.split_once(' ').unwrap_or(("", ""));
    let (path, value) = rest.split_once(' ').unwrap_or((rest, "null"));
    let path = made(rt, alloc, path);
    let value = Value::from_str(alloc, value).expect(rt, "JSON");
    match kind {
        "test" => Patch::Test { path, value },
        "add" => Patch::Add { path, value },
        _ => Patch::Remove { path },
    }
}

fn operations(rt: &impl Abort, alloc: Global, said: &str) -> Vec<Patch> {
    let mut patch = Vec::new(alloc);
    for one in said.split("; ") {
        if !one.is_empty() {
            patch.push(operation(rt, alloc, one)).expect(rt, "memory");
        }
    }
    patch
}

/// The text of what may be absent.
fn or_none(text: &Option<Text>) -> &str {
    match text {
        Some(text) => text.as_str(),
        None => "-",
    }
}

/// A text of its own.
fn owned(rt: &impl Abort, alloc: Global, text: &str) -> String {
    String::from_str(alloc, text).expect(rt, "memory")
}

/// An object: name, uid and version, and since when it is being deleted.
fn shown(rt: &impl Abort, alloc: Global, word: &str, object: &DynamicObject) -> String {
    let meta = &object.metadata;
    let (name, uid) = (or_none(&meta.name), or_none(&meta.uid));
    let (version, deleted) = (
        or_none(&meta.resource_version),
        or_none(&meta.deletion_timestamp),
    );
    format!(in alloc; "{word} {name}/{uid}@{version}/{deleted}").expect(rt, "memory")
}

/// A revision, or why there is none.
fn answered<E: fmt::Display>(rt: &impl Abort, alloc: Global, answer: &Result<u64, E>) -> String {
    match answer {
        Ok(revision) => format!(in alloc; "{revision}").expect(rt, "memory"),
        Err(refusal) => format!(in alloc; "{refusal}").expect(rt, "memory"),
    }
}

fn fault(rt: &impl Abort, alloc: Global, error: &ApiError) -> String {
    match error {
        ApiError::Api(status) => {
            let code = status.code;
            format!(in alloc; "fault {code}").expect(rt, "memory")
        }
        _ => format!(in alloc; "{error}").expect(rt, "memory"),
    }
}

/// Adds each object, with a space before it.
fn add_objects(rt: &impl Abort, alloc: Global, text: &mut String, objects: &[Arc<DynamicObject>]) {
    for object in objects {
        let object = shown(rt, alloc, "", object);
        text.push_str(object.as_str()).expect(rt, "memory");
    }
}

fn page(rt: &impl Abort, alloc: Global, page: &Page<DynamicObject>) -> String {
    let (token, version) = (or_none(&page.token), or_none(&page.version));
    let mut text = format!(in alloc; "page {token} {version}").expect(rt, "memory");
    add_objects(rt, alloc, &mut text, page.items.as_slice());
    text
}

fn list_answered(
    rt: &impl Abort,
    alloc: Global,
    answer: &Polled<Result<Page<DynamicObject>, ApiError>>,
) -> String {
    match answer {
        Polled::NotReady => owned(rt, alloc, "not ready"),
        Polled::Ready(Ok(given)) => page(rt, alloc, given),
        Polled::Ready(Err(error)) => fault(rt, alloc, error),
    }
}

fn event(rt: &impl Abort, alloc: Global, event: &WatchEvent<DynamicObject>) -> String {
    match event {
        WatchEvent::Added(object) => shown(rt, alloc, "added", object),
        WatchEvent::Modified(object) => shown(rt, alloc, "modified", object),
        WatchEvent::Deleted(object) => shown(rt, alloc, "deleted", object),
        WatchEvent::Bookmark(bookmark) => {
            let (version, marks) = (bookmark.version.as_str(), bookmark.annotations.len());
            format!(in alloc; "bookmark {version} {marks}").expect(rt, "memory")
        }
        WatchEvent::Error(status) => {
            let (code, reason) = (status.code, status.reason.as_str());
            format!(in alloc; "error {code} {reason}").expect(rt, "memory")
        }
    }
}

fn next_answered(
    rt: &impl Abort,
    alloc: Global,
    answer: &Polled<Option<Result<WatchEvent<DynamicObject>, ApiError>>>,
) -> String {
    match answer {
        Polled::NotReady => owned(rt, alloc, "not ready"),
        Polled::Ready(None) => owned(rt, alloc, "end"),
        Polled::Ready(Some(Ok(given))) => event(rt, alloc, given),
        Polled::Ready(Some(Err(error))) => fault(rt, alloc, error),
    }
}

/// A server and a connection to it.
#[derive(Drop)]
struct World {
    server: Server,
    conn: Conn,
}

fn begun(rt: &impl Abort, alloc: Global) -> World
    ensures { IsLater result.conn.changes result.server.changes result.conn.compacted result.server.compacted }
{
    let server = Server::new(alloc, resource(rt, alloc));
    let conn = Conn::new(alloc, &server).expect(rt, "memory");
    World { server, conn }
}

fn remove(rt: &impl Abort, alloc: Global, server: &mut Server, name: &str) -> String
    ensures { IsLater server.old.changes server.new.changes server.old.compacted server.new.compacted }
{
    let key = key(rt, alloc, name);
    answered(rt, alloc, &server.remove(alloc, &key))
}

fn delete(rt: &impl Abort, alloc: Global, server: &mut Server, name: &str, now: &str) -> String
    ensures { IsLater server.old.changes server.new.changes server.old.compacted server.new.compacted }
{
    let key = key(rt, alloc, name);
    let now = Moment(now.parse().unwrap_or(0));
    answered(rt, alloc, &server.request_delete(alloc, &key, now))
}

fn patch(rt: &impl Abort, alloc: Global, server: &mut Server, name: &str, said: &str) -> String
    ensures { IsLater server.old.changes server.new.changes server.old.compacted server.new.compacted }
{
    let patch = operations(rt, alloc, said);
    if patch.len() > 9 {
        return String::new(alloc);
    }
    let key = key(rt, alloc, name);
    answered(rt, alloc, &server.patch(alloc, &key, &patch))
}

fn list(rt: &impl Abort, alloc: Global, conn: &mut Conn, params: &ListParams) -> String
    ensures changes { conn.new.changes ≡ conn.old.changes }
    ensures compacted { conn.new.compacted ≡ conn.old.compacted }
{
    let answer = conn.list(alloc, params, Moment(0)).expect(rt, "memory");
    list_answered(rt, alloc, &answer)
}

fn watch(
    rt: &impl Abort,
    alloc: Global,
    conn: &mut Conn,
    params: &WatchParams,
    version: &str,
) -> String
    ensures changes { conn.new.changes ≡ conn.old.changes }
    ensures compacted { conn.new.compacted ≡ conn.old.compacted }
{
    let answer = conn
        .watch(alloc, params, version, Moment(0))
        .expect(rt, "memory");
    match &answer {
        Polled::NotReady => owned(rt, alloc, "not ready"),
        Polled::Ready(Ok(())) => owned(rt, alloc, "opened"),
        Polled::Ready(Err(error)) => fault(rt, alloc, error),
    }
}

fn next(rt: &impl Abort, alloc: Global, conn: &mut Conn) -> String
    ensures changes { conn.new.changes ≡ conn.old.changes }
    ensures compacted { conn.new.compacted ≡ conn.old.compacted }
{
    let answer = conn.next(alloc, Moment(0)).expect(rt, "memory");
    next_answered(rt, alloc, &answer)
}

fn holds(rt: &impl Abort, alloc: Global, server: &Server) -> String {
    let mut text = owned(rt, alloc, "holds");
    let objects = server.objects(alloc).expect(rt, "memory");
    add_objects(rt, alloc, &mut text, objects.as_slice());
    text
}

/// What is done: its word, and what it is done with.
#[derive(Clone, Copy)]
struct Act<'a> {
    word: &'a str,
    first: &'a str,
    second: &'a str,
}

/// What is done with the server; none where it is an act of the connection.
fn serve(rt: &impl Abort, alloc: Global, server: &mut Server, act: Act<'_>) -> Option<String>
    ensures { IsLater server.old.changes server.new.changes server.old.compacted server.new.compacted }
{
    Some(match act.word {
        "put" | "hold" => {
            let object = object(rt, alloc, act.first, act.word == "hold");
            answered(rt, alloc, &server.put(alloc, object))
        }
        "remove" => remove(rt, alloc, server, act.first),
        "delete" => delete(rt, alloc, server, act.first, act.second),
        "patch" => patch(rt, alloc, server, act.first, act.second),
        "holds" => holds(rt, alloc, server),
        "compact" => {
            server.compact(act.first.parse().unwrap_or(0));
            owned(rt, alloc, "compacted")
        }
        _ => return None,
    })
}

/// What is asked of the connection.
fn ask(rt: &impl Abort, alloc: Global, conn: &mut Conn, act: Act<'_>) -> String
    ensures changes { conn.new.changes ≡ conn.old.changes }
    ensures compacted { conn.new.compacted ≡ conn.old.compacted }
{
    let (first, second) = (act.first, act.second);
    match act.word {
        "list" => list(
            rt,
            alloc,
            conn,
            &list_params(rt, alloc, first, second, "", ""),
        ),
        "list-by" => list(
            rt,
            alloc,
            conn,
            &list_params(rt, alloc, "0", "x", first, second),
        ),
        "watch" => watch(
            rt,
            alloc,
            conn,
            &watch_params(rt, alloc, false, "", ""),
            first,
        ),
        "watch-by" => watch(
            rt,
            alloc,
            conn,
            &watch_params(rt, alloc, true, first, second),
            "x",
        ),
        _ => next(rt, alloc, conn),
    }
}

/// Whether an act feeds the connection.
#[derive(Clone, Copy)]
enum Kind {
    Feed,
    Other,
}

fn kind_of(act: Act<'_>) -> Kind {
    match act.word {
        "feed" => Kind::Feed,
        _ => Kind::Other,
    }
}

/// Does one act, and says what came of it.
///
/// Errors: `NoMemory`, where the connection is fed. Nothing with a drop lives there.
fn come_of(
    rt: &impl Abort,
    alloc: Global,
    world: &mut World,
    act: Act<'_>,
) -> Result<String, NoMemory>
    requires { IsLater world.old.conn.changes world.old.server.changes world.old.conn.compacted world.old.server.compacted }
    ensures { IsLater world.new.conn.changes world.new.server.changes world.new.conn.compacted world.new.server.compacted }
{
    if let Some(text) = serve(rt, alloc, &mut world.server, act) {
        return Ok(text);
    }
    if let Kind::Feed = kind_of(act) {
        world.conn.feed(alloc, &world.server)?;
        return Ok(String::from_str(alloc, "fed")?);
    }
    Ok(ask(rt, alloc, &mut world.conn, act))
}

/// The act of a line.
fn act_of(line: &str) -> Act<'_> {
    let (word, rest) = line.split_once(' ').unwrap_or((line, ""));
    let (first, second) = rest.split_once(' ').unwrap_or((rest, ""));
    Act {
        word,
        first,
        second,
    }
}

/// Adds what came of each act, up to the first of which something else came.
fn first_other(rt: &impl Abort, alloc: Global, script: &str) -> String {
    let mut world = begun(rt, alloc);
    for line in script.split('\n') {
        let (act, wanted) = line.split_once(" => ").unwrap_or(("", ""));
        let text = come_of(rt, alloc, &mut world, act_of(act)).expect(rt, "memory");
        if text.as_str() != wanted {
            return format!(in alloc; "{line}: {text}").expect(rt, "memory");
        }
    }
    String::new(alloc)
}

/// What is done, and what comes of it, a line each; a new server and connection at each empty line. A selector, a token or a name that
/// is absent is `-`. In order: a put raises the revision and keeps the uid; pages of a list are of one revision; a watch from a compacted
/// version is refused once; the last finalizer lets an object go; a patch is all or nothing; a watch is without gaps over a compaction;
/// selectors of the name alone are supported.
const SCRIPTS: &str = r##"put a => 1
put a => 2
put - => object has no name
feed => fed
list 0 - => page - 2 a/uid-1@2/-
remove b => NotFound
remove a => 3

put a => 1
put b => 2
feed => fed
list 1 - => page 2:1 - a/uid-1@1/-
list 1 2:1 => page - 2 b/uid-2@2/-
list 0 2:1 => page - 2 b/uid-2@2/-
list 9 2:2 => page - 2
list 9 1:0 => page - 1 a/uid-1@1/-
put c => 3
remove a => 4
holds => holds b/uid-2@2/- c/uid-3@3/-
feed => fed
list 1 2:1 => page - 2 b/uid-2@2/-
list 0 - => page - 4 b/uid-2@2/- c/uid-3@3/-
list 1 5:0 => fault 410
list 1 02:1 => fault 410
list 1 2:+1 => fault 410
list 1 2 => fault 410
list 1 18446744073709551616:0 => fault 410
compact 3 => compacted
feed => fed
list 1 2:1 => fault 410
list 1 3:2 => page - 3 c/uid-3@3/-

put a => 1
put b => 2
compact 2 => compacted
feed => fed
watch 1 => opened
next => error 410 Expired
next => end
watch 3 => opened
next => error 410 Expired
watch 02 => opened
next => error 410 Expired
next => end

hold a => 1
delete a 7 => 2
feed => fed
list 0 - => page - 2 a/uid-1@2/7
delete a 8 => 2
patch a remove /metadata/finalizers/0 => 3
feed => fed
list 0 - => page - 3
delete a 9 => NotFound
watch 3 => opened

patch a => NotFound
put a => 1
patch a test /spec/x 1 => TestFailed
patch a test /spec/x null => 2
patch a test /spec null; remove /spec => PathMissing
patch a add /metadata/name "b" => NotAnObject
feed => fed
list 0 - => page - 2 a/uid-1@2/-
patch a add /data {"k":"v"} => 3
delete a 1 => 4

next => end
put a => 1
put b => 2
feed => fed
watch-by - - => opened
next => added a/uid-1@1/-
put a => 3
put c => 4
remove b => 5
compact 4 => compacted
feed => fed
next => added b/uid-2@2/-
next => bookmark 2 1
next => modified a/uid-1@3/-
next => added c/uid-4@4/-
next => deleted b/uid-2@5/-
next => not ready
next => not ready
put b => 6
next => not ready
feed => fed
next => added b/uid-6@6/-
watch 4 => opened
next => deleted b/uid-2@5/-
watch 6 => opened
next => not ready

put a => 1
put b => 2
feed => fed
list-by - metadata.name=a => fault 410
list-by x=y - => selector not supported
list-by - metadata.namespace=a => selector not supported
list-by - metadata.name==a => selector not supported
list-by - metadata.name=a,metadata.uid=b => selector not supported
watch-by x=y - => selector not supported
watch-by - spec.x=1 => selector not supported
next => end
watch-by - metadata.name=b => opened
next => added b/uid-2@2/-
next => bookmark 2 1
put a => 3
put b => 4
feed => fed
next => modified b/uid-2@4/-
watch-by x=y - => selector not supported
next => not ready"##;

fn plays(rt: &impl Abort, alloc: Global, script: &str) {
    let other = first_other(rt, alloc, script);
    assert_eq!(rt; other.as_str(), "");
}

#[test]
fn scripts_come_to_what_they_say(rt: HostRuntime) {
    for script in SCRIPTS.split("\n\n") {
        plays(&rt, rt.alloc(), script);
    }
}

/// Puts objects with as many names.
fn put_many(rt: &impl Abort, alloc: Global, server: &mut Server, count: u32) {
    for number in 0..count {
        let name = format!(in alloc; "object-{number}").expect(rt, "memory");
        let object = object(rt, alloc, name.as_str(), false);
        server.put(alloc, object).expect(rt, "stored");
    }
}

/// What is known of a list after a page of it.
#[derive(Clone, Copy)]
enum Paged {
    /// Further pages follow.
    More,
    End,
    Fault,
}

/// The objects in the pages so far, and the token of the page that follows.
#[derive(Drop)]
struct Paging {
    objects: usize,
    token: Text,
}

/// Adds a page.
fn add_page(
    rt: &impl Abort,
    alloc: Global,
    pages: &mut Paging,
    answer: &Polled<Result<Page<DynamicObject>, ApiError>>,
) -> Paged {
    let Polled::Ready(Ok(given)) = answer else {
        return Paged::Fault;
    };
    pages.objects = pages.objects.wrapping_add(given.items.len());
    match &given.token {
        Some(token) => {
            pages.token = token.copy(alloc).expect(rt, "memory");
            Paged::More
        }
        None => Paged::End,
    }
}

/// Asks for the page of 500 that follows, and adds it.
fn next_page(rt: &impl Abort, alloc: Global, conn: &mut Conn, pages: &mut Paging) -> Paged {
    let params = list_params(rt, alloc, "500", pages.token.as_str(), "", "");
    let answer = conn.list(alloc, &params, Moment(0)).expect(rt, "memory");
    add_page(rt, alloc, pages, &answer)
}

/// How many pages of 500 a list has, at most 100, and how many objects are in them.
fn counted_pages(rt: &impl Abort, alloc: Global, conn: &mut Conn) -> String {
    let mut pages = Paging {
        objects: 0,
        token: made(rt, alloc, ""),
    };
    for page in 1..100_u32 {
        match next_page(rt, alloc, conn, &mut pages) {
            Paged::More => {}
            Paged::End => {
                let objects = pages.objects;
                return format!(in alloc; "{objects} in {page}").expect(rt, "memory");
            }
            Paged::Fault => return owned(rt, alloc, "fault"),
        }
    }
    owned(rt, alloc, "no end")
}

/// What ends the count of events; nothing where an object was added.
fn counted_event(
    rt: &impl Abort,
    alloc: Global,
    count: u32,
    answer: &Polled<Option<Result<WatchEvent<DynamicObject>, ApiError>>>,
) -> Option<String> {
    match answer {
        Polled::Ready(Some(Ok(WatchEvent::Added(_)))) => None,
        Polled::Ready(Some(Ok(WatchEvent::Bookmark(bookmark)))) => {
            let version = bookmark.version.as_str();
            Some(format!(in alloc; "{count} at {version}").expect(rt, "memory"))
        }
        _ => Some(owned(rt, alloc, "another event")),
    }
}

/// The same of the next event.
fn next_event(rt: &impl Abort, alloc: Global, conn: &mut Conn, count: u32) -> Option<String> {
    let answer = conn.next(alloc, Moment(0)).expect(rt, "memory");
    counted_event(rt, alloc, count, &answer)
}

/// How many events an initial watch gives before its bookmark.
fn counted_events(rt: &impl Abort, alloc: Global, conn: &mut Conn) -> String {
    let _opened = watch(rt, alloc, conn, &watch_params(rt, alloc, true, "", ""), "");
    for count in 0..30_000_u32 {
        if let Some(text) = next_event(rt, alloc, conn, count) {
            return text;
        }
    }
    owned(rt, alloc, "no end")
}

/// Pages and a watch of a server of many objects.
fn counted(rt: &impl Abort, alloc: Global, count: u32) -> String {
    let mut server = Server::new(alloc, resource(rt, alloc));
    put_many(rt, alloc, &mut server, count);
    let mut conn = Conn::new(alloc, &server).expect(rt, "memory");
    let pages = counted_pages(rt, alloc, &mut conn);
    let events = counted_events(rt, alloc, &mut conn);
    format!(in alloc; "{pages}, {events}").expect(rt, "memory")
}

#[test]
fn twenty_thousand_objects_are_listed_and_watched(rt: HostRuntime) {
    let text = counted(&rt, rt.alloc(), 20_000);
    assert_eq!(rt; text.as_str(), "20000 in 40, 20000 at 20000");
}
