//! Each call of a scripted API once, with ample memory.

mod patches;

use kube_api::{
    ApiError, ApiMode, Bookmark, ListParams, Page, Recording, ResultPage, Sequence, SequenceStep,
    TestMode, WatchEvent, WatchParams,
};
use kube_meta::{DynamicObject, List, Moment, ObjectMeta, Polled, Text, TextMap};
use std::alloc::Global;
use std::collections::VecDeque;
use std::panic::Expect;
use std::process::Abort;
use std::sync::Arc;
use std::test::Fail;

type Listed = Result<Page<DynamicObject>, ApiError>;

type Event = Result<WatchEvent<DynamicObject>, ApiError>;

/// The parameters of a list's page.
fn page_after(token: Option<Text>) -> ListParams {
    ListParams {
        label_selector: None,
        field_selector: None,
        limit: None,
        continue_token: token,
        resource_version: None,
        version_match: None,
    }
}

fn any_watch() -> WatchParams {
    WatchParams {
        label_selector: None,
        field_selector: None,
        timeout: None,
        bookmarks: true,
        send_initial_events: false,
    }
}

fn fault(rt: &impl Abort, alloc: Global, text: &str) -> ApiError {
    ApiError::Transport(Text::new(alloc, text).expect(rt, "memory"))
}

fn object(rt: &impl Abort, alloc: Global, name: &str) -> Arc<DynamicObject> {
    let metadata = ObjectMeta {
        name: Some(Text::new(alloc, name).expect(rt, "memory")),
        namespace: None,
        uid: None,
        resource_version: None,
        deletion_timestamp: None,
        generation: None,
        labels: None,
        annotations: None,
        finalizers: None,
        owner_references: None,
    };
    Arc::new(alloc, DynamicObject::bare(metadata)).expect(rt, "memory")
}

/// A list with one object of a name.
fn objects(rt: &impl Abort, alloc: Global, name: &str) -> List<Arc<DynamicObject>> {
    let object = object(rt, alloc, name);
    let mut items = List::new(alloc);
    items.push(object).expect(rt, "memory");
    items
}

/// A page with one object of a name, and a version.
fn page(rt: &impl Abort, alloc: Global, name: &str, version: &str) -> Page<DynamicObject> {
    Page {
        items: objects(rt, alloc, name),
        token: None,
        version: Some(Text::new(alloc, version).expect(rt, "memory")),
    }
}

/// An entry of the lists: a page of one object of a name and a version, or a fault where the version is empty.
fn entry(rt: &impl Abort, alloc: Global, name: &str, version: &str) -> Listed {
    if version.is_empty() {
        return Err(fault(rt, alloc, name));
    }
    Ok(page(rt, alloc, name, version))
}

/// A step of a watch.
#[derive(Clone, Copy)]
enum Step {
    Added(&'static str),
    Bookmark(&'static str),
    Fault(&'static str),
    Nothing,
    Wait(u64),
}

fn bookmark(rt: &impl Abort, alloc: Global, version: &str) -> Bookmark {
    Bookmark {
        version: Text::new(alloc, version).expect(rt, "memory"),
        annotations: TextMap::new(alloc),
    }
}

/// A step with one event.
fn one(rt: &impl Abort, alloc: Global, event: Event) -> SequenceStep<DynamicObject> {
    let mut events = VecDeque::new(alloc);
    events.push_back(event).expect(rt, "memory");
    SequenceStep::List(events)
}

fn make_step(rt: &impl Abort, alloc: Global, step: Step) -> SequenceStep<DynamicObject> {
    match step {
        Step::Added(name) => { one(rt, alloc, Ok(WatchEvent::Added(object(rt, alloc, name)))) }
        Step::Bookmark(version) => {
            one(
                rt,
                alloc,
                Ok(WatchEvent::Bookmark(bookmark(rt, alloc, version))),
            )
        }
        Step::Fault(text) => one(rt, alloc, Err(fault(rt, alloc, text))),
        Step::Nothing => SequenceStep::List(VecDeque::new(alloc)),
        Step::Wait(nanos) => SequenceStep::Wait(nanos),
    }
}

fn sequence(rt: &impl Abort, alloc: Global, steps: &[Step]) -> Sequence<DynamicObject> {
    let mut all = Vec::new(alloc);
    for step in steps {
        all.push(make_step(rt, alloc, *step)).expect(rt, "memory");
    }
    Sequence::new(all)
}

/// The name of an object, or that it has none.
fn name_of(object: &DynamicObject) -> &str {
    match &object.metadata.name {
        Some(name) => name.as_str(),
        None => "no name",
    }
}

/// What a list call was answered.
fn shown_list(answer: &Polled<Listed>) -> &str {
    match answer {
        Polled::NotReady => "not ready",
        Polled::Ready(Err(ApiError::Transport(text))) => text.as_str(),
        Polled::Ready(Err(_)) => "another fault",
        Polled::Ready(Ok(page)) => match page.items.as_slice() {
            [] if page.token.is_none() && page.version.is_none() => "empty",
            [object] if page.version.is_some() => name_of(&**object),
            _ => "another page",
        },
    }
}

/// What a watch call was answered.
fn shown_watch(answer: &Polled<Result<(), ApiError>>) -> &str {
    match answer {
        Polled::NotReady => "not ready",
        Polled::Ready(Err(ApiError::ReadEvents(text))) => text.as_str(),
        Polled::Ready(Err(_)) => "another fault",
        Polled::Ready(Ok(())) => "open",
    }
}

/// What a poll of the open watch was answered.
fn shown(answer: &Polled<Option<Event>>) -> &str {
    match answer {
        Polled::NotReady => "not ready",
        Polled::Ready(None) => "end",
        Polled::Ready(Some(Err(ApiError::Transport(text)))) => text.as_str(),
        Polled::Ready(Some(Ok(WatchEvent::Added(object)))) => name_of(&**object),
        Polled::Ready(Some(Ok(WatchEvent::Bookmark(bookmark)))) => bookmark.version.as_str(),
        Polled::Ready(Some(_)) => "another event",
    }
}

/// A list call is answered so.
fn lists(
    rt: &impl Abort,
    alloc: Global,
    api: &mut TestMode<DynamicObject>,
    params: &ListParams,
    wanted: &str,
) {
    let answer = api.list(alloc, params, Moment(0)).expect(rt, "memory");
    assert_eq!(rt; shown_list(&answer), wanted);
}

/// A watch call at a moment is answered so.
fn watches(
    rt: &impl Abort,
    alloc: Global,
    api: &mut TestMode<DynamicObject>,
    version: &str,
    moment: u64,
    wanted: &str,
) {
    let answer = api
        .watch(alloc, &any_watch(), version, Moment(moment))
        .expect(rt, "memory");
    assert_eq!(rt; shown_watch(&answer), wanted);
}

/// A poll of the open watch at a moment is answered so.
fn polls(
    rt: &impl Abort,
    alloc: Global,
    api: &mut TestMode<DynamicObject>,
    moment: u64,
    wanted: &str,
) {
    let answer = api.next(alloc, Moment(moment)).expect(rt, "memory");
    assert_eq!(rt; shown(&answer), wanted, "at {moment}");
}

/// A call.
#[derive(Clone, Copy)]
enum Ask {
    List,
    SecondPage,
    Watch(&'static str),
    Next,
}

/// A list call for the page after a token, where there is one, is answered so.
fn lists_after(
    rt: &impl Abort,
    alloc: Global,
    api: &mut TestMode<DynamicObject>,
    token: Option<Text>,
    wanted: &str,
) {
    let params = page_after(token);
    lists(rt, alloc, api, &params, wanted);
}

/// A call at a moment is answered so.
fn asks(
    rt: &impl Abort,
    alloc: Global,
    api: &mut TestMode<DynamicObject>,
    ask: Ask,
    moment: u64,
    wanted: &str,
) {
    match ask {
        Ask::List => lists_after(rt, alloc, api, None, wanted),
        Ask::SecondPage => {
            let token = Text::new(alloc, "t").expect(rt, "memory");
            lists_after(rt, alloc, api, Some(token), wanted);
        }
        Ask::Watch(version) => watches(rt, alloc, api, version, moment, wanted),
        Ask::Next => polls(rt, alloc, api, moment, wanted),
    }
}

/// A call, its moment and its answer.
type Called = (Ask, u64, &'static str);

/// Calls of an API are answered so.
fn plays(rt: &impl Abort, alloc: Global, api: &mut TestMode<DynamicObject>, calls: &[Called]) {
    for (ask, moment, wanted) in calls {
        asks(rt, alloc, api, *ask, *moment, wanted);
    }
}

/// The same of an API that is let go then.
fn plays_once(rt: &impl Abort, alloc: Global, api: TestMode<DynamicObject>, calls: &[Called]) {
    let mut api = api;
    plays(rt, alloc, &mut api, calls);
}

/// An API that answers two pages, and a fault between them.
fn listed(rt: &impl Abort, alloc: Global) -> TestMode<DynamicObject> {
    let mut lists = Vec::new(alloc);
    for (name, version) in [("a", "1"), ("unreachable", ""), ("b", "2")] {
        lists
            .push(entry(rt, alloc, name, version))
            .expect(rt, "memory");
    }
    TestMode::new(alloc, lists, Vec::new(alloc))
}

#[test]
fn lists_are_answered_until_none_is_left(rt: HostRuntime) -> Result<(), Fail> {
    let alloc = rt.alloc();
    let calls = [
        (Ask::List, 0, "a"),
        (Ask::List, 0, "unreachable"),
        (Ask::List, 0, "b"),
        (Ask::List, 0, "empty"),
        (Ask::List, 0, "empty"),
    ];
    plays_once(&rt, alloc, listed(&rt, alloc), &calls);
    Ok(())
}

/// A silence of 5 from the poll that meets it, one of 0, and a step without events.
const WAITING: [Step; 6] = [
    Step::Added("a"),
    Step::Wait(5),
    Step::Nothing,
    Step::Bookmark("7"),
    Step::Wait(0),
    Step::Fault("torn"),
];

/// An API that is watched once.
fn watched(rt: &impl Abort, alloc: Global) -> TestMode<DynamicObject> {
    let mut watches = Vec::new(alloc);
    watches
        .push(sequence(rt, alloc, &WAITING))
        .expect(rt, "memory");
    TestMode::new(alloc, Vec::new(alloc), watches)
}

#[test]
fn silences_and_events_come_in_their_order(rt: HostRuntime) -> Result<(), Fail> {
    let calls = [
        // No watch is open.
        (Ask::Next, 0, "end"),
        (Ask::Watch("1"), 1, "open"),
        (Ask::Next, 2, "a"),
        (Ask::Next, 10, "not ready"),
        (Ask::Next, 14, "not ready"),
        (Ask::Next, 9, "not ready"),
        (Ask::Next, 15, "7"),
        (Ask::Next, 15, "torn"),
        (Ask::Next, 15, "end"),
        (Ask::Next, 16, "end"),
    ];
    plays_once(&rt, rt.alloc(), watched(&rt, rt.alloc()), &calls);
    Ok(())
}

/// Two bookmarks.
const BOOKMARKS: [Step; 2] = [Step::Bookmark("8"), Step::Bookmark("9")];

/// An API that is watched three times, the last time without an event.
fn watched_thrice(rt: &impl Abort, alloc: Global) -> TestMode<DynamicObject> {
    let mut watches = Vec::new(alloc);
    watches
        .push(sequence(rt, alloc, &WAITING))
        .expect(rt, "memory");
    watches
        .push(sequence(rt, alloc, &BOOKMARKS))
        .expect(rt, "memory");
    watches.push(Sequence::default(alloc)).expect(rt, "memory");
    TestMode::new(alloc, Vec::new(alloc), watches)
}

#[test]
fn a_watch_takes_the_place_of_the_open_one(rt: HostRuntime) -> Result<(), Fail> {
    let calls = [
        (Ask::Watch("1"), 0, "open"),
        (Ask::Next, 0, "a"),
        (Ask::Watch("1"), 0, "open"),
        (Ask::Next, 0, "8"),
        (Ask::Watch("1"), 0, "open"),
        (Ask::Next, 0, "end"),
        (Ask::Watch("1"), 0, "TestMode watch sequence exhausted"),
        (Ask::Next, 0, "end"),
    ];
    plays_once(&rt, rt.alloc(), watched_thrice(&rt, rt.alloc()), &calls);
    Ok(())
}

#[test]
fn a_watch_that_fails_leaves_the_open_one(rt: HostRuntime) -> Result<(), Fail> {
    let calls = [
        (Ask::Watch("1"), 0, "open"),
        (Ask::Watch("1"), 0, "TestMode watch sequence exhausted"),
        (Ask::Next, 0, "a"),
    ];
    plays_once(&rt, rt.alloc(), watched(&rt, rt.alloc()), &calls);
    Ok(())
}

/// Which call it is.
fn kind_of(call: &Recording) -> &str {
    match call {
        Recording::List(_) => "list",
        Recording::Watch(_, _) => "watch",
        Recording::Next => "next",
    }
}

/// Its token or version.
fn text_of(call: &Recording) -> &str {
    match call {
        Recording::List(params) => match &params.continue_token {
            Some(token) => token.as_str(),
            None => "first",
        },
        Recording::Watch(_, version) => version.as_str(),
        Recording::Next => "",
    }
}

/// The calls of an API, in order.
fn check_calls(rt: &impl Abort, api: &TestMode<DynamicObject>, wanted: &[(&str, &str)]) {
    let recordings = api.get_recordings();
    assert_eq!(rt; recordings.len(), wanted.len());
    for (call, wanted) in recordings.iter().zip(wanted) {
        let (kind, text) = *wanted;
        assert_eq!(rt; kind_of(call), kind);
        assert_eq!(rt; text_of(call), text);
    }
}

/// An API that answers by nothing.
fn empty(alloc: Global) -> TestMode<DynamicObject> {
    TestMode::new(alloc, Vec::new(alloc), Vec::new(alloc))
}

#[test]
fn calls_are_recorded_in_their_order(rt: HostRuntime) -> Result<(), Fail> {
    let calls = [
        (Ask::List, 0, "empty"),
        (Ask::SecondPage, 0, "empty"),
        (Ask::Watch("9"), 0, "TestMode watch sequence exhausted"),
        (Ask::Next, 1, "end"),
        (Ask::Watch(""), 2, "TestMode watch sequence exhausted"),
    ];
    let mut api = empty(rt.alloc());
    plays(&rt, rt.alloc(), &mut api, &calls);
    let wanted = [
        ("list", "first"),
        ("list", "t"),
        ("watch", "9"),
        ("next", ""),
        ("watch", ""),
    ];
    check_calls(&rt, &api, &wanted);
    Ok(())
}

#[test]
fn no_call_is_recorded_before_the_first(rt: HostRuntime) -> Result<(), Fail> {
    let api = empty(rt.alloc());
    check_calls(&rt, &api, &[]);
    Ok(())
}

/// The names of a page's objects, its token and its version.
fn check_page(
    rt: &impl Abort,
    page: &Page<DynamicObject>,
    names: &[&str],
    token: Option<&str>,
    version: Option<&str>,
) {
    assert_eq!(rt; page.items.len(), names.len());
    for (object, name) in page.items.as_slice().iter().zip(names) {
        assert_eq!(rt; name_of(&**object), *name);
    }
    assert_eq!(rt; page.token.as_ref().map(|t| t.as_str()), token);
    assert_eq!(rt; page.version.as_ref().map(|t| t.as_str()), version);
}

#[test]
fn an_empty_page_has_nothing(rt: HostRuntime) -> Result<(), Fail> {
    let empty = ResultPage::empty(rt.alloc()).into_page();
    check_page(&rt, &empty, &[], None, None);
    Ok(())
}

/// Two objects.
fn two_objects(rt: &impl Abort, alloc: Global) -> Vec<Arc<DynamicObject>> {
    let mut items = Vec::new(alloc);
    for name in ["a", "b"] {
        items.push(object(rt, alloc, name)).expect(rt, "memory");
    }
    items
}

/// A page of them with a token and a version.
fn whole_page(rt: &impl Abort, alloc: Global) -> Page<DynamicObject> {
    let items = two_objects(rt, alloc);
    ResultPage::empty(alloc)
        .continue_token(alloc, Some("t"))
        .expect(rt, "memory")
        .resource_version(alloc, Some("9"))
        .expect(rt, "memory")
        .items(items)
        .into_page()
}

#[test]
fn pages_are_made_part_by_part(rt: HostRuntime) -> Result<(), Fail> {
    let page = whole_page(&rt, rt.alloc());
    check_page(&rt, &page, &["a", "b"], Some("t"), Some("9"));
    Ok(())
}

/// A page whose token was taken away.
fn last_page(rt: &impl Abort, alloc: Global) -> Page<DynamicObject> {
    ResultPage::empty(alloc)
        .continue_token(alloc, Some("t"))
        .expect(rt, "memory")
        .continue_token(alloc, None)
        .expect(rt, "memory")
        .into_page()
}

#[test]
fn the_last_token_stays(rt: HostRuntime) -> Result<(), Fail> {
    let page = last_page(&rt, rt.alloc());
    check_page(&rt, &page, &[], None, None);
    Ok(())
}
