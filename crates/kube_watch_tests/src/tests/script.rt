//! Scripts of an API, short to write, and units, short to read.

use kube_api::{Bookmark, Page, ResultPage, Sequence, SequenceStep, TestMode, WatchEvent};
use kube_meta::{DynamicObject, Moment, ObjectMeta, Text, TextMap};
use kube_watch::watcher::watcher;
use kube_watch::watching::Watcher;
use kube_watch::{
    Answer, ApiError, Call, Config, Error, Event, InitialListStrategy, Status, Unit,
    error_indicates_graceful_watch_seq_exhaustion,
};
use std::alloc::Global;
use std::collections::VecDeque;
use std::panic::Expect;
use std::process::Abort;
use std::sync::Arc;

pub type Api = TestMode<DynamicObject>;

/// What a list call is answered.
#[derive(Drop)]
pub enum Listing {
    /// Names of objects, a token and a version; the empty text for none.
    Page(&'static [&'static str], &'static str, &'static str),
    Fault,
}

/// What a watch gives.
#[derive(Drop)]
pub enum Given {
    /// Name and version of an object; the empty text for no version.
    Added(&'static str, &'static str),
    Modified(&'static str, &'static str),
    Deleted(&'static str, &'static str),
    Bookmark(&'static str),
    /// The bookmark that ends the initial events.
    Ending(&'static str),
    Error(u16),
    Torn,
    Wait(u64),
}

/// A script, the moments at which a watcher is polled, and what it makes of it.
#[derive(Drop)]
pub struct Case {
    pub name: &'static str,
    pub streaming: bool,
    pub timeout: Option<u32>,
    pub lists: &'static [Listing],
    pub watches: &'static [&'static [Given]],
    pub polls: &'static [u64],
    pub wanted: &'static [&'static str],
}

fn text_of(rt: &impl Abort, alloc: Global, text: &str) -> Option<Text> {
    if text.is_empty() {
        return None;
    }
    Some(Text::new(alloc, text).expect(rt, "memory"))
}

fn metadata(rt: &impl Abort, alloc: Global, name: &str, version: &str) -> ObjectMeta {
    ObjectMeta {
        name: text_of(rt, alloc, name),
        resource_version: text_of(rt, alloc, version),
        ..ObjectMeta::empty()
    }
}

pub fn object(rt: &impl Abort, alloc: Global, name: &str, version: &str) -> Arc<DynamicObject> {
    let metadata = metadata(rt, alloc, name, version);
    Arc::new(alloc, DynamicObject::bare(metadata)).expect(rt, "memory")
}

fn fault(rt: &impl Abort, alloc: Global) -> ApiError {
    ApiError::Transport(Text::new(alloc, "torn").expect(rt, "memory"))
}

fn objects(rt: &impl Abort, alloc: Global, names: &[&str]) -> Vec<Arc<DynamicObject>> {
    let mut objects = Vec::new(alloc);
    for name in names {
        objects
            .push(object(rt, alloc, name, ""))
            .expect(rt, "memory");
    }
    objects
}

fn page(
    rt: &impl Abort,
    alloc: Global,
    names: &[&str],
    token: &str,
    version: &str,
) -> Page<DynamicObject> {
    let objects = objects(rt, alloc, names);
    ResultPage::empty(alloc)
        .continue_token(alloc, Some(token))
        .expect(rt, "memory")
        .resource_version(alloc, Some(version))
        .expect(rt, "memory")
        .items(objects)
        .into_page()
}

fn listed(
    rt: &impl Abort,
    alloc: Global,
    listing: &Listing,
) -> Result<Page<DynamicObject>, ApiError> {
    match listing {
        Listing::Page(names, token, version) => Ok(page(rt, alloc, names, token, version)),
        Listing::Fault => Err(fault(rt, alloc)),
    }
}

/// The annotations of the bookmark that ends the initial events.
fn ending(rt: &impl Abort, alloc: Global) -> TextMap {
    let text = Text::new(alloc, "true").expect(rt, "memory");
    let mut annotations = TextMap::new(alloc);
    annotations
        .insert(alloc, "k8s.io/initial-events-end", text)
        .expect(rt, "memory");
    annotations
}

fn bookmark(
    rt: &impl Abort,
    alloc: Global,
    version: &str,
    annotations: TextMap,
) -> WatchEvent<DynamicObject> {
    WatchEvent::Bookmark(Bookmark {
        version: Text::new(alloc, version).expect(rt, "memory"),
        annotations,
    })
}

fn status(rt: &impl Abort, alloc: Global, code: u16) -> Status {
    Status {
        code,
        reason: Text::new(alloc, "Expired").expect(rt, "memory"),
        message: Text::new(alloc, "too old").expect(rt, "memory"),
        uid: None,
    }
}

/// A step with one event or fault.
fn one(
    rt: &impl Abort,
    alloc: Global,
    event: Result<WatchEvent<DynamicObject>, ApiError>,
) -> SequenceStep<DynamicObject> {
    let mut events = VecDeque::new(alloc);
    events.push_back(event).expect(rt, "memory");
    SequenceStep::List(events)
}

fn told(
    rt: &impl Abort,
    alloc: Global,
    event: WatchEvent<DynamicObject>,
) -> SequenceStep<DynamicObject> {
    one(rt, alloc, Ok(event))
}

fn step(rt: &impl Abort, alloc: Global, given: &Given) -> SequenceStep<DynamicObject> {
    match given {
        Given::Added(name, version) => {
            told(
                rt,
                alloc,
                WatchEvent::Added(object(rt, alloc, name, version)),
            )
        }
        Given::Modified(name, version) => {
            told(
                rt,
                alloc,
                WatchEvent::Modified(object(rt, alloc, name, version)),
            )
        }
        Given::Deleted(name, version) => {
            told(
                rt,
                alloc,
                WatchEvent::Deleted(object(rt, alloc, name, version)),
            )
        }
        Given::Bookmark(version) => {
            told(rt, alloc, bookmark(rt, alloc, version, TextMap::new(alloc)))
        }
        Given::Ending(version) => {
            told(rt, alloc, bookmark(rt, alloc, version, ending(rt, alloc)))
        }
        Given::Error(code) => told(rt, alloc, WatchEvent::Error(status(rt, alloc, *code))),
        Given::Torn => one(rt, alloc, Err(fault(rt, alloc))),
        Given::Wait(nanos) => SequenceStep::Wait(*nanos),
    }
}

fn sequence(rt: &impl Abort, alloc: Global, given: &[Given]) -> Sequence<DynamicObject> {
    let mut steps = Vec::new(alloc);
    for one in given {
        steps.push(step(rt, alloc, one)).expect(rt, "memory");
    }
    Sequence::new(steps)
}

fn sequences(rt: &impl Abort, alloc: Global, watches: &[&[Given]]) -> Vec<Sequence<DynamicObject>> {
    let mut sequences = Vec::new(alloc);
    for given in watches {
        sequences
            .push(sequence(rt, alloc, given))
            .expect(rt, "memory");
    }
    sequences
}

fn pages(
    rt: &impl Abort,
    alloc: Global,
    lists: &[Listing],
) -> Vec<Result<Page<DynamicObject>, ApiError>> {
    let mut pages = Vec::new(alloc);
    for listing in lists {
        pages.push(listed(rt, alloc, listing)).expect(rt, "memory");
    }
    pages
}

/// An API that answers by this script.
pub fn api(rt: &impl Abort, alloc: Global, lists: &[Listing], watches: &[&[Given]]) -> Api {
    let pages = pages(rt, alloc, lists);
    let sequences = sequences(rt, alloc, watches);
    TestMode::new(alloc, pages, sequences)
}

/// A text of its own.
pub fn owned(rt: &impl Abort, alloc: Global, text: &str) -> String {
    String::from_str(alloc, text).expect(rt, "memory")
}

/// A text that may be absent, in angle brackets.
fn shown_text(rt: &impl Abort, alloc: Global, text: &Option<Text>) -> String {
    match text {
        Some(text) => format!(in alloc; " <{text}>").expect(rt, "memory"),
        None => String::new(alloc),
    }
}

fn shown_call(rt: &impl Abort, alloc: Global, call: &Call) -> String {
    match call {
        Call::List { token } => shown_item(rt, alloc, "list", token),
        Call::Watch {
            version,
            initial: true,
        } => format!(in alloc; "start <{version}>").expect(rt, "memory"),
        Call::Watch { version, .. } => {
            format!(in alloc; "watch <{version}>").expect(rt, "memory")
        }
        Call::Next => owned(rt, alloc, "next"),
        Call::Stream => owned(rt, alloc, "stream"),
    }
}

fn shown_page(
    rt: &impl Abort,
    alloc: Global,
    token: &Option<Text>,
    version: &Option<Text>,
) -> String {
    let token = shown_text(rt, alloc, token);
    let version = shown_text(rt, alloc, version);
    format!(in alloc; "page{token},{version}").expect(rt, "memory")
}

/// A word, and a text that may be absent.
fn shown_item(rt: &impl Abort, alloc: Global, word: &str, text: &Option<Text>) -> String {
    let text = shown_text(rt, alloc, text);
    format!(in alloc; "{word}{text}").expect(rt, "memory")
}

fn shown_word(answer: &Answer) -> &str {
    match answer {
        Answer::Opened => "opened",
        Answer::Fault(_) => "fault",
        Answer::End => "end",
        Answer::NotReady => "not ready",
        Answer::Idle => "idle",
        _ => "another",
    }
}

fn shown_answer(rt: &impl Abort, alloc: Global, answer: &Answer) -> String {
    match answer {
        Answer::Page { token, version } => shown_page(rt, alloc, token, version),
        Answer::Added { version } => shown_item(rt, alloc, "added", version),
        Answer::Modified { version } => shown_item(rt, alloc, "modified", version),
        Answer::Deleted { version } => shown_item(rt, alloc, "deleted", version),
        Answer::Bookmark {
            version,
            ending: true,
        } => format!(in alloc; "ending <{version}>").expect(rt, "memory"),
        Answer::Bookmark { version, .. } => {
            format!(in alloc; "bookmark <{version}>").expect(rt, "memory")
        }
        Answer::ErrorItem(status) => {
            let code = status.code;
            format!(in alloc; "error {code}").expect(rt, "memory")
        }
        answer => owned(rt, alloc, shown_word(answer)),
    }
}

fn shown_events(rt: &impl Abort, alloc: Global, events: &[Event<Arc<DynamicObject>>]) -> String {
    let mut shown = String::new(alloc);
    for event in events {
        let one = format!(in alloc; " {event}").expect(rt, "memory");
        shown.push_str(one.as_str()).expect(rt, "memory");
    }
    shown
}

pub fn shown_error(error: &Error) -> &str {
    match error {
        Error::InitialListFailed(_) => "InitialListFailed",
        Error::WatchStartFailed(_) => "WatchStartFailed",
        Error::WatchError(_) => "WatchError",
        Error::WatchFailed(_) => "WatchFailed",
        Error::NoResourceVersion => "NoResourceVersion",
    }
}

/// The error, and whether it says that a script is used up.
fn shown_failure(rt: &impl Abort, alloc: Global, error: &Option<Error>) -> String {
    match error {
        None => String::new(alloc),
        Some(error) => {
            let word = shown_error(error);
            let used_up = if error_indicates_graceful_watch_seq_exhaustion(error) {
                ", used up"
            } else {
                ""
            };
            format!(in alloc; " {word}{used_up}").expect(rt, "memory")
        }
    }
}

/// The call, the answer, the events and the error of a unit.
fn shown(rt: &impl Abort, alloc: Global, unit: &Unit<DynamicObject>) -> String {
    let call = shown_call(rt, alloc, &unit.call);
    let answer = shown_answer(rt, alloc, &unit.answer);
    let events = shown_events(rt, alloc, unit.events.as_slice());
    let error = shown_failure(rt, alloc, &unit.error);
    format!(in alloc; "{call}, {answer}:{events}{error}").expect(rt, "memory")
}

/// What a call of a watcher makes.
fn unit(rt: &impl Abort, alloc: Global, watcher: &mut Watcher<Api>, at: u64) -> String {
    let unit = watcher.poll_unit(alloc, Moment(at)).expect(rt, "memory");
    shown(rt, alloc, &unit)
}

/// What calls of a watcher at these moments make, a line each.
fn units(rt: &impl Abort, alloc: Global, watcher: &mut Watcher<Api>, moments: &[u64]) -> String {
    let mut lines = String::new(alloc);
    for at in moments {
        let line = unit(rt, alloc, watcher, *at);
        add_line(rt, &mut lines, line.as_str());
    }
    lines
}

pub fn add_line(rt: &impl Abort, lines: &mut String, line: &str) {
    lines.push_str(line).expect(rt, "memory");
    lines.push_str("\n").expect(rt, "memory");
}

/// Texts, a line each.
pub fn lines(rt: &impl Abort, alloc: Global, texts: &[&str]) -> String {
    let mut lines = String::new(alloc);
    for text in texts {
        add_line(rt, &mut lines, text);
    }
    lines
}

fn config_of(case: &Case) -> Config {
    Config {
        timeout: case.timeout,
        initial_list_strategy: if case.streaming {
            InitialListStrategy::StreamingList
        } else {
            InitialListStrategy::ListWatch
        },
        ..Config::default()
    }
}

/// What the watcher makes of the script.
pub fn made(rt: &impl Abort, alloc: Global, case: &Case) -> String {
    let api = api(rt, alloc, case.lists, case.watches);
    let mut watcher = watcher(alloc, api, config_of(case));
    units(rt, alloc, &mut watcher, case.polls)
}
