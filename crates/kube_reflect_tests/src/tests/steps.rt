//! Steps of a writer, and of a handle that reads what it published.

ghost use Rattle.std.specs.Prelude.{◌≤◌};
ghost use Rattle.kube_reflect.specs.Writers.{AllStay};

use super::objects::{
    Maps, Object, event_of, found_name, halves, key_of, names_in, names_of, text_of, type_of,
};
use kube_meta::{DynamicObject, Expression, Polled, Selector, Text};
use kube_reflect::{Cache, Ended, Store, WriteError, Writer, WriterDropped};
use kube_watch::Event;
use std::alloc::Global;
use std::panic::Expect;
use std::process::Abort;
use std::sync::Wait;

pub type Reads = Store<DynamicObject>;

/// Whether an object has the generation 1234.
fn is_marked(object: &DynamicObject) -> bool {
    object.metadata.generation == Some(1234)
}

/// The selector of objects whose label `app` is this.
fn selector_of(rt: &impl Abort, alloc: Global, app: &str) -> Selector {
    let key = Text::new(alloc, "app").expect(rt, "memory");
    let value = Text::new(alloc, app).expect(rt, "memory");
    let mut selector = Selector::new(alloc);
    let expression = Expression::Equal(key, value);
    selector.push(expression).expect(rt, "memory");
    selector
}

/// The object that a writer stores under a reference.
fn stored_one(rt: &impl Abort, alloc: Global, cache: &Cache<DynamicObject>, word: &str) -> String {
    let key = key_of(rt, alloc, word);
    found_name(rt, alloc, cache.get(&key))
}

/// The objects of this label that a writer stores.
fn stored_of(rt: &impl Abort, alloc: Global, cache: &Cache<DynamicObject>, app: &str) -> String {
    let selector = selector_of(rt, alloc, app);
    let objects = cache.state_filter_selector(alloc, &selector);
    names_of(rt, alloc, objects.expect(rt, "memory"))
}

/// What is found among what a writer stores: all objects, all references, the object under one, the first one and all those of the
/// generation 1234, or those of a label.
pub fn stored(rt: &impl Abort, alloc: Global, cache: &Cache<DynamicObject>, look: &str) -> String {
    let (kind, word) = halves(look, ' ');
    match kind {
        "all" => names_of(rt, alloc, cache.state(alloc).expect(rt, "memory")),
        "keys" => names_in(rt, alloc, cache.keys(alloc).expect(rt, "memory")),
        "get" => stored_one(rt, alloc, cache, word),
        "find" => found_name(rt, alloc, cache.find(is_marked)),
        "filter" => {
            let objects = cache.state_filter(alloc, is_marked);
            names_of(rt, alloc, objects.expect(rt, "memory"))
        }
        _ => stored_of(rt, alloc, cache, word),
    }
}

/// The name of an object that was read.
fn read_name(rt: &impl Abort, alloc: Global, found: Option<Object>) -> String {
    found_name(rt, alloc, found.as_ref())
}

/// The object that a handle reads under a reference.
fn read_one<R: Abort + Wait>(rt: &R, alloc: Global, reads: &mut Reads, word: &str) -> String {
    let key = key_of(rt, alloc, word);
    let found = reads.get(rt, alloc, &key).expect(rt, "memory");
    read_name(rt, alloc, found)
}

/// The objects of this label that a handle reads.
fn read_of<R: Abort + Wait>(rt: &R, alloc: Global, reads: &mut Reads, app: &str) -> String {
    let selector = selector_of(rt, alloc, app);
    let objects = reads.state_filter_selector(rt, alloc, &selector);
    names_of(rt, alloc, objects.expect(rt, "memory"))
}

/// What a handle tells of its writer.
fn told<R: Wait>(rt: &R, reads: &mut Reads) -> &'static str {
    match reads.poll_ready(rt) {
        Polled::Ready(Ok(())) => "ready",
        Polled::Ready(Err(WriterDropped)) => "dropped",
        Polled::NotReady => "not ready",
    }
}

/// The same of what a handle reads, and what it tells of its writer.
fn read<R: Abort + Wait>(rt: &R, alloc: Global, reads: &mut Reads, look: &str) -> String {
    let (kind, word) = halves(look, ' ');
    match kind {
        "all" => names_of(rt, alloc, reads.state(rt, alloc).expect(rt, "memory")),
        "keys" => names_in(rt, alloc, reads.keys(rt, alloc).expect(rt, "memory")),
        "get" => read_one(rt, alloc, reads, word),
        "find" => {
            let found = reads.find(rt, alloc, is_marked);
            read_name(rt, alloc, found.expect(rt, "memory"))
        }
        "filter" => {
            let objects = reads.state_filter(rt, alloc, is_marked);
            names_of(rt, alloc, objects.expect(rt, "memory"))
        }
        "of" => read_of(rt, alloc, reads, word),
        _ => text_of(rt, alloc, told(rt, reads)),
    }
}

/// How many objects a handle reads.
pub fn len_of<R: Wait>(rt: &R, reads: &mut Reads) -> usize {
    reads.len(rt)
}

/// Applies an event.
pub fn apply(
    rt: &impl Abort,
    alloc: Global,
    writer: &mut Maps,
    said: &str,
) -> Result<(), WriteError>
    ensures live { AllStay writer.old writer.new }
{
    let event = event_of(rt, alloc, said);
    writer.apply_watcher_event(alloc, &event)
}

fn events_of(rt: &impl Abort, alloc: Global, all: &str) -> Vec<Event<Object>> {
    let mut events = Vec::new(alloc);
    for said in all.split("; ") {
        let event = event_of(rt, alloc, said);
        events.push(event).expect(rt, "memory");
    }
    events
}

/// Applies events at once.
fn apply_all(
    rt: &impl Abort,
    alloc: Global,
    writer: &mut Maps,
    all: &str,
) -> Result<(), WriteError> {
    let events = events_of(rt, alloc, all);
    writer.apply_watcher_events(alloc, events.as_slice())
}

/// Nothing for events that were applied.
fn outcome(answer: Result<(), WriteError>) -> &'static str {
    match answer {
        Ok(()) => "",
        Err(WriteError::Unnamed) => "unnamed",
        Err(WriteError::NoMemory) => "no memory",
    }
}

/// Publishes, and drops the note.
pub fn publish<R: Wait>(rt: &R, alloc: Global, writer: &mut Maps) -> bool {
    writer.publish(rt, alloc).is_ok()
}

/// What comes of a step: a look into what is stored or read, a publish, events at once, or one.
fn answered<R: Abort + Wait>(
    rt: &R,
    alloc: Global,
    handle: &mut Reads,
    writer: &mut Maps,
    step: &str,
) -> String {
    let (kind, rest) = halves(step, ' ');
    let word = match kind {
        "stored" => return stored(rt, alloc, writer.cache(), rest),
        "read" => return read(rt, alloc, handle, rest),
        "publish" if publish(rt, alloc, writer) => "",
        "publish" => "no memory",
        "all" => outcome(apply_all(rt, alloc, writer, rest)),
        _ => outcome(apply(rt, alloc, writer, step)),
    };
    text_of(rt, alloc, word)
}

/// Each step comes out as it is to.
fn check_steps<R: Abort + Wait>(
    rt: &R,
    alloc: Global,
    handle: &mut Reads,
    writer: &mut Maps,
    steps: &str,
) {
    for step in steps.split(", ") {
        let (step, wanted) = halves(step, '=');
        let text = answered(rt, alloc, handle, writer, step);
        assert_eq!(rt; text.as_str(), wanted, "{step} in {steps}");
    }
}

/// A writer of config maps with so many reader places.
pub fn with_places(rt: &impl Abort, alloc: Global, readers: u32) -> Maps
    requires { 1 ≤ readers }
{
    Writer::new(alloc, type_of(rt, alloc), readers).expect(rt, "memory")
}

/// The handle that takes a reader place.
pub fn place(rt: &impl Abort, writer: &mut Maps) -> Reads {
    writer.as_reader().expect(rt, "a place is left")
}

/// The end of a writer. What drops a writer itself takes seconds more to check, so each test hands it over.
pub fn drop_writer(_writer: Maps) {}

/// The end of a handle, for the same reason.
pub fn drop_handle(_handle: Reads) {}

/// A handle reads objects of these names.
fn check_read<R: Abort + Wait>(rt: &R, alloc: Global, handle: &mut Reads, names: &str) {
    let text = read(rt, alloc, handle, "all");
    assert_eq!(rt; text.as_str(), names);
}

/// What a writer leaves that ends.
fn ended<R: Abort + Wait>(rt: &R, alloc: Global, writer: Maps) -> Ended<DynamicObject> {
    match writer.end(rt, alloc) {
        Ok(ended) => ended,
        Err(_) => panic!(rt; "memory"),
    }
}

fn drop_left(_left: Ended<DynamicObject>) {}

/// The steps of a row come out, and once the writer has ended the handle tells and reads what stands behind them, also when what the writer
/// left is gone.
fn check_row<R: Abort + Wait>(rt: &R, alloc: Global, line: &str) {
    let (steps, end) = halves(line, '|');
    let (tells, names) = halves(end, '=');
    let mut writer = with_places(rt, alloc, 1);
    let mut handle = place(rt, &mut writer);
    check_steps(rt, alloc, &mut handle, &mut writer, steps);
    let left = ended(rt, alloc, writer);
    assert_eq!(rt; told(rt, &mut handle), tells, "{line}");
    drop_left(left);
    check_read(rt, alloc, &mut handle, names);
    drop_handle(handle);
}

/// Each row comes out.
fn check_rows<R: Abort + Wait>(rt: &R, alloc: Global, rows: &str) {
    for line in rows.split('\n') {
        check_row(rt, alloc, line);
    }
}

/// Steps of a writer, each with what comes of it.
///
/// A list is applied at once or not at all, replaces the store once it is complete, is stored in the order in which it came, and may end
/// without a beginning. An object that it brings again keeps its place. A namespace is part of the reference, and an object without one is
/// found within any. An object is found by what it has.
const STORED: &str = "\
Apply c, all Init; InitApply a; InitApply ; InitDone=unnamed, stored all= c, all Init; InitApply a; InitApply b; InitDone, stored all= a b, stored keys= a b|ready= a b
Apply a, Init, InitApply b, stored get a=a, stored get b=none, InitDone, stored get a=none, stored get b=b|ready= b
all Init; InitApply c; InitApply a; InitApply a/ns; InitApply b; InitDone, stored all= c a a b, stored get a/ns=a, Delete a, stored all= c a b, stored get a=none, stored get a/ns=a|ready= c a b
all Init; InitApply b; InitApply a///1; InitApply c; InitApply a///1234; InitDone, stored all= b a c, stored find=a|ready= b a c
InitDone, stored all=|ready=
Apply a/ns, stored get a=none, stored get a/ns=a|dropped= a
Apply a, stored get a/ns=a|dropped= a
Apply =unnamed, stored all=|dropped=
Apply cm1//nginx/1234, Apply cm2//postgres, stored of nginx= cm1, stored filter= cm1|dropped= cm1 cm2
stored all=, Apply a, stored find=none, Apply b///1234, stored find=b, stored all= a b|dropped= a b";

#[test]
fn a_writer_stores_what_its_events_say(rt: HostRuntime) {
    check_rows(&rt, rt.alloc(), STORED);
}

/// A handle reads what was published, by each call, and is ready once a list is.
const READ: &str = "\
read tells=not ready, InitDone, read tells=not ready, publish, read tells=ready|ready=
Apply a, read all=, publish, read tells=not ready, read all= a, Apply b///1234, read all= a, publish, read all= a b, read filter= b, read find=b|dropped= a b
Apply a, Apply b, publish, Delete a, read get a=a, publish, read keys= b, publish, read get b/ns=b, Delete b, read all= b, publish, read all=|dropped=
Apply a, Apply b//web, publish, read of web= b, read get b=b, read get c=none|dropped= a b";

#[test]
fn a_handle_reads_what_was_published(rt: HostRuntime) {
    check_rows(&rt, rt.alloc(), READ);
}

/// Nothing that was published, and a list with an object behind it.
const ENDED: &str = "\
stored all=|dropped=
InitDone, Apply a|ready= a";

#[test]
fn a_writer_that_ends_leaves_what_it_had(rt: HostRuntime) {
    check_rows(&rt, rt.alloc(), ENDED);
}
