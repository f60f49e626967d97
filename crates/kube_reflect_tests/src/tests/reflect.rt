//! Reflectors, and the subscribers of their writers.

ghost use Rattle.std.specs.Prelude.{◌≡◌, ◌≤◌, true};
ghost use Rattle.kube_reflect.specs.Writers.{is_live, AllStay};

use super::objects::{Maps, Object, event_of, halves, key_of, name_of, named, text_of, type_of};
use super::steps::{apply, drop_writer, stored, with_places};
use kube_meta::{DynamicObject, Moment, Next};
use kube_reflect::reflector::reflector;
use kube_reflect::{OfferError, ReflectHandle, Reflector, Writer};
use kube_watch::{Error, Event, EventStream, StreamFault};
use std::alloc::Global;
use std::collections::VecDeque;
use std::panic::Expect;
use std::process::Abort;

type Said = Next<Result<Event<Object>, Error>>;

type Answer = Result<Said, StreamFault>;

/// A stream that gives its answers, and then ends.
#[derive(Drop)]
pub struct Script {
    pub answers: VecDeque<Said>,
}

impl EventStream for Script {
    ghost use Rattle.std.specs.Prelude.{None};

    type Item = Event<Object>;

    ghost told = { λ _. None };

    ghost fault = { λ _. None };

    fn poll_next(&mut self, _alloc: Global, _now: Moment, _fuel: u32) -> Answer {
        match self.answers.pop_front() {
            Some(said) => Ok(said),
            None => Ok(Next::End),
        }
    }
}

pub type Reflected = Reflector<DynamicObject, Script>;

fn answer_of(rt: &impl Abort, alloc: Global, said: &str) -> Said {
    match said {
        "error" => Next::Item(Err(Error::NoResourceVersion)),
        "end" => Next::End,
        _ => Next::Item(Ok(event_of(rt, alloc, said))),
    }
}

fn script_of(rt: &impl Abort, alloc: Global, all: &str) -> Script {
    let mut answers = VecDeque::new(alloc);
    for said in all.split(", ") {
        let answer = answer_of(rt, alloc, said);
        answers.push_back(answer).expect(rt, "memory");
    }
    Script { answers }
}

/// A writer of config maps with room for so many offers.
fn shared_writer(rt: &impl Abort, alloc: Global, room: u32) -> Maps
    requires { 1 ≤ room }
{
    Writer::new_shared(alloc, room, type_of(rt, alloc), 1).expect(rt, "memory")
}

/// A writer with the room of this word.
fn writer_of(rt: &impl Abort, alloc: Global, room: &str) -> Maps {
    match room {
        "1" => shared_writer(rt, alloc, 1),
        _ => shared_writer(rt, alloc, 10),
    }
}

/// A reflector of a writer, over a script.
fn reflector_of(rt: &impl Abort, alloc: Global, writer: Maps, script: &str) -> Reflected
    ensures { result.writer ≡ writer }
{
    reflector(writer, script_of(rt, alloc, script))
}

/// An answer in words.
fn shown(rt: &impl Abort, alloc: Global, answer: &Answer) -> String {
    let word = match answer {
        Ok(Next::Item(Ok(event))) => return format!(in alloc; "{event}").expect(rt, "memory"),
        Ok(Next::Item(Err(_))) => "error",
        Ok(Next::NotReady) => "not ready",
        Ok(Next::Spent) => "spent",
        Ok(Next::End) => "end",
        Err(_) => "a fault",
    };
    text_of(rt, alloc, word)
}

/// What a poll gives. Subscribers stay.
fn polled(rt: &impl Abort, alloc: Global, reflected: &mut Reflected) -> String
    ensures live { AllStay reflected.old.writer reflected.new.writer }
{
    let answer = reflected.poll_next(alloc, Moment(0), 2);
    shown(rt, alloc, &answer)
}

pub type Handle = ReflectHandle<DynamicObject>;

/// A word for what a subscriber is given.
fn word(answer: &Next<Object>) -> &str {
    match answer {
        Next::Item(object) => name_of(&**object),
        Next::NotReady => "not ready",
        Next::Spent => "spent",
        Next::End => "end",
    }
}

/// What a subscriber is given.
fn taken(rt: &impl Abort, alloc: Global, handle: &mut Handle, writer: &mut Maps) -> String
    requires { is_live writer.old handle.old.number ≡ true }
    ensures number { handle.new.number ≡ handle.old.number }
    ensures live { AllStay writer.old writer.new }
{
    let answer = handle.poll_next(alloc, writer).expect(rt, "memory");
    text_of(rt, alloc, word(&answer))
}

/// Offers a reference. Nothing for one that was taken.
fn offered(rt: &impl Abort, alloc: Global, writer: &mut Maps, name: &str) -> &'static str
    ensures live { AllStay writer.old writer.new }
{
    let key = key_of(rt, alloc, name);
    match writer.offer(alloc, key) {
        Ok(()) => "",
        Err(OfferError::Full) => "full",
        Err(OfferError::NoMemory) => "no memory",
    }
}

/// A look into what a writer stores. It stays as it is.
fn stored_in(rt: &impl Abort, alloc: Global, writer: &mut Maps, look: &str) -> String
    ensures { writer.new ≡ writer.old }
{
    stored(rt, alloc, writer.cache(), look)
}

/// What a turn of a writer or of its subscriber gives: an object that is taken, a look into what is stored, the end of all offers, an event that is
/// applied, or an offer.
fn of_writer(
    rt: &impl Abort,
    alloc: Global,
    handle: &mut Handle,
    writer: &mut Maps,
    turn: &str,
) -> String
    requires { is_live writer.old handle.old.number ≡ true }
    ensures number { handle.new.number ≡ handle.old.number }
    ensures live { AllStay writer.old writer.new }
{
    let (kind, rest) = halves(turn, ' ');
    let word = match kind {
        "takes" => return taken(rt, alloc, handle, writer),
        "stored" => return stored_in(rt, alloc, writer, rest),
        "closes" => {
            writer.close_subscribers();
            ""
        }
        "offers" => offered(rt, alloc, writer, rest),
        _ => {
            apply(rt, alloc, writer, turn).expect(rt, "applied");
            ""
        }
    };
    text_of(rt, alloc, word)
}

/// The same, and what a poll of the reflector gives.
fn of_one(
    rt: &impl Abort,
    alloc: Global,
    handle: &mut Handle,
    reflected: &mut Reflected,
    turn: &str,
) -> String
    requires { is_live reflected.old.writer handle.old.number ≡ true }
    ensures number { handle.new.number ≡ handle.old.number }
    ensures live { AllStay reflected.old.writer reflected.new.writer }
{
    match turn {
        "gives" => polled(rt, alloc, reflected),
        _ => of_writer(rt, alloc, handle, reflected.writer(), turn),
    }
}

/// Checks a turn of one of two subscribers. Both stay.
fn check_one(
    rt: &impl Abort,
    alloc: Global,
    first: &mut Handle,
    second: &mut Handle,
    reflected: &mut Reflected,
    said: &str,
)
    requires first { is_live reflected.old.writer first.old.number ≡ true }
    requires second { is_live reflected.old.writer second.old.number ≡ true }
    ensures first { is_live reflected.new.writer first.new.number ≡ true }
    ensures second { is_live reflected.new.writer second.new.number ≡ true }
{
    let (said, wanted) = halves(said, '=');
    let (who, turn) = halves(said, ' ');
    let text = match who {
        "1" => of_one(rt, alloc, first, reflected, turn),
        _ => of_one(rt, alloc, second, reflected, turn),
    };
    assert_eq!(rt; text.as_str(), wanted, "{said}");
}

/// Checks turns of two subscribers.
fn check_both(
    rt: &impl Abort,
    alloc: Global,
    first: &mut Handle,
    second: &mut Handle,
    reflected: &mut Reflected,
    turns: &str,
)
    requires first { is_live reflected.old.writer first.old.number ≡ true }
    requires second { is_live reflected.old.writer second.old.number ≡ true }
{
    for turn in turns.split(", ") {
        check_one(rt, alloc, first, second, reflected, turn);
    }
}

/// A subscriber, where the writer is shared.
fn subscriber(rt: &impl Abort, alloc: Global, writer: &mut Maps) -> Handle
    ensures own { is_live writer.new result.number ≡ true }
    ensures live { AllStay writer.old writer.new }
{
    let added = writer.subscribe(alloc).expect(rt, "memory");
    added.expect(rt, "shared")
}

/// The writer of a reflector, whose script ends with it.
fn writer_in(reflected: Reflected) -> Maps {
    reflected.into_writer()
}

/// The end of two subscribers and of their reflector.
fn drop_both(_first: Handle, _second: Handle, reflected: Reflected) {
    drop_writer(writer_in(reflected));
}

/// The turns of a row come out.
fn check_row(rt: &impl Abort, alloc: Global, line: &str) {
    let (room, rest) = halves(line, '|');
    let (script, turns) = halves(rest, '|');
    let mut writer = writer_of(rt, alloc, room);
    let mut first = subscriber(rt, alloc, &mut writer);
    let mut second = first.clone(alloc, &mut writer).expect(rt, "memory");
    let mut reflected = reflector_of(rt, alloc, writer, script);
    check_both(rt, alloc, &mut first, &mut second, &mut reflected, turns);
    drop_both(first, second, reflected);
}

/// The room of a writer, the script of a reflector, and turns of it, of its writer, and of two subscribers, each with what comes of it.
///
/// What is no longer stored is passed over. A full ring takes no offer. Subscribers are told of changes and lists. The slower one of two
/// holds the reflector.
const ROWS: &str = "\
10|end|1 Apply a=, 1 Apply b=, 1 offers a=, 1 offers b=, 1 Delete b=, 1 takes=a, 1 takes=not ready, 1 closes=, 1 takes=end
1|end|1 Apply a=, 1 offers a=, 1 offers a=full, 1 takes=a, 1 takes=not ready, 2 takes=a, 2 offers a=
10|Delete foo, Apply foo, error, Init, InitApply foo, InitApply bar, InitDone|1 gives=Delete(foo), 1 takes=not ready, 1 gives=Apply(foo), 1 stored all= foo, 1 takes=foo, 1 gives=error, 1 gives=Init, 1 gives=InitApply(foo), 1 gives=InitApply(bar), 1 takes=not ready, 1 stored all= foo, 1 gives=InitDone, 1 stored all= foo bar, 1 takes=foo, 1 takes=bar, 1 takes=not ready, 1 gives=end, 1 takes=end, 2 takes=foo, 2 takes=foo, 2 takes=bar, 2 takes=end
10|Apply a, Apply a///1234, Delete a///1234|1 gives=Apply(a), 1 stored all= a, 1 stored find=none, 1 gives=Apply(a), 1 stored find=a, 1 gives=Delete(a), 1 stored all=
1|Apply foo, Apply bar, Apply foo|1 gives=Apply(foo), 1 gives=not ready, 1 takes=foo, 1 gives=not ready, 2 takes=foo, 1 gives=Apply(bar), 1 takes=bar, 2 takes=bar, 1 gives=Apply(foo), 1 gives=end, 1 takes=foo, 2 takes=foo, 1 takes=end, 2 takes=end";

#[test]
fn subscribers_are_given_what_is_offered(rt: HostRuntime) {
    for line in ROWS.split('\n') {
        check_row(&rt, rt.alloc(), line);
    }
}

/// The next of numbers that look like chance.
fn next_number(state: u64) -> u64 {
    state
        .wrapping_mul(6_364_136_223_846_793_005)
        .wrapping_add(1_442_695_040_888_963_407)
}

/// An event of an object of a hundred, by a number.
fn any_event(rt: &impl Abort, alloc: Global, state: u64) -> Event<Object> {
    let number = (state >> 33) % 100;
    let name = format!(in alloc; "{number}").expect(rt, "memory");
    let object = named(rt, alloc, name.as_str());
    if (state >> 40) % 5 < 2 {
        return Event::Delete(object);
    }
    Event::Apply(object)
}

/// A script of so many events.
fn events(rt: &impl Abort, alloc: Global, count: u32) -> Script {
    let mut answers = VecDeque::new(alloc);
    let mut state = 1;
    for _event in 0..count {
        state = next_number(state);
        let answer: Said = Next::Item(Ok(any_event(rt, alloc, state)));
        answers.push_back(answer).expect(rt, "memory");
    }
    Script { answers }
}

/// Whether a reflector gives an event.
fn gives_event(alloc: Global, reflected: &mut Reflected) -> bool {
    let answer = reflected.poll_next(alloc, Moment(0), 1);
    matches!(&answer, Ok(Next::Item(Ok(_))))
}

/// A reflector gives so many events.
fn reflect_many(rt: &impl Abort, alloc: Global, reflected: &mut Reflected, count: u32) {
    for _event in 0..count {
        assert!(rt; gives_event(alloc, reflected));
    }
}

/// How many words are this one.
fn count_of(words: &str, wanted: &str) -> usize {
    let mut count = 0usize;
    for word in words.split(' ') {
        if word == wanted {
            count = count.saturating_add(1);
        }
    }
    count
}

/// A writer stores no name twice, and more than ten objects.
fn check_different(rt: &impl Abort, alloc: Global, writer: &Maps) {
    let names = stored(rt, alloc, writer.cache(), "all");
    for name in names.as_str().split(' ') {
        assert_eq!(rt; count_of(names.as_str(), name), 1, "{name}");
    }
    assert!(rt; writer.cache().len() > 10);
}

#[test]
fn no_name_is_stored_twice(rt: HostRuntime) {
    let alloc = rt.alloc();
    let writer = with_places(&rt, alloc, 1);
    let mut reflected = reflector(writer, events(&rt, alloc, 100_000));
    reflect_many(&rt, alloc, &mut reflected, 100_000);
    let writer = writer_in(reflected);
    check_different(&rt, alloc, &writer);
    drop_writer(writer);
}
