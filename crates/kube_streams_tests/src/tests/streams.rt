//! Streams of answers that are written down, and what adaptors make of them.

use kube_meta::{ApiResource, DynamicObject, Moment, Next, ObjectMeta, Text};
use kube_reflect::Writer;
use kube_streams::predicates::generation;
use kube_streams::{
    ConstantBackoff, EventStream, FnPredicate, LinearBackoff, PredicateConfig, StopBackoff,
    StreamFault, WatchStreamExt, on_complete, split_result,
};
use kube_watch::{Error, Event};
use std::alloc::Global;
use std::collections::VecDeque;
use std::panic::Expect;
use std::process::Abort;
use std::sync::Arc;

type Object = Arc<DynamicObject>;

const SECOND: u64 = 1_000_000_000;

/// Gives its answers, one a poll, and then ends.
#[derive(Drop)]
struct Scripted<T: Drop> {
    answers: VecDeque<Next<Result<Event<T>, Error>>>,
}

impl<T: Drop> EventStream for Scripted<T> {
    ghost use Rattle.std.specs.Prelude.{None};

    type Item = Event<T>;

    ghost told = { λ _. None };

    ghost fault = { λ _. None };

    fn poll_next(
        &mut self,
        _alloc: Global,
        _now: Moment,
        _fuel: u32,
    ) -> Result<Next<Result<Event<T>, Error>>, StreamFault> {
        match self.answers.pop_front() {
            Some(answer) => Ok(answer),
            None => Ok(Next::End),
        }
    }
}

/// What a word stands for in a script.
trait Said: Drop {
    fn said<R: Abort>(rt: &R, alloc: Global, word: &str) -> Self;
}

impl Said for u32 {
    fn said<R: Abort>(_rt: &R, _alloc: Global, word: &str) -> u32 {
        word.parse().unwrap_or(0)
    }
}

/// An object of this name and uid, and the generation behind a point, where there is one.
impl Said for Object {
    fn said<R: Abort>(rt: &R, alloc: Global, word: &str) -> Object {
        let (name, generation) = word.split_once('.').unwrap_or((word, ""));
        let object = DynamicObject::bare(ObjectMeta {
            name: Some(Text::new(alloc, name).expect(rt, "memory")),
            uid: Some(Text::new(alloc, name).expect(rt, "memory")),
            generation: generation.parse().ok(),
            ..ObjectMeta::empty()
        });
        Arc::new(alloc, object).expect(rt, "memory")
    }
}

fn answer_of<T: Said>(rt: &impl Abort, alloc: Global, said: &str) -> Next<Result<Event<T>, Error>> {
    let (kind, word) = said.split_once(' ').unwrap_or((said, ""));
    match kind {
        "Apply" => Next::Item(Ok(Event::Apply(T::said(rt, alloc, word)))),
        "Delete" => Next::Item(Ok(Event::Delete(T::said(rt, alloc, word)))),
        "Init" => Next::Item(Ok(Event::Init)),
        "InitApply" => Next::Item(Ok(Event::InitApply(T::said(rt, alloc, word)))),
        "InitDone" => Next::Item(Ok(Event::InitDone)),
        "error" => Next::Item(Err(Error::NoResourceVersion)),
        "spent" => Next::Spent,
        "end" => Next::End,
        _ => Next::NotReady,
    }
}

fn stream_of<T: Said>(rt: &impl Abort, alloc: Global, script: &str) -> Scripted<T> {
    let mut answers = VecDeque::new(alloc);
    for said in script.split(", ") {
        answers
            .push_back(answer_of(rt, alloc, said))
            .expect(rt, "memory");
    }
    Scripted { answers }
}

/// A stream of events of numbers.
fn numbers(rt: &impl Abort, alloc: Global, script: &str) -> Scripted<u32> {
    stream_of(rt, alloc, script)
}

/// A stream of events of objects.
fn objects(rt: &impl Abort, alloc: Global, script: &str) -> Scripted<Object> {
    stream_of(rt, alloc, script)
}

/// What can be shown.
trait Shown: Drop {
    fn shown<R: Abort>(&self, rt: &R, alloc: Global) -> String;
}

impl Shown for u32 {
    fn shown<R: Abort>(&self, rt: &R, alloc: Global) -> String {
        format!(in alloc; "{self}").expect(rt, "memory")
    }
}

impl Shown for Event<u32> {
    fn shown<R: Abort>(&self, rt: &R, alloc: Global) -> String {
        format!(in alloc; "{self:?}").expect(rt, "memory")
    }
}

impl Shown for Event<Object> {
    fn shown<R: Abort>(&self, rt: &R, alloc: Global) -> String {
        format!(in alloc; "{self}").expect(rt, "memory")
    }
}

impl Shown for Object {
    fn shown<R: Abort>(&self, rt: &R, alloc: Global) -> String {
        let metadata = &self.metadata;
        let (name, generation) = (&metadata.name, metadata.generation.unwrap_or(0));
        format!(in alloc; "{name:?} {generation}").expect(rt, "memory")
    }
}

fn answer_text<T: Shown>(
    rt: &impl Abort,
    alloc: Global,
    answer: &Next<Result<T, Error>>,
) -> String {
    let word = match answer {
        Next::Item(Ok(item)) => return item.shown(rt, alloc),
        Next::Item(Err(_)) => "error",
        Next::NotReady => "not ready",
        Next::Spent => "spent",
        Next::End => "end",
    };
    String::from_str(alloc, word).expect(rt, "memory")
}

/// What a poll with so much fuel answers, at a moment in milliseconds.
fn polled<S: EventStream>(
    rt: &impl Abort,
    alloc: Global,
    stream: &mut S,
    fuel: u32,
    at: u64,
) -> String
where
    S::Item: Shown,
    requires may { S.can_poll stream.old }
    ensures may { S.can_poll stream.new }
{
    let at = Moment(at.saturating_mul(1_000_000));
    let answer = stream
        .poll_next(alloc, at, fuel.max(1))
        .expect(rt, "an answer");
    answer_text(rt, alloc, &answer)
}

/// Polls of a stream are answered so, each with its moment.
fn check<S: EventStream>(rt: &impl Abort, alloc: Global, stream: &mut S, fuel: u32, polls: &str)
where
    S::Item: Shown,
    requires may { S.can_poll stream.old }
{
    for poll in polls.split(", ") {
        let (at, wanted) = poll.split_once(' ').unwrap_or(("", ""));
        let text = polled(rt, alloc, stream, fuel, at.parse().unwrap_or(0));
        assert_eq!(rt; text.as_str(), wanted, "{polls}");
    }
}

/// The same of a stream that ends with it.
fn gives<S: EventStream>(rt: &impl Abort, alloc: Global, stream: S, fuel: u32, polls: &str)
where
    S::Item: Shown,
    requires may { S.can_poll stream }
{
    let mut stream = stream;
    check(rt, alloc, &mut stream, fuel, polls);
}

fn writer(rt: &impl Abort, alloc: Global) -> Writer<DynamicObject> {
    let kind = ApiResource::new(alloc, "", "v1", "ConfigMap", "configmaps").expect(rt, "memory");
    let kind = Arc::new(alloc, kind).expect(rt, "memory");
    Writer::new(alloc, kind, 1).expect(rt, "memory")
}

fn shared_writer(rt: &impl Abort, alloc: Global) -> Writer<DynamicObject> {
    let kind = ApiResource::new(alloc, "", "v1", "ConfigMap", "configmaps").expect(rt, "memory");
    let kind = Arc::new(alloc, kind).expect(rt, "memory");
    Writer::new_shared(alloc, 10, kind, 1).expect(rt, "memory")
}

/// An adaptor gives of a stream so much.
fn adapts(rt: &impl Abort, alloc: Global, by: &str, script: &str, fuel: u32, polls: &str) {
    match by {
        "applied" => {
            let objects = numbers(rt, alloc, script).applied_objects(alloc);
            gives(rt, alloc, objects, fuel, polls)
        }
        "touched" => {
            let objects = numbers(rt, alloc, script).touched_objects(alloc);
            gives(rt, alloc, objects, fuel, polls)
        }
        "settled" => {
            let objects = numbers(rt, alloc, script).settled_objects(alloc);
            gives(rt, alloc, objects, fuel, polls)
        }
        "changed" => {
            let add_one = |object: &mut u32| *object = object.saturating_add(1);
            gives(
                rt,
                alloc,
                numbers(rt, alloc, script).modify(add_one),
                fuel,
                polls,
            )
        }
        "completed" => {
            let events = on_complete(numbers(rt, alloc, script), || {});
            gives(rt, alloc, events, fuel, polls)
        }
        "reflected" => {
            let events = objects(rt, alloc, script).reflect(writer(rt, alloc));
            gives(rt, alloc, events, fuel, polls)
        }
        "shared" => {
            let writer = shared_writer(rt, alloc);
            gives(
                rt,
                alloc,
                objects(rt, alloc, script).reflect_shared(writer),
                fuel,
                polls,
            )
        }
        _ => pauses(rt, alloc, by, script, fuel, polls),
    }
}

/// A backoff or a filter gives of a stream so much.
fn pauses(rt: &impl Abort, alloc: Global, by: &str, script: &str, fuel: u32, polls: &str) {
    match by {
        "constant" => {
            let backoff = ConstantBackoff { delay: SECOND };
            gives(
                rt,
                alloc,
                numbers(rt, alloc, script).backoff(backoff),
                fuel,
                polls,
            )
        }
        "linear" => {
            let backoff = LinearBackoff::new(2 * SECOND);
            gives(
                rt,
                alloc,
                numbers(rt, alloc, script).backoff(backoff),
                fuel,
                polls,
            )
        }
        "stopped" => {
            let events = numbers(rt, alloc, script).backoff(StopBackoff);
            gives(rt, alloc, events, fuel, polls)
        }
        "default" => {
            let events = numbers(rt, alloc, script).default_backoff();
            gives(rt, alloc, events, fuel, polls)
        }
        "short" => filters(
            rt,
            alloc,
            PredicateConfig::default().ttl(50_000_000),
            script,
            fuel,
            polls,
        ),
        _ => filters(rt, alloc, PredicateConfig::default(), script, fuel, polls),
    }
}

/// A filter of the generation gives of a stream so much.
fn filters(
    rt: &impl Abort,
    alloc: Global,
    config: PredicateConfig,
    script: &str,
    fuel: u32,
    polls: &str,
) {
    let objects = objects(rt, alloc, script).applied_objects(alloc);
    let by = FnPredicate(generation::<DynamicObject>);
    gives(
        rt,
        alloc,
        objects.predicate_filter(alloc, by, config),
        fuel,
        polls,
    )
}

/// The adaptor and the fuel of each poll, what the stream answers, and each poll: its moment in milliseconds, and its answer.
///
/// Events without an object spend fuel. A list is settled at its end; what an interrupted one gave is dropped, and one goes on after an
/// error. A pause grows until an item comes, and a stream whose pause is over may itself not be ready. A sight counts for less than the
/// ttl of a filter, and an object without the property passes.
const ROWS: &str =
    r#"applied 9 | Apply 0, Apply 1, Delete 0, Apply 2, InitApply 1, InitApply 2, error, Apply 2 | 0 0, 0 1, 0 2, 0 1, 0 2, 0 error, 0 2, 0 end
applied 2 | Init, InitDone, Apply 1 | 0 spent, 0 1
touched 9 | Apply 0, Apply 1, Delete 0, Apply 2 | 0 0, 0 1, 0 0, 0 2
settled 3 | Init, InitApply 1, InitApply 2, InitDone, Apply 3 | 0 spent, 0 1, 0 2, 0 3, 0 end
settled 9 | Init, InitApply 1, error, Init, InitApply 2, InitDone | 0 error, 0 2, 0 end
settled 9 | Init, InitApply 1, error, not ready, Delete 3, InitApply 2, InitDone | 0 error, 0 not ready, 0 1, 0 2, 0 end
changed 9 | Apply 0, error, InitApply 10 | 0 Apply(1), 0 error, 0 InitApply(11), 0 end
completed 9 | Init, end, Apply 1 | 0 Init, 0 end, 0 end
reflected 9 | Apply a, error, Init, InitApply a, InitApply b, InitDone | 0 Apply(a), 0 error, 0 Init, 0 InitApply(a), 0 InitApply(b), 0 InitDone, 0 end
shared 9 | Apply a, error, Init, InitApply a, InitApply b, InitDone | 0 Apply(a), 0 error, 0 Init, 0 InitApply(a), 0 InitApply(b), 0 InitDone, 0 end
constant 1 | Apply 0, Apply 1, error, Apply 3, Apply 4 | 0 Apply(0), 0 Apply(1), 0 error, 0 not ready, 2000 Apply(3), 2000 Apply(4), 2000 end
linear 1 | error, not ready, error, Apply 4, error, spent | 0 error, 1000 not ready, 3000 not ready, 3000 error, 3000 not ready, 6000 not ready, 8000 Apply(4), 8000 error, 9000 not ready, 10000 spent, 10000 end
stopped 1 | Apply 0, error, Apply 3 | 0 Apply(0), 0 error, 0 end, 9000 end
default 1 | error, Apply 1 | 0 error, 0 not ready, 1000 Apply(1)
filtered 9 | Apply a.1, error, Apply a.1, Apply a.2 | 0 Some("a") 1, 0 error, 0 Some("a") 2, 0 end
filtered 9 | Apply a.1, Apply a.1, Apply b.1, Apply c.2 | 0 Some("a") 1, 0 Some("b") 1, 0 Some("c") 2, 0 end
short 1 | Apply a.1, Apply a.1, Apply a.1, Apply a.1, Apply a.1, Apply a.1, Apply a.1 | 0 Some("a") 1, 0 spent, 100 Some("a") 1, 149 spent, 198 spent, 248 Some("a") 1, 248 spent
filtered 9 | Apply a, Apply a, Apply a.1, Apply a, Apply a.1 | 0 Some("a") 0, 0 Some("a") 0, 0 Some("a") 1, 0 Some("a") 0, 0 end"#;

/// A row is so.
fn holds(rt: &impl Abort, alloc: Global, line: &str) {
    let (head, rest) = line.split_once(" | ").unwrap_or(("", ""));
    let (by, fuel) = head.split_once(' ').unwrap_or(("", ""));
    let (script, polls) = rest.split_once(" | ").unwrap_or(("", ""));
    adapts(rt, alloc, by, script, fuel.parse().unwrap_or(1), polls)
}

#[test]
fn adaptors_give_what_their_rows_say(rt: HostRuntime) {
    for line in ROWS.split('\n') {
        holds(&rt, rt.alloc(), line);
    }
}

/// How many objects are stored after so many events of a list of two behind an object and an error.
fn stored(rt: &impl Abort, alloc: Global, polls: &str) -> usize {
    let script = "Apply a, error, Init, InitApply a, InitApply b, InitDone";
    let mut events = objects(rt, alloc, script).reflect(writer(rt, alloc));
    check(rt, alloc, &mut events, 9, polls);
    events.into_writer().cache().len()
}

#[test]
fn each_event_is_applied_before_it_is_given(rt: HostRuntime) {
    let before = stored(
        &rt,
        rt.alloc(),
        "0 Apply(a), 0 error, 0 Init, 0 InitApply(a), 0 InitApply(b)",
    );
    assert_eq!(rt; before, 1);
    let after = stored(
        &rt,
        rt.alloc(),
        "0 Apply(a), 0 error, 0 Init, 0 InitApply(a), 0 InitApply(b), 0 InitDone",
    );
    assert_eq!(rt; after, 2);
}

/// The numbers that are ok, and those that are errors.
fn taken_apart(rt: &impl Abort, alloc: Global) -> String {
    let results = vec![in alloc; Ok(1), Err(2), Ok(3)].expect(rt, "memory");
    let (items, errors) = split_result::<u32, u32>(alloc, results).expect(rt, "memory");
    format!(in alloc; "{items:?} {errors:?}").expect(rt, "memory")
}

#[test]
fn results_are_taken_apart(rt: HostRuntime) {
    let text = taken_apart(&rt, rt.alloc());
    assert_eq!(rt; text.as_str(), "[1, 3] [2]");
}
