//! Appliers over a store and a queue of many requests, and controllers with sources of owned objects.

use super::node::Node;
use kube_api::{ApiError, ApiMode, ListParams, Page, WatchEvent, WatchParams};
use kube_feed::{
    Applier, Config, Finish, ReconcileRequest, Recorder, RunError, Store, Trace, Turn, TurnRecord,
    applier,
};
use kube_meta::{Action, List, Moment, Next, NoMemory, ObjectMeta, ObjectRef, Polled, Text};
use kube_model::error::Error;
use kube_reflect::Writer;
use kube_watch::{Config as WatcherConfig, Event, EventStream, StreamFault};
use std::alloc::Global;
use std::panic::Expect;
use std::process::Abort;
use std::sync::{Arc, Wait};

/// How many nodes a store has, or none where its writer ended before it told a list; how many of them a queue requests, and
/// whether it ends then; how often it may be asked in a turn. Each turn but the first finishes all that the queue requested, to
/// be made again at once. Then what each turn has: exchanges, what was taken and finished, whether the runner and the trace
/// ended.
struct Row {
    stored: Option<u32>,
    requests: u32,
    ends: bool,
    budget: u32,
    wanted: &'static [[usize; 5]],
}

const ROWS: [Row; 3] = [
    Row {
        stored: None,
        requests: 0,
        ends: false,
        budget: 0,
        wanted: &[[0, 0, 0, 1, 1]],
    },
    Row {
        stored: Some(1),
        requests: 1,
        ends: true,
        budget: 2,
        wanted: &[[2, 0, 0, 0, 1]],
    },
    Row {
        stored: Some(5_000),
        requests: 5_000,
        ends: false,
        budget: 5_000,
        wanted: &[
            [5_000, 5_000, 0, 0, 0],
            [1, 5_000, 5_000, 0, 0],
            [1, 5_000, 5_000, 0, 0],
            [1, 5_000, 5_000, 0, 0],
        ],
    },
];

fn name(rt: &impl Abort, alloc: Global, number: u32) -> Text {
    Text::from(format!(in alloc; "n{number}").expect(rt, "memory"))
}

fn reference(rt: &impl Abort, alloc: Global, number: u32) -> ObjectRef<Node> {
    let name = name(rt, alloc, number);
    ObjectRef::new(alloc, name.as_str()).expect(rt, "memory")
}

/// That a node is listed.
fn listed(rt: &impl Abort, alloc: Global, number: u32) -> Event<Arc<Node>> {
    let metadata = ObjectMeta {
        name: Some(name(rt, alloc, number)),
        ..ObjectMeta::empty()
    };
    Event::InitApply(Arc::new(alloc, Node { metadata }).expect(rt, "memory"))
}

/// Requests so many nodes, one a poll; then it ends or is not ready. It has what it stops by for want of memory.
#[derive(Drop)]
struct Queue<R> {
    rt: R,
    next: u32,
    requests: u32,
    ends: bool,
}

impl<R: Abort + Copy> EventStream for Queue<R> {
    ghost use Rattle.std.specs.Prelude.{None};

    type Item = ReconcileRequest<Node>;

    ghost told = { λ _. None };

    ghost fault = { λ _. None };

    fn poll_next(
        &mut self,
        alloc: Global,
        _now: Moment,
        _fuel: u32,
    ) -> Result<Next<Result<ReconcileRequest<Node>, Error>>, StreamFault> {
        if self.next >= self.requests {
            return Ok(if self.ends { Next::End } else { Next::NotReady });
        }
        let reference = reference(&self.rt, alloc, self.next);
        self.next = self.next.saturating_add(1);
        Ok(Next::Item(Ok(ReconcileRequest::from_ref(reference))))
    }
}

type Nodes<R> = Applier<Node, Queue<R>>;

type Answered = Result<Trace<Node, u64>, RunError<Node, u64>>;

fn queued<R: Abort + Copy>(rt: &R, alloc: Global, store: Store<Node>, row: &Row) -> Nodes<R> {
    let queue = Queue {
        rt: *rt,
        next: 0,
        requests: row.requests,
        ends: row.ends,
    };
    applier(alloc, store, queue, Config::default()).expect(rt, "memory")
}

/// So many finishes of the first nodes, to be made again at once.
fn finishes(rt: &impl Abort, alloc: Global, count: u32) -> List<Finish<Node, u64>> {
    let mut finishes = List::new(alloc);
    for number in 0..count {
        let reference = reference(rt, alloc, number);
        let outcome = Ok(Action::requeue(0));
        finishes
            .push(Finish { reference, outcome })
            .expect(rt, "memory");
    }
    finishes
}

fn turn(rt: &impl Abort, alloc: Global, budget: u32, finished: u32) -> Turn<Node, u64> {
    let budget = vec![in alloc; budget].expect(rt, "memory");
    Turn {
        finishes: finishes(rt, alloc, finished),
        ..Turn::new(alloc, Moment(0), List::from(budget))
    }
}

fn turns(rt: &impl Abort, alloc: Global, row: &Row) -> Vec<Turn<Node, u64>> {
    let mut turns = Vec::new(alloc);
    for number in 0..row.wanted.len() {
        let finished = if number == 0 { 0 } else { row.requests };
        let turn = turn(rt, alloc, row.budget, finished);
        turns.push(turn).expect(rt, "memory");
    }
    turns
}

/// What an applier makes of these turns, of which there are nine at most.
fn run<R: Abort + Copy + Wait>(
    rt: &R,
    alloc: Global,
    nodes: &mut Nodes<R>,
    turns: Vec<Turn<Node, u64>>,
) -> Answered {
    assert!(rt; turns.len() <= 9);
    let context = Arc::new(alloc, ()).expect(rt, "memory");
    let policy = |_node: Arc<Node>, _error: &u64, _context: Arc<()>| Action::await_change();
    nodes.run(
        rt,
        alloc,
        &mut Recorder::new(alloc),
        &policy,
        context,
        turns,
    )
}

/// What the turns of a row make over this store.
fn ran<R: Abort + Copy + Wait>(rt: &R, alloc: Global, store: Store<Node>, row: &Row) -> Answered {
    let turns = turns(rt, alloc, row);
    let mut nodes = queued(rt, alloc, store, row);
    run(rt, alloc, &mut nodes, turns)
}

fn counts(record: &TurnRecord<Node, u64>) -> [usize; 5] {
    [
        record.exchanges.len(),
        record.taken.len(),
        record.finished.len(),
        record.runner.is_some() as usize,
        record.ended as usize,
    ]
}

/// Whether the turns have these counts.
fn has_counts(answered: &Answered, wanted: &[[usize; 5]]) -> bool {
    let Ok(trace) = answered else {
        return false;
    };
    let mut is_as_wanted = trace.records.len() == wanted.len();
    for (record, counted) in trace.records.as_slice().iter().zip(wanted) {
        is_as_wanted = is_as_wanted && counts(record) == *counted;
    }
    is_as_wanted
}

/// The same of an answer that is let go then.
fn has_counts_once(answered: Answered, wanted: &[[usize; 5]]) -> bool {
    has_counts(&answered, wanted)
}

fn apply(rt: &impl Abort, alloc: Global, writer: &mut Writer<Node>, event: &Event<Arc<Node>>) {
    writer
        .apply_watcher_event(alloc, event)
        .expect(rt, "applied");
}

/// A list of so many nodes.
fn list(rt: &impl Abort, alloc: Global, writer: &mut Writer<Node>, count: u32) {
    for number in 0..count {
        let event = listed(rt, alloc, number);
        apply(rt, alloc, writer, &event);
    }
    apply(rt, alloc, writer, &Event::InitDone);
}

/// What a row stores is told, and then the writer ends.
fn store<R: Abort + Wait>(rt: &R, alloc: Global, writer: Writer<Node>, stored: Option<u32>) {
    let mut writer = writer;
    if let Some(count) = stored {
        list(rt, alloc, &mut writer, count);
    }
    assert!(rt; writer.end(rt, alloc).is_ok());
}

/// A writer of nodes, and its handle.
fn open(rt: &impl Abort, alloc: Global) -> (Writer<Node>, Store<Node>) {
    let mut writer = Writer::new(alloc, (), 1).expect(rt, "memory");
    let reads = writer.as_reader().expect(rt, "a handle");
    (writer, reads)
}

/// Whether the turns of a row have the counts that it says.
fn is_as_said<R: Abort + Copy + Wait>(rt: &R, alloc: Global, row: &Row) -> bool {
    let (writer, reads) = open(rt, alloc);
    store(rt, alloc, writer, row.stored);
    has_counts_once(ran(rt, alloc, reads, row), row.wanted)
}

#[test]
fn appliers_take_turns(rt: HostRuntime) {
    for row in &ROWS {
        assert!(rt;
            is_as_said(&rt, rt.alloc(), row),
            "{} requests",
            row.requests
        );
    }
}

/// An API, and a stream, of which nothing comes.
#[derive(Drop)]
struct Silent;

impl ApiMode for Silent {
    type Value = Node;

    fn list(
        &mut self,
        _alloc: Global,
        _params: &ListParams,
        _now: Moment,
    ) -> Result<Polled<Result<Page<Node>, ApiError>>, NoMemory> {
        Ok(Polled::NotReady)
    }

    fn watch(
        &mut self,
        _alloc: Global,
        _params: &WatchParams,
        _version: &str,
        _now: Moment,
    ) -> Result<Polled<Result<(), ApiError>>, NoMemory> {
        Ok(Polled::NotReady)
    }

    fn next(
        &mut self,
        _alloc: Global,
        _now: Moment,
    ) -> Result<Polled<Option<Result<WatchEvent<Node>, ApiError>>>, NoMemory> {
        Ok(Polled::NotReady)
    }
}

impl EventStream for Silent {
    ghost use Rattle.std.specs.Prelude.{None};

    type Item = Arc<Node>;

    ghost told = { λ _. None };

    ghost fault = { λ _. None };

    fn poll_next(
        &mut self,
        _alloc: Global,
        _now: Moment,
        _fuel: u32,
    ) -> Result<Next<Result<Arc<Node>, Error>>, StreamFault> {
        Ok(Next::NotReady)
    }
}

/// A controller whose store is empty.
fn empty<R: Abort + Copy>(rt: &R, alloc: Global) -> Nodes<R> {
    let (_writer, reads) = open(rt, alloc);
    queued(rt, alloc, reads, &ROWS[0])
}

/// Whether something was made, which is let go then.
fn is_made<T: Drop>(made: Result<T, NoMemory>) -> bool {
    made.is_ok()
}

/// Whether a controller takes a source of owned nodes: of an API, or of a stream, by this form of the call.
fn owns<R: Abort + Copy>(rt: &R, alloc: Global, form: u8) -> bool {
    let nodes = empty(rt, alloc);
    match form {
        0 => is_made(nodes.owns(alloc, Silent, WatcherConfig::default())),
        1 => is_made(nodes.owns_with(alloc, Silent, (), WatcherConfig::default())),
        2 => is_made(nodes.owns_stream(alloc, Silent)),
        3 => is_made(nodes.owns_stream_with(alloc, Silent, ())),
        4 => is_made(nodes.owns_shared_stream(alloc, Silent)),
        _ => is_made(nodes.owns_shared_stream_with(alloc, Silent, ())),
    }
}

#[test]
fn takes_sources_of_owned_objects(rt: HostRuntime) {
    for form in 0..6 {
        assert!(rt; owns(&rt, rt.alloc(), form), "form {form}");
    }
}
