//! Messages with their times: by message, by time, and in the order in which they wait.

ghost use Rattle.std.specs.Prelude.{◌≡◌, ◌+◌, ◌<◌, ◌≤◌, ◌++◌, ◌∷◌, [], false, true, not, length, None, IfSome, IfNone, OnOk, OnErr, IsPermutation, if◌then◌else◌, ◌||◌, nat_lt};
ghost use Rattle.std.specs.BinaryHeap.{heap_items, heap_len, heap_capacity, IsHeap};
ghost use Rattle.std.specs.Fn.{FnReturnsAt};
ghost use Rattle.std.specs.List.{AllByRecursion, filter, list_any, remove};
ghost use Rattle.std.specs.Ordering.{is_lt};
ghost use Rattle.std.specs.VecDeque.{deque_capacity};
ghost use Rattle.indexmap.specs.IndexMap.{get, spare};
ghost use Rattle.indexmap.specs.IndexSet.{spare as spare_of};
ghost use Rattle.kube_model.specs.Queue.{sorted_by};
ghost use Rattle.kube_sched.specs.Held.{comes_before, is_due, is_later, is_of, messages, requested_with, IsFirstAt, MessageAt};
ghost use Rattle.kube_sched.specs.Tables.{place_order};
ghost use Rattle.kube_sched.specs.Timetables.{rows_of, waiting_of, scheduled_of, stale_of, IsKept, HoldsSame};

use crate::counting::Steps;
use crate::held::{Held, lets_pass};
use crate::table::{Entry, Table};
use kube_meta::{Moment, NoMemory};
use std::alloc::Global;
use std::cmp::Reverse;
use std::collections::{BinaryHeap, VecDeque};
use std::hash::Hash;
use std::sync::ledger::Ledger;

/// The place of an entry among the times.
#[derive(Clone, Copy, Debug, PartialEq, Eq, PartialOrd, Ord)]
pub struct Place {
    pub time: u64,
    pub number: u64,
}

/// Messages with their times, each once. An entry that is set anew leaves its place in the heap, which is stale then.
#[derive(Drop)]
pub struct Timetable<T: Eq + Hash> {
    pub table: Table<T>,
    pub heap: BinaryHeap<Reverse<Place>>,
    /// The numbers of those that wait, in their order.
    pub waiting: VecDeque<u64>,
    /// The number of the next entry.
    pub next: u64,
    /// For how many more entries there is room.
    pub spare: usize,
}

/// Takes the first place of the heap where its time has come.
fn pop_due<L: Ledger>(
    heap: &mut BinaryHeap<Reverse<Place>>,
    now: Moment,
    steps: &mut Steps<L>,
) -> Option<Place>
    requires { IsHeap place_order (heap_items heap.old) }
    ensures heap { IsHeap place_order (heap_items heap.new) }
    ensures due { IfSome result (λ p. p.time ≤ now.0) }
    ensures taken { IfSome result (λ p. IsPermutation (heap_items heap.old) (record { 0 = p } ∷ heap_items heap.new)) }
    ensures least { IfSome result (λ p. AllByRecursion (λ q. is_lt (place_order (record { 0 = p }) q) ≡ false) (heap_items heap.old)) }
    ensures len { IfSome result (λ _. heap_len heap.new + 1 ≡ heap_len heap.old) }
    ensures none { IfNone result ((heap.new ≡ heap.old) × AllByRecursion (λ p. now.0 < p.0.time) (heap_items heap.old)) }
    ensures capacity { heap_capacity heap.new ≡ heap_capacity heap.old }
    ensures cost { steps.new ≡ steps.old + 1 }
{
    steps.tick();
    match heap.peek() {
        Some(first) if first.0.time <= now.0 => match heap.pop() {
            Some(Reverse(place)) => Some(place),
            None => None,
        },
        _ => None,
    }
}

/// Whether a request for a moment leaves an entry as it is.
fn stays(entry: &Entry, run_at: Moment) -> bool
    ensures { result ≡ (entry.now.is_waiting || nat_lt entry.now.time.0 run_at.0) }
{
    entry.is_waiting || entry.time.0 < run_at.0
}

impl<T: Eq + Hash + Drop> Timetable<T> {
    /// Nothing.
    pub fn new(alloc: Global) -> Timetable<T>
        ensures kept { IsKept T.eq result }
        ensures waiting { waiting_of result ≡ [] }
        ensures scheduled { scheduled_of result ≡ [] }
        ensures stale { stale_of result ≡ 0 }
    {
        Timetable {
            table: Table::new(alloc),
            heap: BinaryHeap::new(alloc),
            waiting: VecDeque::new(alloc),
            next: 0,
            spare: 0,
        }
    }

    /// Takes memory and numbers for messages to come: `spare` is then at least `n`.
    ///
    /// # Errors
    ///
    /// `NoMemory` where there is none for so many, or where the numbers end: there are 2^64 - 1.
    pub fn reserve(&mut self, n: usize) -> Result<(), NoMemory>
        requires kept { IsKept T.eq self.old }
        ensures kept { IsKept T.eq self.new }
        ensures same { HoldsSame self.old self.new }
        ensures room { OnOk result (n ≤ self.new.spare) }
        ensures more { self.old.spare ≤ self.new.spare }
        ensures err { OnErr result (self.new.spare ≡ self.old.spare) }
    {
        self.take_memory(n)?;
        if u64::MAX - self.next < n as u64 {
            return Err(NoMemory);
        }
        if self.spare < n {
            self.spare = n;
        }
        Ok(())
    }

    /// Takes memory for so many more entries.
    ///
    /// # Errors
    ///
    /// `NoMemory` where there is none for so many.
    fn take_memory(&mut self, n: usize) -> Result<(), NoMemory>
        ensures entries { rows_of self.new ≡ rows_of self.old }
        ensures numbers { self.new.table.numbers.keys ≡ self.old.table.numbers.keys }
        ensures heap { heap_items self.new.heap ≡ heap_items self.old.heap }
        ensures heap_len { heap_len self.new.heap ≡ heap_len self.old.heap }
        ensures waiting { self.new.waiting.items ≡ self.old.waiting.items }
        ensures next { self.new.next ≡ self.old.next }
        ensures spare { self.new.spare ≡ self.old.spare }
        ensures entries_room { spare self.old.table.entries ≤ spare self.new.table.entries }
        ensures numbers_room { spare_of self.old.table.numbers ≤ spare_of self.new.table.numbers }
        ensures heap_room { heap_capacity self.old.heap ≤ heap_capacity self.new.heap }
        ensures waiting_room { deque_capacity self.old.waiting ≤ deque_capacity self.new.waiting }
        ensures entries_ok { OnOk result (n ≤ spare self.new.table.entries) }
        ensures numbers_ok { OnOk result (n ≤ spare_of self.new.table.numbers) }
        ensures heap_ok { OnOk result (heap_len self.new.heap + n ≤ heap_capacity self.new.heap) }
        ensures waiting_ok { OnOk result (length (rows_of self.new) + n ≤ deque_capacity self.new.waiting) }
    {
        let Some(places) = self.table.entries.len().checked_add(n) else {
            return Err(NoMemory);
        };
        self.table.reserve(n)?;
        self.heap.reserve(n)?;
        self.waiting.reserve(places)?;
        Ok(())
    }

    /// Puts a message with its time.
    fn add(&mut self, held: Held<T>)
        requires kept { IsKept T.eq self.old }
        requires room { 1 ≤ self.old.spare }
        requires absent { get T.eq self.old.table.entries held.message ≡ None }
        ensures kept { IsKept T.eq self.new }
        ensures waiting { waiting_of self.new ≡ waiting_of self.old }
        ensures scheduled { scheduled_of self.new ≡ scheduled_of self.old ++ held ∷ [] }
        ensures places { length (heap_items self.new.heap) ≡ length (heap_items self.old.heap) + 1 }
        ensures spare { self.new.spare + 1 ≡ self.old.spare }
    {
        let Held { message, time } = held;
        let number = self.next;
        let entry = Entry {
            time,
            number,
            is_waiting: false,
        };
        self.table.add(message, entry);
        let place = Place {
            time: time.0,
            number,
        };
        if self.heap.push(Reverse(place)).is_err() {
            unreachable!()
        }
        self.next += 1;
        self.spare -= 1;
    }

    /// Sets a message anew, unless it waits or stands earlier than `run_at`. It takes no memory.
    pub fn set(&mut self, held: Held<T>, run_at: Moment)
        requires kept { IsKept T.eq self.old }
        requires room { 1 ≤ self.old.spare }
        ensures kept { IsKept T.eq self.new }
        ensures waiting { waiting_of self.new ≡ waiting_of self.old }
        ensures scheduled { scheduled_of self.new ≡ requested_with T.eq run_at held (waiting_of self.old) (scheduled_of self.old) }
        ensures len { length (scheduled_of self.new) ≤ length (scheduled_of self.old) + 1 }
        ensures stale { stale_of self.new ≤ stale_of self.old + (if is_later T.eq held.message run_at (scheduled_of self.old) then 1 else 0) }
        ensures spare { self.old.spare ≤ self.new.spare + 1 }
    {
        match self.table.entries.get_full(&held.message) {
            Some((place, _message, entry)) => {
                if stays(entry, run_at) {
                    return;
                }
                self.table.take(place);
                self.add(held);
            }
            None => self.add(held),
        }
    }

    /// Lets the first message wait behind the others where its time has come, or drops a place that is stale. Whether
    /// there was a place.
    fn settle_next<L: Ledger>(&mut self, now: Moment, steps: &mut Steps<L>) -> bool
        requires kept { IsKept T.eq self.old }
        ensures kept { IsKept T.eq self.new }
        ensures first { waiting_of self.new ++ sorted_by comes_before (filter (is_due now) (scheduled_of self.new)) ≡ waiting_of self.old ++ sorted_by comes_before (filter (is_due now) (scheduled_of self.old)) }
        ensures late { filter (λ h. not (is_due now h)) (scheduled_of self.new) ≡ filter (λ h. not (is_due now h)) (scheduled_of self.old) }
        ensures held { length (waiting_of self.new) + length (scheduled_of self.new) ≡ length (waiting_of self.old) + length (scheduled_of self.old) }
        ensures last { result ≡ false → AllByRecursion (λ h. is_due now h ≡ false) (scheduled_of self.new) }
        ensures stale { stale_of self.new ≤ stale_of self.old }
        ensures places { length (heap_items self.new.heap) + (if result then 1 else 0) ≡ length (heap_items self.old.heap) }
        ensures spare { self.new.spare ≡ self.old.spare }
        ensures cost { steps.new ≡ steps.old + 1 }
    {
        let Some(due) = pop_due(&mut self.heap, now, steps) else {
            return false;
        };
        if let Some(place) = self.table.numbers.get_index_of(&due.number) {
            self.table.mark_waiting(place);
            self.waiting.push_back_reserved(due.number);
        }
        true
    }

    /// Lets every message wait whose time is at most `now`. A step is one place of the heap that is looked at. It takes
    /// no memory.
    pub fn settle<L: Ledger>(&mut self, now: Moment, steps: &mut Steps<L>)
        requires kept { IsKept T.eq self.old }
        ensures kept { IsKept T.eq self.new }
        ensures waiting { waiting_of self.new ≡ waiting_of self.old ++ sorted_by comes_before (filter (is_due now) (scheduled_of self.old)) }
        ensures scheduled { scheduled_of self.new ≡ filter (λ h. not (is_due now h)) (scheduled_of self.old) }
        ensures held { length (waiting_of self.new) + length (scheduled_of self.new) ≡ length (waiting_of self.old) + length (scheduled_of self.old) }
        ensures stale { stale_of self.new ≤ stale_of self.old }
        ensures spare { self.new.spare ≡ self.old.spare }
        ensures cost { steps.new + stale_of self.new + length (waiting_of self.old) ≡ steps.old + stale_of self.old + length (waiting_of self.new) + 1 }
    {
        while self.settle_next(now, steps) {}
    }

    /// The message at a place among those that wait.
    pub fn message_at(&self, place: usize) -> &T
        requires kept { IsKept T.eq self.now }
        requires place { place < length (waiting_of self.now) }
        ensures { MessageAt (waiting_of self.now) place result.now }
    {
        let row = self.table.place_of(self.waiting[place]);
        match self.table.entries.get_index(row) {
            Some((message, _entry)) => message,
            None => unreachable!(),
        }
    }

    /// The place of the first message that waits and passes. It looks at those before it alone.
    pub fn first_passing<C: Fn(&T) -> bool>(&self, passes: &C) -> Option<usize>
        requires call { C.IsAlwaysCallable passes.now }
        requires kept { IsKept T.eq self.now }
        ensures first { IsFirstAt (FnReturnsAt C.Fn passes.now) (messages (waiting_of self.now)) result }
        ensures within { IfSome result (λ place. place < length (waiting_of self.now)) }
    {
        for place in 0..self.waiting.len() {
            if lets_pass(passes, self.message_at(place)) {
                return Some(place);
            }
        }
        None
    }

    /// Takes the message at a place among those that wait. It takes no memory.
    pub fn take(&mut self, place: usize) -> T
        requires kept { IsKept T.eq self.old }
        requires place { place < length (waiting_of self.old) }
        ensures kept { IsKept T.eq self.new }
        ensures taken { MessageAt (waiting_of self.old) place result }
        ensures waiting { waiting_of self.new ≡ remove (waiting_of self.old) place }
        ensures scheduled { scheduled_of self.new ≡ scheduled_of self.old }
        ensures stale { stale_of self.new ≡ stale_of self.old }
        ensures spare { self.new.spare ≡ self.old.spare }
    {
        let row = self.table.place_of(self.waiting[place]);
        self.waiting.remove(place);
        self.table.take(row)
    }

    /// Whether an equal message waits.
    pub fn waits(&self, message: &T) -> bool
        requires kept { IsKept T.eq self.now }
        ensures { result ≡ list_any (is_of T.eq message.now) (waiting_of self.now) }
    {
        match self.table.entries.get_full(message) {
            Some((_place, _message, entry)) => entry.is_waiting,
            None => false,
        }
    }

    /// How many messages there are.
    pub fn len(&self) -> usize
        requires kept { IsKept T.eq self.now }
        ensures { result ≡ length (waiting_of self.now) + length (scheduled_of self.now) }
    {
        self.table.entries.len()
    }

    /// How many messages wait.
    pub fn waiting_len(&self) -> usize
        requires kept { IsKept T.eq self.now }
        ensures { result ≡ length (waiting_of self.now) }
    {
        self.waiting.len()
    }

    /// Drops all messages.
    pub fn clear(&mut self)
        requires kept { IsKept T.eq self.old }
        ensures kept { IsKept T.eq self.new }
        ensures waiting { waiting_of self.new ≡ [] }
        ensures scheduled { scheduled_of self.new ≡ [] }
    {
        self.table.entries.clear();
        self.table.numbers.clear();
        self.heap.clear();
        self.waiting.clear();
    }
}
