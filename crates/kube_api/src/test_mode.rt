//! An API in memory that answers by a script (`TestMode` of kube-runtime's watcher tests).

ghost use Rattle.std.specs.Prelude.{◌≡◌, ◌≤◌, [], IfOk, OnOk, OnErr, Some, None, map, drop};
ghost use Rattle.kube_model.specs.Raw.{grown, ListAsked, WatchAsked, NextAsked, Ends, FaultRose, IsNeverOpened, is_fault};
ghost use Rattle.kube_api.specs.Answers.{list_answer, watch_answer, next_answer, is_watch_fault};
ghost use Rattle.kube_api.specs.Recordings.{call_of, answer_of};
ghost use Rattle.kube_api.specs.TestScript.{told, first_page, listed, after_list, first_watch, watch_after, watched, after_watch, poll_current, left_current, polled, after_next, IsSilent, IsMove};
ghost use Rattle.kube_api.specs.Ready.{IsReady, IsNotReady};

use crate::api::ApiMode;
use crate::copies::{copy_list_params, copy_listed, copy_watch_params};
use crate::event::{Page, WatchEvent};
use crate::open_watch::OpenWatch;
use crate::recording::{Answered, Recording, Talk};
use crate::sequence::Sequence;
use kube_meta::{List, Moment, NoMemory, Polled, Resource, Text};
use kube_model::error::ApiError;
use kube_model::params::{ListParams, WatchParams};
use std::alloc::Global;
use std::collections::VecDeque;
use std::marker::Model;

/// An API in memory that answers by a script (kube-runtime's `TestMode` of its watcher tests).
///
/// - Each list call is answered the next entry of the lists, whatever its parameters, and an empty page with neither
///   token nor version where none is left.
/// - Each watch call opens the next sequence and closes the open one. Where none is left it fails with
///   `ReadEvents("TestMode watch sequence exhausted")`, and the open watch stays as it was.
/// - Each poll gives the next event of the open watch. A silence, in nanoseconds, begins at the poll that meets it,
///   and is over at the first poll whose moment is at least its length later; until then a poll is not ready. After
///   the last step, and where no watch was opened, the answer is the end.
///
/// It keeps each call with its answer, and counts those that failed. Where a call could have no memory all is as
/// before. Moments may fall.
#[derive(Drop)]
pub struct TestMode<K: Drop> {
    lists: VecDeque<Result<Page<K>, ApiError>>,
    watches: VecDeque<Sequence<K>>,
    current: Option<OpenWatch<K>>,
    talk: Talk<K>,
    faults: u64,
}

impl<K: Drop> Model for TestMode<K> {
    ghost use Rattle.std.specs.Prelude.{◌≡◌, map, Some, None};
    ghost use Rattle.kube_meta.specs.declared.poll.Polled.TheVariants.{Ready};
    ghost use Rattle.kube_model.specs.Raw.{IsNeverOpened};
    ghost use Rattle.kube_api.specs.TestScript.{Script};

    ghost Value = { Script K };

    ghost use Rattle.kube_api.specs.Answers.{list_answer};

    ghost view = { λ t. record {
      lists = map (λ page. list_answer (Ready page)) t.lists.items;
      watches = t.watches.items;
      current = t.current;
      talk = t.talk;
      failures = t.faults;
    } };

    ghost invariant = { λ t. IsNeverOpened (Some t.talk) → t.current ≡ None };
}

impl<K: Drop> TestMode<K> {
    /// An API that answers list calls by `lists` and watch calls by `watches`, in order.
    pub fn new(
        alloc: Global,
        lists: Vec<Result<Page<K>, ApiError>>,
        watches: Vec<Sequence<K>>,
    ) -> TestMode<K>
        ensures { result ≡ record {
          lists = map (λ page. list_answer (Polled.Ready page)) lists.items;
          watches = watches.items;
          current = None;
          talk = [];
          failures = 0;
        } }
    {
        TestMode {
            lists: VecDeque::from_vec(lists),
            watches: VecDeque::from_vec(watches),
            current: None,
            talk: Talk::new(alloc),
            faults: 0,
        }
    }

    /// The calls so far, in order.
    pub fn get_recordings(&self) -> &[Recording]
        ensures { map call_of result.now ≡ map (λ raw. raw.call) self.now.talk }
    {
        self.talk.calls()
    }

    /// Keeps a call with its answer, and counts it where it failed.
    fn tell(&mut self, call: Recording, answer: Answered<K>) -> Result<(), NoMemory>
        ensures ok { OnOk result (self.new ≡ told (call_of call) (answer_of answer) self.old) }
        ensures err { OnErr result (self.new ≡ self.old) }
        ensures faults { OnOk result (FaultRose (is_fault (answer_of answer)) self.old.failures self.new.failures) }
        ensures rises { self.old.failures ≤ self.new.failures }
    {
        let failed = answer.is_fault();
        self.talk.push(call, answer)?;
        if failed {
            self.faults = self.faults.saturating_add(1);
        }
        Ok(())
    }
}

impl<K: Resource> ApiMode for TestMode<K> {
    ghost use Rattle.std.specs.Prelude.{Some};

    type Value = K;

    ghost talk = { λ t. Some t.talk };

    ghost faults = { λ t. t.failures };

    ghost moves = { IsMove };

    fn list(
        &mut self,
        alloc: Global,
        params: &ListParams,
        _now: Moment,
    ) -> Result<Polled<Result<Page<K>, ApiError>>, NoMemory>
        ensures answer { IfOk result (λ a. list_answer a ≡ listed self.old) }
        ensures after { IfOk result (λ _. self.new ≡ after_list params.now self.old) }
        ensures ready { IfOk result (λ a. IsReady a) }
        ensures untouched { OnErr result (self.new ≡ self.old) }

        // those of the trait
        ensures grows { IfOk result (λ a. Some self.new.talk
            ≡ grown (Some self.old.talk) (record { call = ListAsked params.now; answer = list_answer a })) }
        ensures unchanged { OnErr result (Some self.new.talk ≡ Some self.old.talk) }
        ensures moves { IfOk result (λ a. IsMove self.old _now.0 (record { call = ListAsked params.now; answer = list_answer a }) self.new) }
        ensures faults { IfOk result (λ a. FaultRose (is_fault (list_answer a)) self.old.failures self.new.failures) }
        ensures rises { self.old.failures ≤ self.new.failures }
    {
        let call = Recording::List(copy_list_params(alloc, params)?);
        let answer = next_page(alloc, &self.lists)?;
        let kept = next_page(alloc, &self.lists)?;
        self.tell(call, Answered::List(kept))?;
        let _given = self.lists.pop_front();
        Ok(Polled::Ready(answer))
    }

    fn watch(
        &mut self,
        alloc: Global,
        params: &WatchParams,
        version: &str,
        _now: Moment,
    ) -> Result<Polled<Result<(), ApiError>>, NoMemory>
        ensures answer { IfOk result (λ a. watch_answer a ≡ watched self.old) }
        ensures after { IfOk result (λ _. self.new ≡ after_watch params.now version.now self.old) }
        ensures ready { IfOk result (λ a. IsReady a) }
        ensures untouched { OnErr result (self.new ≡ self.old) }

        // those of the trait
        ensures grows { IfOk result (λ a. Some self.new.talk
            ≡ grown (Some self.old.talk) (record { call = WatchAsked params.now version.now; answer = watch_answer a })) }
        ensures unchanged { OnErr result (Some self.new.talk ≡ Some self.old.talk) }
        ensures moves { IfOk result (λ a. IsMove self.old _now.0 (record { call = WatchAsked params.now version.now; answer = watch_answer a }) self.new) }
        ensures faults { IfOk result (λ a. FaultRose (is_watch_fault a) self.old.failures self.new.failures) }
        ensures rises { self.old.failures ≤ self.new.failures }
    {
        let version = Text::new(alloc, version)?;
        let call = Recording::Watch(copy_watch_params(alloc, params)?, version);
        let answer = opened(alloc, &self.watches)?;
        let kept = opened(alloc, &self.watches)?;
        self.tell(call, Answered::Watch(kept))?;
        open_next(&mut self.watches, &mut self.current);
        Ok(Polled::Ready(answer))
    }

    fn next(
        &mut self,
        alloc: Global,
        now: Moment,
    ) -> Result<Polled<Option<Result<WatchEvent<K>, ApiError>>>, NoMemory>
        ensures answer { IfOk result (λ a. next_answer a ≡ polled now.0 self.old) }
        ensures after { IfOk result (λ _. self.new ≡ after_next now.0 self.old) }
        ensures silent { IfOk result (λ a. IsNotReady a → IsSilent now.0 self.new.current) }
        ensures untouched { OnErr result (self.new ≡ self.old) }

        // those of the trait
        ensures grows { IfOk result (λ a. Some self.new.talk
            ≡ grown (Some self.old.talk) (record { call = NextAsked; answer = next_answer a })) }
        ensures unchanged { OnErr result (Some self.new.talk ≡ Some self.old.talk) }
        ensures moves { IfOk result (λ a. IsMove self.old now.0 (record { call = NextAsked; answer = next_answer a }) self.new) }
        ensures never_opened { IsNeverOpened (Some self.old.talk) → IfOk result (λ a. next_answer a ≡ Ends) }
        ensures faults { IfOk result (λ a. FaultRose (is_fault (next_answer a)) self.old.failures self.new.failures) }
        ensures rises { self.old.failures ≤ self.new.failures }
    {
        let answer = next_event(alloc, &self.current, now)?;
        let kept = next_event(alloc, &self.current, now)?;
        self.tell(Recording::Next, Answered::Next(kept))?;
        advance(&mut self.current, now);
        Ok(answer)
    }
}

/// What a list call is answered.
fn next_page<K: Drop>(
    alloc: Global,
    lists: &VecDeque<Result<Page<K>, ApiError>>,
) -> Result<Result<Page<K>, ApiError>, NoMemory>
    ensures { IfOk result (λ r. list_answer (Polled.Ready r) ≡ first_page (map (λ page. list_answer (Polled.Ready page)) lists.now.items)) }
{
    match lists.front() {
        Some(entry) => copy_listed(alloc, entry),
        None => Ok(Ok(Page {
            items: List::new(alloc),
            token: None,
            version: None,
        })),
    }
}

/// What a watch call is answered.
fn opened<K: Drop>(
    alloc: Global,
    watches: &VecDeque<Sequence<K>>,
) -> Result<Result<(), ApiError>, NoMemory>
    ensures { IfOk result (λ r. watch_answer {K = K} (Polled.Ready r) ≡ first_watch watches.now.items) }
{
    if watches.is_empty() {
        let text = Text::new(alloc, "TestMode watch sequence exhausted")?;
        return Ok(Err(ApiError::ReadEvents(text)));
    }
    Ok(Ok(()))
}

/// Opens the next sequence, if one is left.
fn open_next<K: Drop>(watches: &mut VecDeque<Sequence<K>>, current: &mut Option<OpenWatch<K>>)
    ensures watches { watches.new.items ≡ drop 1 watches.old.items }
    ensures current { current.new ≡ watch_after watches.old.items current.old }
{
    if let Some(sequence) = watches.pop_front() {
        *current = Some(OpenWatch::open(sequence));
    }
}

/// What the open watch is polled, and the end where none is open.
fn next_event<K: Drop>(
    alloc: Global,
    current: &Option<OpenWatch<K>>,
    now: Moment,
) -> Result<Polled<Option<Result<WatchEvent<K>, ApiError>>>, NoMemory>
    ensures answer { IfOk result (λ a. next_answer a ≡ poll_current now.0 current.now) }
    ensures silent { IfOk result (λ a. IsNotReady a → IsSilent now.0 (left_current now.0 current.now)) }
{
    match current {
        Some(watch) => watch.answer(alloc, now),
        None => Ok(Polled::Ready(None)),
    }
}

/// Goes past what the open watch was polled.
fn advance<K: Drop>(current: &mut Option<OpenWatch<K>>, now: Moment)
    ensures { current.new ≡ left_current now.0 current.old }
{
    if let Some(watch) = current {
        watch.advance(now);
    }
}
