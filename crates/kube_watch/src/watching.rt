//! What lists and watches an API, call by call.

ghost use Rattle.std.specs.Prelude.{◌≡◌, ◌≤◌, List, [], ◌∷◌, ◌++◌, map, true, false, IfOk, OnOk, OnErr, IsErr, IsTrue, if◌then◌else◌};
ghost use Rattle.std.specs.Arc.{arc_value};
ghost use Rattle.std.specs.Borrow.{sem};
ghost use Rattle.kube_model.specs.Raw.{Raw, grown, FaultRose};
ghost use Rattle.kube_model.specs.World.{Watched, window_after, window_of};
ghost use Rattle.kube_model.specs.History.{Dated, Exchange as Recorded};
ghost use Rattle.kube_model.specs.Owed.{owed, is_next};
ghost use Rattle.kube_model.specs.Fits.{answers, idle_fits, is_window_over, silent_since, TextsFit};
ghost use Rattle.kube_model.specs.Recorded.{IsRecorded};
ghost use Rattle.kube_watch.specs.Agrees.{asks_api};
ghost use Rattle.kube_watch.specs.Configs.{settings_of};
ghost use Rattle.kube_watch.specs.Calls.{IsAsked, IsAskedOnce, brings, is_fault_answer, idled, version_of};
ghost use Rattle.kube_watch.specs.States.{call_in};
ghost use Rattle.kube_watch.specs.Units.{IsMade, as_exchange, exchange_of, events_of, nanos_of};

use crate::calls::{Came, list_page, open_watch, poll_watch};
use crate::config::Config;
use crate::event::Event;
use crate::idle::is_too_silent;
use crate::state::{State, is_initial, owed_call, since_after, state_after};
use crate::tell::{error_of, events_of};
use crate::unit::{Exchange, Unit};
use kube_api::ApiMode;
use kube_meta::{Moment, NoMemory};
use kube_model::call::{Answer, Call};
use kube_model::error::Error;
use std::alloc::Global;
use std::collections::VecDeque;
use std::marker::Model;
use std::sync::Arc;

/// Lists and watches an API, call by call (kube-runtime's `watcher`).
#[derive(Drop)]
pub struct Watcher<A: ApiMode> {
    pub(crate) api: A,
    pub(crate) config: Config,
    pub(crate) state: State,
    /// The moment of the first look at the watch that was not ready after the last other answer.
    pub(crate) silent_since: Option<Moment>,
    /// What the last calls told and no poll has given yet.
    pub(crate) events: VecDeque<Event<Arc<A::Value>>>,
    /// The error after these.
    pub(crate) error: Option<Error>,
    /// Whether a call of it could have no memory.
    pub(crate) spent: bool,
}

impl<A: ApiMode> Model for Watcher<A> {
    ghost use Rattle.std.specs.Prelude.{map};
    ghost use Rattle.kube_watch.specs.Units.{nanos_of};
    ghost use Rattle.kube_watch.specs.Events.{event_map};
    ghost use Rattle.kube_watch.specs.Watching.{Watching, all_told};
    ghost use Rattle.std.specs.Arc.{arc_value};

    ghost Value = { Watching A A.Value };

    ghost view = { λ w. record {
      api = w.api;
      config = w.config;
      state = w.state;
      silent_since = nanos_of w.silent_since;
      waiting = all_told (map (event_map arc_value) w.events.items) w.error;
      is_spent = w.spent;
    } };
}

/// The answer; a look that was not ready is idle where the window is over.
fn idled(over: bool, answer: Answer) -> Answer
    ensures { result ≡ idled over answer }
{
    match answer {
        Answer::NotReady if over => Answer::Idle,
        answer => answer,
    }
}

/// A look at the open watch.
fn look<A: ApiMode>(
    api: &mut A,
    alloc: Global,
    config: &Config,
    since: Option<Moment>,
    now: Moment,
) -> Result<Came<A::Value>, NoMemory>
    ensures asked { IfOk result (λ c. (raw : Raw A.Value) × IsAsked A.Value.meta_of (settings_of config.now) Call.Next c raw
        × (A.talk api.new ≡ grown (A.talk api.old) raw) × A.moves api.old now.0 raw api.new) }
    ensures lost { OnErr result (IsAskedOnce (settings_of config.now) Call.Next (A.talk api.old) (A.talk api.new)) }
    ensures answered { IfOk result (λ c. answers Call.Next c.answer ≡ true) }
    ensures idle { IfOk result (λ c. idle_fits (is_window_over (window_after config.now.timeout) (nanos_of since) now.0) c.answer ≡ true) }
    ensures faults { IfOk result (λ c. FaultRose (is_fault_answer c.answer) (A.faults api.old) (A.faults api.new)) }
    ensures rises { A.faults api.old ≤ A.faults api.new }
{
    let Came { answer, items } = poll_watch(api, alloc, now)?;
    let over = is_too_silent(config.timeout, since, now);
    Ok(Came {
        answer: idled(over, answer),
        items,
    })
}

/// The owed call.
fn ask<A: ApiMode>(
    api: &mut A,
    alloc: Global,
    config: &Config,
    call: &Call,
    since: Option<Moment>,
    now: Moment,
) -> Result<Came<A::Value>, NoMemory>
    requires asks { asks_api call.now ≡ true }
    ensures asked { IfOk result (λ c. (raw : Raw A.Value) × IsAsked A.Value.meta_of (settings_of config.now) call.now c raw
        × (A.talk api.new ≡ grown (A.talk api.old) raw) × A.moves api.old now.0 raw api.new) }
    ensures lost { OnErr result (IsAskedOnce (settings_of config.now) call.now (A.talk api.old) (A.talk api.new)) }
    ensures answered { IfOk result (λ c. answers call.now c.answer ≡ true) }
    ensures idle { IfOk result (λ c. IsTrue (is_next call.now)
        → IsTrue (idle_fits (is_window_over (window_after config.now.timeout) (nanos_of since) now.0) c.answer)) }
    ensures faults { IfOk result (λ c. FaultRose (is_fault_answer c.answer) (A.faults api.old) (A.faults api.new)) }
    ensures rises { A.faults api.old ≤ A.faults api.new }
{
    match call {
        Call::List { token } => list_page(api, alloc, config, token, now),
        Call::Watch { version, initial } => {
            open_watch(api, alloc, config, version.as_str(), *initial, now)
        }
        Call::Next => look(api, alloc, config, since, now),
        Call::Stream => unreachable!(),
    }
}

/// The exchange of the owed call, and what the watcher then keeps.
fn make_exchange<A: ApiMode>(
    api: &mut A,
    alloc: Global,
    config: &Config,
    state: State,
    since: Option<Moment>,
    now: Moment,
) -> Result<(Exchange<A::Value>, State, Option<Moment>), NoMemory>
    ensures made { IfOk result (λ p. IsMade (settings_of config.now) state (nanos_of since) now.0 p.0 p.1 (nanos_of p.2)) }
    ensures asks { IfOk result (λ p. asks_api p.0.call ≡ true) }
    ensures asked { IfOk result (λ p. (raw : Raw A.Value) × IsRecorded (version_of A.Value.meta_of) (settings_of config.now) raw (as_exchange p.0)
        × (A.talk api.new ≡ grown (A.talk api.old) raw) × A.moves api.old now.0 raw api.new) }
    ensures lost { OnErr result (IsAskedOnce (settings_of config.now) (call_in (settings_of config.now) state) (A.talk api.old) (A.talk api.new)) }
    ensures faults { IfOk result (λ p. FaultRose (is_fault_answer p.0.answer) (A.faults api.old) (A.faults api.new)) }
    ensures rises { A.faults api.old ≤ A.faults api.new }
{
    let call = owed_call(alloc, config, &state)?;
    let Came { answer, items } = ask(api, alloc, config, &call, since, now)?;
    let initial = is_initial(&state);
    let error = error_of(alloc, initial, &call, &answer)?;
    let left = since_after(since, now, &call, &answer);
    let next = state_after(alloc, state, &answer)?;
    let exchange = Exchange {
        initial,
        call,
        answer,
        items,
        error,
    };
    Ok((exchange, next, left))
}

impl<A: ApiMode> Watcher<A> {
    ghost use Rattle.std.specs.List.{flat_map};
    ghost use Rattle.kube_model.specs.Owed.{is_initial as belongs_to_initial, mark, seen};
    ghost use Rattle.kube_model.specs.Fits.{error_of as error_owed, has_references};
    ghost use Rattle.kube_watch.specs.Agrees.{objects_of};
    ghost use Rattle.kube_watch.specs.Lending.{LendsApi, with_api};
    ghost use Rattle.kube_watch.specs.Stands.{StandsFor, api_of, config_of, settings_in, is_spent, waiting_in, exchanges_in, row_of};
    ghost use Rattle.kube_watch.specs.Table.{table};

    /// Makes the owed call at a moment, and gives it with its answer, before what they tell: `events_of` makes that of it.
    ///
    /// After an error it makes the call that is owed then at the next poll, at whatever moment: the pause after an error is
    /// its caller's. Moments may fall.
    ///
    /// Errors: `NoMemory`, and only that from then on, since what it had asked can't be given back. It comes before the call,
    /// in it, or where its answer brings something.
    pub fn poll_exchange(
        &mut self,
        alloc: Global,
        now: Moment,
    ) -> Result<Exchange<A::Value>, NoMemory>
        ensures owed { IfOk result (λ e. (ds : List (Dated A.Value)) → StandsFor ds self.old
            → e.call ≡ owed (Watched (settings_in self.old)) (exchanges_in ds)) }
        ensures asks { IfOk result (λ e. asks_api e.call ≡ true) }
        ensures answered { IfOk result (λ e. IsTrue (answers e.call e.answer)) }
        ensures texts { IfOk result (λ e. TextsFit e.answer) }
        ensures idle { IfOk result (λ e. (ds : List (Dated A.Value)) → StandsFor ds self.old
            → IsTrue (is_next e.call) → IsTrue (idle_fits (is_window_over (window_of (Watched (settings_in self.old))) (silent_since ds) now.0) e.answer)) }
        // what is told of it is the same whether `initial` or the exchanges say to which watch it belongs
        ensures row { IfOk result (λ e. (ds : List (Dated A.Value)) → StandsFor ds self.old
            → table (settings_in self.old) (seen (exchanges_in ds)) e.initial e.call e.answer (map arc_value e.items)
            ≡ row_of (settings_in self.old) (exchanges_in ds) (as_exchange e)) }
        ensures initial { IfOk result (λ e. (ds : List (Dated A.Value)) → StandsFor ds self.old
            → IsTrue (is_next e.call) → e.initial ≡ belongs_to_initial (exchanges_in ds)) }
        ensures error { IfOk result (λ e. (ds : List (Dated A.Value)) → StandsFor ds self.old
            → e.error ≡ (row_of (settings_in self.old) (exchanges_in ds) (as_exchange e)).error) }
        ensures fails { IfOk result (λ e. (ds : List (Dated A.Value)) → StandsFor ds self.old
            → e.error ≡ error_owed (mark (exchanges_in ds) (as_exchange e))) }
        // whatever the source and the requests of the exchange are
        ensures stands { IfOk result (λ e. (ds : List (Dated A.Value)) (x : Recorded A.Value) → StandsFor ds self.old
            → x.call ≡ e.call → x.answer ≡ e.answer → StandsFor (ds ++ record { at = now.0; exchange = x } ∷ []) self.new) }
        ensures talk { IfOk result (λ e. (raw : Raw A.Value) × IsRecorded (version_of A.Value.meta_of) (settings_in self.old) raw (as_exchange e)
            × (A.talk (api_of self.new) ≡ grown (A.talk (api_of self.old)) raw)
            × A.moves (api_of self.old) now.0 raw (api_of self.new)) }
        ensures faults { IfOk result (λ e. FaultRose (is_fault_answer e.answer) (A.faults (api_of self.old)) (A.faults (api_of self.new))) }
        ensures rises { A.faults (api_of self.old) ≤ A.faults (api_of self.new) }
        ensures config { config_of self.new ≡ config_of self.old }
        ensures waiting { waiting_in self.new ≡ waiting_in self.old }
        ensures err { OnErr result (is_spent self.new ≡ true) }
        ensures unspent { OnOk result (is_spent self.new ≡ false) }
        ensures lost { OnErr result ((ds : List (Dated A.Value)) → StandsFor ds self.old
            → IsAskedOnce (settings_in self.old) (owed (Watched (settings_in self.old)) (exchanges_in ds)) (A.talk (api_of self.old)) (A.talk (api_of self.new))) }
        ensures spent { is_spent self.old ≡ true → IsErr result × (self.new ≡ self.old) }
    {
        if self.spent {
            return Err(NoMemory);
        }
        self.spent = true;
        let state = std::mem::replace(&mut self.state, State::Empty);
        let (exchange, state, silent_since) = make_exchange(
            &mut self.api,
            alloc,
            &self.config,
            state,
            self.silent_since,
            now,
        )?;
        self.state = state;
        self.silent_since = silent_since;
        self.spent = false;
        Ok(exchange)
    }

    /// Makes the owed call at a moment, and gives its unit: as `poll_exchange`, with what the call and its answer tell.
    ///
    /// Errors: `NoMemory`, and only that from then on. It comes before the call, in it, or where its answer brings something.
    pub fn poll_unit(&mut self, alloc: Global, now: Moment) -> Result<Unit<A::Value>, NoMemory>
        ensures owed { IfOk result (λ u. (ds : List (Dated A.Value)) → StandsFor ds self.old
            → u.call ≡ owed (Watched (settings_in self.old)) (exchanges_in ds)) }
        ensures asks { IfOk result (λ u. asks_api u.call ≡ true) }
        ensures answered { IfOk result (λ u. IsTrue (answers u.call u.answer)) }
        ensures texts { IfOk result (λ u. TextsFit u.answer) }
        ensures idle { IfOk result (λ u. (ds : List (Dated A.Value)) → StandsFor ds self.old
            → IsTrue (is_next u.call) → IsTrue (idle_fits (is_window_over (window_of (Watched (settings_in self.old))) (silent_since ds) now.0) u.answer)) }
        ensures events { IfOk result (λ u. (ds : List (Dated A.Value)) → StandsFor ds self.old
            → events_of u ≡ (row_of (settings_in self.old) (exchanges_in ds) (exchange_of u)).events) }
        ensures quiet { IfOk result (λ u. brings u.answer u.call ≡ false → events_of u ≡ []) }
        ensures objects { IfOk result (λ u. (ds : List (Dated A.Value)) → StandsFor ds self.old
            → flat_map objects_of (events_of u) ≡ (if has_references (mark (exchanges_in ds) (exchange_of u)) then map arc_value u.items else [])) }
        ensures error { IfOk result (λ u. (ds : List (Dated A.Value)) → StandsFor ds self.old
            → u.error ≡ (row_of (settings_in self.old) (exchanges_in ds) (exchange_of u)).error) }
        ensures fails { IfOk result (λ u. (ds : List (Dated A.Value)) → StandsFor ds self.old
            → u.error ≡ error_owed (mark (exchanges_in ds) (exchange_of u))) }
        // whatever the source and the requests of the exchange are
        ensures stands { IfOk result (λ u. (ds : List (Dated A.Value)) (x : Recorded A.Value) → StandsFor ds self.old
            → x.call ≡ u.call → x.answer ≡ u.answer → StandsFor (ds ++ record { at = now.0; exchange = x } ∷ []) self.new) }
        ensures talk { IfOk result (λ u. (raw : Raw A.Value) × IsRecorded (version_of A.Value.meta_of) (settings_in self.old) raw (exchange_of u)
            × (A.talk (api_of self.new) ≡ grown (A.talk (api_of self.old)) raw)
            × A.moves (api_of self.old) now.0 raw (api_of self.new)) }
        ensures faults { IfOk result (λ u. FaultRose (is_fault_answer u.answer) (A.faults (api_of self.old)) (A.faults (api_of self.new))) }
        ensures rises { A.faults (api_of self.old) ≤ A.faults (api_of self.new) }
        ensures config { config_of self.new ≡ config_of self.old }
        ensures waiting { waiting_in self.new ≡ waiting_in self.old }
        ensures err { OnErr result (is_spent self.new ≡ true) }
        ensures unspent { OnOk result (is_spent self.new ≡ false) }
        ensures lost { OnErr result ((ds : List (Dated A.Value)) → StandsFor ds self.old
            → IsAskedOnce (settings_in self.old) (owed (Watched (settings_in self.old)) (exchanges_in ds)) (A.talk (api_of self.old)) (A.talk (api_of self.new))) }
        ensures spent { is_spent self.old ≡ true → IsErr result × (self.new ≡ self.old) }
    {
        let Exchange {
            initial,
            call,
            answer,
            items,
            error,
        } = self.poll_exchange(alloc, now)?;
        self.spent = true;
        let events = events_of(alloc, initial, &call, &answer, items.as_slice())?;
        self.spent = false;
        Ok(Unit {
            call,
            answer,
            items,
            events,
            error,
        })
    }

    /// The API. What the watcher stands for is as before.
    pub fn api_mut(&mut self) -> &mut A
        ensures* lends { sem 𝓛 (LendsApi A.row A.Value.row A.Value.DynamicType.row A.ApiMode A.Value.Resource A.Value.DynamicType.Hash self.entry result) }
        ensures value { result.now ≡ api_of self.old }
        ensures stands { (ds : List (Dated A.Value)) (api : A) → StandsFor ds self.old → StandsFor ds (with_api self.old api) }
    {
        &mut self.api
    }
}
