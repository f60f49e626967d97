//! How far a watcher has come.

ghost use Rattle.std.specs.Prelude.{◌≡◌, true, IfOk, OnErr};
ghost use Rattle.kube_watch.specs.Agrees.{asks_api};
ghost use Rattle.kube_watch.specs.Calls.{brings};
ghost use Rattle.kube_watch.specs.Configs.{settings_of};
ghost use Rattle.kube_watch.specs.States.{call_in, is_initial_in, after_page, after_opened, after_item, after_bookmark, after_fault, after_end, state_after, since_after};
ghost use Rattle.kube_watch.specs.Units.{nanos_of};

use crate::config::{Config, InitialListStrategy};
use kube_meta::{Moment, NoMemory, Text};
use kube_model::call::{Answer, Call};
use std::alloc::Global;

/// How far a watcher has come (kube-runtime's `watcher::State`).
#[derive(Debug, Drop)]
pub enum State {
    /// It starts anew.
    Empty,
    /// A list is under way, and the page of this token is owed.
    InitPage { token: Text },
    /// A watch is open that sends the objects that are there.
    InitialWatch,
    /// The objects that are there came, and a watch from this version is owed.
    InitListed { version: Text },
    /// A watch is open, and this version was seen.
    Watching { version: Text },
}

/// The call by which a watcher starts.
fn start_call(alloc: Global, config: &Config) -> Result<Call, NoMemory>
    ensures { IfOk result (λ c. c ≡ call_in (settings_of config.now) State.Empty) }
{
    match config.initial_list_strategy {
        InitialListStrategy::ListWatch => Ok(Call::List { token: None }),
        InitialListStrategy::StreamingList => {
            let version = Text::new(alloc, "0")?;
            Ok(Call::Watch {
                version,
                initial: true,
            })
        }
    }
}

/// The call that is owed.
pub fn owed_call(alloc: Global, config: &Config, state: &State) -> Result<Call, NoMemory>
    ensures owed { IfOk result (λ c. c ≡ call_in (settings_of config.now) state.now) }
    ensures asks { IfOk result (λ c. asks_api c ≡ true) }
{
    match state {
        State::Empty => start_call(alloc, config),
        State::InitPage { token } => {
            let token = Some(token.copy(alloc)?);
            Ok(Call::List { token })
        }
        State::InitListed { version } => {
            let version = version.copy(alloc)?;
            Ok(Call::Watch {
                version,
                initial: false,
            })
        }
        State::InitialWatch | State::Watching { .. } => Ok(Call::Next),
    }
}

/// Whether the objects that are there are still to come by the open watch.
pub fn is_initial(state: &State) -> bool
    ensures { result ≡ is_initial_in state.now }
{
    matches!(state, State::InitialWatch)
}

fn after_page(
    alloc: Global,
    token: &Option<Text>,
    version: &Option<Text>,
) -> Result<State, NoMemory>
    ensures { IfOk result (λ s. s ≡ after_page token.now version.now) }
{
    if let Some(token) = token {
        let token = token.copy(alloc)?;
        return Ok(State::InitPage { token });
    }
    match version {
        Some(version) => {
            let version = version.copy(alloc)?;
            Ok(State::InitListed { version })
        }
        None => Ok(State::Empty),
    }
}

fn after_opened(state: State) -> State
    ensures { result ≡ after_opened state }
{
    match state {
        State::Empty => State::InitialWatch,
        State::InitListed { version } => State::Watching { version },
        state => state,
    }
}

fn after_item(alloc: Global, state: State, version: &Option<Text>) -> Result<State, NoMemory>
    ensures { IfOk result (λ s. s ≡ after_item state version.now) }
{
    match state {
        State::Watching { .. } => match version {
            Some(version) => {
                let version = version.copy(alloc)?;
                Ok(State::Watching { version })
            }
            None => Ok(State::Empty),
        },
        state => Ok(state),
    }
}

fn after_bookmark(
    alloc: Global,
    state: State,
    version: &Text,
    ending: bool,
) -> Result<State, NoMemory>
    ensures { IfOk result (λ s. s ≡ after_bookmark state version.now ending) }
{
    match state {
        State::InitialWatch => {
            if ending {
                let version = version.copy(alloc)?;
                return Ok(State::Watching { version });
            }
            Ok(State::InitialWatch)
        }
        State::Watching { .. } => {
            let version = version.copy(alloc)?;
            Ok(State::Watching { version })
        }
        state => Ok(state),
    }
}

fn after_fault(state: State) -> State
    ensures { result ≡ after_fault state }
{
    match state {
        State::InitPage { .. } => State::Empty,
        state => state,
    }
}

fn after_end(state: State) -> State
    ensures { result ≡ after_end state }
{
    match state {
        State::InitialWatch => State::Empty,
        State::Watching { version } => State::InitListed { version },
        state => state,
    }
}

/// The state that an answer leaves.
pub fn state_after(alloc: Global, state: State, answer: &Answer) -> Result<State, NoMemory>
    ensures state { IfOk result (λ s. s ≡ state_after state answer.now) }
    ensures brings { OnErr result ((call : Call) → brings answer.now call ≡ true) }
{
    match answer {
        Answer::Page { token, version } => after_page(alloc, token, version),
        Answer::Opened => Ok(after_opened(state)),
        Answer::Added { version } | Answer::Modified { version } | Answer::Deleted { version } => {
            after_item(alloc, state, version)
        }
        Answer::Bookmark { version, ending } => after_bookmark(alloc, state, version, *ending),
        Answer::ErrorItem(status) => {
            if status.code == 410 {
                Ok(State::Empty)
            } else {
                Ok(state)
            }
        }
        Answer::Fault(_) => Ok(after_fault(state)),
        Answer::End | Answer::Idle => Ok(after_end(state)),
        Answer::NotReady | Answer::Item | Answer::Spent => Ok(state),
    }
}

/// Since when a watch is silent after a call with its answer.
pub fn since_after(
    since: Option<Moment>,
    now: Moment,
    call: &Call,
    answer: &Answer,
) -> Option<Moment>
    ensures { nanos_of result ≡ since_after (nanos_of since) now.0 call.now answer.now }
{
    match answer {
        Answer::NotReady => match call {
            Call::Next => Some(since.unwrap_or(now)),
            _ => since,
        },
        _ => None,
    }
}
