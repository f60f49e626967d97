//! What a call with its answer tells.

ghost use Rattle.kube_model.specs.Fits.{fault_of, unless_versioned};
ghost use Rattle.std.specs.Prelude.{◌≡◌, ℕ, Bool, List, [], ◌∷◌, ◌++◌, true, IfOk, OnOk, OnErr, map};
ghost use Rattle.std.specs.Arc.{arc_value};
ghost use Rattle.kube_model.specs.World.{Settings};
ghost use Rattle.kube_watch.specs.Events.{event_map};
ghost use Rattle.kube_watch.specs.Table.{table, begun, all_init, list_rows, initial_rows, later_rows};
ghost use Rattle.kube_watch.specs.Units.{error_in};
ghost use Rattle.kube_watch.specs.Told.{told_as};
ghost use Rattle.kube_watch.specs.Calls.{brings};

use crate::event::Event;
use kube_api::copies::{copy_error, copy_status};
use kube_meta::{List, NoMemory, Text};
use kube_model::call::{Answer, Call};
use kube_model::error::{ApiError, Error};
use std::alloc::Global;
use std::sync::Arc;

/// An event of this form, of this object.
fn event_of<V: Drop>(form: &Event<()>, object: Arc<V>) -> Event<Arc<V>>
    ensures { event_map arc_value result ≡ told_as form.now (arc_value object) }
{
    match form {
        Event::Apply(_) => Event::Apply(object),
        Event::Delete(_) => Event::Delete(object),
        Event::Init => Event::Init,
        Event::InitApply(_) => Event::InitApply(object),
        Event::InitDone => Event::InitDone,
    }
}

/// Tells these objects by events of this form, in order, after the events that are there.
fn tell_all<V: Drop>(
    events: List<Event<Arc<V>>>,
    form: Event<()>,
    items: &[Arc<V>],
) -> Result<List<Event<Arc<V>>>, NoMemory>
    ensures { IfOk result (λ es. map (event_map arc_value) es ≡ map (event_map arc_value) events ++ map (told_as form) (map arc_value items.now)) }
{
    let mut events = events;
    for item in items {
        events.push(event_of(&form, item.clone()?))?;
    }
    Ok(events)
}

/// One event.
fn only<V: Drop>(alloc: Global, event: Event<Arc<V>>) -> Result<List<Event<Arc<V>>>, NoMemory>
    ensures { IfOk result (λ es. map (event_map arc_value) es ≡ event_map arc_value event ∷ []) }
{
    let mut events = List::new(alloc);
    events.push(event)?;
    Ok(events)
}

/// What the beginning of a list tells.
fn beginning<V: Drop>(alloc: Global, token: &Option<Text>) -> Result<List<Event<Arc<V>>>, NoMemory>
    ensures { IfOk result (λ es. map (event_map arc_value) es ≡ begun token.now) }
{
    match token {
        None => only(alloc, Event::Init),
        Some(_) => Ok(List::new(alloc)),
    }
}

/// What a list call with its answer tells.
fn list_events<V: Drop>(
    alloc: Global,
    asked: &Option<Text>,
    answer: &Answer,
    items: &[Arc<V>],
) -> Result<List<Event<Arc<V>>>, NoMemory>
    ensures told { IfOk result (λ es. (settings : Settings) (kept : List ℕ) → map (event_map arc_value) es
        ≡ (list_rows settings kept asked.now answer.now (map arc_value items.now)).events) }
    ensures brings { OnErr result (brings answer.now (Call.List asked.now) ≡ true) }
{
    match answer {
        Answer::Page { token: Some(_), .. } => {
            tell_all(beginning(alloc, asked)?, Event::InitApply(()), items)
        }
        Answer::Page {
            token: None,
            version: Some(_),
        } => {
            let mut events = tell_all(beginning(alloc, asked)?, Event::InitApply(()), items)?;
            events.push(Event::InitDone)?;
            Ok(events)
        }
        Answer::Page { .. } | Answer::Fault(_) => beginning(alloc, asked),
        _ => Ok(List::new(alloc)),
    }
}

/// What a look at an initial watch tells.
fn initial_events<V: Drop>(
    alloc: Global,
    answer: &Answer,
    items: &[Arc<V>],
) -> Result<List<Event<Arc<V>>>, NoMemory>
    ensures told { IfOk result (λ es. (settings : Settings) (kept : List ℕ) → map (event_map arc_value) es
        ≡ (initial_rows settings kept answer.now (map arc_value items.now)).events) }
    ensures brings { OnErr result (brings answer.now Call.Next ≡ true) }
{
    match answer {
        Answer::Added { .. } | Answer::Modified { .. } => {
            tell_all(List::new(alloc), Event::InitApply(()), items)
        }
        Answer::Bookmark { ending: true, .. } => only(alloc, Event::InitDone),
        _ => Ok(List::new(alloc)),
    }
}

/// What a look at a later watch tells.
fn later_events<V: Drop>(
    alloc: Global,
    answer: &Answer,
    items: &[Arc<V>],
) -> Result<List<Event<Arc<V>>>, NoMemory>
    ensures told { IfOk result (λ es. (settings : Settings) (kept : List ℕ) → map (event_map arc_value) es
        ≡ (later_rows settings kept answer.now (map arc_value items.now)).events) }
    ensures brings { OnErr result (brings answer.now Call.Next ≡ true) }
{
    match answer {
        Answer::Added { version: Some(_) } | Answer::Modified { version: Some(_) } => tell_all(
            List::new(alloc),
            Event::Apply(()),
            items,
        ),
        Answer::Deleted { version: Some(_) } => tell_all(
            List::new(alloc),
            Event::Delete(()),
            items,
        ),
        _ => Ok(List::new(alloc)),
    }
}

/// What the call of a watch with its answer tells.
fn watch_events<V: Drop>(
    alloc: Global,
    initial: bool,
    answer: &Answer,
) -> Result<List<Event<Arc<V>>>, NoMemory>
    ensures told { IfOk result (λ es. (settings : Settings) (kept version : List ℕ) (items : List V) (waits : Bool) → map (event_map arc_value) es
        ≡ (table settings kept waits (Call.Watch version initial) answer.now items).events) }
    ensures brings { OnErr result ((version : List ℕ) → brings answer.now (Call.Watch version initial) ≡ true) }
{
    match answer {
        Answer::Opened if initial => only(alloc, Event::Init),
        _ => Ok(List::new(alloc)),
    }
}

/// What a call with its answer tells of the objects that came.
///
/// Errors: `NoMemory`, only where the answer brings something.
pub fn events_of<V: Drop>(
    alloc: Global,
    initial: bool,
    call: &Call,
    answer: &Answer,
    items: &[Arc<V>],
) -> Result<List<Event<Arc<V>>>, NoMemory>
    ensures told { IfOk result (λ es. (settings : Settings) (kept : List ℕ) → map (event_map arc_value) es
        ≡ (table settings kept initial call.now answer.now (map arc_value items.now)).events) }
    ensures brings { OnErr result (brings answer.now call.now ≡ true) }
{
    match call {
        Call::List { token } => list_events(alloc, token, answer, items),
        Call::Watch { initial: first, .. } => watch_events(alloc, *first, answer),
        Call::Next => {
            if initial {
                initial_events(alloc, answer, items)
            } else {
                later_events(alloc, answer, items)
            }
        }
        Call::Stream => Ok(List::new(alloc)),
    }
}

/// The error of a fault.
fn fault_of(alloc: Global, call: &Call, error: &ApiError) -> Result<Option<Error>, NoMemory>
    ensures { IfOk result (λ e. e ≡ fault_of call.now error.now) }
{
    let error = copy_error(alloc, error)?;
    Ok(match call {
        Call::List { .. } => Some(Error::InitialListFailed(error)),
        Call::Watch { .. } => Some(Error::WatchStartFailed(error)),
        Call::Next => Some(Error::WatchFailed(error)),
        Call::Stream => None,
    })
}

/// The error, unless there is what has a version.
fn unless_versioned(versioned: bool) -> Option<Error>
    ensures { result ≡ unless_versioned versioned }
{
    if versioned {
        None
    } else {
        Some(Error::NoResourceVersion)
    }
}

/// The error of a call with its answer.
pub fn error_of(
    alloc: Global,
    initial: bool,
    call: &Call,
    answer: &Answer,
) -> Result<Option<Error>, NoMemory>
    ensures error { IfOk result (λ e. e ≡ error_in initial call.now answer.now) }
    ensures brings { OnErr result (brings answer.now call.now ≡ true) }
{
    match answer {
        Answer::Page { token, version } => {
            Ok(unless_versioned(token.is_some() || version.is_some()))
        }
        Answer::Added { version } | Answer::Modified { version } | Answer::Deleted { version } => {
            Ok(unless_versioned(initial || version.is_some()))
        }
        Answer::ErrorItem(status) => {
            let status = copy_status(alloc, status)?;
            Ok(Some(Error::WatchError(status)))
        }
        Answer::Fault(error) => fault_of(alloc, call, error),
        _ => Ok(None),
    }
}
