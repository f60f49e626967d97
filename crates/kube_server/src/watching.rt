//! An open watch of a connection.

ghost use Rattle.std.specs.Prelude.{◌≡◌, ◌+◌, ◌∷◌, ◌++◌, [], Some, IfOk, length, map, nat_lt, if◌then◌else◌};
ghost use Rattle.std.specs.Arc.{arc_value};
ghost use Rattle.kube_model.specs.Raw.{GivesAdded};
ghost use Rattle.kube_api.specs.Answers.{next_answer, event_answer};
ghost use Rattle.kube_server.specs.Servers.{meta_of};
ghost use Rattle.kube_server.specs.Connections.{first_named, poll_watch, ending_bookmark, later_watch, expired};
ghost use Rattle.kube_server.specs.Stored.{change_of, name_of};
ghost use Rattle.kube_server.specs.Watches.{watch_of};
ghost use Rattle.kube_server.specs.Indices.{IsFirstNamed, IsNextIndex};

use crate::entry::Entry;
use crate::selector::Sought;
use crate::status::expired;
use crate::token::decimal;
use kube_api::copies::copy_event;
use kube_api::{ApiError, Bookmark, WatchEvent};
use kube_meta::{DynamicObject, NoMemory, Polled, Text, TextMap};
use std::alloc::Global;
use std::collections::VecDeque;
use std::sync::Arc;

/// An open watch: what it gives first, and the revision after which it then gives the changes of a name. Without such
/// a revision it then ends.
#[derive(Drop)]
pub(crate) struct Watching {
    pub(crate) name: Sought,
    pub(crate) pending: VecDeque<WatchEvent<DynamicObject>>,
    pub(crate) follows: Option<usize>,
}

/// The index of the first entry of a name, from an index on; the log's length where there is none.
fn first_named_from(name: &Sought, log: &[Entry], from: usize) -> usize
    ensures { IsFirstNamed (name_of name.now) (map change_of log.now) from result }
{
    let mut index = from;
    while index < log.len() && !name.is_of(&log[index].object().metadata) {
        index += 1;
    }
    index
}

/// The bookmark that ends the initial events.
fn ending(alloc: Global, revision: u64) -> Result<WatchEvent<DynamicObject>, NoMemory>
    ensures { IfOk result (λ e. event_answer e ≡ ending_bookmark revision) }
{
    let mut annotations = TextMap::new(alloc);
    let whole = Text::new(alloc, "true")?;
    annotations.insert(alloc, "k8s.io/initial-events-end", whole)?;
    Ok(WatchEvent::Bookmark(Bookmark {
        version: decimal(alloc, revision)?,
        annotations,
    }))
}

/// Each object as one that was added, and then the ending bookmark.
fn initial_events(
    alloc: Global,
    objects: &[Arc<DynamicObject>],
    revision: u64,
) -> Result<VecDeque<WatchEvent<DynamicObject>>, NoMemory>
    ensures { IfOk result (λ q. map event_answer q.items ≡ map GivesAdded (map arc_value objects.now) ++ ending_bookmark revision ∷ []) }
{
    let mut events = VecDeque::new(alloc);
    for object in objects {
        events.push_back(WatchEvent::Added(object.clone()?))?;
    }
    events.push_back(ending(alloc, revision)?)?;
    Ok(events)
}

impl Watching {
    /// A watch that gives the objects of a revision first.
    ///
    /// Errors: `NoMemory`.
    pub(crate) fn initial(
        alloc: Global,
        name: Sought,
        objects: &[Arc<DynamicObject>],
        revision: usize,
    ) -> Result<Watching, NoMemory>
        ensures { IfOk result (λ w. watch_of w ≡ record {
          name = name_of name;
          pending = map GivesAdded (map arc_value objects.now) ++ ending_bookmark revision ∷ [];
          follows = Some revision;
        }) }
    {
        Ok(Watching {
            name,
            pending: initial_events(alloc, objects, revision as u64)?,
            follows: Some(revision),
        })
    }

    /// A watch that gives the changes after a revision, or, where there is none, an error item of code 410.
    ///
    /// Errors: `NoMemory`.
    pub(crate) fn later(
        alloc: Global,
        name: Sought,
        revision: Option<usize>,
    ) -> Result<Watching, NoMemory>
        ensures { IfOk result (λ w. watch_of w ≡ later_watch (name_of name) revision) }
    {
        let mut pending = VecDeque::new(alloc);
        if revision.is_none() {
            pending.push_back(WatchEvent::Error(expired(alloc)?))?;
        }
        Ok(Watching {
            name,
            pending,
            follows: revision,
        })
    }

    /// The index of the next entry that it gives.
    pub(crate) fn seek(&self, log: &[Entry]) -> usize
        ensures { IsNextIndex (watch_of self.now) (map change_of log.now) result }
    {
        match self.follows {
            Some(revision) if self.pending.is_empty() => {
                first_named_from(&self.name, log, revision)
            }
            _ => 0,
        }
    }

    /// What it is polled, where this is the next index.
    ///
    /// Errors: `NoMemory`.
    pub(crate) fn answer(
        &self,
        alloc: Global,
        log: &[Entry],
        index: usize,
    ) -> Result<Polled<Option<Result<WatchEvent<DynamicObject>, ApiError>>>, NoMemory>
        requires { IsNextIndex (watch_of self.now) (map change_of log.now) index }
        ensures { IfOk result (λ a. next_answer a ≡ (poll_watch meta_of (map change_of log.now) (watch_of self.now)).answer) }
    {
        if let Some(event) = self.pending.front() {
            return Ok(Polled::Ready(Some(Ok(copy_event(alloc, event)?))));
        }
        if self.follows.is_none() {
            return Ok(Polled::Ready(None));
        }
        if index >= log.len() {
            return Ok(Polled::NotReady);
        }
        Ok(Polled::Ready(Some(Ok(log[index].event()?))))
    }

    /// Goes past what it was polled.
    pub(crate) fn advance(&mut self, log: &[Entry], index: usize)
        requires { IsNextIndex (watch_of self.old) (map change_of log.now) index }
        ensures { watch_of self.new ≡ (poll_watch meta_of (map change_of log.now) (watch_of self.old)).left }
    {
        match self.pending.pop_front() {
            Some(_told) => {}
            None => {
                if self.follows.is_some() {
                    self.follows = Some(past(log, index));
                }
            }
        }
    }
}

/// The index behind the entry that is there, if there is one.
fn past(log: &[Entry], index: usize) -> usize
    ensures { result ≡ (if nat_lt index (length log.now) then index + 1 else index) }
{
    if index < log.len() { index + 1 } else { index }
}
