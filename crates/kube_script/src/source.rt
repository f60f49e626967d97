//! What an API answers: pages, events and watches.

ghost use Rattle.std.specs.Prelude.{◌≡◌, [], codes, List, map, option_map};
ghost use Rattle.std.specs.Arc.{arc_value};
ghost use Rattle.kube_meta.specs.Places.{Gives, IsUnlessMemory, escaped, under as under_part};
ghost use Rattle.kube_meta.specs.declared.object_fault.ObjectFault.TheVariants.{Shape as shape};
ghost use Rattle.kube_meta.specs.Reading.{ObjectData as object_record};
ghost use Rattle.kube_meta.specs.declared.poll.Polled.TheVariants.{Ready};
ghost use Rattle.kube_model.specs.Raw.{RawAnswer};
ghost use Rattle.kube_api.specs.Answers.{list_answer};
ghost use Rattle.kube_api.specs.TestScript.{Step};
ghost use Rattle.kube_script.specs.Script.{PageMeta as page_meta_record, page_meta_at, page_of, page_at, BookmarkMeta as bookmark_meta_record, bookmark_meta_at, bookmark_meta_of, bookmark_at, EventType as event_type_data, event_type_at, event_of, event_at, step_form, steps_from, step_at, watch_at};
ghost use Rattle.kube_script.specs.SeenSource.{seen_page_meta, seen_bookmark_meta, seen_bookmark, seen_type, seen_event, seen_step};
ghost use Rattle.serde_json.specs.View.{view};

use crate::owned::{OwnedRow, owned_list, owned_maybe, owned_member};
use crate::row::{Row, default_member, is_object, maybe_member, member};
use crate::status::exactly_one;
use kube_api::{ApiError, Bookmark, Page, Sequence, SequenceStep, WatchEvent};
use kube_meta::{List, ObjectFault, Text, TextMap};
use kube_model::error::Status;
use kube_object::ScriptObject;
use serde_json::Value;
use std::alloc::Global;
use std::collections::VecDeque;
use std::sync::Arc;

/// What a list call is answered.
pub type Listed = Result<Page<ScriptObject>, ApiError>;

/// What a poll of a watch is answered.
pub type Event = Result<WatchEvent<ScriptObject>, ApiError>;

/// The metadata of a page.
#[derive(Drop)]
struct PageMeta {
    version: Option<Text>,
    token: Option<Text>,
}

impl Row for PageMeta {
    ghost Seen = { page_meta_record };

    ghost seen = { seen_page_meta };

    ghost reads = { page_meta_at };

    #[tactic(auto, unfolding(crate::specs::Script::page_meta_at))]
    fn read(alloc: Global, value: &Value) -> Result<PageMeta, ObjectFault> {
        is_object(alloc, value)?;
        let version = maybe_member(alloc, value, "resourceVersion")?;
        let token = maybe_member(alloc, value, "continue")?;
        Ok(PageMeta { version, token })
    }
}

impl OwnedRow for Listed {
    ghost Seen = { RawAnswer object_record };

    ghost seen = { λ page. list_answer (Ready page) };

    ghost reads = { page_at };

    #[tactic(auto, unfolding(crate::specs::Script::page_at))]
    fn read(alloc: Global, value: Value) -> Result<Listed, ObjectFault> {
        is_object(alloc, &value)?;

        // The items are moved out after these, but a fault of theirs comes first.
        let none = PageMeta {
            version: None,
            token: None,
        };
        let metadata = default_member(alloc, &value, "metadata", none);
        let fault = maybe_member(alloc, &value, "fault");
        let items = owned_list(alloc, value, "items")?;
        let metadata = metadata?;
        let fault = fault?;
        Ok(page(items, metadata, fault))
    }
}

/// A page with a fault is a fault.
fn page(items: Vec<Arc<ScriptObject>>, metadata: PageMeta, fault: Option<ApiError>) -> Listed
    ensures { list_answer (Ready result) ≡ page_of (map arc_value items.items) (seen_page_meta metadata) fault }
{
    match fault {
        Some(fault) => Err(fault),
        None => Ok(Page {
            items: List::from(items),
            token: metadata.token,
            version: metadata.version,
        }),
    }
}

/// The metadata of a bookmark.
#[derive(Drop)]
struct BookmarkMeta {
    version: Text,
    annotations: TextMap,
}

impl Row for BookmarkMeta {
    ghost Seen = { bookmark_meta_record };

    ghost seen = { seen_bookmark_meta };

    ghost reads = { bookmark_meta_at };

    #[tactic(auto, unfolding(crate::specs::Script::bookmark_meta_at))]
    fn read(alloc: Global, value: &Value) -> Result<BookmarkMeta, ObjectFault> {
        is_object(alloc, value)?;
        let version = member(alloc, value, "resourceVersion")?;
        let annotations = default_member(alloc, value, "annotations", TextMap::new(alloc))?;
        Ok(BookmarkMeta {
            version,
            annotations,
        })
    }
}

impl Row for Bookmark {
    ghost Seen = { RawAnswer object_record };

    ghost seen = { seen_bookmark };

    ghost reads = { bookmark_at };

    #[tactic(auto, unfolding(crate::specs::Script::bookmark_at))]
    fn read(alloc: Global, value: &Value) -> Result<Bookmark, ObjectFault> {
        is_object(alloc, value)?;
        let metadata = maybe_member(alloc, value, "metadata")?;
        let BookmarkMeta {
            version,
            annotations,
        } = with_version(alloc, metadata)?;
        Ok(Bookmark {
            version,
            annotations,
        })
    }
}

/// Where a bookmark has no metadata its version is missing.
fn with_version(alloc: Global, metadata: Option<BookmarkMeta>) -> Result<BookmarkMeta, ObjectFault>
    ensures { Gives seen_bookmark_meta result (bookmark_meta_of (option_map seen_bookmark_meta metadata)) }
{
    match metadata {
        Some(metadata) => Ok(metadata),
        None => Err(without_version(alloc).under(alloc, "metadata")),
    }
}

fn without_version(alloc: Global) -> ObjectFault
    ensures { IsUnlessMemory result (under_part (escaped (codes "resourceVersion")) (shape [])) }
{
    ObjectFault::shape(alloc).under(alloc, "resourceVersion")
}

/// The type of an event.
#[derive(Clone, Copy, Debug, PartialEq, Eq)]
pub enum EventType {
    Added,
    Modified,
    Deleted,
    Bookmark,
    Error,
    Fault,
}

impl Row for EventType {
    ghost Seen = { event_type_data };

    ghost seen = { seen_type };

    ghost reads = { event_type_at };

    #[tactic(auto, unfolding(crate::specs::Script::event_type_at))]
    fn read(alloc: Global, value: &Value) -> Result<EventType, ObjectFault> {
        match value.as_str() {
            Some("ADDED") => Ok(EventType::Added),
            Some("MODIFIED") => Ok(EventType::Modified),
            Some("DELETED") => Ok(EventType::Deleted),
            Some("BOOKMARK") => Ok(EventType::Bookmark),
            Some("ERROR") => Ok(EventType::Error),
            Some("FAULT") => Ok(EventType::Fault),
            _ => Err(ObjectFault::shape(alloc)),
        }
    }
}

impl OwnedRow for Event {
    ghost Seen = { RawAnswer object_record };

    ghost seen = { seen_event };

    ghost reads = { event_at };

    #[tactic(auto, unfolding(crate::specs::Script::event_at))]
    fn read(alloc: Global, value: Value) -> Result<Event, ObjectFault> {
        is_object(alloc, &value)?;
        let event_type = member(alloc, &value, "type")?;
        let event = event(alloc, event_type, value)?;
        Ok(event)
    }
}

/// The object of an event, or its fault.
fn event(alloc: Global, event_type: EventType, value: Value) -> Result<Event, ObjectFault>
    ensures { Gives seen_event result (event_of (seen_type event_type) (view value)) }
{
    match event_type {
        EventType::Added => Ok(Ok(WatchEvent::Added(owned_member(alloc, value, "object")?))),
        EventType::Modified => Ok(Ok(WatchEvent::Modified(owned_member(alloc, value, "object")?))),
        EventType::Deleted => Ok(Ok(WatchEvent::Deleted(owned_member(alloc, value, "object")?))),
        EventType::Bookmark => Ok(Ok(WatchEvent::Bookmark(member(alloc, &value, "object")?))),
        EventType::Error => {
            let status: Status = member(alloc, &value, "object")?;
            Ok(Ok(WatchEvent::Error(status)))
        }
        EventType::Fault => {
            let fault: ApiError = member(alloc, &value, "fault")?;
            Ok(Err(fault))
        }
    }
}

impl OwnedRow for SequenceStep<ScriptObject> {
    ghost Seen = { List (Step object_record) };

    ghost seen = { seen_step };

    ghost reads = { step_at };

    #[tactic(auto, unfolding(crate::specs::Script::step_at))]
    fn read(alloc: Global, value: Value) -> Result<SequenceStep<ScriptObject>, ObjectFault> {
        one_step(alloc, &value)?;
        let nanos = maybe_member(alloc, &value, "wait")?;
        let events = owned_maybe(alloc, value, "events")?;
        Ok(step(alloc, nanos, events))
    }
}

#[tactic(auto, unfolding(crate::specs::Script::step_form))]
fn one_step(alloc: Global, value: &Value) -> Result<(), ObjectFault>
    ensures { Gives (λ x. x) result (step_form (view value.now)) }
{
    exactly_one(alloc, value, &["wait", "events"])
}

/// Nanoseconds of silence, or events one by one.
#[tactic(auto, using(crate::proofs::Steps::events_in_order))]
fn step(alloc: Global, nanos: Option<u64>, events: Option<Vec<Event>>) -> SequenceStep<ScriptObject>
    ensures { seen_step result ≡ steps_from nanos (option_map (λ es. map seen_event es.items) events) }
{
    if let Some(nanos) = nanos {
        return SequenceStep::Wait(nanos);
    }
    match events {
        Some(events) => SequenceStep::List(VecDeque::from_vec(events)),
        None => SequenceStep::List(VecDeque::new(alloc)),
    }
}

impl OwnedRow for Sequence<ScriptObject> {
    ghost Seen = { List (Step object_record) };

    ghost seen = { λ s. s };

    ghost reads = { watch_at };

    #[tactic(auto, using(crate::proofs::Steps::joined_steps), unfolding(crate::specs::Script::watch_at))]
    fn read(alloc: Global, value: Value) -> Result<Sequence<ScriptObject>, ObjectFault> {
        let steps: Vec<SequenceStep<ScriptObject>> = OwnedRow::read(alloc, value)?;
        Ok(Sequence::new(steps))
    }
}
