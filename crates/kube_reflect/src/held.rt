//! Events whose references are offered before they are given.

ghost use Rattle.std.specs.Prelude.{◌≡◌, ◌⊎◌, ℕ, true, false, OnOk, OnErr, IfOk, map, take};
ghost use Rattle.std.specs.Option.{option_map};
ghost use Rattle.std.specs.Arc.{arc_value};
ghost use Rattle.kube_meta.specs.Keys.{reference_of};
ghost use Rattle.kube_watch.specs.Events.{event_map};
ghost use Rattle.kube_reflect.specs.Cached.{has_name};
ghost use Rattle.kube_reflect.specs.Reflects.{offered_in, event_offers, IsOffered, IsTaken};
ghost use Rattle.kube_reflect.specs.HeldEvents.{held_of};
ghost use Rattle.kube_reflect.specs.Writers.{AllStay};

use crate::store::{OfferError, WriteError, Writer};
use kube_meta::{Next, NoMemory, ObjectRef, Resource};
use kube_watch::{Error, Event, StreamFault};
use std::alloc::Global;
use std::collections::VecDeque;
use std::sync::Arc;

/// What a stream of events answers.
pub type Answer<K> = Result<Next<Result<Event<Arc<K>>, Error>>, StreamFault>;

/// An event that was applied, with the references that are to be offered before it is given.
#[derive(Drop)]
pub struct Held<K: Resource> {
    pub event: Event<Arc<K>>,
    pub references: VecDeque<ObjectRef<K>>,
}

/// The references that an event offers, once it was applied.
fn references_of<K: Resource>(
    alloc: Global,
    writer: &Writer<K>,
    event: &Event<Arc<K>>,
) -> Result<VecDeque<ObjectRef<K>>, NoMemory>
    requires { has_name K.meta_of (event_map arc_value event.now) ≡ true }
    ensures { IfOk result (λ v. map (reference_of K.type_of) v.items ≡ event_offers arc_value K.meta_of writer.now event.now) }
{
    match event {
        Event::Apply(object) => writer.queue_key(alloc, &**object),
        Event::Delete(_) => Ok(VecDeque::new(alloc)),
        Event::Init => Ok(VecDeque::new(alloc)),
        Event::InitApply(_) => Ok(VecDeque::new(alloc)),
        Event::InitDone => writer.cache().queue_keys(alloc),
    }
}

/// Offers references in order, until a live subscriber lags behind.
fn offer_all<K: Resource>(
    writer: &mut Writer<K>,
    alloc: Global,
    references: &mut VecDeque<ObjectRef<K>>,
) -> Result<(), NoMemory>
    ensures writer { OnOk result (writer.new ≡ (offered_in writer.old (map (reference_of K.type_of) references.old.items)).0) }
    ensures left { OnOk result (map (reference_of K.type_of) references.new.items ≡ (offered_in writer.old (map (reference_of K.type_of) references.old.items)).1) }
    ensures live { AllStay writer.old writer.new }
    ensures some { OnErr result ((count : ℕ) × (writer.new ≡ (offered_in writer.old (take count (map (reference_of K.type_of) references.old.items))).0)) }
{
    for _offered in 0..references.len() {
        if writer.is_lagged() {
            return Ok(());
        }
        let Some(reference) = references.pop_front() else {
            unreachable!()
        };
        writer.offer_now(alloc, reference)?;
    }
    Ok(())
}

/// Offers the references of an event, and then gives it. Where there was no room it is put into `slot`.
pub fn give<K: Resource>(
    writer: &mut Writer<K>,
    slot: &mut Option<Held<K>>,
    alloc: Global,
    held: Held<K>,
) -> Answer<K>
    ensures live { AllStay writer.old writer.new }
    ensures offered { IsOffered writer.old held.event (map (reference_of K.type_of) held.references.items) result writer.new (option_map (held_of K.type_of) slot.new) }
{
    let Held {
        event,
        mut references,
    } = held;
    *slot = None;
    if offer_all(writer, alloc, &mut references).is_err() {
        return Err(StreamFault::NoMemory);
    }
    if references.is_empty() {
        return Ok(Next::Item(Ok(event)));
    }
    *slot = Some(Held { event, references });
    Ok(Next::NotReady)
}

/// Applies an event, offers its references, and gives it.
pub fn take<K: Resource>(
    writer: &mut Writer<K>,
    slot: &mut Option<Held<K>>,
    alloc: Global,
    event: Event<Arc<K>>,
) -> Answer<K>
    requires { slot.old ≡ None }
    ensures live { AllStay writer.old writer.new }
    ensures taken { IsTaken arc_value K.meta_of writer.old event result writer.new (option_map (held_of K.type_of) slot.new) }
{
    match writer.apply_watcher_event(alloc, &event) {
        Ok(()) => {}
        Err(WriteError::Unnamed) => return Err(StreamFault::Unnamed),
        Err(WriteError::NoMemory) => return Err(StreamFault::NoMemory),
    }
    if !writer.has_subscribers() {
        return Ok(Next::Item(Ok(event)));
    }
    match references_of(alloc, writer, &event) {
        Ok(references) => give(writer, slot, alloc, Held { event, references }),
        Err(NoMemory) => Err(StreamFault::NoMemory),
    }
}
