//! A stream that writes what it gives into a cache (kube-runtime's `utils::reflect`).

ghost use Rattle.std.specs.Prelude.{◌≡◌, None};
ghost use Rattle.std.specs.Arc.{arc_value};
ghost use Rattle.kube_streams.specs.Applies.{AnswerApplied, IsApplied};

use kube_meta::{Moment, Next, Resource};
use kube_reflect::{WriteError, Writer};
use kube_watch::stream::{ask, fault_of};
use kube_watch::{Error, Event, EventStream, StreamFault};
use std::alloc::Global;
use std::marker::Model;
use std::sync::Arc;

/// A stream that applies each event to a writer before it gives it (kube-runtime's `Reflect`).
#[derive(Drop)]
pub struct Reflect<S, K: Resource> {
    stream: S,
    writer: Writer<K>,
    fault: Option<StreamFault>,
}

impl<S, K: Resource> Model for Reflect<S, K> {
    ghost use Rattle.kube_streams.specs.Applies.{Applying};

    ghost Value = { Applying K S };

    ghost view = { λ r. record { stream = r.stream; writer = r.writer; fault = r.fault } };
}

impl<S, K: Resource> Reflect<S, K> {
    pub(crate) fn new(stream: S, writer: Writer<K>) -> Reflect<S, K>
        ensures { result ≡ record { stream = stream; writer = writer; fault = None } }
    {
        Reflect {
            stream,
            writer,
            fault: None,
        }
    }
}

impl<S: Drop, K: Resource> Reflect<S, K> {
    ghost use Rattle.std.specs.Borrow.{Lends, sem};
    ghost use Rattle.kube_streams.specs.Applies.{with_writer};
    ghost use Rattle.kube_streams.specs.contracts.reflect.Reflect.{the_row as reflect_row};
    ghost use Rattle.kube_reflect.specs.contracts.store.Writer.{the_row as writer_row};

    /// The writer, to which all events that were given were applied.
    pub fn writer(&mut self) -> &mut Writer<K>
        ensures* lends { sem 𝓛 (Lends (reflect_row S.row K.row K.DynamicType.row K.Resource (record {}) (record {}) K.DynamicType.PartialEq (record { hash_input = K.DynamicType.hash_input }))
            (writer_row K.row K.DynamicType.row K.Resource (record {}) (record {}) K.DynamicType.PartialEq (record { hash_input = K.DynamicType.hash_input })) self.entry result (with_writer self.old)) }
        ensures value { result.now ≡ self.old.writer }
    {
        &mut self.writer
    }

    /// The writer, to which all events that were given were applied. The stream is dropped.
    pub fn into_writer(self) -> Writer<K>
        ensures { result ≡ self.writer }
    {
        let Reflect {
            writer,
            stream: _,
            fault: _,
        } = self;
        writer
    }
}

/// The event, once it is applied.
fn apply<K: Resource>(
    writer: &mut Writer<K>,
    alloc: Global,
    event: Event<Arc<K>>,
) -> Result<Next<Result<Event<Arc<K>>, Error>>, StreamFault>
    ensures { IsApplied arc_value K.meta_of writer.old event result writer.new }
{
    match writer.apply_watcher_event(alloc, &event) {
        Ok(()) => Ok(Next::Item(Ok(event))),
        Err(WriteError::Unnamed) => Err(StreamFault::Unnamed),
        Err(WriteError::NoMemory) => Err(StreamFault::NoMemory),
    }
}

/// An answer, with its event applied.
fn answer_applied<K: Resource>(
    writer: &mut Writer<K>,
    alloc: Global,
    answer: Result<Next<Result<Event<Arc<K>>, Error>>, StreamFault>,
) -> Result<Next<Result<Event<Arc<K>>, Error>>, StreamFault>
    ensures { AnswerApplied arc_value K.meta_of writer.old answer result writer.new }
{
    match answer {
        Ok(Next::Item(Ok(event))) => apply(writer, alloc, event),
        answer => answer,
    }
}

impl<K: Resource, S: EventStream<Item = Event<Arc<K>>>> EventStream for Reflect<S, K> {
    ghost use Rattle.std.specs.Prelude.{None};
    ghost use Rattle.std.specs.Arc.{arc_value};
    ghost use Rattle.kube_watch.specs.Asking.{Said};
    ghost use Rattle.kube_streams.specs.Applies.{Applied};

    type Item = Event<Arc<K>>;

    ghost told = { λ _. None };

    ghost fault = { λ r. r.fault };

    ghost can_poll = { λ r. S.can_poll r.stream };

    ghost polls = { λ r now fuel answer q. Applied arc_value K.meta_of (Said S.polls S.told) r.fault now fuel r answer q };

    fn poll_next(
        &mut self,
        alloc: Global,
        now: Moment,
        fuel: u32,
    ) -> Result<Next<Result<Event<Arc<K>>, Error>>, StreamFault> {
        if let Some(fault) = self.fault {
            return Err(fault);
        }
        let last = ask(&mut self.stream, alloc, now, fuel);
        let answer = answer_applied(&mut self.writer, alloc, last);
        self.fault = fault_of(&answer);
        answer
    }
}
