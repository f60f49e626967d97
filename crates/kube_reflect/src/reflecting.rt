//! A stream that writes what it gives into a cache (the stream of kube-runtime's `reflector`).

ghost use Rattle.std.specs.Prelude.{◌≡◌, None};
ghost use Rattle.std.specs.Arc.{arc_value};
ghost use Rattle.kube_reflect.specs.Reflects.{Answered};
ghost use Rattle.kube_reflect.specs.HeldEvents.{held_of};
ghost use Rattle.kube_reflect.specs.Writers.{AllStay};
ghost use Rattle.std.specs.Option.{option_map};

use crate::held::{Answer, Held, give, take};
use crate::store::Writer;
use kube_meta::{Moment, Next, Resource};
use kube_watch::stream::{ask, fault_of};
use kube_watch::{Event, EventStream, StreamFault};
use std::alloc::Global;
use std::sync::Arc;

/// A stream of events that applies each of them to a writer before it gives it.
///
/// It offers the reference of an `Apply`, and at an `InitDone` all that are stored, to the writer's subscribers. Where
/// one of them lags behind it is not ready, and the event waits.
#[derive(Drop)]
pub struct Reflector<K: Resource, St> {
    pub(crate) writer: Writer<K>,
    pub(crate) stream: St,
    pub(crate) held: Option<Held<K>>,
    pub(crate) fault: Option<StreamFault>,
}

impl<K: Resource, St> Reflector<K, St> {
    /// A reflector that has applied nothing.
    pub fn new(writer: Writer<K>, stream: St) -> Reflector<K, St>
        ensures { result ≡ record { writer = writer; stream = stream; held = None; fault = None } }
    {
        Reflector {
            writer,
            stream,
            held: None,
            fault: None,
        }
    }
}

/// What an answer of the stream makes of a reflector that holds nothing.
fn reflect<K: Resource>(
    writer: &mut Writer<K>,
    slot: &mut Option<Held<K>>,
    alloc: Global,
    answer: Answer<K>,
) -> Answer<K>
    requires { slot.old ≡ None }
    ensures live { AllStay writer.old writer.new }
    ensures answered { Answered arc_value K.meta_of writer.old answer result writer.new (option_map (held_of K.type_of) slot.new) }
{
    match answer {
        Ok(Next::Item(Ok(event))) => take(writer, slot, alloc, event),
        Ok(Next::End) => {
            writer.close_subscribers();
            Ok(Next::End)
        }
        answer => answer,
    }
}

impl<K: Resource, St: Drop> Reflector<K, St> {
    ghost use Rattle.std.specs.Borrow.{Lends, sem};
    ghost use Rattle.kube_reflect.specs.Lending.{with_writer};
    ghost use Rattle.kube_reflect.specs.contracts.reflecting.Reflector.{the_row as reflector_row};
    ghost use Rattle.kube_reflect.specs.contracts.store.Writer.{the_row as writer_row};

    /// The writer, to which all events that were given were applied, and the one that waits where there is one.
    pub fn writer(&mut self) -> &mut Writer<K>
        ensures* lends { sem 𝓛 (Lends (reflector_row K.row St.row K.DynamicType.row K.Resource (record {}) (record {}) K.DynamicType.PartialEq (record { hash_input = K.DynamicType.hash_input }))
            (writer_row K.row K.DynamicType.row K.Resource (record {}) (record {}) K.DynamicType.PartialEq (record { hash_input = K.DynamicType.hash_input })) self.entry result (with_writer self.old)) }
        ensures value { result.now ≡ self.old.writer }
    {
        &mut self.writer
    }

    /// The writer. The stream is dropped.
    pub fn into_writer(self) -> Writer<K>
        ensures { result ≡ self.writer }
    {
        let Reflector {
            writer,
            stream: _,
            held: _,
            fault: _,
        } = self;
        writer
    }
}

impl<K: Resource, St: EventStream<Item = Event<Arc<K>>>> EventStream for Reflector<K, St> {
    ghost use Rattle.std.specs.Prelude.{None};
    ghost use Rattle.std.specs.Arc.{arc_value};
    ghost use Rattle.kube_reflect.specs.Reflects.{Reflected, Said};
    ghost use Rattle.kube_reflect.specs.Reflectors.{reflecting};
    ghost use Rattle.kube_reflect.specs.Writers.{AllStay};

    type Item = Event<Arc<K>>;

    ghost told = { λ _. None };

    ghost can_poll = { λ r. St.can_poll r.stream };

    ghost fault = { λ r. r.fault };

    ghost polls = { λ r now fuel answer s. Reflected arc_value K.meta_of (Said St.polls St.told) r.fault (reflecting K.type_of r) now fuel answer (reflecting K.type_of s)
        × AllStay r.writer s.writer };

    fn poll_next(&mut self, alloc: Global, now: Moment, fuel: u32) -> Answer<K> {
        if let Some(fault) = self.fault {
            return Err(fault);
        }
        let answer = match self.held.take() {
            Some(held) => give(&mut self.writer, &mut self.held, alloc, held),
            None => {
                let answer = ask(&mut self.stream, alloc, now, fuel);
                reflect(&mut self.writer, &mut self.held, alloc, answer)
            }
        };
        self.fault = fault_of(&answer);
        answer
    }
}
