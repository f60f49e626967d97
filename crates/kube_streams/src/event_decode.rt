//! Objects of events (kube-runtime's `utils::event_decode`).

ghost use Rattle.std.specs.Prelude.{◌≡◌, [], OnErr};
ghost use Rattle.kube_streams.specs.Adapts.{IsTaken};
ghost use Rattle.kube_streams.specs.Decodes.{decoded};

use crate::adapted::{Adapt, Adapted, ObjectOf, wait};
use kube_meta::Moment;
use kube_watch::{Error, Event, StreamFault};
use std::alloc::Global;
use std::collections::VecDeque;

/// Gives the objects of events.
#[derive(Drop)]
pub struct Decode {
    deletes: bool,
}

impl Decode {
    pub(crate) fn new(deletes: bool) -> Decode
        ensures { result ≡ record { deletes = deletes } }
    {
        Decode { deletes }
    }
}

impl<T: Drop> Adapt<Event<T>, T> for Decode {
    ghost use Rattle.std.specs.Prelude.{◌≡◌};
    ghost use Rattle.kube_streams.specs.Decodes.{decoded};

    ghost takes = { λ now d told given e. (given ≡ decoded d.deletes told) × (e ≡ d) };

    fn take(
        &mut self,
        _alloc: Global,
        _now: Moment,
        told: Result<Event<T>, Error>,
        waiting: &mut VecDeque<Result<T, Error>>,
    ) -> Result<(), StreamFault>
        requires none { waiting.old.items ≡ [] }
        ensures taken { IsTaken ((waiting.new.items ≡ decoded self.old.deletes told) × (self.new ≡ self.old)) ⊥ result }
        ensures err { OnErr result ((self.new ≡ self.old) × (waiting.new.items ≡ [])) }
    {
        match told {
            Ok(Event::Apply(object)) | Ok(Event::InitApply(object)) => {
                wait(waiting, Ok(object))?;
            }
            Ok(Event::Delete(object)) => {
                if self.deletes {
                    wait(waiting, Ok(object))?;
                }
            }
            Ok(Event::Init) | Ok(Event::InitDone) => {}
            Err(error) => wait(waiting, Err(error))?,
        }
        Ok(())
    }
}

/// The stream of the objects of events.
pub type EventDecode<S> = Adapted<S, Decode, ObjectOf<S>>;
