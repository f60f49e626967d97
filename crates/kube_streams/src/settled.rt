//! Objects of lists that are whole.

ghost use Rattle.std.specs.Prelude.{◌≡◌, [], ◌∷◌, ◌++◌, OnErr, OnOk, Ok, map};
ghost use Rattle.kube_streams.specs.Adapts.{IsTaken};
ghost use Rattle.kube_streams.specs.Decodes.{listed_after, settled};

use crate::adapted::{Adapt, Adapted, ObjectOf, wait};
use kube_meta::{Moment, NoMemory};
use kube_watch::{Error, Event, StreamFault};
use std::alloc::Global;
use std::collections::VecDeque;
use std::marker::Model;

/// Gives the objects of a list once it is whole.
#[derive(Drop)]
pub struct Settle<T> {
    listed: VecDeque<T>,
}

impl<T> Model for Settle<T> {
    ghost use Rattle.std.specs.Prelude.{List};

    ghost Value = { List T };

    ghost view = { λ s. s.listed.items };
}

impl<T: Drop> Settle<T> {
    /// Nothing listed yet.
    pub fn new(alloc: Global) -> Settle<T>
        ensures { result ≡ [] }
    {
        Settle {
            listed: VecDeque::new(alloc),
        }
    }

    // Keeps an object of a list.
    fn keep(&mut self, object: T) -> Result<(), NoMemory>
        ensures kept { OnOk result (self.new ≡ self.old ++ object ∷ []) }
        ensures err { OnErr result (self.new ≡ self.old) }
    {
        self.listed.push_back(object)?;
        Ok(())
    }

    // Gives the objects of a list.
    fn give(&mut self, waiting: &mut VecDeque<Result<T, Error>>) -> Result<(), NoMemory>
        requires { waiting.old.items ≡ [] }
        ensures given { OnOk result (waiting.new.items ≡ map Ok self.old) }
        ensures none { OnOk result (self.new ≡ []) }
        ensures err { OnErr result ((self.new ≡ self.old) × (waiting.new.items ≡ [])) }
    {
        waiting.reserve(self.listed.len())?;
        while let Some(object) = self.listed.pop_front() {
            waiting.push_back_reserved(Ok(object));
        }
        Ok(())
    }
}

impl<T: Drop> Adapt<Event<T>, T> for Settle<T> {
    ghost use Rattle.std.specs.Prelude.{◌≡◌};
    ghost use Rattle.kube_streams.specs.Decodes.{listed_after, settled};

    ghost takes = { λ now s told given t. (given ≡ settled s told) × (t ≡ listed_after s told) };

    fn take(
        &mut self,
        _alloc: Global,
        _now: Moment,
        told: Result<Event<T>, Error>,
        waiting: &mut VecDeque<Result<T, Error>>,
    ) -> Result<(), StreamFault>
        requires none { waiting.old.items ≡ [] }
        ensures taken { IsTaken ((waiting.new.items ≡ settled self.old told) × (self.new ≡ listed_after self.old told)) ⊥ result }
        ensures err { OnErr result ((self.new ≡ self.old) × (waiting.new.items ≡ [])) }
    {
        match told {
            Ok(Event::Apply(object)) => wait(waiting, Ok(object))?,
            Ok(Event::Delete(_object)) => {}
            Ok(Event::Init) => self.listed.clear(),
            Ok(Event::InitApply(object)) => self.keep(object)?,
            Ok(Event::InitDone) => self.give(waiting)?,
            Err(error) => wait(waiting, Err(error))?,
        }
        Ok(())
    }
}

/// The stream of the objects of whole lists, and of those that changed (what `WatchStreamExt::settled_objects` gives).
pub type Settled<S> = Adapted<S, Settle<ObjectOf<S>>, ObjectOf<S>>;
