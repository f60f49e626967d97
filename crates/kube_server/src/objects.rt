//! Objects in the order of their references.

ghost use Rattle.std.specs.Prelude.{◌≡◌, [], IfOk, OnOk, OnErr, map, option_copied};
ghost use Rattle.std.specs.Option.{option_map};
ghost use Rattle.std.specs.Arc.{arc_value};
ghost use Rattle.kube_server.specs.History.{object_at, with_object, without_object, objects_of, changed};
ghost use Rattle.kube_server.specs.Servers.{meta_of};
ghost use Rattle.kube_server.specs.Stored.{key_at, change_of};

use crate::entry::Entry;
use crate::place::{Place, place_of};
use kube_meta::{DynamicObject, NoMemory};
use std::alloc::Global;
use std::collections::BTreeMap;
use std::marker::Model;
use std::sync::Arc;

/// Objects, each under its key. Contracts see them as a state of a history.
#[derive(Drop)]
pub(crate) struct Objects {
    by_place: BTreeMap<Place, Arc<DynamicObject>>,
}

impl Model for Objects {
    ghost use Rattle.kube_meta.specs.declared.dynamic.DynamicObject.{DynamicObject};
    ghost use Rattle.kube_server.specs.History.{State};

    ghost Value = { State DynamicObject };

    ghost use Rattle.serde_json.specs.contracts.value.Value as json;
    ghost use Rattle.std.specs.Coded.{codes};

    ghost coded = { Prim.hlevel (codes, json.the_row.coded) };

    ghost use Rattle.kube_server.specs.Stored.{state_held};

    ghost view = { λ o. state_held o.by_place.entries };
}

impl Objects {
    pub(crate) fn new(alloc: Global) -> Objects
        ensures { result ≡ [] }
    {
        Objects {
            by_place: BTreeMap::new(alloc),
        }
    }

    /// The object at a place.
    pub(crate) fn get(&self, place: &Place) -> Option<&Arc<DynamicObject>>
        ensures { option_map arc_value (option_copied result) ≡ object_at (key_at place.now) self.now }
    {
        self.by_place.get(place)
    }

    /// Puts an object at a place.
    ///
    /// Errors: `NoMemory`, and all is as it was.
    pub(crate) fn put(&mut self, place: Place, object: Arc<DynamicObject>) -> Result<(), NoMemory>
        ensures ok { OnOk result (self.new ≡ with_object (key_at place) (arc_value object) self.old) }
        ensures err { OnErr result (self.new ≡ self.old) }
    {
        self.by_place.insert(place, object)?;
        Ok(())
    }

    /// Takes the object at a place out.
    pub(crate) fn remove(&mut self, place: &Place)
        ensures { self.new ≡ without_object (key_at place.now) self.old }
    {
        let _gone = self.by_place.remove(place);
    }

    /// What an entry of a log makes of them.
    ///
    /// Errors: `NoMemory`, and all is as it was.
    pub(crate) fn apply(&mut self, alloc: Global, entry: &Entry) -> Result<(), NoMemory>
        ensures ok { OnOk result (self.new ≡ changed meta_of self.old (change_of entry.now)) }
        ensures err { OnErr result (self.new ≡ self.old) }
    {
        let place = place_of(alloc, &entry.object().metadata)?;
        match entry {
            Entry::Added(object) | Entry::Modified(object) => self.put(place, object.clone()?),
            Entry::Deleted(_) => {
                self.remove(&place);
                Ok(())
            }
        }
    }

    /// All objects in their order; they are shared.
    ///
    /// Errors: `NoMemory`.
    pub(crate) fn all(&self, alloc: Global) -> Result<Vec<Arc<DynamicObject>>, NoMemory>
        ensures { IfOk result (λ v. map arc_value v.items ≡ objects_of self.now) }
    {
        let mut all = Vec::with_capacity(alloc, self.by_place.len())?;
        for object in self.by_place.values() {
            all.push(object.clone()?)?;
        }
        Ok(all)
    }
}
