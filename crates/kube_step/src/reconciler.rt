//! Reconcilers, to which due objects are handed.

ghost use Rattle.std.specs.Prelude.{◌≡◌, [], map};
ghost use Rattle.kube_step.specs.HandOvers.{hand_over};

use kube_meta::{List, NoMemory, ObjectRef, Resource};
use std::alloc::Global;
use std::marker::Model;
use std::sync::Arc;

/// What starts the reconcile of an object that is due (the reconciler closure of kube-runtime's `Controller::run`).
///
/// The reconcile itself ends in a later turn, by a finish.
pub trait Reconciler<K: Resource, Ctx: Drop>: Drop {
    ghost use Rattle.std.specs.Prelude.{List, Option, None, OnOk, OnErr, ◌≡◌};
    ghost use Rattle.std.specs.Arc.{arc_value};
    ghost use Rattle.kube_meta.specs.Reference.{Reference};
    ghost use Rattle.kube_meta.specs.Keys.{reference_of};
    ghost use Rattle.kube_model.specs.Raw.{grown};

    /// What was handed over, in order, where the reconciler tells it. Where it doesn't say so it tells nothing.
    ghost handed: { Self → Option (List (Reference × K)) } = { λ _. None };

    /// Starts the reconcile of an object under a reference by which it was found.
    fn start(
        &mut self,
        alloc: Global,
        reference: &ObjectRef<K>,
        object: Arc<K>,
        context: Arc<Ctx>,
    ) -> Result<(), NoMemory>
        ensures grows { OnOk result (handed self.new ≡ grown (handed self.old) (reference_of K.type_of reference.now, arc_value object)) }
        ensures unchanged { OnErr result (handed self.new ≡ handed self.old) };
}

/// An object that was handed over, under the reference by which it was found.
#[derive(Drop)]
pub struct Handed<K: Resource> {
    pub reference: ObjectRef<K>,
    pub object: Arc<K>,
}

/// A reconciler that keeps what is handed to it.
#[derive(Drop)]
pub struct Recorder<K: Resource> {
    handed: List<Handed<K>>,
}

impl<K: Resource> Model for Recorder<K> {
    ghost use Rattle.std.specs.Prelude.{List};
    ghost use Rattle.kube_step.specs.declared.reconciler.Handed.{Handed};

    ghost Value = { List (Handed K K.DynamicType) };

    ghost view = { λ r. r.handed };
}

impl<K: Resource> Recorder<K> {
    /// A reconciler to which nothing was handed yet.
    pub fn new(alloc: Global) -> Recorder<K>
        ensures { result ≡ [] }
    {
        Recorder {
            handed: List::new(alloc),
        }
    }

    /// What was handed over, in order.
    pub fn hand_overs(&self) -> &[Handed<K>]
        ensures { result.now ≡ self.now }
    {
        self.handed.as_slice()
    }
}

impl<K: Resource, Ctx: Drop> Reconciler<K, Ctx> for Recorder<K> {
    ghost use Rattle.std.specs.Prelude.{◌≡◌, Some, map, OnOk, OnErr};
    ghost use Rattle.std.specs.Arc.{arc_value};
    ghost use Rattle.kube_meta.specs.Keys.{reference_of};
    ghost use Rattle.kube_model.specs.Raw.{grown};
    ghost use Rattle.kube_step.specs.HandOvers.{hand_over};

    ghost handed = { λ r. Some (map (hand_over K.type_of) r) };

    fn start(
        &mut self,
        alloc: Global,
        reference: &ObjectRef<K>,
        object: Arc<K>,
        _context: Arc<Ctx>,
    ) -> Result<(), NoMemory>
        ensures grows { OnOk result (Some (map (hand_over K.type_of) self.new)
            ≡ grown (Some (map (hand_over K.type_of) self.old)) (reference_of K.type_of reference.now, arc_value object)) }
        ensures unchanged { OnErr result (Some (map (hand_over K.type_of) self.new) ≡ Some (map (hand_over K.type_of) self.old)) }
    {
        let reference = reference.copy(alloc)?;
        self.handed.push(Handed { reference, object })
    }
}
