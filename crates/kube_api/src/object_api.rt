//! An API of single objects, which patches and deletes them (in place of kube's `Api::patch` and `Api::delete`).

use crate::patch::{Patch, PatchRefusal};
use kube_meta::{Moment, NoMemory, Polled, Resource};
use kube_model::error::{ApiError, Status};
use std::alloc::Global;
use std::sync::Arc;

/// What a patch of an object was answered.
#[derive(Drop)]
pub enum PatchAnswer<V: Drop> {
    /// The object after the patch.
    Done(Arc<V>),
    /// Nothing was changed.
    Refused(PatchRefusal),
    Fault(ApiError),
}

/// What a deletion of an object was answered (Kubernetes API concept "resource deletion").
#[derive(Drop)]
pub enum DeleteAnswer<V: Drop> {
    /// The object, which stays until its finalizers are gone.
    Object(Arc<V>),
    /// The object is gone.
    Status(Status),
    NotFound,
    Fault(ApiError),
}

/// An API of objects of one type and one namespace, each under its name.
///
/// Want of memory takes nothing from what the API tells.
pub trait ObjectApi: Drop {
    ghost use Rattle.std.specs.Prelude.{ℕ, ◌^◌, ◌-◌, List, Option, None, length, map, IfOk, OnErr, ⊤, ◌≡◌, ◌≤◌, ◌<◌};
    ghost use Rattle.serde_json.specs.Data.{Data};
    ghost use Rattle.kube_model.specs.Raw.{grown, FaultRose};
    ghost use Rattle.kube_api.specs.Patches.{operation_of};
    ghost use Rattle.kube_api.specs.ObjectTalk.{ObjectRaw, PatchAsked, DeleteAsked, patch_answer, delete_answer, is_object_fault, RefusedAs, MissingAs, IsKept, IsNotMemory};

    /// The type of the objects.
    type Value: Resource;

    /// The object that is held under each name, as JSON, where the API tells it. Where it doesn't say so it tells none.
    ghost held: { Self → Option (List ℕ → Option Data) } = { λ _. None };

    /// The calls so far with their answers, where the API tells them. Where it doesn't say so it tells none.
    ghost talk: { Self → Option (List (ObjectRaw Self.Value)) } = { λ _. None };

    /// How often a call failed. Where it doesn't say so the count stands at its end, at which it need not rise.
    ghost faults: { Self → ℕ } = { λ _. 2 ^ 64 - 1 };

    /// What a call with its answer, at a moment in nanoseconds, makes of the API, where it says so: the API before it, the
    /// moment, the call with its answer, the API after it. Where it doesn't say so that may be anything.
    ghost moves: { Self → ℕ → ObjectRaw Self.Value → Self → Type 0 } = { λ _ _ _ _. ⊤ };

    /// What a call that had no memory leaves of the API, where it says so: the API before it, and after it. Where it doesn't
    /// say so that may be anything.
    ghost rests: { Self → Self → Type 0 } = { λ _ _. ⊤ };

    /// Patches the object of a name, all or none.
    ///
    /// Errors: `NoMemory`, and the API has told nothing. A refusal and a fault of the API are answers.
    fn patch(
        &mut self,
        alloc: Global,
        name: &str,
        patch: &[Patch],
        now: Moment,
    ) -> Result<Polled<PatchAnswer<Self::Value>>, NoMemory>
        requires { length patch.now < 2 ^ 32 }
        ensures grows { IfOk result (λ a. talk self.new ≡ grown (talk self.old) (record { call = PatchAsked name.now (map operation_of patch.now); answer = patch_answer a })) }
        ensures unchanged { OnErr result (talk self.new ≡ talk self.old) }
        ensures kept { OnErr result (held self.new ≡ held self.old) }
        ensures rests { OnErr result (rests self.old self.new) }
        ensures moves { IfOk result (λ a. moves self.old now.0 (record { call = PatchAsked name.now (map operation_of patch.now); answer = patch_answer a }) self.new) }
        ensures refused { IfOk result (λ a. RefusedAs (held self.old) name.now (map operation_of patch.now) (patch_answer a)) }
        ensures no_memory { IfOk result (λ a. IsNotMemory (patch_answer a)) }
        ensures stays { IfOk result (λ a. IsKept (patch_answer a) (held self.old) (held self.new)) }
        ensures faults { IfOk result (λ a. FaultRose (is_object_fault (patch_answer a)) (faults self.old) (faults self.new)) }
        ensures rises { faults self.old ≤ faults self.new };

    /// Deletes the object of a name, or asks it to go once its finalizers are gone.
    ///
    /// Errors: `NoMemory`, and the API has told nothing. A fault of the API is an answer.
    fn delete(
        &mut self,
        alloc: Global,
        name: &str,
        now: Moment,
    ) -> Result<Polled<DeleteAnswer<Self::Value>>, NoMemory>
        ensures grows { IfOk result (λ a. talk self.new ≡ grown (talk self.old) (record { call = DeleteAsked name.now; answer = delete_answer a })) }
        ensures unchanged { OnErr result (talk self.new ≡ talk self.old) }
        ensures kept { OnErr result (held self.new ≡ held self.old) }
        ensures rests { OnErr result (rests self.old self.new) }
        ensures moves { IfOk result (λ a. moves self.old now.0 (record { call = DeleteAsked name.now; answer = delete_answer a }) self.new) }
        ensures missing { IfOk result (λ a. MissingAs (held self.old) name.now (delete_answer a)) }
        ensures stays { IfOk result (λ a. IsKept (delete_answer a) (held self.old) (held self.new)) }
        ensures faults { IfOk result (λ a. FaultRose (is_object_fault (delete_answer a)) (faults self.old) (faults self.new)) }
        ensures rises { faults self.old ≤ faults self.new };
}
