//! Types of objects.

ghost use Rattle.std.specs.Prelude.{◌≡◌, true, IfOk, refl};
ghost use Rattle.std.specs.Borrow.{Lends, sem};
ghost use Rattle.kube_meta.specs.declared.metadata.ObjectMeta.{ObjectMeta};
ghost use Rattle.kube_meta.specs.contracts.metadata.ObjectMeta.{the_row as meta_row};
ghost use Rattle.kube_meta.specs.Reference.{ObjectType};

use crate::memory::NoMemory;
use crate::metadata::ObjectMeta;
use std::alloc::Global;
use std::hash::Hash;

/// What tells one type of objects from another (the bounds of `Resource::DynamicType` in `kube`).
pub trait TypeInfo: Eq + Hash + Drop {
    /// An equal value.
    ///
    /// Errors: `NoMemory`.
    fn share(&self, alloc: Global) -> Result<Self, NoMemory>
        ensures { IfOk result (λ t. Self.eq self.now t ≡ true) };
}

impl TypeInfo for () {
    fn share(&self, _alloc: Global) -> Result<(), NoMemory> {
        Ok(())
    }
}

/// A type of Kubernetes objects with metadata (`kube::Resource`).
pub trait Resource: Drop {
    /// What is known of the type only as the program runs; `()` where nothing is.
    type DynamicType: TypeInfo;

    /// The type that a dynamic type names.
    ghost type_of: { Self.DynamicType → ObjectType };

    /// An object's metadata.
    ghost meta_of: { Self → ObjectMeta };

    /// The object with other metadata.
    ghost with_meta: { Self → ObjectMeta → Self };

    /// The kind's name in the singular, as `Pod` (`kind` in an object's JSON).
    fn kind(t: &Self::DynamicType) -> &str
        ensures { result.now ≡ (type_of t.now).kind };

    /// The API group, as `apps`; empty for the core group.
    fn group(t: &Self::DynamicType) -> &str
        ensures { result.now ≡ (type_of t.now).group };

    /// The version within the API group, as `v1`.
    fn version(t: &Self::DynamicType) -> &str
        ensures { result.now ≡ (type_of t.now).version };

    /// The resource's name in the plural, as in the path of its URL (`pods`).
    fn plural(t: &Self::DynamicType) -> &str
        ensures { result.now ≡ (type_of t.now).plural };

    /// The object's metadata (`metadata` in its JSON).
    fn meta(&self) -> &ObjectMeta
        ensures { result.now ≡ meta_of self.now };

    /// The object's metadata, to be written: what is written there is what `meta` then gives.
    fn meta_mut(&mut self) -> &mut ObjectMeta
        ensures* lends { sem 𝓛 (Lends Self.row meta_row self.entry result (with_meta self.old)) }
        ensures value { result.now ≡ meta_of self.old };

    /// Equal dynamic types name one type.
    ghost one_type: { (a b : Self.DynamicType) → Self.DynamicType.eq a b ≡ true → type_of a ≡ type_of b };

    /// What was written as metadata is what is then read.
    ghost written: { (object : Self) (meta : ObjectMeta) → meta_of (with_meta object meta) ≡ meta };
}
