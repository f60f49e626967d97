//! What related objects are mapped to.

ghost use Rattle.std.specs.Prelude.{◌≡◌, ◌++◌, [], IfOk, map, option_map, option_copied, unwrap_or};
ghost use Rattle.std.specs.List.{filter_map};
ghost use Rattle.std.specs.Fn.{FnReturnsAt};
ghost use Rattle.kube_meta.specs.Keys.{reference_of};
ghost use Rattle.kube_meta.specs.Pairs.{text_at};
ghost use Rattle.kube_model.specs.Mapping.{owner_at, listed_if};

use kube_meta::{List, Lookup, NoMemory, ObjectRef, OwnerReference, Resource, Text, TypeInfo};
use std::alloc::Global;
use std::sync::Arc;

/// Maps objects to references of the root's type (the mappers of kube-runtime's `trigger_owners` and `trigger_others`).
pub trait Mapper<V: Resource, K: Resource>: Drop {
    ghost use Rattle.std.specs.Prelude.{List, IfOk, map, ⊤};
    ghost use Rattle.std.specs.Arc.{arc_value};
    ghost use Rattle.kube_meta.specs.Reference.{Reference};
    ghost use Rattle.kube_meta.specs.Keys.{reference_of};

    /// Whether it may be called.
    ghost can_map: { Self → Type 0 } = { λ _. ⊤ };

    /// What it may answer of an object.
    ghost answers: { Self → V → List Reference → Type 0 };

    /// The references, in order.
    ///
    /// Errors: `NoMemory`.
    fn references(&self, alloc: Global, object: &Arc<V>) -> Result<List<ObjectRef<K>>, NoMemory>
        requires may { can_map self.now }
        ensures answers { IfOk result (λ rs. answers self.now (arc_value object.now) (map (reference_of K.type_of) rs)) };
}

/// Maps objects to their owners of a type, each in the object's namespace, in order (Kubernetes API concept "owners and
/// dependents").
#[derive(Drop)]
pub struct Owners<K: Resource> {
    pub dyntype: K::DynamicType,
}

/// The reference of an owner, where it is of the type.
fn owner<V: Resource, K: Resource>(
    alloc: Global,
    dyntype: &K::DynamicType,
    object: &V,
    owner: &OwnerReference,
) -> Result<Option<ObjectRef<K>>, NoMemory>
    ensures { IfOk result (λ r. option_map (reference_of K.type_of) r ≡ owner_at (K.type_of dyntype.now) (V.meta_of object.now).namespace owner.now) }
{
    let dyntype = dyntype.share(alloc)?;
    ObjectRef::from_owner_ref(alloc, Lookup::namespace(object), owner, dyntype)
}

/// Adds a reference, where there is one.
fn add<K: Resource>(
    references: List<ObjectRef<K>>,
    reference: Option<ObjectRef<K>>,
) -> Result<List<ObjectRef<K>>, NoMemory>
    ensures { IfOk result (λ rs. map (reference_of K.type_of) rs ≡ map (reference_of K.type_of) references ++ listed_if (option_map (reference_of K.type_of) reference)) }
{
    let mut references = references;
    if let Some(reference) = reference {
        references.push(reference)?;
    }
    Ok(references)
}

/// The references of the owners that are of the type, in order.
fn all_owners<V: Resource, K: Resource>(
    alloc: Global,
    dyntype: &K::DynamicType,
    object: &V,
    owners: &[OwnerReference],
) -> Result<List<ObjectRef<K>>, NoMemory>
    ensures { IfOk result (λ rs. map (reference_of K.type_of) rs ≡ filter_map (owner_at (K.type_of dyntype.now) (V.meta_of object.now).namespace) owners.now) }
{
    let mut references = List::new(alloc);
    for one in owners {
        let reference = owner(alloc, dyntype, object, one)?;
        references = add(references, reference)?;
    }
    Ok(references)
}

impl<V: Resource, K: Resource> Mapper<V, K> for Owners<K> {
    ghost use Rattle.std.specs.Prelude.{◌≡◌};
    ghost use Rattle.kube_model.specs.Mapping.{owners_of};

    ghost answers = { λ m o rs. rs ≡ owners_of (K.type_of m.dyntype) (V.meta_of o) };

    fn references(&self, alloc: Global, object: &Arc<V>) -> Result<List<ObjectRef<K>>, NoMemory> {
        let object = &**object;
        match &object.meta().owner_references {
            Some(all) => all_owners(alloc, &self.dyntype, object, all.as_slice()),
            None => Ok(List::new(alloc)),
        }
    }
}

/// Maps objects to the one that a label of theirs names, in their namespace; those without the label to none.
#[derive(Drop)]
pub struct ByLabel<K: Resource> {
    pub label: Text,
    pub dyntype: K::DynamicType,
}

/// The reference to an object of this name, in a namespace or none.
fn named<K: Resource>(
    alloc: Global,
    dyntype: &K::DynamicType,
    name: &Text,
    namespace: Option<&str>,
) -> Result<ObjectRef<K>, NoMemory>
    ensures { IfOk result (λ r. reference_of K.type_of r ≡ record { kind = K.type_of dyntype.now; name = name.now; namespace = option_copied namespace.entry }) }
{
    let reference = ObjectRef::new_with(alloc, name.as_str(), dyntype.share(alloc)?)?;
    match namespace {
        Some(namespace) => reference.within(alloc, namespace),
        None => Ok(reference),
    }
}

impl<V: Resource, K: Resource> Mapper<V, K> for ByLabel<K> {
    ghost use Rattle.std.specs.Prelude.{◌≡◌, [], unwrap_or};
    ghost use Rattle.kube_model.specs.Mapping.{labelled_by};

    ghost answers = { λ m o rs. rs ≡ labelled_by (K.type_of m.dyntype) m.label (unwrap_or (V.meta_of o).labels []) (V.meta_of o).namespace };

    fn references(&self, alloc: Global, object: &Arc<V>) -> Result<List<ObjectRef<K>>, NoMemory> {
        let object = &**object;
        let mut references = List::new(alloc);
        if let Some(name) = label_of(object, &self.label) {
            references.push(named(alloc, &self.dyntype, name, Lookup::namespace(object))?)?;
        }
        Ok(references)
    }
}

/// The text of a label.
fn label_of<'a, V: Resource>(object: &'a V, label: &Text) -> Option<&'a Text>
    ensures { option_copied result ≡ text_at label.now (unwrap_or (V.meta_of object.now).labels []) }
{
    match &object.meta().labels {
        Some(labels) => labels.get(label.as_str()),
        None => None,
    }
}

/// What a function answers of an object.
fn call<V: Drop, T, F: Fn(&Arc<V>) -> T>(function: &F, object: &Arc<V>) -> T
    requires { F.IsAlwaysCallable function.now }
    ensures { FnReturnsAt F.Fn function.now object.now result }
{
    function(object)
}

/// Maps objects by a function, which may be called at any of them.
#[derive(Drop)]
pub struct ByFunction<F> {
    pub function: F,
}

impl<V: Resource, K: Resource, F: Fn(&Arc<V>) -> Result<Vec<ObjectRef<K>>, NoMemory> + Drop> Mapper<
    V,
    K,
> for ByFunction<F> {
    ghost use Rattle.std.specs.Prelude.{◌≡◌, Vec, Ok, map};
    ghost use Rattle.std.specs.Arc.{arc_value};
    ghost use Rattle.std.specs.Fn.{FnReturnsAt};
    ghost use Rattle.std.specs.declared.alloc.Global.{Global};
    ghost use Rattle.std.specs.declared.sync.Arc.{Arc};
    ghost use Rattle.kube_meta.specs.Keys.{reference_of};
    ghost use Rattle.kube_meta.specs.declared.object_ref.ObjectRef.{ObjectRef};

    ghost can_map = { λ m. F.IsAlwaysCallable m.function };

    ghost answers = { λ m o rs. (shared : Arc V Global) × (answered : Vec (ObjectRef K K.DynamicType) Global)
        × (arc_value shared ≡ o) × FnReturnsAt F.Fn m.function shared (Ok answered) × (rs ≡ map (reference_of K.type_of) answered.items) };

    fn references(&self, _alloc: Global, object: &Arc<V>) -> Result<List<ObjectRef<K>>, NoMemory> {
        match call(&self.function, object) {
            Ok(answered) => Ok(List::from(answered)),
            Err(fault) => Err(fault),
        }
    }
}
