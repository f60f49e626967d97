//! Metadata of objects (`kube::core::metadata`, and `ObjectMeta` and `OwnerReference` of the Kubernetes API).

ghost use Rattle.std.specs.Prelude.{◌≡◌, None, IfOk, refl};

use crate::list::List;
use crate::memory::NoMemory;
use crate::resource::{Resource, TypeInfo};
use crate::text::{Text, copy_option, copy_texts};
use crate::text_map::TextMap;
use std::alloc::Global;
use std::marker::PhantomData;

/// The object that an object belongs to (Kubernetes API concept "owners and dependents").
#[derive(Debug, Drop)]
pub struct OwnerReference {
    /// The owner's group and version, as an object's `apiVersion` has them.
    pub api_version: Text,
    pub kind: Text,
    pub name: Text,
    pub uid: Text,
}

impl OwnerReference {
    /// An equal reference in memory of its own.
    ///
    /// Errors: `NoMemory`.
    pub fn copy(&self, alloc: Global) -> Result<OwnerReference, NoMemory>
        ensures { IfOk result (λ o. o ≡ self.now) }
    {
        Ok(OwnerReference {
            api_version: self.api_version.copy(alloc)?,
            kind: self.kind.copy(alloc)?,
            name: self.name.copy(alloc)?,
            uid: self.uid.copy(alloc)?,
        })
    }
}

fn copy_owners(alloc: Global, owners: &[OwnerReference]) -> Result<List<OwnerReference>, NoMemory>
    ensures { IfOk result (λ l. l ≡ owners.now) }
{
    let mut copies = List::new(alloc);
    for owner in owners {
        copies.push(owner.copy(alloc)?)?;
    }
    Ok(copies)
}

fn copy_owner_list(
    alloc: Global,
    list: &Option<List<OwnerReference>>,
) -> Result<Option<List<OwnerReference>>, NoMemory>
    ensures { IfOk result (λ l. l ≡ list.now) }
{
    match list {
        Some(list) => Ok(Some(copy_owners(alloc, list.as_slice())?)),
        None => Ok(None),
    }
}

fn copy_text_list(alloc: Global, list: &Option<List<Text>>) -> Result<Option<List<Text>>, NoMemory>
    ensures { IfOk result (λ l. l ≡ list.now) }
{
    match list {
        Some(list) => Ok(Some(copy_texts(alloc, list.as_slice())?)),
        None => Ok(None),
    }
}

fn copy_map(map: &Option<TextMap>) -> Result<Option<TextMap>, NoMemory>
    ensures { IfOk result (λ m. m ≡ map.now) }
{
    match map {
        Some(map) => Ok(Some(map.copy()?)),
        None => Ok(None),
    }
}

/// The metadata of an object (Kubernetes API concept "object metadata"). Other members of it are not kept.
#[derive(Debug, Drop)]
pub struct ObjectMeta {
    pub name: Option<Text>,
    pub namespace: Option<Text>,
    pub uid: Option<Text>,
    /// The version of the object in the API server's store, an opaque text.
    pub resource_version: Option<Text>,
    /// When the object was asked to be deleted. It is there exactly while the object is being deleted.
    pub deletion_timestamp: Option<Text>,
    /// The number of the object's desired state, which the API server counts up.
    pub generation: Option<i64>,
    pub labels: Option<TextMap>,
    pub annotations: Option<TextMap>,
    /// The names of what has to clean up before the object may go, in order.
    pub finalizers: Option<List<Text>>,
    pub owner_references: Option<List<OwnerReference>>,
}

impl ObjectMeta {
    /// Metadata in which everything is absent.
    pub fn empty() -> ObjectMeta
        ensures name { result.name ≡ None }
        ensures namespace { result.namespace ≡ None }
        ensures uid { result.uid ≡ None }
        ensures resource_version { result.resource_version ≡ None }
        ensures deletion_timestamp { result.deletion_timestamp ≡ None }
        ensures generation { result.generation ≡ None }
        ensures labels { result.labels ≡ None }
        ensures annotations { result.annotations ≡ None }
        ensures finalizers { result.finalizers ≡ None }
        ensures owner_references { result.owner_references ≡ None }
    {
        ObjectMeta {
            name: None,
            namespace: None,
            uid: None,
            resource_version: None,
            deletion_timestamp: None,
            generation: None,
            labels: None,
            annotations: None,
            finalizers: None,
            owner_references: None,
        }
    }

    /// Equal metadata in memory of its own.
    ///
    /// Errors: `NoMemory`.
    pub fn copy(&self, alloc: Global) -> Result<ObjectMeta, NoMemory>
        ensures { IfOk result (λ m. m ≡ self.now) }
    {
        Ok(ObjectMeta {
            name: copy_option(alloc, &self.name)?,
            namespace: copy_option(alloc, &self.namespace)?,
            uid: copy_option(alloc, &self.uid)?,
            resource_version: copy_option(alloc, &self.resource_version)?,
            deletion_timestamp: copy_option(alloc, &self.deletion_timestamp)?,
            generation: self.generation,
            labels: copy_map(&self.labels)?,
            annotations: copy_map(&self.annotations)?,
            finalizers: copy_text_list(alloc, &self.finalizers)?,
            owner_references: copy_owner_list(alloc, &self.owner_references)?,
        })
    }
}

/// An object's own word on its type (`kube::core::TypeMeta`).
#[derive(Debug, Drop)]
pub struct TypeMeta {
    /// The group and the version, as `group/version`, or the version alone where the group is empty.
    pub api_version: Text,
    pub kind: Text,
}

impl TypeMeta {
    /// Equal types in memory of their own.
    ///
    /// Errors: `NoMemory`.
    pub fn copy(&self, alloc: Global) -> Result<TypeMeta, NoMemory>
        ensures { IfOk result (λ t. t ≡ self.now) }
    {
        Ok(TypeMeta {
            api_version: self.api_version.copy(alloc)?,
            kind: self.kind.copy(alloc)?,
        })
    }
}

/// An object of which the metadata alone is held (`kube::core::PartialObjectMeta`).
#[derive(Debug, Drop)]
pub struct PartialObjectMeta<K> {
    pub types: Option<TypeMeta>,
    pub metadata: ObjectMeta,
    /// The type of which it holds the metadata.
    pub of: PhantomData<K>,
}

impl<K: Resource> Resource for PartialObjectMeta<K> {
    type DynamicType = K::DynamicType;

    ghost type_of = { K.type_of };

    ghost meta_of = { λ o. o.metadata };

    ghost with_meta = { λ o m. record o { metadata = m } };

    ghost one_type = { K.one_type };

    ghost written = { λ o m. refl };

    fn kind(t: &K::DynamicType) -> &str {
        K::kind(t)
    }

    fn group(t: &K::DynamicType) -> &str {
        K::group(t)
    }

    fn version(t: &K::DynamicType) -> &str {
        K::version(t)
    }

    fn plural(t: &K::DynamicType) -> &str {
        K::plural(t)
    }

    fn meta(&self) -> &ObjectMeta {
        &self.metadata
    }

    fn meta_mut(&mut self) -> &mut ObjectMeta {
        &mut self.metadata
    }
}
