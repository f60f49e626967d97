//! The objects of a generated input: parents, and the children that they own.

ghost use Rattle.std.specs.Prelude.{◌≡◌, IfOk, string_bytes};
ghost use Rattle.std.specs.Arc.{arc_value};
ghost use Rattle.kube_gen.specs.Generated.{bare, parent_at, child_at, owner_at, object_at};

use kube_meta::{DynamicObject, List, NoMemory, ObjectMeta, OwnerReference, Text};
use kube_object::ScriptObject;
use std::alloc::Global;
use std::sync::Arc;

/// Whose objects.
#[derive(Clone, Copy)]
pub enum Whose {
    /// The root's: config maps.
    Parents,
    /// The related source's: pods, three of each parent.
    Children,
}

/// An object of this name, version and owner, of which the metadata alone is there.
fn object(
    alloc: Global,
    name: String,
    version: u64,
    owners: Option<List<OwnerReference>>,
) -> Result<Arc<ScriptObject>, NoMemory>
    ensures { IfOk result (λ a. arc_value a ≡ bare (string_bytes name) version owners) }
{
    let version = format!(in alloc; "{version}")?;
    let metadata = ObjectMeta {
        name: Some(Text::from(name)),
        namespace: Some(Text::new(alloc, "ns")?),
        resource_version: Some(Text::from(version)),
        owner_references: owners,
        ..ObjectMeta::empty()
    };
    Ok(Arc::new(alloc, ScriptObject::new(DynamicObject::bare(metadata)))?)
}

/// The parent of a number, in this version.
///
/// # Errors
///
/// `NoMemory` where memory could not be had.
pub fn parent(alloc: Global, number: u32, version: u64) -> Result<Arc<ScriptObject>, NoMemory>
    ensures { IfOk result (λ a. arc_value a ≡ parent_at number version) }
{
    object(alloc, format!(in alloc; "p{number}")?, version, None)
}

/// The reference to the owner of a child.
fn owner(alloc: Global, number: u32) -> Result<OwnerReference, NoMemory>
    ensures { IfOk result (λ o. o ≡ owner_at number) }
{
    let parent = number / 3;
    Ok(OwnerReference {
        api_version: Text::new(alloc, "v1")?,
        kind: Text::new(alloc, "ConfigMap")?,
        name: Text::from(format!(in alloc; "p{parent}")?),
        uid: Text::new(alloc, "u")?,
    })
}

/// The child of a number.
///
/// # Errors
///
/// `NoMemory` where memory could not be had.
pub fn child(alloc: Global, number: u32) -> Result<Arc<ScriptObject>, NoMemory>
    ensures { IfOk result (λ a. arc_value a ≡ child_at number) }
{
    let mut owners = List::new(alloc);
    owners.push(owner(alloc, number)?)?;
    let name = format!(in alloc; "c{number}")?;
    object(alloc, name, u64::from(number) + 1, Some(owners))
}

/// The object of a number, as it is listed.
///
/// # Errors
///
/// `NoMemory` where memory could not be had.
pub fn listed(alloc: Global, whose: Whose, number: u32) -> Result<Arc<ScriptObject>, NoMemory>
    ensures { IfOk result (λ a. arc_value a ≡ object_at whose number) }
{
    match whose {
        Whose::Parents => parent(alloc, number, u64::from(number) + 1),
        Whose::Children => child(alloc, number),
    }
}
