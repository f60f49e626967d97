//! Where objects stand: by namespace, none first, and then by name.

ghost use Rattle.std.specs.Prelude.{◌≡◌, Some, None, option_map, string_bytes, unwrap_or, [], IfOk, decimal};
ghost use Rattle.kube_meta.specs.Resources.{dynamic_reference};
ghost use Rattle.kube_server.specs.History.{key_of};
ghost use Rattle.kube_server.specs.Servers.{reference_key};
ghost use Rattle.kube_server.specs.Stored.{key_at};

use kube_meta::{DynamicObject, NoMemory, ObjectMeta, ObjectRef, Text};
use std::alloc::Global;

/// A namespace or none, and a name: by the order of both, objects are listed.
pub(crate) type Place = (Option<String>, String);

/// The text of its own.
fn string_of(alloc: Global, text: &Text) -> Result<String, NoMemory>
    ensures { IfOk result (λ s. string_bytes s ≡ text.now) }
{
    Ok(String::from_str(alloc, text.as_str())?)
}

fn string_of_option(alloc: Global, text: &Option<Text>) -> Result<Option<String>, NoMemory>
    ensures { IfOk result (λ s. option_map string_bytes s ≡ text.now) }
{
    match text {
        Some(text) => Ok(Some(string_of(alloc, text)?)),
        None => Ok(None),
    }
}

fn string_of_name(alloc: Global, name: &Option<Text>) -> Result<String, NoMemory>
    ensures { IfOk result (λ s. string_bytes s ≡ unwrap_or name.now []) }
{
    match name {
        Some(name) => string_of(alloc, name),
        None => Ok(String::new(alloc)),
    }
}

/// The place of an object with this metadata.
///
/// Errors: `NoMemory`.
pub(crate) fn place_of(alloc: Global, meta: &ObjectMeta) -> Result<Place, NoMemory>
    ensures { IfOk result (λ p. key_at p ≡ key_of meta.now) }
{
    let namespace = string_of_option(alloc, &meta.namespace)?;
    let name = string_of_name(alloc, &meta.name)?;
    Ok((namespace, name))
}

/// The place that a reference names.
///
/// Errors: `NoMemory`.
pub(crate) fn place_named(
    alloc: Global,
    reference: &ObjectRef<DynamicObject>,
) -> Result<Place, NoMemory>
    ensures { IfOk result (λ p. key_at p ≡ reference_key (dynamic_reference reference.now)) }
{
    let namespace = string_of_option(alloc, &reference.namespace)?;
    let name = string_of(alloc, &reference.name)?;
    Ok((namespace, name))
}
