//! Selectors that a server supports.

ghost use Rattle.std.specs.Prelude.{◌≡◌, None, Some, IfOk, map, option_map, filter};
ghost use Rattle.std.specs.Arc.{arc_value};
ghost use Rattle.std.specs.List.{list_any};
ghost use Rattle.kube_server.specs.Numbers.{name_sought, field_name, plain_name, is_special as is_special_byte, has_name};
ghost use Rattle.kube_server.specs.Stored.{name_of};
ghost use Rattle.kube_server.specs.Servers.{meta_of};

use kube_meta::{DynamicObject, NoMemory, ObjectMeta, Text};
use std::alloc::Global;
use std::sync::Arc;

/// The name that is sought.
#[derive(Drop)]
pub(crate) enum Sought {
    Any,
    Named(Text),
}

fn is_special(byte: u8) -> bool
    ensures { result ≡ is_special_byte byte }
{
    byte == b',' || byte == b'=' || byte == b'\\'
}

fn has_special(name: &str) -> bool
    ensures { result ≡ list_any is_special_byte name.now }
{
    name.as_bytes().iter().any(|byte| is_special(*byte))
}

/// A name as a field selector has it, unless it holds what ends a term, belongs to another operator or is an escape.
fn plain(alloc: Global, name: &str) -> Result<Option<Sought>, NoMemory>
    ensures { IfOk result (λ s. option_map name_of s ≡ plain_name name.now) }
{
    if has_special(name) {
        return Ok(None);
    }
    Ok(Some(Sought::Named(Text::new(alloc, name)?)))
}

/// The name that a field selector asks for; none where it asks for something else.
fn field(alloc: Global, selector: &str) -> Result<Option<Sought>, NoMemory>
    ensures { IfOk result (λ s. option_map name_of s ≡ field_name selector.now) }
{
    match selector.strip_prefix("metadata.name=") {
        Some(name) => plain(alloc, name),
        None => Ok(None),
    }
}

/// What selectors ask for; none where they aren't supported.
///
/// Errors: `NoMemory`.
pub(crate) fn name_asked(
    alloc: Global,
    labels: &Option<Text>,
    fields: &Option<Text>,
) -> Result<Option<Sought>, NoMemory>
    ensures { IfOk result (λ s. option_map name_of s ≡ name_sought labels.now fields.now) }
{
    match (labels, fields) {
        (Some(_), _) => Ok(None),
        (None, None) => Ok(Some(Sought::Any)),
        (None, Some(selector)) => field(alloc, selector.as_str()),
    }
}

impl Sought {
    /// Whether metadata have the name.
    pub(crate) fn is_of(&self, meta: &ObjectMeta) -> bool
        ensures { result ≡ has_name (name_of self.now) meta.now }
    {
        match self {
            Sought::Any => true,
            Sought::Named(name) => meta.name.as_ref() == Some(name),
        }
    }

    /// The objects of the name, in their order; they are shared.
    ///
    /// Errors: `NoMemory`.
    pub(crate) fn select(
        &self,
        alloc: Global,
        objects: &[Arc<DynamicObject>],
    ) -> Result<Vec<Arc<DynamicObject>>, NoMemory>
        ensures { IfOk result (λ v. map arc_value v.items ≡ filter (λ o. has_name (name_of self.now) (meta_of o)) (map arc_value objects.now)) }
    {
        let mut selected = Vec::new(alloc);
        for object in objects {
            if self.is_of(&object.metadata) {
                selected.push(object.clone()?)?;
            }
        }
        Ok(selected)
    }
}
