//! Objects with other metadata.

ghost use Rattle.std.specs.Prelude.{◌≡◌, ◌++◌, IfOk, Some, None, option_map, option_copied, decimal, codes};
ghost use Rattle.std.specs.Arc.{arc_value};
ghost use Rattle.kube_meta.specs.Reading.{seen_object};
ghost use Rattle.kube_server.specs.Servers.{with_version, made_uid, uid_of, put_object, put_over, deleting as deleting_data, has_finalizers as has_some, is_deleting, is_gone as is_gone_data};
ghost use Rattle.kube_server.specs.History.{change_seen};
ghost use Rattle.kube_server.specs.Stored.{change_of};

use crate::entry::Entry;
use crate::token::decimal;
use kube_meta::text::copy_option;
use kube_meta::{DynamicObject, Moment, NoMemory, ObjectMeta, Text};
use std::alloc::Global;
use std::sync::Arc;

/// The object with a revision as its version.
///
/// Errors: `NoMemory`; the object is dropped.
pub(crate) fn versioned(
    alloc: Global,
    object: DynamicObject,
    revision: u64,
) -> Result<DynamicObject, NoMemory>
    ensures { IfOk result (λ o. seen_object o ≡ with_version revision (seen_object object)) }
{
    let version = decimal(alloc, revision)?;
    let DynamicObject {
        types,
        metadata,
        content,
    } = object;
    Ok(DynamicObject {
        types,
        metadata: ObjectMeta {
            resource_version: Some(version),
            ..metadata
        },
        content,
    })
}

/// The object with a revision as its version, and being deleted from a moment on.
///
/// Errors: `NoMemory`; the object is dropped.
pub(crate) fn deleting(
    alloc: Global,
    object: DynamicObject,
    revision: u64,
    now: Moment,
) -> Result<DynamicObject, NoMemory>
    ensures { IfOk result (λ o. seen_object o ≡ deleting_data revision now.0 (seen_object object)) }
{
    let version = decimal(alloc, revision)?;
    let deleted = decimal(alloc, now.0)?;
    let DynamicObject {
        types,
        metadata,
        content,
    } = object;
    Ok(DynamicObject {
        types,
        metadata: ObjectMeta {
            resource_version: Some(version),
            deletion_timestamp: Some(deleted),
            ..metadata
        },
        content,
    })
}

/// The uid of an object that is put: its own, that of the object in whose place it comes, or a new one.
fn uid_for(
    alloc: Global,
    own: &Option<Text>,
    stored: Option<&Arc<DynamicObject>>,
    revision: u64,
) -> Result<Option<Text>, NoMemory>
    ensures { IfOk result (λ u. u ≡ uid_of revision own.now (option_map (λ a. seen_object (arc_value a)) (option_copied stored.entry))) }
{
    match (own, stored) {
        (Some(uid), _) => Ok(Some(uid.copy(alloc)?)),
        (None, Some(stored)) => copy_option(alloc, &stored.metadata.uid),
        (None, None) => Ok(Some(Text::from(format!(in alloc; "uid-{revision}")?))),
    }
}

/// The object as a put at a revision keeps it.
fn as_put(
    alloc: Global,
    object: DynamicObject,
    stored: Option<&Arc<DynamicObject>>,
    revision: u64,
) -> Result<DynamicObject, NoMemory>
    ensures { IfOk result (λ o. seen_object o
        ≡ put_object revision (option_map (λ a. seen_object (arc_value a)) (option_copied stored.entry)) (seen_object object)) }
{
    let version = decimal(alloc, revision)?;
    let uid = uid_for(alloc, &object.metadata.uid, stored, revision)?;
    let DynamicObject {
        types,
        metadata,
        content,
    } = object;
    Ok(DynamicObject {
        types,
        metadata: ObjectMeta {
            uid,
            resource_version: Some(version),
            ..metadata
        },
        content,
    })
}

/// The entry of a put at a revision, in the place of an object or of none.
///
/// Errors: `NoMemory`; the object is dropped.
pub(crate) fn put_entry(
    alloc: Global,
    object: DynamicObject,
    stored: Option<&Arc<DynamicObject>>,
    revision: u64,
) -> Result<Entry, NoMemory>
    ensures { IfOk result (λ e. change_seen seen_object (change_of e)
        ≡ put_over revision (option_map (λ a. seen_object (arc_value a)) (option_copied stored.entry)) (seen_object object)) }
{
    let object = Arc::new(alloc, as_put(alloc, object, stored, revision)?)?;
    Ok(match stored {
        Some(_) => Entry::Modified(object),
        None => Entry::Added(object),
    })
}

/// Whether something has to clean up before the object may go.
pub(crate) fn has_finalizers(meta: &ObjectMeta) -> bool
    ensures { result ≡ has_some meta.now }
{
    match &meta.finalizers {
        Some(finalizers) => !finalizers.is_empty(),
        None => false,
    }
}

/// Whether an object goes: it is being deleted, and nothing has to clean up.
pub(crate) fn is_gone(meta: &ObjectMeta) -> bool
    ensures { result ≡ is_gone_data meta.now }
{
    meta.deletion_timestamp.is_some() && !has_finalizers(meta)
}
