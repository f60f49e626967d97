//! Copies of parameters and answers, in memory of their own. Objects are shared.

ghost use Rattle.std.specs.Prelude.{◌≡◌, IfOk, Ok, Some, map};
ghost use Rattle.std.specs.Arc.{arc_value};
ghost use Rattle.kube_api.specs.Answers.{list_answer, event_answer, next_answer};
ghost use Rattle.kube_api.specs.Patches.{operation_of};

use crate::event::{Bookmark, Page, WatchEvent};
use crate::patch::Patch;
use kube_meta::text::copy_option;
use kube_meta::{List, NoMemory, Polled};
use kube_model::error::{ApiError, Status};
use kube_model::params::{ListParams, WatchParams};
use std::alloc::Global;
use std::sync::Arc;

/// Equal parameters of a list call.
///
/// Errors: `NoMemory`.
pub fn copy_list_params(alloc: Global, params: &ListParams) -> Result<ListParams, NoMemory>
    ensures { IfOk result (λ p. p ≡ params.now) }
{
    Ok(ListParams {
        label_selector: copy_option(alloc, &params.label_selector)?,
        field_selector: copy_option(alloc, &params.field_selector)?,
        limit: params.limit,
        continue_token: copy_option(alloc, &params.continue_token)?,
        resource_version: copy_option(alloc, &params.resource_version)?,
        version_match: params.version_match,
    })
}

/// Equal parameters of a watch call.
///
/// Errors: `NoMemory`.
pub fn copy_watch_params(alloc: Global, params: &WatchParams) -> Result<WatchParams, NoMemory>
    ensures { IfOk result (λ p. p ≡ params.now) }
{
    Ok(WatchParams {
        label_selector: copy_option(alloc, &params.label_selector)?,
        field_selector: copy_option(alloc, &params.field_selector)?,
        timeout: params.timeout,
        bookmarks: params.bookmarks,
        send_initial_events: params.send_initial_events,
    })
}

/// An equal status.
///
/// Errors: `NoMemory`.
pub fn copy_status(alloc: Global, status: &Status) -> Result<Status, NoMemory>
    ensures { IfOk result (λ s. s ≡ status.now) }
{
    Ok(Status {
        code: status.code,
        reason: status.reason.copy(alloc)?,
        message: status.message.copy(alloc)?,
        uid: copy_option(alloc, &status.uid)?,
    })
}

/// An equal fault.
///
/// Errors: `NoMemory`.
pub fn copy_error(alloc: Global, error: &ApiError) -> Result<ApiError, NoMemory>
    ensures { IfOk result (λ e. e ≡ error.now) }
{
    Ok(match error {
        ApiError::Api(status) => ApiError::Api(copy_status(alloc, status)?),
        ApiError::ReadEvents(text) => ApiError::ReadEvents(text.copy(alloc)?),
        ApiError::Transport(text) => ApiError::Transport(text.copy(alloc)?),
    })
}

/// The same objects, which are shared.
///
/// Errors: `NoMemory`.
pub fn share_all<K: Drop>(alloc: Global, objects: &[Arc<K>]) -> Result<List<Arc<K>>, NoMemory>
    ensures { IfOk result (λ l. map arc_value l ≡ map arc_value objects.now) }
{
    let mut all = List::new(alloc);
    for object in objects {
        all.push(object.clone()?)?;
    }
    Ok(all)
}

/// The entry of a script's lists.
///
/// Errors: `NoMemory`.
pub fn copy_listed<K: Drop>(
    alloc: Global,
    entry: &Result<Page<K>, ApiError>,
) -> Result<Result<Page<K>, ApiError>, NoMemory>
    ensures { IfOk result (λ r. list_answer (Polled.Ready r) ≡ list_answer (Polled.Ready entry.now)) }
{
    Ok(match entry {
        Ok(page) => Ok(Page {
            items: share_all(alloc, page.items.as_slice())?,
            token: copy_option(alloc, &page.token)?,
            version: copy_option(alloc, &page.version)?,
        }),
        Err(error) => Err(copy_error(alloc, error)?),
    })
}

/// The same event; its object is shared.
///
/// Errors: `NoMemory`.
pub fn copy_event<K: Drop>(alloc: Global, event: &WatchEvent<K>) -> Result<WatchEvent<K>, NoMemory>
    ensures { IfOk result (λ e. event_answer e ≡ event_answer event.now) }
{
    Ok(match event {
        WatchEvent::Added(object) => WatchEvent::Added(object.clone()?),
        WatchEvent::Modified(object) => WatchEvent::Modified(object.clone()?),
        WatchEvent::Deleted(object) => WatchEvent::Deleted(object.clone()?),
        WatchEvent::Bookmark(bookmark) => WatchEvent::Bookmark(Bookmark {
            version: bookmark.version.copy(alloc)?,
            annotations: bookmark.annotations.copy()?,
        }),
        WatchEvent::Error(status) => WatchEvent::Error(copy_status(alloc, status)?),
    })
}

/// An event of a script's watches.
///
/// Errors: `NoMemory`.
pub fn copy_given<K: Drop>(
    alloc: Global,
    event: &Result<WatchEvent<K>, ApiError>,
) -> Result<Result<WatchEvent<K>, ApiError>, NoMemory>
    ensures { IfOk result (λ r. next_answer (Polled.Ready (Some r)) ≡ next_answer (Polled.Ready (Some event.now))) }
{
    Ok(match event {
        Ok(event) => Ok(copy_event(alloc, event)?),
        Err(error) => Err(copy_error(alloc, error)?),
    })
}

fn copy_operation(alloc: Global, operation: &Patch) -> Result<Patch, NoMemory>
    ensures { IfOk result (λ o. operation_of o ≡ operation_of operation.now) }
{
    Ok(match operation {
        Patch::Test { path, value } => Patch::Test {
            path: path.copy(alloc)?,
            value: value.clone()?,
        },
        Patch::Add { path, value } => Patch::Add {
            path: path.copy(alloc)?,
            value: value.clone()?,
        },
        Patch::Remove { path } => Patch::Remove {
            path: path.copy(alloc)?,
        },
    })
}

/// An equal patch in memory of its own.
///
/// Errors: `NoMemory`.
pub fn copy_patch(alloc: Global, patch: &[Patch]) -> Result<Vec<Patch>, NoMemory>
    ensures { IfOk result (λ v. map operation_of v.items ≡ map operation_of patch.now) }
{
    let mut all = Vec::new(alloc);
    for operation in patch {
        all.push(copy_operation(alloc, operation)?)?;
    }
    Ok(all)
}
