//! Texts of the errors that no other table of these tests shows.

use super::{Torn, fault, halves, is_text, owned};
use kube_final::finalizer::{Error, PatchFailed};
use kube_final::{DeleteFailed, PatchRefusal, delete, wait};
use kube_watch::Error as WatcherError;
use std::alloc::Global;
use std::fmt;
use std::panic::Expect;
use std::process::Abort;
use std::rt::HostRuntime;

fn shown<E: fmt::Display>(rt: &impl Abort, alloc: Global, error: &E) -> String {
    format!(in alloc; "{error}").expect(rt, "memory")
}

/// Why a patch failed.
fn patch_failed(rt: &impl Abort, alloc: Global, name: &str) -> PatchFailed {
    match name {
        "path" => PatchFailed::Refused(PatchRefusal::PathMissing(1)),
        "form" => PatchFailed::Refused(PatchRefusal::NotAnObject),
        _ => PatchFailed::Fault(fault(rt, alloc)),
    }
}

fn patch_text(rt: &impl Abort, alloc: Global, name: &str) -> String {
    shown(rt, alloc, &patch_failed(rt, alloc, name))
}

/// Errors of a deletion.
fn delete_error(rt: &impl Abort, alloc: Global, name: &str) -> delete::Error {
    match name {
        "torn" => delete::Error::Delete(DeleteFailed::Fault(fault(rt, alloc))),
        _ => delete::Error::Await(wait::Error::ProbeFailed(WatcherError::NoResourceVersion)),
    }
}

fn delete_text(rt: &impl Abort, alloc: Global, name: &str) -> String {
    shown(rt, alloc, &delete_error(rt, alloc, name))
}

fn finalizer_text(rt: &impl Abort, alloc: Global, name: &str) -> String {
    match name {
        "unnamed" => shown(rt, alloc, &Error::<Torn>::UnnamedObject),
        _ => shown(rt, alloc, &Error::<Torn>::InvalidFinalizer),
    }
}

/// What failed, how, and the text of the error.
const TEXTS: &str = "\
finalizer | unnamed | object has no name
finalizer | invalid | invalid finalizer
patch | path | PathMissing
patch | form | NotAnObject
patch | torn | torn
delete | torn | failed to delete object: torn
delete | wait | failed to wait for object to be deleted: failed to probe for whether the condition is fulfilled yet: no metadata.resourceVersion in watch result (does resource support watch?)";

fn error_text(rt: &impl Abort, alloc: Global, of: &str, name: &str) -> String {
    match of {
        "finalizer" => finalizer_text(rt, alloc, name),
        "patch" => patch_text(rt, alloc, name),
        "delete" => delete_text(rt, alloc, name),
        _ => owned(rt, alloc, "another error"),
    }
}

#[test]
fn texts_of_errors(rt: HostRuntime) {
    for line in TEXTS.split('\n') {
        let (of, rest) = halves(line);
        let (name, wanted) = halves(rest);
        let text = error_text(&rt, rt.alloc(), of, name);
        is_text(&rt, text.as_str(), wanted);
    }
}
