//! The reads of a turn: what a reload finds, whether the store is ready, and what the turn shows.

ghost use Rattle.std.specs.Prelude.{◌≡◌, ◌||◌, not, true, List, Option, Some, None, IfOk, OnOk, OnErr, is_some, map};
ghost use Rattle.kube_meta.specs.Keys.{reference_of};
ghost use Rattle.kube_model.specs.History.{Message};
ghost use Rattle.kube_model.specs.Queue.{QueueEvent};
ghost use Rattle.kube_model.specs.Reads.{Readiness, failure_in, is_told_ready};
ghost use Rattle.kube_model.specs.Takes.{Running};
ghost use Rattle.kube_history.specs.CoreWorld.{CoreWorld};
ghost use Rattle.kube_history.specs.TurnCalls.{with_requests};
ghost use Rattle.kube_core.specs.Cores.{IsOfType};
ghost use Rattle.kube_core.specs.Pendings.{Stands};
ghost use Rattle.kube_turn.specs.Views.{shown_objects};
ghost use Rattle.kube_feed.specs.Reads.{AreListed, IsLater, IsTold, told_by};
ghost use Rattle.kube_feed.specs.Requests.{bulk_requests, typed_as};

use crate::parts::Parts;
use crate::requests::request_all;
use kube_core::Pending;
use kube_core::requests::requests_in_bulk;
use kube_meta::{List, Moment, NoMemory, ObjectRef, Polled, Resource, TypeInfo};
use kube_model::error::{RunnerError, WriterDropped};
use kube_reflect::{Store, WriterDropped as StoreDropped};
use std::alloc::Global;
use std::sync::{Arc, Wait};

/// The same reference of an object of this type.
fn typed_as<K: Resource>(
    alloc: Global,
    dyntype: &K::DynamicType,
    key: ObjectRef<K>,
) -> Result<ObjectRef<K>, NoMemory>
    ensures { IfOk result (λ r. reference_of K.type_of r ≡ typed_as (K.type_of dyntype.now) (reference_of K.type_of key)) }
{
    let dyntype = dyntype.share(alloc)?;
    Ok(key.into_kind_unchecked(dyntype))
}

/// The same references, each of an object of this type.
fn typed<K: Resource>(
    alloc: Global,
    dyntype: &K::DynamicType,
    keys: Vec<ObjectRef<K>>,
) -> Result<Vec<ObjectRef<K>>, NoMemory>
    ensures { IfOk result (λ v. map (reference_of K.type_of) v.items ≡ map (typed_as (K.type_of dyntype.now)) (map (reference_of K.type_of) keys.items)) }
{
    let mut typed = Vec::new(alloc);
    for key in keys {
        let key = typed_as(alloc, dyntype, key)?;
        typed.push(key)?;
    }
    Ok(typed)
}

/// Requests all that is stored, in one read, each as an object of this type.
fn reload<K: Resource, W: Wait>(
    rt: &W,
    alloc: Global,
    reader: &mut Store<K>,
    pending: &mut Pending<K>,
    dyntype: &K::DynamicType,
    at: Moment,
) -> Result<(), NoMemory>
    ensures same { IsLater reader.old reader.new }
    ensures reloaded { OnOk result ((found : List K) × AreListed K.meta_of (Some found) reader.old reader.new
        × ((core : CoreWorld K) (qs : List (QueueEvent Message)) (rs : List (Running K)) → IsOfType (K.type_of dyntype.now) K.meta_of core → Stands K.type_of core pending.old qs rs
        → Stands K.type_of core pending.new (with_requests qs at.0 (bulk_requests core.key at.0 (Some found))) rs)) }
{
    let keys = reader.keys(rt, alloc)?;
    let keys = typed(alloc, dyntype, keys)?;
    let requests = requests_in_bulk(alloc, keys)?;
    request_all(alloc, pending, requests, at)
}

/// Requests all that is stored, in one read, each as an object of this type, where a reload is asked for.
///
/// # Errors
///
/// `NoMemory` where there is none for the read or the requests.
pub fn reload_where<K: Resource, W: Wait>(
    rt: &W,
    alloc: Global,
    reader: &mut Store<K>,
    pending: &mut Pending<K>,
    dyntype: &K::DynamicType,
    asked: bool,
    at: Moment,
) -> Result<(), NoMemory>
    ensures same { IsLater reader.old reader.new }
    ensures reloaded { OnOk result ((found : Option (List K)) × AreListed K.meta_of found reader.old reader.new × (is_some found ≡ asked)
        × ((core : CoreWorld K) (qs : List (QueueEvent Message)) (rs : List (Running K)) → IsOfType (K.type_of dyntype.now) K.meta_of core → Stands K.type_of core pending.old qs rs
        → Stands K.type_of core pending.new (with_requests qs at.0 (bulk_requests core.key at.0 found)) rs)) }
{
    if !asked {
        return Ok(());
    }
    reload(rt, alloc, reader, pending, dyntype, at)
}

/// Whether a store told that it is ready, and the runner's error, where its writer ended before.
fn told(answer: Polled<Result<(), StoreDropped>>) -> (bool, Option<RunnerError>)
    ensures ready { result.0 ≡ is_told_ready (Some (told_by answer)) }
    ensures failed { result.1 ≡ failure_in (Some (told_by answer)) }
{
    match answer {
        Polled::Ready(Ok(())) => (true, None),
        Polled::Ready(Err(_)) => (false, Some(RunnerError::Readiness(WriterDropped))),
        Polled::NotReady => (false, None),
    }
}

/// Polls whether the store is ready, in one read, until that was told. The runner's error, where the store's writer ended before.
pub fn poll_ready<K: Resource, W: Wait>(rt: &W, parts: &mut Parts<K>) -> Option<RunnerError>
    ensures same { IsLater parts.old.reader parts.new.reader }
    ensures polled { (told : Option Readiness) × IsTold K.meta_of told parts.old.reader parts.new.reader × (is_some told ≡ not parts.old.ready)
        × (parts.new.ready ≡ parts.old.ready || is_told_ready told) × (result ≡ failure_in told) }
    ensures pending { parts.new.pending ≡ parts.old.pending }
    ensures shut { parts.new.shut ≡ parts.old.shut }
{
    if parts.ready {
        return None;
    }
    let answer = parts.reader.poll_ready(rt);
    let (is_ready, runner) = told(answer);
    parts.ready = is_ready;
    runner
}

/// The stored objects, in one read, where they are to be shown.
///
/// # Errors
///
/// `NoMemory` where there is none for the list.
pub fn shown<K: Resource, W: Wait>(
    rt: &W,
    alloc: Global,
    reader: &mut Store<K>,
    show: bool,
) -> Result<Option<List<Arc<K>>>, NoMemory>
    ensures same { IsLater reader.old reader.new }
    ensures listed { IfOk result (λ o. AreListed K.meta_of (shown_objects o) reader.old reader.new) }
    ensures asked { IfOk result (λ o. is_some o ≡ show) }
    ensures wanted { OnErr result (show ≡ true) }
{
    if !show {
        return Ok(None);
    }
    let objects = reader.state(rt, alloc)?;
    Ok(Some(List::from(objects)))
}
