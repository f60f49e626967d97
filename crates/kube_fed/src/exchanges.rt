//! Exchanges with streams.

ghost use Rattle.std.specs.Prelude.{◌≡◌, [], true, false, IfOk, IsErrOf, OnOk};
ghost use Rattle.kube_meta.specs.Keys.{is_named, key_of, reference_of};
ghost use Rattle.kube_model.specs.declared.call.Call.TheVariants.{Stream};
ghost use Rattle.kube_turn.specs.Views.{exchange_of};

use kube_meta::{List, ObjectRef, RefError, Resource, TypeInfo};
use kube_model::call::{Answer, Call};
use kube_model::error::Error;
use kube_turn::SourceExchange;
use kube_watch::StreamFault;
use std::alloc::Global;

/// The exchange of an answer, without objects and requests.
pub(crate) fn bare<K: Resource>(
    alloc: Global,
    answer: Answer,
    error: Option<Error>,
) -> SourceExchange<K>
    ensures { exchange_of K.type_of result ≡ record { source = 0; call = Stream; answer = answer; items = []; requests = []; error = error } }
{
    SourceExchange {
        source: 0,
        call: Call::Stream,
        answer,
        items: List::new(alloc),
        requests: List::new(alloc),
        error,
    }
}

/// The reference of an object, under a type.
pub(crate) fn key<K: Resource>(
    alloc: Global,
    dyntype: &K::DynamicType,
    object: &K,
) -> Result<ObjectRef<K>, StreamFault>
    ensures named { OnOk result (is_named (K.meta_of object.now) ≡ true) }
    ensures reference { IfOk result (λ r. reference_of K.type_of r ≡ key_of (K.type_of dyntype.now) (K.meta_of object.now)) }
    ensures unnamed { IsErrOf result StreamFault.Unnamed → is_named (K.meta_of object.now) ≡ false }
{
    let dyntype = dyntype.share(alloc)?;
    match ObjectRef::from_obj_with(alloc, object, dyntype) {
        Ok(reference) => Ok(reference),
        Err(RefError::NoMemory) => Err(StreamFault::NoMemory),
        Err(RefError::Unnamed) => Err(StreamFault::Unnamed),
    }
}
