//! Leases: who leads, in which term, and until when (in place of client-go's lease lock).

ghost use Rattle.std.specs.Prelude.{◌≡◌, IfOk, IfErr, option_map, Ok, Err};
ghost use Rattle.serde_json.specs.View.{view};
ghost use Rattle.kube_meta.specs.Reading.{seen_object};
ghost use Rattle.kube_lease.specs.Leases.{unheld};
ghost use Rattle.kube_lease.specs.Reading.{IsFaultOf, lease_at, lease_data, lease_of, new_lease as lease_object, spec_number, spec_text};
ghost use Rattle.kube_lease.specs.declared.lease.LeaseFault.TheVariants.{NoMemory as out_of_memory};

use kube_meta::{DynamicObject, Moment, NoMemory, ObjectMeta, Text};
use serde_json::{Map, Value};
use std::alloc::{AllocError, Global};
use thiserror::Error;

/// A lease, as an object's `spec` has it.
#[derive(Debug, Drop)]
pub struct LeaseView {
    /// The id of who holds it, empty where nobody has held it.
    pub holder: Text,
    /// Each new holder's term is one more than the one before.
    pub term: u64,
    /// The server's moment from which on its holder acts no more, unless it is renewed.
    pub until: Moment,
}

/// Why an object is no lease.
#[derive(Debug, Drop, Error)]
pub enum LeaseFault {
    /// The first of `/spec/holder` (a text), `/spec/term` and `/spec/until` (whole numbers of 64 bits) that is missing or has
    /// another form.
    #[error("of another form at `{0}`")]
    Malformed(Text),
    #[error("out of memory")]
    NoMemory,
}

impl From<NoMemory> for LeaseFault {
    ghost from_gives = { λ _ e. e ≡ out_of_memory };

    fn from(_error: NoMemory) -> LeaseFault {
        LeaseFault::NoMemory
    }
}

impl From<AllocError> for LeaseFault {
    ghost from_gives = { λ _ e. e ≡ out_of_memory };

    fn from(_error: AllocError) -> LeaseFault {
        LeaseFault::NoMemory
    }
}

/// The text that an object's spec has under a name.
fn text_of<'a>(content: &'a Value, name: &str) -> Option<&'a str>
    ensures { option_map (λ t. t.now) result ≡ spec_text name.now (view content.now) }
{
    content.get("spec")?.get(name)?.as_str()
}

/// The number that an object's spec has under a name.
fn number_of(content: &Value, name: &str) -> Option<u64>
    ensures { result ≡ spec_number name.now (view content.now) }
{
    content.get("spec")?.get(name)?.as_u64()
}

/// The fault at a place.
fn malformed(alloc: Global, place: &str) -> LeaseFault
    ensures { IsFaultOf (Err place.now) result }
{
    match Text::new(alloc, place) {
        Ok(place) => LeaseFault::Malformed(place),
        Err(NoMemory) => LeaseFault::NoMemory,
    }
}

/// The lease that an object is.
///
/// Errors: `Malformed` with the first place, and `NoMemory`.
pub fn read_lease(alloc: Global, object: &DynamicObject) -> Result<LeaseView, LeaseFault>
    ensures read { IfOk result (λ l. lease_at (view object.now.content) ≡ Ok (lease_of l)) }
    ensures fault { IfErr result (λ e. IsFaultOf (lease_at (view object.now.content)) e) }
{
    let Some(holder) = text_of(&object.content, "holder") else {
        return Err(malformed(alloc, "/spec/holder"));
    };
    let Some(term) = number_of(&object.content, "term") else {
        return Err(malformed(alloc, "/spec/term"));
    };
    let Some(until) = number_of(&object.content, "until") else {
        return Err(malformed(alloc, "/spec/until"));
    };
    Ok(LeaseView {
        holder: Text::new(alloc, holder)?,
        term,
        until: Moment(until),
    })
}

/// The content of a lease that nobody has held.
fn unheld(alloc: Global) -> Result<Value, NoMemory>
    ensures { IfOk result (λ v. view v ≡ lease_data unheld) }
{
    let nobody = Value::String(String::new(alloc));
    let mut spec = Map::new(alloc);
    serde_json::put(&mut spec, alloc, "holder", nobody)?;
    serde_json::put(&mut spec, alloc, "term", Value::from(0u64))?;
    serde_json::put(&mut spec, alloc, "until", Value::from(0u64))?;
    let mut content = Map::new(alloc);
    serde_json::put(&mut content, alloc, "spec", Value::Object(spec))?;
    Ok(Value::Object(content))
}

/// A lease of a name that nobody has held: holder empty, term 0, until 0.
///
/// Errors: `NoMemory`.
pub fn new_lease(alloc: Global, name: &str) -> Result<DynamicObject, NoMemory>
    ensures { IfOk result (λ o. seen_object o ≡ lease_object name.now) }
{
    let mut metadata = ObjectMeta::empty();
    metadata.name = Some(Text::new(alloc, name)?);
    Ok(DynamicObject {
        types: None,
        metadata,
        content: unheld(alloc)?,
    })
}
