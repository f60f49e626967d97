//! The patches of a candidate.

ghost use Rattle.std.specs.Prelude.{◌≡◌, ◌<◌, ◌+◌, ◌^◌, length, map, IfOk};
ghost use Rattle.serde_json.specs.Data.{string};
ghost use Rattle.serde_json.specs.View.{view};
ghost use Rattle.kube_api.specs.Patches.{operation_of, Tests, Changes, Puts};
ghost use Rattle.kube_lease.specs.Reading.{lease_of};
ghost use Rattle.kube_lease.specs.Polls.{renewal as renewal_of, taking as taking_of, whole};

use crate::lease::LeaseView;
use kube_api::Patch;
use kube_meta::{Moment, NoMemory, Text};
use serde_json::Value;
use std::alloc::Global;

fn number(number: u64) -> Value
    ensures { view result ≡ whole number }
{
    Value::from(number)
}

fn text(alloc: Global, text: &str) -> Result<Value, NoMemory>
    ensures { IfOk result (λ v. view v ≡ string text.now) }
{
    Ok(Value::String(String::from_str(alloc, text)?))
}

fn test(alloc: Global, path: &str, value: Value) -> Result<Patch, NoMemory>
    ensures { IfOk result (λ p. operation_of p ≡ Tests path.now (view value)) }
{
    let path = Text::new(alloc, path)?;
    Ok(Patch::Test { path, value })
}

fn add(alloc: Global, path: &str, value: Value) -> Result<Patch, NoMemory>
    ensures { IfOk result (λ p. operation_of p ≡ Changes path.now (Puts (view value))) }
{
    let path = Text::new(alloc, path)?;
    Ok(Patch::Add { path, value })
}

/// Tests that the lease is as it was seen, and makes it last until a moment.
pub(crate) fn renewal(
    alloc: Global,
    seen: &LeaseView,
    until: Moment,
) -> Result<Vec<Patch>, NoMemory>
    ensures operations { IfOk result (λ p. map operation_of p.items ≡ renewal_of (lease_of seen.now) until.0) }
    ensures few { IfOk result (λ p. length p.items < 2 ^ 32) }
{
    let term = test(alloc, "/spec/term", number(seen.term))?;
    let holder = test(alloc, "/spec/holder", text(alloc, seen.holder.as_str())?)?;
    let end = test(alloc, "/spec/until", number(seen.until.0))?;
    let longer = add(alloc, "/spec/until", number(until.0))?;
    Ok(vec![in alloc; term, holder, end, longer]?)
}

/// Tests the term and the end that were seen, and makes the lease that of an id in the next term until a moment.
pub(crate) fn taking(
    alloc: Global,
    id: &str,
    seen: &LeaseView,
    next: u64,
    until: Moment,
) -> Result<Vec<Patch>, NoMemory>
    requires { next ≡ seen.now.term + 1 }
    ensures operations { IfOk result (λ p. map operation_of p.items ≡ taking_of id.now (lease_of seen.now) until.0) }
    ensures few { IfOk result (λ p. length p.items < 2 ^ 32) }
{
    let term = test(alloc, "/spec/term", number(seen.term))?;
    let end = test(alloc, "/spec/until", number(seen.until.0))?;
    let next = add(alloc, "/spec/term", number(next))?;
    let holder = add(alloc, "/spec/holder", text(alloc, id)?)?;
    let longer = add(alloc, "/spec/until", number(until.0))?;
    Ok(vec![in alloc; term, end, next, holder, longer]?)
}
