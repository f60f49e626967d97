//! The patches of finalizers.

ghost use Rattle.std.specs.Prelude.{◌≡◌, map, length, IfOk};
ghost use Rattle.serde_json.specs.Data.{string};
ghost use Rattle.serde_json.specs.View.{view};
ghost use Rattle.kube_api.specs.Patches.{operation_of};
ghost use Rattle.kube_final.specs.Finalizers.{addition as addition_of, first_addition as first_addition_of, IsSmall, names_data, patch_on, removal as removal_of, replacement as replacement_of};

use crate::finalizer::Decision;
use kube_api::Patch;
use kube_meta::{NoMemory, Text};
use serde_json::Value;
use std::alloc::Global;

/// A text as JSON.
fn text_value(alloc: Global, text: &str) -> Result<Value, NoMemory>
    ensures { IfOk result (λ v. view v ≡ string text.now) }
{
    Ok(Value::String(String::from_str(alloc, text)?))
}

/// Names as JSON.
fn names_value(alloc: Global, names: &[Text]) -> Result<Value, NoMemory>
    ensures { IfOk result (λ v. view v ≡ names_data names.now) }
{
    let mut values = Vec::new(alloc);
    for name in names {
        values.push(text_value(alloc, name.as_str())?)?;
    }
    Ok(Value::Array(values))
}

/// Tests for the finalizer at an index, and takes it out.
fn removal(alloc: Global, name: &str, index: u64) -> Result<Vec<Patch>, NoMemory>
    ensures { IfOk result (λ p. map operation_of p.items ≡ removal_of name.now index) }
{
    let value = text_value(alloc, name)?;
    let tested = Text::from(format!(in alloc; "/metadata/finalizers/{index}")?);
    let removed = tested.copy(alloc)?;
    let test = Patch::Test {
        path: tested,
        value,
    };
    let remove = Patch::Remove { path: removed };
    Ok(vec![in alloc; test, remove]?)
}

/// Tests that there is no finalizer, and adds the first.
fn first_addition(alloc: Global, name: &Text) -> Result<Vec<Patch>, NoMemory>
    ensures { IfOk result (λ p. map operation_of p.items ≡ first_addition_of name.now) }
{
    let value = Value::Array(vec![in alloc; text_value(alloc, name.as_str())?]?);
    let test = Patch::Test {
        path: Text::new(alloc, "/metadata/finalizers")?,
        value: Value::Null,
    };
    let add = Patch::Add {
        path: Text::new(alloc, "/metadata/finalizers")?,
        value,
    };
    Ok(vec![in alloc; test, add]?)
}

/// Tests for the finalizers that were seen, and adds one behind them.
fn addition(alloc: Global, name: &str, names: &[Text]) -> Result<Vec<Patch>, NoMemory>
    ensures { IfOk result (λ p. map operation_of p.items ≡ addition_of name.now names.now) }
{
    let value = text_value(alloc, name)?;
    let seen = names_value(alloc, names)?;
    let test = Patch::Test {
        path: Text::new(alloc, "/metadata/finalizers")?,
        value: seen,
    };
    let add = Patch::Add {
        path: Text::new(alloc, "/metadata/finalizers/-")?,
        value,
    };
    Ok(vec![in alloc; test, add]?)
}

/// Puts other finalizers in the place of those that are there.
///
/// Errors: `NoMemory`.
pub(crate) fn replacement(alloc: Global, names: &[Text]) -> Result<Vec<Patch>, NoMemory>
    ensures operations { IfOk result (λ p. map operation_of p.items ≡ replacement_of names.now) }
    ensures one { IfOk result (λ p. length p.items ≡ 1) }
{
    let value = names_value(alloc, names)?;
    let add = Patch::Add {
        path: Text::new(alloc, "/metadata/finalizers")?,
        value,
    };
    Ok(vec![in alloc; add]?)
}

/// The patch that a decision comes to, empty where it comes to none.
///
/// Errors: `NoMemory`.
pub(crate) fn patch_for(
    alloc: Global,
    decision: Decision,
    name: &Text,
    names: &[Text],
) -> Result<Vec<Patch>, NoMemory>
    ensures operations { IfOk result (λ p. map operation_of p.items ≡ patch_on name.now names.now decision) }
    ensures small { IfOk result (λ p. IsSmall decision) }
{
    match decision {
        Decision::Cleanup { index } => removal(alloc, name.as_str(), index),
        Decision::AddFirst => first_addition(alloc, name),
        Decision::AddMore => addition(alloc, name.as_str(), names),
        Decision::Apply | Decision::Nothing | Decision::Unnamed => Ok(Vec::new(alloc)),
    }
}
