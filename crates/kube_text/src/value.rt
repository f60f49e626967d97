//! Values that are given, shown by a writer.

ghost use Rattle.std.specs.Prelude.{◌≡◌, ◌++◌, OnOk, OnErr, false};
ghost use Rattle.json.specs.Written.{WritesFront};
ghost use Rattle.serde_json.specs.Data.{number as number_data};
ghost use Rattle.serde_json.specs.Find.{is_float};
ghost use Rattle.serde_json.specs.View.{view, number_view, items_view, members_view};
ghost use Rattle.serde_json.specs.Written.{has_float, items_have_float, members_have_float};
ghost use Rattle.kube_text.specs.Shown.{tokens_of, items_left, member_tokens};

use json::Writer;
use serde_json::{Map, Number, Value};
use std::alloc::AllocError;

/// Shows a value whose numbers are whole.
///
/// Errors: `AllocError`. What the writer held stays, and the first tokens of the value may stand behind it.
#[cycle(values)]
#[tactic(auto, using(crate::proofs::Numbers::neither), unfolding(crate::specs::Shown::tokens_of, crate::specs::Shown::items_left, crate::specs::Shown::member_tokens))]
pub fn show_value(out: &mut Writer, value: &Value) -> Result<(), AllocError>
    requires { has_float (view value.now) ≡ false }
    ensures before { out.new.before ≡ out.old.before }
    ensures tokens { OnOk result (out.new.tokens ≡ out.old.tokens ++ tokens_of (view value.now)) }
    ensures front { OnErr result (WritesFront out.old.tokens out.new.tokens (tokens_of (view value.now))) }
{
    match value {
        Value::Null => out.null()?,
        Value::Bool(flag) => out.boolean(*flag)?,
        Value::Number(number) => show_number(out, number)?,
        Value::String(text) => out.string(text.as_str())?,
        Value::Array(values) => {
            out.begin_array()?;
            show_items(out, values)?;
        }
        Value::Object(members) => {
            out.begin_object()?;
            show_members(out, members)?;
        }
    }
    Ok(())
}

#[tactic(auto, using(crate::proofs::Numbers::negative_text, crate::proofs::Numbers::unsigned_text, crate::proofs::Numbers::no_other), unfolding(crate::specs::Shown::tokens_of))]
fn show_number(out: &mut Writer, number: &Number) -> Result<(), AllocError>
    requires { is_float (number_view number.now) ≡ false }
    ensures before { out.new.before ≡ out.old.before }
    ensures tokens { OnOk result (out.new.tokens ≡ out.old.tokens ++ tokens_of (number_data (number_view number.now))) }
    ensures front { OnErr result (WritesFront out.old.tokens out.new.tokens (tokens_of (number_data (number_view number.now)))) }
{
    if let Some(number) = number.as_u64() {
        out.u64(number)?;
    } else if let Some(number) = number.as_i64() {
        out.i64(number)?;
    }
    Ok(())
}

/// The items of an array, with its closing bracket.
#[cycle(values)]
#[tactic(auto, using(crate::proofs::Numbers::neither), unfolding(crate::specs::Shown::tokens_of, crate::specs::Shown::items_left, crate::specs::Shown::member_tokens))]
fn show_items(out: &mut Writer, values: &[Value]) -> Result<(), AllocError>
    requires { items_have_float (items_view values.now) ≡ false }
    ensures before { out.new.before ≡ out.old.before }
    ensures tokens { OnOk result (out.new.tokens ≡ out.old.tokens ++ items_left (items_view values.now)) }
    ensures front { OnErr result (WritesFront out.old.tokens out.new.tokens (items_left (items_view values.now))) }
{
    for value in values {
        show_value(out, value)?;
    }
    out.end_array()?;
    Ok(())
}

/// The members of an object, with its closing brace.
#[cycle(values)]
#[tactic(auto, using(crate::proofs::Numbers::neither), unfolding(crate::specs::Shown::tokens_of, crate::specs::Shown::items_left, crate::specs::Shown::member_tokens))]
fn show_members(out: &mut Writer, members: &Map<String, Value>) -> Result<(), AllocError>
    requires { members_have_float (members_view members.now.entries) ≡ false }
    ensures before { out.new.before ≡ out.old.before }
    ensures tokens { OnOk result (out.new.tokens ≡ out.old.tokens ++ member_tokens (members_view members.now.entries)) }
    ensures front { OnErr result (WritesFront out.old.tokens out.new.tokens (member_tokens (members_view members.now.entries))) }
{
    for (name, value) in members.iter() {
        out.key(name.as_str())?;
        show_value(out, value)?;
    }
    out.end_object()?;
    Ok(())
}
