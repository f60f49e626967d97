//! Objects as a trace shows them, written from their parts.

ghost use Rattle.std.specs.Prelude.{◌≡◌, OnOk, IfOk, codes, false, option_map, option_copied};
ghost use Rattle.serde_json.specs.Data.{string as string_data};
ghost use Rattle.serde_json.specs.View.{view, members_view};
ghost use Rattle.serde_json.specs.Written.{has_float, members_have_float};
ghost use Rattle.kube_meta.specs.Reading.{ObjectData as object_record, others};
ghost use Rattle.kube_meta.specs.Writing.{content_members, object_data};
ghost use Rattle.kube_text.specs.Fields.{is_named as named, is_named_one, comes_before, left, IsPast, ShowsDue, ShowsDueFront, ShowsLeft, ShowsLeftFront, ShowsOne, ShowsOneFront};
ghost use Rattle.kube_text.specs.Shown.{IsMore, ShowsMembers, ShowsFront, member_if as data_member_if};

use crate::show::{Show, member};
use crate::value::show_value;
use json::Writer;
use kube_meta::{Resource, TypeMeta};
use kube_object::ScriptObject;
use serde_json::{Map, Value};
use std::alloc::{AllocError, Global};
use std::cmp::Ordering;

/// The next of an object's members that are no content, by the bytes of their names.
#[derive(Clone, Copy, Debug, PartialEq, Eq)]
pub enum Next {
    ApiVersion,
    Kind,
    Metadata,
    Nothing,
}

impl Show for ScriptObject {
    ghost Seen = { object_record };

    ghost seen = { λ o. o };

    ghost data_of = { object_data };

    fn show(&self, alloc: Global, out: &mut Writer) -> Result<(), AllocError> {
        out.begin_object()?;
        let next = show_content(alloc, out, self)?;
        show_due(alloc, out, self, next, None)?;
        out.end_object()?;
        Ok(())
    }
}

/// Shows the members of an object's content, and before each of them what is due then. A content that is no object has
/// none.
#[tactic(auto, unfolding(kube_meta::specs::Reading::others))]
fn show_content(alloc: Global, out: &mut Writer, object: &ScriptObject) -> Result<Next, AllocError>
    ensures before { out.new.before ≡ out.old.before }
    ensures members { ShowsLeft result out.old out.new object.now (others (content_members object.now.content)) }
    ensures more { OnOk result (IsMore out.old.tokens out.new.tokens) }
    ensures front { ShowsLeftFront result out.old out.new object.now (others (content_members object.now.content)) }
{
    match object.content() {
        Value::Object(members) => {
            let next = show_content_members(alloc, out, object, members)?;
            Ok(next)
        }
        _ => Ok(Next::ApiVersion),
    }
}

/// Shows the members, and before each of them what is due then. Those that are named as types or metadata are left out.
fn show_content_members(
    alloc: Global,
    out: &mut Writer,
    object: &ScriptObject,
    members: &Map<String, Value>,
) -> Result<Next, AllocError>
    requires { members_have_float (members_view members.now.entries) ≡ false }
    ensures before { out.new.before ≡ out.old.before }
    ensures members { ShowsLeft result out.old out.new object.now (others (members_view members.now.entries)) }
    ensures more { OnOk result (IsMore out.old.tokens out.new.tokens) }
    ensures front { ShowsLeftFront result out.old out.new object.now (others (members_view members.now.entries)) }
{
    let mut next = Next::ApiVersion;
    for (name, value) in members.iter() {
        if !is_named(name.as_str()) {
            next = show_member(alloc, out, object, next, name.as_str(), value)?;
        }
    }
    Ok(next)
}

/// Whether a member is named as types or metadata are.
fn is_named(name: &str) -> bool
    ensures { result ≡ named name.now }
{
    "apiVersion" == name || "kind" == name || "metadata" == name
}

/// Shows a member of the content, and before it what is due then.
fn show_member(
    alloc: Global,
    out: &mut Writer,
    object: &ScriptObject,
    next: Next,
    name: &str,
    value: &Value,
) -> Result<Next, AllocError>
    requires whole { has_float (view value.now) ≡ false }
    requires other { named name.now ≡ false }
    ensures before { out.new.before ≡ out.old.before }
    ensures members { ShowsOne result out.old out.new object.now next name.now (view value.now) }
    ensures more { OnOk result (IsMore out.old.tokens out.new.tokens) }
    ensures front { ShowsOneFront result out.old out.new object.now next name.now (view value.now) }
{
    let next = show_due(alloc, out, object, next, Some(name))?;
    out.key(name)?;
    show_value(out, value)?;
    Ok(next)
}

/// Shows what comes before a member of the content, or, where there is none, all that is left.
fn show_due(
    alloc: Global,
    out: &mut Writer,
    object: &ScriptObject,
    next: Next,
    name: Option<&str>,
) -> Result<Next, AllocError>
    requires { is_named_one (option_copied name) ≡ false }
    ensures before { out.new.before ≡ out.old.before }
    ensures members { ShowsDue result out.old out.new (option_copied name.entry) next object.now }
    ensures more { OnOk result (IsMore out.old.tokens out.new.tokens) }
    ensures front { ShowsDueFront result out.old out.new (option_copied name.entry) next object.now }
    ensures past { IfOk result (λ after. IsPast (option_copied name.entry) (left after object.now)) }
{
    match next {
        Next::ApiVersion => due_api_version(alloc, out, object, name),
        Next::Kind => due_kind(alloc, out, object, name),
        Next::Metadata => due_metadata(alloc, out, object, name),
        Next::Nothing => Ok(Next::Nothing),
    }
}

#[tactic(auto, using(crate::proofs::Fields::not_due, crate::proofs::Fields::other_version))]
fn due_api_version(
    alloc: Global,
    out: &mut Writer,
    object: &ScriptObject,
    name: Option<&str>,
) -> Result<Next, AllocError>
    requires { is_named_one (option_copied name) ≡ false }
    ensures before { out.new.before ≡ out.old.before }
    ensures members { ShowsDue result out.old out.new (option_copied name.entry) Next.ApiVersion object.now }
    ensures more { OnOk result (IsMore out.old.tokens out.new.tokens) }
    ensures front { ShowsDueFront result out.old out.new (option_copied name.entry) Next.ApiVersion object.now }
    ensures past { IfOk result (λ after. IsPast (option_copied name.entry) (left after object.now)) }
{
    if !is_due("apiVersion", name) {
        return Ok(Next::ApiVersion);
    }
    show_api_version(alloc, out, object.types())?;
    let next = due_kind(alloc, out, object, name)?;
    Ok(next)
}

#[tactic(auto, using(crate::proofs::Fields::not_due, crate::proofs::Fields::other_kind))]
fn due_kind(
    alloc: Global,
    out: &mut Writer,
    object: &ScriptObject,
    name: Option<&str>,
) -> Result<Next, AllocError>
    requires { is_named_one (option_copied name) ≡ false }
    ensures before { out.new.before ≡ out.old.before }
    ensures members { ShowsDue result out.old out.new (option_copied name.entry) Next.Kind object.now }
    ensures more { OnOk result (IsMore out.old.tokens out.new.tokens) }
    ensures front { ShowsDueFront result out.old out.new (option_copied name.entry) Next.Kind object.now }
    ensures past { IfOk result (λ after. IsPast (option_copied name.entry) (left after object.now)) }
{
    if !is_due("kind", name) {
        return Ok(Next::Kind);
    }
    show_kind(alloc, out, object.types())?;
    let next = due_metadata(alloc, out, object, name)?;
    Ok(next)
}

#[tactic(auto, using(crate::proofs::Fields::not_due, crate::proofs::Fields::other_metadata))]
fn due_metadata(
    alloc: Global,
    out: &mut Writer,
    object: &ScriptObject,
    name: Option<&str>,
) -> Result<Next, AllocError>
    requires { is_named_one (option_copied name) ≡ false }
    ensures before { out.new.before ≡ out.old.before }
    ensures members { ShowsDue result out.old out.new (option_copied name.entry) Next.Metadata object.now }
    ensures more { OnOk result (IsMore out.old.tokens out.new.tokens) }
    ensures front { ShowsDueFront result out.old out.new (option_copied name.entry) Next.Metadata object.now }
    ensures past { IfOk result (λ after. IsPast (option_copied name.entry) (left after object.now)) }
{
    if !is_due("metadata", name) {
        return Ok(Next::Metadata);
    }
    member(alloc, out, "metadata", object.meta())?;
    Ok(Next::Nothing)
}

/// Whether a member is due before the one of this name. Where there is none each is.
fn is_due(field: &str, name: Option<&str>) -> bool
    ensures { result ≡ comes_before field.now (option_copied name.entry) }
{
    match name {
        None => true,
        Some(name) => field.cmp(name) == Ordering::Less,
    }
}

fn show_api_version(
    alloc: Global,
    out: &mut Writer,
    types: &Option<TypeMeta>,
) -> Result<(), AllocError>
    ensures before { out.new.before ≡ out.old.before }
    ensures members { ShowsMembers result out.old out.new (data_member_if (codes "apiVersion") (option_map (λ t. string_data t.api_version) types.now)) }
    ensures front { ShowsFront result out.old out.new (data_member_if (codes "apiVersion") (option_map (λ t. string_data t.api_version) types.now)) }
{
    match types {
        None => Ok(()),
        Some(types) => {
            member(alloc, out, "apiVersion", &types.api_version)?;
            Ok(())
        }
    }
}

fn show_kind(alloc: Global, out: &mut Writer, types: &Option<TypeMeta>) -> Result<(), AllocError>
    ensures before { out.new.before ≡ out.old.before }
    ensures members { ShowsMembers result out.old out.new (data_member_if (codes "kind") (option_map (λ t. string_data t.kind) types.now)) }
    ensures front { ShowsFront result out.old out.new (data_member_if (codes "kind") (option_map (λ t. string_data t.kind) types.now)) }
{
    match types {
        None => Ok(()),
        Some(types) => {
            member(alloc, out, "kind", &types.kind)?;
            Ok(())
        }
    }
}
