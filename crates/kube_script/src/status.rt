//! Statuses and faults that an API answers.

ghost use Rattle.std.specs.Prelude.{◌≡◌, ℕ, List, map, option_map};
ghost use Rattle.kube_meta.specs.Reading.{is_value};
ghost use Rattle.kube_meta.specs.Places.{Gives};
ghost use Rattle.kube_model.specs.declared.error.ApiError.{ApiError as error_data};
ghost use Rattle.kube_model.specs.declared.error.Status.{Status as status_record};
ghost use Rattle.kube_script.specs.Script.{details_at, status_at, fault_at, fault_form, one_of, count_there, fault_from};
ghost use Rattle.serde_json.specs.View.{view};

use crate::row::{Row, default_member, is_object, maybe_member};
use kube_meta::{ObjectFault, Text};
use kube_model::error::{ApiError, Status};
use serde_json::Value;
use std::alloc::Global;

/// What a status says of its object.
#[derive(Drop)]
struct Details {
    uid: Text,
}

impl Row for Details {
    ghost Seen = { List ℕ };

    ghost seen = { λ d. d.uid };

    ghost reads = { details_at };

    #[tactic(auto, unfolding(crate::specs::Script::details_at))]
    fn read(alloc: Global, value: &Value) -> Result<Details, ObjectFault> {
        is_object(alloc, value)?;
        let none = Text::from(String::new(alloc));
        let uid = default_member(alloc, value, "uid", none)?;
        Ok(Details { uid })
    }
}

impl Row for Status {
    ghost Seen = { status_record };

    ghost seen = { λ s. s };

    ghost reads = { status_at };

    #[tactic(auto, unfolding(crate::specs::Script::status_at))]
    fn read(alloc: Global, value: &Value) -> Result<Status, ObjectFault> {
        is_object(alloc, value)?;
        let code = default_member(alloc, value, "code", 0)?;
        let reason = default_member(alloc, value, "reason", Text::from(String::new(alloc)))?;
        let message = default_member(alloc, value, "message", Text::from(String::new(alloc)))?;
        let details: Option<Details> = maybe_member(alloc, value, "details")?;
        let uid = match details {
            Some(details) => Some(details.uid),
            None => None,
        };
        Ok(Status {
            code,
            reason,
            message,
            uid,
        })
    }
}

impl Row for ApiError {
    ghost Seen = { error_data };

    ghost seen = { λ e. e };

    ghost reads = { fault_at };

    #[tactic(auto, unfolding(crate::specs::Script::fault_at))]
    fn read(alloc: Global, value: &Value) -> Result<ApiError, ObjectFault> {
        one_fault(alloc, value)?;
        let api = maybe_member(alloc, value, "api")?;
        let read = maybe_member(alloc, value, "read")?;
        let transport = maybe_member(alloc, value, "transport")?;
        error(alloc, api, read, transport)
    }
}

#[tactic(auto, unfolding(crate::specs::Script::fault_form))]
fn one_fault(alloc: Global, value: &Value) -> Result<(), ObjectFault>
    ensures { Gives (λ x. x) result (fault_form (view value.now)) }
{
    exactly_one(alloc, value, &["api", "read", "transport"])
}

/// The fault of the first of these that is there.
fn error(
    alloc: Global,
    api: Option<Status>,
    read: Option<Text>,
    transport: Option<Text>,
) -> Result<ApiError, ObjectFault>
    ensures { Gives (λ e. e) result (fault_from api read transport) }
{
    if let Some(status) = api {
        return Ok(ApiError::Api(status));
    }
    if let Some(text) = read {
        return Ok(ApiError::ReadEvents(text));
    }
    match transport {
        Some(text) => Ok(ApiError::Transport(text)),
        None => Err(ObjectFault::shape(alloc)),
    }
}

/// Exactly one of the members is there; null is absent.
#[tactic(auto, unfolding(crate::specs::Script::one_of))]
pub fn exactly_one(alloc: Global, value: &Value, names: &[&str]) -> Result<(), ObjectFault>
    ensures { Gives (λ x. x) result (one_of (map (λ s. s.now) names.now) (view value.now)) }
{
    is_object(alloc, value)?;
    if count(value, names) == 1 {
        return Ok(());
    }
    Err(ObjectFault::shape(alloc))
}

/// How many of the members are there.
fn count(value: &Value, names: &[&str]) -> usize
    ensures { result ≡ count_there (map (λ s. s.now) names.now) (view value.now) }
{
    let mut count = 0;
    for name in names {
        if is_there(value.get(*name)) {
            count += 1;
        }
    }
    count
}

/// Whether a member is there and not null.
fn is_there(member: Option<&Value>) -> bool
    ensures { result ≡ is_value (option_map (λ v. view v.now) member.entry) }
{
    match member {
        Some(Value::Null) => false,
        Some(_) => true,
        None => false,
    }
}
