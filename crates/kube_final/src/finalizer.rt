//! Finalizers: what is done to an object before it may go (kube-runtime's `finalizer`; Kubernetes API concept "finalizers").

ghost use Rattle.std.specs.Prelude.{◌≡◌, ◌≤◌, true, false, [], option_map, IfOk, OnOk, OnErr, IsErr, Some, unwrap_or};
ghost use Rattle.std.specs.Arc.{arc_value};
ghost use Rattle.kube_api.specs.ObjectTalk.{patch_answer};
ghost use Rattle.kube_final.specs.Finalizers.{decided as decided_by, decision_on, finalizers_in, branch_on, branch_of, patch_on, first_index};
ghost use Rattle.kube_final.specs.FinalizerPolls.{IsLeftUnasked, IsPolled, IsSent, answer_by, course, course_of, is_ready, objects_in, outcome_after};
ghost use Rattle.kube_final.specs.Guarding.{guarding};

use crate::patches::patch_for;
use kube_api::{ApiError, ObjectApi, PatchAnswer, PatchRefusal};
use kube_meta::{Action, Moment, NoMemory, ObjectMeta, Polled, Resource, Text};
use std::alloc::Global;
use std::fmt;
use std::marker::Model;
use std::sync::Arc;
use thiserror::Error;

/// What is to be done for an object that has the finalizer (`finalizer::Event`).
#[derive(Debug, Drop)]
pub enum Event<K> {
    /// The object is to be as it says. Make sure that this can be undone by `Cleanup`.
    Apply(Arc<K>),
    /// The object is being deleted, and goes once this has succeeded.
    Cleanup(Arc<K>),
}

/// Why a patch of the finalizers failed (in place of `kube::Error`).
#[derive(Debug, Drop, Error)]
pub enum PatchFailed {
    /// The object is not as it was seen.
    #[error("{0}")]
    Refused(PatchRefusal),
    #[error("{0}")]
    Fault(ApiError),
}

/// Why a finalizer failed (`finalizer::Error`).
#[derive(Debug, Drop, Error)]
#[error_bound(E: fmt::Display + fmt::Debug)]
pub enum Error<E> {
    /// The branch of `Event::Apply` failed.
    #[error("failed to apply object: {0}")]
    ApplyFailed(E),
    /// The branch of `Event::Cleanup` failed, and the finalizer stays.
    #[error("failed to clean up object: {0}")]
    CleanupFailed(E),
    #[error("failed to add finalizer: {0}")]
    AddFinalizer(PatchFailed),
    #[error("failed to remove finalizer: {0}")]
    RemoveFinalizer(PatchFailed),
    #[error("object has no name")]
    UnnamedObject,
    /// It never comes.
    #[error("invalid finalizer")]
    InvalidFinalizer,
}

/// What an object asks of a finalizer.
#[derive(Clone, Copy, Debug, PartialEq, Eq)]
pub enum Decision {
    /// It has the finalizer and is not being deleted: its branch is owed.
    Apply,
    /// It has the finalizer, first at this index, and is being deleted: its branch is owed, and then the finalizer goes.
    Cleanup { index: u64 },
    /// It has no finalizer and gets this one.
    AddFirst,
    /// It has others and gets this one.
    AddMore,
    /// It is being deleted without this finalizer.
    Nothing,
    /// It would have to be patched and has no name.
    Unnamed,
}

pub(crate) fn decided(named: bool, deleting: bool, index: Option<u64>, names: &[Text]) -> Decision
    ensures { result ≡ decided_by named deleting index names.now }
{
    match index {
        Some(index) if deleting && named => Decision::Cleanup { index },
        Some(_) if deleting => Decision::Unnamed,
        Some(_) => Decision::Apply,
        None if deleting => Decision::Nothing,
        None if !named => Decision::Unnamed,
        None if names.is_empty() => Decision::AddFirst,
        None => Decision::AddMore,
    }
}

fn first_index(names: &[Text], name: &str) -> Option<usize>
    ensures { result ≡ first_index name.now names.now }
{
    names.iter().position(|other| other.as_str() == name)
}

/// The index at which a name stands first.
pub(crate) fn index_of(names: &[Text], name: &str) -> Option<u64>
    ensures { result ≡ first_index name.now names.now }
{
    match first_index(names, name) {
        Some(index) => Some(index as u64),
        None => None,
    }
}

/// The finalizers of an object.
pub(crate) fn finalizers(meta: &ObjectMeta) -> &[Text]
    ensures { result.now ≡ finalizers_in meta.now }
{
    match &meta.finalizers {
        Some(names) => names.as_slice(),
        None => &[],
    }
}

/// What an object with this metadata asks of the finalizer of a name.
fn decide_for(meta: &ObjectMeta, name: &str) -> Decision
    ensures { result ≡ decision_on name.now meta.now }
{
    let names = finalizers(meta);
    decided(
        meta.name.is_some(),
        meta.deletion_timestamp.is_some(),
        index_of(names, name),
        names,
    )
}

/// What is done at a poll before the API is asked.
#[derive(Drop)]
enum Step<E> {
    /// This is the answer.
    Ends(Result<Action, Error<E>>),
    /// The branch is waited for.
    Waits,
    /// The patch is sent, and then this is the action.
    Sends(Action),
}

/// By the decision, the action of an earlier branch, and the branch that is given now.
fn next_step<E: Drop>(
    decision: Decision,
    outcome: Option<Action>,
    branch: Option<Result<Action, E>>,
) -> Step<E>
    ensures { course_of result ≡ course decision outcome branch }
{
    match decision {
        Decision::Apply => match branch {
            Some(Ok(action)) => Step::Ends(Ok(action)),
            Some(Err(fault)) => Step::Ends(Err(Error::ApplyFailed(fault))),
            None => Step::Waits,
        },
        Decision::Cleanup { .. } => match (outcome, branch) {
            (Some(action), _) => Step::Sends(action),
            (None, Some(Ok(action))) => Step::Sends(action),
            (None, Some(Err(fault))) => Step::Ends(Err(Error::CleanupFailed(fault))),
            (None, None) => Step::Waits,
        },
        Decision::AddFirst | Decision::AddMore => Step::Sends(Action::await_change()),
        Decision::Nothing => Step::Ends(Ok(Action::await_change())),
        Decision::Unnamed => Step::Ends(Err(Error::UnnamedObject)),
    }
}

/// The answer by that of the patch.
fn answer<V: Drop, E: Drop>(
    decision: Decision,
    action: Action,
    patched: Polled<PatchAnswer<V>>,
) -> Polled<Result<Action, Error<E>>>
    ensures { answer_by decision action (patch_answer patched) ≡ Some result }
{
    let failed = match patched {
        Polled::NotReady => return Polled::NotReady,
        Polled::Ready(PatchAnswer::Done(_)) => return Polled::Ready(Ok(action)),
        Polled::Ready(PatchAnswer::Refused(refusal)) => PatchFailed::Refused(refusal),
        Polled::Ready(PatchAnswer::Fault(error)) => PatchFailed::Fault(error),
    };
    match decision {
        Decision::Cleanup { .. } => Polled::Ready(Err(Error::RemoveFinalizer(failed))),
        _ => Polled::Ready(Err(Error::AddFinalizer(failed))),
    }
}

/// Sends the patch that a decision comes to.
///
/// Errors: `NoMemory`.
fn send<A: ObjectApi, E: Drop>(
    alloc: Global,
    api: &mut A,
    name: &Text,
    meta: &ObjectMeta,
    decision: Decision,
    action: Action,
    now: Moment,
) -> Result<Polled<Result<Action, Error<E>>>, NoMemory>
    ensures sent { IfOk result (λ a. IsSent (objects_in A.ObjectApi)
        (unwrap_or meta.now.name []) (patch_on name.now (finalizers_in meta.now) decision) decision action now.0 api.old a api.new) }
    ensures rises { A.faults api.old ≤ A.faults api.new }
    ensures silent { OnErr result (A.talk api.new ≡ A.talk api.old) }
    ensures kept { OnErr result (A.held api.new ≡ A.held api.old) }
    ensures rests { OnErr result (IsLeftUnasked (objects_in A.ObjectApi) api.old api.new) }
{
    let patch = patch_for(alloc, decision, name, finalizers(meta))?;
    let object = match &meta.name {
        Some(object) => object.as_str(),
        None => "",
    };
    let patched = api.patch(alloc, object, patch.as_slice(), now)?;
    Ok(answer(decision, action, patched))
}

fn is_ready<T>(polled: &Polled<T>) -> bool
    ensures { result ≡ is_ready polled.now }
{
    match polled {
        Polled::Ready(_) => true,
        Polled::NotReady => false,
    }
}

/// Guards an object by a finalizer, so that it goes only after a cleanup (kube-runtime's `finalizer`).
///
/// It works on the object as it was seen, so it is made anew for each reconcile. The name of a finalizer is that of one
/// controller, and looks like `example.com/cleanup`. Want of memory spends it.
#[derive(Drop)]
pub struct Finalizer<K> {
    name: Text,
    object: Arc<K>,
    /// The action of the cleanup, once it has succeeded.
    outcome: Option<Action>,
    over: bool,
    spent: bool,
}

impl<K> Model for Finalizer<K> {
    ghost use Rattle.std.specs.Arc.{arc_value};
    ghost use Rattle.kube_final.specs.Guarding.{Guarding};

    ghost Value = { Guarding K };

    ghost view = { λ f. record { name = f.name; object = arc_value f.object; outcome = f.outcome; is_over = f.over; is_spent = f.spent } };
}

impl<K: Resource> Finalizer<K> {
    /// Guards an object, as it was seen, by the finalizer of a name.
    ///
    /// Errors: `NoMemory`.
    pub fn new(alloc: Global, name: &str, object: Arc<K>) -> Result<Finalizer<K>, NoMemory>
        ensures { IfOk result (λ f. f ≡ guarding name.now (arc_value object)) }
    {
        Ok(Finalizer {
            name: Text::new(alloc, name)?,
            object,
            outcome: None,
            over: false,
            spent: false,
        })
    }

    /// What the object asks of the finalizer.
    pub fn decide(&self) -> Decision
        ensures { result ≡ decision_on self.now.name (K.meta_of self.now.object) }
    {
        let object: &K = &self.object;
        decide_for(object.meta(), self.name.as_str())
    }

    /// The branch that is owed: what has to be done, and then told to `poll`.
    ///
    /// Errors: `NoMemory`.
    pub fn event(&self) -> Result<Option<Event<K>>, NoMemory>
        ensures { IfOk result (λ e. option_map branch_of e ≡ branch_on (decision_on self.now.name (K.meta_of self.now.object)) self.now.object) }
    {
        match self.decide() {
            Decision::Apply => Ok(Some(Event::Apply(self.object.clone()?))),
            Decision::Cleanup { .. } => Ok(Some(Event::Cleanup(self.object.clone()?))),
            _ => Ok(None),
        }
    }

    /// Does what the object asks: `branch` tells how the branch that `event` gave has ended, where it has.
    ///
    /// The patch is sent only after the branch, where one is owed, succeeded. The action is that of the branch, and to wait
    /// for a change where none is owed. `NotReady` where a branch is owed and was told neither now nor before, or where the
    /// API was not ready now: then poll again. The first branch that is told counts.
    ///
    /// Errors: `NoMemory`, and only that from then on. `ApplyFailed` and `CleanupFailed` where the branch failed,
    /// `AddFinalizer` and `RemoveFinalizer` where the patch was refused or failed, `UnnamedObject` where the decision is
    /// `Unnamed`.
    pub fn poll<A: ObjectApi, E: Drop>(
        &mut self,
        alloc: Global,
        api: &mut A,
        branch: Option<Result<Action, E>>,
        now: Moment,
    ) -> Result<Polled<Result<Action, Error<E>>>, NoMemory>
        requires unready { self.old.is_over ≡ false }
        ensures polled { IfOk result (λ a. IsPolled (objects_in A.ObjectApi)
            self.old.name (K.meta_of self.old.object) self.old.outcome branch now.0 api.old a api.new) }
        ensures after { IfOk result (λ a. self.new ≡ record self.old {
          outcome = outcome_after (decision_on self.old.name (K.meta_of self.old.object)) self.old.outcome branch;
          is_over = is_ready a;
        }) }
        ensures rises { A.faults api.old ≤ A.faults api.new }
        ensures err { OnErr result (self.new ≡ record self.old { is_spent = true }) }
        ensures silent { OnErr result (A.talk api.new ≡ A.talk api.old) }
        ensures kept { OnErr result (A.held api.new ≡ A.held api.old) }
        ensures rests { OnErr result (IsLeftUnasked (objects_in A.ObjectApi) api.old api.new) }
        ensures spent { self.old.is_spent ≡ true → IsErr result × (api.new ≡ api.old) }
        ensures unspent { OnOk result (self.old.is_spent ≡ false) }
    {
        if self.spent {
            return Err(NoMemory);
        }
        let decision = self.decide();
        let outcome = self.outcome;
        match next_step(decision, outcome, branch) {
            Step::Ends(answer) => {
                self.over = true;
                Ok(Polled::Ready(answer))
            }
            Step::Waits => Ok(Polled::NotReady),
            Step::Sends(action) => {
                self.spent = true;
                let object: &K = &self.object;
                let sent = send(alloc, api, &self.name, object.meta(), decision, action, now)?;
                self.spent = false;
                self.over = is_ready(&sent);
                if let Decision::Cleanup { .. } = decision {
                    self.outcome = Some(action);
                }
                Ok(sent)
            }
        }
    }
}
