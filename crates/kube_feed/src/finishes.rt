//! The finishes of a turn.

ghost use Rattle.std.specs.Prelude.{◌≡◌, ◌∷◌, [], List, IfOk, map, not, true};
ghost use Rattle.std.specs.Arc.{arc_value};
ghost use Rattle.std.specs.List.{filter};
ghost use Rattle.kube_meta.specs.Keys.{reference_of};
ghost use Rattle.kube_meta.specs.Reference.{same_reference};
ghost use Rattle.kube_model.specs.History.{Message, Step, Turn as PlainTurn};
ghost use Rattle.kube_model.specs.Queue.{QueueEvent};
ghost use Rattle.kube_model.specs.Takes.{Running, running, runs, unfinished};
ghost use Rattle.kube_model.specs.Traces.{IsValid};
ghost use Rattle.kube_history.specs.CoreWorld.{CoreWorld};
ghost use Rattle.kube_history.specs.TurnCalls.{with_requests};
ghost use Rattle.kube_core.specs.Pendings.{Stands, handed_over};
ghost use Rattle.kube_turn.specs.Records.{finish_of, finished_of};
ghost use Rattle.kube_step.specs.Finishes.{AreFinished, IsActionFor};
ghost use Rattle.kube_step.specs.Policies.{Answers};
ghost use Rattle.kube_feed.specs.Requests.{ended_requests, finish_requests};

use kube_core::Pending;
use kube_core::requests::requeue;
use kube_meta::{Action, List, Moment, NoMemory, ObjectRef, Resource};
use kube_step::finishes::action_of;
use kube_turn::{Finish, Finished};
use std::alloc::Global;
use std::sync::Arc;

/// Lets a reference run no more, and requests it again where the action asks for it, unless the turn is closed. It takes no
/// memory.
fn end<K: Resource>(
    pending: &mut Pending<K>,
    closed: bool,
    reference: &ObjectRef<K>,
    ok: bool,
    action: Action,
    at: Moment,
)
    ensures { (core : CoreWorld K) (qs : List (QueueEvent Message)) (rs : List (Running K)) → Stands K.type_of core pending.old qs rs
        → runs rs (reference_of K.type_of reference.now) ≡ true
        → Stands K.type_of core pending.new (with_requests qs at.0 (ended_requests closed at.0 (reference_of K.type_of reference.now) ok action))
        (filter (λ p. not (same_reference p.reference (reference_of K.type_of reference.now))) rs) }
{
    let Some(stopped) = pending.stop(reference) else {
        return;
    };
    if closed {
        return;
    }
    requeue(pending, stopped, ok, action, at);
}

/// Lets a reference run no more, with the action that is taken for it.
fn finish_one<K: Resource, P, Ctx: Drop, E: Drop>(
    pending: &mut Pending<K>,
    closed: bool,
    error_policy: &P,
    context: &Arc<Ctx>,
    finish: Finish<K, E>,
    at: Moment,
) -> Result<Finished<K, E>, NoMemory>
where
    P: Fn(Arc<K>, &E, Arc<Ctx>) -> Action,
    requires { P.IsAlwaysCallable error_policy.now }
    ensures finish { IfOk result (λ g. (g.reference ≡ finish.reference) × (g.outcome ≡ finish.outcome)) }
    ensures action { IfOk result (λ g. (core : CoreWorld K) (qs : List (QueueEvent Message)) (rs : List (Running K)) → Stands K.type_of core pending.old qs rs
        → IsActionFor (Answers P.Fn error_policy.now (arc_value context.now)) (handed_over rs (reference_of K.type_of finish.reference)) finish.outcome g.action) }
    ensures stands { IfOk result (λ g. (core : CoreWorld K) (qs : List (QueueEvent Message)) (rs : List (Running K)) → Stands K.type_of core pending.old qs rs
        → runs rs (reference_of K.type_of finish.reference) ≡ true
        → Stands K.type_of core pending.new (with_requests qs at.0 (finish_requests closed at.0 (finished_of K.type_of g ∷ [])))
        (filter (λ p. not (same_reference p.reference (reference_of K.type_of finish.reference))) rs)) }
{
    let Finish { reference, outcome } = finish;
    let action = action_of(error_policy, context, pending.running(&reference), &outcome)?;
    end(pending, closed, &reference, outcome.is_ok(), action, at);
    Ok(Finished {
        reference,
        outcome,
        action,
    })
}

/// Lets the references of these finishes run no more, in order, each with the action that is taken for it.
///
/// # Errors
///
/// `NoMemory` where there is none for the list, or for what the error policy is handed.
pub fn finish_all<K: Resource, P, Ctx: Drop, E: Drop>(
    pending: &mut Pending<K>,
    closed: bool,
    error_policy: &P,
    context: &Arc<Ctx>,
    alloc: Global,
    finishes: List<Finish<K, E>>,
    at: Moment,
) -> Result<List<Finished<K, E>>, NoMemory>
where
    P: Fn(Arc<K>, &E, Arc<Ctx>) -> Action,
    requires { P.IsAlwaysCallable error_policy.now }
    ensures finished { IfOk result (λ gs. (core : CoreWorld K) (qs : List (QueueEvent Message)) (h : List (Step K)) (t : PlainTurn) → Stands K.type_of core pending.old qs (running h)
        → IsValid h t → t.finishes ≡ map (finish_of K.type_of) finishes
        → AreFinished K.type_of (Answers P.Fn error_policy.now (arc_value context.now)) (running h) finishes gs) }
    ensures stands { IfOk result (λ gs. (core : CoreWorld K) (qs : List (QueueEvent Message)) (h : List (Step K)) (t : PlainTurn) → Stands K.type_of core pending.old qs (running h)
        → IsValid h t → t.finishes ≡ map (finish_of K.type_of) finishes
        → Stands K.type_of core pending.new (with_requests qs at.0 (finish_requests closed at.0 (map (finished_of K.type_of) gs))) (unfinished (running h) t.finishes)) }
{
    let mut finished = List::new(alloc);
    for finish in Vec::from(finishes) {
        let one = finish_one(pending, closed, error_policy, context, finish, at)?;
        finished.push(one)?;
    }
    Ok(finished)
}
