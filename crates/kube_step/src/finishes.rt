//! The finishes of a turn.

ghost use Rattle.std.specs.Prelude.{◌≡◌, ◌≤◌, ◌++◌, ◌∷◌, [], List, IfOk, OnOk, OnErr, map, option_map, option_copied, true};
ghost use Rattle.std.specs.Arc.{arc_value};
ghost use Rattle.kube_meta.specs.Keys.{reference_of};
ghost use Rattle.kube_model.specs.History.{Finished as PlainFinished, Step, Turn as PlainTurn};
ghost use Rattle.kube_model.specs.Takes.{running, runs};
ghost use Rattle.kube_model.specs.Traces.{IsValid};
ghost use Rattle.kube_history.specs.CoreWorld.{CoreWorld};
ghost use Rattle.kube_history.specs.CoreEvents.{CoreEvent, running_of};
ghost use Rattle.kube_history.specs.TurnEvents.{finish_event};
ghost use Rattle.kube_core.specs.Cores.{StandsFor};
ghost use Rattle.kube_core.specs.Pendings.{handed_over};
ghost use Rattle.kube_turn.specs.Records.{finish_of, finished_of};
ghost use Rattle.kube_step.specs.Finishes.{AreFinished, AreFinishedFirst, IsActionFor};
ghost use Rattle.kube_step.specs.Policies.{Answers};

use kube_core::Core;
use kube_meta::{Action, List, Moment, NoMemory, ObjectRef, Resource};
use kube_turn::{Finish, Finished};
use std::alloc::Global;
use std::sync::Arc;

/// What the error policy answers for an object that was handed over, whose reconcile failed.
///
/// # Errors
///
/// `NoMemory`, and the policy was not asked.
pub fn ask_policy<K: Drop, P, Ctx: Drop, E>(
    error_policy: &P,
    context: &Arc<Ctx>,
    object: &Arc<K>,
    fault: &E,
) -> Result<Action, NoMemory>
where
    P: Fn(Arc<K>, &E, Arc<Ctx>) -> Action,
    requires { P.IsAlwaysCallable error_policy.now }
    ensures { IfOk result (λ a. Answers P.Fn error_policy.now (arc_value context.now) (arc_value object.now) fault.now a) }
{
    let object = Arc::try_clone(object)?;
    let context = Arc::try_clone(context)?;
    Ok(error_policy(object, fault, context))
}

/// The action after a reconcile ended: its own, or what the error policy answers. One that failed and doesn't run is not
/// asked for again.
///
/// # Errors
///
/// `NoMemory`, and the policy was not asked.
pub fn action_of<K: Resource, P, Ctx: Drop, E: Drop>(
    error_policy: &P,
    context: &Arc<Ctx>,
    object: Option<&Arc<K>>,
    outcome: &Result<Action, E>,
) -> Result<Action, NoMemory>
where
    P: Fn(Arc<K>, &E, Arc<Ctx>) -> Action,
    requires { P.IsAlwaysCallable error_policy.now }
    ensures { IfOk result (λ a. IsActionFor (Answers P.Fn error_policy.now (arc_value context.now)) (option_map arc_value (option_copied object.entry)) outcome.now a) }
{
    match (outcome, object) {
        (Ok(action), _) => Ok(*action),
        (Err(fault), Some(object)) => ask_policy(error_policy, context, object, fault),
        (Err(_), None) => Ok(Action::await_change()),
    }
}

/// Lets a reference run no more, with the action that is taken for it.
fn finish_one<K: Resource, P, Ctx: Drop, E: Drop>(
    core: &mut Core<K>,
    error_policy: &P,
    context: &Arc<Ctx>,
    finish: Finish<K, E>,
    at: Moment,
) -> Result<Finished<K, E>, NoMemory>
where
    P: Fn(Arc<K>, &E, Arc<Ctx>) -> Action,
    requires callable { P.IsAlwaysCallable error_policy.now }
    requires clock { core.old.clock.0 ≤ at.0 }
    ensures clock { OnOk result (core.new.clock ≡ at) }
    ensures writer { core.new.writer ≡ core.old.writer }
    ensures finish { IfOk result (λ g. (g.reference ≡ finish.reference) × (g.outcome ≡ finish.outcome)) }
    ensures action { IfOk result (λ g. (world : CoreWorld K) (es : List (CoreEvent K)) → StandsFor K.type_of K.meta_of world es core.old
        → IsActionFor (Answers P.Fn error_policy.now (arc_value context.now)) (handed_over (running_of es) (reference_of K.type_of finish.reference)) finish.outcome g.action) }
    ensures stands { IfOk result (λ g. (world : CoreWorld K) (es : List (CoreEvent K)) → StandsFor K.type_of K.meta_of world es core.old
        → runs (running_of es) (reference_of K.type_of finish.reference) ≡ true
        → StandsFor K.type_of K.meta_of world (es ++ finish_event at.0 (finished_of K.type_of g) ∷ []) core.new) }
    ensures left { OnErr result (core.new ≡ core.old) }
{
    let Finish { reference, outcome } = finish;
    let action = action_of(error_policy, context, core.running(&reference), &outcome)?;
    core.finish(&reference, outcome.is_ok(), action, at);
    Ok(Finished {
        reference,
        outcome,
        action,
    })
}

/// Lets the references of these finishes run no more, in order, each with the action that is taken for it.
///
/// # Errors
///
/// `NoMemory` where there is none for the list, or for what the error policy is handed; the first of the references run no
/// more then, each with its action, and the others run on.
pub fn finish_all<K: Resource, P, Ctx: Drop, E: Drop>(
    core: &mut Core<K>,
    error_policy: &P,
    context: &Arc<Ctx>,
    alloc: Global,
    finishes: List<Finish<K, E>>,
    at: Moment,
) -> Result<List<Finished<K, E>>, NoMemory>
where
    P: Fn(Arc<K>, &E, Arc<Ctx>) -> Action,
    requires callable { P.IsAlwaysCallable error_policy.now }
    requires clock { core.old.clock.0 ≤ at.0 }
    ensures clock { OnOk result (core.new.clock.0 ≤ at.0) }
    ensures writer { core.new.writer ≡ core.old.writer }
    ensures finished { IfOk result (λ gs. (world : CoreWorld K) (es : List (CoreEvent K)) (h : List (Step K)) (t : PlainTurn) → StandsFor K.type_of K.meta_of world es core.old
        → running_of es ≡ running h → IsValid h t → t.finishes ≡ map (finish_of K.type_of) finishes
        → AreFinished K.type_of (Answers P.Fn error_policy.now (arc_value context.now)) (running h) finishes gs) }
    ensures stands { IfOk result (λ gs. (world : CoreWorld K) (es : List (CoreEvent K)) (h : List (Step K)) (t : PlainTurn) → StandsFor K.type_of K.meta_of world es core.old
        → running_of es ≡ running h → IsValid h t → t.finishes ≡ map (finish_of K.type_of) finishes
        → StandsFor K.type_of K.meta_of world (es ++ map (finish_event at.0) (map (finished_of K.type_of) gs)) core.new) }
    // where memory is wanting, the first of them were done so, and nothing else
    ensures left { OnErr result ((gs : List PlainFinished) × ((world : CoreWorld K) (es : List (CoreEvent K)) (h : List (Step K)) (t : PlainTurn) → StandsFor K.type_of K.meta_of world es core.old
        → running_of es ≡ running h → IsValid h t → t.finishes ≡ map (finish_of K.type_of) finishes
        → AreFinishedFirst K.type_of (Answers P.Fn error_policy.now (arc_value context.now)) (running h) finishes gs
        × StandsFor K.type_of K.meta_of world (es ++ map (finish_event at.0) gs) core.new)) }
{
    let mut finished = List::new(alloc);
    for finish in Vec::from(finishes) {
        let one = finish_one(core, error_policy, context, finish, at)?;
        finished.push(one)?;
    }
    Ok(finished)
}
