//! The takes of a turn.

ghost use Rattle.std.specs.Prelude.{◌≡◌, ◌≤◌, ◌++◌, ◌∷◌, [], List, IfOk, OnOk, OnErr, not, is_some};
ghost use Rattle.std.specs.List.{AllByRecursion, cons_option, filter_map};
ghost use Rattle.kube_model.specs.History.{Taken as PlainTaken};
ghost use Rattle.kube_model.specs.Raw.{grown_by};
ghost use Rattle.kube_history.specs.CoreWorld.{CoreWorld};
ghost use Rattle.kube_history.specs.CoreEvents.{CoreEvent};
ghost use Rattle.kube_history.specs.Legal.{AreLegal};
ghost use Rattle.kube_history.specs.TurnEvents.{takes};
ghost use Rattle.kube_core.specs.Cores.{StandsFor};
ghost use Rattle.kube_turn.specs.Views.{taken_of};
ghost use Rattle.kube_step.specs.HandOvers.{handed_by};
ghost use Rattle.kube_step.specs.Takes.{AreHandedOrLost, IsSomething, taken_so_far};

use crate::reconciler::Reconciler;
use kube_core::Core;
use kube_meta::{List, Moment, NoMemory, Resource};
use kube_turn::Taken;
use std::alloc::Global;
use std::sync::Arc;

/// Whether nothing was taken.
pub fn is_nothing<K: Resource>(taken: &Taken<K>) -> bool
    ensures { result ≡ not (is_some (taken_of K.type_of taken.now)) }
{
    matches!(taken, Taken::Nothing)
}

/// Hands what was taken to the reconciler, where it was found.
///
/// # Errors
///
/// `NoMemory`, also where the reconciler answers so; it tells nothing of it then.
pub fn hand_over<K: Resource, Ctx: Drop, Rc: Reconciler<K, Ctx>>(
    reconciler: &mut Rc,
    alloc: Global,
    context: &Arc<Ctx>,
    taken: &Taken<K>,
) -> Result<(), NoMemory>
    ensures handed { OnOk result (Rc.handed reconciler.new ≡ grown_by (Rc.handed reconciler.old) (handed_by (cons_option (taken_of K.type_of taken.now) []))) }
    ensures err { OnErr result (Rc.handed reconciler.new ≡ Rc.handed reconciler.old) }
{
    match taken {
        Taken::Started {
            reference,
            object,
            ..
        } => {
            let object = Arc::try_clone(object)?;
            let context = Arc::try_clone(context)?;
            reconciler.start(alloc, reference, object, context)
        }
        Taken::NotFound { .. } => Ok(()),
        Taken::Nothing => Ok(()),
    }
}

/// Hands over what was taken and adds it to these. Memory for that is taken first, so that nothing is handed over that is
/// not among them.
///
/// # Errors
///
/// `NoMemory`, also where the reconciler answers so; it was handed nothing then.
pub fn add_one<K: Resource, Ctx: Drop, Rc: Reconciler<K, Ctx>>(
    reconciler: &mut Rc,
    alloc: Global,
    context: &Arc<Ctx>,
    taken: &mut Vec<Taken<K>>,
    one: Taken<K>,
) -> Result<(), NoMemory>
    ensures added { OnOk result (taken.new.items ≡ taken.old.items ++ one ∷ []) }
    ensures handed { OnOk result (Rc.handed reconciler.new ≡ grown_by (Rc.handed reconciler.old) (handed_by (cons_option (taken_of K.type_of one) []))) }
    ensures err { OnErr result (Rc.handed reconciler.new ≡ Rc.handed reconciler.old) }
{
    taken.reserve(1)?;
    hand_over(reconciler, alloc, context, &one)?;
    taken.push_reserved(one);
    Ok(())
}

/// Takes what is due and held back by nothing, one after another, and hands over each that is found.
///
/// # Errors
///
/// `NoMemory` where there is none for a take, for what the reconciler is handed, or for the list; at least one take was
/// left to hand over then, which what decides may count among those that run.
pub fn take_all<K: Resource, Ctx: Drop, Rc: Reconciler<K, Ctx>>(
    core: &mut Core<K>,
    reconciler: &mut Rc,
    alloc: Global,
    context: &Arc<Ctx>,
    now: Moment,
) -> Result<List<Taken<K>>, NoMemory>
    requires clock { core.old.clock.0 ≤ now.0 }
    ensures clock { OnOk result (core.new.clock.0 ≤ now.0) }
    ensures writer { core.new.writer ≡ core.old.writer }
    ensures took { IfOk result (λ ts. (world : CoreWorld K) (es : List (CoreEvent K)) → StandsFor K.type_of K.meta_of world es core.old
        → StandsFor K.type_of K.meta_of world (es ++ takes now.0 (filter_map (taken_of K.type_of) ts)) core.new) }
    ensures handed { IfOk result (λ ts. Rc.handed reconciler.new ≡ grown_by (Rc.handed reconciler.old) (handed_by (filter_map (taken_of K.type_of) ts))) }
    ensures something { IfOk result (λ ts. AllByRecursion (IsSomething K.type_of) ts) }
    // where memory is wanting, takes that were legal were handed over, and no more; and one more was legal
    ensures lost { OnErr result ((ts : List (PlainTaken K)) × (Rc.handed reconciler.new ≡ grown_by (Rc.handed reconciler.old) (handed_by ts))
        × ((world : CoreWorld K) (es : List (CoreEvent K)) → StandsFor K.type_of K.meta_of world es core.old → (left : PlainTaken K) × AreLegal world es (taken_so_far now.0 (ts ++ left ∷ [])))) }
    // those were taken, or those and one more
    ensures left { OnErr result ((ts : List (PlainTaken K)) × (made : List (PlainTaken K)) × (Rc.handed reconciler.new ≡ grown_by (Rc.handed reconciler.old) (handed_by ts)) × AreHandedOrLost ts made
        × ((world : CoreWorld K) (es : List (CoreEvent K)) → StandsFor K.type_of K.meta_of world es core.old → StandsFor K.type_of K.meta_of world (es ++ taken_so_far now.0 made) core.new)) }
{
    let mut taken = Vec::new(alloc);
    for _take in 0..core.waiting_len() {
        let one = core.take(alloc, now)?;
        if is_nothing(&one) {
            return Ok(List::from(taken));
        }
        add_one(reconciler, alloc, context, &mut taken, one)?;
    }
    core.take(alloc, now)?;
    Ok(List::from(taken))
}
