//! The asks of a turn.

ghost use Rattle.std.specs.Prelude.{◌≡◌, ◌<◌, ◌≤◌, ◌+◌, ◌^◌, ◌++◌, ◌∷◌, [], List, length, map, option_map, IfOk, IfErr, IfSome, OnOk, OnErr, None};
ghost use Rattle.kube_model.specs.World.{World};
ghost use Rattle.kube_model.specs.History.{Exchange, Step, Turn};
ghost use Rattle.kube_model.specs.Turns.{next_source};
ghost use Rattle.kube_history.specs.CoreWorld.{CoreWorld};
ghost use Rattle.kube_history.specs.CoreEvents.{CoreEvent, Answered, answers_in};
ghost use Rattle.kube_history.specs.Legal.{MayBeAnswered};
ghost use Rattle.kube_core.specs.Cores.{HasSameHandles, Parts, StandsFor as CoreStands, with_room};
ghost use Rattle.kube_turn.specs.Views.{exchange_of};
ghost use Rattle.kube_asks.specs.Kept.{total};
ghost use Rattle.kube_step.specs.Asked.{AreAsked, AreEndedBy, AreGivenUntil, BringsNothing, IsAsked, MayAsk};

use kube_asks::{AskFault, Asks, Backoff, RelatedSet, RootSource};
use kube_core::Core;
use kube_meta::{List, Moment, NoMemory, Resource};
use kube_turn::SourceExchange;
use std::alloc::Global;

/// Gives an exchange to what decides, and back.
fn give<K: Resource>(
    core: &mut Core<K>,
    alloc: Global,
    exchange: SourceExchange<K>,
    now: Moment,
) -> Result<SourceExchange<K>, NoMemory>
    requires { core.old.clock.0 ≤ now.0 }
    ensures same { IfOk result (λ x. x ≡ exchange) }
    ensures stands { OnOk result ((world : CoreWorld K) (es : List (CoreEvent K)) → CoreStands K.type_of K.meta_of world es core.old → MayBeAnswered world (answers_in es) (exchange_of K.type_of exchange)
        → CoreStands K.type_of K.meta_of world (es ++ Answered now.0 (exchange_of K.type_of exchange) ∷ []) core.new) }
    ensures clock { OnOk result (core.new.clock ≡ now) }
    ensures handles { HasSameHandles core.old.writer core.new.writer }
    ensures err { OnErr result (core.new ≡ with_room core.old core.new.pending.schedule.spare) }
    ensures brings { OnErr result (BringsNothing (exchange_of K.type_of exchange) → ⊥) }
{
    core.answer(alloc, &exchange, now)?;
    Ok(exchange)
}

/// Makes the next exchange of a turn, where one is left to make, and gives it to what decides.
fn ask_one<R: RootSource, S: RelatedSet<R::Object>, B: Backoff>(
    asks: &mut Asks<R, S, B>,
    core: &mut Core<R::Object>,
    alloc: Global,
    now: Moment,
) -> Result<Option<SourceExchange<R::Object>>, AskFault>
    requires few { length (S.feeds asks.old.related) + 1 < 2 ^ 32 }
    requires root { R.can_poll asks.old.root }
    requires related { S.can_poll asks.old.related }
    requires clock { core.old.clock.0 ≤ now.0 }
    ensures root { R.can_poll asks.new.root }
    ensures related { S.can_poll asks.new.related }
    ensures feeds { S.feeds asks.new.related ≡ S.feeds asks.old.related }
    ensures clock { OnOk result (core.new.clock.0 ≤ now.0) }
    ensures handles { HasSameHandles core.old.writer core.new.writer }
    ensures uses_up { IfOk result (λ o. IfSome o (λ x. total asks.new.kept.left < total asks.old.kept.left)) }
    ensures asked { IfOk result (λ o. (w : World R.Object B) (h : List (Step R.Object)) (t : Turn) (xs : List (Exchange R.Object)) (es : List (CoreEvent R.Object)) → t.at ≡ now.0
        → MayAsk R.RootSource S.RelatedSet B.Backoff R.Object.Resource w h t xs es asks.old core.old
        → IsAsked R.RootSource S.RelatedSet B.Backoff R.Object.Resource w h t xs es asks.old (option_map (exchange_of R.Object.type_of) o) asks.new core.new) }
    ensures left { IfErr result (λ f. (w : World R.Object B) (h : List (Step R.Object)) (t : Turn) (xs : List (Exchange R.Object)) (es : List (CoreEvent R.Object)) → t.at ≡ now.0
        → MayAsk R.RootSource S.RelatedSet B.Backoff R.Object.Resource w h t xs es asks.old core.old
        → AreGivenUntil R.RootSource S.RelatedSet R.Object.Resource w h t f es xs asks.old.root asks.old.related asks.new.root asks.new.related core.new) }
{
    let Some(exchange) = asks.next(alloc, now)? else {
        return Ok(None);
    };
    let exchange = give(core, alloc, exchange, now)?;
    Ok(Some(exchange))
}

/// Makes the exchanges of a turn, until none is left to make, and gives each to what decides.
///
/// # Errors
///
/// `Unnamed` where an item of the next one must become a reference and has no name; `NoMemory` where a source is left to ask,
/// or where the last exchange brought something. What decides was given the exchanges that were made then; where memory was
/// wanting, maybe not the last.
pub fn ask_all<R: RootSource, S: RelatedSet<R::Object>, B: Backoff>(
    asks: &mut Asks<R, S, B>,
    core: &mut Core<R::Object>,
    alloc: Global,
    now: Moment,
) -> Result<List<SourceExchange<R::Object>>, AskFault>
    requires few { length (S.feeds asks.old.related) + 1 < 2 ^ 32 }
    requires root { R.can_poll asks.old.root }
    requires related { S.can_poll asks.old.related }
    requires clock { core.old.clock.0 ≤ now.0 }
    ensures root { R.can_poll asks.new.root }
    ensures related { S.can_poll asks.new.related }
    ensures feeds { S.feeds asks.new.related ≡ S.feeds asks.old.related }
    ensures clock { OnOk result (core.new.clock.0 ≤ now.0) }
    ensures handles { HasSameHandles core.old.writer core.new.writer }
    ensures asked { IfOk result (λ xs. (w : World R.Object B) (h : List (Step R.Object)) (t : Turn) (es : List (CoreEvent R.Object)) → t.at ≡ now.0
        → MayAsk R.RootSource S.RelatedSet B.Backoff R.Object.Resource w h t [] es asks.old core.old
        → AreAsked R.RootSource S.RelatedSet B.Backoff R.Object.Resource w h t es asks.old (map (exchange_of R.Object.type_of) xs) asks.new core.new
        × (next_source w h t (map (exchange_of R.Object.type_of) xs) ≡ None)) }
    ensures ended { IfErr result (λ f. (w : World R.Object B) (h : List (Step R.Object)) (t : Turn) (es : List (CoreEvent R.Object)) → t.at ≡ now.0
        → MayAsk R.RootSource S.RelatedSet B.Backoff R.Object.Resource w h t [] es asks.old core.old
        → AreEndedBy R.RootSource S.RelatedSet w h t f core.new.writer.kept [] asks.old.root asks.old.related asks.new.root asks.new.related) }
    ensures left { IfErr result (λ f. (w : World R.Object B) (h : List (Step R.Object)) (t : Turn) (es : List (CoreEvent R.Object)) → t.at ≡ now.0
        → MayAsk R.RootSource S.RelatedSet B.Backoff R.Object.Resource w h t [] es asks.old core.old
        → AreGivenUntil R.RootSource S.RelatedSet R.Object.Resource w h t f es [] asks.old.root asks.old.related asks.new.root asks.new.related core.new) }
{
    let mut all = Vec::new(alloc);
    loop {
        let has_place = asks.make_place(&mut all, now)?;
        if !has_place {
            return Ok(List::from(all));
        }
        match ask_one(asks, core, alloc, now)? {
            Some(exchange) => all.push_reserved(exchange),
            None => return Ok(List::from(all)),
        }
    }
}
