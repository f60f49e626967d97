//! The asks of a turn.

ghost use Rattle.std.specs.Prelude.{◌≡◌, ◌<◌, ◌+◌, ◌^◌, ◌∷◌, [], List, length, map, option_map, IfOk, IfErr, IfSome, OnOk, OnErr, None};
ghost use Rattle.kube_model.specs.World.{World};
ghost use Rattle.kube_model.specs.History.{Exchange, Message, Step, Turn};
ghost use Rattle.kube_model.specs.Queue.{QueueEvent};
ghost use Rattle.kube_model.specs.Requests.{requests_of_exchanges};
ghost use Rattle.kube_model.specs.Takes.{Running};
ghost use Rattle.kube_model.specs.Turns.{next_source};
ghost use Rattle.kube_history.specs.CoreWorld.{CoreWorld};
ghost use Rattle.kube_history.specs.TurnCalls.{with_requests};
ghost use Rattle.kube_core.specs.Pendings.{Parts, Stands};
ghost use Rattle.kube_turn.specs.Views.{exchange_of};
ghost use Rattle.kube_asks.specs.Kept.{total};
ghost use Rattle.kube_step.specs.Asked.{BringsNothing};
ghost use Rattle.kube_feed.specs.Asked.{AreAsked, AreEndedBy, IsAsked, MayAsk};

use kube_asks::{AskFault, Asks, Backoff, RelatedSet, RootSource};
use kube_core::Pending;
use kube_core::requests::request_each;
use kube_meta::{List, Moment, NoMemory, Resource};
use kube_turn::SourceExchange;
use std::alloc::Global;

/// Requests what an exchange requests, and gives it back.
fn give<K: Resource>(
    pending: &mut Pending<K>,
    alloc: Global,
    exchange: SourceExchange<K>,
    now: Moment,
) -> Result<SourceExchange<K>, NoMemory>
    ensures same { IfOk result (λ x. x ≡ exchange) }
    ensures stands { OnOk result ((core : CoreWorld K) (qs : List (QueueEvent Message)) (rs : List (Running K)) → Stands K.type_of core pending.old qs rs
        → Stands K.type_of core pending.new (with_requests qs now.0 (requests_of_exchanges now.0 (exchange_of K.type_of exchange ∷ []))) rs) }
    ensures brings { OnErr result (BringsNothing (exchange_of K.type_of exchange) → ⊥) }
{
    let requests = pending.reserve_copies(alloc, exchange.requests.as_slice())?;
    request_each(pending, requests, now);
    Ok(exchange)
}

/// Makes the next exchange of a turn, where one is left to make, and requests what it requests.
fn ask_one<R: RootSource, S: RelatedSet<R::Object>, B: Backoff>(
    asks: &mut Asks<R, S, B>,
    pending: &mut Pending<R::Object>,
    alloc: Global,
    now: Moment,
) -> Result<Option<SourceExchange<R::Object>>, AskFault>
    requires few { length (S.feeds asks.old.related) + 1 < 2 ^ 32 }
    requires root { R.can_poll asks.old.root }
    requires related { S.can_poll asks.old.related }
    ensures root { R.can_poll asks.new.root }
    ensures related { S.can_poll asks.new.related }
    ensures feeds { S.feeds asks.new.related ≡ S.feeds asks.old.related }
    ensures kind { R.kind asks.new.root ≡ R.kind asks.old.root }
    ensures uses_up { IfOk result (λ o. IfSome o (λ x. total asks.new.kept.left < total asks.old.kept.left)) }
    ensures asked { IfOk result (λ o. (w : World R.Object B) (h : List (Step R.Object)) (t : Turn) (qs : List (QueueEvent Message)) (xs : List (Exchange R.Object)) → t.at ≡ now.0
        → MayAsk R.RootSource S.RelatedSet B.Backoff R.Object.Resource w h t qs xs asks.old pending.old
        → IsAsked R.RootSource S.RelatedSet B.Backoff R.Object.Resource w h t qs xs asks.old (option_map (exchange_of R.Object.type_of) o) asks.new pending.new) }
    ensures ended { IfErr result (λ f. (w : World R.Object B) (h : List (Step R.Object)) (t : Turn) (qs : List (QueueEvent Message)) (xs : List (Exchange R.Object)) → t.at ≡ now.0
        → MayAsk R.RootSource S.RelatedSet B.Backoff R.Object.Resource w h t qs xs asks.old pending.old
        → AreEndedBy R.RootSource S.RelatedSet w h t f xs asks.old.root asks.old.related asks.new.root asks.new.related) }
{
    let Some(exchange) = asks.next(alloc, now)? else {
        return Ok(None);
    };
    let exchange = give(pending, alloc, exchange, now)?;
    Ok(Some(exchange))
}

/// Makes the exchanges of a turn, until none is left to make, and requests what each requests.
///
/// # Errors
///
/// `Unnamed` where an item of the next one must become a reference and has no name; `NoMemory` where a source is left to ask,
/// or where the last exchange brought something.
pub fn ask_all<R: RootSource, S: RelatedSet<R::Object>, B: Backoff>(
    asks: &mut Asks<R, S, B>,
    pending: &mut Pending<R::Object>,
    alloc: Global,
    now: Moment,
) -> Result<List<SourceExchange<R::Object>>, AskFault>
    requires few { length (S.feeds asks.old.related) + 1 < 2 ^ 32 }
    requires root { R.can_poll asks.old.root }
    requires related { S.can_poll asks.old.related }
    ensures root { R.can_poll asks.new.root }
    ensures related { S.can_poll asks.new.related }
    ensures feeds { S.feeds asks.new.related ≡ S.feeds asks.old.related }
    ensures kind { R.kind asks.new.root ≡ R.kind asks.old.root }
    ensures asked { IfOk result (λ xs. (w : World R.Object B) (h : List (Step R.Object)) (t : Turn) (qs : List (QueueEvent Message)) → t.at ≡ now.0
        → MayAsk R.RootSource S.RelatedSet B.Backoff R.Object.Resource w h t qs [] asks.old pending.old
        → AreAsked R.RootSource S.RelatedSet B.Backoff R.Object.Resource w h t qs asks.old (map (exchange_of R.Object.type_of) xs) asks.new pending.new
        × (next_source w h t (map (exchange_of R.Object.type_of) xs) ≡ None)) }
    ensures ended { IfErr result (λ f. (w : World R.Object B) (h : List (Step R.Object)) (t : Turn) (qs : List (QueueEvent Message)) → t.at ≡ now.0
        → MayAsk R.RootSource S.RelatedSet B.Backoff R.Object.Resource w h t qs [] asks.old pending.old
        → AreEndedBy R.RootSource S.RelatedSet w h t f [] asks.old.root asks.old.related asks.new.root asks.new.related) }
{
    let mut all = Vec::new(alloc);
    loop {
        let has_place = asks.make_place(&mut all, now)?;
        if !has_place {
            return Ok(List::from(all));
        }
        match ask_one(asks, pending, alloc, now)? {
            Some(exchange) => all.push_reserved(exchange),
            None => return Ok(List::from(all)),
        }
    }
}
