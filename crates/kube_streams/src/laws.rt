//! Laws of the definitions: each is the contract of a function that does nothing.

ghost use Rattle.std.specs.Prelude.{◌≡◌, ◌↔◌, ℕ, Bool, List, Option, Some, None, map};
ghost use Rattle.std.specs.Arc.{arc_value};
ghost use Rattle.std.specs.declared.sync.Arc.{Arc as arc_data};
ghost use Rattle.std.specs.declared.alloc.Global.{Global};
ghost use Rattle.kube_watch.specs.declared.event.Event.{Event as event_data};
ghost use Rattle.kube_watch.specs.Streams.{Answer as answer_data};
ghost use Rattle.kube_watch.specs.Asking.{Said};
ghost use Rattle.kube_streams.specs.Adapts.{Adapting, GivenSoFar, NeverFall, Polled};
ghost use Rattle.kube_streams.specs.Applies.{AppliedSoFar, Applying};
ghost use Rattle.kube_streams.specs.Completes.{CompletedSoFar, Completing, OnlyEnds};
ghost use Rattle.kube_streams.specs.Filters.{Filtering, Judgement, FilteredSoFar, JudgedInTurn, PassedWithoutForgetting, Passing, Showing, Sights, passing};
ghost use Rattle.kube_streams.specs.InOrder.{AskedInTurn, PassedOn, PolledInTurn};
ghost use Rattle.kube_streams.specs.Modifies.{ModifiedSoFar, Modifying};
ghost use Rattle.kube_streams.specs.Pauses.{Pausing};
ghost use Rattle.kube_streams.specs.Properties.{FallsBack, combined};

use crate::adapted::Adapt;
use crate::complete::OnComplete;
use crate::event_modify::EventModify;
use crate::predicate::Predicate;
use crate::predicate_filter::PredicateFilter;
use crate::reflect::Reflect;
use crate::stream_backoff::StreamBackoff;
use kube_backoff::Backoff;
use kube_meta::Resource;
use kube_watch::{Event, EventStream};
use std::sync::Arc;

/// However a stream that is made of another one is polled, at whatever moments and with whatever fuel: what it gave, and
/// what waits, is what waited at first and all that the answers of the other one give, in order.
pub fn given_so_far<S: EventStream, J: Drop, T: Adapt<S::Item, J>>()
    ensures { (a b : Adapting S T J) (ps : List (ℕ × ℕ × answer_data J)) → Polled (Said S.polls S.told) T.takes T.unnamed a ps b → b.fault ≡ None
        → GivenSoFar (Said S.polls S.told) T.takes T.unnamed a ps b }
{}

/// However a stream is asked whose answers are passed on, at whatever moments and with whatever fuel: what was passed on is
/// all that its answers give, in order.
pub fn passed_on_in_order<S: EventStream>()
    ensures { (s r : S) (ps : List (ℕ × ℕ × answer_data S.Item)) → AskedInTurn (Said S.polls S.told) s ps r → PassedOn (Said S.polls S.told) s ps r }
{}

/// However a `StreamBackoff` is polled, at whatever moments and with whatever fuel, in its pauses and after it gave up too:
/// what it gave is all that the answers of its stream give, in order.
pub fn stream_backoff_in_order<S: EventStream, B: Backoff>()
    ensures { (a b : Pausing S B) (ps : List (ℕ × ℕ × answer_data S.Item)) → PolledInTurn ⟦<StreamBackoff<S, B> as EventStream>⟧.polls a ps b
        → PassedOn (Said S.polls S.told) a.stream ps b.stream }
{}

/// However an `EventModify` is polled, at whatever moments and with whatever fuel: what it gave is all that the answers of
/// its stream give, in order, each event with its object changed by one call of the closure, from the closure as the call
/// before left it.
pub fn event_modify_in_order<T: Drop, S: EventStream<Item = Event<T>>, F: FnMut(&mut T) + Drop>()
    ensures { (a b : Modifying S F) (ps : List (ℕ × ℕ × answer_data (event_data T))) → PolledInTurn ⟦<EventModify<S, F> as EventStream>⟧.polls a ps b
        → ModifiedSoFar F.FnMut (Said S.polls S.told) a ps b }
{}

/// However a `Reflect` is polled, at whatever moments and with whatever fuel: its writer is the first one with each event
/// that was given applied, in order; and where it answered no fault, what it gave is all that the answers of its stream give,
/// in order.
pub fn reflect_in_order<K: Resource, S: EventStream<Item = Event<Arc<K>>>>()
    ensures { (a b : Applying K S) (ps : List (ℕ × ℕ × answer_data (event_data (arc_data K Global)))) → PolledInTurn ⟦<Reflect<S, K> as EventStream>⟧.polls a ps b
        → AppliedSoFar arc_value K.meta_of (Said S.polls S.told) a ps b }
{}

/// However an `OnComplete` is polled, at whatever moments and with whatever fuel: what it gave is all that the answers of its
/// stream give, in order; where it answered the end the closure was called and is gone, and else it is still there.
pub fn on_complete_in_order<S: EventStream, F: FnOnce() + Drop>()
    ensures { (a b : Completing S F) (ps : List (ℕ × ℕ × answer_data S.Item)) → PolledInTurn ⟦<OnComplete<S, F> as EventStream>⟧.polls a ps b
        → CompletedSoFar F.FnOnce (Said S.polls S.told) a ps b }
{}

/// Once an `OnComplete` answered the end, which took its closure, every later poll answers the end and changes nothing,
/// whatever its stream would answer: so that isn't asked again.
pub fn on_complete_is_fused<S: EventStream, F: FnOnce() + Drop>()
    ensures { (a b : Completing S F) (ps : List (ℕ × ℕ × answer_data S.Item)) → a.fault ≡ None → a.f ≡ None
        → PolledInTurn ⟦<OnComplete<S, F> as EventStream>⟧.polls a ps b → OnlyEnds a ps b }
{}

/// Two values combined are none exactly where both are.
pub fn combined_is_none_where_both_are()
    ensures { (a b : Option ℕ) → (combined a b ≡ None) ↔ ((a ≡ None) × (b ≡ None)) }
{}

/// Where the first predicate gives a value, that is given; where it gives none, what the second gives.
pub fn falls_back_where_there_is_none<K, A: Predicate<K>, B: Predicate<K>>()
    ensures first { (a : A) (b : B) (object : K) (value : ℕ) → ((v : Option ℕ) → A.gives a object v → v ≡ Some value)
        → (given : Option ℕ) → FallsBack (A.gives a object) (B.gives b object) given → given ≡ Some value }
    ensures second { (a : A) (b : B) (object : K) → ((v : Option ℕ) → A.gives a object v → v ≡ None)
        → (given : Option ℕ) → FallsBack (A.gives a object) (B.gives b object) given → B.gives b object given }
{}

/// Over moments that never fall, which objects pass a filter, with the property or without it, is the same whatever sights
/// that don't count it forgets before each of them.
pub fn forgetting_changes_nothing()
    ensures { (ttl from : ℕ) (sights : Sights) (showings : List Showing) (bs : List Bool) → NeverFall from (map (λ (s : Showing). s.at) showings)
        → Passing ttl sights showings bs → bs ≡ passing ttl sights showings }
{}

/// However a filter judges objects, one after another at moments that never fall: those pass that would if it forgot no
/// sight.
pub fn filter_passes_as_if_it_forgot_nothing<K: Resource, P: Predicate<K>>()
    ensures { (from : ℕ) (f g : Filtering P) (js : List (Judgement K)) → NeverFall from (map (λ (j : Judgement K). j.at) js)
        → JudgedInTurn P.gives K.meta_of f js g → PassedWithoutForgetting P.gives K.meta_of f js }
{}

/// However the stream of a filter is polled, at moments that never fall and with whatever fuel: what it gave, and what
/// waits, is what waited at first and then, in order, each error that its stream gave and each of its objects that would
/// pass if the filter forgot no sight.
pub fn filtered_in_order<K: Resource, S: EventStream<Item = Arc<K>>, P: Predicate<K>>()
    ensures { (from : ℕ) (a b : Adapting S (Filtering P) (arc_data K Global)) (ps : List (ℕ × ℕ × answer_data (arc_data K Global))) → NeverFall from (map (λ p. p.0) ps)
        → PolledInTurn ⟦<PredicateFilter<S, P> as EventStream>⟧.polls a ps b → b.fault ≡ None
        → FilteredSoFar P.gives K.meta_of arc_value (Said S.polls S.told) a ps b }
{}
