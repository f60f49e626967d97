//! Laws of asks: each is the contract of a function that does nothing.

ghost use Rattle.std.specs.Prelude.{◌≡◌, ℕ, List, [], None, false};
ghost use Rattle.kube_model.specs.World.{World};
ghost use Rattle.kube_model.specs.History.{Dated, Exchange, Turn, Step, exchanges};
ghost use Rattle.kube_model.specs.Named.{AreNamed};
ghost use Rattle.kube_model.specs.Shutdowns.{is_shut, asks_shutdown};
ghost use Rattle.kube_model.specs.Traces.{EachIsNext};
ghost use Rattle.kube_model.specs.Turns.{next_source};
ghost use Rattle.kube_watch.specs.Calls.{version_of};
ghost use Rattle.kube_watch.specs.Stands.{exchanges_in};
ghost use Rattle.kube_asks.specs.Asking.{AreNextAsked};
ghost use Rattle.kube_asks.specs.Determined.{AnswersOnce, AreDetermined, IsDetermined, IsOneWay};
ghost use Rattle.kube_asks.specs.Roots.{IsRootPoll, RootWatching, has_name};

use crate::mapper::Mapper;
use crate::related::Related;
use crate::related_list::RelatedList;
use crate::related_watch::RelatedWatch;
use crate::set::RelatedSet;
use crate::sets::{Beside, NoRelated, One};
use kube_api::ApiMode;
use kube_meta::Resource;

/// Asks one after another, until none is left, are those of a turn after a history.
pub fn asks_one_after_another<O, B>()
    ensures { (w : World O B) (h : List (Step O)) (t : Turn) → is_shut h ≡ false → asks_shutdown t.shutdown ≡ false → (xs : List (Exchange O))
        → AreNextAsked w t.budget (exchanges h) [] t.at xs → EachIsNext w h t [] xs × (next_source w h t xs ≡ None) }
{}

/// The objects of an exchange of a root that lists and watches have names, where they must become references.
pub fn polled_roots_are_named<A: ApiMode, B>()
    ensures { (w : World A.Value B) → w.is_named ≡ has_name A.Value.meta_of → (own : List (Dated A.Value)) (now : ℕ) (old new : RootWatching A A.Value) (x : Exchange A.Value)
        → IsRootPoll A.Value.meta_of (record { moves = A.moves; talk = A.talk; faults = A.faults; version = version_of A.Value.meta_of }) own now old x new → AreNamed w (exchanges_in own) x }
{}

/// A related source that lists and watches determines what is exchanged with it, over an API that calls move one way and with a
/// mapper that answers one thing of an object.
pub fn watched_is_determined<K: Resource, A: ApiMode, M: Mapper<A::Value, K>>()
    ensures { IsOneWay A.moves → AnswersOnce M.answers → IsDetermined ⟦<RelatedWatch<A, M> as Related<K>>⟧ }
{}

/// Sets of sources that determine what is exchanged with them do so too: none, one, a list, and two sets beside each other.
pub fn sets_are_determined<K: Resource, T: Related<K>, S: RelatedSet<K>, U: RelatedSet<K>>()
    ensures none { AreDetermined ⟦<NoRelated as RelatedSet<K>>⟧ }
    ensures one { IsDetermined T.Related → AreDetermined ⟦<One<T> as RelatedSet<K>>⟧ }
    ensures list { IsDetermined T.Related → AreDetermined ⟦<RelatedList<T> as RelatedSet<K>>⟧ }
    ensures beside { AreDetermined S.RelatedSet → AreDetermined U.RelatedSet → AreDetermined ⟦<Beside<S, U> as RelatedSet<K>>⟧ }
{}
