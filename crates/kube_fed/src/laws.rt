//! Laws of sources that are fed by streams: each is the contract of a function that does nothing.

ghost use Rattle.std.specs.Prelude.{◌≡◌, ℕ, List};
ghost use Rattle.std.specs.Arc.{arc_value};
ghost use Rattle.kube_model.specs.World.{World};
ghost use Rattle.kube_model.specs.History.{Exchange};
ghost use Rattle.kube_model.specs.Named.{AreNamed};
ghost use Rattle.kube_model.specs.Streams.{IsStreamed};
ghost use Rattle.kube_watch.specs.Asking.{Said};
ghost use Rattle.kube_asks.specs.Determined.{AnswersOnce, IsDetermined};
ghost use Rattle.kube_asks.specs.Roots.{has_name};
ghost use Rattle.kube_fed.specs.Determined.{MovesOneWay};
ghost use Rattle.kube_fed.specs.Fed.{IsFedPoll};
ghost use Rattle.kube_fed.specs.declared.feeding.Feeding.{Feeding};

use crate::related_stream::RelatedStream;
use kube_asks::{Mapper, Related};
use kube_meta::Resource;
use kube_watch::EventStream;
use std::sync::Arc;

/// The objects of an exchange of a root that a stream feeds have names, where they must become references.
pub fn streamed_roots_are_named<K: Resource, St: EventStream<Item = Arc<K>>, B>()
    ensures { (w : World K B) → w.is_named ≡ has_name K.meta_of → (own : List (Exchange K)) (now : ℕ) (old new : Feeding St) (x : Exchange K)
        → IsFedPoll (Said St.polls St.told) arc_value (has_name K.meta_of) IsStreamed now old x new → AreNamed w own x }
{}

/// A related source that a stream feeds determines what is exchanged with it, over a stream that polls move one way and with a
/// mapper that answers one thing of an object.
pub fn fed_is_determined<
    K: Resource,
    V: Resource,
    St: EventStream<Item = Arc<V>>,
    M: Mapper<V, K>,
>()
    ensures { MovesOneWay (Said St.polls St.told) → AnswersOnce M.answers → IsDetermined ⟦<RelatedStream<V, St, M> as Related<K>>⟧ }
{}
