//! Appliers: controllers that are fed by a queue of requests (kube-runtime's `applier`).

ghost use Rattle.std.specs.Prelude.{◌≡◌, [], None, IfOk};
ghost use Rattle.kube_model.specs.World.{World};
ghost use Rattle.kube_fed.specs.declared.feeding.Standing.TheVariants.{Open};
ghost use Rattle.kube_step.specs.Controllers.{IsWorldOfAsks};
ghost use Rattle.kube_feed.specs.Fed.{StandsFor};

use crate::controller::FedController;
use crate::controller::build::fed;
use kube_asks::{Backoff, NoRelated, RelatedSet, RootSource};
use kube_fed::QueueRoot;
use kube_meta::{Moment, NoMemory, Resource, TypeInfo};
use kube_reflect::Store;
use kube_turn::{Config, ReconcileRequest};
use kube_watch::EventStream;
use std::alloc::Global;

/// No backoff: a queue's errors pause nothing, and so it is never asked.
#[derive(Clone, Copy, Debug, PartialEq, Eq)]
pub struct NoBackoff;

impl Backoff for NoBackoff {
    ghost use Rattle.std.specs.Prelude.{None};

    ghost delay = { λ _ _. None };

    ghost delayed = { λ b _. b };

    ghost restarted = { λ b. b };

    fn next(&mut self, _now: Moment) -> Option<u64> {
        None
    }

    fn reset(&mut self) {}
}

/// A controller that is fed by a queue of requests, and looks the objects up by a handle. The end of its queue is a graceful
/// shutdown, and an error of it pauses nothing. It has no other sources.
pub type Applier<K, St> = FedController<QueueRoot<K, St>, NoRelated, NoBackoff>;

/// An applier over a queue of requests, whose objects are looked up by a handle (kube-runtime's `applier`), with this debounce and
/// this limit. Its objects are of the handle's type.
///
/// # Errors
///
/// `NoMemory` where there is none for what is known of the type.
pub fn applier<K: Resource, St: EventStream<Item = ReconcileRequest<K>>>(
    alloc: Global,
    store: Store<K>,
    queue: St,
    config: Config,
) -> Result<Applier<K, St>, NoMemory>
    ensures stands { IfOk result (λ a. (w : World K NoBackoff) → IsWorldOfAsks ⟦<QueueRoot<K, St> as RootSource>⟧ ⟦<NoRelated as RelatedSet<K>>⟧ ⟦<NoBackoff as Backoff>⟧ K.Resource w a.asks
        → w.limit ≡ config.concurrency → w.debounce ≡ config.debounce
        → StandsFor ⟦<QueueRoot<K, St> as RootSource>⟧ ⟦<NoRelated as RelatedSet<K>>⟧ ⟦<NoBackoff as Backoff>⟧ K.Resource w [] a) }
    ensures root { IfOk result (λ a. a.asks.root ≡ record { feeding = record { stream = queue; standing = Open }; kind = store.kind }) }
    ensures reader { IfOk result (λ a. a.reader ≡ store) }
{
    let dyntype = store.dyntype().share(alloc)?;
    let root = QueueRoot::new(queue, dyntype);
    Ok(fed(alloc, root, store, NoBackoff, config))
}
