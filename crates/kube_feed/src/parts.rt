//! What decides in a controller that reads a store.

ghost use Rattle.std.specs.Prelude.{◌≡◌, []};
ghost use Rattle.kube_history.specs.CoreWorld.{CoreWorld};
ghost use Rattle.kube_core.specs.Pendings.{Stands};

use kube_core::Pending;
use kube_meta::Resource;
use kube_reflect::Store;
use kube_turn::Config;
use std::alloc::Global;

/// What decides in a controller that reads a store: the handle that it reads by, what waits and runs, whether the handle told
/// that the store is ready, and whether shutdown was asked or given up.
///
/// What waits and runs is that of a controller's core; a store stands in the place of the core's own.
#[derive(Drop)]
pub struct Parts<K: Resource> {
    pub(crate) reader: Store<K>,
    pub(crate) pending: Pending<K>,
    pub(crate) ready: bool,
    pub(crate) shut: bool,
}

/// The same where nothing waits and nothing runs, with this debounce and this limit.
pub fn emptied<K: Resource>(parts: Parts<K>, alloc: Global, config: Config) -> Parts<K>
    ensures stands { (core : CoreWorld K) → core.limit ≡ config.concurrency → core.debounce ≡ config.debounce → Stands K.type_of core result.pending [] [] }
    ensures rest { result ≡ record parts { pending = result.pending } }
{
    Parts {
        pending: Pending::new(alloc, config),
        ..parts
    }
}
