//! Watchers of an API (kube-runtime's `watcher`).

ghost use Rattle.std.specs.Prelude.{◌≡◌, []};
ghost use Rattle.kube_watch.specs.Stands.{StandsFor, api_of, config_of, waiting_in};

use crate::config::Config;
use crate::state::State;
use crate::watching::Watcher;
use kube_api::ApiMode;
use kube_meta::{PartialObjectMeta, Resource};
use kube_model::error::Error;
use std::alloc::Global;
use std::collections::VecDeque;

/// What a watcher answers, or its error (`watcher::Result`).
pub type Result<T, E = Error> = std::result::Result<T, E>;

/// A watcher that has made no call.
///
/// Apply a backoff to it (`WatchStreamExt::default_backoff`): a watcher itself goes on asking at each poll, also an API
/// that has just failed.
pub fn watcher<A: ApiMode>(alloc: Global, api: A, config: Config) -> Watcher<A>
    ensures api { api_of result ≡ api }
    ensures config { config_of result ≡ config }
    ensures waiting { waiting_in result ≡ [] }
    ensures stands { StandsFor [] result }
{
    Watcher {
        api,
        config,
        state: State::Empty,
        silent_since: None,
        events: VecDeque::new(alloc),
        error: None,
        spent: false,
    }
}

/// What no other crate can name, so that none can meet `MetadataAlone`.
mod sealed {
    use kube_meta::{PartialObjectMeta, Resource};

    /// What holds the metadata alone.
    pub trait Sealed {}

    impl<K: Resource> Sealed for PartialObjectMeta<K> {}
}

/// Objects of which the metadata alone is held: `PartialObjectMeta`, and no other type.
pub trait MetadataAlone: sealed::Sealed {}

impl<K: Resource> MetadataAlone for PartialObjectMeta<K> {}

/// A watcher of metadata alone, which has made no call (`metadata_watcher`).
pub fn metadata_watcher<A: ApiMode>(alloc: Global, api: A, config: Config) -> Watcher<A>
where
    A::Value: MetadataAlone,
    ensures api { api_of result ≡ api }
    ensures config { config_of result ≡ config }
    ensures waiting { waiting_in result ≡ [] }
    ensures stands { StandsFor [] result }
{
    watcher(alloc, api, config)
}
