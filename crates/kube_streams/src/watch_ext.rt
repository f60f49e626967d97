//! What can be made of any stream of events (kube-runtime's `WatchStreamExt`).

ghost use Rattle.std.specs.Prelude.{◌≡◌, [], false, true, None};
ghost use Rattle.kube_backoff.specs.Backoffs.{default_backoff};

use crate::adapted::{Adapted, ObjectOf, OfObject};
use crate::event_decode::{Decode, EventDecode};
use crate::event_modify::EventModify;
use crate::predicate_filter::{Filter, PredicateConfig, PredicateFilter};
use crate::reflect::Reflect;
use crate::settled::{Settle, Settled};
use crate::stream_backoff::{State, StreamBackoff};
use kube_backoff::{Backoff, DefaultBackoff};
use kube_meta::Resource;
use kube_reflect::{Reflector, Writer};
use kube_watch::EventStream;
use std::alloc::Global;

/// What can be made of a stream.
pub trait WatchStreamExt: EventStream {
    /// All that the stream gives, with a pause of the default backoff after each error.
    final fn default_backoff(self) -> StreamBackoff<Self, DefaultBackoff>
    where
        Self: Sized,
        ensures { result ≡ record { stream = self; backoff = default_backoff; state = State.Awake; fault = None } }
    {
        StreamBackoff::new(self, DefaultBackoff::default())
    }

    /// All that the stream gives, with a pause after each error.
    final fn backoff<B: Backoff>(self, b: B) -> StreamBackoff<Self, B>
    where
        Self: Sized,
        ensures { result ≡ record { stream = self; backoff = b; state = State.Awake; fault = None } }
    {
        StreamBackoff::new(self, b)
    }

    /// The objects of `Apply` and `InitApply`, those of a list as they come.
    final fn applied_objects(self, alloc: Global) -> EventDecode<Self>
    where
        Self: Sized,
        Self::Item: OfObject,
        ensures { result ≡ record { stream = self; adapt = record { deletes = false }; waiting = []; fault = None } }
    {
        Adapted::new(alloc, self, Decode::new(false))
    }

    /// The objects of `Apply`, `InitApply` and `Delete`.
    final fn touched_objects(self, alloc: Global) -> EventDecode<Self>
    where
        Self: Sized,
        Self::Item: OfObject,
        ensures { result ≡ record { stream = self; adapt = record { deletes = true }; waiting = []; fault = None } }
    {
        Adapted::new(alloc, self, Decode::new(true))
    }

    /// The objects of `Apply`, and those of a list at its `InitDone`.
    final fn settled_objects(self, alloc: Global) -> Settled<Self>
    where
        Self: Sized,
        Self::Item: OfObject,
        ensures { result ≡ record { stream = self; adapt = []; waiting = []; fault = None } }
    {
        Adapted::new(alloc, self, Settle::new(alloc))
    }

    /// The events with their objects changed by `f`.
    final fn modify<F: FnMut(&mut ObjectOf<Self>) + Drop>(self, f: F) -> EventModify<Self, F>
    where
        Self: Sized,
        Self::Item: OfObject,
        ensures { result ≡ record { stream = self; f = f; fault = None } }
    {
        EventModify::new(self, f)
    }

    /// The objects of which a property changed, by a predicate, and the errors.
    ///
    /// A deleted object is judged like any other, so a predicate that looks at what a deletion leaves alone, as the
    /// generation or the labels, keeps the deletion back. Where deletions must come through take `resource_version`; where
    /// something is to be done before an object goes, use a finalizer.
    final fn predicate_filter<P>(
        self,
        alloc: Global,
        p: P,
        config: PredicateConfig,
    ) -> PredicateFilter<Self, P>
    where
        Self: Sized,
        ensures { result ≡ record { stream = self; adapt = record { predicate = p; kept = []; ttl = config.ttl; evicted = 0 }; waiting = []; fault = None } }
    {
        Adapted::new(alloc, self, Filter::new(alloc, p, config))
    }

    /// The events, each applied to the writer first.
    final fn reflect<K: Resource>(self, writer: Writer<K>) -> Reflect<Self, K>
    where
        Self: Sized,
        ensures { result ≡ record { stream = self; writer = writer; fault = None } }
    {
        Reflect::new(self, writer)
    }

    /// The events, each applied to the writer and offered to its subscribers first. A subscriber that lags behind by all
    /// its room holds the stream back.
    final fn reflect_shared<K: Resource>(self, writer: Writer<K>) -> Reflector<K, Self>
    where
        Self: Sized,
        ensures { result ≡ record { writer = writer; stream = self; held = None; fault = None } }
    {
        Reflector::new(writer, self)
    }
}

impl<S: EventStream> WatchStreamExt for S {}
