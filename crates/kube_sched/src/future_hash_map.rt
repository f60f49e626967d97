//! Futures by key (kube-runtime's `FutureHashMap`).

ghost use Rattle.std.specs.Prelude.{◌≡◌, ◌≢◌, ◌<◌, ◌↔◌, [], length, is_some, IfOk, OnErr};
ghost use Rattle.std.specs.List.{IsDistinct};
ghost use Rattle.std.specs.Map.{keys_of, lookup, remove_entry};
ghost use Rattle.indexmap.specs.IndexMap.{insert_entry, index_map_len};
ghost use Rattle.kube_sched.specs.Futures.{PlacePolled, FirstPolled, MapPolled, AllPending, CanPollAll};

use crate::told_future::ToldFuture;
use futures::task::{Context, Poll};
use indexmap::IndexMap;
use kube_meta::{NoMemory, Polled};
use std::alloc::Global;
use std::hash::Hash;
use std::marker::Model;

/// Futures by key, in order of insertion, of which no two have equal keys.
///
/// A contract sees the list of keys with their futures, in that order. A call that takes a future has the condition
/// that it may be polled until it is ready.
#[derive(Drop)]
pub struct FutureHashMap<K: Eq + Hash, F: ToldFuture> {
    futures: IndexMap<K, F>,
}

impl<K: Eq + Hash, F: ToldFuture> Model for FutureHashMap<K, F> {
    ghost use Rattle.std.specs.Prelude.{List};
    ghost use Rattle.kube_sched.specs.Futures.{CanPollAll};

    ghost Value = { List (K × F) };

    ghost view = { λ m. m.futures.entries };

    ghost invariant = { λ m. CanPollAll F.can_poll m.futures.entries };
}

/// Polls the future at a place.
fn poll_place<K: Eq + Hash + Drop, F: ToldFuture>(
    futures: &mut IndexMap<K, F>,
    place: usize,
    cx: &mut Context<'_>,
) -> Option<F::Output>
    requires place { place < index_map_len futures.old }
    requires can { CanPollAll F.can_poll futures.old.entries }
    ensures polled { PlacePolled F.told F.gives F.can_poll place futures.old.entries futures.new.entries result }
{
    let (_key, future) = futures.pair_mut(place);
    match future.poll_told(cx) {
        Poll::Ready(value) => Some(value),
        Poll::Pending => None,
    }
}

impl<K: Eq + Hash + Drop, F: ToldFuture> FutureHashMap<K, F> {
    /// A map without futures.
    pub fn new(alloc: Global) -> FutureHashMap<K, F>
        ensures empty { result ≡ [] }
    {
        FutureHashMap {
            futures: IndexMap::new(alloc),
        }
    }

    /// Puts a future at a key. The old one comes back, whose place the new one takes; else it goes last.
    ///
    /// # Errors
    ///
    /// `NoMemory` where there is none for one future more; the map is then as before, and the future is dropped.
    pub fn insert(&mut self, _alloc: Global, key: K, future: F) -> Result<Option<F>, NoMemory>
        requires { F.can_poll future }
        ensures old { IfOk result (λ old. old ≡ lookup (K.eq key) self.old) }
        ensures put { IfOk result (λ old. self.new ≡ insert_entry K.eq self.old key future) }
        ensures err { OnErr result (self.new ≡ self.old) }
        ensures unique { IsDistinct K.eq (keys_of self.new) }
    {
        Ok(self.futures.insert(key, future)?)
    }

    /// Whether there is a future at an equal key.
    pub fn contains_key(&self, key: &K) -> bool
        ensures { result ≡ is_some (lookup (K.eq key.now) self.now) }
    {
        self.futures.contains_key(key)
    }

    /// How many futures there are.
    pub fn len(&self) -> usize
        ensures len { result ≡ length self.now }
        ensures unique { IsDistinct K.eq (keys_of self.now) }
    {
        self.futures.len()
    }

    // Takes out the future at an equal key.
    pub(crate) fn remove(&mut self, key: &K) -> Option<F>
        ensures value { result ≡ lookup (K.eq key.now) self.old }
        ensures removed { self.new ≡ remove_entry (K.eq key.now) self.old }
        ensures unique { IsDistinct K.eq (keys_of self.new) }
    {
        self.futures.shift_remove(key)
    }

    // The value of the first ready future in order of insertion, which is removed.
    pub(crate) fn poll_first(&mut self, cx: &mut Context<'_>) -> Option<F::Output>
        ensures polled { FirstPolled F.told F.gives self.old self.new result }
        ensures unique { IsDistinct K.eq (keys_of self.new) }
    {
        let count = self.futures.len();
        for place in 0..count {
            if let Some(value) = poll_place(&mut self.futures, place, cx) {
                self.futures.shift_remove_index(place);
                return Some(value);
            }
        }
        None
    }

    /// The first ready future in order of insertion, which is removed.
    ///
    /// It answers `Ready(None)` where the map is empty, and `NotReady` where each future told so in this call.
    pub fn poll_next(&mut self, cx: &mut Context<'_>) -> Polled<Option<F::Output>>
        ensures polled { MapPolled F.told F.gives self.old self.new result }
        ensures empty { (result ≡ Polled.Ready None) ↔ (self.old ≡ []) }
        ensures not_ready { (result ≡ Polled.NotReady) ↔ ((self.old ≢ []) × AllPending F.told F.gives self.old self.new) }
    {
        let count = self.len();
        match self.poll_first(cx) {
            Some(value) => Polled::Ready(Some(value)),
            None => {
                if count == 0 {
                    Polled::Ready(None)
                } else {
                    Polled::NotReady
                }
            }
        }
    }
}
