//! Objects that pass where a property of theirs changed (kube-runtime's `PredicateFilter`).

ghost use Rattle.std.specs.Prelude.{◌≡◌, ◌-◌, ◌≤◌, ◌∷◌, [], IfOk, OnOk, OnErr, Ok, if◌then◌else◌, nat_lt};
ghost use Rattle.std.specs.Arc.{arc_value};
ghost use Rattle.std.specs.List.{filter};
ghost use Rattle.indexmap.specs.IndexMap.{spare};
ghost use Rattle.kube_streams.specs.Adapts.{IsTaken};
ghost use Rattle.kube_streams.specs.Filters.{Filtered, IsForgotten, JudgedAt, KeepsSettings, SameSights, filter_key, is_fresh as is_fresh_at, passes, sights_in, sights_of, swept, with_sight};

use crate::adapted::{Adapt, Adapted, wait};
use crate::predicate::Predicate;
use indexmap::IndexMap;
use kube_meta::text::copy_option;
use kube_meta::{Moment, NoMemory, Resource, Text};
use kube_watch::{Error, EventStream, StreamFault};
use std::alloc::Global;
use std::collections::VecDeque;
use std::hash::{Hash, Hasher};
use std::marker::Model;
use std::sync::Arc;

/// For how long an object that was seen is remembered (kube-runtime's `PredicateConfig`).
#[derive(Clone, Copy, Debug, PartialEq, Eq)]
pub struct PredicateConfig {
    /// In nanoseconds.
    pub ttl: u64,
}

/// An hour.
impl Default for PredicateConfig {
    fn default() -> PredicateConfig
        ensures { result ≡ record { ttl = 3600000000000 } }
    {
        PredicateConfig {
            ttl: 3_600_000_000_000,
        }
    }
}

impl PredicateConfig {
    /// With another duration, in nanoseconds.
    pub fn ttl(self, nanos: u64) -> PredicateConfig
        ensures { result ≡ record { ttl = nanos } }
    {
        PredicateConfig { ttl: nanos }
    }
}

/// What says which object it is.
#[derive(Debug, Drop)]
struct PredicateCacheKey {
    /// The empty text where it has none.
    name: Text,
    namespace: Option<Text>,
    uid: Option<Text>,
}

impl Model for PredicateCacheKey {
    ghost use Rattle.kube_streams.specs.Filters.{Key};

    ghost Value = { Key };

    ghost view = { λ k. record { name = k.name; namespace = k.namespace; uid = k.uid } };
}

impl PartialEq for PredicateCacheKey {
    ghost use Rattle.std.specs.Cmp.{partial_equiv_from_equiv};
    ghost use Rattle.kube_streams.specs.Filters.{same_key};
    ghost use Rattle.kube_streams.specs.FilterLaws.{same_key_equiv};

    ghost eq = { same_key };

    ghost laws = { partial_equiv_from_equiv same_key_equiv };

    fn eq(&self, other: &PredicateCacheKey) -> bool {
        self.name == other.name && self.namespace == other.namespace && self.uid == other.uid
    }
}

impl Eq for PredicateCacheKey {
    ghost use Rattle.kube_streams.specs.FilterLaws.{same_key_equiv};

    ghost laws = { same_key_equiv };
}

impl Hash for PredicateCacheKey {
    ghost use Rattle.std.specs.Prelude.{◌++◌};
    ghost use Rattle.std.specs.Hash as fed;
    ghost use Rattle.std.specs.Cmp.Rules.{hashing};
    ghost use Rattle.std.proofs.Common.{rules};

    ghost hash_input = { λ k. fed.str k.name ++ (fed.option fed.str k.namespace ++ fed.option fed.str k.uid) };

    ghost respects_eq = { Prim.search (hashing, rules) };

    fn hash<H: Hasher>(&self, state: &mut H) {
        self.name.hash(state);
        self.namespace.hash(state);
        self.uid.hash(state);
    }
}

/// The value that an object had when it was seen last, and when that was.
#[derive(Debug, Drop)]
struct CacheEntry {
    hash: u64,
    last_seen: Moment,
}

impl Model for CacheEntry {
    ghost use Rattle.kube_streams.specs.Filters.{Sight};

    ghost Value = { Sight };

    ghost view = { λ e. record { value = e.hash; seen = e.last_seen.0 } };
}

/// Lets objects pass where a property of theirs changed.
#[derive(Drop)]
pub struct Filter<P> {
    predicate: P,
    cache: IndexMap<PredicateCacheKey, CacheEntry>,
    ttl: u64,
    last_evicted: Moment,
}

impl<P> Model for Filter<P> {
    ghost use Rattle.kube_streams.specs.Filters.{Filtering};

    ghost Value = { Filtering P };

    ghost view = { λ f. record { predicate = f.predicate; kept = f.cache.entries; ttl = f.ttl; evicted = f.last_evicted.0 } };
}

/// What says which object it is.
fn key_of<K: Resource>(alloc: Global, object: &K) -> Result<PredicateCacheKey, NoMemory>
    ensures { IfOk result (λ k. k ≡ filter_key (K.meta_of object.now)) }
{
    let meta = object.meta();
    let name = match &meta.name {
        Some(name) => name.copy(alloc)?,
        None => Text::new(alloc, "")?,
    };
    let namespace = copy_option(alloc, &meta.namespace)?;
    let uid = copy_option(alloc, &meta.uid)?;
    Ok(PredicateCacheKey {
        name,
        namespace,
        uid,
    })
}

/// Whether a sight counts.
fn is_fresh(entry: &CacheEntry, ttl: u64, now: Moment) -> bool
    ensures { result ≡ is_fresh_at ttl now.0 entry.now }
{
    now.0.saturating_sub(entry.last_seen.0) < ttl
}

/// Whether an object with this value passes, by its last sight.
fn is_changed(
    cache: &IndexMap<PredicateCacheKey, CacheEntry>,
    ttl: u64,
    now: Moment,
    key: &PredicateCacheKey,
    value: u64,
) -> bool
    ensures { result ≡ passes ttl now.0 (sights_of cache.now.entries key.now) value }
{
    match cache.get(key) {
        Some(entry) => !(is_fresh(&entry, ttl, now) && entry.hash == value),
        None => true,
    }
}

/// Sees an object, where there is room for one more; whether it passes.
fn see(
    cache: &mut IndexMap<PredicateCacheKey, CacheEntry>,
    ttl: u64,
    now: Moment,
    key: PredicateCacheKey,
    value: u64,
) -> bool
    requires room { 1 ≤ spare cache.old }
    ensures passes { result ≡ passes ttl now.0 (sights_of cache.old.entries key) value }
    ensures seen { SameSights (sights_of cache.new.entries) (with_sight (sights_of cache.old.entries) key (record { value = value; seen = now.0 })) }
{
    let passed = is_changed(cache, ttl, now, &key, value);
    let entry = CacheEntry {
        hash: value,
        last_seen: now,
    };
    let _old = cache.insert(key, entry);
    passed
}

/// Forgets the sights that don't count, if so long passed since that was done last; when it was done last.
fn forget(
    cache: &mut IndexMap<PredicateCacheKey, CacheEntry>,
    ttl: u64,
    last_evicted: Moment,
    now: Moment,
) -> Moment
    ensures kept { cache.new.entries ≡ (if nat_lt (now.0 - last_evicted.0) ttl then cache.old.entries else filter (λ e. is_fresh_at ttl now.0 e.1) cache.old.entries) }
    ensures evicted { result.0 ≡ (if nat_lt (now.0 - last_evicted.0) ttl then last_evicted.0 else now.0) }
    ensures forgotten { IsForgotten ttl now.0 (sights_of cache.old.entries) (sights_of cache.new.entries) }
    ensures room { spare cache.old ≤ spare cache.new }
{
    if now.0.saturating_sub(last_evicted.0) < ttl {
        return last_evicted;
    }
    // no two of its keys are equal
    let _count = cache.len();
    cache.retain(
        |_key: &PredicateCacheKey, entry: &mut CacheEntry| -> bool
            ensures { (result ≡ is_fresh_at ttl now.0 entry.old) × (entry.new ≡ entry.old) }
        { is_fresh(entry, ttl, now) },
    );
    now
}

impl<P> Filter<P> {
    pub(crate) fn new(alloc: Global, predicate: P, config: PredicateConfig) -> Filter<P>
        ensures { result ≡ record { predicate = predicate; kept = []; ttl = config.ttl; evicted = 0 } }
    {
        Filter {
            predicate,
            cache: IndexMap::new(alloc),
            ttl: config.ttl,
            last_evicted: Moment(0),
        }
    }

    // Forgets the sights that don't count, if so long passed since it did that last.
    fn evict(&mut self, now: Moment)
        ensures swept { self.new ≡ swept now.0 self.old }
        ensures forgotten { IsForgotten self.old.ttl now.0 (sights_in self.old) (sights_in self.new) }
    {
        self.last_evicted = forget(&mut self.cache, self.ttl, self.last_evicted, now);
    }

    // Sees an object after that; whether it passes.
    fn see(&mut self, now: Moment, key: PredicateCacheKey, value: u64) -> Result<bool, NoMemory>
        ensures forgotten { OnOk result (IsForgotten self.old.ttl now.0 (sights_in self.old) (sights_in (swept now.0 self.old))) }
        ensures passes { IfOk result (λ b. b ≡ passes self.old.ttl now.0 (sights_in (swept now.0 self.old) key) value) }
        ensures seen { OnOk result (SameSights (sights_in self.new) (with_sight (sights_in (swept now.0 self.old)) key (record { value = value; seen = now.0 }))) }
        ensures settings { KeepsSettings self.old self.new }
        ensures evicted { OnOk result (self.new.evicted ≡ (swept now.0 self.old).evicted) }
        ensures err { OnErr result (self.new ≡ self.old) }
    {
        self.cache.reserve(1)?;
        self.last_evicted = forget(&mut self.cache, self.ttl, self.last_evicted, now);
        Ok(see(&mut self.cache, self.ttl, now, key, value))
    }
}

impl<P> Filter<P> {
    // Whether an object passes.
    fn judge<K: Resource>(
        &mut self,
        alloc: Global,
        now: Moment,
        object: &K,
    ) -> Result<bool, NoMemory>
    where
        P: Predicate<K>,
        requires may { P.may self.old.predicate object.now }
        ensures same { self.new.predicate ≡ self.old.predicate }
        ensures judged { IfOk result (λ passed. JudgedAt P.gives K.meta_of now.0 self.old object.now passed self.new) }
        ensures err { OnErr result (self.new ≡ self.old) }
    {
        match self.predicate.hash_property(object) {
            None => {
                self.evict(now);
                Ok(true)
            }
            Some(value) => {
                let key = key_of(alloc, object)?;
                let passed = self.see(now, key, value)?;
                Ok(passed)
            }
        }
    }

    // Lets an object wait where it passes.
    fn pass<K: Resource>(
        &mut self,
        alloc: Global,
        now: Moment,
        object: Arc<K>,
        waiting: &mut VecDeque<Result<Arc<K>, Error>>,
    ) -> Result<(), NoMemory>
    where
        P: Predicate<K>,
        requires may { P.may self.old.predicate (arc_value object) }
        requires none { waiting.old.items ≡ [] }
        ensures same { self.new.predicate ≡ self.old.predicate }
        ensures passed { OnOk result (Filtered P.gives K.meta_of arc_value now.0 self.old (Ok object) waiting.new.items self.new) }
        ensures err { OnErr result ((self.new ≡ self.old) × (waiting.new.items ≡ [])) }
    {
        waiting.reserve(1)?;
        if self.judge(alloc, now, &*object)? {
            waiting.push_back_reserved(Ok(object));
        }
        Ok(())
    }
}

impl<K: Resource, P: Predicate<K>> Adapt<Arc<K>, Arc<K>> for Filter<P> {
    ghost use Rattle.std.specs.Prelude.{◌≡◌};
    ghost use Rattle.std.specs.Arc.{arc_value};
    ghost use Rattle.kube_streams.specs.Filters.{Filtered};

    ghost takes = { λ now f told given g. Filtered P.gives K.meta_of arc_value now f told given g };

    ghost may = { λ f. (object : K) → P.may f.predicate object };

    fn take(
        &mut self,
        alloc: Global,
        now: Moment,
        told: Result<Arc<K>, Error>,
        waiting: &mut VecDeque<Result<Arc<K>, Error>>,
    ) -> Result<(), StreamFault>
        requires may { (object : K) → P.may self.old.predicate object }
        requires none { waiting.old.items ≡ [] }
        ensures may { (object : K) → P.may self.new.predicate object }
        ensures taken { IsTaken (Filtered P.gives K.meta_of arc_value now.0 self.old told waiting.new.items self.new) ⊥ result }
        ensures err { OnErr result ((self.new ≡ self.old) × (waiting.new.items ≡ [])) }
    {
        match told {
            Ok(object) => self.pass(alloc, now, object, waiting)?,
            Err(error) => wait(waiting, Err(error))?,
        }
        Ok(())
    }
}

/// The stream of the objects that pass (what `WatchStreamExt::predicate_filter` gives).
pub type PredicateFilter<S, P> = Adapted<S, Filter<P>, <S as EventStream>::Item>;
