//! Places of stored items, in the order of their references.

ghost use Rattle.std.specs.Prelude.{◌≡◌, ◌<◌, map, length, if◌then◌else◌, None, true, IfOk};
ghost use Rattle.std.specs.Option.{option_cmp};
ghost use Rattle.std.specs.Ordering.{ordering_then};
ghost use Rattle.kube_meta.specs.Keys.{reference_of};
ghost use Rattle.kube_reflect.specs.Indexes.{text_cmp, type_cmp, reference_cmp, sought, references, closed_up, AreAll, IsIndex, IsSearched, IsLookUp};
ghost use Rattle.kube_reflect.specs.Views.{all_stored};

use crate::steps::Steps;
use crate::stored::Stored;
use kube_meta::{NoMemory, ObjectRef, Resource, Text};
use std::alloc::Global;
use std::cmp::Ordering;
use std::marker::Brand;
use std::sync::ledger::{Blank, Ledger};

/// None comes before any, where the second counts; else the second is none.
fn compare_namespaces(a: &Option<Text>, b: &Option<Text>, within: bool) -> Ordering
    ensures { result ≡ option_cmp text_cmp a.now (if within then b.now else None) }
{
    match (a, b) {
        (None, Some(_)) if within => Ordering::Less,
        (None, _) => Ordering::Equal,
        (Some(a), Some(b)) if within => a.as_str().cmp(b.as_str()),
        (Some(_), _) => Ordering::Greater,
    }
}

/// By group, version, kind and plural.
fn compare_types<K: Resource>(a: &K::DynamicType, b: &K::DynamicType) -> Ordering
    ensures { result ≡ type_cmp (K.type_of a.now) (K.type_of b.now) }
{
    let by_kind = K::kind(a).cmp(K::kind(b));
    let by_version = K::version(a).cmp(K::version(b));
    K::group(a).cmp(K::group(b)).then(by_version.then(by_kind.then(K::plural(a).cmp(K::plural(b)))))
}

/// By name and then by type.
fn compare_names<K: Resource>(a: &ObjectRef<K>, b: &ObjectRef<K>) -> Ordering
    ensures { result ≡ ordering_then (text_cmp a.now.name b.now.name) (type_cmp (K.type_of a.now.dyntype) (K.type_of b.now.dyntype)) }
{
    match a.name.as_str().cmp(b.name.as_str()) {
        Ordering::Equal => compare_types::<K>(&a.dyntype, &b.dyntype),
        decided => decided,
    }
}

/// Which comes first: a reference, or the one that is sought, `within` its namespace or without it.
fn compare<K: Resource>(a: &ObjectRef<K>, b: &ObjectRef<K>, within: bool) -> Ordering
    ensures { result ≡ reference_cmp (reference_of K.type_of a.now) (sought within (reference_of K.type_of b.now)) }
{
    match compare_namespaces(&a.namespace, &b.namespace, within) {
        Ordering::Equal => compare_names(a, b),
        decided => decided,
    }
}

/// Which of two items comes first, by their references, where both are there.
fn compare_items<K: Resource>(a: Option<&Stored<K>>, b: Option<&Stored<K>>) -> Ordering {
    match (a, b) {
        (Some(a), Some(b)) => compare(&*a.reference, &*b.reference, true),
        _ => Ordering::Equal,
    }
}

/// Where the place of a reference stands, or where it would. A step is one place that is looked at.
pub fn look_up<K: Resource, L: Ledger>(
    items: &[Stored<K>],
    places: &[usize],
    reference: &ObjectRef<K>,
    within: bool,
    steps: &mut Steps<L>,
) -> Result<usize, usize>
    requires index { IsIndex (references (all_stored K.type_of items.now)) places.now }
    ensures searched { IsSearched (references (all_stored K.type_of items.now)) places.now (sought within (reference_of K.type_of reference.now)) result }
    ensures cost { IsLookUp (length items.now) steps.old steps.new }
{
    let mut low = 0;
    let mut high = places.len();
    while low < high {
        let middle = low + (high - low) / 2;
        steps.tick();
        match compare(&*items[places[middle]].reference, reference, within) {
            Ordering::Less => low = middle + 1,
            Ordering::Equal => return Ok(middle),
            Ordering::Greater => high = middle,
        }
    }
    Err(low)
}

/// The same by a counter that is dropped.
fn look_up_by<K: Resource, L: Ledger>(
    blank: Blank,
    items: &[Stored<K>],
    places: &[usize],
    reference: &ObjectRef<K>,
) -> Result<usize, usize>
    requires name { blank.name ≡ L.name }
    requires parts { blank.parts ≡ L.parts }
    requires some { 0 < blank.parts }
    requires index { IsIndex (references (all_stored K.type_of items.now)) places.now }
    ensures { IsSearched (references (all_stored K.type_of items.now)) places.now (reference_of K.type_of reference.now) result }
{
    let mut steps: Steps<L> = Steps::new(blank);
    look_up(items, places, reference, true, &mut steps)
}

/// Where the place of a reference stands, or where it would.
pub fn position<K: Resource>(
    items: &[Stored<K>],
    places: &[usize],
    reference: &ObjectRef<K>,
) -> Result<usize, usize>
    requires index { IsIndex (references (all_stored K.type_of items.now)) places.now }
    ensures { IsSearched (references (all_stored K.type_of items.now)) places.now (reference_of K.type_of reference.now) result }
{
    look_up_by::<K, Brand>(Blank::new(1), items, places, reference)
}

/// A place after another one was closed up.
fn closed(place: usize, other: usize) -> usize
    ensures { result ≡ closed_up place other }
{
    if place < other { other - 1 } else { other }
}

/// Closes up behind a place.
pub fn close_up(places: &mut [usize], place: usize)
    ensures { places.new ≡ map (closed_up place) places.old }
{
    for i in 0..places.len() {
        places[i] = closed(place, places[i]);
    }
}

/// All places, in the order of the references there.
pub fn in_order<K: Resource>(alloc: Global, items: &[Stored<K>]) -> Result<Vec<usize>, NoMemory>
    ensures { IfOk result (λ v. AreAll (length items.now) v.items) }
{
    let mut places = Vec::with_capacity(alloc, items.len())?;
    for place in 0..items.len() {
        places.push(place)?;
    }
    places.sort_unstable_by(|a, b| compare_items(items.get(*a), items.get(*b)));
    Ok(places)
}

/// Whether no reference stands at two of all places, and those at the places rise.
pub fn rise<K: Resource>(items: &[Stored<K>], places: &[usize]) -> bool
    requires { AreAll (length items.now) places.now }
    ensures index { result ≡ true → IsIndex (references (all_stored K.type_of items.now)) places.now }
    ensures all { IsIndex (references (all_stored K.type_of items.now)) places.now → result ≡ true }
{
    for i in 1..places.len() {
        let before = &*items[places[i - 1]].reference;
        match compare(before, &*items[places[i]].reference, true) {
            Ordering::Less => {}
            Ordering::Equal | Ordering::Greater => return false,
        }
    }
    true
}
