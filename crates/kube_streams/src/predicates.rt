//! Predicates of metadata (kube-runtime's `predicates`).

ghost use Rattle.std.specs.Prelude.{◌≡◌};
ghost use Rattle.kube_streams.specs.Properties.{annotations_value, finalizers_value, generation_value, hashed, labels_value, list_bytes, map_bytes, text_bytes, version_value};
ghost use Rattle.std.specs.Prelude.{[], unwrap_or};

use crate::fold::Fold;
use kube_meta::{List, Resource, Text, TextMap};
use std::hash::Hasher;

/// The value of a map under a tag; an absent one counts as empty.
fn map_value(tag: u8, map: &Option<TextMap>) -> u64
    ensures { result ≡ hashed tag (map_bytes (unwrap_or map.now [])) }
{
    let mut fold = Fold::new(tag);
    match map {
        Some(map) => fold.map(map),
        None => fold.number(0),
    }
    fold.finish()
}

/// The generation, which the API server counts up where the desired state changes. None where there is none. The
/// object of a `Delete` may have the generation that was seen before, and is then kept back.
pub fn generation<K: Resource>(obj: &K) -> Option<u64>
    ensures { result ≡ generation_value (K.meta_of obj.now) }
{
    match obj.meta().generation {
        Some(generation) => {
            let mut fold = Fold::new(1);
            fold.number(generation.cast_unsigned());
            Some(fold.finish())
        }
        None => None,
    }
}

/// The resource version, which changes with each change of the object. None where there is none.
pub fn resource_version<K: Resource>(obj: &K) -> Option<u64>
    ensures { result ≡ version_value (K.meta_of obj.now) }
{
    match &obj.meta().resource_version {
        Some(version) => {
            let mut fold = Fold::new(2);
            fold.text(version.as_str());
            Some(fold.finish())
        }
        None => None,
    }
}

/// The labels.
pub fn labels<K: Resource>(obj: &K) -> Option<u64>
    ensures { result ≡ labels_value (K.meta_of obj.now) }
{
    Some(map_value(3, &obj.meta().labels))
}

/// The annotations.
pub fn annotations<K: Resource>(obj: &K) -> Option<u64>
    ensures { result ≡ annotations_value (K.meta_of obj.now) }
{
    Some(map_value(4, &obj.meta().annotations))
}

/// The finalizers, in their order.
pub fn finalizers<K: Resource>(obj: &K) -> Option<u64>
    ensures { result ≡ finalizers_value (K.meta_of obj.now) }
{
    let mut fold = Fold::new(5);
    match &obj.meta().finalizers {
        Some(finalizers) => fold.list(finalizers.as_slice()),
        None => fold.number(0),
    }
    Some(fold.finish())
}
