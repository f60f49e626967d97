//! What an API answers (`kube::core::{ObjectList, WatchEvent}`).

use kube_meta::{List, Text, TextMap};
use kube_model::error::Status;
use std::sync::Arc;

/// One page of a list (Kubernetes API concept "retrieving large results sets in chunks").
#[derive(Drop)]
pub struct Page<K: Drop> {
    pub items: List<Arc<K>>,
    /// The token with which the list goes on, absent or empty where this page is the last.
    pub token: Option<Text>,
    /// The version of the list.
    pub version: Option<Text>,
}

/// An event of a watch (Kubernetes API concept "efficient detection of changes").
#[derive(Drop)]
pub enum WatchEvent<K: Drop> {
    Added(Arc<K>),
    Modified(Arc<K>),
    Deleted(Arc<K>),
    Bookmark(Bookmark),
    Error(Status),
}

/// The version that a watch has reached (Kubernetes API concept "watch bookmarks").
#[derive(Drop)]
pub struct Bookmark {
    pub version: Text,
    /// Those of the bookmark's object. The key `k8s.io/initial-events-end` ends the initial events.
    pub annotations: TextMap,
}
