//! One of the two copies.

use crate::copies::law::{Entry, Law};
use crate::copies::mark::Mark;
use crate::made::Made;
use kube_meta::Resource;
use kube_watch::Event;
use logbook::Seen;
use std::alloc::Global;
use std::sync::Arc;

/// What readers read: what the events of a list made, whether the end is in it, and the list.
#[derive(Drop)]
pub struct Copied<K: Resource> {
    pub alloc: Global,
    pub dyntype: Arc<K::DynamicType>,
    pub made: Made<K>,
    pub has_ended: bool,
    pub mark: Mark<K>,
}

/// A pending operation: an entry, or the name of the list up to here.
#[derive(Drop)]
pub enum Op<K: Drop> {
    Add(Event<Arc<K>>),
    End,
    Name(Mark<K>),
}

/// What the two copies have in common. No value of it is made.
pub struct State<K: Resource> {
    pub dyntype: K::DynamicType,
    pub made: Made<K>,
    pub has_ended: bool,
    pub seen: Seen<Entry<K>, u64, Law>,
}
