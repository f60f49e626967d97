//! Reflectors of streams (kube-runtime's `reflector::reflector`).

ghost use Rattle.std.specs.Prelude.{◌≡◌, None};

use crate::reflecting::Reflector;
use crate::store::Writer;
use kube_meta::Resource;
use kube_watch::{Event, EventStream};
use std::sync::Arc;

/// A stream that applies the events of another one to a writer.
///
/// Where the writer takes subscribers, a slow one holds back all: once it has left as many offered references as it may,
/// the reflector is not ready until it takes one, and neither the other subscribers nor what reads this stream go on. So
/// poll each subscriber, or let it leave; make room for what may come at once, as a whole list at its `InitDone`.
pub fn reflector<K: Resource, St: EventStream<Item = Event<Arc<K>>>>(
    writer: Writer<K>,
    stream: St,
) -> Reflector<K, St>
    ensures { result ≡ record { writer = writer; stream = stream; held = None; fault = None } }
{
    Reflector::new(writer, stream)
}
