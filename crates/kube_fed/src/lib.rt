//! Sources that are fed by streams: roots, the queue of an applier, related sources.
#![tactic(auto)]

mod exchanges;
pub mod feeding;
pub mod laws;
pub mod queue_root;
pub mod related_stream;
pub mod stream_root;

pub use feeding::{Feeding, Standing};
pub use queue_root::QueueRoot;
pub use related_stream::RelatedStream;
pub use stream_root::StreamRoot;
