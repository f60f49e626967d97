//! Streams of events: adaptors, predicates.
#![tactic(auto)]

pub mod adapted;
pub mod complete;
pub mod event_decode;
pub mod event_modify;
mod fold;
pub mod laws;
pub mod predicate;
pub mod predicate_filter;
pub mod predicates;
pub mod reflect;
pub mod settled;
pub mod split;
pub mod stream_backoff;
pub mod watch_ext;

pub use adapted::{Adapt, Adapted};
pub use complete::{OnComplete, on_complete};
pub use event_decode::EventDecode;
pub use event_modify::EventModify;
pub use kube_backoff::{
    Backoff, ConstantBackoff, DefaultBackoff, ExponentialBackoff, LinearBackoff, ResetTimerBackoff,
    StopBackoff,
};
pub use kube_watch::{EventStream, StreamFault};
pub use predicate::{Combine, Fallback, FnPredicate, Predicate};
pub use predicate_filter::{PredicateConfig, PredicateFilter};
pub use reflect::Reflect;
pub use settled::Settled;
pub use split::split_result;
pub use stream_backoff::StreamBackoff;
pub use watch_ext::WatchStreamExt;
