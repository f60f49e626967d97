//! Controllers that are fed by streams and read a store (kube-runtime's `Controller::for_stream`).

use crate::parts::Parts;
use kube_asks::{Asks, RootSource};
use kube_meta::{Moment, Resource};
use std::marker::Model;

pub mod build;
pub mod related;
pub mod run;
pub mod streams;
mod turns;

/// A controller whose root is fed: a stream gives its objects, or a queue its requests, and a handle reads the store in which the
/// objects are. It goes turn by turn.
///
/// It differs from `kube_control::Controller` in what it reads. That one lists and watches an API, and keeps what is stored
/// itself; this one keeps no object, and each look-up, each reload and each shown store is one read of its handle. Whoever
/// writes the store publishes it. So `run` takes what waits, since a read may wait. Nothing is taken before the handle told
/// that the store is ready, which it is asked in each turn until then; where its writer ended before, the run ends with that
/// error.
///
/// Contracts tell what it stands for: the history of its turns, each with what the handle answered in it.
#[derive(Drop)]
pub struct FedController<R: RootSource, S, B> {
    pub(crate) asks: Asks<R, S, B>,
    pub(crate) parts: Parts<R::Object>,
    /// The moment of the last turn, 0 before the first.
    pub(crate) last: Moment,
    /// Whether a trace of it has ended: no turn follows.
    pub(crate) ended: bool,
    /// Whether a run of it failed for good.
    pub(crate) spent: bool,
}

impl<R: RootSource, S, B> Model for FedController<R, S, B> {
    ghost use Rattle.kube_feed.specs.Fed.{Feeding};

    ghost Value = { Feeding R S B R.Object R.Object.DynamicType };

    ghost view = { λ c. record { asks = c.asks; reader = c.parts.reader; pending = c.parts.pending; is_ready = c.parts.ready; is_shut = c.parts.shut; last = c.last; has_ended = c.ended; is_spent = c.spent } };
}
