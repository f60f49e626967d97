//! What goes through the ring of an initializer.

ghost use Rattle.kube_reflect.specs.Fates.{MayFollow};

use crate::delayed_init::InitDropped;
use crate::delayed_init::law::Law;
use crate::delayed_init::outcome::Outcome;
use logbook::Seen;
use rtrb::{Consumer, Producer, Protocol};
use std::alloc::Global;
use std::marker::PhantomData;

/// The name of the book, and then the outcome.
#[derive(Drop)]
pub enum Fate<T> {
    Name(Seen<Result<T, InitDropped>, u64, Law<T>>),
    Set(Outcome<T>),
}

/// What follows a name is of its book.
pub struct Links<T> {
    of: PhantomData<T>,
}

impl<T> Protocol<Fate<T>> for Links<T> {
    ghost allows = { MayFollow };
}

/// The end of the channel that sets.
pub type Giver<T> = Producer<Fate<T>, Global, Links<T>>;

/// The end of the channel that looks.
pub type Taker<T> = Consumer<Fate<T>, Global, Links<T>>;
