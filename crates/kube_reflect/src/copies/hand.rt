//! What a writer hands over to a store handle.

use crate::copies::mark::Origin;
use crate::copies::rule::TwoReader;
use kube_meta::Resource;
use rtrb::{Consumer, Producer, Protocol};
use std::alloc::Global;
use std::marker::PhantomData;

/// The name of the writer, and then a reader that is tied to it.
#[derive(Drop)]
pub enum Hand<K: Resource> {
    Name(Origin<K>),
    Tied(TwoReader<K>),
}

/// What follows a name is tied to its writer.
pub struct Links<K: Resource> {
    of: PhantomData<K>,
}

impl<K: Resource> Protocol<Hand<K>> for Links<K> {
    ghost use Rattle.kube_reflect.specs.Hands.{MayFollow};

    ghost allows = { MayFollow };
}

/// The end of the channel that sends.
pub type Giver<K> = Producer<Hand<K>, Global, Links<K>>;

/// The end of the channel that receives.
pub type Taker<K> = Consumer<Hand<K>, Global, Links<K>>;
