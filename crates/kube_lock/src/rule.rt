//! The rule of the lock's table, and what each kind of step on it tells.

use crate::kept::Kept;
use crate::view::View;
use atomic_table::{Join, Play, Seat, Shared, Split, TableRule};
use std::marker::PhantomData;
use std::snapshot::Snapshot;

/// The rule of a table with three words and one slot. Word 0 is the next ticket, word 1 the ticket served, and word 2
/// the length of the history.
pub struct LockRule<C> {
    of: PhantomData<C>,
}

impl<C: Kept> TableRule<Option<C>, View<C::Entry, C::Opening>, Snapshot<C>> for LockRule<C> {
    ghost use Rattle.kube_lock.specs.Views.{root};
    ghost use Rattle.kube_lock.specs.Rule.{IsRuled};

    ghost holds = { λ key. IsRuled C.entries C.number C.opened C.legal (C.opened key.value) };

    ghost first = { λ key. root (C.opened key.value) };
}

/// A ticket is drawn.
pub struct Draws<C> {
    of: PhantomData<C>,
}

impl<C: Kept> Play<Option<C>, View<C::Entry, C::Opening>> for Draws<C> {
    ghost use Rattle.kube_lock.specs.Steps.{Drew};

    ghost then = { Drew };
}

/// The ticket served is looked at. A seat that has it holds the slot from this step on.
pub struct Looks<C> {
    of: PhantomData<C>,
}

impl<C: Kept> Play<Option<C>, View<C::Entry, C::Opening>> for Looks<C> {
    ghost use Rattle.kube_lock.specs.Steps.{Looked};

    ghost then = { Looked C.entries C.number C.opened C.legal };
}

/// The list of what lies in the held slot becomes the history.
pub struct Commits<C> {
    of: PhantomData<C>,
}

impl<C: Kept> Play<Option<C>, View<C::Entry, C::Opening>> for Commits<C> {
    ghost use Rattle.kube_lock.specs.Steps.{Committed};

    ghost then = { Committed C.entries };
}

/// The next ticket is served, and the slot given back.
pub struct Releases<C> {
    of: PhantomData<C>,
}

impl<C: Kept> Play<Option<C>, View<C::Entry, C::Opening>> for Releases<C> {
    ghost use Rattle.kube_lock.specs.Steps.{Released};

    ghost then = { Released };
}

/// A new seat gets the number that is the count of those given.
pub struct Numbers;

impl<E, P> Split<View<E, P>> for Numbers {
    ghost use Rattle.kube_lock.specs.Views.{counted, numbered};

    ghost left = { counted };

    ghost right = { numbered };
}

/// A new seat, without a number, knows what was seen.
pub struct Copies;

impl<E, P> Split<View<E, P>> for Copies {
    ghost use Rattle.kube_lock.specs.Views.{copied};

    ghost left = { λ v. v };

    ghost right = { copied };
}

/// A seat takes in another.
pub struct Takes;

impl<E, P> Join<View<E, P>> for Takes {
    ghost use Rattle.kube_lock.specs.Views.{joined_in, spent};

    ghost both = { joined_in };

    ghost spent = { spent };
}

/// The words and the slot, which seats share.
pub type Board<C, E, P> = Shared<Option<C>, View<E, P>, Snapshot<C>, LockRule<C>>;

/// A seat at it.
pub type Place<C, E, P> = Seat<Option<C>, View<E, P>>;
