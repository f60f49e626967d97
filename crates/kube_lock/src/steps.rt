//! The kinds of step. Two more are plain calls of a table: the slot that a seat holds is exchanged for none, which takes
//! the value out, and for the value, which puts it back.

ghost use Rattle.std.specs.Prelude.{◌≡◌, ℕ, List, ◌<◌, ◌^◌, [], ◌∷◌, ◌++◌, length, Some, None, false, true, IsSome, IfSome};
ghost use Rattle.std.specs.Bool.{OnTrue, OnFalse};
ghost use Rattle.kube_lock.specs.Steps.{IsHolding, IsTold};
ghost use Rattle.kube_lock.specs.Seats.{IsOf, IsIdle};
ghost use Rattle.kube_lock.specs.Views.{with_ticket, served, grown, released, counted, numbered, copied, joined_in};

use crate::kept::Kept;
use crate::rule::{Board, Commits, Copies, Draws, Looks, Numbers, Place, Releases, Takes};

// Draws a ticket.
pub(crate) fn draw<C: Kept>(
    board: &Board<C, C::Entry, C::Opening>,
    seat: &mut Place<C, C::Entry, C::Opening>,
) -> u64
    requires table { IsOf board.now.table_id seat.old }
    requires idle { IsIdle seat.old }
    requires number { IsSome seat.old.me.0.number }
    ensures table { IsOf board.now.table_id seat.new }
    ensures drew { seat.new.me ≡ (with_ticket seat.old.me.0 result, []) }
{
    board.fetch_add::<Draws<C>>(seat, 0, 1)
}

// Looks whether the ticket is served. Where it is, the seat holds the slot.
pub(crate) fn look<C: Kept>(
    board: &Board<C, C::Entry, C::Opening>,
    seat: &mut Place<C, C::Entry, C::Opening>,
    ticket: u64,
) -> bool
    requires table { IsOf board.now.table_id seat.old }
    requires empty { seat.old.me.1 ≡ [] }
    requires idle { seat.old.me.0.holds ≡ false }
    requires ticket { seat.old.me.0.ticket ≡ Some ticket }
    ensures table { IsOf board.now.table_id seat.new }
    ensures holding { OnTrue result (IsHolding C.entries C.opened seat.new.me) }
    ensures view { OnTrue result (seat.new.me.0 ≡ served seat.old.me.0 seat.new.me.0.seen) }
    ensures told { OnTrue result (IsTold C.number C.legal seat.old.me.0 seat.new.me.0.seen) }
    ensures not { OnFalse result (seat.new.me ≡ seat.old.me) }
{
    board.load::<Looks<C>>(seat, 1) == ticket
}

// Looks without a ticket: one history begins with all that the seat has seen, and has all that it keeps.
pub(crate) fn tell<C: Kept>(
    board: &Board<C, C::Entry, C::Opening>,
    seat: &mut Place<C, C::Entry, C::Opening>,
)
    requires table { IsOf board.now.table_id seat.old }
    requires idle { IsIdle seat.old }
    ensures table { IsOf board.now.table_id seat.new }
    ensures same { seat.new.me ≡ seat.old.me }
    ensures told { (log : List C.Entry) × IsTold C.number C.legal seat.old.me.0 log }
{
    board.load::<Looks<C>>(seat, 1);
}

// The list of what lies in the held slot, which has one entry more than was seen, becomes the history.
pub(crate) fn commit<C: Kept>(
    board: &Board<C, C::Entry, C::Opening>,
    seat: &mut Place<C, C::Entry, C::Opening>,
)
    requires table { IsOf board.now.table_id seat.old }
    requires holds { seat.old.me.0.holds ≡ true }
    requires entry { (c : C) × (x : C.Entry) × (seat.old.me.1 ≡ (0, Some c) ∷ []) × (C.entries c ≡ seat.old.me.0.seen ++ x ∷ []) × (seat.old.me.0.number ≡ Some (C.number x)) × (seat.old.me.0.opening ≡ Some (C.opened c)) × C.legal (C.opened c) (C.entries c) × (length (C.entries c) < 2 ^ 64) }
    ensures table { IsOf board.now.table_id seat.new }
    ensures hand { seat.new.me.1 ≡ seat.old.me.1 }
    ensures grown { (c : C) → seat.old.me.1 ≡ (0, Some c) ∷ [] → seat.new.me.0 ≡ grown seat.old.me.0 (C.entries c) }
{
    board.fetch_add::<Commits<C>>(seat, 2, 1);
}

// Lets the next ticket be served, and gives the slot back.
pub(crate) fn release<C: Kept>(
    board: &Board<C, C::Entry, C::Opening>,
    seat: &mut Place<C, C::Entry, C::Opening>,
)
    requires table { IsOf board.now.table_id seat.old }
    requires holds { seat.old.me.0.holds ≡ true }
    requires value { (c : C) × (seat.old.me.1 ≡ (0, Some c) ∷ []) × (C.entries c ≡ seat.old.me.0.seen) × (seat.old.me.0.opening ≡ Some (C.opened c)) }
    ensures table { IsOf board.now.table_id seat.new }
    ensures released { seat.new.me ≡ (released seat.old.me.0, []) }
{
    board.fetch_add::<Releases<C>>(seat, 1, 1);
}

// A new seat with the next number.
pub(crate) fn split_number<C: Kept>(
    board: &Board<C, C::Entry, C::Opening>,
    seat: &mut Place<C, C::Entry, C::Opening>,
) -> Place<C, C::Entry, C::Opening>
    requires table { IsOf board.now.table_id seat.old }
    requires count { (n : ℕ) × (seat.old.me.0.given ≡ Some n) × (n < 64) }
    ensures table { IsOf board.now.table_id seat.new × IsOf board.now.table_id result }
    ensures old { seat.new.me ≡ (counted seat.old.me.0, seat.old.me.1) }
    ensures new { result.me ≡ (numbered seat.old.me.0, []) }
{
    board.split_seat::<Numbers>(seat)
}

// A new seat without a number, which has seen as much.
pub(crate) fn split_copy<C: Kept>(
    board: &Board<C, C::Entry, C::Opening>,
    seat: &mut Place<C, C::Entry, C::Opening>,
) -> Place<C, C::Entry, C::Opening>
    requires table { IsOf board.now.table_id seat.old }
    ensures table { IsOf board.now.table_id seat.new × IsOf board.now.table_id result }
    ensures old { seat.new.me ≡ seat.old.me }
    ensures new { result.me ≡ (copied seat.old.me.0, []) }
{
    board.split_seat::<Copies>(seat)
}

// A seat takes in another, which is spent.
pub(crate) fn join<C: Kept>(
    board: &Board<C, C::Entry, C::Opening>,
    seat: &mut Place<C, C::Entry, C::Opening>,
    other: Place<C, C::Entry, C::Opening>,
)
    requires table { IsOf board.now.table_id seat.old }
    requires idle { IsIdle seat.old }
    requires other { IsOf board.now.table_id other × IsIdle other }
    ensures table { IsOf board.now.table_id seat.new }
    ensures joined { seat.new.me ≡ (joined_in seat.old.me.0 other.me.0, seat.old.me.1) }
{
    board.join_seat::<Takes>(seat, other);
}
