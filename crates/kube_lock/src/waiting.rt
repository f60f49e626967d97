//! How a turn is waited for.

ghost use Rattle.std.specs.Prelude.{◌≡◌, ℕ, List, [], ◌∷◌, Some, None, IsSome, IfSome};
ghost use Rattle.kube_lock.specs.Steps.{IsTold};
ghost use Rattle.kube_lock.specs.Seats.{IsOf, IsIdle};
ghost use Rattle.kube_lock.specs.Views.{with_ticket, served};

use crate::kept::Kept;
use crate::rule::{Board, Place};
use crate::steps::{draw, look};
use std::sync::Wait;
use std::thread;

// Draws a ticket, looks until it is served, and takes out what lies under the lock.
pub(crate) fn wait_turn<C: Kept, R: Wait>(
    rt: &R,
    board: &Board<C, C::Entry, C::Opening>,
    seat: &mut Place<C, C::Entry, C::Opening>,
) -> C
    requires table { IsOf board.now.table_id seat.old }
    requires idle { IsIdle seat.old }
    requires number { IsSome seat.old.me.0.number }
    ensures table { IsOf board.now.table_id seat.new }
    ensures seat { (t : ℕ) × (seat.new.me ≡ (served (with_ticket seat.old.me.0 t) (C.entries result), (0, None) ∷ [])) }
    ensures told { IsTold C.number C.legal seat.old.me.0 (C.entries result) }
    ensures opened { IfSome seat.old.me.0.opening (λ o. C.opened result ≡ o) }
{
    let ticket = draw(board, seat);
    for _turn in rt.forever() {
        if look(board, seat, ticket) {
            return match board.exchange(seat, 0, None) {
                Some(value) => value,
                None => unreachable!(),
            };
        }
        thread::yield_now();
    }
    unreachable!()
}
