//! How two passes meet.

ghost use Rattle.std.specs.Prelude.{◌≡◌};
ghost use Rattle.kube_lock.specs.Passes.{IsPassOf, HaveMet};

use crate::kept::Kept;
use crate::lock::Lock;
use crate::pass::Pass;
use crate::steps::{join, split_copy, tell};

impl<C: Kept> Lock<C> {
    /// Each has then seen what either had. It doesn't wait for a turn.
    pub fn meet(&self, a: Pass<C>, b: Pass<C>) -> (Pass<C>, Pass<C>)
        requires passes { IsPassOf self.now a × IsPassOf self.now b }
        ensures met { HaveMet a b result.0 result.1 }
        ensures legal { C.legal self.now.opening result.0.seen }
    {
        let Pass {
            seat: mut one,
            number,
        } = a;
        let Pass {
            seat: mut two,
            number: other,
        } = b;
        let board = &self.table.shared;
        let copy = split_copy(board, &mut one);
        join(board, &mut two, copy);
        tell(board, &mut two);
        let back = split_copy(board, &mut two);
        join(board, &mut one, back);
        (
            Pass { seat: one, number },
            Pass {
                seat: two,
                number: other,
            },
        )
    }
}
