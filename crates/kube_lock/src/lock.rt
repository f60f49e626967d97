//! The lock, and how a pass enters it and leaves it.

ghost use Rattle.std.specs.Prelude.{◌≡◌, ◌<◌, ◌^◌, [], ◌∷◌, ◌++◌, length, Some, IfSome};
ghost use mathlib.Core.List.{IsPrefix};
ghost use Rattle.kube_lock.specs.Rule.{calls_of};
ghost use Rattle.kube_lock.specs.Passes.{IsPassOf};

use crate::kept::Kept;
use crate::pass::{Pass, Turn};
use crate::rule::LockRule;
use crate::steps::{commit, release};
use crate::view::View;
use crate::waiting::wait_turn;
use atomic_table::Table;
use std::alloc::Global;
use std::marker::Model;
use std::snapshot::Snapshot;
use std::sync::Wait;

/// A value under a ticket lock: passes enter in the order in which they came. Tickets are counted modulo 2^64.
///
/// Contracts see it as its table and what was opened.
#[derive(Drop)]
pub struct Lock<C: Kept> {
    pub(crate) table: Table<
        Option<C>,
        View<C::Entry, C::Opening>,
        Snapshot<C>,
        LockRule<C>,
        Global,
    >,
}

impl<C: Kept> Model for Lock<C> {
    ghost use Rattle.std.specs.Prelude.{◌≡◌};
    ghost use Rattle.kube_lock.specs.Passes.{Locking};

    ghost Value = { Locking C.Opening };

    ghost view = { λ l. record { table = l.table.shared.table_id; opening = C.opened l.table.shared.key.value } };

    ghost invariant = { λ l. (l.table.shared.table_id.words ≡ 3) × (l.table.shared.table_id.slots ≡ 1) };
}

impl<C: Kept> Lock<C> {
    /// Waits until its turn has come, and takes out what lies under the lock. It tells a legal history, which begins with
    /// what the pass has seen, and in which the pass has just its own entries.
    pub fn enter<R: Wait>(&self, rt: &R, pass: Pass<C>) -> (Turn<C>, C)
        requires pass { IsPassOf self.now pass }
        ensures seen { IsPrefix pass.seen (C.entries result.1) }
        ensures own { calls_of C.number pass.number (C.entries result.1) ≡ pass.own }
        ensures legal { C.legal self.now.opening (C.entries result.1) }
        ensures opened { C.opened result.1 ≡ self.now.opening }
        ensures turn { result.0 ≡ record pass { seen = C.entries result.1 } }
    {
        let Pass { mut seat, number } = pass;
        let value = wait_turn(rt, &self.table.shared, &mut seat);
        (Turn { seat, number }, value)
    }

    /// Puts the value back with the history that it told.
    pub fn leave(&self, turn: Turn<C>, value: C) -> Pass<C>
        requires pass { IsPassOf self.now turn }
        requires same { C.entries value ≡ turn.seen }
        requires opened { C.opened value ≡ self.now.opening }
        ensures pass { result ≡ turn }
    {
        let Turn { mut seat, number } = turn;
        let board = &self.table.shared;
        board.exchange(&mut seat, 0, Some(value));
        release(board, &mut seat);
        Pass { seat, number }
    }

    /// Puts the value back with one entry more, which is the pass's own.
    pub fn commit(&self, turn: Turn<C>, value: C) -> Pass<C>
        requires pass { IsPassOf self.now turn }
        requires entry { (x : C.Entry) × (C.entries value ≡ turn.seen ++ x ∷ []) × (C.number x ≡ turn.number) }
        requires legal { C.legal self.now.opening (C.entries value) }
        requires short { length (C.entries value) < 2 ^ 64 }
        requires opened { C.opened value ≡ self.now.opening }
        ensures pass { (x : C.Entry) → C.entries value ≡ turn.seen ++ x ∷ [] → result ≡ record turn { seen = C.entries value; own = turn.own ++ x ∷ [] } }
        ensures own { calls_of C.number turn.number turn.seen ≡ turn.own → calls_of C.number result.number result.seen ≡ result.own }
    {
        let Turn { mut seat, number } = turn;
        let board = &self.table.shared;
        board.exchange(&mut seat, 0, Some(value));
        commit(board, &mut seat);
        release(board, &mut seat);
        Pass { seat, number }
    }
}
