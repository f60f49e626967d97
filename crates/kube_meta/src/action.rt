//! What a reconcile asks for when it has ended.

ghost use Rattle.std.specs.Prelude.{◌≡◌, Some, None};

use std::marker::Model;

/// When an object is to be reconciled again (kube-runtime's `controller::Action`).
///
/// Contracts see it as the nanoseconds after which it asks to come again, or none where it waits for a change.
#[derive(Clone, Copy, Debug, PartialEq, Eq)]
pub struct Action {
    requeue: Option<u64>,
}

impl Model for Action {
    ghost use Rattle.std.specs.Prelude.{ℕ, Option};

    ghost Value = { Option ℕ };

    ghost view = { λ a. a.requeue };

    ghost inverse = { λ o. record { requeue = o } };
}

impl Action {
    /// Come again after this many nanoseconds, also where nothing changed.
    pub fn requeue(nanos: u64) -> Action
        ensures { result ≡ Some nanos }
    {
        Action {
            requeue: Some(nanos),
        }
    }

    /// Come again only where something changed.
    pub fn await_change() -> Action
        ensures { result ≡ None }
    {
        Action { requeue: None }
    }

    /// The nanoseconds of a requeue, and none where a change is awaited.
    pub fn requeue_after(&self) -> Option<u64>
        ensures { result ≡ self.now }
    {
        self.requeue
    }
}
