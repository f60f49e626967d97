//! Futures that may tell what their polls answered.

ghost use Rattle.std.specs.Prelude.{◌≡◌, List, Option, None};
ghost use Rattle.futures.specs.Poll.{IfReady, OnPending};
ghost use Rattle.futures.specs.Task.{Covers, Keeps};
ghost use Rattle.futures.specs.declared.task.Poll.{Poll};
ghost use Rattle.kube_model.specs.Raw.{grown};

use futures::Future;
use futures::task::{Context, Poll};

/// A future that may tell what its polls answered so far.
///
/// Any future may be one by telling nothing: `Untold` makes one of each.
pub trait ToldFuture: Future {
    /// What its polls answered so far, where it tells that.
    ghost told: { Self → Option (List (Poll Self.Output)) };

    /// The same as `poll`, and told.
    fn poll_told(&mut self, cx: &mut Context<'_>) -> Poll<Self::Output>
        requires { Self.can_poll self.old }
        ensures tells { told self.new ≡ grown (told self.old) result }
        ensures value { IfReady result (Self.gives self.old) }
        ensures again { OnPending result (Self.can_poll self.new) }
        ensures same { OnPending result ((x : _) → Self.gives self.new x → Self.gives self.old x) }
        ensures registered { OnPending result (Covers cx.new (Self.needs self.new)) }
        ensures kept { Keeps cx.old cx.new };
}

/// A future that tells nothing.
#[derive(Drop)]
pub struct Untold<F> {
    pub future: F,
}

impl<F: Future> Future for Untold<F> {
    type Output = F::Output;

    ghost can_poll = { λ u. F.can_poll u.future };

    ghost needs = { λ u. F.needs u.future };

    ghost gives = { λ u. F.gives u.future };

    fn poll(&mut self, cx: &mut Context<'_>) -> Poll<F::Output> {
        self.future.poll(cx)
    }
}

impl<F: Future> ToldFuture for Untold<F> {
    ghost told = { λ _. None };

    fn poll_told(&mut self, cx: &mut Context<'_>) -> Poll<F::Output> {
        self.future.poll(cx)
    }
}
