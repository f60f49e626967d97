//! A stream at whose end a closure is called.

ghost use Rattle.std.specs.Prelude.{◌≡◌, Some, None};
ghost use Rattle.kube_streams.specs.Completes.{CanCall, IsCalledAt, WasCalled, left_after};

use kube_meta::{Moment, Next};
use kube_watch::stream::{ask, fault_of};
use kube_watch::{Error, EventStream, StreamFault};
use std::alloc::Global;
use std::marker::Model;

/// A stream that calls a closure once, when it ends, and is not asked again after that (the `OnComplete` of kube-runtime's
/// `utils`, which fuses its stream).
#[derive(Drop)]
pub struct OnComplete<S, F> {
    stream: S,
    f: Option<F>,
    fault: Option<StreamFault>,
}

impl<S, F> Model for OnComplete<S, F> {
    ghost use Rattle.kube_streams.specs.Completes.{Completing};

    ghost Value = { Completing S F };

    ghost view = { λ c. record { stream = c.stream; f = c.f; fault = c.fault } };
}

/// The stream, with a closure that is called when it ends.
pub fn on_complete<S: EventStream, F: FnOnce()>(stream: S, f: F) -> OnComplete<S, F>
    ensures { result ≡ record { stream = stream; f = Some f; fault = None } }
{
    OnComplete {
        stream,
        f: Some(f),
        fault: None,
    }
}

/// Calls the closure, if it wasn't called yet.
fn call<F: FnOnce()>(f: &mut Option<F>)
    requires { CanCall F.IsAlwaysCallable f.old }
    ensures none { f.new ≡ None }
    ensures called { WasCalled F.FnOnce f.old }
{
    if let Some(f) = f.take() {
        f();
    }
}

/// Calls the closure where the answer is the end.
fn complete<F: FnOnce(), I>(f: &mut Option<F>, answer: &Result<Next<Result<I, Error>>, StreamFault>)
    requires can { CanCall F.IsAlwaysCallable f.old }
    ensures can { CanCall F.IsAlwaysCallable f.new }
    ensures left { f.new ≡ left_after f.old answer.now }
    ensures called { IsCalledAt F.FnOnce f.old answer.now }
{
    if let Ok(Next::End) = answer {
        call(f);
    }
}

impl<S: EventStream, F: FnOnce() + Drop> EventStream for OnComplete<S, F> {
    ghost use Rattle.std.specs.Prelude.{None};
    ghost use Rattle.kube_watch.specs.Asking.{Said};
    ghost use Rattle.kube_streams.specs.Completes.{CanCall, Completed};

    type Item = S::Item;

    ghost told = { λ _. None };

    ghost fault = { λ c. c.fault };

    ghost can_poll = { λ c. S.can_poll c.stream × CanCall F.IsAlwaysCallable c.f };

    ghost polls = { λ c now fuel answer d. Completed F.FnOnce (Said S.polls S.told) c.fault c.f now fuel c answer d };

    fn poll_next(
        &mut self,
        alloc: Global,
        now: Moment,
        fuel: u32,
    ) -> Result<Next<Result<S::Item, Error>>, StreamFault> {
        if let Some(fault) = self.fault {
            return Err(fault);
        }
        if self.f.is_none() {
            return Ok(Next::End);
        }
        let answer = ask(&mut self.stream, alloc, now, fuel);
        complete(&mut self.f, &answer);
        self.fault = fault_of(&answer);
        answer
    }
}
