//! Messages with their times.

ghost use Rattle.std.specs.Fn.{FnReturnsAt};

use kube_meta::Moment;

/// A message with the time at which it is due.
#[derive(Drop)]
pub struct Held<T> {
    pub message: T,
    pub time: Moment,
}

/// Whether a message passes.
pub fn lets_pass<T, C: Fn(&T) -> bool>(passes: &C, message: &T) -> bool
    requires { C.IsAlwaysCallable passes.now }
    ensures { FnReturnsAt C.Fn passes.now message.now result }
{
    passes(message)
}
