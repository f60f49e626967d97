//! A stream of requests.

use crate::request::ScheduleRequest;
use kube_meta::{Moment, Next, NoMemory};
use std::alloc::Global;

/// A stream of requests for messages (the `Stream` that kube-runtime's `scheduler` takes).
pub trait Requests<T>: Drop {
    ghost use Rattle.std.specs.Prelude.{List, Option, IfOk, OnErr, ◌≡◌};
    ghost use Rattle.kube_meta.specs.declared.poll.Next.{Next};
    ghost use Rattle.kube_model.specs.Raw.{grown};
    ghost use Rattle.kube_sched.specs.declared.request.ScheduleRequest.{ScheduleRequest};

    /// What it answered so far, where it tells that.
    ghost told: { Self → Option (List (Next (ScheduleRequest T))) };

    /// The next request.
    ///
    /// # Errors
    ///
    /// `NoMemory`. It takes nothing from what was answered.
    fn poll_request(
        &mut self,
        alloc: Global,
        now: Moment,
    ) -> Result<Next<ScheduleRequest<T>>, NoMemory>
        ensures grows { IfOk result (λ a. told self.new ≡ grown (told self.old) a) }
        ensures unchanged { OnErr result (told self.new ≡ told self.old) };
}
