//! Runs messages of a scheduler, of which no two equal ones at once (kube-runtime's `Runner`).

ghost use Rattle.std.specs.Prelude.{◌≡◌, ◌↔◌, ◌<◌, ◌+◌, ◌&&◌, [], not, true, false, is_some, IfOk, OnErr, OnOk, IsErr, Some, None};
ghost use Rattle.std.specs.Option.{ForSome};
ghost use Rattle.std.specs.List.{IsDistinct};
ghost use Rattle.std.specs.Map.{keys_of, remove_entry};
ghost use Rattle.std.specs.Fn.{CalledAt};
ghost use Rattle.kube_sched.specs.Schedule.{held_len};
ghost use Rattle.kube_sched.specs.Polls.{CountedPoll};
ghost use Rattle.kube_sched.specs.Runs.{ReadinessPolled, RunnerPolled, PollLost, IsAtEnd, MayStart, IsWithin, MakesFutures, SchedulerLost, Started, StartLost, StartsAll, StartsAllUntilLost, answer_after, has_room as has_room_for, runs};

use crate::asks::Ending;
use crate::future_hash_map::FutureHashMap;
use crate::requests::Requests;
use crate::scheduled::Scheduled;
use crate::told_future::{ToldFuture, Untold};
use futures::task::{Context, Poll};
use futures::{Future, future};
use kube_meta::{Moment, Next, NoMemory, Polled};
use std::alloc::Global;
use std::convert::Infallible;
use std::fmt;
use std::hash::Hash;
use std::marker::Model;
use thiserror::Error;

/// Why a runner ends early.
#[derive(Debug, Drop, Error)]
#[error_bound(ReadyErr: fmt::Display + fmt::Debug)]
pub enum Error<ReadyErr> {
    /// The future of `delay_tasks_until` gave an error.
    #[error("readiness gate failed to become ready: {0}")]
    Readiness(ReadyErr),
}

/// The readiness of a runner that starts at once.
pub type AtOnce = Untold<future::Ready<Result<(), Infallible>>>;

/// Starts a future for each message of a scheduler, once no equal message runs.
///
/// After want of memory every poll answers that alone.
#[derive(Drop)]
pub struct Runner<T: Eq + Hash, R, F: ToldFuture, MkF, Ready: ToldFuture> {
    scheduler: Scheduled<T, R>,
    run_msg: MkF,
    slots: FutureHashMap<T, F>,
    readiness: Option<Ready>,
    max: u16,
    is_stopped: bool,
    is_spent: bool,
}

impl<T: Eq + Hash, R, F: ToldFuture, MkF, Ready: ToldFuture> Model for Runner<T, R, F, MkF, Ready> {
    ghost use Rattle.std.specs.Option.{ForSome};
    ghost use Rattle.std.specs.List.{IsDistinct};
    ghost use Rattle.std.specs.Map.{keys_of};
    ghost use Rattle.kube_sched.specs.Runs.{Runs, IsWithin};

    ghost Value = { Runs T R F MkF Ready };

    ghost view = { λ r. record { scheduler = r.scheduler; makes = r.run_msg; running = r.slots; readiness = r.readiness; limit = r.max; is_stopped = r.is_stopped; is_spent = r.is_spent } };

    ghost invariant = { λ r. ForSome r.readiness Ready.can_poll × IsWithin r.max r.slots × IsDistinct T.eq (keys_of r.slots) };
}

impl<T: Eq + Hash + Drop, R: Requests<T>, F: ToldFuture, MkF: FnMut(&T) -> F + Drop> Runner<
    T,
    R,
    F,
    MkF,
    AtOnce,
> {
    /// A runner that starts messages at once, at most `max` at a time, or any number where `max` is 0.
    pub fn new(
        alloc: Global,
        scheduler: Scheduled<T, R>,
        max: u16,
        run_msg: MkF,
    ) -> Runner<T, R, F, MkF, AtOnce>
        ensures { result ≡ record { scheduler = scheduler; makes = run_msg; running = []; readiness = None; limit = max; is_stopped = false; is_spent = false } }
    {
        Runner {
            scheduler,
            run_msg,
            slots: FutureHashMap::new(alloc),
            readiness: None,
            max,
            is_stopped: false,
            is_spent: false,
        }
    }
}

/// Polls a readiness that hasn't come yet, and gives the error where it failed.
fn poll_readiness<E, Ready: ToldFuture + Future<Output = Result<(), E>>>(
    readiness: &mut Option<Ready>,
    cx: &mut Context<'_>,
) -> Option<E>
    requires { ForSome readiness.old Ready.can_poll }
    ensures polled { ReadinessPolled Ready.told Ready.gives readiness.old readiness.new result }
    ensures again { ForSome readiness.new Ready.can_poll }
{
    let Some(ready) = readiness else {
        return None;
    };
    match ready.poll_told(cx) {
        Poll::Ready(Ok(())) => {
            *readiness = None;
            None
        }
        Poll::Ready(Err(error)) => {
            *readiness = None;
            Some(error)
        }
        Poll::Pending => None,
    }
}

impl<
    T: Eq + Hash + Drop,
    R: Requests<T>,
    F: ToldFuture,
    MkF: FnMut(&T) -> F + Drop,
    Ready: ToldFuture,
> Runner<T, R, F, MkF, Ready> {
    /// The same, which starts no message before `ready` is ready. It takes requests in the meantime.
    ///
    /// An earlier readiness is forgotten, whether it had come, was waited for or had failed: a runner that answered its
    /// error, and then `End`, goes on with what it holds. What runs goes on running.
    pub fn delay_tasks_until<Ready2: ToldFuture>(
        self,
        ready: Ready2,
    ) -> Runner<T, R, F, MkF, Ready2>
        requires { Ready2.can_poll ready }
        ensures { result ≡ record { scheduler = self.scheduler; makes = self.makes; running = self.running; readiness = Some ready; limit = self.limit; is_stopped = false; is_spent = self.is_spent } }
    {
        Runner {
            scheduler: self.scheduler,
            run_msg: self.run_msg,
            slots: self.slots,
            readiness: Some(ready),
            max: self.max,
            is_stopped: false, // also where the earlier readiness failed
            is_spent: self.is_spent,
        }
    }

    /// Lets an equal message run no more: its future is dropped. Whether one ran.
    pub fn finish(&mut self, message: &T) -> bool
        ensures ran { result ≡ runs T.eq message.now self.old.running }
        ensures gone { self.new ≡ record self.old { running = remove_entry (T.eq message.now) self.old.running } }
        ensures over { runs T.eq message.now self.new.running ≡ false }
    {
        self.slots.remove(message).is_some()
    }

    // Whether one more message may run.
    fn has_room(&self) -> bool
        ensures { result ≡ has_room_for self.now.limit self.now.running }
    {
        self.max == 0 || self.slots.len() < usize::from(self.max)
    }

    // Whether one more message may be started.
    fn may_start(&self) -> bool
        ensures { result ≡ (not (is_some self.now.readiness) && has_room_for self.now.limit self.now.running) }
    {
        self.readiness.is_none() && self.has_room()
    }

    // Starts a message.
    fn start(&mut self, alloc: Global, message: T) -> Result<(), NoMemory>
        requires call { MkF.IsAlwaysCallable self.old.makes }
        requires futures { MakesFutures MkF.FnMut F.can_poll }
        requires room { has_room_for self.old.limit self.old.running ≡ true }
        requires absent { runs T.eq message self.old.running ≡ false }
        ensures started { OnOk result (Started (CalledAt MkF.FnMut) message self.old self.new) }
        ensures lost { OnErr result (StartLost (CalledAt MkF.FnMut) message self.old self.new) }
        ensures call { MkF.IsAlwaysCallable self.new.makes }
    {
        let future = (self.run_msg)(&message);
        self.slots.insert(alloc, message, future)?;
        Ok(())
    }

    // The first waiting message that may be started, after at most `fuel` requests.
    fn poll_scheduler(
        &mut self,
        alloc: Global,
        now: Moment,
        fuel: u32,
    ) -> Result<(Next<T>, u32), NoMemory>
        ensures polled { IfOk result (λ c. CountedPoll T.eq (MayStart T.eq (not (is_some self.old.readiness) && has_room_for self.old.limit self.old.running) self.old.running) R.told now fuel self.old.scheduler self.new.scheduler c.0 c.1) }
        ensures held { IfOk result (λ c. (m : _) → c.0 ≡ Next.Item m → held_len self.new.scheduler.schedule + c.1 < held_len self.old.scheduler.schedule + fuel) }
        ensures passes { IfOk result (λ c. (m : _) → c.0 ≡ Next.Item m → MayStart T.eq (not (is_some self.old.readiness) && has_room_for self.old.limit self.old.running) self.old.running m true) }
        ensures lost { OnErr result (SchedulerLost T.eq R.told now fuel self.old.scheduler self.new.scheduler) }
        ensures rest { self.new ≡ record self.old { scheduler = self.new.scheduler } }
    {
        let may_start = self.may_start();
        let slots = &self.slots;
        let passes = |message: &T| -> bool
            ensures { result ≡ (may_start && not (runs T.eq message.now slots.entry.now)) }
        { may_start && !slots.contains_key(message) };
        self.scheduler.poll_counted(alloc, now, fuel, &passes)
    }

    // Starts messages until none is left, no more may run, the requests have ended or `fuel` of them were taken.
    fn start_all(&mut self, alloc: Global, now: Moment, fuel: u32) -> Result<Ending, NoMemory>
        requires call { MkF.IsAlwaysCallable self.old.makes }
        requires futures { MakesFutures MkF.FnMut F.can_poll }
        ensures started { IfOk result (λ ending. StartsAll T.eq R.told (CalledAt MkF.FnMut) now fuel self.old self.new ending) }
        ensures lost { OnErr result (StartsAllUntilLost T.eq R.told (CalledAt MkF.FnMut) now fuel self.old self.new) }
        ensures call { MkF.IsAlwaysCallable self.new.makes }
    {
        let mut left = fuel;
        loop {
            let (answer, more) = self.poll_scheduler(alloc, now, left)?;
            left = more;
            match answer {
                Next::Item(message) => self.start(alloc, message)?,
                Next::NotReady => return Ok(Ending::Waits),
                Next::Spent => return Ok(Ending::Filled),
                Next::End => return Ok(Ending::Ends),
            }
            if !self.has_room() {
                return Ok(Ending::Waits);
            }
        }
    }
}

impl<
    T: Eq + Hash + Drop,
    R: Requests<T>,
    F: ToldFuture,
    MkF: FnMut(&T) -> F + Drop,
    E,
    Ready: ToldFuture + Future<Output = Result<(), E>>,
> Runner<T, R, F, MkF, Ready> {
    /// The first result of the futures that run; where none is ready it starts messages.
    ///
    /// A result comes before all else. Then readiness is polled, until it has come: its error is given once, and then
    /// `End`, unless `delay_tasks_until` gives another readiness. Then the scheduler takes requests until none is
    /// ready, and the first waiting message is started of which no equal one runs; so on until none is left, no more
    /// may run, the requests have ended or `fuel` requests were taken. Before readiness requests are taken, and none is
    /// started. It answers `End` once the requests have ended and nothing runs; `Spent` where it took `fuel` requests;
    /// else `NotReady`.
    ///
    /// # Errors
    ///
    /// `NoMemory` where the scheduler or a start could have none, and in each poll after that, which changes nothing. In
    /// the first of them no future was ready and readiness hadn't failed. What ran runs on, and behind it what was started
    /// before memory was wanting. Where a start could have none, its message is gone, and its future is dropped.
    pub fn poll_next(
        &mut self,
        alloc: Global,
        cx: &mut Context<'_>,
        now: Moment,
        fuel: u32,
    ) -> Result<Next<Result<F::Output, Error<E>>>, NoMemory>
        requires call { MkF.IsAlwaysCallable self.old.makes }
        requires futures { MakesFutures MkF.FnMut F.can_poll }
        ensures polled { IfOk result (λ a. RunnerPolled T.eq R.told F.told F.gives Ready.told Ready.gives (CalledAt MkF.FnMut) now fuel self.old self.new a) }
        ensures ended { IfOk result (λ a. (a ≡ Next.End) ↔ IsAtEnd self.old self.new) }
        ensures once { IsDistinct T.eq (keys_of self.new.running) }
        ensures few { IsWithin self.new.limit self.new.running }
        ensures fresh { OnOk result (self.new.is_spent ≡ false) }
        ensures spent { OnErr result (self.new.is_spent ≡ true) }
        ensures stays_spent { self.old.is_spent ≡ true → IsErr result }
        ensures lost { self.old.is_spent ≡ false → OnErr result (PollLost T.eq R.told F.told F.gives Ready.told Ready.gives (CalledAt MkF.FnMut) now fuel self.old self.new) }
        ensures unchanged { self.old.is_spent ≡ true → self.new ≡ self.old }
        ensures call { MkF.IsAlwaysCallable self.new.makes }
    {
        if self.is_spent {
            return Err(NoMemory);
        }
        if self.is_stopped {
            return Ok(Next::End);
        }
        if let Some(value) = self.slots.poll_first(cx) {
            return Ok(Next::Item(Ok(value)));
        }
        if let Some(error) = poll_readiness(&mut self.readiness, cx) {
            self.is_stopped = true;
            return Ok(Next::Item(Err(Error::Readiness(error))));
        }
        let Ok(ending) = self.start_all(alloc, now, fuel) else {
            self.is_spent = true;
            return Err(NoMemory);
        };
        Ok(self.answer(ending))
    }

    // What a poll answers that gave no result, after asks that ended so.
    fn answer(&self, ending: Ending) -> Next<Result<F::Output, Error<E>>>
        ensures { result ≡ answer_after ending self.now.running }
    {
        match ending {
            Ending::Filled => Next::Spent,
            Ending::Waits => Next::NotReady,
            Ending::Ends => {
                if self.slots.len() == 0 {
                    Next::End
                } else {
                    Next::NotReady
                }
            }
        }
    }
}
