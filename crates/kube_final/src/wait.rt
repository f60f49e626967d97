//! Waiting for an object until a condition holds (kube-runtime's `wait`).

ghost use Rattle.std.specs.Prelude.{◌≡◌, ◌≤◌, true, false, Option, Bool, IfOk, OnOk, OnErr, IsErr};
ghost use Rattle.kube_watch.specs.Objects.{IsOpened, LostObject, found_of};
ghost use Rattle.kube_watch.specs.Polls.{api_in};
ghost use Rattle.kube_watch.specs.Stands.{is_spent};
ghost use Rattle.kube_final.specs.Waits.{Awaited, EndsAs, IsAskedOnce, IsFirstTaken, IsTaken, LostWait, is_item, maybe_found, maybe_probed, next_probed, probed};
ghost use Rattle.kube_final.specs.Waiting.{IsLive};

use crate::conditions::{And, Not, Or};
use kube_api::ApiMode;
use kube_meta::{Moment, Next, NoMemory};
use kube_watch::{Error as WatcherError, WatchObject, watch_object};
use std::alloc::Global;
use std::marker::Model;
use std::sync::Arc;
use thiserror::Error;

/// Why a wait failed (`wait::Error`).
#[derive(Debug, Drop, Error)]
pub enum Error {
    #[error("failed to probe for whether the condition is fulfilled yet: {0}")]
    ProbeFailed(WatcherError),
}

/// A condition on an object, or on its absence (`wait::Condition`).
pub trait Condition<K>: Drop {
    ghost use Rattle.std.specs.Prelude.{Bool, Option, ⊤};
    ghost use Rattle.std.specs.Option.{option_copied};

    /// The answers that it may give of an object, or where there is none.
    ghost says: { Self → Option K → Bool → Type 0 };

    /// Whether it may be asked: one that calls a closure says so that the closure may be called, and one of two parts says
    /// so which of them it asks.
    ghost may: { Self → Option K → Type 0 } = { λ _ _. ⊤ };

    /// Whether it holds of an object, or where there is none.
    fn matches_object(&self, obj: Option<&K>) -> bool
        requires may { may self.now (option_copied obj) }
        ensures says { says self.now (option_copied obj.entry) result };

    /// Holds exactly where this one doesn't.
    final fn not(self) -> Not<Self>
    where
        Self: Sized,
        ensures { result ≡ record { condition = self } }
    {
        Not { condition: self }
    }

    /// Holds where both do. The other one is asked only where this one holds.
    final fn and<O: Condition<K>>(self, other: O) -> And<Self, O>
    where
        Self: Sized,
        ensures { result ≡ record { first = self; second = other } }
    {
        And {
            first: self,
            second: other,
        }
    }

    /// Holds where one of both does. The other one is asked only where this one doesn't hold.
    final fn or<O: Condition<K>>(self, other: O) -> Or<Self, O>
    where
        Self: Sized,
        ensures { result ≡ record { first = self; second = other } }
    {
        Or {
            first: self,
            second: other,
        }
    }
}

/// A condition that is a closure.
#[derive(Drop)]
pub struct FnCondition<F>(pub F);

impl<K, F: Fn(Option<&K>) -> bool> Condition<K> for FnCondition<F> {
    ghost use Rattle.std.specs.Prelude.{◌≡◌, Option};
    ghost use Rattle.std.specs.Option.{option_copied};
    ghost use Rattle.std.specs.Borrow.{Bor};

    ghost says = { λ c object answer. (seen : Option (Bor K)) × (option_copied seen ≡ object) × F.post c.0 seen answer };

    ghost may = { λ c object. F.IsAlwaysCallable c.0 };

    fn matches_object(&self, obj: Option<&K>) -> bool {
        (self.0)(obj)
    }
}

/// Whether an answer of the watch ends the wait.
fn ends<K: Drop, C: Condition<K>>(
    condition: &C,
    answer: &Result<Option<Arc<K>>, WatcherError>,
) -> bool
    requires may { (object : Option K) → C.may condition.now object }
    ensures { EndsAs (C.says condition.now) (found_of answer.now) result }
{
    let seen: Option<&K> = match answer {
        Ok(Some(object)) => Some(&**object),
        Ok(None) => None,
        Err(_) => return true,
    };
    condition.matches_object(seen)
}

/// An answer of the watch as one of the wait.
fn probed<K: Drop>(answer: Result<Option<Arc<K>>, WatcherError>) -> Result<Option<Arc<K>>, Error>
    ensures { probed result ≡ found_of answer }
{
    match answer {
        Ok(object) => Ok(object),
        Err(error) => Err(Error::ProbeFailed(error)),
    }
}

/// Takes the first of the answers that wait.
///
/// Errors: `NoMemory`, and the watch is spent.
fn take_next<A: ApiMode>(
    watch: &mut WatchObject<A>,
    alloc: Global,
    now: Moment,
) -> Result<Option<Result<Option<Arc<A::Value>>, WatcherError>>, NoMemory>
    requires live { ∥ IsLive watch.old ∥₁ }
    ensures taken { IfOk result (λ a. IsFirstTaken watch.old (maybe_found a) watch.new) }
    ensures live { ∥ IsLive watch.new ∥₁ }
    ensures err { OnErr result (is_spent watch.new.watcher ≡ true) }
    ensures lost { OnErr result (is_spent watch.old.watcher ≡ true) }
    ensures unspent { OnOk result (is_spent watch.old.watcher ≡ false) }
    ensures spent { is_spent watch.old.watcher ≡ true → watch.new ≡ watch.old }
{
    match watch.poll_next(alloc, now, 0)? {
        Next::Item(answer) => Ok(Some(answer)),
        Next::NotReady | Next::Spent | Next::End => Ok(None),
    }
}

/// Takes the first of the answers that wait that ends the wait, with those before it.
///
/// Errors: `NoMemory`, and the watch is spent.
fn take_end<A: ApiMode, C: Condition<A::Value>>(
    watch: &mut WatchObject<A>,
    condition: &C,
    alloc: Global,
    now: Moment,
) -> Result<Option<Result<Option<Arc<A::Value>>, Error>>, NoMemory>
    requires may { (object : Option A.Value) → C.may condition.now object }
    requires live { ∥ IsLive watch.old ∥₁ }
    ensures taken { IfOk result (λ a. IsTaken (C.says condition.now) watch.old (maybe_probed a) watch.new) }
    ensures live { ∥ IsLive watch.new ∥₁ }
    ensures err { OnErr result (is_spent watch.new.watcher ≡ true) }
    ensures lost { OnErr result (is_spent watch.old.watcher ≡ true) }
    ensures unspent { OnOk result (is_spent watch.old.watcher ≡ false) }
    ensures spent { is_spent watch.old.watcher ≡ true → watch.new ≡ watch.old }
{
    while let Some(answer) = take_next(watch, alloc, now)? {
        if ends(condition, &answer) {
            return Ok(Some(probed(answer)));
        }
    }
    Ok(None)
}

/// Makes one exchange, and takes the first of its answers that ends the wait, with those before it; `Spent` where none does.
///
/// Errors: `NoMemory`, and the watch is spent.
fn ask_end<A: ApiMode, C: Condition<A::Value>>(
    watch: &mut WatchObject<A>,
    condition: &C,
    alloc: Global,
    now: Moment,
) -> Result<Next<Result<Option<Arc<A::Value>>, Error>>, NoMemory>
    requires may { (object : Option A.Value) → C.may condition.now object }
    requires live { ∥ IsLive watch.old ∥₁ }
    ensures asked { IfOk result (λ a. IsAskedOnce (api_in A.ApiMode A.Value.meta_of) (C.says condition.now) now.0 watch.old (next_probed a) watch.new) }
    ensures live { ∥ IsLive watch.new ∥₁ }
    ensures err { OnErr result (is_spent watch.new.watcher ≡ true) }
    ensures lost { OnErr result (LostObject (api_in A.ApiMode A.Value.meta_of) now.0 1 watch.old watch.new) }
{
    match watch.poll_next(alloc, now, 1)? {
        Next::Item(answer) => {
            if ends(condition, &answer) {
                return Ok(Next::Item(probed(answer)));
            }
        }
        Next::NotReady => return Ok(Next::NotReady),
        Next::Spent => return Ok(Next::Spent),
        Next::End => return Ok(Next::End),
    }
    match take_end(watch, condition, alloc, now)? {
        Some(answer) => Ok(Next::Item(answer)),
        None => Ok(Next::Spent),
    }
}

/// Polls a watch until an answer ends the wait, by at most so many exchanges.
///
/// Errors: `NoMemory`, and the watch is spent.
pub(crate) fn poll_end<A: ApiMode, C: Condition<A::Value>>(
    watch: &mut WatchObject<A>,
    condition: &C,
    alloc: Global,
    now: Moment,
    fuel: u32,
) -> Result<Next<Result<Option<Arc<A::Value>>, Error>>, NoMemory>
    requires may { (object : Option A.Value) → C.may condition.now object }
    requires live { ∥ IsLive watch.old ∥₁ }
    ensures awaited { IfOk result (λ a. Awaited (api_in A.ApiMode A.Value.meta_of) (C.says condition.now) now.0 fuel watch.old (next_probed a) watch.new) }
    ensures live { ∥ IsLive watch.new ∥₁ }
    ensures err { OnErr result (is_spent watch.new.watcher ≡ true) }
    ensures lost { OnErr result (LostWait (api_in A.ApiMode A.Value.meta_of) (C.says condition.now) now.0 fuel watch.old watch.new) }
    ensures unspent { OnOk result (is_spent watch.old.watcher ≡ false) }
    ensures spent { is_spent watch.old.watcher ≡ true → watch.new ≡ watch.old }
{
    if let Some(answer) = take_end(watch, condition, alloc, now)? {
        return Ok(Next::Item(answer));
    }
    for _asked in 0..fuel {
        match ask_end(watch, condition, alloc, now)? {
            Next::Spent => {}
            answer => return Ok(answer),
        }
    }
    Ok(Next::Spent)
}

/// Waits until a condition holds of an object (what kube-runtime's `await_condition` gives).
#[derive(Drop)]
pub struct AwaitCondition<A: ApiMode, C> {
    watch: WatchObject<A>,
    condition: C,
    over: bool,
}

impl<A: ApiMode, C> Model for AwaitCondition<A, C> {
    ghost use Rattle.kube_final.specs.Waiting.{Awaiting};

    ghost Value = { Awaiting A A.Value C };

    ghost view = { λ w. record { watch = w.watch; condition = w.condition; is_over = w.over } };

    ghost use Rattle.kube_final.specs.Waiting.{IsLive};

    ghost invariant = { λ w. ∥ IsLive w.watch ∥₁ };
}

impl<A: ApiMode, C: Condition<A::Value>> AwaitCondition<A, C> {
    ghost use Rattle.std.specs.Borrow.{sem};
    ghost use Rattle.kube_watch.specs.Stands.{api_of};
    ghost use Rattle.kube_final.specs.Lending.{LendsAwaitedApi};

    /// Waits for the object of a name, which the API watches alone.
    ///
    /// Errors: `NoMemory`.
    pub fn new(alloc: Global, api: A, name: &str, cond: C) -> Result<AwaitCondition<A, C>, NoMemory>
        ensures opened { IfOk result (λ w. IsOpened api name.now w.watch) }
        ensures condition { IfOk result (λ w. w.condition ≡ cond) }
        ensures over { IfOk result (λ w. w.is_over ≡ false) }
    {
        Ok(AwaitCondition {
            watch: watch_object(alloc, api, name)?,
            condition: cond,
            over: false,
        })
    }

    /// The object of which the condition holds, none where it holds of its absence, or `ProbeFailed` with the error of the
    /// watch that came before. The first of these ends the wait: then don't poll again.
    ///
    /// `NotReady` where a call of the API was not ready; `Spent` after `fuel` calls that gave neither. It never ends.
    ///
    /// Errors: `NoMemory`, and only that from then on.
    pub fn poll(
        &mut self,
        alloc: Global,
        now: Moment,
        fuel: u32,
    ) -> Result<Next<Result<Option<Arc<A::Value>>, Error>>, NoMemory>
        requires unready { self.old.is_over ≡ false }
        requires may { (object : Option A.Value) → C.may self.old.condition object }
        requires fuel { 1 ≤ fuel }
        ensures awaited { IfOk result (λ a. Awaited (api_in A.ApiMode A.Value.meta_of) (C.says self.old.condition) now.0 fuel self.old.watch (next_probed a) self.new.watch) }
        ensures condition { self.new.condition ≡ self.old.condition }
        ensures over { IfOk result (λ a. self.new.is_over ≡ is_item a) }
        ensures err { OnErr result (is_spent self.new.watch.watcher ≡ true) }
        ensures lost { OnErr result (LostWait (api_in A.ApiMode A.Value.meta_of) (C.says self.old.condition) now.0 fuel self.old.watch self.new.watch) }
        ensures again { OnErr result (self.new.is_over ≡ false) }
        ensures spent { is_spent self.old.watch.watcher ≡ true → IsErr result × (self.new ≡ self.old) }
    {
        let answer = poll_end(&mut self.watch, &self.condition, alloc, now, fuel)?;
        self.over = is_item(&answer);
        Ok(answer)
    }

    /// The API of the watch. All else is as before.
    pub fn api_mut(&mut self) -> &mut A
        ensures* lends { sem 𝓛 (LendsAwaitedApi A.row A.Value.row A.Value.DynamicType.row A.ApiMode A.Value.Resource A.Value.DynamicType.Hash C.row self.entry result) }
        ensures value { result.now ≡ api_of self.old.watch.watcher }
    {
        self.watch.api_mut()
    }
}

pub(crate) fn is_item<T>(answer: &Next<T>) -> bool
    ensures { result ≡ is_item answer.now }
{
    match answer {
        Next::Item(_) => true,
        _ => false,
    }
}
