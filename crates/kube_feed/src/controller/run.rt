//! Runs of a controller that is fed, over turns.

ghost use Rattle.std.specs.Prelude.{◌≡◌, ◌<◌, ◌+◌, ◌^◌, [], Err, List, true, false, IfErr, IfOk, IsErrAnd, OnOk, length};
ghost use Rattle.std.specs.Arc.{arc_value};
ghost use Rattle.std.specs.List.{AllByRecursion};
ghost use Rattle.kube_model.specs.World.{World};
ghost use Rattle.kube_model.specs.History.{Step};
ghost use Rattle.kube_model.specs.Raw.{grown_by};
ghost use Rattle.kube_turn.specs.Records.{records_of};
ghost use Rattle.kube_step.specs.HandOvers.{handed_by, taken_by};
ghost use Rattle.kube_step.specs.Policies.{Answers};
ghost use Rattle.kube_step.specs.Takes.{IsSomething};
ghost use Rattle.kube_control.specs.Errors.{IfFatal, IfNoMemory, IfRefused, IfSpent, IfUnnamed, IsSpent, records_before};
ghost use Rattle.kube_feed.specs.Fed.{StandsFor};
ghost use Rattle.kube_feed.specs.Reads.{IsLater};
ghost use Rattle.kube_feed.specs.Runs.{IsRefusedRun, IsWholeRun, IsBrokenRun};
ghost use Rattle.kube_asks.specs.declared.asks.AskFault.{AskFault};

use crate::controller::FedController;
use crate::controller::turns::take_turns;
use crate::stopped::Stopped;
use kube_asks::{AskFault, Backoff, RelatedSet, RootSource};
use kube_control::RunError;
use kube_meta::{Action, List, Resource};
use kube_step::Reconciler;
use kube_turn::{Trace, Turn, TurnRecord};
use std::alloc::Global;
use std::sync::{Arc, Wait};

impl<R: RootSource, S: RelatedSet<R::Object>, B: Backoff> FedController<R, S, B> {
    /// Takes turns, and answers the record of each (kube-runtime's `Controller::run`, and what `applier` gives). It may wait where
    /// it reads.
    ///
    /// Turns are numbered from 0 in each run. A run goes on where the last one ended, and after a trace has ended it
    /// answers the empty trace. `error_policy` says what is to be done after a failed reconcile.
    ///
    /// # Errors
    ///
    /// See `RunError`; each carries the records of the turns before.
    pub fn run<W, Rc, P, Ctx, E>(
        &mut self,
        rt: &W,
        alloc: Global,
        reconciler: &mut Rc,
        error_policy: &P,
        context: Arc<Ctx>,
        turns: Vec<Turn<R::Object, E>>,
    ) -> Result<Trace<R::Object, E>, RunError<R::Object, E>>
    where
        W: Wait,
        Rc: Reconciler<R::Object, Ctx>,
        P: Fn(Arc<R::Object>, &E, Arc<Ctx>) -> Action,
        Ctx: Drop,
        E: Drop,
        requires callable { P.IsAlwaysCallable error_policy.now }
        requires sources { length (S.feeds self.old.asks.related) + 1 < 2 ^ 32 }
        requires root { R.can_poll self.old.asks.root }
        requires related { S.can_poll self.old.asks.related }
        requires few { length turns.items < 2 ^ 32 }
        ensures root { R.can_poll self.new.asks.root }
        ensures related { S.can_poll self.new.asks.related }

        // The answer is the trace of the turns, with what the error policy and the reader answered, and the controller stands for
        // the history with it: each turn is valid and was taken by the definitions, each exchange came with its names and is all
        // that was asked, and each look-up, reload and shown store, and each poll of whether the store is ready, is one read, in
        // order, by a list that begins with that of the read before. For each failed reconcile the action is what the error policy
        // answered of the object that was handed over. After each turn no two equal references run, and at most as many as the
        // limit allows. After shutdown nothing is taken, and no record follows one that has ended. Each turn kept to its budget.
        ensures trace { (w : World R.Object B) (h : List (Step R.Object)) → StandsFor R.RootSource S.RelatedSet B.Backoff R.Object.Resource w h self.old
            → IfOk result (λ r. IsWholeRun R.RootSource S.RelatedSet B.Backoff R.Object.Resource (Answers P.Fn error_policy.now (arc_value context)) w h turns.items self.old r.records self.new) }

        // Where the reconciler tells its list, it grew by what the trace started, in order.
        ensures handed { IfOk result (λ r. Rc.handed reconciler.new ≡ grown_by (Rc.handed reconciler.old) (handed_by (taken_by (records_of R.Object.type_of r.records)))) }

        // All that a record tells as taken is something.
        ensures something { IfOk result (λ r. AllByRecursion (λ q. AllByRecursion (IsSomething R.Object.type_of) q.taken) r.records) }
        ensures something_before { IfErr result (λ e. AllByRecursion (λ q. AllByRecursion (IsSomething R.Object.type_of) q.taken) (records_before e)) }

        // The reader stays a handle of its writer, and reads no less.
        ensures reader { IsLater self.old.reader self.new.reader }

        // A turn is refused exactly for its cause, and so where the turns are not valid. It changed nothing and asked nothing: the
        // turns before it were taken, with what the error policy answered, and the controller goes on after them.
        ensures refused { IfErr result (λ e. IfRefused e (λ turn why. (turn ≡ length (records_before e))
            × ((w : World R.Object B) (h : List (Step R.Object)) → StandsFor R.RootSource S.RelatedSet B.Backoff R.Object.Resource w h self.old
            → IsRefusedRun R.RootSource S.RelatedSet B.Backoff R.Object.Resource (Answers P.Fn error_policy.now (arc_value context)) w h turns.items self.old (records_before e) why self.new))) }

        // An object without a name came from its source, or its stream told of one, asked by the next call of the turn after
        // those that were taken, with what the error policy answered.
        ensures unnamed { IfErr result (λ e. IfUnnamed e (λ turn source. (turn ≡ length (records_before e))
            × ((w : World R.Object B) (h : List (Step R.Object)) → StandsFor R.RootSource S.RelatedSet B.Backoff R.Object.Resource w h self.old
            → IsBrokenRun R.RootSource S.RelatedSet B.Backoff R.Object.Resource (Answers P.Fn error_policy.now (arc_value context)) w (AskFault.Unnamed source) h turns.items self.old (records_before e) self.new
            (Rc.handed reconciler.old) (Rc.handed reconciler.new)))) }

        // After want of memory the records are those of the first turns, with what the error policy answered, and the next one
        // was broken off: it asked its sources as it asks them, at most once more than it has exchanges, and handed over what it
        // takes first by what it read until then. Where it handed over anything it had asked all; and a take at least was left,
        // or what it shows was still to be read. A turn of which it was not told whether it is valid asked, read and handed over
        // nothing.
        ensures no_memory { IfErr result (λ e. IfNoMemory e ((w : World R.Object B) (h : List (Step R.Object)) → StandsFor R.RootSource S.RelatedSet B.Backoff R.Object.Resource w h self.old
            → IsBrokenRun R.RootSource S.RelatedSet B.Backoff R.Object.Resource (Answers P.Fn error_policy.now (arc_value context)) w AskFault.NoMemory h turns.items self.old (records_before e) self.new
            (Rc.handed reconciler.old) (Rc.handed reconciler.new))) }

        // A turn that is refused, and one in which such an object came, start nothing.
        ensures handed_refused { IfErr result (λ e. IfRefused e (λ turn why. Rc.handed reconciler.new ≡ grown_by (Rc.handed reconciler.old) (handed_by (taken_by (records_of R.Object.type_of (records_before e)))))) }
        ensures handed_unnamed { IfErr result (λ e. IfUnnamed e (λ turn source. Rc.handed reconciler.new ≡ grown_by (Rc.handed reconciler.old) (handed_by (taken_by (records_of R.Object.type_of (records_before e)))))) }

        // A spent controller does nothing.
        ensures spent { self.old.is_spent ≡ true → IsErrAnd result IsSpent }
        ensures was_spent { IfErr result (λ e. IfSpent e ((self.old.is_spent ≡ true) × (records_before e ≡ []))) }
        ensures controller_stays { self.old.is_spent ≡ true → self.new ≡ self.old }
        ensures reconciler_stays { self.old.is_spent ≡ true → reconciler.new ≡ reconciler.old }

        // It is spent after want of memory and after an object without a name, and after nothing else.
        ensures unspent { OnOk result (self.new.is_spent ≡ false) }
        ensures spent_by_refusal { IfErr result (λ e. IfRefused e (λ turn why. self.new.is_spent ≡ false)) }
        ensures spent_after { IfErr result (λ e. IfFatal e (self.new.is_spent ≡ true)) }
    {
        let mut records = Vec::new(alloc);
        if self.is_spent() {
            return Err(RunError::Spent {
                trace: trace_of(records),
            });
        }
        match take_turns(
            rt,
            alloc,
            self,
            reconciler,
            error_policy,
            &context,
            turns,
            &mut records,
        ) {
            Ok(()) => Ok(trace_of(records)),
            Err(Stopped::Refused(why)) => {
                let turn = records.len() as u32;
                let trace = trace_of(records);
                Err(RunError::BadTurn { turn, why, trace })
            }
            Err(Stopped::Faulted(AskFault::Unnamed { source })) => {
                let turn = records.len() as u32;
                let trace = trace_of(records);
                self.fail(RunError::UnnamedObject {
                    turn,
                    source,
                    trace,
                })
            }
            Err(Stopped::Faulted(AskFault::NoMemory)) => {
                let trace = trace_of(records);
                self.fail(RunError::NoMemory { trace })
            }
            // (the asks of a controller that is not spent are not spent)
            Err(Stopped::Faulted(AskFault::Spent)) => {
                let trace = trace_of(records);
                self.fail(RunError::NoMemory { trace })
            }
        }
    }
}

/// The trace of these records.
fn trace_of<K: Resource, E: Drop>(records: Vec<TurnRecord<K, E>>) -> Trace<K, E>
    ensures { result.records ≡ records.items }
{
    Trace {
        records: List::from(records),
    }
}

impl<R: RootSource, S, B> FedController<R, S, B> {
    /// Whether an earlier run had no memory or met an object without a name: then every further one answers `Spent`.
    pub fn is_spent(&self) -> bool
        ensures { result ≡ self.now.is_spent }
    {
        self.spent
    }

    // Ends a run for good.
    fn fail<E: Drop>(
        &mut self,
        error: RunError<R::Object, E>,
    ) -> Result<Trace<R::Object, E>, RunError<R::Object, E>>
        ensures error { result ≡ Err error }
        ensures spent { self.new ≡ record self.old { is_spent = true } }
    {
        self.spent = true;
        Err(error)
    }
}
