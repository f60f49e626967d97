//! Runs of messages (kube-runtime's tests of `runner`).

ghost use Rattle.std.specs.Prelude.{◌≡◌};
ghost use Rattle.kube_sched.specs.Runs.{MakesFutures};

use super::{Message, SECOND, Script, asks};
use futures::Future;
use futures::channel::oneshot;
use futures::task::{Context, Poll};
use futures::test::MockTask;
use kube_meta::{Moment, Next};
use kube_sched::runner::{AtOnce, Error};
use kube_sched::{Runner, ToldFuture, Untold, scheduler};
use std::alloc::Global;
use std::panic::Expect;
use std::process::Abort;
use std::test::Fail;

/// Is ready after so many polls.
#[derive(Drop)]
struct Countdown {
    value: u64,
    left: u32,
}

impl Future for Countdown {
    type Output = u64;

    fn poll(&mut self, cx: &mut Context<'_>) -> Poll<u64> {
        if self.left == 0 {
            return Poll::Ready(self.value);
        }
        self.left -= 1;
        cx.yield_now()
    }
}

/// A run of a message, which is over after one poll.
fn run(message: &Message) -> Untold<Countdown> {
    Untold {
        future: Countdown {
            value: message.tag,
            left: 1,
        },
    }
}

const NOT_READY: u64 = 1000;

const SPENT: u64 = 1001;

const END: u64 = 1002;

const CANCELED: u64 = 1003;

/// What a poll answered: the value of a run, how it ended, or that the readiness failed.
fn number_of(answer: &Next<Result<u64, Error<oneshot::Canceled>>>) -> u64 {
    match answer {
        Next::Item(Ok(value)) => *value,
        Next::Item(Err(Error::Readiness(_))) => CANCELED,
        Next::NotReady => NOT_READY,
        Next::Spent => SPENT,
        Next::End => END,
    }
}

/// What is sent once messages may start.
type Ready = Untold<oneshot::Receiver<()>>;

/// A runner of requests, without readiness.
fn runner_of<MkF: FnMut(&Message) -> Untold<Countdown> + Drop>(
    alloc: Global,
    requests: Script,
    run_msg: MkF,
) -> Runner<Message, Script, Untold<Countdown>, MkF, AtOnce>
    ensures { result.makes ≡ run_msg }
{
    Runner::new(alloc, scheduler(alloc, requests), 0, run_msg)
}

/// Polls a runner at moments, each with what it answers.
fn poll_all<F: ToldFuture + Future<Output = u64>, MkF: FnMut(&Message) -> F + Drop>(
    rt: &impl Abort,
    task: &MockTask,
    alloc: Global,
    runner: &mut Runner<Message, Script, F, MkF, Ready>,
    polls: &[(u64, u64)],
)
    requires call { (makes : MkF) → MkF.IsAlwaysCallable makes }
    requires futures { MakesFutures MkF.FnMut F.can_poll }
{
    for (at, wanted) in polls {
        let answer = task
            .enter(|cx| runner.poll_next(alloc, cx, Moment(*at), 9))
            .expect(rt, "memory");
        assert_eq!(rt; number_of(&answer), *wanted, "at {at}");
    }
}

#[test]
fn nothing_starts_before_readiness_and_no_equal_one_at_once(rt: HostRuntime) -> Result<(), Fail> {
    let alloc = rt.alloc();
    let task = MockTask::new(&rt).expect(&rt, "memory");
    let (send, receive) = oneshot::channel(alloc).expect(&rt, "memory");
    let requests = asks(
        &[(1, 0, 0), (2, 0, 0), (1, 0, 0), (1, SECOND, SECOND)],
        None,
    );
    let mut runner = runner_of(alloc, requests, run).delay_tasks_until(Untold { future: receive });
    poll_all(&rt, &task, alloc, &mut runner, &[(0, NOT_READY)]);
    assert!(rt; send.send(()).is_ok());
    let polls = [
        (0, NOT_READY),
        (SECOND, NOT_READY),
        (SECOND, 2),
        (SECOND, 1),
        (SECOND, NOT_READY),
        (SECOND, NOT_READY),
        (SECOND, 1),
        (SECOND, NOT_READY),
    ];
    poll_all(&rt, &task, alloc, &mut runner, &polls);
    Ok(())
}

#[test]
fn a_new_readiness_goes_on_after_a_failed_one(rt: HostRuntime) -> Result<(), Fail> {
    let alloc = rt.alloc();
    let task = MockTask::new(&rt).expect(&rt, "memory");
    let (send, receive) = oneshot::channel(alloc).expect(&rt, "memory");
    drop(send);
    let requests = asks(&[(1, 0, 0)], None);
    let mut failing = runner_of(alloc, requests, run).delay_tasks_until(Untold { future: receive });
    poll_all(&rt, &task, alloc, &mut failing, &[(0, CANCELED), (0, END)]);
    let (send, receive) = oneshot::channel(alloc).expect(&rt, "memory");
    assert!(rt; send.send(()).is_ok());
    let mut runner = failing.delay_tasks_until(Untold { future: receive });
    let polls = [(0, NOT_READY), (0, NOT_READY), (0, 1), (0, NOT_READY)];
    poll_all(&rt, &task, alloc, &mut runner, &polls);
    Ok(())
}

#[test]
fn a_failed_readiness_is_shown(rt: HostRuntime) -> Result<(), Fail> {
    let text = format!(in rt.alloc(); "{}", Error::Readiness(7u32)).expect(&rt, "memory");
    assert_eq!(rt; text.as_str(), "readiness gate failed to become ready: 7");
    Ok(())
}
