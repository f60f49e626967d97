//! Futures by key (kube-runtime's tests of `future_hash_map`).

use futures::channel::oneshot;
use futures::test::MockTask;
use kube_meta::Polled;
use kube_sched::{FutureHashMap, Untold};
use std::alloc::Global;
use std::panic::Expect;
use std::process::Abort;
use std::test::Fail;

const EMPTY: u32 = 1000;

const NOT_READY: u32 = 1001;

/// What a poll of channels gave: a value, or how it ended.
fn received(answer: Polled<Option<Result<u32, oneshot::Canceled>>>) -> u32 {
    match answer {
        Polled::Ready(Some(Ok(value))) => value,
        Polled::Ready(Some(Err(_))) => 1002,
        Polled::Ready(None) => EMPTY,
        Polled::NotReady => NOT_READY,
    }
}

type Received = FutureHashMap<u8, Untold<oneshot::Receiver<u32>>>;

/// What a poll of a map of channels gives.
fn poll_received(task: &MockTask, map: &mut Received) -> u32 {
    received(task.enter(|cx| map.poll_next(cx)))
}

/// Polls a map before and after each of two values comes.
fn receive_each(
    rt: &impl Abort,
    task: &MockTask,
    map: &mut Received,
    send0: oneshot::Sender<u32>,
    send1: oneshot::Sender<u32>,
) {
    assert_eq!(rt; poll_received(task, map), NOT_READY);
    assert!(rt; send0.send(10u32).is_ok());
    assert_eq!(rt; poll_received(task, map), 10);
    assert_eq!(rt; poll_received(task, map), NOT_READY);
    assert!(rt; send1.send(11u32).is_ok());
    assert_eq!(rt; poll_received(task, map), 11);
    assert_eq!(rt; poll_received(task, map), EMPTY);
}

/// Puts what comes through a channel at a key.
fn insert_received(
    rt: &impl Abort,
    alloc: Global,
    map: &mut Received,
    key: u8,
    future: oneshot::Receiver<u32>,
) {
    map.insert(alloc, key, Untold { future })
        .expect(rt, "memory");
}

#[test]
fn futures_end_one_after_another(rt: HostRuntime) -> Result<(), Fail> {
    let alloc = rt.alloc();
    let task = MockTask::new(&rt).expect(&rt, "memory");
    let mut map = FutureHashMap::new(alloc);
    let (send0, receive0) = oneshot::channel(alloc).expect(&rt, "memory");
    let (send1, receive1) = oneshot::channel(alloc).expect(&rt, "memory");
    insert_received(&rt, alloc, &mut map, 0, receive0);
    insert_received(&rt, alloc, &mut map, 1, receive1);
    receive_each(&rt, &task, &mut map, send0, send1);
    Ok(())
}
