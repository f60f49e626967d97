//! A value that is set once.

use kube_meta::Polled;
use kube_reflect::{DelayedInit, InitDropped};
use std::alloc::Global;
use std::panic::Expect;
use std::process::Abort;
use std::sync::Wait;
use std::thread;

type Delayed = DelayedInit<u32>;

/// Checks what a poll gives.
fn check_poll<R: Abort + Wait>(rt: &R, delayed: &mut Delayed, wanted: &str) {
    let word = match delayed.poll_get(rt) {
        Polled::NotReady => "not ready",
        Polled::Ready(Err(InitDropped)) => "dropped",
        Polled::Ready(Ok(1)) => "1",
        Polled::Ready(Ok(_)) => "another value",
    };
    assert_eq!(rt; word, wanted);
}

/// What polls give once an initializer has set the value 1, or has abandoned.
fn check_set<R: Abort + Wait>(rt: &R, alloc: Global, sets: bool, wanted: &str) {
    let (initializer, mut delayed) = DelayedInit::new(alloc).expect(rt, "memory");
    check_poll(rt, &mut delayed, "not ready");
    let _note = if sets {
        initializer.init(rt, 1)
    } else {
        initializer.abandon(rt)
    };
    check_poll(rt, &mut delayed, wanted);
    check_poll(rt, &mut delayed, wanted);
}

#[test]
fn what_was_set_stays(rt: HostRuntime) {
    check_set(&rt, rt.alloc(), true, "1");
    check_set(&rt, rt.alloc(), false, "dropped");
}

/// Polls until there is an outcome, or so many turns are over.
fn poll_for<R: Wait>(rt: &R, mut delayed: Delayed, turns: u32) -> Delayed {
    for _turn in 0..turns {
        if let Polled::Ready(_) = delayed.poll_get(rt) {
            return delayed;
        }
        thread::yield_now();
    }
    delayed
}

#[test]
fn one_thread_sets_what_another_sees(rt: HostRuntime) {
    let (initializer, delayed) = DelayedInit::new(rt.alloc()).expect(&rt, "memory");
    let shared = &rt;
    let (_note, mut delayed) = thread::join(
        &rt,
        move || initializer.init(shared, 1),
        move || poll_for(shared, delayed, 1000),
    );
    check_poll(&rt, &mut delayed, "1");
}
