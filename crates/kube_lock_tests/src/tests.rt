//! Passes of one lock, in one thread and in two, with ample memory.

ghost use Rattle.std.specs.Prelude.{◌≡◌, ◌<◌, ◌≤◌, length};
ghost use Rattle.std.specs.List.{AllByRecursion};
ghost use Rattle.kube_lock.specs.Passes.{IsPassOf};

use crate::{Desk, Event, Stock, Thing, What, both_take_all, look, mark, take};
use kube_lock::{Lock, Pass};
use std::alloc::Global;
use std::panic::Expect;
use std::process::Abort;

/// A thing with a number, of a place with a number.
#[derive(Drop)]
struct Coin(u64);

impl Thing for Coin {
    type Place = u8;
}

/// A lock of so many things, with so many passes.
fn opened(
    rt: &impl Abort,
    alloc: Global,
    things: u64,
    passes: u32,
) -> (Lock<Desk<Coin>>, Vec<Pass<Desk<Coin>>>)
    requires count { (1 ≤ passes) × (passes ≤ 64) }
    ensures all { length result.1.items ≡ passes }
    ensures theirs { AllByRecursion (IsPassOf result.0) result.1.items }
{
    let mut coins = Vec::new(alloc);
    for number in 0..things {
        coins.push(Coin(number)).expect(rt, "memory");
    }
    let desk = Desk::new(alloc, Stock::new(coins, 0));
    Lock::open(alloc, desk, passes).ok().expect(rt, "memory")
}

/// The last of these passes.
fn pop_pass(
    rt: &impl Abort,
    lock: &Lock<Desk<Coin>>,
    passes: &mut Vec<Pass<Desk<Coin>>>,
) -> Pass<Desk<Coin>>
    requires { AllByRecursion (IsPassOf lock.now) passes.old.items }
    ensures pass { IsPassOf lock.now result }
    ensures rest { AllByRecursion (IsPassOf lock.now) passes.new.items }
{
    passes.pop().expect(rt, "a pass is there")
}

/// A pass behind these.
fn put_pass(
    rt: &impl Abort,
    lock: &Lock<Desk<Coin>>,
    passes: &mut Vec<Pass<Desk<Coin>>>,
    pass: Pass<Desk<Coin>>,
)
    requires pass { IsPassOf lock.now pass }
    requires passes { AllByRecursion (IsPassOf lock.now) passes.old.items }
    ensures some { 0 < length passes.new.items }
    ensures passes { AllByRecursion (IsPassOf lock.now) passes.new.items }
{
    passes.push(pass).expect(rt, "memory");
}

/// The number of a pass that took something, and what it took.
fn taken(event: &Event<Coin>) -> (u64, Option<u64>) {
    match &event.what {
        What::Took(Some(coin)) => (event.pass, Some(coin.0)),
        _ => (event.pass, None),
    }
}

/// Whether these are takes of all things, in their order, and for each of two passes one that finds nothing at its end.
fn each_was_taken_once(events: &[Event<Coin>], things: u64) -> bool {
    let mut left = things;
    let mut ended = (false, false);
    for event in events {
        match taken(event) {
            (_, Some(number)) => {
                if left.wrapping_sub(1) != number {
                    return false;
                }
                left = number;
            }
            (0, None) => ended.0 = true,
            (_, None) => ended.1 = true,
        }
    }
    left == 0 && ended.0 && ended.1
}

#[test]
fn two_threads_take_each_thing_once(rt: HostRuntime) {
    let (lock, mut passes) = opened(&rt, rt.alloc(), 2_000, 2);
    let two = pop_pass(&rt, &lock, &mut passes);
    let one = pop_pass(&rt, &lock, &mut passes);
    let (one, two) = both_take_all(&rt, &lock, one, two);
    put_pass(&rt, &lock, &mut passes, one);
    put_pass(&rt, &lock, &mut passes, two);
    let events = lock.close(&rt, passes).into_events();
    assert_eq!(rt; events.len(), 2_002);
    assert!(rt; each_was_taken_once(&events, 2_000));
}

#[test]
fn passes_act_in_turn_and_meet(rt: HostRuntime) {
    let (lock, mut passes) = opened(&rt, rt.alloc(), 1, 2);
    let two = pop_pass(&rt, &lock, &mut passes);
    let one = pop_pass(&rt, &lock, &mut passes);
    let one = mark(&rt, &lock, one).ok().expect(&rt, "memory");
    let (two, found) = take(&rt, &lock, two).ok().expect(&rt, "memory");
    let (one, two) = lock.meet(one, two);
    let one = look(&rt, &lock, one);
    put_pass(&rt, &lock, &mut passes, two);
    put_pass(&rt, &lock, &mut passes, one);
    let events = lock.close(&rt, passes).into_events();
    assert!(rt; found);
    assert_eq!(rt; events.len(), 2);
    assert_eq!(rt; events[0].pass, 0);
    assert_eq!(rt; taken(&events[1]), (1, Some(0)));
}

#[test]
fn sixty_four_passes_are_numbered_from_0(rt: HostRuntime) {
    let (lock, passes) = opened(&rt, rt.alloc(), 1, 64);
    let mut next = 0;
    for pass in &passes {
        assert_eq!(rt; pass.number(), next);
        next = pass.number().wrapping_add(1);
    }
    let events = lock.close(&rt, passes).into_events();
    assert_eq!(rt; (next, events.len()), (64, 0));
}
