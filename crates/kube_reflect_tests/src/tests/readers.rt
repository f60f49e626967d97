//! Store handles that read, each in a thread of its own, what another thread publishes, and stores that come with their writers.

ghost use Rattle.std.specs.Prelude.{◌≤◌};

use super::node::Node;
use super::objects::Maps;
use super::steps::{Reads, apply, drop_handle, drop_writer, len_of, place, publish, with_places};
use kube_reflect::store::{store, store_shared};
use kube_reflect::{Store, Writer};
use std::alloc::Global;
use std::panic::Expect;
use std::process::Abort;
use std::sync::Wait;
use std::thread::{self, Threads};

fn drop_nodes(_reads: Store<Node>, _writer: Writer<Node>) {}

#[test]
fn stores_come_with_their_writers(rt: HostRuntime) {
    let (reads, writer) = store::<Node>(rt.alloc(), 2).expect(&rt, "memory");
    drop_nodes(reads, writer);
    let (reads, writer) = store_shared::<Node>(rt.alloc(), 1, 1).expect(&rt, "memory");
    drop_nodes(reads, writer);
}

/// An object is applied that has the name of this batch and number.
fn apply_by(rt: &impl Abort, alloc: Global, writer: &mut Maps, batch: u32, number: u32) {
    let said = format!(in alloc; "Apply {batch}-{number}").expect(rt, "memory");
    apply(rt, alloc, writer, said.as_str()).expect(rt, "applied");
}

/// So many objects are applied, with names of this batch.
fn apply_each(rt: &impl Abort, alloc: Global, writer: &mut Maps, batch: u32, size: u32) {
    for number in 0..size {
        apply_by(rt, alloc, writer, batch, number);
    }
}

/// So many batches of so many objects are applied, each with a publish behind it.
fn publish_each<R: Abort + Wait>(
    rt: &R,
    alloc: Global,
    writer: &mut Maps,
    batches: u32,
    size: u32,
) {
    for batch in 0..batches {
        apply_each(rt, alloc, writer, batch, size);
        assert!(rt; publish(rt, alloc, writer));
    }
}

/// Whether the lengths that a handle reads never fall, until it reads this one or has looked ten million times.
fn never_falls<R: Wait>(rt: &R, reads: &mut Reads, wanted: usize) -> bool {
    let mut last = 0;
    for _look in 0..10_000_000u32 {
        let len = len_of(rt, reads);
        if len < last {
            return false;
        }
        if len == wanted {
            return true;
        }
        last = len;
    }
    true
}

/// So many handles of a writer.
fn handles_of(rt: &impl Abort, alloc: Global, writer: &mut Maps, readers: u32) -> Vec<Reads> {
    let mut handles = Vec::new(alloc);
    for _place in 0..readers {
        let handle = place(rt, writer);
        handles.push(handle).expect(rt, "memory");
    }
    handles
}

/// Whether the lengths that handles read, each in a thread of its own, never fall.
fn all_rise<R: Abort + Threads + Wait + Sync>(rt: &R, handles: Vec<Reads>, wanted: usize) -> bool {
    let rises = thread::map_vec(
        rt,
        handles,
        &|mut reads| never_falls(rt, &mut reads, wanted),
    )
    .expect(rt, "memory");
    for rises in &rises {
        if !*rises {
            return false;
        }
    }
    true
}

/// The lengths never fall that all but one of so many readers read while so many batches of so many objects are published, which are
/// together what is wanted. The last reader looks when all is done.
fn check_rises<R: Abort + Threads + Wait + Sync>(
    rt: &R,
    alloc: Global,
    readers: u32,
    batches: u32,
    size: u32,
    wanted: usize,
)
    requires { 1 ≤ readers }
{
    let mut writer = with_places(rt, alloc, readers);
    let mut handles = handles_of(rt, alloc, &mut writer, readers);
    let mut last = handles.pop().expect(rt, "a handle is there");
    let (rise, ()) = thread::join(
        rt,
        || all_rise(rt, handles, wanted),
        || publish_each(rt, alloc, &mut writer, batches, size),
    );
    assert!(rt; rise);
    assert_eq!(rt; len_of(rt, &mut last), wanted);
    drop_handle(last);
    drop_writer(writer);
}

#[test]
fn lengths_never_fall_while_another_thread_publishes(rt: HostRuntime) {
    check_rises(&rt, rt.alloc(), 2, 1_000, 1, 1_000);
}

#[test]
fn eight_readers_look_while_a_writer_publishes(rt: HostRuntime) {
    check_rises(&rt, rt.alloc(), 9, 100, 100, 10_000);
}
