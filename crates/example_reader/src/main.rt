//! One thread stores config maps, a batch at a time, and two threads read the store beside it, each by a handle of
//! its own. A reader waits for no writer, and each read is of one published list.
#![tactic(auto)]

use anyhow::{Result, bail};
use kube_meta::{ApiResource, DynamicObject, NoMemory, ObjectMeta, ObjectRef, Polled, Text};
use kube_reflect::{Store, Writer};
use kube_watch::Event;
use std::alloc::Global;
use std::sync::{Arc, Wait};
use std::thread::{self, Threads};

const BATCHES: u32 = 10;

const BATCH: u32 = 20;

fn config_maps(alloc: Global) -> Result<Arc<ApiResource>, NoMemory> {
    let resource = ApiResource {
        group: Text::new(alloc, "")?,
        version: Text::new(alloc, "v1")?,
        api_version: Text::new(alloc, "v1")?,
        kind: Text::new(alloc, "ConfigMap")?,
        plural: Text::new(alloc, "configmaps")?,
    };
    Ok(Arc::new(alloc, resource)?)
}

/// The config map of this number.
fn config_map(alloc: Global, number: u32) -> Result<Arc<DynamicObject>, NoMemory> {
    let metadata = ObjectMeta {
        name: Some(Text::from(format!(in alloc; "map-{number}")?)),
        namespace: Some(Text::new(alloc, "default")?),
        ..ObjectMeta::empty()
    };
    Ok(Arc::new(alloc, DynamicObject::bare(metadata))?)
}

/// The reference of the last config map.
fn last_map(alloc: Global) -> Result<ObjectRef<DynamicObject>, NoMemory> {
    let name = format!(in alloc; "map-{}", BATCHES * BATCH - 1)?;
    let last = ObjectRef::new_with(alloc, name.as_str(), config_maps(alloc)?)?;
    last.within(alloc, "default")
}

/// Stores all, and publishes after each batch.
fn write<R: Wait>(rt: &R, alloc: Global, writer: &mut Writer<DynamicObject>) -> Result<()> {
    writer.apply_watcher_event(alloc, &Event::InitDone)?;
    for batch in 0..BATCHES {
        for place in 0..BATCH {
            let object = config_map(alloc, batch * BATCH + place)?;
            writer.apply_watcher_event(alloc, &Event::Apply(object))?;
        }
        writer.publish(rt, alloc)?;
    }
    Ok(())
}

/// What a reader saw.
#[derive(Drop)]
struct Seen {
    is_ready: bool,
    /// Whether each read had whole batches, and none was behind the one before.
    is_steady: bool,
    count: usize,
    last: Option<Arc<DynamicObject>>,
}

/// Reads until all is there.
fn read<R: Wait>(
    rt: &R,
    alloc: Global,
    store: &mut Store<DynamicObject>,
) -> Result<Seen, NoMemory> {
    let mut is_steady = true;
    let mut count = 0;
    for _look in 0..u64::MAX {
        let len = store.len(rt);
        is_steady = is_steady && len >= count && len % BATCH as usize == 0;
        count = len;
        if count == (BATCHES * BATCH) as usize {
            break;
        }
    }
    Ok(Seen {
        is_ready: matches!(store.poll_ready(rt), Polled::Ready(Ok(()))),
        is_steady,
        count,
        last: store.get(rt, alloc, &last_map(alloc)?)?,
    })
}

fn print_seen(rt: &impl Print, reader: &str, seen: &Seen) -> Result<()> {
    println!(rt;
        "{reader}: ready {}, steady {}, {} objects, the last found {}",
        seen.is_ready,
        seen.is_steady,
        seen.count,
        seen.last.is_some()
    )?;
    Ok(())
}

/// Two handles of what a writer stores.
fn readers(
    writer: &mut Writer<DynamicObject>,
) -> Result<(Store<DynamicObject>, Store<DynamicObject>)> {
    match (writer.as_reader(), writer.as_reader()) {
        (Some(one), Some(other)) => Ok((one, other)),
        _ => bail!("the writer has two places"),
    }
}

/// Writes in one thread and reads in two. What each of these saw.
fn run<R: Threads + Wait + Sync>(
    rt: &R,
    alloc: Global,
    writer: &mut Writer<DynamicObject>,
    one: &mut Store<DynamicObject>,
    other: &mut Store<DynamicObject>,
) -> Result<(Seen, Seen)> {
    let (written, (one, other)) = thread::join(
        rt,
        || write(rt, alloc, writer),
        || thread::join(rt, || read(rt, alloc, one), || read(rt, alloc, other)),
    );
    written?;
    Ok((one?, other?))
}

fn main(rt: HostRuntime) -> Result<()> {
    let alloc = rt.alloc();
    let mut writer = Writer::new(alloc, config_maps(alloc)?, 2)?;
    let (mut one, mut other) = readers(&mut writer)?;
    let (one, other) = run(&rt, alloc, &mut writer, &mut one, &mut other)?;
    print_seen(&rt, "one", &one)?;
    print_seen(&rt, "the other", &other)
}
