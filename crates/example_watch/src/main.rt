//! Watches deployments: prints those whose desired state changed, each event that a reflector stores, and what is
//! stored at the end.
#![tactic(auto)]

use anyhow::{Result, bail};
use kube_api::{ApiError, ResultPage, Sequence, SequenceStep, TestMode, WatchEvent};
use kube_meta::{ApiResource, DynamicObject as Deployment, Lookup, Moment, Next, ObjectMeta, Text};
use kube_reflect::Writer;
use kube_streams::predicates::generation;
use kube_streams::{
    DefaultBackoff, EventStream, FnPredicate, PredicateConfig, Reflect, StreamBackoff,
    WatchStreamExt,
};
use kube_watch::watcher::watcher;
use kube_watch::{Config, Watcher};
use std::alloc::Global;
use std::collections::VecDeque;
use std::sync::Arc;

const SECOND: u64 = 1_000_000_000;

/// How many answers that give nothing a poll passes over, and how much is read of a stream at a moment.
const FUEL: u32 = 100;

/// What changes, as a name, a version and a generation: the state of the first, and the desired state of the second.
const CHANGED: [(&str, &str, i64); 2] = [("api", "6", 1), ("ui", "7", 2)];

type Object = Arc<Deployment>;

type Source = StreamBackoff<Watcher<TestMode<Deployment>>, DefaultBackoff>;

fn deployment(alloc: Global, name: &str, version: &str, generation: i64) -> Result<Object> {
    let metadata = ObjectMeta {
        name: Some(Text::new(alloc, name)?),
        resource_version: Some(Text::new(alloc, version)?),
        generation: Some(generation),
        ..ObjectMeta::empty()
    };
    Ok(Arc::new(alloc, Deployment::bare(metadata))?)
}

/// A watch that tells of these changes after a second, and then that the first is deleted.
fn watch(alloc: Global) -> Result<Sequence<Deployment>> {
    let mut events = VecDeque::new(alloc);
    for (name, version, generation) in CHANGED {
        let changed = deployment(alloc, name, version, generation)?;
        events.push_back(Ok(WatchEvent::Modified(changed)))?;
    }
    let gone = deployment(alloc, "api", "8", 1)?;
    events.push_back(Ok(WatchEvent::Deleted(gone)))?;
    let mut steps = vec![in alloc; SequenceStep::Wait(SECOND), SequenceStep::List(events)]?;
    steps.push(SequenceStep::Wait(3600 * SECOND))?;
    Ok(Sequence::new(steps))
}

/// An API whose first list fails and whose second gives two deployments.
fn api(alloc: Global) -> Result<TestMode<Deployment>> {
    let (api, ui) = (
        deployment(alloc, "api", "3", 1)?,
        deployment(alloc, "ui", "4", 1)?,
    );
    let page = ResultPage::empty(alloc)
        .resource_version(alloc, Some("5"))?
        .items(vec![in alloc; api, ui]?);
    let refused = ApiError::Transport(Text::new(alloc, "connection refused")?);
    let lists = vec![in alloc; Err(refused), Ok(page.into_page())]?;
    Ok(TestMode::new(alloc, lists, vec![in alloc; watch(alloc)?]?))
}

/// What a watcher of the deployments tells; it waits after an error.
fn source(alloc: Global) -> Result<Source> {
    Ok(watcher(alloc, api(alloc)?, Config::default()).default_backoff())
}

/// The same, which a reflector stores.
fn reflected(alloc: Global) -> Result<Reflect<Source, Deployment>> {
    let kind = ApiResource {
        group: Text::new(alloc, "apps")?,
        version: Text::new(alloc, "v1")?,
        api_version: Text::new(alloc, "apps/v1")?,
        kind: Text::new(alloc, "Deployment")?,
        plural: Text::new(alloc, "deployments")?,
    };
    let writer = Writer::new(alloc, Arc::new(alloc, kind)?, 1)?;
    Ok(source(alloc)?.reflect(writer))
}

/// What a stream gives at a moment; its errors are printed.
fn given<S: EventStream>(
    rt: &impl Print,
    alloc: Global,
    stream: &mut S,
    at: Moment,
) -> Result<Vec<S::Item>>
    requires may { S.can_poll stream.old }
    ensures may { S.can_poll stream.new }
{
    let mut items = Vec::new(alloc);
    for _poll in 0..FUEL {
        match stream.poll_next(alloc, at, FUEL) {
            Ok(Next::Item(Ok(item))) => items.push(item)?,
            Ok(Next::Item(Err(error))) => println!(rt; "  {error}")?,
            Ok(_) => break,
            Err(fault) => bail!("the stream ended: {fault:?}"),
        }
    }
    Ok(items)
}

/// Prints what both streams give second by second.
fn print_all<S: EventStream<Item = Object>>(
    rt: &impl Print,
    alloc: Global,
    changes: &mut S,
    events: &mut Reflect<Source, Deployment>,
) -> Result<()>
    requires may { S.can_poll changes.old }
{
    for second in 0..3 {
        println!(rt; "{second} s")?;
        let now = Moment(second * SECOND);
        for object in given(rt, alloc, changes, now)? {
            let (name, generation) = (object.name().unwrap_or(""), object.metadata.generation);
            println!(rt; "  {name} is of generation {generation:?}")?;
        }
        for event in given(rt, alloc, events, now)? {
            println!(rt; "  {event}")?;
        }
    }
    Ok(())
}

fn main(rt: HostRuntime) -> Result<()> {
    let alloc = rt.alloc();
    let by_generation = FnPredicate(generation::<Deployment>);
    let mut changes = source(alloc)?
        .applied_objects(alloc)
        .predicate_filter(alloc, by_generation, PredicateConfig::default());
    let mut events = reflected(alloc)?;
    print_all(&rt, alloc, &mut changes, &mut events)?;
    for object in events.writer().cache().state(alloc)? {
        let (name, version) = (object.name().unwrap_or(""), object.resource_version());
        println!(rt; "stored: {name} of version {version:?}")?;
    }
    Ok(())
}
