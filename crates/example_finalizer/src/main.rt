//! Volumes that are wiped before they go. The operator is run anew each second: it lists the volumes, reconciles each
//! by a finalizer, and shuts down.
#![tactic(auto)]

use anyhow::{Result, bail};
use kube_control::{
    Action, Controller, DefaultBackoff, Finish, Handed, NoRelated, Recorder, Shutdown, Turn,
    WatchRoot,
};
use kube_final::{Event, Finalizer, finalizer};
use kube_meta::{
    ApiResource, DynamicObject as Volume, List, Moment, ObjectRef, Polled, Text, read_object,
};
use kube_server::{Conn, Server};
use kube_watch::Config;
use serde_json::Value;
use std::alloc::Global;
use std::sync::Arc;
use thiserror::Error;

const SECOND: u64 = 1_000_000_000;

/// Until when the logs are mounted.
const MOUNTED: Moment = Moment(3 * SECOND);

#[derive(Debug, Drop, Error)]
enum WipeFault {
    #[error("the volume is mounted")]
    Mounted,
}

type Fault = finalizer::Error<WipeFault>;

fn kind(alloc: Global) -> Result<Arc<ApiResource>> {
    let resource = ApiResource {
        group: Text::new(alloc, "example.dev")?,
        version: Text::new(alloc, "v1")?,
        api_version: Text::new(alloc, "example.dev/v1")?,
        kind: Text::new(alloc, "Volume")?,
        plural: Text::new(alloc, "volumes")?,
    };
    Ok(Arc::new(alloc, resource)?)
}

/// A server that holds the logs.
fn server(alloc: Global) -> Result<Server> {
    let logs = Value::from_str(alloc, r#"{"metadata":{"name":"logs"}}"#)?;
    let mut server = Server::new(alloc, kind(alloc)?);
    server.put(alloc, read_object(alloc, logs)?)?;
    Ok(server)
}

/// Does what a volume owes.
fn work(rt: &impl Print, owed: &Event<Volume>, now: Moment) -> Result<Result<Action, WipeFault>> {
    match owed {
        Event::Apply(_) => println!(rt; "  the volume is formatted")?,
        Event::Cleanup(_) if now < MOUNTED => return Ok(Err(WipeFault::Mounted)),
        Event::Cleanup(_) => println!(rt; "  the volume is wiped")?,
    }
    Ok(Ok(Action::await_change()))
}

/// Reconciles a volume: does what it owes, and then adds the finalizer or takes it away.
fn reconcile(
    rt: &impl Print,
    alloc: Global,
    server: &mut Server,
    handed: &Handed<Volume>,
    now: Moment,
) -> Result<Finish<Volume, Fault>> {
    let mut guard = Finalizer::new(alloc, "example.dev/wipe", handed.object.clone()?)?;
    let branch = match guard.event()? {
        Some(owed) => Some(work(rt, &owed, now)?),
        None => None,
    };
    let mut objects = server.objects_in(alloc, None)?;
    let Polled::Ready(outcome) = guard.poll(alloc, &mut objects, branch, now)? else {
        bail!("the server is always ready");
    };
    let reference = handed.reference.copy(alloc)?;
    Ok(Finish { reference, outcome })
}

/// Takes a turn, in which the API may be asked three times, and prints what it came to.
fn take_turn(
    rt: &impl Print,
    alloc: Global,
    volumes: &mut Controller<WatchRoot<Conn>, NoRelated, DefaultBackoff>,
    finishes: List<Finish<Volume, Fault>>,
    shutdown: Shutdown,
    at: Moment,
) -> Result<Recorder<Volume>> {
    let turn = Turn {
        at,
        budget: List::from(vec![in alloc; 3]?),
        finishes,
        reload: false,
        on: List::new(alloc),
        shutdown,
        show: false,
    };
    let (mut recorder, turns) = (Recorder::new(alloc), vec![in alloc; turn]?);
    let policy = |_: Arc<Volume>, _: &Fault, _: Arc<()>| Action::await_change();
    let trace = volumes.run(alloc, &mut recorder, &policy, Arc::new(alloc, ())?, turns)?;
    for record in Vec::from(trace.records) {
        for result in record.into_results(alloc)? {
            match result {
                Ok((volume, action)) => println!(rt; "  {volume}: {action:?}")?,
                Err(error) => println!(rt; "  {error}")?,
            }
        }
    }
    Ok(recorder)
}

/// Runs the operator once.
fn operate(rt: &impl Print, alloc: Global, server: &mut Server, now: Moment) -> Result<()> {
    let conn = Conn::new(alloc, server)?;
    let mut volumes = Controller::new_with(alloc, conn, Config::default(), kind(alloc)?)?;
    let recorder = take_turn(rt, alloc, &mut volumes, List::new(alloc), Shutdown::No, now)?;
    let mut finishes = List::new(alloc);
    for handed in recorder.hand_overs() {
        finishes.push(reconcile(rt, alloc, server, handed, now)?)?;
    }
    take_turn(rt, alloc, &mut volumes, finishes, Shutdown::Graceful, now)?;
    Ok(())
}

fn main(rt: HostRuntime) -> Result<()> {
    let alloc = rt.alloc();
    let mut server = server(alloc)?;
    let logs = ObjectRef::new_with(alloc, "logs", kind(alloc)?)?;
    for second in 0..5 {
        println!(rt; "{second} s")?;
        let now = Moment(second * SECOND);
        if second == 2 {
            server.request_delete(alloc, &logs, now)?;
        }
        operate(&rt, alloc, &mut server, now)?;
        for volume in server.objects(alloc)? {
            let meta = &volume.metadata;
            println!(rt;
                "  held, with {:?}, deleted {:?}",
                meta.finalizers, meta.deletion_timestamp
            )?;
        }
    }
    Ok(())
}
