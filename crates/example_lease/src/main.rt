//! Two candidates for one lease, on a server in memory. From 10 s on, until 30 s, nothing that the server says is heard by `blue`.
#![tactic(auto)]

use anyhow::Result;
use kube_api::{DeleteAnswer, ObjectApi, Patch, PatchAnswer};
use kube_lease::{Candidate, LeaseAnswer, new_lease};
use kube_meta::{ApiResource, DynamicObject, Moment, NoMemory, Polled};
use kube_server::Server;
use std::alloc::Global;
use std::sync::Arc;

const SECOND: u64 = 1_000_000_000;

type Patched = Result<Polled<PatchAnswer<DynamicObject>>, NoMemory>;

type Deleted = Result<Polled<DeleteAnswer<DynamicObject>>, NoMemory>;

/// A line to a server: each patch is done, and where the line is down nothing is heard of it.
#[derive(Drop)]
struct Line<'a> {
    server: &'a mut Server,
    down: bool,
}

impl<'a> ObjectApi for Line<'a> {
    type Value = DynamicObject;

    fn patch(&mut self, alloc: Global, name: &str, patch: &[Patch], now: Moment) -> Patched {
        let mut objects = self.server.objects_in(alloc, None)?;
        let answer = objects.patch(alloc, name, patch, now)?;
        Ok(if self.down { Polled::NotReady } else { answer })
    }

    fn delete(&mut self, alloc: Global, name: &str, now: Moment) -> Deleted {
        let mut objects = self.server.objects_in(alloc, None)?;
        objects.delete(alloc, name, now)
    }
}

/// A candidate observes the lease, unless the line is down, and is polled.
fn campaign(
    alloc: Global,
    server: &mut Server,
    who: &mut Candidate,
    down: bool,
    now: Moment,
) -> Result<Polled<LeaseAnswer>> {
    for lease in server.objects(alloc)? {
        if !down {
            who.observe(alloc, &lease)?;
        }
    }
    let mut line = Line { server, down };
    Ok(who.poll(alloc, &mut line, now)?)
}

/// Writes what a candidate's campaign comes to, and whether it may act.
fn report(
    rt: &impl Print,
    alloc: Global,
    server: &mut Server,
    name: &str,
    who: &mut Candidate,
    down: bool,
    now: Moment,
) -> Result<()> {
    let answer = campaign(alloc, server, who, down, now)?;
    println!(rt; "  {name}: {answer:?}, may act: {}", who.may_act(now))?;
    Ok(())
}

/// Both campaign every five seconds, one after the other.
fn run(
    rt: &impl Print,
    alloc: Global,
    server: &mut Server,
    blue: &mut Candidate,
    green: &mut Candidate,
) -> Result<()> {
    for step in 0..8 {
        let now = Moment(5 * step * SECOND);
        let down = step >= 2 && step < 6;
        println!(rt; "{} s", 5 * step)?;
        report(rt, alloc, server, "blue", blue, down, now)?;
        report(rt, alloc, server, "green", green, false, now)?;
    }
    Ok(())
}

/// A server with a lease that nobody has held.
fn open(alloc: Global) -> Result<Server> {
    let kind = ApiResource::new(alloc, "example.dev", "v1", "Lease", "leases")?;
    let mut server = Server::new(alloc, Arc::new(alloc, kind)?);
    server.put(alloc, new_lease(alloc, "leader")?)?;
    Ok(server)
}

fn main(rt: HostRuntime) -> Result<()> {
    let alloc = rt.alloc();
    let mut server = open(alloc)?;
    let mut blue = Candidate::new(alloc, "blue", "leader", 15 * SECOND)?;
    let mut green = Candidate::new(alloc, "green", "leader", 15 * SECOND)?;
    run(&rt, alloc, &mut server, &mut blue, &mut green)
}
