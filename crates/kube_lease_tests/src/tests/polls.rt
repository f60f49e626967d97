//! Candidates over the objects of a server, one of whose APIs loses replies.

use super::{halves, is_text, owned};
use kube_api::{ApiError, DeleteAnswer, ObjectApi, Patch, PatchAnswer};
use kube_lease::{Candidate, LeaseAnswer, new_lease};
use kube_meta::{ApiResource, DynamicObject, Moment, NoMemory, ObjectRef, Polled, Text};
use kube_server::Server;
use std::alloc::Global;
use std::panic::Expect;
use std::process::Abort;
use std::rt::HostRuntime;
use std::sync::Arc;

/// A server's objects, of which each reply to a patch is lost.
#[derive(Drop)]
struct Deaf<'a> {
    server: &'a mut Server,
}

impl<'a> ObjectApi for Deaf<'a> {
    type Value = DynamicObject;

    fn patch(
        &mut self,
        alloc: Global,
        name: &str,
        patch: &[Patch],
        now: Moment,
    ) -> Result<Polled<PatchAnswer<DynamicObject>>, NoMemory> {
        let mut objects = self.server.objects_in(alloc, None)?;
        objects.patch(alloc, name, patch, now)?;
        let torn = ApiError::Transport(Text::new(alloc, "torn")?);
        Ok(Polled::Ready(PatchAnswer::Fault(torn)))
    }

    fn delete(
        &mut self,
        alloc: Global,
        name: &str,
        now: Moment,
    ) -> Result<Polled<DeleteAnswer<DynamicObject>>, NoMemory> {
        let mut objects = self.server.objects_in(alloc, None)?;
        objects.delete(alloc, name, now)
    }
}

/// A server with a lease, and its candidates, which hold it for 10.
#[derive(Drop)]
struct Scene {
    server: Server,
    key: ObjectRef<DynamicObject>,
    x: Candidate,
    y: Candidate,
}

fn resource(rt: &impl Abort, alloc: Global) -> Arc<ApiResource> {
    let resource = ApiResource::new(alloc, "", "v1", "ConfigMap", "configmaps");
    Arc::new(alloc, resource.expect(rt, "memory")).expect(rt, "memory")
}

fn server(rt: &impl Abort, alloc: Global) -> Server {
    let mut server = Server::new(alloc, resource(rt, alloc));
    let lease = new_lease(alloc, "lease").expect(rt, "memory");
    server.put(alloc, lease).expect(rt, "it has a name");
    server
}

fn new_scene(rt: &impl Abort, alloc: Global) -> Scene {
    let key = ObjectRef::new_with(alloc, "lease", resource(rt, alloc));
    Scene {
        server: server(rt, alloc),
        key: key.expect(rt, "memory"),
        x: Candidate::new(alloc, "x", "lease", 10).expect(rt, "memory"),
        y: Candidate::new(alloc, "y", "lease", 10).expect(rt, "memory"),
    }
}

fn shown(rt: &impl Abort, alloc: Global, answer: &Polled<LeaseAnswer>) -> String {
    let Polled::Ready(answer) = answer else {
        return owned(rt, alloc, "not ready");
    };
    let shown = match answer {
        LeaseAnswer::Held { term, until } => format!(in alloc; "held {term} {}", until.0),
        LeaseAnswer::Wait { until } => format!(in alloc; "wait {}", until.0),
        LeaseAnswer::Unseen => format!(in alloc; "unseen"),
        LeaseAnswer::LastTerm => format!(in alloc; "last term"),
        LeaseAnswer::Lost(refusal) => format!(in alloc; "lost {refusal:?}"),
        LeaseAnswer::Fault(error) => format!(in alloc; "{error}"),
        LeaseAnswer::Malformed(place) => format!(in alloc; "malformed {place}"),
    };
    shown.expect(rt, "memory")
}

/// What a poll over the server comes to.
fn poll(
    rt: &impl Abort,
    alloc: Global,
    server: &mut Server,
    candidate: &mut Candidate,
    now: Moment,
) -> String {
    let mut objects = server.objects_in(alloc, None).expect(rt, "memory");
    let answer = candidate.poll(alloc, &mut objects, now);
    shown(rt, alloc, &answer.expect(rt, "memory"))
}

/// The same, where the reply is lost.
fn poll_deaf(
    rt: &impl Abort,
    alloc: Global,
    server: &mut Server,
    candidate: &mut Candidate,
    now: Moment,
) -> String {
    let mut deaf = Deaf { server };
    let answer = candidate.poll(alloc, &mut deaf, now);
    shown(rt, alloc, &answer.expect(rt, "memory"))
}

/// Observes the lease as the server has it.
fn observe(
    rt: &impl Abort,
    alloc: Global,
    server: &Server,
    key: &ObjectRef<DynamicObject>,
    candidate: &mut Candidate,
) -> String {
    let held = server.get(alloc, key).expect(rt, "memory");
    let object: &DynamicObject = held.expect(rt, "it is there");
    candidate.observe(alloc, object).expect(rt, "a lease");
    owned(rt, alloc, "-")
}

/// What a candidate does at a moment.
fn done(
    rt: &impl Abort,
    alloc: Global,
    server: &mut Server,
    key: &ObjectRef<DynamicObject>,
    candidate: &mut Candidate,
    words: &str,
) -> String {
    let (what, moment) = words.split_once(' ').unwrap_or(("", ""));
    let now = Moment(moment.parse().unwrap_or(0));
    match what {
        "observes" => observe(rt, alloc, server, key, candidate),
        "polls" => poll(rt, alloc, server, candidate, now),
        "loses" => poll_deaf(rt, alloc, server, candidate, now),
        _ => {
            let acts = candidate.may_act(now);
            format!(in alloc; "{acts}").expect(rt, "memory")
        }
    }
}

fn one_done(rt: &impl Abort, alloc: Global, scene: &mut Scene, words: &str) -> String {
    let (who, words) = words.split_once(' ').unwrap_or(("", ""));
    let (server, key) = (&mut scene.server, &scene.key);
    match who {
        "x" => done(rt, alloc, server, key, &mut scene.x, words),
        _ => done(rt, alloc, server, key, &mut scene.y, words),
    }
}

/// Who does what at which moment, and what comes of it: a poll, one whose reply is lost, whether it may act. Nothing is sent where no
/// lease was observed, and where it isn't over. What was seen before a renewal is refused. Of one that was taken again, the
/// claim of before is over.
const RENEWED: &str = "\
y polls 0 | unseen
x observes 0 | -
x polls 0 | held 1 10
y observes 0 | -
x polls 5 | held 1 15
y polls 9 | wait 10
y polls 10 | lost TestFailed(1)
y observes 10 | -
y polls 14 | wait 15
x acts 14 | true
x acts 15 | false
y acts 15 | false
y polls 15 | held 2 25
y acts 24 | true
x acts 24 | false
x polls 16 | lost TestFailed(0)";

/// A candidate whose reply is lost may not act until it observes that it holds the lease.
const LOST: &str = "\
x observes 0 | -
x loses 0 | torn
x acts 3 | false
x observes 3 | -
x acts 3 | true
x acts 9 | true
x acts 10 | false
x polls 3 | held 1 13
x acts 12 | true";

fn plays(rt: &impl Abort, alloc: Global, lines: &str) {
    let mut scene = new_scene(rt, alloc);
    for line in lines.split('\n') {
        let (words, wanted) = halves(line);
        let outcome = one_done(rt, alloc, &mut scene, words);
        is_text(rt, outcome.as_str(), wanted);
    }
}

#[test]
fn candidates_over_a_server(rt: HostRuntime) {
    plays(&rt, rt.alloc(), RENEWED);
    plays(&rt, rt.alloc(), LOST);
}

/// The objects of another server have no lease.
#[test]
fn lease_that_is_missing(rt: HostRuntime) {
    let alloc = rt.alloc();
    let mut scene = new_scene(&rt, alloc);
    let _seen = observe(&rt, alloc, &scene.server, &scene.key, &mut scene.x);
    let mut empty = Server::new(alloc, resource(&rt, alloc));
    let answer = poll(&rt, alloc, &mut empty, &mut scene.x, Moment(0));
    is_text(&rt, answer.as_str(), "lost NotFound");
}
