//! What triggers make of streams: of pods with owners, without a name, of errors between.

use kube_meta::{
    ApiResource, DynamicObject, List, Moment, Next, NoMemory, ObjectMeta, ObjectRef,
    OwnerReference, Text,
};
use kube_model::error::Error;
use kube_trigger::{
    trigger_others, trigger_owners, trigger_owners_shared, trigger_self, trigger_with,
};
use kube_turn::ReconcileRequest;
use kube_watch::{EventStream, StreamFault};
use std::alloc::Global;
use std::panic::Expect;
use std::process::Abort;
use std::sync::Arc;

type Pod = Arc<DynamicObject>;

type Request = ReconcileRequest<DynamicObject>;

/// What a stream of pods gives.
#[derive(Clone, Copy)]
enum Said {
    /// A pod of this name, owned by a replica set and a deployment.
    Owned(&'static str),
    /// A pod of this name without owners; the empty text for no name.
    Bare(&'static str),
    Failed,
    NotReady,
    Spent,
}

/// Which trigger stands on a stream: for the replica sets that own its pods, plain or shared; for two config maps of each pod; for
/// each pod itself; or for what a function answers, the config map that has its pod's name.
#[derive(Clone, Copy)]
enum By {
    Owners,
    Shared,
    Others,
    Own,
    Function,
}

/// What a stream gives before it ends, and what a trigger on it answers, a poll a line.
type Row = (By, &'static [Said], &'static str);

const OWNED: &str = "ReplicaSet.v1.apps/rs.ns, rs-uid: related object updated: Pod.v1./a.ns
spent
end
";

const ROWS: [Row; 5] = [
    (By::Owners, &[Said::Owned("a"), Said::Bare("b")], OWNED),
    (By::Shared, &[Said::Owned("a"), Said::Bare("b")], OWNED),
    (
        By::Others,
        &[Said::Bare("a"), Said::NotReady, Said::Bare("")],
        "ConfigMap.v1./cm1, no uid: related object updated: Pod.v1./a.ns
ConfigMap.v1./cm2, no uid: related object updated: Pod.v1./a.ns
not ready
unnamed
unnamed
",
    ),
    (
        By::Own,
        &[Said::Failed, Said::Spent, Said::Bare("a")],
        "error
spent
Pod.v1./a.ns, no uid: object updated
end
",
    ),
    (
        By::Function,
        &[Said::Failed, Said::Bare("a"), Said::Bare("")],
        "error
ConfigMap.v1./a, no uid: unknown
unnamed
unnamed
",
    ),
];

fn text(rt: &impl Abort, alloc: Global, text: &str) -> Text {
    Text::new(alloc, text).expect(rt, "memory")
}

fn owner(rt: &impl Abort, alloc: Global, kind: &str, name: &str, uid: &str) -> OwnerReference {
    OwnerReference {
        api_version: text(rt, alloc, "apps/v1"),
        kind: text(rt, alloc, kind),
        name: text(rt, alloc, name),
        uid: text(rt, alloc, uid),
    }
}

fn owners(rt: &impl Abort, alloc: Global) -> List<OwnerReference> {
    let replica_set = owner(rt, alloc, "ReplicaSet", "rs", "rs-uid");
    let deployment = owner(rt, alloc, "Deployment", "d", "d-uid");
    List::from(vec![in alloc; replica_set, deployment].expect(rt, "memory"))
}

/// A pod of this name, or of none, in the namespace `ns`.
fn pod(rt: &impl Abort, alloc: Global, name: &str, is_owned: bool) -> Pod {
    let metadata = ObjectMeta {
        name: if name.is_empty() {
            None
        } else {
            Some(text(rt, alloc, name))
        },
        namespace: Some(text(rt, alloc, "ns")),
        owner_references: if is_owned {
            Some(owners(rt, alloc))
        } else {
            None
        },
        ..ObjectMeta::empty()
    };
    Arc::new(alloc, DynamicObject::bare(metadata)).expect(rt, "memory")
}

/// Gives its answers, one a poll, and then ends. It has what it stops by for want of memory.
#[derive(Drop)]
struct Scripted<R> {
    rt: R,
    script: &'static [Said],
    next: usize,
}

impl<R: Abort + Copy> EventStream for Scripted<R> {
    ghost use Rattle.std.specs.Prelude.{None};

    type Item = Pod;

    ghost told = { λ _. None };

    ghost fault = { λ _. None };

    fn poll_next(
        &mut self,
        alloc: Global,
        _now: Moment,
        _fuel: u32,
    ) -> Result<Next<Result<Pod, Error>>, StreamFault> {
        let Some(said) = self.script.get(self.next) else {
            return Ok(Next::End);
        };
        self.next = self.next.saturating_add(1);
        Ok(match *said {
            Said::Owned(name) => Next::Item(Ok(pod(&self.rt, alloc, name, true))),
            Said::Bare(name) => Next::Item(Ok(pod(&self.rt, alloc, name, false))),
            Said::Failed => Next::Item(Err(Error::NoResourceVersion)),
            Said::NotReady => Next::NotReady,
            Said::Spent => Next::Spent,
        })
    }
}

/// The type of this name, in a group.
fn kind(rt: &impl Abort, alloc: Global, group: &str, name: &str) -> Arc<ApiResource> {
    let resource = ApiResource::new(alloc, group, "v1", name, name).expect(rt, "memory");
    Arc::new(alloc, resource).expect(rt, "memory")
}

/// A request's reference with the uid that it keeps, and its reason, as a line.
fn shown_request(rt: &impl Abort, alloc: Global, request: &Request) -> String {
    let uid = match &request.obj_ref.extra.uid {
        Some(uid) => uid.as_str(),
        None => "no uid",
    };
    format!(in alloc; "{}, {uid}: {}\n", request.obj_ref, request.reason).expect(rt, "memory")
}

/// The line of an answer.
fn shown(
    rt: &impl Abort,
    alloc: Global,
    answer: &Result<Next<Result<Request, Error>>, StreamFault>,
) -> String {
    let word = match answer {
        Ok(Next::Item(Ok(request))) => return shown_request(rt, alloc, request),
        Ok(Next::Item(Err(_))) => "error\n",
        Ok(Next::NotReady) => "not ready\n",
        Ok(Next::Spent) => "spent\n",
        Ok(Next::End) => "end\n",
        Err(StreamFault::Unnamed) => "unnamed\n",
        Err(StreamFault::NoMemory) => "no memory\n",
    };
    String::from_str(alloc, word).expect(rt, "memory")
}

/// What so many polls of a stream with fuel 1 answer, a line each.
fn polled<S: EventStream<Item = Request>>(
    rt: &impl Abort,
    alloc: Global,
    stream: S,
    polls: usize,
) -> String
    requires { S.can_poll stream }
{
    let mut stream = stream;
    let mut lines = String::new(alloc);
    for _poll in 0..polls {
        let answer = stream.poll_next(alloc, Moment(0), 1);
        let line = shown(rt, alloc, &answer);
        lines.push_str(line.as_str()).expect(rt, "memory");
    }
    lines
}

/// The config map of this name.
fn config_map(alloc: Global, name: &str) -> Result<ObjectRef<DynamicObject>, NoMemory> {
    let resource = ApiResource::new(alloc, "", "v1", "ConfigMap", "configmaps")?;
    ObjectRef::new_with(alloc, name, Arc::new(alloc, resource)?)
}

fn two_config_maps(alloc: Global) -> Result<Vec<ObjectRef<DynamicObject>>, NoMemory> {
    let mut references = Vec::new(alloc);
    references.push(config_map(alloc, "cm1")?)?;
    references.push(config_map(alloc, "cm2")?)?;
    Ok(references)
}

/// The request for the config map that has the name of a pod; a pod without a name is refused.
fn namesake(alloc: Global, pod: &Pod) -> Result<Vec<Request>, StreamFault> {
    let Some(name) = &pod.metadata.name else {
        return Err(StreamFault::Unnamed);
    };
    let mut requests = Vec::new(alloc);
    let request = ReconcileRequest::from_ref(config_map(alloc, name.as_str())?);
    match requests.push(request) {
        Ok(()) => Ok(requests),
        Err(_) => Err(StreamFault::NoMemory),
    }
}

/// The types of owners and of pods.
fn kinds(rt: &impl Abort, alloc: Global) -> (Arc<ApiResource>, Arc<ApiResource>) {
    let owners = kind(rt, alloc, "apps", "ReplicaSet");
    (owners, kind(rt, alloc, "", "Pod"))
}

fn by_owners<R: Abort + Copy>(rt: &R, alloc: Global, stream: Scripted<R>, polls: usize) -> String {
    let (owner, child) = kinds(rt, alloc);
    let stream = trigger_owners(alloc, stream, owner, child);
    polled(rt, alloc, stream, polls)
}

fn by_shared<R: Abort + Copy>(rt: &R, alloc: Global, stream: Scripted<R>, polls: usize) -> String {
    let (owner, child) = kinds(rt, alloc);
    let stream = trigger_owners_shared(alloc, stream, owner, child);
    polled(rt, alloc, stream, polls)
}

fn by_others<R: Abort + Copy>(rt: &R, alloc: Global, stream: Scripted<R>, polls: usize) -> String {
    let child = kind(rt, alloc, "", "Pod");
    let stream = trigger_others(alloc, stream, |_: &Pod| two_config_maps(alloc), child);
    polled(rt, alloc, stream, polls)
}

fn by_own<R: Abort + Copy>(rt: &R, alloc: Global, stream: Scripted<R>, polls: usize) -> String {
    let stream = trigger_self(alloc, stream, kind(rt, alloc, "", "Pod"));
    polled(rt, alloc, stream, polls)
}

fn by_function<R: Abort + Copy>(
    rt: &R,
    alloc: Global,
    stream: Scripted<R>,
    polls: usize,
) -> String {
    let stream = trigger_with(alloc, stream, |pod: Pod| namesake(alloc, &pod));
    polled(rt, alloc, stream, polls)
}

/// What polls of the trigger of a row answer, as many as it has lines.
fn answered<R: Abort + Copy>(rt: &R, alloc: Global, row: Row) -> String {
    let (by, script, wanted) = row;
    let polls = wanted.lines().count();
    let stream = Scripted {
        rt: *rt,
        script,
        next: 0,
    };
    match by {
        By::Owners => by_owners(rt, alloc, stream, polls),
        By::Shared => by_shared(rt, alloc, stream, polls),
        By::Others => by_others(rt, alloc, stream, polls),
        By::Own => by_own(rt, alloc, stream, polls),
        By::Function => by_function(rt, alloc, stream, polls),
    }
}

#[test]
fn triggers_answer_what_their_rows_say(rt: HostRuntime) {
    for row in ROWS {
        let answered = answered(&rt, rt.alloc(), row);
        assert_eq!(rt; answered.as_str(), row.2);
    }
}
