//! A controller that is fed by what a watcher of a script's API tells, over a store that is published before each take.

use kube_api::TestMode;
use kube_feed::{
    Beside, DefaultBackoff, FedController, NoRelated, One, Owners, Recorder, RelatedStream,
    RunError, Store, StreamRoot, Trace,
};
use kube_meta::{Action, ApiResource, Moment, Next, Text};
use kube_model::error::Error;
use kube_object::ScriptObject;
use kube_reflect::Writer;
use kube_script::load::script;
use kube_script::told::script_turns;
use kube_script::{Related, Script, ScriptTurn, Source};
use kube_streams::reflect::Reflect;
use kube_streams::settled::Settled;
use kube_streams::watch_ext::WatchStreamExt;
use kube_text::{ScriptRecord, VecSink, write_record};
use kube_watch::stream::fault_of;
use kube_watch::watcher::watcher;
use kube_watch::{Event, EventStream, StreamFault, Watcher};
use std::alloc::Global;
use std::panic::Expect;
use std::process::Abort;
use std::sync::{Arc, Wait};

/// A script, and what such a controller writes of it. One that lists and watches takes the same in each turn (a row of the program).
const FED: &str =
    r#"{"kind":{"group":"","version":"v1","kind":"ConfigMap","plural":"configmaps"},"root":{"lists":[{"fault":{"transport":"x"}},{"items":[{"metadata":{"name":"a","resourceVersion":"1"}},{"metadata":{"name":"b","resourceVersion":"1"}}],"metadata":{"resourceVersion":"1"}}],"watches":[[{"wait":10},{"events":[{"type":"MODIFIED","object":{"metadata":{"name":"a","resourceVersion":"2"}}},{"type":"DELETED","object":{"metadata":{"name":"b","resourceVersion":"3"}}},{"type":"ADDED","object":{"metadata":{"name":"c","resourceVersion":"4"}}}]},{"wait":1000000000000}]]},"related":[{"kind":{"group":"","version":"v1","kind":"Pod","plural":"pods"},"map":"owners","lists":[{"items":[{"metadata":{"name":"p","ownerReferences":[{"apiVersion":"v1","kind":"ConfigMap","name":"a","uid":"u"}]}}],"metadata":{"resourceVersion":"1"}}],"watches":[[{"wait":1000000000000}]]}],"turns":[{"at":0,"budget":[9,0]},{"at":800000000,"budget":[9,0],"show":true},{"at":800000005,"budget":[9,9]},{"at":800000010,"budget":[9,9],"finishes":[{"ref":{"name":"a"}}],"show":true},{"at":800000020,"budget":[9,9],"finishes":[{"ref":{"name":"b"},"ok":0}]},{"at":800000021,"budget":[9,9],"finishes":[{"ref":{"name":"c"}}],"reload":true,"on":[{"name":"d"}]},{"at":800000022,"budget":[9,9],"finishes":[{"ref":{"name":"a"}}],"shutdown":"graceful"}]}
{"asks":[{"answer":"spent","call":"stream","items":[],"requests":[],"source":0},{"answer":"item","call":"stream","error":"InitialListFailed","items":[],"requests":[],"source":0}],"at":0,"ended":false,"finished":[],"stops":["paused","budget"],"taken":[],"turn":0}
{"asks":[{"answer":"spent","call":"stream","items":[],"requests":[],"source":0},{"answer":"spent","call":"stream","items":[],"requests":[],"source":0},{"answer":"spent","call":"stream","items":[],"requests":[],"source":0},{"answer":"item","call":"stream","items":[{"metadata":{"name":"a","resourceVersion":"1"}}],"requests":["ConfigMap.v1./a"],"source":0},{"answer":"item","call":"stream","items":[{"metadata":{"name":"b","resourceVersion":"1"}}],"requests":["ConfigMap.v1./b"],"source":0},{"answer":"spent","call":"stream","items":[],"requests":[],"source":0},{"answer":"not ready","call":"stream","items":[],"requests":[],"source":0}],"at":800000000,"ended":false,"finished":[],"stops":["not ready","budget"],"store":[{"metadata":{"name":"a","resourceVersion":"1"}},{"metadata":{"name":"b","resourceVersion":"1"}}],"taken":[{"found":true,"object":{"metadata":{"name":"a","resourceVersion":"1"}},"reason":"object updated","ref":"ConfigMap.v1./a"},{"found":true,"object":{"metadata":{"name":"b","resourceVersion":"1"}},"reason":"object updated","ref":"ConfigMap.v1./b"}],"turn":1}
{"asks":[{"answer":"spent","call":"stream","items":[],"requests":[],"source":1},{"answer":"not ready","call":"stream","items":[],"requests":[],"source":0},{"answer":"spent","call":"stream","items":[],"requests":[],"source":1},{"answer":"item","call":"stream","items":[],"requests":["ConfigMap.v1./a"],"source":1},{"answer":"spent","call":"stream","items":[],"requests":[],"source":1},{"answer":"not ready","call":"stream","items":[],"requests":[],"source":1}],"at":800000005,"ended":false,"finished":[],"stops":["not ready","not ready"],"taken":[],"turn":2}
{"asks":[{"answer":"item","call":"stream","items":[{"metadata":{"name":"a","resourceVersion":"2"}}],"requests":["ConfigMap.v1./a"],"source":0},{"answer":"not ready","call":"stream","items":[],"requests":[],"source":1},{"answer":"spent","call":"stream","items":[],"requests":[],"source":0},{"answer":"item","call":"stream","items":[{"metadata":{"name":"c","resourceVersion":"4"}}],"requests":["ConfigMap.v1./c"],"source":0},{"answer":"not ready","call":"stream","items":[],"requests":[],"source":0}],"at":800000010,"ended":false,"finished":[{"error":null,"ref":"ConfigMap.v1./a","requeue":null}],"stops":["not ready","not ready"],"store":[{"metadata":{"name":"a","resourceVersion":"2"}},{"metadata":{"name":"c","resourceVersion":"4"}}],"taken":[{"found":true,"object":{"metadata":{"name":"a","resourceVersion":"2"}},"reason":"related object updated: Pod.v1./p","ref":"ConfigMap.v1./a"},{"found":true,"object":{"metadata":{"name":"c","resourceVersion":"4"}},"reason":"object updated","ref":"ConfigMap.v1./c"}],"turn":3}
{"asks":[{"answer":"not ready","call":"stream","items":[],"requests":[],"source":1},{"answer":"not ready","call":"stream","items":[],"requests":[],"source":0}],"at":800000020,"ended":false,"finished":[{"error":null,"ref":"ConfigMap.v1./b","requeue":0}],"stops":["not ready","not ready"],"taken":[{"found":false,"reason":"reconciler requested retry","ref":"ConfigMap.v1./b"}],"turn":4}
{"asks":[{"answer":"not ready","call":"stream","items":[],"requests":[],"source":1},{"answer":"not ready","call":"stream","items":[],"requests":[],"source":0}],"at":800000021,"ended":false,"finished":[{"error":null,"ref":"ConfigMap.v1./c","requeue":null}],"stops":["not ready","not ready"],"taken":[{"found":true,"object":{"metadata":{"name":"c","resourceVersion":"4"}},"reason":"bulk reconcile requested","ref":"ConfigMap.v1./c"},{"found":false,"reason":"unknown","ref":"ConfigMap.v1./d"}],"turn":5}
{"asks":[],"at":800000022,"ended":false,"finished":[{"error":null,"ref":"ConfigMap.v1./a","requeue":null}],"stops":["shutdown","shutdown"],"taken":[],"turn":6}
"#;

type Watched = Watcher<TestMode<ScriptObject>>;

/// A stream of events that a writer has applied, and published after each poll.
#[derive(Drop)]
struct Publishing<R> {
    rt: R,
    stream: Reflect<Watched, ScriptObject>,
    fault: Option<StreamFault>,
}

type Answer = Result<Next<Result<Event<Arc<ScriptObject>>, Error>>, StreamFault>;

impl<R: Abort + Copy + Wait> EventStream for Publishing<R> {
    ghost use Rattle.std.specs.Prelude.{None};

    type Item = Event<Arc<ScriptObject>>;

    ghost told = { λ _. None };

    ghost fault = { λ s. s.fault };

    fn poll_next(&mut self, alloc: Global, now: Moment, _fuel: u32) -> Answer {
        if let Some(fault) = self.fault {
            return Err(fault);
        }
        let answer = self.stream.poll_next(alloc, now, 1);
        let writer = self.stream.writer();
        writer.publish(&self.rt, alloc).expect(&self.rt, "memory");
        self.fault = fault_of(&answer);
        answer
    }
}

type Root<R> = StreamRoot<ScriptObject, Settled<Publishing<R>>>;

type Owned = RelatedStream<ScriptObject, Settled<Watched>, Owners<ScriptObject>>;

type Bare<R> = FedController<Root<R>, NoRelated, DefaultBackoff>;

type Fed<R> = FedController<Root<R>, Beside<NoRelated, One<Owned>>, DefaultBackoff>;

/// The objects that a watcher of a source's API tells a writer.
fn settled<R: Abort + Copy + Wait>(
    rt: &R,
    alloc: Global,
    source: Source,
    writer: Writer<ScriptObject>,
) -> Settled<Publishing<R>> {
    let (api, config) = source.into_api(alloc);
    let stream = Publishing {
        rt: *rt,
        stream: watcher(alloc, api, config).reflect(writer),
        fault: None,
    };
    stream.settled_objects(alloc)
}

/// A controller of the objects of a source.
fn bare<R: Abort + Copy + Wait>(
    rt: &R,
    alloc: Global,
    kind: &Arc<ApiResource>,
    source: Source,
) -> Bare<R> {
    let own = kind.clone().expect(rt, "memory");
    let mut writer = Writer::new(alloc, own, 1).expect(rt, "memory");
    let store: Store<ScriptObject> = writer.as_reader().expect(rt, "a handle");
    let stream = settled(rt, alloc, source, writer);
    let own = kind.clone().expect(rt, "memory");
    FedController::for_stream_with(alloc, stream, store, own)
}

/// The same with the objects that they own.
fn fed<R: Abort + Copy + Wait>(rt: &R, alloc: Global, bare: Bare<R>, related: Related) -> Fed<R> {
    let Related { kind, source, .. } = related;
    let kind = Arc::new(alloc, kind).expect(rt, "memory");
    let (api, config) = source.into_api(alloc);
    let stream = watcher(alloc, api, config).settled_objects(alloc);
    bare.owns_stream_with(alloc, stream, kind)
        .expect(rt, "memory")
}

type Answered = Result<Trace<ScriptObject, Text>, RunError<ScriptObject, Text>>;

/// What these turns make, of which there are nine at most.
fn run<R: Abort + Copy + Wait>(
    rt: &R,
    alloc: Global,
    fed: &mut Fed<R>,
    turns: Vec<ScriptTurn>,
) -> Answered {
    assert!(rt; turns.len() <= 9);
    let context = Arc::new(alloc, ()).expect(rt, "memory");
    let policy = |_: Arc<ScriptObject>, _: &Text, _: Arc<()>| Action::await_change();
    fed.run(
        rt,
        alloc,
        &mut Recorder::new(alloc),
        &policy,
        context,
        turns,
    )
}

fn write(rt: &impl Abort, alloc: Global, records: &[ScriptRecord], sink: &mut VecSink) {
    for (turn, record) in records.iter().enumerate() {
        assert!(rt; write_record(alloc, turn as u64, record, sink).is_ok());
    }
}

/// What the records write.
fn written(rt: &impl Abort, alloc: Global, answered: &Answered) -> VecSink {
    let mut sink = VecSink::new(alloc, Vec::new(alloc), usize::MAX);
    match answered {
        Ok(trace) => write(rt, alloc, trace.records.as_slice(), &mut sink),
        Err(_) => panic!(rt; "refused"),
    }
    sink
}

/// The same of an answer that is let go then.
fn written_once(rt: &impl Abort, alloc: Global, answered: Answered) -> VecSink {
    written(rt, alloc, &answered)
}

/// A controller of the objects of a root, and of those that its one related source gives.
fn controller<R: Abort + Copy + Wait>(
    rt: &R,
    alloc: Global,
    kind: &Arc<ApiResource>,
    root: Source,
    related: Vec<Related>,
) -> Fed<R> {
    let mut related = related;
    let owned = related.pop().expect(rt, "a related source");
    let bare = bare(rt, alloc, kind, root);
    fed(rt, alloc, bare, owned)
}

/// What a script writes whose objects, and those that they own, feed a controller.
fn written_of<R: Abort + Copy + Wait>(rt: &R, alloc: Global, script: Script) -> VecSink {
    let Script {
        kind,
        root,
        related,
        turns,
        ..
    } = script;
    let kind = Arc::new(alloc, kind).expect(rt, "memory");
    let turns = script_turns(alloc, &kind, turns).expect(rt, "memory");
    let mut fed = controller(rt, alloc, &kind, root, related);
    let answered = run(rt, alloc, &mut fed, turns);
    written_once(rt, alloc, answered)
}

#[test]
fn fed_controllers_take_turns(rt: HostRuntime) {
    let (text, wanted) = FED.split_once('\n').unwrap_or(("", ""));
    let read = script(rt.alloc(), text.as_bytes()).ok();
    let written = written_of(&rt, rt.alloc(), read.expect(&rt, "a script"));
    assert_eq!(rt; written.as_slice(), wanted.as_bytes());
}
