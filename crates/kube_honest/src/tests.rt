//! Controllers over connections to a server of 200 objects that changes between calls: what is stored after each turn is the
//! state at one revision.

mod live;
mod plan;

use kube_control::{Action, Controller, DefaultBackoff, NoRelated, Turn, WatchRoot};
use kube_meta::{DynamicObject, List, Moment, Text};
use kube_step::Recorder;
use kube_watch::Config;
use live::{Live, Row, kind};
use plan::versions;
use std::alloc::Global;
use std::panic::Expect;
use std::process::Abort;
use std::sync::Arc;

type Tested<R> = Controller<WatchRoot<Live<R>>, NoRelated, DefaultBackoff>;

/// Pages of 60, of a list that expires between two of them; a watch that is silent for longer than 6 seconds, and expires before
/// it is opened again.
const LISTED: [Row; 10] = [
    Row {
        at: 0,
        budget: 3,
        changes: 203,
        compacted: 0,
        wanted: 0,
    },
    Row {
        at: 1,
        budget: 9,
        changes: 203,
        compacted: 202,
        wanted: 0,
    },
    Row {
        at: 5,
        budget: 4,
        changes: 205,
        compacted: 0,
        wanted: 204,
    },
    Row {
        at: 6,
        budget: 10,
        changes: 210,
        compacted: 0,
        wanted: 210,
    },
    Row {
        at: 7,
        budget: 3,
        changes: 216,
        compacted: 0,
        wanted: 213,
    },
    Row {
        at: 8,
        budget: 10,
        changes: 216,
        compacted: 0,
        wanted: 216,
    },
    Row {
        at: 14,
        budget: 1,
        changes: 216,
        compacted: 0,
        wanted: 216,
    },
    Row {
        at: 15,
        budget: 9,
        changes: 218,
        compacted: 217,
        wanted: 216,
    },
    Row {
        at: 25,
        budget: 4,
        changes: 220,
        compacted: 0,
        wanted: 219,
    },
    Row {
        at: 26,
        budget: 30,
        changes: 230,
        compacted: 0,
        wanted: 230,
    },
];

/// An initial watch over two turns, and then a later one that is opened again after silence.
const STREAMED: [Row; 5] = [
    Row {
        at: 0,
        budget: 100,
        changes: 203,
        compacted: 0,
        wanted: 0,
    },
    Row {
        at: 1,
        budget: 120,
        changes: 205,
        compacted: 204,
        wanted: 205,
    },
    Row {
        at: 9,
        budget: 1,
        changes: 205,
        compacted: 0,
        wanted: 205,
    },
    Row {
        at: 10,
        budget: 5,
        changes: 212,
        compacted: 0,
        wanted: 209,
    },
    Row {
        at: 11,
        budget: 20,
        changes: 215,
        compacted: 0,
        wanted: 215,
    },
];

fn controller<R: Abort + Copy>(
    rt: &R,
    alloc: Global,
    rows: &'static [Row],
    streaming: bool,
) -> Tested<R> {
    let config = Config::default().timeout(1).page_size(60);
    let config = if streaming {
        config.streaming_lists()
    } else {
        config
    };
    let api = Live::new(rt, alloc, rows);
    Controller::new_with(alloc, api, config, kind(rt, alloc)).expect(rt, "memory")
}

/// Takes a turn; whether it was neither refused nor a fault came.
fn runs<R: Abort + Copy>(rt: &R, alloc: Global, controller: &mut Tested<R>, row: Row) -> bool {
    let at = Moment(row.at.saturating_mul(1_000_000_000));
    let budget = vec![in alloc; row.budget].expect(rt, "memory");
    let turn = Turn::new(alloc, at, List::from(budget));
    let turns = vec![in alloc; turn].expect(rt, "memory");
    let context = Arc::new(alloc, ()).expect(rt, "memory");
    let policy = |_: Arc<DynamicObject>, _: &u64, _: Arc<()>| Action::await_change();
    controller
        .run(alloc, &mut Recorder::new(alloc), &policy, context, turns)
        .is_ok()
}

fn number(text: &Option<Text>) -> u64 {
    match text {
        Some(text) => text.as_str().parse::<u64>().unwrap_or(0),
        None => 0,
    }
}

/// The versions of these objects, by the places that their names say.
fn versions_of(objects: &[Arc<DynamicObject>]) -> [u64; 200] {
    let mut versions = [0; 200];
    for object in objects {
        let at = number(&object.metadata.name) as usize;
        if let Some(one) = versions.get_mut(at) {
            *one = number(&object.metadata.resource_version);
        }
    }
    versions
}

/// Whether what is stored is the state at this revision; at 0, nothing.
fn is_stored<R: Abort + Copy>(
    rt: &R,
    alloc: Global,
    controller: &Tested<R>,
    revision: u64,
) -> bool {
    let objects = controller.cache().state(alloc).expect(rt, "memory");
    versions_of(&objects) == versions(revision)
}

/// The second of the first turn that ends in a fault, or after which something else is stored; none where there is no such turn.
fn first_other<R: Abort + Copy>(
    rt: &R,
    alloc: Global,
    controller: &mut Tested<R>,
    rows: &[Row],
) -> Option<u64> {
    for row in rows {
        if !runs(rt, alloc, controller, *row) || !is_stored(rt, alloc, controller, row.wanted) {
            return Some(row.at);
        }
    }
    None
}

/// The same for a controller of its own.
fn first_other_of_new<R: Abort + Copy>(
    rt: &R,
    alloc: Global,
    rows: &'static [Row],
    streaming: bool,
) -> Option<u64> {
    let mut controller = controller(rt, alloc, rows, streaming);
    first_other(rt, alloc, &mut controller, rows)
}

#[test]
fn what_is_stored_is_a_state(rt: HostRuntime) {
    assert_eq!(rt; first_other_of_new(&rt, rt.alloc(), &LISTED, false), None);
    assert_eq!(rt; first_other_of_new(&rt, rt.alloc(), &STREAMED, true), None);
}
