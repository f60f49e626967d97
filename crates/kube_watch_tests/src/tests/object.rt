//! Watches of one object.

use super::script::{Api, Given, Listing, add_line, api, lines, owned, shown_error};
use kube_meta::{DynamicObject, Moment, Next};
use kube_watch::{Error, WatchObject, watch_object};
use std::alloc::Global;
use std::panic::Expect;
use std::process::Abort;
use std::sync::Arc;
use std::test::Fail;

fn shown_found(rt: &impl Abort, alloc: Global, found: &Option<Arc<DynamicObject>>) -> String {
    match found {
        Some(object) => match &object.metadata.resource_version {
            Some(version) => format!(in alloc; "there <{version}>").expect(rt, "memory"),
            None => owned(rt, alloc, "there"),
        },
        None => owned(rt, alloc, "gone"),
    }
}

fn shown(
    rt: &impl Abort,
    alloc: Global,
    answer: &Next<Result<Option<Arc<DynamicObject>>, Error>>,
) -> String {
    match answer {
        Next::Item(Ok(found)) => shown_found(rt, alloc, found),
        Next::Item(Err(error)) => owned(rt, alloc, shown_error(error)),
        Next::NotReady => owned(rt, alloc, "not ready"),
        Next::Spent => owned(rt, alloc, "spent"),
        Next::End => owned(rt, alloc, "end"),
    }
}

fn look(rt: &impl Abort, alloc: Global, object: &mut WatchObject<Api>, fuel: u32) -> String {
    let answer = object
        .poll_next(alloc, Moment(0), fuel)
        .expect(rt, "memory");
    shown(rt, alloc, &answer)
}

/// A script, the fuel of polls for the object "a" over it, and how they are answered.
#[derive(Drop)]
struct Case {
    name: &'static str,
    lists: &'static [Listing],
    watches: &'static [&'static [Given]],
    fuels: &'static [u32],
    wanted: &'static [&'static str],
}

fn looks(rt: &impl Abort, alloc: Global, object: &mut WatchObject<Api>, fuels: &[u32]) -> String {
    let mut lines = String::new(alloc);
    for fuel in fuels {
        let line = look(rt, alloc, object, *fuel);
        add_line(rt, &mut lines, line.as_str());
    }
    lines
}

/// How polls for the object are answered.
fn made(rt: &impl Abort, alloc: Global, case: &Case) -> String {
    let api = api(rt, alloc, case.lists, case.watches);
    let mut object = watch_object(alloc, api, "a").expect(rt, "memory");
    looks(rt, alloc, &mut object, case.fuels)
}

const CASES: [Case; 3] = [
    Case {
        name: "an object that no list holds is gone",
        lists: &[Listing::Page(&[], "", "1")],
        watches: &[&[Given::Bookmark("5"), Given::Bookmark("6")]],
        fuels: &[5, 2, 1],
        wanted: &["gone", "spent", "spent"],
    },
    Case {
        name: "an object is told as it changes",
        lists: &[Listing::Page(&["a"], "", "1")],
        watches: &[&[
            Given::Modified("a", "2"),
            Given::Deleted("a", "3"),
            Given::Error(500),
            Given::Added("a", "4"),
            Given::Wait(5),
        ]],
        fuels: &[5, 5, 5, 5, 5, 5],
        wanted: &[
            "there",
            "there <2>",
            "gone",
            "WatchError",
            "there <4>",
            "not ready",
        ],
    },
    Case {
        name: "a relist without the object tells that it is gone",
        lists: &[Listing::Page(&["a"], "", "1"), Listing::Page(&[], "", "7")],
        watches: &[&[Given::Error(410)], &[Given::Wait(5)]],
        fuels: &[5, 5, 5, 5],
        wanted: &["there", "WatchError", "gone", "not ready"],
    },
];

#[test]
fn one_object_is_watched(rt: HostRuntime) -> Result<(), Fail> {
    let alloc = rt.alloc();
    for case in &CASES {
        let made = made(&rt, alloc, case);
        let wanted = lines(&rt, alloc, case.wanted);
        assert_eq!(rt; made.as_str(), wanted.as_str(), "{}", case.name);
    }
    Ok(())
}
