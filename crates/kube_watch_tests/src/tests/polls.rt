//! Polls of a watcher for one event or error each.

use super::script::{Api, Given, Listing, add_line, api, lines, owned, shown_error};
use kube_meta::{DynamicObject, Moment, Next};
use kube_watch::watcher::watcher;
use kube_watch::{Config, Error, Event, EventStream, StreamFault, Watcher};
use std::alloc::Global;
use std::panic::Expect;
use std::process::Abort;
use std::sync::Arc;
use std::test::Fail;

/// A script, the fuel of each poll of a watcher over it, where 0 stands for a poll of it as a stream with a fuel of 1, and what it tells.
#[derive(Drop)]
struct Case {
    name: &'static str,
    lists: &'static [Listing],
    watches: &'static [&'static [Given]],
    fuels: &'static [u32],
    wanted: &'static [&'static str],
}

fn shown_told(
    rt: &impl Abort,
    alloc: Global,
    told: &Result<Event<Arc<DynamicObject>>, Error>,
) -> String {
    match told {
        Ok(event) => format!(in alloc; "{event}").expect(rt, "memory"),
        Err(error) => owned(rt, alloc, shown_error(error)),
    }
}

fn shown(
    rt: &impl Abort,
    alloc: Global,
    answer: &Next<Result<Event<Arc<DynamicObject>>, Error>>,
) -> String {
    match answer {
        Next::Item(told) => shown_told(rt, alloc, told),
        Next::NotReady => owned(rt, alloc, "not ready"),
        Next::Spent => owned(rt, alloc, "spent"),
        Next::End => owned(rt, alloc, "end"),
    }
}

fn next(rt: &impl Abort, alloc: Global, watcher: &mut Watcher<Api>, fuel: u32) -> String {
    let answer = watcher
        .poll_next(alloc, Moment(0), fuel)
        .expect(rt, "memory");
    shown(rt, alloc, &answer)
}

fn poll_stream<S: EventStream>(
    alloc: Global,
    stream: &mut S,
) -> Result<Next<Result<S::Item, Error>>, StreamFault>
    requires { S.can_poll stream.old }
{
    stream.poll_next(alloc, Moment(0), 1)
}

fn streamed(rt: &impl Abort, alloc: Global, watcher: &mut Watcher<Api>) -> String {
    let answer = poll_stream(alloc, watcher).expect(rt, "an answer");
    shown(rt, alloc, &answer)
}

fn told(rt: &impl Abort, alloc: Global, watcher: &mut Watcher<Api>, fuel: u32) -> String {
    match fuel {
        0 => streamed(rt, alloc, watcher),
        _ => next(rt, alloc, watcher, fuel),
    }
}

fn polled(rt: &impl Abort, alloc: Global, watcher: &mut Watcher<Api>, fuels: &[u32]) -> String {
    let mut lines = String::new(alloc);
    for fuel in fuels {
        let line = told(rt, alloc, watcher, *fuel);
        add_line(rt, &mut lines, line.as_str());
    }
    lines
}

/// What polls of the watcher tell.
fn made(rt: &impl Abort, alloc: Global, case: &Case) -> String {
    let api = api(rt, alloc, case.lists, case.watches);
    let mut watcher = watcher(alloc, api, Config::default());
    polled(rt, alloc, &mut watcher, case.fuels)
}

const CASES: [Case; 4] = [
    Case {
        name: "bookmarks alone spend the fuel",
        lists: &[Listing::Page(&[], "", "1")],
        watches: &[&[Given::Bookmark("5"), Given::Bookmark("6")]],
        fuels: &[2, 2, 2],
        wanted: &["Init", "InitDone", "spent"],
    },
    Case {
        name: "events of a page come one by one",
        lists: &[Listing::Page(&["a", "b"], "", "1")],
        watches: &[&[Given::Wait(5)]],
        fuels: &[1, 1, 1, 1, 1, 9],
        wanted: &[
            "Init",
            "InitApply(a)",
            "InitApply(b)",
            "InitDone",
            "spent",
            "not ready",
        ],
    },
    Case {
        name: "an error comes after the events before it",
        lists: &[
            Listing::Page(&["a"], "", ""),
            Listing::Page(&["b"], "", "1"),
        ],
        watches: &[],
        fuels: &[1, 1, 1, 1, 1, 1],
        wanted: &[
            "Init",
            "NoResourceVersion",
            "Init",
            "InitApply(b)",
            "InitDone",
            "WatchStartFailed",
        ],
    },
    Case {
        name: "a watcher is a stream",
        lists: &[Listing::Page(&[], "", "1")],
        watches: &[],
        fuels: &[0],
        wanted: &["Init"],
    },
];

#[test]
fn polls_give_one_event_or_error_each(rt: HostRuntime) -> Result<(), Fail> {
    let alloc = rt.alloc();
    for case in &CASES {
        let made = made(&rt, alloc, case);
        let wanted = lines(&rt, alloc, case.wanted);
        assert_eq!(rt; made.as_str(), wanted.as_str(), "{}", case.name);
    }
    Ok(())
}
