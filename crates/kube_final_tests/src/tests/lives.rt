//! Lives: which lists of steps are one, and what they come to on a server.

use super::{halves, is_text, owned, text};
use kube_final::laws::{LifeState, LifeStep, PlayedLife, guarded, play, valid};
use kube_meta::{List, Text};
use std::alloc::Global;
use std::panic::Expect;
use std::process::Abort;
use std::rt::HostRuntime;

/// Steps, and how the object stands at their end, where they are a life. A step is its kind with its number; a change by another
/// party has a letter for each finalizer. In order: no finalizer; gone after the first arrival, and the second changes nothing; once it has
/// gone it is not changed, nor asked to be deleted, nor seen; gone without a cleanup, where no Apply started; a late patch of a cleanup
/// is refused, and the finalizer of another party's list stays; an Apply starts on a sight before the deletion, after a Cleanup
/// succeeded; no other party adds or removes the name; what is named was made before; the patch of a cleanup is sent only after one
/// succeeded, which started.
const ROWS: &str = "\
other- | []
decide-0 send-0 arrive-0 delete-0 decide-4 cleanup-1 cleaned-1 send-1 arrive-1 arrive-1 | gone
delete-0 other- | no life
delete-0 delete-0 | no life
delete-0 decide-1 | no life
delete-0 decide-0 send-0 arrive-0 | gone
other-a decide-1 send-0 arrive-0 delete-0 decide-5 cleanup-1 cleaned-1 send-1 other-f arrive-1 decide-11 | [\"f\"] deleting
decide-0 send-0 arrive-0 delete-0 decide-4 cleanup-1 cleaned-1 decide-3 apply-2 | [\"f\"] deleting
other-f | no life
other-ab other-b | [\"b\"]
decide-1 | no life
decide-0 apply-0 | no life
decide-0 arrive-0 | no life
decide-0 send-0 arrive-0 delete-0 decide-4 cleanup-1 failed-1 send-1 | no life
decide-0 send-0 arrive-0 delete-0 decide-4 cleaned-1 | no life";

fn names(rt: &impl Abort, alloc: Global, letters: &str) -> List<Text> {
    let mut names = List::new(alloc);
    for name in ["a", "b", "f"] {
        if letters.contains(name) {
            names.push(text(rt, alloc, name)).expect(rt, "memory");
        }
    }
    names
}

fn step(rt: &impl Abort, alloc: Global, word: &str) -> LifeStep {
    let (kind, rest) = word.split_once('-').unwrap_or(("", ""));
    let number = rest.parse().unwrap_or(0);
    match kind {
        "other" => LifeStep::Other {
            finalizers: names(rt, alloc, rest),
        },
        "delete" => LifeStep::RequestDelete,
        "decide" => LifeStep::Decide { sight: number },
        "apply" => LifeStep::ApplyStarts { decision: number },
        "cleanup" => LifeStep::CleanupStarts { decision: number },
        "cleaned" | "failed" => LifeStep::CleanupEnds {
            decision: number,
            ok: kind == "cleaned",
        },
        "send" => LifeStep::Send { decision: number },
        _ => LifeStep::Arrive { send: number },
    }
}

fn steps(rt: &impl Abort, alloc: Global, words: &str) -> Vec<LifeStep> {
    let mut life = Vec::new(alloc);
    for word in words.split_whitespace() {
        life.push(step(rt, alloc, word)).expect(rt, "memory");
    }
    life
}

/// How an object stands.
fn shown(rt: &impl Abort, alloc: Global, state: &LifeState) -> String {
    if state.gone {
        return owned(rt, alloc, "gone");
    }
    let end = if state.deleting { " deleting" } else { "" };
    format!(in alloc; "{:?}{end}", state.finalizers).expect(rt, "memory")
}

/// The same of a life that was played, which ends with it.
fn played_text(rt: &impl Abort, alloc: Global, played: PlayedLife) -> String {
    shown(rt, alloc, &played.state)
}

/// How an object stands at the end of a life, of which the laws hold. (No row has so many steps as the first test is of.)
fn come_of(rt: &impl Abort, alloc: Global, life: &[LifeStep]) -> String {
    if life.len() > 99 || !valid(alloc, life, "f").expect(rt, "memory") {
        return owned(rt, alloc, "no life");
    }
    guarded(life, "f");
    played_text(rt, alloc, play(alloc, life, "f").expect(rt, "memory"))
}

fn outcome(rt: &impl Abort, alloc: Global, words: &str) -> String {
    let life = steps(rt, alloc, words);
    come_of(rt, alloc, life.as_slice())
}

#[test]
fn lives_of_an_object(rt: HostRuntime) {
    for line in ROWS.split('\n') {
        let (words, wanted) = halves(line);
        let outcome = outcome(&rt, rt.alloc(), words);
        is_text(&rt, outcome.as_str(), wanted);
    }
}
