//! What the words of the command line name.

use std::env;

/// What is done to the messages of a schedule. Each does what those before it do, and then what it says.
#[derive(Clone, Copy)]
pub enum MessagePhase {
    /// A schedule is made.
    Nothing,
    /// Each message is scheduled.
    Schedule,
    /// Each is scheduled anew, at an earlier moment.
    Again,
    /// All is settled at once.
    Settle,
    /// Each is taken.
    Take,
    /// After `Schedule`: a million settles, of which each finds nothing due.
    Idle,
}

/// What is done to the objects of a cache. Each does what those before it do, and then what it says.
#[derive(Clone, Copy)]
pub enum ObjectPhase {
    /// Objects and references to them are made, in a cache that holds none.
    Nothing,
    /// Each object is applied.
    Apply,
    /// Each is applied once more.
    Again,
    /// Each is looked up, in a mixed order.
    Get,
    /// Each is deleted.
    Delete,
    /// After `Nothing`: the events of a list of all objects are made.
    Tell,
    /// After `Tell`: that list is applied at once.
    List,
}

/// What is measured.
#[derive(Clone, Copy)]
pub enum Thing {
    Messages(MessagePhase),
    /// Whether the objects come in a mixed order.
    Objects(ObjectPhase, bool),
}

/// What is measured, with how many of it, and how often.
#[derive(Clone, Copy)]
pub struct Job {
    pub thing: Thing,
    pub count: u32,
    pub rounds: u32,
}

fn message_phase(word: &str) -> Option<MessagePhase> {
    match word {
        "nothing" => Some(MessagePhase::Nothing),
        "schedule" => Some(MessagePhase::Schedule),
        "again" => Some(MessagePhase::Again),
        "settle" => Some(MessagePhase::Settle),
        "take" => Some(MessagePhase::Take),
        "idle" => Some(MessagePhase::Idle),
        _ => None,
    }
}

fn object_phase(word: &str) -> Option<ObjectPhase> {
    match word {
        "nothing" => Some(ObjectPhase::Nothing),
        "apply" => Some(ObjectPhase::Apply),
        "again" => Some(ObjectPhase::Again),
        "get" => Some(ObjectPhase::Get),
        "delete" => Some(ObjectPhase::Delete),
        "tell" => Some(ObjectPhase::Tell),
        "list" => Some(ObjectPhase::List),
        _ => None,
    }
}

fn named_thing(what: &str, phase: &str) -> Option<Thing> {
    match what {
        "messages" => Some(Thing::Messages(message_phase(phase)?)),
        "rising" => Some(Thing::Objects(object_phase(phase)?, false)),
        "mixed" => Some(Thing::Objects(object_phase(phase)?, true)),
        _ => None,
    }
}

fn job_of(what: &str, phase: &str, count: &str, rounds: &str) -> Option<Job> {
    Some(Job {
        thing: named_thing(what, phase)?,
        count: count.parse().ok()?,
        rounds: rounds.parse().ok()?,
    })
}

fn job_in(words: &[String]) -> Option<Job> {
    match words {
        [_, what, phase, count, rounds] => job_of(what, phase, count, rounds),
        _ => None,
    }
}

/// What the words of the command line name, if anything.
pub fn job_named(rt: &HostRuntime) -> Option<Job> {
    let words: Vec<String> = env::args(rt).ok()?.collect(rt.alloc()).ok()?;
    job_in(&words)
}
