//! Does one thing to so many messages of a schedule, or to so many objects of a cache, for whoever measures it from outside: how is
//! said in `docs/PERFORMANCE.md`. It reads no clock.
#![tactic(auto)]

mod messages;
mod objects;
mod words;

use std::alloc::Global;
use std::env;
use std::process::ExitCode;
use words::{Job, Thing, job_named};

/// A number that is mixed with those before: where the count isn't a multiple of 7919, the numbers below it give each once.
fn mixed(number: u32, count: u32) -> u32 {
    let count = u64::from(count.max(1));
    (u64::from(number).wrapping_mul(7919) % count) as u32
}

/// What is left after one round, if there was memory.
fn measured(alloc: Global, job: Job) -> Option<usize> {
    match job.thing {
        Thing::Messages(phase) => messages::measured(alloc, phase, job.count).ok(),
        Thing::Objects(phase, is_mixed) => objects::measured(alloc, is_mixed, phase, job.count),
    }
}

/// What is left after the last round, if there was memory.
fn rounds(alloc: Global, job: Job) -> Option<usize> {
    let mut left = Some(0);
    for _round in 0..job.rounds {
        left = measured(alloc, job);
    }
    left
}

/// What is said of a job, and the exit status.
fn told(rt: &HostRuntime, job: Job) -> std::io::Result<ExitCode> {
    match rounds(rt.alloc(), job) {
        Some(left) => {
            println!(rt; "{left}")?;
            Ok(ExitCode::SUCCESS)
        }
        None => Ok(ExitCode::from(7)),
    }
}

fn main(rt: HostRuntime) -> ExitCode {
    match job_named(&rt) {
        Some(job) => told(&rt, job).unwrap_or(ExitCode::FAILURE),
        None => {
            let _told = eprintln!(rt;
                "usage: kube_measure messages|rising|mixed PHASE COUNT ROUNDS"
            );
            ExitCode::from(2)
        }
    }
}
