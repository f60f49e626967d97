//! Runs a controller by a script, or over a generated input (`kube_run::process`).
#![tactic(auto)]

use kube_run::process::run_process;
use std::process::ExitCode;

fn main(rt: HostRuntime) -> ExitCode {
    run_process(&rt)
}
