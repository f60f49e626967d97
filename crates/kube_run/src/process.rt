//! The program as a process runs it.

use crate::heard::Heard;
use crate::program::run_program;
use crate::status::Status;
use kube_hints::hints;
use kube_stdio::stdio::{StandardInput, StandardOutput};
use std::env;
use std::io::ErrorKind;
use std::process::ExitCode;

/// What is told on standard error where the words name nothing that the program does.
const USAGE: &str =
    "usage: kube_program run < SCRIPT\n       kube_program gen SEED OBJECTS TURNS\n\nrun reads a script, runs a controller by it, and writes a line for each turn.\ngen runs a controller over an input that it makes, of 1 to 20000 objects, for 1 to 2000 turns,\nand writes one line of totals.";

/// Runs the program over the process' words, its standard input and its standard output, tells on standard error what may help,
/// and says how the process ends.
pub fn run_process(rt: &HostRuntime) -> ExitCode {
    let mut source = Heard::new(rt.alloc(), StandardInput::new(rt.stdin()));
    let status = run(rt, &mut source);
    tell(rt, status, source.bytes());
    ExitCode::from(status.number())
}

/// Runs the program over the process' words, a source and its standard output.
fn run(rt: &HostRuntime, source: &mut Heard<StandardInput>) -> Status {
    let mut words = Vec::new(rt.alloc());
    match env::args(rt) {
        Ok(args) => {
            for word in args.skip(1) {
                if words.push(word).is_err() {
                    return Status::NoMemory;
                }
            }
        }
        Err(error) if error.kind() == ErrorKind::OutOfMemory => return Status::NoMemory,
        // A word that is no text is none that the program knows.
        Err(_) => {}
    }
    let mut sink = StandardOutput::new(rt.stdout());
    run_program(rt.alloc(), &words, source, &mut sink)
}

/// Tells on standard error what may help. How the program ends is told by its status and its output alone, so no failure of
/// this counts.
fn tell(rt: &HostRuntime, status: Status, read: Option<&[u8]>) {
    match status {
        Status::Usage => tell_line(rt, USAGE),
        Status::ReadFault | Status::WriteFault | Status::NoMemory => tell_line(rt, status.line()),
        Status::Done | Status::BadScript | Status::BadRun => tell_hints(rt, status, read),
    }
}

fn tell_hints(rt: &HostRuntime, status: Status, read: Option<&[u8]>) {
    let Some(bytes) = read else {
        return;
    };
    // The words `gen` read nothing.
    if bytes.is_empty() && status == Status::Done {
        return;
    }
    if let Ok(lines) = hints(rt.alloc(), bytes) {
        for line in &lines {
            tell_line(rt, line.as_str());
        }
    }
}

fn tell_line(rt: &HostRuntime, line: &str) {
    let _told = eprintln!(rt; "{line}");
}
