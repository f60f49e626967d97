//! The program over any source and any sink.

ghost use Rattle.std.specs.Prelude.{◌≡◌, ◌+◌, ◌⊎◌, ◌≢◌, ◌++◌, map, string_bytes, Result};
ghost use Rattle.std.specs.Io.KnownBytes.{IsAtEnd};
ghost use Rattle.kube_step.specs.Errors.{refusal_of as refusal_of_turn};
ghost use Rattle.kube_script.specs.Loaded.{Answers, Refuses};
ghost use Rattle.kube_script.specs.Script.{Script as script_data};
ghost use Rattle.kube_script.specs.SeenScript.{seen_script};
ghost use Rattle.kube_script.specs.Whole.{Cause, script_of};
ghost use Rattle.kube_text.specs.Refusals.{refusal_text};
ghost use Rattle.kube_text.specs.TraceText.{lines_text};
ghost use Rattle.kube_text.specs.TraceView.{seen_records};
ghost use Rattle.kube_text.specs.Causes.{Rose};
ghost use Rattle.kube_run.specs.Limit.{longest, TakesAtMost};
ghost use Rattle.kube_text.specs.Part.{AppendsPart};
ghost use Rattle.kube_run.specs.Played.{refusal_at};
ghost use Rattle.kube_run.specs.Commands.{IsCommand};
ghost use Rattle.kube_run.specs.Served.{Serves, RunsFor, RunsFrom, Tells, status_of};

use crate::command::{Command, command_of};
use crate::generated::write_totals;
use crate::input::{Unread, read_all};
use crate::play::play;
use crate::status::Status;
use crate::trace::{write_records, write_refusal, write_refused};
use kube_control::{BadTurn, RunError};
use kube_script::load::script;
use kube_script::{LoadError, Script};
use kube_stdio::source::Source;
use kube_text::failed::Unwritten;
use kube_text::record::ScriptRecord;
use kube_text::refusal::Refusal;
use kube_text::sink::Sink;
use std::alloc::Global;

/// Does what the words name: `run` reads a script, runs a controller by it, and writes a line for each turn; `gen` with a seed,
/// a number of objects and a number of turns runs a controller over an input that it makes, and writes a line of totals.
///
/// The words are those after the program's name. Numbers are in decimal, without a sign and without a leading zero.
pub fn run_program<S: Source, W: Sink>(
    alloc: Global,
    words: &[String],
    source: &mut S,
    sink: &mut W,
) -> Status
    ensures serves { Serves result (map string_bytes words.now) (S.left source.old) (W.written sink.old) (W.written sink.new) }
    ensures read_fault { result ≡ Status.ReadFault → Rose (S.faults source.old) (S.faults source.new) }
    ensures write_fault { result ≡ Status.WriteFault → Rose (W.faults sink.old) (W.faults sink.new) }

    // For other words than `run` nothing is read, and where memory is wanting nothing is written.
    ensures unread { (IsCommand (map string_bytes words.now) Command.Run → ⊥) → source.new ≡ source.old }
    ensures unwritten { (IsCommand (map string_bytes words.now) Command.Run → ⊥) → result ≡ Status.NoMemory → sink.new ≡ sink.old }
    ensures taken { TakesAtMost (longest + 1) (S.left source.old) (S.left source.new) }

    // A script that is run was read to its end.
    ensures whole { IsCommand (map string_bytes words.now) Command.Run → (result ≡ Status.Done) ⊎ (result ≡ Status.BadRun) → IsAtEnd (S.left source.new) }
{
    match command_of(words) {
        Some(Command::Run) => run_source(alloc, source, sink),
        Some(
            Command::Generate {
                seed,
                objects,
                turns,
            },
        ) => write_totals(alloc, seed, objects, turns, sink),
        None => refuse(alloc, &Refusal::Usage, Status::Usage, sink),
    }
}

/// Reads a script, runs a controller by it, and writes a line for each turn.
fn run_source<S: Source, W: Sink>(alloc: Global, source: &mut S, sink: &mut W) -> Status
    ensures runs { RunsFrom result (S.left source.old) (W.written sink.old) (W.written sink.new) }
    ensures read_fault { result ≡ Status.ReadFault → Rose (S.faults source.old) (S.faults source.new) }
    ensures write_fault { result ≡ Status.WriteFault → Rose (W.faults sink.old) (W.faults sink.new) }
    ensures taken { TakesAtMost (longest + 1) (S.left source.old) (S.left source.new) }
    ensures whole { (result ≡ Status.Done) ⊎ (result ≡ Status.BadRun) → IsAtEnd (S.left source.new) }
{
    let bytes = match read_all(alloc, source) {
        Ok(bytes) => bytes,
        Err(Unread::NoMemory) => return Status::NoMemory,
        Err(Unread::Fault) => return Status::ReadFault,
        Err(Unread::TooLong) => {
            return refuse(alloc, &Refusal::TooLong, Status::BadScript, sink);
        }
    };
    run_bytes(alloc, bytes, sink)
}

/// Runs a controller by the script that bytes are, or says why they are none.
fn run_bytes<W: Sink>(alloc: Global, bytes: Vec<u8>, sink: &mut W) -> Status
    ensures runs { RunsFor result (script_of bytes.items) (W.written sink.old) (W.written sink.new) }
    ensures fault { result ≡ Status.WriteFault → Rose (W.faults sink.old) (W.faults sink.new) }
{
    match load(alloc, bytes) {
        Ok(script) => run_script(alloc, script, sink),
        Err(error) => refuse_script(alloc, error, sink),
    }
}

/// The script that bytes are. They are let go before it runs.
fn load(alloc: Global, bytes: Vec<u8>) -> Result<Script, LoadError>
    ensures { Answers result (script_of bytes.items) }
{
    script(alloc, &bytes)
}

/// Writes the line of a refusal, and ends so if that went well.
fn refuse<W: Sink>(alloc: Global, refusal: &Refusal, status: Status, sink: &mut W) -> Status
    requires { status ≢ Status.WriteFault }
    ensures tells { Tells result status (refusal_text refusal.now) (W.written sink.old) (W.written sink.new) }
    ensures unwritten { status ≢ Status.NoMemory → result ≡ Status.NoMemory → sink.new ≡ sink.old }
    ensures fault { result ≡ Status.WriteFault → Rose (W.faults sink.old) (W.faults sink.new) }
{
    match write_refusal(alloc, refusal, sink) {
        Ok(()) => status,
        Err(error) => unwritten(error),
    }
}

/// Says why bytes are no script.
fn refuse_script<W: Sink>(alloc: Global, error: LoadError, sink: &mut W) -> Status
    ensures runs { (input : Result script_data Cause) → Refuses error input → RunsFor result input (W.written sink.old) (W.written sink.new) }
    ensures fault { result ≡ Status.WriteFault → Rose (W.faults sink.old) (W.faults sink.new) }
{
    match error {
        LoadError::NoMemory => Status::NoMemory,
        LoadError::TooLong => refuse(alloc, &Refusal::TooLong, Status::BadScript, sink),
        LoadError::Syntax => refuse(alloc, &Refusal::Syntax, Status::BadScript, sink),
        LoadError::Shape(place) => {
            refuse(alloc, &Refusal::Shape { place }, Status::BadScript, sink)
        }
        LoadError::Fraction(place) => {
            refuse(alloc, &Refusal::Fraction { place }, Status::BadScript, sink)
        }
    }
}

/// Runs a controller by a script, and writes the records of its turns.
fn run_script<W: Sink>(alloc: Global, script: Script, sink: &mut W) -> Status
    ensures runs { RunsFor result (Result.Ok (seen_script script)) (W.written sink.old) (W.written sink.new) }
    ensures fault { result ≡ Status.WriteFault → Rose (W.faults sink.old) (W.faults sink.new) }
{
    match play(alloc, script) {
        Ok(trace) => write_trace(alloc, trace.records.as_slice(), sink),
        Err(RunError::NoMemory { trace }) => write_first(alloc, trace.records.as_slice(), sink),
        // A controller that was just made isn't spent.
        Err(RunError::Spent { trace }) => write_first(alloc, trace.records.as_slice(), sink),
        Err(RunError::BadTurn { turn, why, trace }) => {
            cut_off(alloc, trace.records.as_slice(), &refused(turn, why), sink)
        }
        Err(
            RunError::UnnamedObject {
                turn,
                source,
                trace,
            },
        ) => {
            let refusal = Refusal::Unnamed { source, turn };
            cut_off(alloc, trace.records.as_slice(), &refusal, sink)
        }
    }
}

/// Why a turn is refused, with its number.
fn refused(turn: u32, why: BadTurn) -> Refusal
    ensures { result ≡ refusal_at turn (refusal_of_turn why) }
{
    match why {
        BadTurn::Moment { .. } => Refusal::Moment { turn },
        BadTurn::NotRunning { finish } => Refusal::NotRunning {
            turn,
            finish: finish as u64,
        },
        BadTurn::Twice { finish } => Refusal::Twice {
            turn,
            finish: finish as u64,
        },
    }
}

/// Writes the records of all turns.
fn write_trace<W: Sink>(alloc: Global, records: &[ScriptRecord], sink: &mut W) -> Status
    ensures tells { Tells result Status.Done (lines_text (seen_records 0 records.now)) (W.written sink.old) (W.written sink.new) }
    ensures fault { result ≡ Status.WriteFault → Rose (W.faults sink.old) (W.faults sink.new) }
{
    match write_records(alloc, records, sink) {
        Ok(()) => Status::Done,
        Err(error) => unwritten(error),
    }
}

/// Writes the records of the turns before one that is refused or has an object without a name, and says which.
fn cut_off<W: Sink>(
    alloc: Global,
    records: &[ScriptRecord],
    refusal: &Refusal,
    sink: &mut W,
) -> Status
    ensures tells { Tells result Status.BadRun (lines_text (seen_records 0 records.now) ++ refusal_text refusal.now) (W.written sink.old) (W.written sink.new) }
    ensures fault { result ≡ Status.WriteFault → Rose (W.faults sink.old) (W.faults sink.new) }
{
    match write_refused(alloc, records, refusal, sink) {
        Ok(()) => Status::BadRun,
        Err(error) => unwritten(error),
    }
}

/// Writes the records of the turns before memory was wanting.
fn write_first<W: Sink>(alloc: Global, records: &[ScriptRecord], sink: &mut W) -> Status
    ensures either { (result ≡ Status.NoMemory) ⊎ (result ≡ Status.WriteFault) }
    ensures part { AppendsPart (W.written sink.old) (W.written sink.new) (lines_text (seen_records 0 records.now)) }
    ensures fault { result ≡ Status.WriteFault → Rose (W.faults sink.old) (W.faults sink.new) }
{
    match write_records(alloc, records, sink) {
        Ok(()) => Status::NoMemory,
        Err(error) => unwritten(error),
    }
}

/// How the program ends where a line was not written whole.
fn unwritten(error: Unwritten) -> Status
    ensures { result ≡ status_of error }
{
    match error {
        Unwritten::Fault => Status::WriteFault,
        Unwritten::NoMemory => Status::NoMemory,
    }
}
