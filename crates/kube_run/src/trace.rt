//! The lines of a trace, to a sink.

ghost use Rattle.std.specs.Prelude.{◌≡◌, ◌≤◌, ◌++◌, OnOk, OnErr, IsErrOf};
ghost use Rattle.std.specs.Io.KnownBytes.{Appends};
ghost use Rattle.kube_text.specs.Causes.{Rose};
ghost use Rattle.kube_text.specs.Part.{AppendsPart};
ghost use Rattle.kube_text.specs.Refusals.{refusal_text};
ghost use Rattle.kube_text.specs.TraceText.{lines_text};
ghost use Rattle.kube_text.specs.TraceView.{seen_records};

use kube_text::failed::Unwritten;
use kube_text::output::write_all;
use kube_text::record::{ScriptRecord, write_record};
use kube_text::refusal::{Refusal, refusal_line};
use kube_text::sink::Sink;
use std::alloc::Global;

/// Writes the records of turns, each as a line. Where that fails the first bytes of their text were written, or none.
pub fn write_records<W: Sink>(
    alloc: Global,
    records: &[ScriptRecord],
    sink: &mut W,
) -> Result<(), Unwritten>
    ensures all { OnOk result (Appends (W.written sink.old) (W.written sink.new) (lines_text (seen_records 0 records.now))) }
    ensures part { OnErr result (AppendsPart (W.written sink.old) (W.written sink.new) (lines_text (seen_records 0 records.now))) }
    ensures fault { IsErrOf result Unwritten.Fault → Rose (W.faults sink.old) (W.faults sink.new) }
    ensures later { W.faults sink.old ≤ W.faults sink.new }
{
    for turn in 0..records.len() {
        write_record(alloc, turn as u64, &records[turn], sink)?;
    }
    Ok(())
}

/// Writes the records of turns, and why there are none of further turns.
pub fn write_refused<W: Sink>(
    alloc: Global,
    records: &[ScriptRecord],
    refusal: &Refusal,
    sink: &mut W,
) -> Result<(), Unwritten>
    ensures all { OnOk result (Appends (W.written sink.old) (W.written sink.new) (lines_text (seen_records 0 records.now) ++ refusal_text refusal.now)) }
    ensures part { OnErr result (AppendsPart (W.written sink.old) (W.written sink.new) (lines_text (seen_records 0 records.now) ++ refusal_text refusal.now)) }
    ensures fault { IsErrOf result Unwritten.Fault → Rose (W.faults sink.old) (W.faults sink.new) }
    ensures later { W.faults sink.old ≤ W.faults sink.new }
{
    write_records(alloc, records, sink)?;
    write_refusal(alloc, refusal, sink)?;
    Ok(())
}

/// Writes the line of a refusal. Where a write fails the first of its bytes were written, or none; where memory is wanting, none.
pub fn write_refusal<W: Sink>(
    alloc: Global,
    refusal: &Refusal,
    sink: &mut W,
) -> Result<(), Unwritten>
    ensures all { OnOk result (Appends (W.written sink.old) (W.written sink.new) (refusal_text refusal.now)) }
    ensures part { OnErr result (AppendsPart (W.written sink.old) (W.written sink.new) (refusal_text refusal.now)) }
    ensures unwritten { IsErrOf result Unwritten.NoMemory → sink.new ≡ sink.old }
    ensures fault { IsErrOf result Unwritten.Fault → Rose (W.faults sink.old) (W.faults sink.new) }
    ensures later { W.faults sink.old ≤ W.faults sink.new }
{
    let Ok(line) = refusal_line(alloc, refusal) else {
        return Err(Unwritten::NoMemory);
    };
    match write_all(sink, &line) {
        Ok(()) => Ok(()),
        Err(_) => Err(Unwritten::Fault),
    }
}
