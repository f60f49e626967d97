//! Records of a trace, a line each.

ghost use Rattle.std.specs.Prelude.{◌≡◌, ◌≤◌, ◌++◌, List, false, true, OnOk, OnErr, IsErrOf, map, option_map, codes};
ghost use Rattle.std.specs.Arc.{arc_value};
ghost use Rattle.std.specs.Io.KnownBytes.{Appends};
ghost use Rattle.serde_json.specs.Data.{member as data_member};
ghost use Rattle.kube_meta.specs.Writing.{object_data};
ghost use Rattle.kube_model.specs.declared.turn.Stop.{Stop as stop_type};
ghost use Rattle.kube_text.specs.Causes.{Rose};
ghost use Rattle.kube_text.specs.Part.{AppendsPart};
ghost use Rattle.kube_text.specs.Pieces.{AddsMembers, BreaksOffMembers};
ghost use Rattle.kube_text.specs.Shown.{ShowsMembers, ShowsFront, tokens_of, array_of, member_if as data_member_if};
ghost use Rattle.kube_text.specs.TraceText.{ShownFinish, text_or_null, finish_members, finish_data, stop_word as stop_word_of, stop_data, line_members, line_text};
ghost use Rattle.kube_text.specs.TraceView.{error_text, seen_finish, seen_record};

use crate::failed::Unwritten;
use crate::output::write_all;
use crate::pieces::{write_list, write_member};
use crate::show::{Show, member};
use crate::sink::Sink;
use crate::taken::write_takes;
use json::Writer;
use kube_meta::{Action, List, Text};
use kube_object::ScriptObject;
use kube_turn::{Finished, Stop, TurnRecord};
use std::alloc::{AllocError, Global};
use std::sync::Arc;

/// The record of a turn. A reconcile's fault is a text.
pub type ScriptRecord = TurnRecord<ScriptObject, Text>;

impl Show for Finished<ScriptObject, Text> {
    ghost Seen = { ShownFinish };

    ghost seen = { seen_finish };

    ghost data_of = { finish_data };

    #[tactic(auto, using(crate::proofs::Shown::object_shown), unfolding(crate::specs::TraceText::finish_data))]
    fn show(&self, alloc: Global, out: &mut Writer) -> Result<(), AllocError> {
        out.begin_object()?;
        show_finish(alloc, out, self)?;
        out.end_object()?;
        Ok(())
    }
}

#[tactic(auto, unfolding(crate::specs::TraceText::finish_members))]
fn show_finish(
    alloc: Global,
    out: &mut Writer,
    finished: &Finished<ScriptObject, Text>,
) -> Result<(), AllocError>
    ensures before { out.new.before ≡ out.old.before }
    ensures members { ShowsMembers result out.old out.new (finish_members (seen_finish finished.now)) }
    ensures front { ShowsFront result out.old out.new (finish_members (seen_finish finished.now)) }
{
    show_outcome(alloc, out, &finished.outcome)?;
    member(alloc, out, "ref", &finished.reference)?;
    member(alloc, out, "requeue", &finished.action.requeue_after())?;
    Ok(())
}

/// The text of the fault of a reconcile that failed.
#[tactic(auto, using(crate::proofs::Shown::member_shown), unfolding(crate::specs::Shown::tokens_of))]
fn show_outcome(
    alloc: Global,
    out: &mut Writer,
    outcome: &Result<Action, Text>,
) -> Result<(), AllocError>
    ensures before { out.new.before ≡ out.old.before }
    ensures members { ShowsMembers result out.old out.new (data_member (codes "error") (text_or_null (error_text outcome.now))) }
    ensures front { ShowsFront result out.old out.new (data_member (codes "error") (text_or_null (error_text outcome.now))) }
{
    match outcome {
        Ok(_) => {
            out.key("error")?;
            out.null()?;
        }
        Err(text) => member(alloc, out, "error", text)?,
    }
    Ok(())
}

impl Show for Stop {
    ghost Seen = { stop_type };

    ghost seen = { λ s. s };

    ghost data_of = { stop_data };

    #[tactic(auto, unfolding(crate::specs::Shown::tokens_of))]
    fn show(&self, _alloc: Global, out: &mut Writer) -> Result<(), AllocError> {
        out.string(stop_word(self))?;
        Ok(())
    }
}

/// Why a source was asked no more, in words.
fn stop_word(stop: &Stop) -> &'static str
    ensures { result.now ≡ stop_word_of stop.now }
{
    match stop {
        Stop::NotReady => "not ready",
        Stop::Shutdown => "shutdown",
        Stop::Budget => "budget",
        Stop::Paused => "paused",
    }
}

/// Writes the record of the turn of this number, counted from 0, as a line.
///
/// No more is held of the line than [`PIECE`](crate::pieces::PIECE) bytes and an item or a member: where it is longer
/// what is held is written, and the line goes on. Where that fails the first bytes of the line were written, or none.
pub fn write_record<W: Sink>(
    alloc: Global,
    turn: u64,
    record: &ScriptRecord,
    sink: &mut W,
) -> Result<(), Unwritten>
    ensures all { OnOk result (Appends (W.written sink.old) (W.written sink.new) (line_text (seen_record turn «record».now))) }
    ensures part { OnErr result (AppendsPart (W.written sink.old) (W.written sink.new) (line_text (seen_record turn «record».now))) }
    ensures fault { IsErrOf result Unwritten.Fault → Rose (W.faults sink.old) (W.faults sink.new) }
    ensures later { W.faults sink.old ≤ W.faults sink.new }
{
    let line = Vec::from_slice(alloc, b"{")?;
    let mut line = write_members(alloc, sink, line, turn, record)?;
    line.extend_from_slice(b"}\n")?;
    write_all(sink, &line)?;
    Ok(())
}

/// Adds the members of a record, by the bytes of their names.
fn write_members<W: Sink>(
    alloc: Global,
    sink: &mut W,
    line: Vec<u8>,
    turn: u64,
    record: &ScriptRecord,
) -> Result<Vec<u8>, Unwritten>
    ensures adds { AddsMembers result (W.written sink.old) (W.written sink.new) line.items false (line_members (seen_record turn «record».now)) }
    ensures part { BreaksOffMembers result (W.written sink.old) (W.written sink.new) line.items false (line_members (seen_record turn «record».now)) }
    ensures fault { IsErrOf result Unwritten.Fault → Rose (W.faults sink.old) (W.faults sink.new) }
    ensures later { W.faults sink.old ≤ W.faults sink.new }
{
    let line = write_list(alloc, sink, line, false, "asks", &record.exchanges)?;
    let line = write_member(alloc, sink, line, true, "at", &record.at.0)?;
    let line = write_member(alloc, sink, line, true, "ended", &record.ended)?;
    let line = write_list(alloc, sink, line, true, "finished", &record.finished)?;
    let line = write_list(alloc, sink, line, true, "stops", &record.stops)?;
    let line = write_store(alloc, sink, line, &record.store)?;
    let line = write_takes(alloc, sink, line, &record.taken)?;
    write_member(alloc, sink, line, true, "turn", &turn)
}

/// Adds the stored objects, where they are shown.
fn write_store<W: Sink>(
    alloc: Global,
    sink: &mut W,
    line: Vec<u8>,
    store: &Option<List<Arc<ScriptObject>>>,
) -> Result<Vec<u8>, Unwritten>
    ensures adds { AddsMembers result (W.written sink.old) (W.written sink.new) line.items true (data_member_if (codes "store") (option_map (array_of object_data) (option_map (map arc_value) store.now))) }
    ensures part { BreaksOffMembers result (W.written sink.old) (W.written sink.new) line.items true (data_member_if (codes "store") (option_map (array_of object_data) (option_map (map arc_value) store.now))) }
    ensures fault { IsErrOf result Unwritten.Fault → Rose (W.faults sink.old) (W.faults sink.new) }
    ensures later { W.faults sink.old ≤ W.faults sink.new }
{
    match store {
        None => Ok(line),
        Some(store) => write_list(alloc, sink, line, true, "store", store),
    }
}
