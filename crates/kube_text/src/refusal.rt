//! The lines that tell of a refusal.

ghost use Rattle.std.specs.Prelude.{◌≡◌, ◌++◌, IfOk, codes};
ghost use Rattle.kube_text.specs.Shown.{ShowsMembers, ShowsFront, tokens_of};
ghost use Rattle.kube_text.specs.Refusals.{script_members, placed_members, turn_members, finish_members, unnamed_members, refusal_members, refusal_data, refusal_text};
ghost use Rattle.kube_text.specs.declared.refusal.Refusal as refusals;

use crate::show::{Show, member, text_member};
use json::Writer;
use kube_meta::Text;
use std::alloc::{AllocError, Global};

/// Why there is no trace, or none of further turns. Turns, finishes and sources are counted from 0; places are JSON Pointers
/// (RFC 6901).
#[derive(Debug, Drop)]
pub enum Refusal {
    /// The words name nothing that the program does.
    Usage,
    /// The script is longer than a script may be.
    TooLong,
    /// The script has no reading as JSON.
    Syntax,
    /// What stands there, or is missing there, has not the form of a script.
    Shape { place: Text },
    /// In an object there stands a number that is neither a `u64` nor an `i64`.
    Fraction { place: Text },
    /// The turn's moment falls, or is past the greatest.
    Moment { turn: u32 },
    /// The finish names nothing that runs.
    NotRunning { turn: u32, finish: u64 },
    /// The finish names what an earlier one of the turn names.
    Twice { turn: u32, finish: u64 },
    /// An object without a name came from the source.
    Unnamed { source: u32, turn: u32 },
}

impl Show for Refusal {
    ghost Seen = { refusals.Refusal };

    ghost seen = { λ r. r };

    ghost data_of = { refusal_data };

    fn show(&self, alloc: Global, out: &mut Writer) -> Result<(), AllocError> {
        out.begin_object()?;
        show_members(alloc, out, self)?;
        out.end_object()?;
        Ok(())
    }
}

/// The members of the line, by the bytes of their names.
fn show_members(alloc: Global, out: &mut Writer, refusal: &Refusal) -> Result<(), AllocError>
    ensures before { out.new.before ≡ out.old.before }
    ensures members { ShowsMembers result out.old out.new (refusal_members refusal.now) }
    ensures front { ShowsFront result out.old out.new (refusal_members refusal.now) }
{
    match refusal {
        Refusal::Usage => text_member(out, "error", "usage")?,
        Refusal::TooLong => show_script(out, "too long")?,
        Refusal::Syntax => show_script(out, "syntax")?,
        Refusal::Shape { place } => show_placed(alloc, out, "shape", place)?,
        Refusal::Fraction { place } => show_placed(alloc, out, "fraction", place)?,
        Refusal::Moment { turn } => show_turn(alloc, out, turn, "moment")?,
        Refusal::NotRunning { turn, finish } => {
            show_finish(alloc, out, finish, turn, "not running")?
        }
        Refusal::Twice { turn, finish } => show_finish(alloc, out, finish, turn, "twice")?,
        Refusal::Unnamed { source, turn } => show_unnamed(alloc, out, source, turn)?,
    }
    Ok(())
}

fn show_script(out: &mut Writer, fault: &str) -> Result<(), AllocError>
    ensures before { out.new.before ≡ out.old.before }
    ensures members { ShowsMembers result out.old out.new (script_members fault.now) }
    ensures front { ShowsFront result out.old out.new (script_members fault.now) }
{
    text_member(out, "error", "script")?;
    text_member(out, "fault", fault)?;
    Ok(())
}

fn show_placed(alloc: Global, out: &mut Writer, fault: &str, place: &Text) -> Result<(), AllocError>
    ensures before { out.new.before ≡ out.old.before }
    ensures members { ShowsMembers result out.old out.new (placed_members fault.now place.now) }
    ensures front { ShowsFront result out.old out.new (placed_members fault.now place.now) }
{
    show_script(out, fault)?;
    member(alloc, out, "place", place)?;
    Ok(())
}

fn show_turn(alloc: Global, out: &mut Writer, turn: &u32, why: &str) -> Result<(), AllocError>
    ensures before { out.new.before ≡ out.old.before }
    ensures members { ShowsMembers result out.old out.new (turn_members turn.now why.now) }
    ensures front { ShowsFront result out.old out.new (turn_members turn.now why.now) }
{
    text_member(out, "error", "turn")?;
    member(alloc, out, "turn", turn)?;
    text_member(out, "why", why)?;
    Ok(())
}

fn show_finish(
    alloc: Global,
    out: &mut Writer,
    finish: &u64,
    turn: &u32,
    why: &str,
) -> Result<(), AllocError>
    ensures before { out.new.before ≡ out.old.before }
    ensures members { ShowsMembers result out.old out.new (finish_members finish.now turn.now why.now) }
    ensures front { ShowsFront result out.old out.new (finish_members finish.now turn.now why.now) }
{
    text_member(out, "error", "turn")?;
    member(alloc, out, "finish", finish)?;
    member(alloc, out, "turn", turn)?;
    text_member(out, "why", why)?;
    Ok(())
}

fn show_unnamed(alloc: Global, out: &mut Writer, source: &u32, turn: &u32) -> Result<(), AllocError>
    ensures before { out.new.before ≡ out.old.before }
    ensures members { ShowsMembers result out.old out.new (unnamed_members source.now turn.now) }
    ensures front { ShowsFront result out.old out.new (unnamed_members source.now turn.now) }
{
    text_member(out, "error", "unnamed")?;
    member(alloc, out, "source", source)?;
    member(alloc, out, "turn", turn)?;
    Ok(())
}

/// The line of a refusal, with its line feed.
///
/// Errors: want of memory.
#[tactic(auto, using(crate::proofs::Text::closed))]
pub fn refusal_line(alloc: Global, refusal: &Refusal) -> Result<Vec<u8>, AllocError>
    ensures { IfOk result (λ line. line.items ≡ refusal_text refusal.now) }
{
    let mut writer = Writer::new(Vec::new(alloc));
    refusal.show(alloc, &mut writer)?;
    let mut line = writer.into_inner();
    line.push(b'\n')?;
    Ok(line)
}
