//! Lines that are written while they are made, a piece at a time.
//!
//! A function here takes what is held of a line, which was not written yet, and answers what is held after it. Where it
//! fails the first bytes of the line were written, or none.

ghost use Rattle.std.specs.Prelude.{◌≡◌, ◌≤◌, ◌∷◌, [], ◌++◌, true, false, length, map, IfOk, IsErrOf};
ghost use Rattle.json.specs.Print.{quoted};
ghost use Rattle.serde_json.specs.Data.{member as data_member};
ghost use Rattle.serde_json.specs.View.{items_of};
ghost use Rattle.serde_json.specs.Written.{compact_text, comma_if, items_text};
ghost use Rattle.kube_text.specs.Causes.{Rose};
ghost use Rattle.kube_text.specs.Pieces.{Adds, BreaksOff, AddsMembers, BreaksOffMembers};
ghost use Rattle.kube_text.specs.Shown.{array_of};

use crate::failed::Unwritten;
use crate::output::write_all;
use crate::show::Show;
use crate::sink::Sink;
use json::Writer;
use kube_meta::List;
use std::alloc::{AllocError, Global};

/// How many bytes of a line may be held. Where an item or a member makes them more they are written.
pub const PIECE: usize = 65_536;

/// Writes what is held of a line, where it is longer than a piece, and holds none of it.
fn write_piece<W: Sink>(sink: &mut W, mut line: Vec<u8>) -> Result<Vec<u8>, Unwritten>
    ensures adds { Adds result (W.written sink.old) (W.written sink.new) line.items (λ left. left) }
    ensures part { BreaksOff result (W.written sink.old) (W.written sink.new) line.items (λ left. left) }
    ensures short { IfOk result (λ held. length held.items ≤ PIECE) }
    ensures fault { IsErrOf result Unwritten.Fault → Rose (W.faults sink.old) (W.faults sink.new) }
    ensures later { W.faults sink.old ≤ W.faults sink.new }
{
    if line.len() <= PIECE {
        return Ok(line);
    }
    write_all(sink, &line)?;
    line.clear();
    Ok(line)
}

/// Holds a value more.
fn add_value<T: Show>(alloc: Global, line: Vec<u8>, value: &T) -> Result<Vec<u8>, AllocError>
    ensures { IfOk result (λ held. held.items ≡ line.items ++ compact_text (T.data_of (T.seen value.now))) }
{
    let mut out = Writer::new(line);
    value.show(alloc, &mut out)?;
    Ok(out.into_inner())
}

/// Holds a comma more, where something stands before.
fn add_comma(mut line: Vec<u8>, is_later: bool) -> Result<Vec<u8>, AllocError>
    ensures { IfOk result (λ held. held.items ≡ line.items ++ comma_if is_later) }
{
    if is_later {
        line.push(b',')?;
    }
    Ok(line)
}

/// Holds a member's name more, with its colon, and a comma before it where a member stands before.
fn add_name(line: Vec<u8>, is_later: bool, name: &str) -> Result<Vec<u8>, AllocError>
    ensures { IfOk result (λ held. held.items ≡ line.items ++ (comma_if is_later ++ (quoted name.now ++ 58 ∷ []))) }
{
    let line = add_comma(line, is_later)?;
    let mut out = Writer::new(line);
    out.key(name)?;
    Ok(out.into_inner())
}

/// Adds a member.
pub fn write_member<T: Show, W: Sink>(
    alloc: Global,
    sink: &mut W,
    line: Vec<u8>,
    is_later: bool,
    name: &str,
    value: &T,
) -> Result<Vec<u8>, Unwritten>
    ensures adds { AddsMembers result (W.written sink.old) (W.written sink.new) line.items is_later (data_member name.now (T.data_of (T.seen value.now))) }
    ensures part { BreaksOffMembers result (W.written sink.old) (W.written sink.new) line.items is_later (data_member name.now (T.data_of (T.seen value.now))) }
    ensures short { IfOk result (λ held. length held.items ≤ PIECE) }
    ensures fault { IsErrOf result Unwritten.Fault → Rose (W.faults sink.old) (W.faults sink.new) }
    ensures later { W.faults sink.old ≤ W.faults sink.new }
{
    let line = add_name(line, is_later, name)?;
    let line = add_value(alloc, line, value)?;
    write_piece(sink, line)
}

/// Adds an item of a list, with a comma before it where one stands before.
pub fn write_item<T: Show, W: Sink>(
    alloc: Global,
    sink: &mut W,
    line: Vec<u8>,
    is_later: bool,
    value: &T,
) -> Result<Vec<u8>, Unwritten>
    ensures adds { Adds result (W.written sink.old) (W.written sink.new) line.items (λ left. comma_if is_later ++ (compact_text (T.data_of (T.seen value.now)) ++ left)) }
    ensures part { BreaksOff result (W.written sink.old) (W.written sink.new) line.items (λ left. comma_if is_later ++ (compact_text (T.data_of (T.seen value.now)) ++ left)) }
    ensures short { IfOk result (λ held. length held.items ≤ PIECE) }
    ensures fault { IsErrOf result Unwritten.Fault → Rose (W.faults sink.old) (W.faults sink.new) }
    ensures later { W.faults sink.old ≤ W.faults sink.new }
{
    let line = add_comma(line, is_later)?;
    let line = add_value(alloc, line, value)?;
    write_piece(sink, line)
}

/// Adds the items of a list, with its closing bracket.
fn write_items<T: Show, W: Sink>(
    alloc: Global,
    sink: &mut W,
    mut line: Vec<u8>,
    items: &[T],
) -> Result<Vec<u8>, Unwritten>
    ensures adds { Adds result (W.written sink.old) (W.written sink.new) line.items (λ left. items_text false (items_of (map T.data_of (map T.seen items.now))) ++ left) }
    ensures part { BreaksOff result (W.written sink.old) (W.written sink.new) line.items (λ left. items_text false (items_of (map T.data_of (map T.seen items.now))) ++ left) }
    ensures fault { IsErrOf result Unwritten.Fault → Rose (W.faults sink.old) (W.faults sink.new) }
    ensures later { W.faults sink.old ≤ W.faults sink.new }
{
    let mut is_later = false;
    for value in items {
        line = write_item(alloc, sink, line, is_later, value)?;
        is_later = true;
    }
    line.push(b']')?;
    Ok(line)
}

/// Adds a member whose value is a list.
pub fn write_list<T: Show + Drop, W: Sink>(
    alloc: Global,
    sink: &mut W,
    line: Vec<u8>,
    is_later: bool,
    name: &str,
    items: &List<T>,
) -> Result<Vec<u8>, Unwritten>
    ensures adds { AddsMembers result (W.written sink.old) (W.written sink.new) line.items is_later (data_member name.now (array_of T.data_of (map T.seen items.now))) }
    ensures part { BreaksOffMembers result (W.written sink.old) (W.written sink.new) line.items is_later (data_member name.now (array_of T.data_of (map T.seen items.now))) }
    ensures fault { IsErrOf result Unwritten.Fault → Rose (W.faults sink.old) (W.faults sink.new) }
    ensures later { W.faults sink.old ≤ W.faults sink.new }
{
    let line = begin_list(line, is_later, name)?;
    write_items(alloc, sink, line, items.as_slice())
}

/// Holds the name of a list more, with its opening bracket.
pub fn begin_list(line: Vec<u8>, is_later: bool, name: &str) -> Result<Vec<u8>, AllocError>
    ensures { IfOk result (λ held. held.items ≡ line.items ++ (comma_if is_later ++ (quoted name.now ++ 58 ∷ 91 ∷ []))) }
{
    let mut line = add_name(line, is_later, name)?;
    line.push(b'[')?;
    Ok(line)
}
