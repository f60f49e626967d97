//! Bytes to a sink, to the last one.

ghost use Rattle.std.specs.Prelude.{◌≡◌, OnOk, OnErr};
ghost use Rattle.std.specs.Io.KnownBytes.{Appends};
ghost use Rattle.kube_text.specs.Causes.{HasCause};
ghost use Rattle.kube_text.specs.Part.{AppendsPart};

use crate::failed::Failed;
use crate::sink::Sink;

/// Writes all of `bytes`. Where that fails the first of them were written, or none.
pub fn write_all<W: Sink>(sink: &mut W, bytes: &[u8]) -> Result<(), Failed>
    ensures all { OnOk result (Appends (W.written sink.old) (W.written sink.new) bytes.now) }
    ensures part { OnErr result (AppendsPart (W.written sink.old) (W.written sink.new) bytes.now) }
    ensures cause { HasCause (W.faults sink.old) (W.faults sink.new) result }
{
    let mut at = 0;
    while at < bytes.len() {
        at += sink.write(&bytes[at..])?;
    }
    Ok(())
}
