//! All that a source has left.

ghost use Rattle.std.specs.Prelude.{◌≡◌, ◌+◌, ◌≤◌, ◌<◌, IfOk, IfSome, IsErrOf, length};
ghost use Rattle.std.specs.Io.KnownBytes.{IsAtEnd};
ghost use Rattle.kube_text.specs.Causes.{Rose};
ghost use Rattle.kube_run.specs.Limit.{longest, TakesAtMost};

use kube_stdio::source::Source;
use std::alloc::Global;

/// The greatest length of a script in bytes.
pub const LONGEST: usize = 16_777_216;

/// How many bytes are asked for at a time.
const PIECE: usize = 8192;

/// Why a source was not read to its end.
#[derive(Clone, Copy, Debug, PartialEq, Eq)]
pub enum Unread {
    /// A read failed.
    Fault,
    /// More bytes were there than a script may have.
    TooLong,
    /// Memory could not be had.
    NoMemory,
}

/// Reads all that a source has left, if that is no more than a script may have.
#[tactic(auto, using(crate::proofs::Known::taken_then))]
pub fn read_all<S: Source>(alloc: Global, source: &mut S) -> Result<Vec<u8>, Unread>
    ensures all { IfOk result (λ v. IfSome (S.left source.old) (λ bytes. v.items ≡ bytes)) }
    ensures fits { IfOk result (λ v. length v.items ≤ longest) }
    ensures end { IfOk result (λ _. IsAtEnd (S.left source.new)) }
    ensures too_long { IsErrOf result Unread.TooLong → IfSome (S.left source.old) (λ bytes. longest < length bytes) }
    ensures fault { IsErrOf result Unread.Fault → Rose (S.faults source.old) (S.faults source.new) }
    ensures later { S.faults source.old ≤ S.faults source.new }

    // What was taken are the first of the bytes that were left, and no more than one past the limit.
    ensures taken { TakesAtMost (longest + 1) (S.left source.old) (S.left source.new) }
{
    let mut all = Vec::new(alloc);
    let mut piece = [0u8; PIECE];
    for _ in 0..LONGEST + 2 {
        let room = (LONGEST + 1 - all.len()).min(PIECE);
        let Ok(count) = source.read(&mut piece[..room]) else {
            return Err(Unread::Fault);
        };
        if count == 0 {
            return Ok(all);
        }
        if all.extend_from_slice(&piece[..count]).is_err() {
            return Err(Unread::NoMemory);
        }
        if all.len() > LONGEST {
            return Err(Unread::TooLong);
        }
    }
    Err(Unread::TooLong)
}
