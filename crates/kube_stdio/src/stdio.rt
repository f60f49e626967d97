//! Standard input as a source, standard output and standard error as sinks.

ghost use Rattle.std.specs.Prelude.{◌≡◌, ◌≢◌, ◌<◌, IfOk, IfErr, None, length};
ghost use Rattle.std.specs.Io.{ReadsAtMost, WritesAtMost};
ghost use Rattle.std.specs.IoError.{error_kind};

use crate::source::Source;
use kube_text::failed::Failed;
use kube_text::sink::Sink;
use std::io::{Error, ErrorKind, Read, Stderr, Stdin, Stdout, Write};

/// Standard input. It doesn't tell what is left. A read that a signal interrupted is tried again.
#[derive(Drop)]
pub struct StandardInput {
    stdin: Stdin,
    faults: u64,
}

impl StandardInput {
    /// A source over standard input, no read of which failed yet.
    pub fn new(stdin: Stdin) -> StandardInput {
        StandardInput { stdin, faults: 0 }
    }
}

impl Source for StandardInput {
    ghost left = { λ _. None };

    ghost faults = { λ s. s.faults };

    fn read(&mut self, buf: &mut [u8]) -> Result<usize, Failed> {
        match read_again(&mut self.stdin, buf) {
            Ok(count) => Ok(count),
            Err(_) => {
                self.faults = self.faults.saturating_add(1);
                Err(Failed)
            }
        }
    }
}

/// Reads, and does so again where a signal interrupted it. How many bytes were moved: at most as many as there is room for.
///
/// # Errors
///
/// That of a read that ended with any other one; one of kind `Other` after 2^64 - 1 reads that were all interrupted.
pub fn read_again<R: Read>(input: &mut R, buf: &mut [u8]) -> Result<usize, Error>
    ensures bound { ReadsAtMost result buf.new }
    ensures retried { IfErr result (λ e. error_kind e ≢ ErrorKind.Interrupted) }
{
    for _ in 0..u64::MAX {
        match input.read(buf) {
            Ok(count) => return Ok(count),
            Err(error) if error.kind() == ErrorKind::Interrupted => {}
            Err(error) => return Err(error),
        }
    }
    Err(Error::from(ErrorKind::Other))
}

/// Standard output. It doesn't tell what was written. A write that a signal interrupted is tried again.
#[derive(Drop)]
pub struct StandardOutput {
    stdout: Stdout,
    faults: u64,
}

impl StandardOutput {
    /// A sink over standard output, no write to which failed yet.
    pub fn new(stdout: Stdout) -> StandardOutput {
        StandardOutput { stdout, faults: 0 }
    }
}

impl Sink for StandardOutput {
    ghost written = { λ _. None };

    ghost faults = { λ s. s.faults };

    fn write(&mut self, bytes: &[u8]) -> Result<usize, Failed> {
        match write_again(&mut self.stdout, bytes) {
            Ok(count) => Ok(count),
            Err(_) => {
                self.faults = self.faults.saturating_add(1);
                Err(Failed)
            }
        }
    }
}

/// Standard error. It doesn't tell what was written. A write that a signal interrupted is tried again.
#[derive(Drop)]
pub struct StandardError {
    stderr: Stderr,
    faults: u64,
}

impl StandardError {
    /// A sink over standard error, no write to which failed yet.
    pub fn new(stderr: Stderr) -> StandardError {
        StandardError { stderr, faults: 0 }
    }
}

impl Sink for StandardError {
    ghost written = { λ _. None };

    ghost faults = { λ s. s.faults };

    fn write(&mut self, bytes: &[u8]) -> Result<usize, Failed> {
        match write_again(&mut self.stderr, bytes) {
            Ok(count) => Ok(count),
            Err(_) => {
                self.faults = self.faults.saturating_add(1);
                Err(Failed)
            }
        }
    }
}

/// Writes, and does so again where a signal interrupted it. How many bytes were moved: at least one where there are any.
///
/// # Errors
///
/// That of a write that ended with any other one; `WriteZero` where it moved no byte though there are some; one of kind `Other`
/// after 2^64 - 1 writes that were all interrupted.
pub fn write_again<W: Write>(output: &mut W, bytes: &[u8]) -> Result<usize, Error>
    ensures bound { WritesAtMost result bytes.now }
    ensures retried { IfErr result (λ e. error_kind e ≢ ErrorKind.Interrupted) }
    ensures some { IfOk result (λ n. 0 < length bytes.now → 0 < n) }
{
    for _ in 0..u64::MAX {
        match output.write(bytes) {
            Ok(count) if count > 0 || bytes.is_empty() => return Ok(count),
            Ok(_) => return Err(Error::from(ErrorKind::WriteZero)),
            Err(error) if error.kind() == ErrorKind::Interrupted => {}
            Err(error) => return Err(error),
        }
    }
    Err(Error::from(ErrorKind::Other))
}
