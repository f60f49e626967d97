//! What no clause says of reads and writes that a signal interrupts.

ghost use Rattle.std.specs.Prelude.{◌≤◌, IfOk};

use kube_stdio::stdio::{read_again, write_again};
use std::io::{ErrorKind, Read, Write};
use std::test::Fail;

/// What a call ends with after its signals: so many bytes, or none and an error.
#[derive(Clone, Copy)]
enum End {
    Moves(usize),
    Fails(ErrorKind),
}

/// A stream whose next calls are so often interrupted by a signal.
#[derive(Drop)]
struct Signalled {
    signals: u32,
    end: End,
}

impl Signalled {
    /// How many bytes of this many a call moves.
    fn moved(&mut self, room: usize) -> std::io::Result<usize>
        ensures { IfOk result (λ n. n ≤ room) }
    {
        if self.signals > 0 {
            self.signals -= 1;
            return Err(std::io::Error::from(ErrorKind::Interrupted));
        }
        match self.end {
            End::Moves(count) => Ok(count.min(room)),
            End::Fails(kind) => Err(std::io::Error::from(kind)),
        }
    }
}

impl Read for Signalled {
    fn read(&mut self, buf: &mut [u8]) -> std::io::Result<usize> {
        self.moved(buf.len())
    }
}

impl Write for Signalled {
    fn write(&mut self, bytes: &[u8]) -> std::io::Result<usize> {
        self.moved(bytes.len())
    }

    fn flush(&mut self) -> std::io::Result<()> {
        Ok(())
    }
}

/// Calls that so many signals interrupt, how they end, and what is answered to a read and to a write of three bytes.
const CALLS: [(u32, End, Option<usize>, Option<usize>); 6] = [
    (0, End::Moves(2), Some(2), Some(2)),
    (1, End::Moves(2), Some(2), Some(2)),
    (70, End::Moves(3), Some(3), Some(3)),
    (2, End::Moves(0), Some(0), None),
    (0, End::Fails(ErrorKind::BrokenPipe), None, None),
    (3, End::Fails(ErrorKind::IsADirectory), None, None),
];

fn read_of(signals: u32, end: End) -> Option<usize> {
    let mut bytes = [0u8; 3];
    read_again(&mut Signalled { signals, end }, &mut bytes).ok()
}

fn written_of(signals: u32, end: End) -> Option<usize> {
    write_again(&mut Signalled { signals, end }, b"abc").ok()
}

#[test]
fn tries_again_after_signals(rt: HostRuntime) -> Result<(), Fail> {
    for (signals, end, read, written) in CALLS {
        assert_eq!(rt; read_of(signals, end), read);
        assert_eq!(rt; written_of(signals, end), written);
    }
    Ok(())
}
