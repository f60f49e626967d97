//! A source that remembers what was read.

ghost use Rattle.std.specs.Io.{ReadsAtMost};
ghost use Rattle.std.specs.Io.KnownBytes.{ReadConsumes};
ghost use Rattle.kube_text.specs.Causes.{HasCause};

use kube_stdio::source::Source;
use kube_text::failed::Failed;
use std::alloc::Global;

/// How many bytes are remembered at most: a script that somebody wrote by hand is shorter.
const MOST: usize = 1_048_576;

/// A source with what was read of it, as long as that is at most 1 MiB.
#[derive(Drop)]
pub struct Heard<S> {
    source: S,
    bytes: Option<Vec<u8>>,
}

impl<S: Source> Heard<S> {
    /// A source of which nothing was read.
    pub fn new(alloc: Global, source: S) -> Heard<S> {
        Heard {
            source,
            bytes: Some(Vec::new(alloc)),
        }
    }

    /// All that was read, where it is at most 1 MiB and there was memory for it.
    pub fn bytes(&self) -> Option<&[u8]> {
        match &self.bytes {
            Some(bytes) => Some(bytes.as_slice()),
            None => None,
        }
    }
}

/// Remembers bytes behind others, or nothing more where they are too many.
fn remember(heard: &mut Option<Vec<u8>>, read: &[u8]) {
    let Some(bytes) = heard else {
        return;
    };
    if bytes.len() > MOST
        || read.len() > MOST - bytes.len()
        || bytes.extend_from_slice(read).is_err()
    {
        *heard = None;
    }
}

impl<S: Source> Source for Heard<S> {
    ghost left = { λ h. S.left h.source };

    ghost faults = { λ h. S.faults h.source };

    fn read(&mut self, buf: &mut [u8]) -> Result<usize, Failed> {
        let count = self.source.read(buf)?;
        if count <= buf.len() {
            remember(&mut self.bytes, &buf[..count]);
        }
        Ok(count)
    }
}
