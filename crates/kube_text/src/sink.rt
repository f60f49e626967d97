//! Sinks of bytes.

ghost use Rattle.std.specs.Prelude.{◌≡◌, ◌≤◌, ◌<◌, ℕ, List, [], Option, Some, None, true, IfOk, IsErr, length};
ghost use Rattle.std.specs.Io.{WritesAtMost};
ghost use Rattle.std.specs.Io.KnownBytes.{WriteAppends};
ghost use Rattle.kube_text.specs.Causes.{HasCause};
ghost use Rattle.kube_text.specs.Held.{is_to_fail, next_call};

use crate::failed::Failed;
use std::alloc::Global;
use std::marker::Model;

/// What bytes are written to, a few at a time.
pub trait Sink {
    /// The bytes that were written, where the sink tells them.
    ghost written: { Self → Option (List ℕ) };

    /// How often a write failed.
    ghost faults: { Self → ℕ };

    /// Writes the first of `bytes` and answers how many: at least one where there are any.
    fn write(&mut self, bytes: &[u8]) -> Result<usize, Failed>
        ensures bound { WritesAtMost result bytes.now }
        ensures some { IfOk result (λ n. 0 < length bytes.now → 0 < n) }
        ensures bytes { WriteAppends (written self.old) (written self.new) result bytes.now }
        ensures cause { HasCause (faults self.old) (faults self.new) result };
}

/// A sink that keeps its bytes in memory, and some of whose writes fail.
#[derive(Drop)]
pub struct VecSink {
    bytes: Vec<u8>,
    most: usize,
    failing: Vec<u64>,
    calls: u64,
    faults: u64,
}

impl Model for VecSink {
    ghost use Rattle.kube_text.specs.Held.{Held};

    ghost Value = { Held };

    ghost view = { λ s. record { bytes = s.bytes.items; failing = s.failing.items; calls = s.calls; faults = s.faults } };
}

impl VecSink {
    /// An empty sink. No write takes more than `most` bytes, or than one where `most` is 0. The writes whose numbers
    /// are in `failing` fail, the first one being number 1. So does a write for which memory can't be had.
    pub fn new(alloc: Global, failing: Vec<u64>, most: usize) -> VecSink
        ensures bytes { result.bytes ≡ [] }
        ensures failing { result.failing ≡ failing.items }
        ensures calls { result.calls ≡ 0 }
        ensures faults { result.faults ≡ 0 }
    {
        VecSink {
            bytes: Vec::new(alloc),
            most,
            failing,
            calls: 0,
            faults: 0,
        }
    }

    /// The bytes that were written.
    pub fn as_slice(&self) -> &[u8]
        ensures { result.now ≡ self.now.bytes }
    {
        self.bytes.as_slice()
    }
}

impl Sink for VecSink {
    ghost written = { λ s. Some s.bytes };

    ghost faults = { λ s. s.faults };

    fn write(&mut self, bytes: &[u8]) -> Result<usize, Failed>
        ensures to_fail { is_to_fail self.old ≡ true → IsErr result }
        ensures calls { self.new.calls ≡ next_call self.old }
        ensures failing { self.new.failing ≡ self.old.failing }

        // those of the trait
        ensures bound { WritesAtMost result bytes.now }
        ensures some { IfOk result (λ n. 0 < length bytes.now → 0 < n) }
        ensures bytes { WriteAppends (Some self.old.bytes) (Some self.new.bytes) result bytes.now }
        ensures cause { HasCause self.old.faults self.new.faults result }
    {
        self.calls = self.calls.saturating_add(1);
        let count = self.most.max(1).min(bytes.len());
        if self.failing.contains(&self.calls)
            || self.bytes.extend_from_slice(&bytes[..count]).is_err()
        {
            self.faults = self.faults.saturating_add(1);
            return Err(Failed);
        }
        Ok(count)
    }
}

/// A sink that counts the bytes and keeps none of them, so that no write can fail. It doesn't tell what was written.
#[derive(Clone, Copy, Debug)]
pub struct NeverFailsSink {
    count: u64,
}

impl Model for NeverFailsSink {
    ghost use Rattle.std.specs.Prelude.{ℕ};

    ghost Value = { ℕ };

    ghost view = { λ s. s.count };

    ghost inverse = { λ n. record { count = n } };
}

impl NeverFailsSink {
    /// A sink to which nothing was written yet.
    pub fn new() -> NeverFailsSink
        ensures { result ≡ 0 }
    {
        NeverFailsSink { count: 0 }
    }

    /// How many bytes were written. The count stands still at the greatest `u64`.
    pub fn count(&self) -> u64
        ensures { result ≡ self.now }
    {
        self.count
    }
}

impl Sink for NeverFailsSink {
    ghost written = { λ _. None };

    ghost faults = { λ _. 0 };

    fn write(&mut self, bytes: &[u8]) -> Result<usize, Failed> {
        self.count = self.count.saturating_add(bytes.len() as u64);
        Ok(bytes.len())
    }
}
