//! Sources of bytes.

ghost use Rattle.std.specs.Prelude.{◌≡◌, ◌≤◌, ◌<◌, ℕ, List, [], Option, Some, true, IsErr, drop, length, take};
ghost use Rattle.std.specs.Io.{ReadsAtMost};
ghost use Rattle.std.specs.Io.KnownBytes.{ReadConsumes};
ghost use Rattle.kube_text.specs.Causes.{HasCause};
ghost use Rattle.kube_text.specs.Held.{is_to_fail, next_call};

use kube_text::failed::Failed;
use std::marker::Model;

/// What bytes are read from, a few at a time.
pub trait Source {
    /// The bytes that are left, where the source tells them.
    ghost left: { Self → Option (List ℕ) };

    /// How often a read failed.
    ghost faults: { Self → ℕ };

    /// Reads some of the bytes that are left into `buf` and answers how many. With room in `buf` it answers 0 only
    /// at the end.
    fn read(&mut self, buf: &mut [u8]) -> Result<usize, Failed>
        ensures bound { ReadsAtMost result buf.new }
        ensures bytes { ReadConsumes (left self.old) (left self.new) result buf.new }
        ensures cause { HasCause (faults self.old) (faults self.new) result };
}

/// A source over bytes in memory, some of whose reads fail.
#[derive(Drop)]
pub struct VecSource {
    bytes: Vec<u8>,
    at: usize,
    most: usize,
    failing: Vec<u64>,
    calls: u64,
    faults: u64,
}

impl Model for VecSource {
    ghost use Rattle.std.specs.Prelude.{drop, length, ◌≤◌};
    ghost use Rattle.kube_text.specs.Held.{Held};

    ghost Value = { Held };

    ghost view = { λ s. record { bytes = drop s.at s.bytes.items; failing = s.failing.items; calls = s.calls; faults = s.faults } };

    ghost invariant = { λ s. s.at ≤ length s.bytes.items };
}

impl VecSource {
    /// A source of these bytes. No read gives more than `most` of them, or than one where `most` is 0. The reads
    /// whose numbers are in `failing` fail, the first one being number 1.
    pub fn new(bytes: Vec<u8>, failing: Vec<u64>, most: usize) -> VecSource
        ensures bytes { result.bytes ≡ bytes.items }
        ensures failing { result.failing ≡ failing.items }
        ensures calls { result.calls ≡ 0 }
        ensures faults { result.faults ≡ 0 }
    {
        VecSource {
            bytes,
            at: 0,
            most,
            failing,
            calls: 0,
            faults: 0,
        }
    }
}

impl Source for VecSource {
    ghost left = { λ s. Some s.bytes };

    ghost faults = { λ s. s.faults };

    fn read(&mut self, buf: &mut [u8]) -> Result<usize, Failed>
        ensures to_fail { is_to_fail self.old ≡ true → IsErr result }
        ensures only { IsErr result → is_to_fail self.old ≡ true }
        ensures calls { self.new.calls ≡ next_call self.old }
        ensures failing { self.new.failing ≡ self.old.failing }

        // those of the trait
        ensures bound { ReadsAtMost result buf.new }
        ensures bytes { ReadConsumes (Some self.old.bytes) (Some self.new.bytes) result buf.new }
        ensures cause { HasCause self.old.faults self.new.faults result }
    {
        self.calls = self.calls.saturating_add(1);
        if self.failing.contains(&self.calls) {
            self.faults = self.faults.saturating_add(1);
            return Err(Failed);
        }
        let count = copy_front(&self.bytes[self.at..], buf, self.most);
        self.at += count;
        Ok(count)
    }
}

/// A source over bytes in memory, no read of which fails.
#[derive(Drop)]
pub struct NeverFailsSource {
    bytes: Vec<u8>,
    at: usize,
}

impl Model for NeverFailsSource {
    ghost use Rattle.std.specs.Prelude.{ℕ, List, drop, length, ◌≤◌};

    ghost Value = { List ℕ };

    ghost view = { λ s. drop s.at s.bytes.items };

    ghost invariant = { λ s. s.at ≤ length s.bytes.items };
}

impl NeverFailsSource {
    /// A source of these bytes.
    pub fn new(bytes: Vec<u8>) -> NeverFailsSource
        ensures { result ≡ bytes.items }
    {
        NeverFailsSource { bytes, at: 0 }
    }
}

impl Source for NeverFailsSource {
    ghost left = { λ s. Some s };

    ghost faults = { λ _. 0 };

    fn read(&mut self, buf: &mut [u8]) -> Result<usize, Failed> {
        let count = copy_front(&self.bytes[self.at..], buf, usize::MAX);
        self.at += count;
        Ok(count)
    }
}

/// Copies the first of the bytes that are left into `buf`, as many as fit, but no more than `most` where `most` isn't 0.
fn copy_front(left: &[u8], buf: &mut [u8], most: usize) -> usize
    ensures bound { (result ≤ length left.now) × (result ≤ length buf.new) }
    ensures copied { take result buf.new ≡ take result left.now }
    ensures end { result ≡ 0 → 0 < length buf.new → left.now ≡ [] }
{
    let count = most.max(1).min(left.len()).min(buf.len());
    buf[..count].copy_from_slice(&left[..count]);
    count
}
