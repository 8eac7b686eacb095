ghost use Rattle.std.specs.Prelude.{◌≡◌, ◌≤◌, ◌++◌, take, drop, length, Some, is_some, is_err, IfOk, if◌then◌else◌};
ghost use Rattle.std.specs.Io.{ReadsAtMost};
ghost use Rattle.std.specs.Io.KnownBytes.{ReadConsumes};
ghost use Rattle.io_core.specs.Counts.{HasCause, CountsBytes};
ghost use Rattle.io_core.specs.Memory.{next_fails, source_moves, source_read, source_failed};

use crate::failing_calls::FailingCalls;
use crate::outside::{Failed, Source};
use std::alloc::{AllocError, Global};
use std::marker::Model;

/// A source over bytes in memory, which moves at most `most` bytes a call and fails at chosen calls.
#[derive(Drop)]
pub struct MemSource {
    bytes: Vec<u8>,
    at: usize,
    most: u32,
    calls: FailingCalls,
    faults: u64,
    bytes_read: u64,
}

impl Model for MemSource {
    ghost use Rattle.std.specs.Prelude.{◌≤◌, drop, vec_len};
    ghost use Rattle.io_core.specs.Memory.{SourceState};

    ghost Value = { SourceState };

    ghost view = { λ s. record { left = drop s.at s.bytes.items; most = s.most; calls = s.calls; faults = s.faults; bytes_read = s.bytes_read } };

    ghost invariant = { λ s. (s.at ≤ vec_len s.bytes) × (1 ≤ s.most) };
}

impl MemSource {
    /// A source of these bytes, which are copied. `most` is the greatest number of bytes a call moves; `failing` are
    /// the numbers, from 1, of the calls that fail.
    ///
    /// Errors: `AllocError` for want of memory.
    pub fn new(
        alloc: Global,
        bytes: &[u8],
        most: u32,
        failing: &[u32],
    ) -> Result<MemSource, AllocError>
        requires moves { 1 ≤ most }
        ensures started { IfOk result (λ source. source ≡ record { left = bytes.now; most = most; calls = record { made = 0; failing = failing.now }; faults = 0; bytes_read = 0 }) }
    {
        Ok(MemSource {
            bytes: Vec::from_slice(alloc, bytes)?,
            at: 0,
            most,
            calls: FailingCalls::new(alloc, failing)?,
            faults: 0,
            bytes_read: 0,
        })
    }

    /// How many reads failed so far.
    pub fn faults(&self) -> u64
        ensures count { result ≡ self.now.faults }
    {
        self.faults
    }
}

impl Source for MemSource {
    ghost left = { λ s. Some s.left };

    ghost faults = { λ s. s.faults };

    ghost bytes_read = { λ s. s.bytes_read };

    fn read(&mut self, buf: &mut [u8]) -> Result<usize, Failed>
        ensures bound { ReadsAtMost result buf.new }
        ensures told { is_some (Some self.new.left) ≡ is_some (Some self.old.left) }
        ensures bytes { ReadConsumes (Some self.old.left) (Some self.new.left) result buf.new }
        ensures cause { HasCause self.old.faults self.new.faults result }
        ensures counted { CountsBytes self.old.bytes_read self.new.bytes_read result }

        // What it does exactly.
        ensures fails { is_err result ≡ next_fails self.old.calls }
        ensures moves { IfOk result (λ n. n ≡ source_moves self.old (length buf.old)) }
        ensures moved { IfOk result (λ n. buf.new ≡ take n self.old.left ++ drop n buf.old) }
        ensures after { self.new ≡ (if next_fails self.old.calls then source_failed self.old else source_read self.old (length buf.old)) }
    {
        if self.calls.next_fails() {
            self.faults = self.faults.saturating_add(1);
            return Err(Failed);
        }
        let left = &self.bytes[self.at..];
        let count = buf.len().min(left.len()).min(self.most as usize);
        buf[..count].copy_from_slice(&left[..count]);
        self.at += count;
        self.bytes_read = self.bytes_read.saturating_add(count as u64);
        Ok(count)
    }
}
