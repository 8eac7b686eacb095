ghost use Rattle.std.specs.Prelude.{◌≡◌, ◌≤◌, [], length, Some, is_some, is_err, IfOk, if◌then◌else◌};
ghost use Rattle.std.specs.Io.KnownBytes.{WriteAppends};
ghost use Rattle.io_core.specs.Counts.{HasCause};
ghost use Rattle.io_core.specs.Contents.{TakesSome};
ghost use Rattle.io_core.specs.Memory.{appended, sink_fails, sink_wrote, sink_failed};

use crate::bounded_bytes::BoundedBytes;
use crate::failing_calls::FailingCalls;
use crate::outside::{Failed, Sink};
use std::alloc::{AllocError, Global};
use std::marker::Model;

/// A sink into memory, which has room for a given number of bytes, moves at most `most` a call and fails at chosen
/// calls.
#[derive(Drop)]
pub struct MemSink {
    bytes: BoundedBytes,
    most: u32,
    calls: FailingCalls,
    faults: u64,
}

impl Model for MemSink {
    ghost use Rattle.std.specs.Prelude.{◌≤◌};
    ghost use Rattle.io_core.specs.Memory.{SinkState};

    ghost Value = { SinkState };

    ghost view = { λ s. record { bytes = s.bytes; most = s.most; calls = s.calls; faults = s.faults } };

    ghost invariant = { λ s. 1 ≤ s.most };
}

impl MemSink {
    /// An empty sink with room for `room` bytes, taken at once. `most` is the greatest number of bytes a call moves;
    /// `failing` are the numbers, from 1, of the calls that fail.
    ///
    /// Errors: `AllocError` for want of memory.
    pub fn new(alloc: Global, room: u64, most: u32, failing: &[u32]) -> Result<MemSink, AllocError>
        requires moves { 1 ≤ most }
        ensures started { IfOk result (λ sink. sink ≡ record { bytes = record { held = []; room = room }; most = most; calls = record { made = 0; failing = failing.now }; faults = 0 }) }
    {
        Ok(MemSink {
            bytes: BoundedBytes::new(alloc, room)?,
            most,
            calls: FailingCalls::new(alloc, failing)?,
            faults: 0,
        })
    }

    /// The bytes that were written so far.
    pub fn held(&self) -> &[u8]
        ensures all { result.now ≡ self.now.bytes.held }
    {
        self.bytes.as_slice()
    }

    /// How many writes failed so far.
    pub fn faults(&self) -> u64
        ensures count { result ≡ self.now.faults }
    {
        self.faults
    }
}

impl Sink for MemSink {
    ghost held = { λ s. Some s.bytes.held };

    ghost faults = { λ s. s.faults };

    fn write(&mut self, bytes: &[u8]) -> Result<usize, Failed>
        ensures told { is_some (Some self.new.bytes.held) ≡ is_some (Some self.old.bytes.held) }
        ensures appends { WriteAppends (Some self.old.bytes.held) (Some self.new.bytes.held) result bytes.now }
        ensures some { TakesSome result bytes.now }
        ensures cause { HasCause self.old.faults self.new.faults result }

        // What it does exactly.
        ensures fails { is_err result ≡ sink_fails self.old (length bytes.now) }
        ensures moves { IfOk result (λ n. n ≡ appended self.old.bytes self.old.most (length bytes.now)) }
        ensures after { self.new ≡ (if sink_fails self.old (length bytes.now) then sink_failed self.old else sink_wrote self.old bytes.now) }
    {
        let listed = self.calls.next_fails();
        if listed || self.bytes.is_full_for(bytes.len()) {
            self.faults = self.faults.saturating_add(1);
            return Err(Failed);
        }
        Ok(self.bytes.append_some(bytes, self.most))
    }
}
