ghost use Rattle.std.specs.Prelude.{◌≡◌, ◌≤◌, ◌+◌, ◌++◌, [], length, take, drop, min, IfOk};
ghost use Rattle.io_core.specs.Memory.{is_full_for, appended, with_more};

use std::alloc::{AllocError, Global};
use std::marker::Model;

/// Bytes with room for `room` of them, whose memory is taken ahead.
#[derive(Drop)]
pub struct BoundedBytes {
    bytes: Vec<u8>,
    room: u64,
}

impl Model for BoundedBytes {
    ghost use Rattle.std.specs.Prelude.{◌≤◌, vec_len, vec_capacity};
    ghost use Rattle.io_core.specs.Memory.{Bounded};

    ghost Value = { Bounded };

    ghost view = { λ b. record { held = b.bytes.items; room = b.room } };

    ghost invariant = { λ b. (vec_len b.bytes ≤ b.room) × (b.room ≤ vec_capacity b.bytes) };
}

impl BoundedBytes {
    /// No bytes, and room for `room` of them, taken at once; `AllocError` for want of memory.
    pub fn new(alloc: Global, room: u64) -> Result<BoundedBytes, AllocError>
        ensures empty { IfOk result (λ bytes. bytes ≡ record { held = []; room = room }) }
    {
        Ok(BoundedBytes {
            bytes: Vec::with_capacity(alloc, room as usize)?,
            room,
        })
    }

    /// How many bytes there may be at most, those that are held counted in.
    pub fn room(&self) -> u64
        ensures room { result ≡ self.now.room }
        ensures within { length self.now.held ≤ self.now.room }
    {
        self.room
    }

    /// The bytes that are held, in the order in which they were appended.
    pub fn as_slice(&self) -> &[u8]
        ensures all { result.now ≡ self.now.held }
    {
        &self.bytes
    }

    /// Copies as many bytes from place `at` on as `buf` and `most` allow into the front of `buf`, and answers their
    /// number.
    pub fn copy_out(&self, at: u64, buf: &mut [u8], most: u32) -> usize
        ensures count { result ≡ min (length buf.old) (min most (length (drop at self.now.held))) }
        ensures copied { buf.new ≡ take result (drop at self.now.held) ++ drop result buf.old }
    {
        let from = at.min(self.bytes.len() as u64) as usize;
        let left = &self.bytes[from..];
        let count = buf.len().min(left.len()).min(most as usize);
        buf[..count].copy_from_slice(&left[..count]);
        count
    }

    /// Whether no byte of `count` bytes finds room.
    pub fn is_full_for(&self, count: usize) -> bool
        ensures full { result ≡ is_full_for self.now count }
    {
        0 < count && self.room <= self.bytes.len() as u64
    }

    /// Appends bytes that find room. Takes no memory.
    pub fn append(&mut self, piece: &[u8])
        requires room { length self.old.held + length piece.now ≤ self.old.room }
        ensures appended { self.new ≡ with_more self.old piece.now }
    {
        self.bytes.extend_from_slice(piece).unwrap();
    }

    /// Appends as many bytes of `piece` as `most` and the room allow, and answers their number. Takes no memory.
    pub fn append_some(&mut self, piece: &[u8], most: u32) -> usize
        ensures count { result ≡ appended self.old most (length piece.now) }
        ensures appended { self.new ≡ with_more self.old (take result piece.now) }
    {
        let free = self.room as usize - self.bytes.len();
        let count = piece.len().min(most as usize).min(free);
        self.append(&piece[..count]);
        count
    }

    /// Drops all bytes that are held; the room stays as it is.
    pub fn clear(&mut self)
        ensures emptied { self.new ≡ record { held = []; room = self.old.room } }
    {
        self.bytes.clear();
    }
}
