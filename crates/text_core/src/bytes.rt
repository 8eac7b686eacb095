ghost use Rattle.std.specs.Prelude.{◌≡◌, ◌++◌, ◌∷◌, [], OnOk, OnErr, length, slice_get};
ghost use Rattle.std.specs.Option.{option_copied};

use std::alloc::{AllocError, Global};
use std::marker::Model;

/// A list of bytes, counted from 0.
#[derive(Drop)]
pub struct Bytes {
    items: Vec<u8>,
}

impl Model for Bytes {
    ghost use Rattle.std.specs.Prelude.{List, ℕ};

    ghost Value = { List ℕ };

    ghost view = { λ b. b.items.items };
}

impl Bytes {
    /// No bytes. Takes no memory.
    pub fn new(alloc: Global) -> Bytes
        ensures empty { result ≡ [] }
    {
        Bytes {
            items: Vec::new(alloc),
        }
    }

    /// These bytes, which are moved. Takes no memory.
    pub fn from_vec(items: Vec<u8>) -> Bytes
        ensures kept { result ≡ items.items }
    {
        Bytes { items }
    }

    /// Takes all bytes out, and keeps the room.
    pub fn clear(&mut self)
        ensures empty { self.new ≡ [] }
    {
        self.items.clear();
    }

    /// Adds a byte at the end. Fails for want of memory alone, as the two below.
    pub fn push(&mut self, item: u8) -> Result<(), AllocError>
        ensures ok { OnOk result (self.new ≡ self.old ++ item ∷ []) }
        ensures err { OnErr result (self.new ≡ self.old) }
    {
        Ok(self.items.push(item)?)
    }

    /// Adds all of `piece` at the end.
    pub fn extend(&mut self, piece: &[u8]) -> Result<(), AllocError>
        ensures ok { OnOk result (self.new ≡ self.old ++ piece.now) }
        ensures err { OnErr result (self.new ≡ self.old) }
    {
        self.items.extend_from_slice(piece)
    }

    /// Makes room for `more` bytes, so that adding them moves nothing.
    pub fn reserve(&mut self, more: usize) -> Result<(), AllocError>
        ensures kept { self.new ≡ self.old }
    {
        self.items.reserve(more)
    }

    /// How many bytes there are.
    pub fn len(&self) -> u64
        ensures count { result ≡ length self.now }
    {
        self.items.len() as u64
    }

    /// The byte with this number; `None` past the end.
    pub fn get(&self, i: u64) -> Option<&u8>
        ensures lookup { option_copied result ≡ slice_get self.now i }
    {
        self.items.get(i as usize)
    }

    /// All bytes, in order.
    pub fn as_slice(&self) -> &[u8]
        ensures all { result.now ≡ self.now }
    {
        &self.items
    }
}
