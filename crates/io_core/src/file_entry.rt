ghost use Rattle.std.specs.Prelude.{◌≡◌, ◌≤◌, [], false, true, length, max, option_map, unwrap_or, IfOk, OnOk, OnErr};
ghost use Rattle.std.specs.Str.{bytes_eq};
ghost use Rattle.std.specs.Option.{option_copied};
ghost use Rattle.io_core.specs.Memory.{holding, appended, entry_appended, is_full_for, held_of};

use crate::bounded_bytes::BoundedBytes;
use std::alloc::{AllocError, Global};
use std::marker::Model;
use text_core::Text;

/// A name of the files in memory, with its bytes; it isn't there before it was put, created or appended to.
#[derive(Drop)]
pub struct FileEntry {
    name: Text,
    is_there: bool,
    bytes: BoundedBytes,
}

impl Model for FileEntry {
    ghost use Rattle.std.specs.Prelude.{◌≡◌, false, []};
    ghost use Rattle.io_core.specs.Memory.{EntryState};

    ghost Value = { EntryState };

    ghost view = { λ e. record { name = e.name; is_there = e.is_there; bytes = e.bytes } };

    ghost invariant = { λ e. e.is_there ≡ false → e.bytes.held ≡ [] };
}

impl FileEntry {
    /// A name with room for `room` bytes, which isn't there yet.
    pub fn ready(alloc: Global, name: &str, room: u64) -> Result<FileEntry, AllocError>
        ensures made { IfOk result (λ entry. entry ≡ record { name = name.now; is_there = false; bytes = record { held = []; room = room } }) }
    {
        Ok(FileEntry {
            name: Text::of(alloc, name)?,
            is_there: false,
            bytes: BoundedBytes::new(alloc, room)?,
        })
    }

    /// Whether the name is this one, byte for byte.
    pub fn is_named(&self, name: &str) -> bool
        ensures named { result ≡ bytes_eq self.now.name name.now }
    {
        self.name.as_str() == name
    }

    /// The bytes, where the name is there.
    pub fn held(&self) -> Option<&BoundedBytes>
        ensures there { option_map (λ bytes. bytes.held) (option_copied result) ≡ held_of self.now }
    {
        self.is_there.then_some(&self.bytes)
    }

    /// Whether no byte of `count` bytes finds room; `false` for a `count` of 0.
    pub fn is_full_for(&self, count: usize) -> bool
        ensures full { result ≡ is_full_for self.now.bytes count }
    {
        self.bytes.is_full_for(count)
    }

    /// Gives the name empty bytes.
    pub fn create(&mut self)
        ensures emptied { self.new ≡ holding self.old.name [] self.old.bytes.room }
    {
        self.is_there = true;
        self.bytes.clear();
    }

    /// Appends as many bytes of `piece` as `most` and the room allow, and answers their number.
    pub fn append_some(&mut self, piece: &[u8], most: u32) -> usize
        ensures count { result ≡ appended self.old.bytes most (length piece.now) }
        ensures appended { self.new ≡ entry_appended self.old most piece.now }
        ensures none_before { unwrap_or (held_of self.old) [] ≡ self.old.bytes.held }
    {
        self.is_there = true;
        self.bytes.append_some(piece, most)
    }

    /// Widens the room, where it is less.
    pub fn widen(&mut self, alloc: Global, room: u64) -> Result<(), AllocError>
        ensures ok { OnOk result (self.new ≡ record { name = self.old.name; is_there = self.old.is_there; bytes = record { held = self.old.bytes.held; room = max self.old.bytes.room room } }) }
        ensures err { OnErr result (self.new ≡ self.old) }
    {
        if self.bytes.room() < room {
            let mut wider = BoundedBytes::new(alloc, room)?;
            wider.append(self.bytes.as_slice());
            self.bytes = wider;
        }
        Ok(())
    }

    /// Makes the name hold just `bytes`, for which there is room.
    pub fn fill(&mut self, bytes: &[u8])
        requires room { length bytes.now ≤ self.old.bytes.room }
        ensures filled { self.new ≡ holding self.old.name bytes.now self.old.bytes.room }
    {
        self.create();
        self.bytes.append(bytes);
    }
}
