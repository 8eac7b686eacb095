ghost use Rattle.std.specs.Prelude.{◌≡◌, ◌≤◌, ◌++◌, ℕ, List, [], Some, None, Option, length, take, drop, max, is_err, not, ◌||◌, is_some, option_map, option_and_then, unwrap_or, MatchOption, MatchResult, IfOk, IfSome, OnOk, OnErr, IsErrOf, if◌then◌else◌};
ghost use Rattle.std.specs.Io.{ReadsAtMost};
ghost use Rattle.std.specs.Option.{option_copied};
ghost use Rattle.std.specs.List.{position};
ghost use Rattle.std.specs.Str.{bytes_eq};
ghost use Rattle.io_core.specs.Counts.{NeverFell, NoneFell, CountsBytes};
ghost use Rattle.io_core.specs.Contents.{FileMap, SameFiles, ReadsAt, HasReadCause, KeptIfMissing, Creates, AppendsTo, TakesSome, HasWriteCause};
ghost use Rattle.io_core.specs.Memory.{held_under, room_of, entry_of, holding, EntryBecame, with_entries, readied, held_of, read_answer, files_read, create_fails, files_created, files_create_failed, has_no_room, append_fails, files_appended, files_append_failed, entry_appended, appended};

use crate::bounded_bytes::BoundedBytes;
use crate::failing_calls::FailingCalls;
use crate::file_entry::FileEntry;
use crate::outside::{Failed, FileFault, Files};
use std::alloc::{AllocError, Global};
use std::marker::Model;

/// Files in memory, which move at most `most` bytes a call and fail at chosen calls.
///
/// A name has the greatest room that was asked for it; one that was never put nor made ready can't be written.
#[derive(Drop)]
pub struct MemFiles {
    alloc: Global,
    entries: Vec<FileEntry>,
    most: u32,
    reads: FailingCalls,
    creates: FailingCalls,
    appends: FailingCalls,
    read_faults: u64,
    write_faults: u64,
    bytes_read: u64,
}

impl Model for MemFiles {
    ghost use Rattle.std.specs.Prelude.{◌≤◌};
    ghost use Rattle.io_core.specs.Memory.{FilesState};

    ghost Value = { FilesState };

    ghost view = { λ f. record { entries = f.entries.items; most = f.most; reads = f.reads; creates = f.creates; appends = f.appends; read_faults = f.read_faults; write_faults = f.write_faults; bytes_read = f.bytes_read } };

    ghost invariant = { λ f. 1 ≤ f.most };
}

impl MemFiles {
    /// No names. `most` is the greatest number of bytes a call moves; the lists are the numbers, from 1, of the
    /// calls of each kind that fail.
    pub fn new(
        alloc: Global,
        most: u32,
        reads: &[u32],
        creates: &[u32],
        appends: &[u32],
    ) -> Result<MemFiles, AllocError>
        requires moves { 1 ≤ most }
        ensures started { IfOk result (λ files. files ≡ record { entries = []; most = most; reads = record { made = 0; failing = reads.now }; creates = record { made = 0; failing = creates.now }; appends = record { made = 0; failing = appends.now }; read_faults = 0; write_faults = 0; bytes_read = 0 }) }
    {
        Ok(MemFiles {
            alloc,
            entries: Vec::new(alloc),
            most,
            reads: FailingCalls::new(alloc, reads)?,
            creates: FailingCalls::new(alloc, creates)?,
            appends: FailingCalls::new(alloc, appends)?,
            read_faults: 0,
            write_faults: 0,
            bytes_read: 0,
        })
    }

    /// Gives the name these bytes.
    ///
    /// Errors: `AllocError` for want of memory; then all is as before.
    pub fn put(&mut self, name: &str, bytes: &[u8]) -> Result<(), AllocError>
        ensures held { OnOk result (EntryBecame self.old.entries self.new.entries name.now (holding name.now bytes.now (max (room_of self.old name.now) (length bytes.now)))) }
        ensures kept { self.new ≡ with_entries self.old self.new.entries }
        ensures err { OnErr result (self.new ≡ self.old) }
    {
        let place = place_of(&self.entries, name);
        let room = bytes.len() as u64;
        if let Some(place) = place {
            let entry = &mut self.entries[place];
            entry.widen(self.alloc, room)?;
            entry.fill(bytes);
            return Ok(());
        }
        let mut entry = FileEntry::ready(self.alloc, name, room)?;
        entry.fill(bytes);
        self.entries.push(entry)?;
        Ok(())
    }

    /// Makes room for `room` bytes under the name; whether it is there, and what it holds, stays.
    ///
    /// Errors: `AllocError` for want of memory; then all is as before.
    pub fn ready(&mut self, name: &str, room: u64) -> Result<(), AllocError>
        ensures map { (other : List ℕ) → held_under self.new other ≡ held_under self.old other }
        ensures ready { OnOk result (EntryBecame self.old.entries self.new.entries name.now (readied (entry_of self.old.entries name.now) name.now room)) }
        ensures kept { self.new ≡ with_entries self.old self.new.entries }
        ensures err { OnErr result (self.new ≡ self.old) }
    {
        let place = place_of(&self.entries, name);
        if let Some(place) = place {
            let entry = &mut self.entries[place];
            return entry.widen(self.alloc, room);
        }
        let entry = FileEntry::ready(self.alloc, name, room)?;
        self.entries.push(entry)?;
        Ok(())
    }

    /// The bytes under a name; `None` where it isn't there, be it made ready or not.
    pub fn held(&self, name: &str) -> Option<&[u8]>
        ensures there { option_copied result ≡ held_under self.now name.now }
    {
        let bytes = bytes_of(&self.entries, name)?;
        Some(bytes.as_slice())
    }

    /// How many reads failed, of all names together. A read of a missing name isn't counted.
    pub fn read_faults(&self) -> u64
        ensures count { result ≡ self.now.read_faults }
    {
        self.read_faults
    }

    /// How many creations and appends failed, of all names together.
    pub fn write_faults(&self) -> u64
        ensures count { result ≡ self.now.write_faults }
    {
        self.write_faults
    }
}

impl Files for MemFiles {
    ghost held = { λ f. Some (held_under f) };

    ghost read_faults = { λ f _. f.read_faults };

    ghost write_faults = { λ f _. f.write_faults };

    ghost bytes_read = { λ f. f.bytes_read };

    fn read_at(&mut self, name: &str, at: u64, buf: &mut [u8]) -> Result<usize, FileFault>
        ensures bound { ReadsAtMost result buf.new }
        ensures bytes { ReadsAt (Some (held_under self.old)) name.now at result buf.new }
        ensures kept { SameFiles (Some (held_under self.old)) (Some (held_under self.new)) }
        ensures cause { HasReadCause (Some (held_under self.old)) (λ _. self.old.read_faults) (λ _. self.new.read_faults) name.now result }
        ensures writes { NoneFell (λ _. self.old.write_faults) (λ _. self.new.write_faults) }
        ensures missing { KeptIfMissing (Some (held_under self.old)) (λ _. self.old.write_faults) (λ _. self.new.write_faults) result }
        ensures counted { CountsBytes self.old.bytes_read self.new.bytes_read result }

        // What it does exactly.
        ensures answer { result ≡ read_answer self.old (held_under self.old name.now) at (length buf.old) }
        ensures moved { IfOk result (λ n. IfSome (held_under self.old name.now) (λ bytes. buf.new ≡ take n (drop at bytes) ++ drop n buf.old)) }
        ensures after { self.new ≡ files_read self.old (held_under self.old name.now) at (length buf.old) }
    {
        let listed = self.reads.next_fails();
        let Some(bytes) = bytes_of(&self.entries, name) else {
            return Err(FileFault::Missing);
        };
        if listed {
            self.read_faults = self.read_faults.saturating_add(1);
            return Err(FileFault::Failed);
        }
        let count = bytes.copy_out(at, buf, self.most);
        self.bytes_read = self.bytes_read.saturating_add(count as u64);
        Ok(count)
    }

    fn create(&mut self, name: &str) -> Result<(), Failed>
        ensures made { Creates (Some (held_under self.old)) (Some (held_under self.new)) name.now result }
        ensures cause { HasWriteCause (λ _. self.old.write_faults) (λ _. self.new.write_faults) name.now result }
        ensures reads { NoneFell (λ _. self.old.read_faults) (λ _. self.new.read_faults) }
        ensures counted { NeverFell self.old.bytes_read self.new.bytes_read }

        // What it does exactly.
        ensures fails { is_err result ≡ create_fails self.old name.now }
        ensures created { OnOk result (EntryBecame self.old.entries self.new.entries name.now (holding name.now [] (room_of self.old name.now))) }
        ensures after { self.new ≡ (if create_fails self.old name.now then files_create_failed self.old else files_created self.old self.new.entries) }
    {
        let listed = self.creates.next_fails();
        let Some(place) = writable_place(&self.entries, name, 0, listed) else {
            self.write_faults = self.write_faults.saturating_add(1);
            return Err(Failed);
        };
        let entry = &mut self.entries[place];
        entry.create();
        Ok(())
    }

    fn append(&mut self, name: &str, bytes: &[u8]) -> Result<usize, Failed>
        ensures appends { AppendsTo (Some (held_under self.old)) (Some (held_under self.new)) name.now result bytes.now }
        ensures some { TakesSome result bytes.now }
        ensures cause { HasWriteCause (λ _. self.old.write_faults) (λ _. self.new.write_faults) name.now result }
        ensures reads { NoneFell (λ _. self.old.read_faults) (λ _. self.new.read_faults) }
        ensures counted { NeverFell self.old.bytes_read self.new.bytes_read }

        // What it does exactly.
        ensures fails { is_err result ≡ append_fails self.old name.now (length bytes.now) }
        ensures appended { OnOk result (IfSome (entry_of self.old.entries name.now) (λ entry. EntryBecame self.old.entries self.new.entries name.now (entry_appended entry self.old.most bytes.now))) }
        ensures moves { IfOk result (λ n. IfSome (entry_of self.old.entries name.now) (λ entry. n ≡ appended entry.bytes self.old.most (length bytes.now))) }
        ensures after { self.new ≡ (if append_fails self.old name.now (length bytes.now) then files_append_failed self.old else files_appended self.old self.new.entries) }
    {
        let listed = self.appends.next_fails();
        let Some(place) = writable_place(&self.entries, name, bytes.len(), listed) else {
            self.write_faults = self.write_faults.saturating_add(1);
            return Err(Failed);
        };
        let entry = &mut self.entries[place];
        Ok(entry.append_some(bytes, self.most))
    }
}

// The place of a name under which `count` bytes can be written, unless the call is `listed` as one that fails.
fn writable_place(entries: &[FileEntry], name: &str, count: usize, listed: bool) -> Option<usize>
    ensures refused { is_some result ≡ not (listed || has_no_room entries.now name.now count) }
    ensures place { IfSome result (λ i. Some i ≡ position (λ entry. bytes_eq entry.name name.now) entries.now) }
{
    if listed {
        return None;
    }
    let place = place_of(entries, name)?;
    let entry = &entries[place];
    if entry.is_full_for(count) {
        return None;
    }
    Some(place)
}

fn bytes_of<'a>(entries: &'a [FileEntry], name: &str) -> Option<&'a BoundedBytes>
    ensures there { option_map (λ bytes. bytes.held) (option_copied result) ≡ option_and_then held_of (entry_of entries.now name.now) }
{
    let place = place_of(entries, name)?;
    let entry = &entries[place];
    entry.held()
}

fn place_of(entries: &[FileEntry], name: &str) -> Option<usize>
    ensures place { result ≡ position (λ entry. bytes_eq entry.name name.now) entries.now }
{
    entries.iter().position(|entry| entry.is_named(name))
}
