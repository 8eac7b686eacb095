ghost use Rattle.std.specs.Prelude.{◌≡◌, ℕ, ◌+◌, ◌<◌, ◌≤◌, ◌⊎◌, ⊤, List, length, is_some, IfOk, OnErr, IsErrOf, IfSome};
ghost use Rattle.io_core.specs.Counts.{raised, Rose, NeverFell, NoneFell, HasCause};
ghost use Rattle.io_core.specs.Contents.{SameFiles, HasWriteCause};
ghost use Rattle.io_core.specs.Whole.{TakesAll, TakesFront, AtName, MissesName, WritesWhole, FilesWhole};

use crate::outside::{Failed, FileFault, Files, Sink, Source};
use std::alloc::{AllocError, Global};
use text_core::Bytes;

/// Bytes that are offered to each read.
const READ_PIECE_BYTES: usize = 65_536;

/// Why a source wasn't read to its end.
#[derive(Clone, Copy, Debug, PartialEq, Eq)]
pub enum ReadStop {
    /// A read failed.
    Fault,
    /// It has more bytes than the limit.
    TooLong,
    /// No memory was left.
    Memory,
}

impl From<AllocError> for ReadStop {
    ghost use Rattle.std.specs.Prelude.{◌≡◌};
    ghost use Rattle.io_core.specs.declared.whole.ReadStop.{ReadStop};

    ghost from_gives = { λ _ e. e ≡ ReadStop.Memory };

    fn from(_e: AllocError) -> ReadStop {
        ReadStop::Memory
    }
}

/// Why a file wasn't read to its end.
#[derive(Clone, Copy, Debug, PartialEq, Eq)]
pub enum FileStop {
    /// A read failed.
    Fault,
    /// There is no file of that name.
    Missing,
    /// It has more bytes than the limit.
    TooLong,
    /// No memory was left.
    Memory,
}

impl From<AllocError> for FileStop {
    ghost use Rattle.std.specs.Prelude.{◌≡◌};
    ghost use Rattle.io_core.specs.declared.whole.FileStop.{FileStop};

    ghost from_gives = { λ _ e. e ≡ FileStop.Memory };

    fn from(_e: AllocError) -> FileStop {
        FileStop::Memory
    }
}

/// Reads a source to its end, `limit` bytes at most.
///
/// Errors: what was read is lost; the source goes on after it.
pub fn read_whole<S: Source>(alloc: Global, src: &mut S, limit: u64) -> Result<Bytes, ReadStop>
    ensures told { is_some (S.left src.new) ≡ is_some (S.left src.old) }
    ensures all { IfOk result (λ bytes. TakesAll (S.left src.old) (S.left src.new) bytes) }
    ensures within { IfOk result (λ bytes. length bytes ≤ limit) }
    ensures counted { IfOk result (λ bytes. S.bytes_read src.new ≡ raised (length bytes) (S.bytes_read src.old)) }

    // A source that doesn't tell can still be too long only after `limit + 1` bytes were read.
    ensures too_long { IsErrOf result ReadStop.TooLong → IfSome (S.left src.old) (λ all. limit < length all) }
    ensures too_many { IsErrOf result ReadStop.TooLong → raised (limit + 1) (S.bytes_read src.old) ≤ S.bytes_read src.new }
    ensures fault { IsErrOf result ReadStop.Fault → Rose (S.faults src.old) (S.faults src.new) }
    ensures front { TakesFront (S.left src.old) (S.left src.new) }
    ensures faults_kept { NeverFell (S.faults src.old) (S.faults src.new) }
    ensures bytes_kept { NeverFell (S.bytes_read src.old) (S.bytes_read src.new) }
{
    let mut all = Bytes::new(alloc);
    let mut buf = vec![in alloc; 0u8; READ_PIECE_BYTES]?;
    loop {
        let count = match src.read(&mut buf) {
            Ok(count) => count,
            Err(Failed) => return Err(ReadStop::Fault),
        };
        if count == 0 {
            return Ok(all);
        }
        if limit - all.len() < count as u64 {
            return Err(ReadStop::TooLong);
        }
        all.extend(&buf[..count])?;
    }
}

/// Reads a file to its end, `limit` bytes at most.
///
/// Errors: as `FileStop` has them; what was read is lost.
pub fn read_file<F: Files>(
    alloc: Global,
    files: &mut F,
    name: &str,
    limit: u64,
) -> Result<Bytes, FileStop>
    ensures kept { SameFiles (F.held files.old) (F.held files.new) }
    ensures all { IfOk result (λ bytes. AtName (F.held files.old) name.now ⊥ (λ there. bytes ≡ there)) }
    ensures within { IfOk result (λ bytes. length bytes ≤ limit) }
    ensures counted { IfOk result (λ bytes. F.bytes_read files.new ≡ raised (length bytes) (F.bytes_read files.old)) }

    // Files that don't tell can still be too long only after `limit + 1` bytes were read.
    ensures too_long { IsErrOf result FileStop.TooLong → AtName (F.held files.old) name.now ⊥ (λ there. limit < length there) }
    ensures too_many { IsErrOf result FileStop.TooLong → raised (limit + 1) (F.bytes_read files.old) ≤ F.bytes_read files.new }
    ensures fault { IsErrOf result FileStop.Fault → Rose (F.read_faults files.old name.now) (F.read_faults files.new name.now) }
    ensures missing { IsErrOf result FileStop.Missing → MissesName (F.held files.old) name.now (Rose (F.read_faults files.old name.now) (F.read_faults files.new name.now)) }
    ensures lacking { AtName (F.held files.old) name.now (IsErrOf result FileStop.Missing ⊎ IsErrOf result FileStop.Memory) (λ _. ⊤) }
    ensures reads { NoneFell (F.read_faults files.old) (F.read_faults files.new) }
    ensures writes { NoneFell (F.write_faults files.old) (F.write_faults files.new) }
    ensures bytes_kept { NeverFell (F.bytes_read files.old) (F.bytes_read files.new) }
{
    let mut all = Bytes::new(alloc);
    let mut buf = vec![in alloc; 0u8; READ_PIECE_BYTES]?;
    loop {
        let count = match files.read_at(name, all.len(), &mut buf) {
            Ok(count) => count,
            Err(FileFault::Failed) => return Err(FileStop::Fault),
            Err(FileFault::Missing) => return Err(FileStop::Missing),
        };
        if count == 0 {
            return Ok(all);
        }
        if limit - all.len() < count as u64 {
            return Err(FileStop::TooLong);
        }
        all.extend(&buf[..count])?;
    }
}

/// Writes all of `bytes`. Takes no memory.
///
/// Errors: after `Failed` a front of `bytes` was written.
pub fn write_whole<K: Sink>(sink: &mut K, bytes: &[u8]) -> Result<(), Failed>
    ensures told { is_some (K.held sink.new) ≡ is_some (K.held sink.old) }
    ensures written { WritesWhole (K.held sink.old) (K.held sink.new) result bytes.now }
    ensures cause { HasCause (K.faults sink.old) (K.faults sink.new) result }
{
    let mut done = 0;
    while done < bytes.len() {
        done += sink.write(&bytes[done..])?;
    }
    Ok(())
}

/// Makes the file hold just `bytes`. Takes no memory.
///
/// Errors: after `Failed` the file is as before, or holds a front of `bytes`.
pub fn write_file<F: Files>(files: &mut F, name: &str, bytes: &[u8]) -> Result<(), Failed>
    ensures written { FilesWhole (F.held files.old) (F.held files.new) name.now result bytes.now }
    ensures cause { HasWriteCause (F.write_faults files.old) (F.write_faults files.new) name.now result }
    ensures reads { NoneFell (F.read_faults files.old) (F.read_faults files.new) }
    ensures bytes_kept { NeverFell (F.bytes_read files.old) (F.bytes_read files.new) }
{
    files.create(name)?;
    let mut done = 0;
    while done < bytes.len() {
        done += files.append(name, &bytes[done..])?;
    }
    Ok(())
}
