ghost use Rattle.std.specs.Prelude.{◌≡◌, ◌≤◌, ℕ, List, Option, is_some};
ghost use Rattle.std.specs.Io.{ReadsAtMost};
ghost use Rattle.std.specs.Io.KnownBytes.{ReadConsumes, WriteAppends};
ghost use Rattle.io_core.specs.Counts.{NeverFell, NoneFell, HasCause, CountsBytes};
ghost use Rattle.io_core.specs.Contents.{FileMap, SameFiles, ReadsAt, HasReadCause, KeptIfMissing, Creates, AppendsTo, TakesSome, HasWriteCause};

/// A call of the outside failed, and its object counted it.
#[derive(Clone, Copy, Debug, PartialEq, Eq)]
pub struct Failed;

/// Why a read of a file gave nothing.
#[derive(Clone, Copy, Debug, PartialEq, Eq)]
pub enum FileFault {
    /// The read failed, and the files counted it.
    Failed,
    /// There is no file of that name.
    Missing,
}

/// Bytes to be read, front to back.
///
/// `left` is what is left to be read, where the source tells it; no call changes whether it tells.
/// `faults` counts failed calls, and `bytes_read` the bytes that were answered; neither ever falls.
pub trait Source {
    ghost left: { Self → Option (List ℕ) };

    ghost faults: { Self → ℕ };

    ghost bytes_read: { Self → ℕ };

    /// Moves a front of what is left into the front of `buf`, and answers its length.
    ///
    /// 0 for a `buf` that isn't empty is the end.
    fn read(&mut self, buf: &mut [u8]) -> Result<usize, Failed>
        ensures bound { ReadsAtMost result buf.new }
        ensures told { is_some (left self.new) ≡ is_some (left self.old) }
        ensures bytes { ReadConsumes (left self.old) (left self.new) result buf.new }
        ensures cause { HasCause (faults self.old) (faults self.new) result }
        ensures counted { CountsBytes (bytes_read self.old) (bytes_read self.new) result };
}

/// A place to write bytes to, one after the other.
///
/// `held` is what was written so far, where the sink tells it; no call changes whether it tells.
/// `faults` counts failed calls and never falls.
pub trait Sink {
    ghost held: { Self → Option (List ℕ) };

    ghost faults: { Self → ℕ };

    /// Appends a front of `bytes`, and answers its length: at least one byte where there is one.
    ///
    /// Errors: after `Failed` nothing was written.
    fn write(&mut self, bytes: &[u8]) -> Result<usize, Failed>
        ensures told { is_some (held self.new) ≡ is_some (held self.old) }
        ensures appends { WriteAppends (held self.old) (held self.new) result bytes.now }
        ensures some { TakesSome result bytes.now }
        ensures cause { HasCause (faults self.old) (faults self.new) result };
}

/// Files by name.
///
/// `held` is the bytes under each name, where the files tell it; no call changes whether they tell.
/// Each name has a count of failed reads, `read_faults`, and one of failed creations and appends,
/// `write_faults`, which several names may share; `bytes_read` counts the bytes that were answered. None of them ever
/// falls. Files that don't tell what is held count a read of a missing name as a failed one, those that tell it don't.
pub trait Files {
    ghost held: { Self → Option FileMap };

    ghost read_faults: { Self → List ℕ → ℕ };

    ghost write_faults: { Self → List ℕ → ℕ };

    ghost bytes_read: { Self → ℕ };

    /// Copies bytes of the file from place `at` on into the front of `buf`, and answers their number.
    ///
    /// 0 for a `buf` that isn't empty is the end.
    fn read_at(&mut self, name: &str, at: u64, buf: &mut [u8]) -> Result<usize, FileFault>
        ensures bound { ReadsAtMost result buf.new }
        ensures bytes { ReadsAt (held self.old) name.now at result buf.new }
        ensures kept { SameFiles (held self.old) (held self.new) }
        ensures cause { HasReadCause (held self.old) (read_faults self.old) (read_faults self.new) name.now result }
        ensures writes { NoneFell (write_faults self.old) (write_faults self.new) }
        ensures missing { KeptIfMissing (held self.old) (write_faults self.old) (write_faults self.new) result }
        ensures counted { CountsBytes (bytes_read self.old) (bytes_read self.new) result };

    /// Gives the file empty contents, whether it is there or not.
    ///
    /// Errors: after `Failed` all files are as before.
    fn create(&mut self, name: &str) -> Result<(), Failed>
        ensures made { Creates (held self.old) (held self.new) name.now result }
        ensures cause { HasWriteCause (write_faults self.old) (write_faults self.new) name.now result }
        ensures reads { NoneFell (read_faults self.old) (read_faults self.new) }
        ensures counted { NeverFell (bytes_read self.old) (bytes_read self.new) };

    /// Appends a front of `bytes` to the file, and answers its length: at least one byte where there is one.
    ///
    /// A file that isn't there is first given empty contents.
    ///
    /// Errors: after `Failed` all files are as before.
    fn append(&mut self, name: &str, bytes: &[u8]) -> Result<usize, Failed>
        ensures appends { AppendsTo (held self.old) (held self.new) name.now result bytes.now }
        ensures some { TakesSome result bytes.now }
        ensures cause { HasWriteCause (write_faults self.old) (write_faults self.new) name.now result }
        ensures reads { NoneFell (read_faults self.old) (read_faults self.new) }
        ensures counted { NeverFell (bytes_read self.old) (bytes_read self.new) };
}
