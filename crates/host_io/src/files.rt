ghost use Rattle.std.specs.Prelude.{None};
ghost use Rattle.std.specs.Io.{ReadsAtMost, WritesAtMost};

use crate::streams::{read_some, write_some};
use io_core::{Failed, FileFault, Files};
use std::fs::{File, OpenOptions};
use std::io::{ErrorKind, Read, Seek, SeekFrom};
use std::{io, rt};

/// The files of the host, by path. They tell nothing of their contents.
///
/// One count of failed reads and one of failed writes stand for all names. A file is opened anew for each
/// call, so that no name is held open, and is read by place: a pipe is given as standard input.
#[derive(Drop)]
pub struct HostFiles<R: rt::Files + Drop> {
    host: R,
    failed_reads: u64,
    failed_writes: u64,
    bytes_given: u64,
}

impl<R: rt::Files + Drop> HostFiles<R> {
    /// The files of a host, with each count at 0.
    pub fn new(host: R) -> HostFiles<R> {
        HostFiles {
            host,
            failed_reads: 0,
            failed_writes: 0,
            bytes_given: 0,
        }
    }
}

impl<R: rt::Files + Drop> Files for HostFiles<R> {
    ghost use Rattle.std.specs.Prelude.{None};

    ghost held = { λ _. None };

    ghost read_faults = { λ files _. files.failed_reads };

    ghost write_faults = { λ files _. files.failed_writes };

    ghost bytes_read = { λ files. files.bytes_given };

    fn read_at(&mut self, name: &str, at: u64, buf: &mut [u8]) -> Result<usize, FileFault> {
        match read_piece(&self.host, name, at, buf) {
            Ok(count) => {
                self.bytes_given = self.bytes_given.saturating_add(count as u64);
                Ok(count)
            }
            Err(fault) => {
                self.failed_reads = self.failed_reads.saturating_add(1);
                Err(fault)
            }
        }
    }

    fn create(&mut self, name: &str) -> Result<(), Failed> {
        match File::create(&self.host, name) {
            Ok(_) => Ok(()),
            Err(_) => {
                self.failed_writes = self.failed_writes.saturating_add(1);
                Err(Failed)
            }
        }
    }

    fn append(&mut self, name: &str, bytes: &[u8]) -> Result<usize, Failed> {
        match append_piece(&self.host, name, bytes) {
            Ok(count) if count > 0 || bytes.is_empty() => Ok(count),
            _ => {
                self.failed_writes = self.failed_writes.saturating_add(1);
                Err(Failed)
            }
        }
    }
}

fn read_piece<R: rt::Files>(
    host: &R,
    name: &str,
    at: u64,
    buf: &mut [u8],
) -> Result<usize, FileFault>
    ensures bound { ReadsAtMost result buf.new }
{
    match File::open(host, name) {
        Ok(mut file) => read_from(&mut file, at, buf).map_err(|_| FileFault::Failed),
        Err(e) if e.kind() == ErrorKind::NotFound => Err(FileFault::Missing),
        Err(_) => Err(FileFault::Failed),
    }
}

fn read_from<F: Read + Seek>(file: &mut F, at: u64, buf: &mut [u8]) -> io::Result<usize>
    ensures bound { ReadsAtMost result buf.new }
{
    file.seek(SeekFrom::Start(at))?;
    read_some(file, buf)
}

fn append_piece<R: rt::Files>(host: &R, name: &str, bytes: &[u8]) -> io::Result<usize>
    ensures bound { WritesAtMost result bytes.now }
{
    let mut file = OpenOptions::new()
        .append(true)
        .create(true)
        .open(host, name)?;
    write_some(&mut file, bytes)
}
