ghost use Rattle.std.specs.Io.{ReadsAtMost, WritesAtMost};

use io_core::{Failed, Sink, Source};
use std::io;
use std::io::{ErrorKind, Read, Write};

/// A source over any reader of the host. It tells nothing of what is left.
#[derive(Drop)]
pub struct StdSource<R: Read + Drop> {
    reader: R,
    failed_reads: u64,
    bytes_given: u64,
}

impl<R: Read + Drop> StdSource<R> {
    /// A source over a reader, with each count at 0.
    pub fn new(reader: R) -> StdSource<R> {
        StdSource {
            reader,
            failed_reads: 0,
            bytes_given: 0,
        }
    }
}

impl<R: Read + Drop> Source for StdSource<R> {
    ghost use Rattle.std.specs.Prelude.{None};

    ghost left = { λ _. None };

    ghost faults = { λ source. source.failed_reads };

    ghost bytes_read = { λ source. source.bytes_given };

    fn read(&mut self, buf: &mut [u8]) -> Result<usize, Failed> {
        match read_some(&mut self.reader, buf) {
            Ok(count) => {
                self.bytes_given = self.bytes_given.saturating_add(count as u64);
                Ok(count)
            }
            Err(_) => {
                self.failed_reads = self.failed_reads.saturating_add(1);
                Err(Failed)
            }
        }
    }
}

/// A sink over any writer of the host. It tells nothing of what it holds, and keeps no buffer: what is
/// written comes in one piece as large as the text.
#[derive(Drop)]
pub struct StdSink<W: Write + Drop> {
    writer: W,
    failed_writes: u64,
}

impl<W: Write + Drop> StdSink<W> {
    /// A sink over a writer, with no failed write counted.
    pub fn new(writer: W) -> StdSink<W> {
        StdSink {
            writer,
            failed_writes: 0,
        }
    }
}

impl<W: Write + Drop> Sink for StdSink<W> {
    ghost use Rattle.std.specs.Prelude.{None};

    ghost held = { λ _. None };

    ghost faults = { λ sink. sink.failed_writes };

    fn write(&mut self, bytes: &[u8]) -> Result<usize, Failed> {
        match write_some(&mut self.writer, bytes) {
            Ok(count) if count > 0 || bytes.is_empty() => Ok(count),
            _ => {
                self.failed_writes = self.failed_writes.saturating_add(1);
                Err(Failed)
            }
        }
    }
}

// Tries again where a signal interrupts the call.
pub(crate) fn read_some<R: Read>(reader: &mut R, buf: &mut [u8]) -> io::Result<usize>
    ensures bound { ReadsAtMost result buf.new }
{
    for _ in 0..u64::MAX {
        match reader.read(buf) {
            Err(e) if e.kind() == ErrorKind::Interrupted => {}
            answer => return answer,
        }
    }
    Err(io::Error::from(ErrorKind::Interrupted))
}

// Tries again where a signal interrupts the call.
pub(crate) fn write_some<W: Write>(writer: &mut W, bytes: &[u8]) -> io::Result<usize>
    ensures bound { WritesAtMost result bytes.now }
{
    for _ in 0..u64::MAX {
        match writer.write(bytes) {
            Err(e) if e.kind() == ErrorKind::Interrupted => {}
            answer => return answer,
        }
    }
    Err(io::Error::from(ErrorKind::Interrupted))
}
