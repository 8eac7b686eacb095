//! The outside of a run: where bytes come from and go to, and how a failure of it is told.
//!
//! 1. `outside` has what a run reads and writes: `Source`, `Sink` and `Files`. Each tells what it holds or has left,
//!    where it can, and counts its failed calls, so that an answer of failure always has a count that rose.
//! 2. `whole`: `read_whole` and `read_file` take a limit, and give all bytes or say why not; `write_whole` and
//!    `write_file` take bytes, and write them all, or leave a front of them and a count that rose.
//! 3. `memory_source`, `memory_sink` and `memory_files` are the outside in memory: they tell all, move at most a
//!    given number of bytes a call, and fail at the calls that they were given.
//! 4. A text, and lists of bytes and of texts, are those of `text_core`.
#![tactic(auto)]

mod bounded_bytes;
mod failing_calls;
mod file_entry;
mod memory_files;
mod memory_sink;
mod memory_source;
mod outside;
mod whole;

pub use memory_files::MemFiles;
pub use memory_sink::MemSink;
pub use memory_source::MemSource;
pub use outside::{Failed, FileFault, Files, Sink, Source};
pub use text_core::{Bytes, NameList, Text, Words};
pub use whole::{FileStop, ReadStop, read_file, read_whole, write_file, write_whole};
