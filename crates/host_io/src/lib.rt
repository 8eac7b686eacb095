//! The host's files and streams, as the `Source`, `Sink` and `Files` of `io_core`.
//!
//! In: a reader, a writer, or the files of a host. Out: objects that count their failed calls, and tell nothing of what
//! they hold or have left, as no contract can say what a host gives.
//!
//! 1. `streams` has a source over any reader, and a sink over any writer.
//! 2. `files` has the files of a host, by path.
#![tactic(auto)]

mod files;
mod streams;

pub use files::HostFiles;
pub use streams::{StdSink, StdSource};
