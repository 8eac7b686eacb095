//! The program: the host's words, files and streams, handed to a run.
//!
//! In: the words of the command line, the files that they name, and standard input. Out: files and standard output, a
//! line on standard error for an outcome other than `Done`, and the exit status.
//!
//! 1. `main` takes the words. One that is not UTF-8 text ends the program with status 1.
//! 2. `host_io` makes the host's streams and files into the `Source`, `Sink` and `Files` of `io_core`.
//! 3. `ms_chain::run` does the rest; its outcome has the exit status.
#![tactic(auto)]

use host_io::{HostFiles, StdSink, StdSource};
use io_core::{Sink, Text, Words};
use ms_chain::{Outcome, run, status_of, tell};
use std::alloc::Global;
use std::process::ExitCode;
use std::{env, io};

/// The exit status where a word can't be read, as where it is refused.
const BAD_WORDS: u8 = 1;

/// The size of the piece of memory that is taken at first and given back unused, in bytes.
const FIRST_PIECE_BYTES: usize = 32_000_000;

fn main(rt: HostRuntime) -> ExitCode {
    let alloc = rt.alloc();
    keep_what_is_let_go(alloc);
    let mut messages = StdSink::new(rt.stderr());
    match host_words(&rt) {
        Ok(words) => {
            let mut input = StdSource::new(rt.stdin());
            let mut output = StdSink::new(rt.stdout());
            let mut files = HostFiles::new(rt);
            let outcome = run(
                alloc,
                &words,
                &mut files,
                &mut input,
                &mut output,
                &mut messages,
            );
            ExitCode::from(status_of(&outcome))
        }
        Err(e) if e.kind() == io::ErrorKind::OutOfMemory => {
            tell(&mut messages, &Outcome::Memory);
            ExitCode::from(status_of(&Outcome::Memory))
        }
        Err(_) => {
            let _ = messages.write(b"ms_cli: a word is not UTF-8 text\n");
            ExitCode::from(BAD_WORDS)
        }
    }
}

// Takes a large piece of memory and gives it back. The C library takes that for a sign to keep pieces of up to this
// size when they are let go of, for what is taken next; otherwise each large list goes back to the system, and the
// next one is made of fresh pages. Where there is no such piece, nothing changes.
fn keep_what_is_let_go(alloc: Global) {
    let _ = Vec::<u8>::with_capacity(alloc, FIRST_PIECE_BYTES);
}

// The words after the program's name.
fn host_words(rt: &HostRuntime) -> io::Result<Words> {
    let mut words = Words::new(rt.alloc());
    for argument in env::args(rt)?.skip(1) {
        words.push(Text::from_string(argument))?;
    }
    Ok(words)
}
