//! How a run ends, its exit status, and the one line that tells it.
//!
//! In: a fault of the words, of a source, of the drawing, or of a command with its number. Out: an `Outcome`, its
//! exit status, from 0 to 6, and its line on a sink.
//!
//! 1. `outcome` has all outcomes, makes one of each fault, and has the status of each.
//! 2. `message` tells an outcome other than `Done` in one line, and takes no memory. Where the sink fails, nothing
//!    else changes.
#![tactic(auto)]

mod message;
mod outcome;

pub use message::tell;
pub use outcome::{Outcome, status_of};
