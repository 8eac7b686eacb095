//! Cases of tests that are data: what a group of cases holds, and whether a call answers what a case wants.
//!
//! The cases of a program are a JSON list of groups on standard input. Each group is an object:
//!
//! - `about`: what its cases show; a case that differs is told by this and its place, counted from 0;
//! - `of`: the crate whose call it is, and `call`: which call of it;
//! - `cases`: a list of lists. Each has what the call takes, one item after another, and last what it answers: a text,
//!   or a list of lines that each end with a line feed.
//!
//! Bytes that a call takes are a text, or where they are no UTF-8 text a list of numbers. A fault, and each other value
//! that is no text, is compared as `{:?}` prints it.
//!
//! Where a case lacks an item, or has one of another kind, reading gives the empty text, the empty list or 0: then the
//! call answers otherwise than the case wants. No clause is needed here, since programs of tests alone use this; each
//! has some cases on purpose that differ, so that a comparison that lets all pass would show.
#![tactic(auto)]

mod answers;
mod items;
mod tally;

pub use answers::{bytes_of_text, is_wanted, told, unknown_call};
pub use items::{
    bytes_at, integer_at, list_at, list_in, member_of, names_at, number_at, text_at, text_in,
};
pub use tally::Tally;
