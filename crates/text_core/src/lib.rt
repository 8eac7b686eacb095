//! Texts: one of its own, and lists of bytes and of texts.
//!
//! They stand apart from `io_core`, which hands them on, so that crates that read and write no file needn't wait for
//! it.
//!
//! 1. `text` is a text of its own; a short one, as most numerals are, takes no memory.
//! 2. `bytes` and `name_list` are lists of bytes and of texts.
#![tactic(auto)]

mod bytes;
mod name_list;
mod text;

pub use bytes::Bytes;
pub use name_list::{NameList, Words};
pub use text::Text;
