//! Comma-separated text (RFC 4180) as tables: the first record has the names, the others are rows.
//!
//! In: bytes, the names of columns whose cells are texts, and room for rows. Out: a `Table`, or the first `CsvFault`.
//!
//! 1. `reading` has `read_csv`: `utf8` looks for a fault, and the crate `csv` parts the bytes into records.
//! 2. `columns` takes the names from the first record, refuses rows past the room or of another length, and tells
//!    which columns have numbers.
//! 3. `cells` makes the values: decimals and null in columns of numbers, texts in the others.
//! 4. `writing` has `write_csv`, which makes the text of a table; without columns it is empty.
#![tactic(auto)]

mod cells;
mod columns;
mod fault;
mod reading;
mod utf8;
mod writing;

pub use fault::{CsvFault, Room2};
pub use reading::read_csv;
pub use writing::write_csv;
