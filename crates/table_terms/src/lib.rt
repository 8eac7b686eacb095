//! The terms in which rows and columns are asked for: names of columns, renames, and what a grouping takes. Those of
//! joins, which may have an expression, are in `join_terms`.
//!
//! 1. `names` has sets of names, which answer the place of a name.
//! 2. `renames` has lists of new names for columns.
//! 3. `groupings` says what a grouping takes.
//!
//! In `cmd_words` the words of a command line become these terms. `table_rows` says what tables then give.
#![tactic(auto)]

mod groupings;
mod names;
mod renames;

pub use groupings::GroupSpec;
pub use names::NameSet;
pub use renames::{Rename, RenameList};
