//! Tables of named columns, by their rows: taken, grouped and split, columns kept and renamed, tables merged.
//!
//! In: tables, and names of `table_terms`. Out: a table, or numbers of rows; or the first `TableFault`. What asks for
//! an expression or for a second table's rows by a key is in `table_ops`.
//!
//! 1. `rows` copies tables, and takes rows by their numbers; `group` and `split` find them by their values, which
//!    `key` tells apart.
//! 2. `items` tests lists of names. `columns` keeps columns, `rename` renames them; `merge` puts tables one under
//!    another.
#![tactic(auto)]

mod columns;
mod fault;
mod group;
mod group_sums;
mod groups;
mod items;
mod key;
mod merge;
mod rename;
mod rows;
mod split;

pub use columns::keep_fields;
pub use fault::{EvalWhy, TableFault, TableWhy};
pub use group::{Grouped, group_rows};
pub use group_sums::column_sum;
pub use items::check_list;
pub use key::KeyValue;
pub use merge::{TableList, merge_tables};
pub use rename::rename_fields;
pub use rows::{copy_at, copy_names, copy_table, first_row, row_of, take_rows};
pub use split::{SplitItem, SplitList, split_rows};
