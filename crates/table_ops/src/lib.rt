//! Tables of named columns: rows filtered by an expression, and tables joined. What `table_rows` does to tables is
//! handed on.
//!
//! In: tables, and the terms of `join_terms`. Out: a table, or numbers of rows, counted from 0; or the first
//! `TableFault`.
//!
//! 1. `filter` finds rows by an expression.
//! 2. `join` joins by keys, in steps that serve other joins too: `check_fields` and `candidates` say what of the
//!    source takes part, `copied_columns` which columns the table has, and `copied_row` what a row has of its match.
#![tactic(auto)]

mod filter;
mod join;
mod join_columns;
mod join_matches;

pub use filter::{filter_rows, value_for_row};
pub use join::{candidates, check_fields, copied_row, join_tables};
pub use join_columns::{Column, Columns, CopiedFields, copied_columns, copied_names};
pub use table_rows::{
    EvalWhy, Grouped, SplitItem, SplitList, TableFault, TableList, TableWhy, column_sum,
    copy_names, copy_table, group_rows, keep_fields, merge_tables, rename_fields, split_rows,
    take_rows,
};
