//! Commands by calculated values and sizes.
//!
//! - `each_rows` sets fields to the values of expressions, row by row.
//! - `sort_rows` and `uniq_rows` evaluate a key for each row, once: they put the rows in the order of their keys, or
//!   tell the rows whose key few rows before them have.
//! - `drop_islands` takes from each set of faces its detached parts that are small in area or in links.
//!
//! Sorting takes n log n comparisons, telling rows apart one look-up for each, and islands one step for each arc
//! beside a face of a set.
#![tactic(auto)]

mod each_row;
mod early_rows;
mod islands;
mod key_order;
mod keys;
mod sorted_rows;

pub use each_row::each_rows;
pub use early_rows::uniq_rows;
pub use islands::drop_islands;
pub use sorted_rows::sort_rows;
