//! Commands on rows and columns: each makes a layer of one layer, or several of one, or one of several.
//!
//! In: the layers of a command's target, and what its words ask for. Out: layers with new tables, in which each row
//! has the shape that it had; or a `CommandStop`, where a table is refused or memory ran out.
//!
//! 1. `table_commands` is `-filter`, `-filter-fields`, `-rename-fields`, `-join` by keys and by matches, and
//!    `-merge-layers`, by the calls of `table_ops` and `spatial_join`.
//! 2. `matching` says which features of two layers match by place, for `-join` by matches.
//! 3. `row_commands` is `-each`, `-sort` and `-uniq`, by those of `calc_ops`.
//! 4. `splitting` is `-split`.
#![tactic(auto)]

mod matching;
mod row_commands;
mod splitting;
mod table_commands;

pub use matching::matches_of;
pub use row_commands::{calculated, sorted, unrepeated};
pub use splitting::split;
pub use table_commands::{filtered, joined, joined_by_matches, merged, renamed, with_fields};
