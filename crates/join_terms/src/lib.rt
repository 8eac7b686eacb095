//! The terms in which tables are joined.
//!
//! 1. `joins` says what a join by keys takes.
//! 2. `calculations` says what a join of rows that are matched already takes, and what it calculates.
//!
//! In `cmd_words` the words of a command line become these terms. `table_ops` and `spatial_join` say what tables then
//! give.
#![tactic(auto)]

mod calculations;
mod joins;

pub use calculations::{Calc, CalcList, CalcSpec};
pub use joins::JoinSpec;
