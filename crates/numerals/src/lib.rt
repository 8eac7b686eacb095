//! Numerals, exactly: the texts of numbers (RFC 8259, section 6), grid numbers and decimals.
//!
//! A numeral is read in two ways, both exact and without forming the whole number: `numeral_to_grid` rounds it, for
//! coordinates; `whole_units` counts the units that it is a whole number of, for transforms and indices, and
//! `Decimal::parse` does so for the cells of tables.
//!
//! `laws` has facts over the definitions alone: the numbers of the grammar are exactly the numerals that have a value;
//! a printed decimal and a printed grid number read back; rounding gives the nearest whole number, halves up.
#![tactic(auto)]

mod decimal;
mod grid_numeral;
pub mod laws;
mod numerals;
mod plain_numeral;
mod powers;
mod units;

pub use decimal::Decimal;
pub use grid_numeral::{front_to_grid, numeral_to_grid};
pub use numerals::{digit_count, is_numeral};
pub use powers::ten_to;
pub use units::whole_units;
