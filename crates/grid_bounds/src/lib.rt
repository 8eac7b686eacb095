//! How far the grid goes: the limit of its numbers, and its greatest number of decimal places.
//!
//! They stand apart from `grid_base`, which hands them on, so that `numerals` needn't wait for points.
#![tactic(auto)]

/// A number of the grid is at most this, either way: 200,000,000,000.
pub const LIMIT: i64 = 200_000_000_000;

/// The greatest number of decimal places that a grid has.
pub const MAX_PLACES: u8 = 9;
