//! Calls of `numerals`.
//!
//! - `numeral_to_grid` takes a numeral and a number of decimal places; it answers the grid number, or none.
use case_lists::{number_at, text_at, told, unknown_call};
use io_core::Bytes;
use json_values::Json;
use numerals::numeral_to_grid;
use std::alloc::{AllocError, Global};

/// What a call of `numerals` answers to a case, as this module says; to a call that isn't there, what `unknown_call`
/// answers.
pub fn answer(alloc: Global, call: &str, case: &[Json]) -> Result<Bytes, AllocError> {
    match call {
        "numeral_to_grid" => on_grid(alloc, text_at(case, 0), number_at(case, 1)),
        _ => unknown_call(alloc),
    }
}

fn on_grid(alloc: Global, numeral: &str, places: u32) -> Result<Bytes, AllocError> {
    told(alloc, &numeral_to_grid(numeral, places.min(7) as u8))
}
