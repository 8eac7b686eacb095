//! Calls of `json_read`.
//!
//! - `parse` takes bytes; it answers `read`, or the fault.
use case_lists::{bytes_at, bytes_of_text, told, unknown_call};
use io_core::Bytes;
use json_read::ReadJson;
use json_values::Json;
use std::alloc::{AllocError, Global};

/// What a call of `json_read` answers to a case, as this module says; to a call that isn't there, what `unknown_call`
/// answers.
pub fn answer(alloc: Global, call: &str, case: &[Json]) -> Result<Bytes, AllocError> {
    match call {
        "parse" => parsed(alloc, case),
        _ => unknown_call(alloc),
    }
}

fn parsed(alloc: Global, case: &[Json]) -> Result<Bytes, AllocError> {
    let bytes = bytes_at(alloc, case, 0)?;
    match Json::parse(alloc, &bytes) {
        Ok(_) => bytes_of_text(alloc, "read"),
        Err(fault) => told(alloc, &fault),
    }
}
