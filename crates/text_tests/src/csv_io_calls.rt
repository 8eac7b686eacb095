//! Calls of `csv_io`.
//!
//! `read_csv` takes bytes, the names of columns that have texts, and how many rows there is room for; it answers the
//! text that `write_csv` writes of the table, or the fault.
use case_lists::{bytes_at, names_at, number_at, told, unknown_call};
use csv_io::{Room2, read_csv, write_csv};
use io_core::Bytes;
use json_values::Json;
use std::alloc::{AllocError, Global};

/// What a call of `csv_io` answers to a case, as this module says; to a call that isn't there, what `unknown_call`
/// answers.
pub fn answer(alloc: Global, call: &str, case: &[Json]) -> Result<Bytes, AllocError> {
    match call {
        "read_csv" => read(alloc, case),
        _ => unknown_call(alloc),
    }
}

fn read(alloc: Global, case: &[Json]) -> Result<Bytes, AllocError> {
    let text = bytes_at(alloc, case, 0)?;
    let strings = names_at(alloc, case, 1)?;
    let room = Room2 {
        rows: number_at(case, 2),
    };
    match read_csv(alloc, &text, &strings, room) {
        Ok(table) => write_csv(alloc, &table),
        Err(fault) => told(alloc, &fault),
    }
}
