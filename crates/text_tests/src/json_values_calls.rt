//! Calls of `json_values`.
//!
//! - `print_into` takes the bytes of a JSON text; it answers the text of its value, and `print_json` that of the value
//!   of a table which it makes.
//! - `from_fields` takes a list of objects; it answers the names of their table, and then each cell after a blank.
use case_lists::{bytes_at, list_at, told, unknown_call};
use geojson_io::properties_of;
use io_core::{Bytes, Text};
use json_read::ReadJson;
use json_values::{FieldsList, Json, Row, Table, Value};
use std::alloc::{AllocError, Global};

/// What a call of `json_values` answers to a case, as this module says; to a call that isn't there, what `unknown_call`
/// answers.
pub fn answer(alloc: Global, call: &str, case: &[Json]) -> Result<Bytes, AllocError> {
    match call {
        "print_into" => printed(alloc, case),
        "print_json" => printed_as_value(alloc, case),
        "from_fields" => table_text(alloc, list_at(case, 0)),
        _ => unknown_call(alloc),
    }
}

fn printed(alloc: Global, case: &[Json]) -> Result<Bytes, AllocError> {
    let bytes = bytes_at(alloc, case, 0)?;
    let json = match Json::parse(alloc, &bytes) {
        Ok(json) => json,
        Err(fault) => return told(alloc, &fault),
    };
    let mut out = Bytes::new(alloc);
    json.print_into(&mut out)?;
    Ok(out)
}

fn printed_as_value(alloc: Global, case: &[Json]) -> Result<Bytes, AllocError> {
    let bytes = bytes_at(alloc, case, 0)?;
    let json = match Json::parse(alloc, &bytes) {
        Ok(json) => json,
        Err(fault) => return told(alloc, &fault),
    };
    let value = Value::of_json(alloc, &json)?.copy(alloc)?;
    let mut out = Bytes::new(alloc);
    value.print_json(&mut out)?;
    Ok(out)
}

fn table_text(alloc: Global, objects: &[Json]) -> Result<Bytes, AllocError> {
    let table = table_of(alloc, objects)?;
    let mut out = Bytes::new(alloc);
    print_names(&mut out, table.names().as_slice())?;
    print_rows(&mut out, table.rows().as_slice())?;
    Ok(out)
}

fn print_names(out: &mut Bytes, names: &[Text]) -> Result<(), AllocError> {
    for name in names {
        out.extend(name.as_str().as_bytes())?;
    }
    Ok(())
}

fn table_of(alloc: Global, objects: &[Json]) -> Result<Table, AllocError> {
    let mut rows = FieldsList::new(alloc);
    for object in objects {
        if let Json::Object(members) = object {
            rows.push(properties_of(alloc, members)?)?;
        }
    }
    Table::from_fields(alloc, rows)
}

fn print_rows(out: &mut Bytes, rows: &[Row]) -> Result<(), AllocError> {
    for row in rows {
        print_cells(out, row.as_slice())?;
    }
    Ok(())
}

fn print_cells(out: &mut Bytes, cells: &[Value]) -> Result<(), AllocError> {
    for cell in cells {
        out.push(b' ')?;
        cell.print_plain(out)?;
    }
    Ok(())
}
