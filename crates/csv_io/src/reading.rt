ghost use Rattle.std.specs.Prelude.{◌≡◌, [], IfOk, map};
ghost use Rattle.std.specs.Str.{bytes_eq};
ghost use Rattle.indexmap.specs.IndexSet.{insert_all};
ghost use Rattle.csv.specs.Reading.{default_config, records, strip_bom};
ghost use Rattle.csv.specs.Records.{fields_of};
ghost use Rattle.csv_io.specs.CsvTable.{Gives, ReadsText, number_columns, row_values, table_of_records};

use crate::cells::{cell_of, value_of};
use crate::columns::{check_rows, header_names, number_columns};
use crate::fault::{CsvFault, Room2};
use crate::utf8::utf8_fault;
use csv::{ByteRecord, ReaderBuilder};
use json_values::{Row, RowList, Table};
use std::alloc::{AllocError, Global};
use table_terms::NameSet;
use text_core::NameList;

/// The table of a comma-separated text (RFC 4180): the first record has the names.
///
/// A column that `string_fields` lacks, with a cell that is not empty, all such cells plain decimals,
/// has numbers, and null for an empty cell; every other column has texts.
/// Errors: the first of `Utf8`, `NoHeader`, `RepeatedName`, and then, row by row, `TooManyRows` and
/// `UnequalRow`.
pub fn read_csv(
    alloc: Global,
    bytes: &[u8],
    string_fields: &NameList,
    room: Room2,
) -> Result<Table, CsvFault>
    ensures exact { ReadsText string_fields.now room.rows bytes.now result }
{
    if let Some(at) = utf8_fault(bytes) {
        return Err(CsvFault::Utf8 { at });
    }
    let records = records_of(alloc, bytes)?;
    table_of(alloc, records.as_slice(), string_fields, room)
}

/// The records of a text, as `csv` reads them with no header and lengths of any kind.
fn records_of(alloc: Global, bytes: &[u8]) -> Result<Vec<ByteRecord>, AllocError>
    ensures exact { IfOk result (λ list. map fields_of list.items ≡ records default_config (strip_bom bytes.now)) }
{
    let reader = ReaderBuilder::new()
        .has_headers(false)
        .flexible(true)
        .from_reader(alloc, bytes);
    let mut records = Vec::new(alloc);
    for record in reader.into_byte_records() {
        let Ok(record) = record else {
            return Err(AllocError);
        };
        records.push(record)?;
    }
    Ok(records)
}

/// The table of records, of which the first has the names.
fn table_of(
    alloc: Global,
    records: &[ByteRecord],
    string_fields: &NameList,
    room: Room2,
) -> Result<Table, CsvFault>
    ensures exact { Gives result (table_of_records string_fields.now room.rows (map fields_of records.now)) }
{
    let [header, rows @ ..] = records else {
        return Err(CsvFault::NoHeader);
    };
    let names = header_names(alloc, header)?;
    check_rows(rows, header.len(), room)?;
    let rows = rows_under(alloc, &names, string_fields, rows)?;
    Ok(Table::new(names, rows))
}

/// The values of rows under these names, of which some are listed as columns of texts.
fn rows_under(
    alloc: Global,
    names: &NameList,
    string_fields: &NameList,
    rows: &[ByteRecord],
) -> Result<RowList, AllocError>
    ensures exact { IfOk result (λ out. out ≡ map (row_values (number_columns string_fields.now names.now (map fields_of rows.now))) (map fields_of rows.now)) }
{
    let texts = texts_of(alloc, string_fields)?;
    let numbers = number_columns(alloc, names, &texts, rows)?;
    let out = rows_of(alloc, rows, numbers.as_slice())?;
    Ok(out)
}

#[tactic(auto, using(table_terms::proofs::Inserted::insert_all_more))]
fn texts_of(alloc: Global, names: &NameList) -> Result<NameSet, AllocError>
    ensures all { IfOk result (λ texts. texts ≡ insert_all bytes_eq [] names.now) }
{
    let mut texts = NameSet::new(alloc);
    for name in names.as_slice() {
        texts.add(alloc, name.as_str())?;
    }
    Ok(texts)
}

fn rows_of(alloc: Global, rows: &[ByteRecord], numbers: &[bool]) -> Result<RowList, AllocError>
    ensures exact { IfOk result (λ out. out ≡ map (row_values numbers.now) (map fields_of rows.now)) }
{
    let mut out = RowList::new(alloc);
    for row in rows {
        out.push(row_of(alloc, row, numbers)?)?;
    }
    Ok(out)
}

#[tactic(auto, using(crate::proofs::CsvTable::values_more))]
fn row_of(alloc: Global, cells: &ByteRecord, numbers: &[bool]) -> Result<Row, AllocError>
    ensures exact { IfOk result (λ row. row ≡ row_values numbers.now (fields_of cells.now)) }
{
    let mut row = Row::new(alloc);
    for i in 0..numbers.len() {
        row.push(value_of(alloc, cell_of(cells, i), numbers[i])?)?;
    }
    Ok(row)
}
