ghost use Rattle.std.specs.Prelude.{◌≡◌, ◌<◌, ◌≤◌, ◌++◌, ◌∷◌, [], IfOk, OnOk, length, map};
ghost use Rattle.std.specs.List.{IsDistinct};
ghost use Rattle.std.specs.Str.{bytes_eq};
ghost use Rattle.csv.specs.Records.{fields_of};
ghost use Rattle.csv_io.specs.CsvTable.{Finds, column_cells, has_numbers, is_number_column, is_number_or_empty, number_columns, refused_row, repeated_column};

use crate::cells::{cell_of, plain_decimal};
use crate::fault::{CsvFault, Room2};
use csv::ByteRecord;
use std::alloc::{AllocError, Global};
use table_terms::NameSet;
use text_core::{NameList, Text};

/// The names of the columns, or the first column whose name stands earlier.
pub(crate) fn header_names(alloc: Global, header: &ByteRecord) -> Result<NameList, CsvFault>
    ensures exact { Finds result (repeated_column [] 0 (fields_of header.now)) }
    ensures names { IfOk result (λ names. names ≡ fields_of header.now) }
    ensures distinct { IfOk result (λ names. IsDistinct bytes_eq names) }
{
    let mut seen = NameSet::new(alloc);
    let mut names = NameList::new(alloc);
    for column in 0..header.len() {
        add_column(alloc, &mut seen, &mut names, cell_of(header, column))?;
    }
    Ok(names)
}

fn add_column(
    alloc: Global,
    seen: &mut NameSet,
    names: &mut NameList,
    cell: &[u8],
) -> Result<(), CsvFault>
    requires same { names.old ≡ seen.old }
    ensures exact { Finds result (repeated_column names.old (length names.old) (cell.now ∷ [])) }
    ensures added { OnOk result (names.new ≡ names.old ++ cell.now ∷ []) }
    ensures same { OnOk result (names.new ≡ seen.new) }
    ensures distinct { OnOk result (IsDistinct bytes_eq seen.new) }
{
    // A cell of a UTF-8 text is UTF-8, since commas, quotes and line ends are single bytes.
    let Ok(name) = str::from_utf8(cell) else {
        return Err(CsvFault::Memory);
    };
    let column = names.len();
    if !seen.add(alloc, name)? {
        return Err(CsvFault::RepeatedName { column });
    }
    names.push(Text::of(alloc, name)?)?;
    Ok(())
}

/// Refuses the first row past the room, or with another number of cells than the header.
pub(crate) fn check_rows(rows: &[ByteRecord], width: usize, room: Room2) -> Result<(), CsvFault>
    ensures exact { Finds result (refused_row room.rows width 0 (map fields_of rows.now)) }
{
    let mut number = 0;
    for row in rows {
        check_row(number, row, width, room)?;
        number += 1;
    }
    Ok(())
}

fn check_row(number: u32, row: &ByteRecord, width: usize, room: Room2) -> Result<(), CsvFault>
    requires room { number ≤ room.rows }
    ensures exact { Finds result (refused_row room.rows width number (fields_of row.now ∷ [])) }
    ensures room { OnOk result (number < room.rows) }
{
    if number == room.rows {
        return Err(CsvFault::TooManyRows { row: number });
    }
    if row.len() != width {
        return Err(CsvFault::UnequalRow { row: number });
    }
    Ok(())
}

/// Whether each column has numbers.
#[tactic(auto, using(crate::proofs::CsvTable::columns_more))]
pub(crate) fn number_columns(
    alloc: Global,
    names: &NameList,
    texts: &NameSet,
    rows: &[ByteRecord],
) -> Result<Vec<bool>, AllocError>
    ensures exact { IfOk result (λ numbers. numbers.items ≡ number_columns texts.now names.now (map fields_of rows.now)) }
{
    let mut numbers = Vec::new(alloc);
    for name in names.as_slice() {
        let is_number = is_number_column(texts, rows, numbers.len(), name.as_str());
        numbers.push(is_number)?;
    }
    Ok(numbers)
}

fn is_number_column(texts: &NameSet, rows: &[ByteRecord], column: usize, name: &str) -> bool
    ensures exact { result ≡ is_number_column texts.now (map fields_of rows.now) column name.now }
{
    !texts.has(name) && has_numbers(rows, column)
}

/// Whether some cell of a column is not empty, and all such cells are plain decimals.
fn has_numbers(rows: &[ByteRecord], column: usize) -> bool
    ensures exact { result ≡ has_numbers (column_cells (map fields_of rows.now) column) }
{
    let mut some = false;
    for row in rows {
        let cell = cell_of(row, column);
        if is_number_or_empty(cell) {
            some = some || !cell.is_empty();
        } else {
            return false;
        }
    }
    some
}

fn is_number_or_empty(cell: &[u8]) -> bool
    ensures exact { result ≡ is_number_or_empty cell.now }
{
    cell.is_empty() || plain_decimal(cell).is_some()
}
