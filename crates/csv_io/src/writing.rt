ghost use Rattle.std.specs.Prelude.{◌≡◌, ◌++◌, [], IfOk, OnOk};
ghost use Rattle.csv.specs.Records.{fields_of};
ghost use Rattle.csv.specs.Writing.{default_writer, row_text};
ghost use Rattle.csv_io.specs.CsvText.{IsBetweenRecords, csv_text, records_text, row_cells, text_so_far};

use csv::{ByteRecord, Writer, WriterBuilder};
use json_values::{Row, RowList, Table};
use std::alloc::{AllocError, Global};
use text_core::{Bytes, NameList};

/// The table as comma-separated text (RFC 4180): a record of the names, and one for each row, of the
/// plain texts of its values; a line feed ends a record. Without columns nothing.
#[tactic(auto, using(crate::proofs::CsvText::text_none, crate::proofs::CsvText::text_some))]
pub fn write_csv(alloc: Global, t: &Table) -> Result<Bytes, AllocError>
    ensures exact { IfOk result (λ text. text ≡ csv_text t.now) }
{
    if t.names().len() == 0 {
        return Ok(Bytes::new(alloc));
    }
    records_text(alloc, t.names(), t.rows())
}

fn records_text(alloc: Global, names: &NameList, rows: &RowList) -> Result<Bytes, AllocError>
    ensures exact { IfOk result (λ text. text ≡ records_text names.now rows.now) }
{
    let mut writer = WriterBuilder::new().from_writer(Vec::new(alloc));
    write_records(alloc, &mut writer, names, rows)?;
    match writer.into_inner() {
        Ok(text) => Ok(Bytes::from_vec(text)),
        Err(_) => Err(AllocError),
    }
}

/// Writes a record of the names, and one for each row.
#[tactic(auto, using(crate::proofs::CsvText::records_none, crate::proofs::CsvText::records_more))]
fn write_records(
    alloc: Global,
    writer: &mut Writer<Vec<u8>>,
    names: &NameList,
    rows: &RowList,
) -> Result<(), AllocError>
    requires between { IsBetweenRecords writer.old }
    requires begins { text_so_far writer.old ≡ [] }
    ensures between { OnOk result (IsBetweenRecords writer.new) }
    ensures text { OnOk result (text_so_far writer.new ≡ records_text names.now rows.now) }
{
    write_names(alloc, writer, names)?;
    for row in rows.as_slice() {
        write_row(alloc, writer, row)?;
    }
    Ok(())
}

fn write_names(
    alloc: Global,
    writer: &mut Writer<Vec<u8>>,
    names: &NameList,
) -> Result<(), AllocError>
    requires between { IsBetweenRecords writer.old }
    ensures between { OnOk result (IsBetweenRecords writer.new) }
    ensures text { OnOk result (text_so_far writer.new ≡ text_so_far writer.old ++ row_text default_writer names.now) }
{
    let cells = name_record(alloc, names)?;
    write_record(writer, &cells)
}

fn write_row(alloc: Global, writer: &mut Writer<Vec<u8>>, row: &Row) -> Result<(), AllocError>
    requires between { IsBetweenRecords writer.old }
    ensures between { OnOk result (IsBetweenRecords writer.new) }
    ensures text { OnOk result (text_so_far writer.new ≡ text_so_far writer.old ++ row_text default_writer (row_cells row.now)) }
{
    let cells = row_record(alloc, row)?;
    write_record(writer, &cells)
}

fn write_record(writer: &mut Writer<Vec<u8>>, cells: &ByteRecord) -> Result<(), AllocError>
    requires between { IsBetweenRecords writer.old }
    ensures between { OnOk result (IsBetweenRecords writer.new) }
    ensures text { OnOk result (text_so_far writer.new ≡ text_so_far writer.old ++ row_text default_writer (fields_of cells.now)) }
{
    match writer.write_byte_record(cells) {
        Ok(()) => Ok(()),
        Err(_) => Err(AllocError),
    }
}

fn name_record(alloc: Global, names: &NameList) -> Result<ByteRecord, AllocError>
    ensures cells { IfOk result (λ cells. fields_of cells ≡ names.now) }
{
    let mut cells = ByteRecord::new(alloc);
    for name in names.as_slice() {
        cells.push_field(name.as_str().as_bytes())?;
    }
    Ok(cells)
}

fn row_record(alloc: Global, row: &Row) -> Result<ByteRecord, AllocError>
    ensures cells { IfOk result (λ cells. fields_of cells ≡ row_cells row.now) }
{
    let mut cells = ByteRecord::new(alloc);
    let mut text = Bytes::new(alloc);
    for value in row.as_slice() {
        text.clear();
        value.print_plain(&mut text)?;
        cells.push_field(text.as_slice())?;
    }
    Ok(cells)
}
