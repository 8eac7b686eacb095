ghost use Rattle.std.specs.Prelude.{◌≡◌, IfOk};
ghost use Rattle.csv.specs.Records.{fields_of};
ghost use Rattle.csv_io.specs.CsvCells.{cell_at, cell_value, has_idle_zero, is_plain, is_plain_end, plain_decimal, plain_size, without_zeros};

use csv::ByteRecord;
use json_values::Value;
use numerals::{Decimal, digit_count};
use std::alloc::{AllocError, Global};
use text_core::Text;

/// The cell of a record in a column, empty past its end.
#[tactic(auto, using(crate::proofs::CsvCells::cell_there, crate::proofs::CsvCells::cell_missing))]
pub(crate) fn cell_of(row: &ByteRecord, column: usize) -> &[u8]
    ensures lent { result.now ≡ cell_at (fields_of row.now) column }
{
    match row.get(column) {
        Some(cell) => cell,
        None => b"",
    }
}

/// The value of a cell, in a column of numbers or in one of texts.
pub(crate) fn value_of(alloc: Global, cell: &[u8], is_number: bool) -> Result<Value, AllocError>
    ensures value { IfOk result (λ v. v ≡ cell_value is_number cell.now) }
{
    if is_number {
        return Ok(match plain_decimal(cell) {
            Some(decimal) => Value::Num(decimal),
            None => Value::Null,
        });
    }
    match str::from_utf8(cell) {
        Ok(text) => Ok(Value::Text(Text::of(alloc, text)?)),
        Err(_) => Err(AllocError),
    }
}

/// The decimal of an optional minus, digits, and optionally a point and digits.
pub(crate) fn plain_decimal(cell: &[u8]) -> Option<Decimal>
    ensures exact { result ≡ plain_decimal cell.now }
{
    match cell {
        [b'-', size @ ..] => Some(plain_size(size)?.negated()),
        size => plain_size(size),
    }
}

fn plain_size(size: &[u8]) -> Option<Decimal>
    ensures exact { result ≡ plain_size size.now }
{
    if !is_plain(size) {
        return None;
    }
    Decimal::parse_bytes(without_zeros(size))
}

/// Whether these bytes are digits, and optionally a point and digits.
#[tactic(auto, using(crate::proofs::CsvCells::some_digits))]
fn is_plain(size: &[u8]) -> bool
    ensures exact { result ≡ is_plain size.now }
{
    let digits = digit_count(size);
    digits > 0 && is_plain_end(&size[digits..])
}

#[tactic(auto, using(crate::proofs::CsvCells::some_digits))]
fn is_plain_end(end: &[u8]) -> bool
    ensures exact { result ≡ is_plain_end end.now }
{
    match end {
        [] => true,
        [point, rest @ ..] => {
            let digits = digit_count(rest);
            *point == b'.' && digits > 0 && digits == rest.len()
        }
    }
}

/// A number without the zeros in front of another digit.
#[tactic(auto, using(crate::proofs::CsvCells::zeros_more, crate::proofs::CsvCells::zeros_end))]
fn without_zeros(size: &[u8]) -> &[u8]
    ensures exact { result.now ≡ without_zeros size.now }
{
    for i in 0..size.len() {
        let rest = &size[i..];
        if !has_idle_zero(rest) {
            return rest;
        }
    }
    &size[size.len()..]
}

/// Whether a zero stands in front of another digit.
fn has_idle_zero(size: &[u8]) -> bool
    ensures exact { result ≡ has_idle_zero size.now }
{
    match size {
        [first, second, ..] => *first == b'0' && second.is_ascii_digit(),
        _ => false,
    }
}
