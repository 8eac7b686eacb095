ghost use Rattle.std.specs.Prelude.{◌≡◌, ◌++◌, ◌<◌, [], IfOk, OnOk, slice_get, Some, length, map, All};
ghost use Rattle.std.specs.Option.{option_copied};
ghost use Rattle.table_rows.specs.Rows.{first_row, picked, row_at, take_rows};
ghost use Rattle.table_terms.specs.Names.{value_at};

use grid_base::IdList;
use json_values::{Row, RowList, Table, Value};
use std::alloc::{AllocError, Global};
use text_core::{NameList, Text};

/// The rows with these numbers, in this order.
///
/// Cost: in proportion to the cells that are copied.
pub fn take_rows(alloc: Global, t: &Table, rows: &IdList) -> Result<Table, AllocError>
    requires numbers { All (λ n. n < length t.now.rows) rows.now }
    ensures taken { IfOk result (λ k. k ≡ take_rows t.now rows.now) }
{
    let names = copy_names(alloc, t.names())?;
    let taken = rows_at(alloc, t.rows(), rows.as_slice())?;
    Ok(Table::new(names, taken))
}

/// A table with the same names and rows.
pub fn copy_table(alloc: Global, t: &Table) -> Result<Table, AllocError>
    ensures copied { IfOk result (λ copy. copy ≡ t.now) }
    ensures count { IfOk result (λ copy. length copy.rows ≡ length t.now.rows) }
{
    let names = copy_names(alloc, t.names())?;
    let rows = copy_rows(alloc, t.rows())?;
    Ok(Table::new(names, rows))
}

fn rows_at(alloc: Global, rows: &RowList, numbers: &[u32]) -> Result<RowList, AllocError>
    requires numbers { All (λ n. n < length rows.now) numbers.now }
    ensures taken { IfOk result (λ taken. taken ≡ map (row_at rows.now) numbers.now) }
{
    let mut taken = RowList::new(alloc);
    for number in numbers {
        taken.push(copy_row(alloc, row_of(rows, *number))?)?;
    }
    Ok(taken)
}

/// A row of a list, which has one of the number.
pub fn row_of(rows: &RowList, n: u32) -> &Row
    requires within { n < length rows.now }
    ensures lent { result.now ≡ row_at rows.now n }
{
    &rows.as_slice()[n as usize]
}

/// The same names once more.
pub fn copy_names(alloc: Global, names: &NameList) -> Result<NameList, AllocError>
    ensures copied { IfOk result (λ copy. copy ≡ names.now) }
{
    let mut copy = NameList::new(alloc);
    append_names(alloc, &mut copy, names)?;
    Ok(copy)
}

pub(crate) fn append_names(
    alloc: Global,
    names: &mut NameList,
    more: &NameList,
) -> Result<(), AllocError>
    ensures all { OnOk result (names.new ≡ names.old ++ more.now) }
{
    for name in more.as_slice() {
        names.push(Text::of(alloc, name.as_str())?)?;
    }
    Ok(())
}

pub(crate) fn copy_row(alloc: Global, row: &Row) -> Result<Row, AllocError>
    ensures copied { IfOk result (λ copy. copy ≡ row.now) }
{
    let mut copy = Row::new(alloc);
    for value in row.as_slice() {
        copy.push(value.copy(alloc)?)?;
    }
    Ok(copy)
}

/// Appends the values of a row at these places, null for each past its end.
pub(crate) fn append_picked(
    alloc: Global,
    out: &mut Row,
    row: &Row,
    places: &[u32],
) -> Result<(), AllocError>
    ensures appended { OnOk result (out.new ≡ out.old ++ picked places.now row.now) }
{
    for place in places {
        out.push(copy_at(alloc, row, *place)?)?;
    }
    Ok(())
}

/// The value of a row at a place, null past its end.
pub fn copy_at(alloc: Global, row: &Row, place: u32) -> Result<Value, AllocError>
    ensures copied { IfOk result (λ v. v ≡ value_at row.now place) }
{
    match row.get(place) {
        Some(value) => value.copy(alloc),
        None => Ok(Value::Null),
    }
}

pub(crate) fn pick_row(alloc: Global, row: &Row, places: &[u32]) -> Result<Row, AllocError>
    ensures taken { IfOk result (λ r. r ≡ picked places.now row.now) }
{
    let mut out = Row::new(alloc);
    append_picked(alloc, &mut out, row, places)?;
    Ok(out)
}

/// Appends the values at these places of each row.
pub(crate) fn append_picked_rows(
    alloc: Global,
    rows: &mut RowList,
    more: &RowList,
    places: &[u32],
) -> Result<(), AllocError>
    ensures rows { OnOk result (rows.new ≡ rows.old ++ map (picked places.now) more.now) }
{
    for row in more.as_slice() {
        rows.push(pick_row(alloc, row, places)?)?;
    }
    Ok(())
}

pub(crate) fn copy_rows(alloc: Global, rows: &RowList) -> Result<RowList, AllocError>
    ensures copied { IfOk result (λ copy. copy ≡ rows.now) }
{
    let mut copy = RowList::new(alloc);
    for row in rows.as_slice() {
        copy.push(copy_row(alloc, row)?)?;
    }
    Ok(copy)
}

/// The row with the first of these numbers; `None` where there are none.
#[tactic(auto, using(crate::proofs::TakenRows::first_none, crate::proofs::TakenRows::first_some))]
pub fn first_row<'a>(rows: &'a RowList, numbers: &IdList) -> Option<&'a Row>
    requires within { All (λ n. n < length rows.now) numbers.now }
    ensures first { option_copied result ≡ first_row rows.now numbers.now }
{
    rows.get(*numbers.get(0)?)
}
