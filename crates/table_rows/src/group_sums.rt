ghost use Rattle.std.specs.Prelude.{◌≡◌, ◌<◌, ◌++◌, pos, All, OnOk, fold, length};
ghost use Rattle.table_rows.specs.Grouping.{column_sum, earlier, lower, refusal_of, refusals, refused_row, sum_after, sum_or_zero, sum_with, sums};
ghost use Rattle.table_terms.specs.Names.{value_at};

use crate::fault::TableWhy;
use crate::rows::row_of;
use grid_base::IdList;
use json_values::{Row, RowList, Value};
use numerals::Decimal;
use std::alloc::AllocError;

/// Appends the sums at these places over the rows of a group, 0 for one that is refused, and notes
/// the refusal of the lowest row.
pub(crate) fn append_sums(
    row: &mut Row,
    rows: &RowList,
    members: &IdList,
    places: &[u32],
    refused: &mut Option<TableWhy>,
) -> Result<(), AllocError>
    requires within { All (λ n. n < length rows.now) members.now }
    ensures sums { OnOk result (row.new ≡ row.old ++ sums rows.now places.now members.now) }
    ensures refused { OnOk result (refused.new ≡ fold earlier refused.old (refusals rows.now places.now members.now)) }
{
    for place in places {
        let sum = column_sum(rows, members, *place);
        note_refusal(refused, &sum);
        row.push(Value::Num(sum_or_zero(&sum)))?;
    }
    Ok(())
}

fn note_refusal(refused: &mut Option<TableWhy>, sum: &Result<Decimal, TableWhy>)
    ensures noted { refused.new ≡ earlier refused.old (refusal_of sum.now) }
{
    *refused = earlier(*refused, refusal_of(sum));
}

/// The sum at a place over the rows with these numbers, or the first of them that cannot be added.
pub fn column_sum(rows: &RowList, members: &IdList, place: u32) -> Result<Decimal, TableWhy>
    requires within { All (λ n. n < length rows.now) members.now }
    ensures exact { result ≡ column_sum rows.now place (pos 0) members.now }
{
    let mut total = Decimal::of_grid(0, 0);
    for number in members.as_slice() {
        total = sum_at(total, *number, row_of(rows, *number), place)?;
    }
    Ok(total)
}

// A sum with the value at a place of the row with this number, null past its end.
fn sum_at(total: Decimal, n: u32, row: &Row, place: u32) -> Result<Decimal, TableWhy>
    ensures exact { result ≡ sum_with total n (value_at row.now place) }
{
    match row.get(place) {
        Some(value) => sum_with(total, n, value),
        None => Ok(total),
    }
}

// A sum with the value of the row with this number, where null counts as 0.
fn sum_with(total: Decimal, n: u32, value: &Value) -> Result<Decimal, TableWhy>
    ensures exact { result ≡ sum_with total n value.now }
{
    match value {
        Value::Null => Ok(total),
        Value::Num(summand) => sum_after(n, total.checked_add(summand)),
        _ => Err(TableWhy::NotNumber { row: n }),
    }
}

fn sum_after(n: u32, sum: Option<Decimal>) -> Result<Decimal, TableWhy>
    ensures exact { result ≡ sum_after n sum }
{
    match sum {
        Some(sum) => Ok(sum),
        None => Err(TableWhy::SumRange { row: n }),
    }
}

fn sum_or_zero(sum: &Result<Decimal, TableWhy>) -> Decimal
    ensures exact { result ≡ sum_or_zero sum.now }
{
    match sum {
        Ok(sum) => *sum,
        Err(_) => Decimal::of_grid(0, 0),
    }
}

fn refusal_of(sum: &Result<Decimal, TableWhy>) -> Option<TableWhy>
    ensures exact { result ≡ refusal_of sum.now }
{
    match sum {
        Ok(_) => None,
        Err(why) => Some(*why),
    }
}

// Of two refusals the one at the lower row, else the first.
fn earlier(first: Option<TableWhy>, second: Option<TableWhy>) -> Option<TableWhy>
    ensures exact { result ≡ earlier first second }
{
    match (first, second) {
        (None, second) => second,
        (Some(first), None) => Some(first),
        (Some(first), Some(second)) => Some(lower(first, second)),
    }
}

fn lower(first: TableWhy, second: TableWhy) -> TableWhy
    ensures exact { result ≡ lower first second }
{
    if refused_row(second) < refused_row(first) {
        second
    } else {
        first
    }
}

fn refused_row(why: TableWhy) -> u32
    ensures exact { result ≡ refused_row why }
{
    match why {
        TableWhy::NotNumber { row } | TableWhy::SumRange { row } => row,
        _ => 0,
    }
}
