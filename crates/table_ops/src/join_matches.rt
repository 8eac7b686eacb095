ghost use Rattle.std.specs.Prelude.{◌≡◌, ◌<◌, All, Some, None, IfOk, OnOk, cond, find, length, map};
ghost use Rattle.std.specs.Option.{option_copied, option_or};
ghost use Rattle.indexmap.specs.IndexMap.{get};
ghost use Rattle.json_values.specs.Value.{same};
ghost use Rattle.json_values.specs.declared.value.Value.{Value};
ghost use Rattle.table_ops.specs.Join.{is_null, matches};
ghost use Rattle.table_ops.specs.JoinColumns.{row_found};
ghost use Rattle.table_terms.specs.Names.{value_at};
ghost use Rattle.table_rows.specs.Rows.{row_at};

use indexmap::IndexMap;
use json_values::{Row, RowList, Value};
use std::alloc::{AllocError, Global};
use table_rows::{KeyValue, row_of};

/// The number of the first of these rows with each value at a place; rows and places are counted from 0, and null is
/// no value.
///
/// Errors: `AllocError` for want of memory.
pub(crate) fn first_rows(
    alloc: Global,
    rows: &RowList,
    numbers: &[u32],
    place: u32,
) -> Result<IndexMap<KeyValue, u32>, AllocError>
    requires within { All (λ n. n < length rows.now) numbers.now }
    ensures first { IfOk result (λ firsts. (v : Value) → get same firsts v ≡ find (λ n. matches v (value_at (row_at rows.now n) place)) numbers.now) }
{
    let mut firsts = IndexMap::new(alloc);
    for number in numbers {
        add_first(alloc, &mut firsts, row_of(rows, *number), place, *number)?;
    }
    Ok(firsts)
}

// Notes a row for its value at a place, unless an earlier row has it.
fn add_first(
    alloc: Global,
    firsts: &mut IndexMap<KeyValue, u32>,
    row: &Row,
    place: u32,
    n: u32,
) -> Result<(), AllocError>
    ensures first { OnOk result ((v : Value) → get same firsts.new v ≡ option_or (get same firsts.old v) (cond (matches v (value_at row.now place)) (Some n) None)) }
{
    if has_null(row, place) {
        return Ok(());
    }
    let key = KeyValue::at(alloc, row, place)?;
    note_key(firsts, key, n)?;
    Ok(())
}

// Notes a row for a key, unless an earlier row has it.
fn note_key(firsts: &mut IndexMap<KeyValue, u32>, key: KeyValue, n: u32) -> Result<(), AllocError>
    ensures first { OnOk result ((k : Value) → get same firsts.new k ≡ option_or (get same firsts.old k) (cond (same key k) (Some n) None)) }
{
    firsts.entry(key)?.or_insert(n);
    Ok(())
}

fn has_null(row: &Row, place: u32) -> bool
    ensures null { result ≡ is_null (value_at row.now place) }
{
    match row.get(place) {
        Some(value) => is_null(value),
        None => true,
    }
}

fn is_null(value: &Value) -> bool
    ensures null { result ≡ is_null value.now }
{
    matches!(value, Value::Null)
}

/// The source row that a row matches by its value at a place, counted from 0.
///
/// Errors: `AllocError` for want of memory.
pub(crate) fn match_of<'a>(
    alloc: Global,
    row: &Row,
    source: &'a RowList,
    place: u32,
    firsts: &IndexMap<KeyValue, u32>,
) -> Result<Option<&'a Row>, AllocError>
    ensures matched { IfOk result (λ m. option_copied m ≡ row_found source.now (get same firsts.now (value_at row.now place))) }
{
    let key = KeyValue::at(alloc, row, place)?;
    match firsts.get(&key) {
        Some(n) => Ok(source.get(*n)),
        None => Ok(None),
    }
}
