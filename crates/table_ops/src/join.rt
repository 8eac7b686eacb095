ghost use Rattle.std.specs.Prelude.{◌≡◌, ◌<◌, [], All, None, Some, true, IfOk, OnOk, find, length, map, option_map, unwrap_or};
ghost use Rattle.std.specs.List.{IsDistinct};
ghost use Rattle.std.specs.Option.{option_copied};
ghost use Rattle.std.specs.Str.{bytes_eq};
ghost use Rattle.indexmap.specs.IndexMap.{get};
ghost use Rattle.json_values.specs.Table.{RowValues};
ghost use Rattle.json_values.specs.Value.{same};
ghost use Rattle.lists.specs.Lists.{numbers_where};
ghost use Rattle.table_ops.specs.Join.{candidates, join_tables, joined_table, matches, refused_join, refused_key};
ghost use Rattle.table_ops.specs.JoinColumns.{column_value, row_found};
ghost use Rattle.table_terms.specs.Names.{value_at};
ghost use Rattle.table_rows.specs.Refusals.{Answers, Refuses, refused_item};
ghost use Rattle.table_rows.specs.Rows.{row_at};

use crate::filter::filter_rows;
use crate::join_columns::{Column, columns_of};
use crate::join_matches::{first_rows, match_of};
use expr_lang::Expr;
use grid_base::IdList;
use indexmap::IndexMap;
use join_terms::JoinSpec;
use json_values::{Row, RowList, Table, Value};
use std::alloc::{AllocError, Global};
use table_rows::{KeyValue, TableFault, TableWhy, check_list, copy_at};
use table_terms::NameSet;
use text_core::NameList;

/// Fields of the source go to the rows of the target: to each from the first source row whose key is
/// the same, where null is the same as nothing.
///
/// With a test only the source rows for which it is true take part. The copied fields are the listed
/// ones, else all but the key, each under its name after the prefix. One whose new name is a column
/// of the target is left out, or with `force` takes its place in the rows that have a match; the other
/// columns stand last, and are null in the rows without a match.
/// Errors: `NoField` at item 0 or 1 for the two keys; `NoField` and `FieldTwice` at the first listed
/// field, counted from 2, that the source lacks or that stands earlier; then `Eval` and `NotBoolean` at
/// the first source row, counted from 0, for which the test is no boolean; and `Memory`.
/// Cost: in proportion to the cells of both tables.
pub fn join_tables(
    alloc: Global,
    target: &Table,
    source: &Table,
    spec: &JoinSpec,
) -> Result<Table, TableFault>
    ensures exact { Answers result (join_tables target.now source.now spec.now) }
    ensures each { IfOk result (λ joined. length joined.rows ≡ length target.now.rows) }
{
    let targets = NameSet::of(alloc, target.names())?;
    let sources = NameSet::of(alloc, source.names())?;
    tested_join(alloc, target, &targets, source, &sources, spec)
}

// The joined table, once the keys and the listed fields are tested.
fn tested_join(
    alloc: Global,
    target: &Table,
    targets: &NameSet,
    source: &Table,
    sources: &NameSet,
    spec: &JoinSpec,
) -> Result<Table, TableFault>
    requires target { targets.now ≡ target.now.names }
    requires source { sources.now ≡ source.now.names }
    ensures exact { Answers result (join_tables target.now source.now spec.now) }
    ensures each { IfOk result (λ joined. length joined.rows ≡ length target.now.rows) }
{
    check_join(alloc, targets, sources, spec)?;
    let numbers = candidates(alloc, source, &spec.test)?;
    Ok(joined_table(
        alloc,
        target,
        targets,
        source,
        sources,
        spec,
        numbers.as_slice(),
    )?)
}

// Tests the two keys, items 0 and 1, and the listed fields, which are counted from 2.
fn check_join(
    alloc: Global,
    targets: &NameSet,
    sources: &NameSet,
    spec: &JoinSpec,
) -> Result<(), TableFault>
    ensures exact { Refuses result (refused_join targets.now sources.now spec.now) }
    ensures distinct { OnOk result (IsDistinct bytes_eq (unwrap_or spec.now.fields [])) }
{
    check_key(targets, spec.target_key.as_str(), 0)?;
    check_key(sources, spec.source_key.as_str(), 1)?;
    check_fields(alloc, sources, 2, &spec.fields)
}

fn check_key(names: &NameSet, key: &str, item: u32) -> Result<(), TableFault>
    ensures exact { Refuses result (refused_key names.now key.now item) }
{
    if names.has(key) {
        return Ok(());
    }
    let why = TableWhy::NoField { item };
    Err(TableFault::Bad { why })
}

/// Tests the listed fields of a join, which count from `first`: each is a field of the source, and stands once.
///
/// Errors: `NoField` and `FieldTwice` at the first item of which that isn't so, and `Memory`.
pub fn check_fields(
    alloc: Global,
    sources: &NameSet,
    first: u32,
    fields: &Option<NameList>,
) -> Result<(), TableFault>
    ensures exact { Refuses result (refused_item sources.now [] first (unwrap_or fields.now [])) }
    ensures distinct { OnOk result (IsDistinct bytes_eq (unwrap_or fields.now [])) }
{
    match fields {
        Some(fields) => check_list(alloc, sources, first, fields),
        None => Ok(()),
    }
}

/// The numbers of the source rows, counted from 0 and ascending, that take part: all, or those for which the test is
/// true.
///
/// Errors: `Eval` and `NotBoolean` at the first row, counted from 0, for which the test is no boolean, and `Memory`.
pub fn candidates(alloc: Global, source: &Table, test: &Option<Expr>) -> Result<IdList, TableFault>
    ensures exact { Answers result (candidates source.now test.now) }
    ensures within { IfOk result (λ numbers. All (λ n. n < length source.now.rows) numbers) }
{
    match test {
        Some(test) => filter_rows(alloc, source, test, false),
        None => Ok(all_numbers(alloc, source.rows())?),
    }
}

fn all_numbers(alloc: Global, rows: &RowList) -> Result<IdList, AllocError>
    ensures all { IfOk result (λ numbers. numbers ≡ numbers_where (λ (row : RowValues). true) rows.now) }
    ensures within { IfOk result (λ numbers. All (λ n. n < length rows.now) numbers) }
{
    let mut numbers = IdList::new(alloc);
    for n in 0..rows.len() {
        numbers.push(n)?;
    }
    Ok(numbers)
}

// The target with the copied fields, of the first of these source rows with the same key.
fn joined_table(
    alloc: Global,
    target: &Table,
    targets: &NameSet,
    source: &Table,
    sources: &NameSet,
    spec: &JoinSpec,
    numbers: &[u32],
) -> Result<Table, AllocError>
    requires target { targets.now ≡ target.now.names }
    requires source { sources.now ≡ source.now.names }
    requires fields_differ { IsDistinct bytes_eq (unwrap_or spec.now.fields []) }
    requires within { All (λ n. n < length source.now.rows) numbers.now }
    ensures exact { IfOk result (λ joined. joined ≡ joined_table target.now source.now spec.now numbers.now) }
{
    let columns = columns_of(
        alloc,
        target.names(),
        targets,
        source.names(),
        sources,
        spec,
    )?;
    let rows = matched_rows(
        alloc,
        target.rows(),
        targets.place_or_end(spec.target_key.as_str()),
        source.rows(),
        sources.place_or_end(spec.source_key.as_str()),
        numbers,
        columns.cells.as_slice(),
    )?;
    Ok(Table::new(columns.names, rows))
}

// The rows of the target with the copied fields of the first of these source rows with the same key; the keys stand at
// these places.
fn matched_rows(
    alloc: Global,
    target: &RowList,
    key: u32,
    source: &RowList,
    source_key: u32,
    numbers: &[u32],
    columns: &[Column],
) -> Result<RowList, AllocError>
    requires within { All (λ n. n < length source.now) numbers.now }
    ensures rows { IfOk result (λ rows. rows ≡ map (λ (row : RowValues). map (column_value row (option_map (row_at source.now) (find (λ n. matches (value_at row key) (value_at (row_at source.now n) source_key)) numbers.now))) columns.now) target.now) }
{
    let firsts = first_rows(alloc, source, numbers, source_key)?;
    joined_rows(alloc, target, source, key, &firsts, columns)
}

// The rows of the target with the copied fields of their matches.
fn joined_rows(
    alloc: Global,
    target: &RowList,
    source: &RowList,
    key: u32,
    firsts: &IndexMap<KeyValue, u32>,
    columns: &[Column],
) -> Result<RowList, AllocError>
    ensures rows { IfOk result (λ rows. rows ≡ map (λ (row : RowValues). map (column_value row (row_found source.now (get same firsts.now (value_at row key)))) columns.now) target.now) }
{
    let mut rows = RowList::new(alloc);
    for row in target.as_slice() {
        let matched = match_of(alloc, row, source, key, firsts)?;
        rows.push(copied_row(alloc, row, matched, columns)?)?;
    }
    Ok(rows)
}

/// A row of a joined table, by its columns: the values of a row of the target, with the copied fields of its match.
///
/// Errors: `AllocError` for want of memory.
pub fn copied_row(
    alloc: Global,
    row: &Row,
    matched: Option<&Row>,
    columns: &[Column],
) -> Result<Row, AllocError>
    ensures cells { IfOk result (λ cells. cells ≡ map (column_value row.now (option_copied matched.entry)) columns.now) }
{
    match matched {
        Some(source) => row_with(alloc, row, source, columns),
        None => row_without(alloc, row, columns),
    }
}

fn row_with(alloc: Global, row: &Row, source: &Row, columns: &[Column]) -> Result<Row, AllocError>
    ensures cells { IfOk result (λ cells. cells ≡ map (column_value row.now (Some source.now)) columns.now) }
{
    let mut cells = Row::new(alloc);
    for column in columns {
        cells.push(value_with(alloc, row, source, *column)?)?;
    }
    Ok(cells)
}

fn row_without(alloc: Global, row: &Row, columns: &[Column]) -> Result<Row, AllocError>
    ensures cells { IfOk result (λ cells. cells ≡ map (column_value row.now None) columns.now) }
{
    let mut cells = Row::new(alloc);
    for column in columns {
        cells.push(value_without(alloc, row, *column)?)?;
    }
    Ok(cells)
}

fn value_with(alloc: Global, row: &Row, source: &Row, column: Column) -> Result<Value, AllocError>
    ensures value { IfOk result (λ value. value ≡ column_value row.now (Some source.now) column) }
{
    match column {
        Column::Kept { own } => copy_at(alloc, row, own),
        Column::Forced { own: _, place } | Column::Added { place } => copy_at(alloc, source, place),
    }
}

fn value_without(alloc: Global, row: &Row, column: Column) -> Result<Value, AllocError>
    ensures value { IfOk result (λ value. value ≡ column_value row.now None column) }
{
    match column {
        Column::Kept { own } | Column::Forced { own, place: _ } => copy_at(alloc, row, own),
        Column::Added { place: _ } => Ok(Value::Null),
    }
}
