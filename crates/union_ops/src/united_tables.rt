ghost use Rattle.std.specs.Prelude.{◌≡◌, ◌+◌, ◌++◌, All, IfOk, OnOk, length, map};
ghost use Rattle.json_values.specs.Table.{AreRows};
ghost use Rattle.json_values.specs.declared.value.Value.TheVariants as is;
ghost use Rattle.table_rows.specs.Merge.{all_names};
ghost use Rattle.union_ops.specs.Choices.{IsChoiceFrom};
ghost use Rattle.union_ops.specs.UnionTable.{IsChosenFrom, IsOfTables, IsUnionTable, chosen_row, union_row};

use crate::column_names::union_names;
use crate::union_lists::{UnionItem, UnionList};
use json_values::{Row, RowList, Table, Value};
use std::alloc::{AllocError, Global};
use table_rows::TableList;
use text_core::NameList;

/// The columns of the tables side by side, and for each item a row: the values of the rows that it has chosen, and
/// null where it has chosen none.
///
/// A column whose name an earlier column has is named by that name, `_` and the least whole number from 2 that makes
/// it new.
/// Cost: in proportion to the cells of the answer and the names.
pub fn union_tables(
    alloc: Global,
    tables: &TableList,
    items: &UnionList,
) -> Result<Table, AllocError>
    requires choices { All (IsOfTables tables.now) items.now }
    ensures exact { IfOk result (IsUnionTable tables.now items.now) }
    ensures each { IfOk result (λ t. length t.rows ≡ length items.now) }
{
    let names = union_names(alloc, tables.as_slice())?;
    let rows = union_rows(alloc, tables.as_slice(), items.as_slice())?;
    Ok(Table::new(names, rows))
}

fn union_rows(alloc: Global, tables: &[Table], items: &[UnionItem]) -> Result<RowList, AllocError>
    requires choices { All (IsOfTables tables.now) items.now }
    ensures rows { IfOk result (λ rows. rows ≡ map (λ item. union_row tables.now item.choice) items.now) }
    ensures widths { IfOk result (AreRows (length (all_names tables.now))) }
{
    let mut rows = RowList::new(alloc);
    for item in items {
        rows.push(union_row(alloc, tables, item.choice.as_slice())?)?;
    }
    Ok(rows)
}

fn union_row(alloc: Global, tables: &[Table], choice: &[Option<u32>]) -> Result<Row, AllocError>
    requires choice { IsChoiceFrom (map (λ t. length t.rows) tables.now) choice.now }
    ensures exact { IfOk result (λ row. row ≡ union_row tables.now choice.now) }
    ensures width { IfOk result (λ row. length row ≡ length (all_names tables.now)) }
{
    let mut row = Row::new(alloc);
    for i in 0..tables.len() {
        append_chosen(alloc, &mut row, &tables[i], choice[i])?;
    }
    Ok(row)
}

fn append_chosen(
    alloc: Global,
    out: &mut Row,
    table: &Table,
    number: Option<u32>,
) -> Result<(), AllocError>
    requires number { IsChosenFrom table.now number }
    ensures appended { OnOk result (out.new ≡ out.old ++ chosen_row table.now number) }
    ensures width { OnOk result (length out.new ≡ length out.old + length table.now.names) }
{
    match number {
        Some(n) => append_row(alloc, out, table, n),
        None => append_nulls(out, table.names()),
    }
}

fn append_row(alloc: Global, out: &mut Row, table: &Table, n: u32) -> Result<(), AllocError>
    requires number { IsChosenFrom table.now (Some n) }
    ensures appended { OnOk result (out.new ≡ out.old ++ chosen_row table.now (Some n)) }
    ensures width { OnOk result (length out.new ≡ length out.old + length table.now.names) }
{
    match table.rows().get(n) {
        Some(row) => append_values(alloc, out, row),
        None => unreachable!(),
    }
}

fn append_values(alloc: Global, out: &mut Row, row: &Row) -> Result<(), AllocError>
    ensures appended { OnOk result (out.new ≡ out.old ++ row.now) }
{
    for value in row.as_slice() {
        out.push(value.copy(alloc)?)?;
    }
    Ok(())
}

// A null for each name.
fn append_nulls(out: &mut Row, names: &NameList) -> Result<(), AllocError>
    ensures appended { OnOk result (out.new ≡ out.old ++ map (λ name. is.Null) names.now) }
    ensures width { OnOk result (length out.new ≡ length out.old + length names.now) }
{
    for _column in 0..names.len() {
        out.push(Value::Null)?;
    }
    Ok(())
}
