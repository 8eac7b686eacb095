ghost use Rattle.std.specs.Prelude.{◌≡◌, ◌++◌, ◌∷◌, [], ◌<◌, IfOk, OnOk, drop, false, length, map};
ghost use Rattle.std.specs.List.{IsDistinct, list_all};
ghost use Rattle.std.specs.Str.{bytes_eq};
ghost use Rattle.indexmap.specs.IndexSet.{insert_all};
ghost use Rattle.table_rows.specs.Columns.{cells};
ghost use Rattle.table_rows.specs.Merge.{all_names, differing, merge_tables, merged_rows, refused_merge, same_names};
ghost use Rattle.table_terms.specs.Names.{has_name, place_of};
ghost use Rattle.table_rows.specs.Refusals.{Answers, Refuses};

use crate::fault::{TableFault, TableWhy};
use crate::items::places_of;
use crate::rows::append_picked_rows;
use json_values::{RowList, Table};
use lists::ItemList;
use std::alloc::{AllocError, Global};
use table_terms::NameSet;
use text_core::{NameList, Text};

/// A list of tables; counted from 0.
pub type TableList = ItemList<Table>;

/// The tables one under another: the columns of the first, then new ones in order; a value that a
/// table lacks is null.
///
/// Errors: without `force`, `FieldsDiffer` at the first table whose set of names is not that of the
/// first.
/// Cost: in proportion to the cells of the answer and the names.
pub fn merge_tables(alloc: Global, tables: &TableList, force: bool) -> Result<Table, TableFault>
    requires some { 0 < length tables.now }
    ensures exact { Answers result (merge_tables tables.now force) }
    ensures rows { IfOk result (λ m. m.rows ≡ merged_rows m.names tables.now) }
{
    if force {
        return Ok(merged(alloc, tables.as_slice())?);
    }
    check_names(alloc, tables.as_slice())?;
    Ok(merged(alloc, tables.as_slice())?)
}

// Refuses the first table whose set of names is not that of the first.
fn check_names(alloc: Global, tables: &[Table]) -> Result<(), TableFault>
    requires some { 0 < length tables.now }
    ensures exact { Refuses result (refused_merge false tables.now) }
{
    let first = tables[0].names();
    let names = NameSet::of(alloc, first)?;
    check_others(alloc, &names, first, tables)
}

// Refuses the first table after the first one whose set of names is another.
fn check_others(
    alloc: Global,
    names: &NameSet,
    first: &NameList,
    tables: &[Table],
) -> Result<(), TableFault>
    requires same { names.now ≡ first.now }
    ensures exact { Refuses result (differing first.now 1 (drop 1 tables.now)) }
{
    for i in 1..tables.len() {
        check_layer(alloc, names, first, &tables[i], i)?;
    }
    Ok(())
}

fn check_layer(
    alloc: Global,
    names: &NameSet,
    first: &NameList,
    table: &Table,
    i: usize,
) -> Result<(), TableFault>
    requires same { names.now ≡ first.now }
    ensures exact { Refuses result (differing first.now i (table.now ∷ [])) }
{
    if has_same_names(alloc, names, first, table)? {
        return Ok(());
    }
    let Ok(layer) = u32::try_from(i) else {
        return Err(TableFault::Memory);
    };
    let why = TableWhy::FieldsDiffer { layer };
    Err(TableFault::Bad { why })
}

// Whether the names of a table are those of the first one, in any order.
fn has_same_names(
    alloc: Global,
    names: &NameSet,
    first: &NameList,
    table: &Table,
) -> Result<bool, AllocError>
    requires same { names.now ≡ first.now }
    ensures same { IfOk result (λ same. same ≡ same_names first.now table.now.names) }
{
    let others = NameSet::of(alloc, table.names())?;
    Ok(has_all(&others, first) && has_all(names, table.names()))
}

fn has_all(set: &NameSet, names: &NameList) -> bool
    ensures all { result ≡ list_all (has_name set.now) names.now }
{
    for name in names.as_slice() {
        if !set.has(name.as_str()) {
            return false;
        }
    }
    true
}

// The tables one under another, whatever their names.
fn merged(alloc: Global, tables: &[Table]) -> Result<Table, AllocError>
    ensures names { IfOk result (λ t. t.names ≡ insert_all bytes_eq [] (all_names tables.now)) }
    ensures rows { IfOk result (λ t. t.rows ≡ merged_rows t.names tables.now) }
{
    let names = merged_names(alloc, tables)?;
    let rows = merged_rows(alloc, tables, &names)?;
    Ok(Table::new(names, rows))
}

// The names of all tables, in order of first appearance.
#[tactic(auto, using(crate::proofs::Merging::merged_names_more))]
fn merged_names(alloc: Global, tables: &[Table]) -> Result<NameList, AllocError>
    ensures names { IfOk result (λ names. names ≡ insert_all bytes_eq [] (all_names tables.now)) }
    ensures distinct { IfOk result (λ names. IsDistinct bytes_eq names) }
{
    let mut seen = NameSet::new(alloc);
    let mut names = NameList::new(alloc);
    for table in tables {
        add_names(alloc, &mut seen, &mut names, table.names())?;
    }
    Ok(names)
}

#[tactic(auto, using(table_terms::proofs::Inserted::insert_all_more))]
fn add_names(
    alloc: Global,
    seen: &mut NameSet,
    names: &mut NameList,
    more: &NameList,
) -> Result<(), AllocError>
    requires same { names.old ≡ seen.old }
    ensures same { OnOk result (names.new ≡ seen.new) }
    ensures added { OnOk result (seen.new ≡ insert_all bytes_eq seen.old more.now) }
    ensures distinct { OnOk result (IsDistinct bytes_eq seen.old → IsDistinct bytes_eq seen.new) }
{
    for name in more.as_slice() {
        add_name(alloc, seen, names, name.as_str())?;
    }
    Ok(())
}

fn add_name(
    alloc: Global,
    seen: &mut NameSet,
    names: &mut NameList,
    name: &str,
) -> Result<(), AllocError>
    requires same { names.old ≡ seen.old }
    ensures same { OnOk result (names.new ≡ seen.new) }
    ensures added { OnOk result (seen.new ≡ insert_all bytes_eq seen.old (name.now ∷ [])) }
    ensures distinct { OnOk result (IsDistinct bytes_eq seen.new) }
{
    if !seen.add(alloc, name)? {
        return Ok(());
    }
    names.push(Text::of(alloc, name)?)
}

// The rows of each table under these names.
#[tactic(auto, using(crate::proofs::Merging::merged_rows_more))]
fn merged_rows(alloc: Global, tables: &[Table], names: &NameList) -> Result<RowList, AllocError>
    ensures rows { IfOk result (λ rows. rows ≡ merged_rows names.now tables.now) }
{
    let mut rows = RowList::new(alloc);
    for table in tables {
        append_rows(alloc, &mut rows, table, names)?;
    }
    Ok(rows)
}

fn append_rows(
    alloc: Global,
    rows: &mut RowList,
    table: &Table,
    names: &NameList,
) -> Result<(), AllocError>
    ensures rows { OnOk result (rows.new ≡ rows.old ++ map (cells table.now.names names.now) table.now.rows) }
{
    let places = places_in(alloc, table, names)?;
    append_picked_rows(alloc, rows, table.rows(), places.as_slice())
}

// The places of the fields among the names of a table.
fn places_in(alloc: Global, table: &Table, fields: &NameList) -> Result<Vec<u32>, AllocError>
    ensures places { IfOk result (λ places. places.items ≡ map (place_of table.now.names) fields.now) }
{
    let columns = NameSet::of(alloc, table.names())?;
    places_of(alloc, &columns, fields.as_slice())
}
