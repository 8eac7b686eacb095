ghost use Rattle.std.specs.Prelude.{◌≡◌, ◌<◌, ◌∷◌, [], All, Ok, IfOk, Some, length, map};
ghost use Rattle.std.specs.Option.{option_copied};
ghost use Rattle.json_values.specs.Table.{AreDistinctNames};
ghost use Rattle.table_terms.specs.Names.{place_of, value_at};
ghost use Rattle.table_terms.specs.Refusals.{unless};
ghost use Rattle.table_rows.specs.Groups.{groups_of};
ghost use Rattle.table_rows.specs.Refusals.{Answers, refused_item};
ghost use Rattle.table_rows.specs.Rows.{first_of, picked};
ghost use Rattle.table_rows.specs.Splitting.{piece, single_rows, split_rows};

use crate::fault::{TableFault, TableWhy};
use crate::groups::groups_at;
use crate::rows::{copy_at, first_row};
use grid_base::IdList;
use json_values::{RowList, Table, Value};
use lists::ItemList;
use std::alloc::{AllocError, Global};
use table_terms::NameSet;
use text_core::NameList;

/// The rows of one value of a field, or without a field one row.
#[derive(Drop)]
pub struct SplitItem {
    pub value: Option<Value>,
    pub rows: IdList,
}

/// A list of split items; counted from 0.
pub type SplitList = ItemList<SplitItem>;

/// The rows for each value of a field, in order of first appearance; without a field each row.
///
/// Errors: `NoField` at item 0, where the table lacks the field.
/// Cost: in proportion to the cells of the field, and one look-up for each.
pub fn split_rows(alloc: Global, t: &Table, field: Option<&str>) -> Result<SplitList, TableFault>
    ensures exact { Answers result (split_rows t.now (option_copied field.entry)) }
    ensures below { IfOk result (λ items. All (λ item. All (λ n. n < length t.now.rows) item.rows) items) }
{
    match field {
        Some(field) => split_by(alloc, t, field),
        None => Ok(single_rows(alloc, t.rows())?),
    }
}

fn split_by(alloc: Global, t: &Table, field: &str) -> Result<SplitList, TableFault>
    ensures exact { Answers result (split_rows t.now (Some field.now)) }
    ensures below { IfOk result (λ items. All (λ item. All (λ n. n < length t.now.rows) item.rows) items) }
{
    let place = listed_place(alloc, t.names(), field)?;
    Ok(pieces_at(alloc, t.rows(), place)?)
}

// The place of a field, which is one of the names.
fn listed_place(alloc: Global, names: &NameList, field: &str) -> Result<u32, TableFault>
    requires distinct { AreDistinctNames names.now }
    ensures exact { Answers result (unless (refused_item names.now [] 0 (field.now ∷ [])) (Ok (place_of names.now field.now))) }
{
    let columns = NameSet::of(alloc, names)?;
    place_in(&columns, field)
}

fn place_in(columns: &NameSet, field: &str) -> Result<u32, TableFault>
    ensures exact { Answers result (unless (refused_item columns.now [] 0 (field.now ∷ [])) (Ok (place_of columns.now field.now))) }
{
    if columns.has(field) {
        return Ok(columns.place_or_end(field));
    }
    let why = TableWhy::NoField { item: 0 };
    Err(TableFault::Bad { why })
}

// The rows for each value at a place, in order of first appearance.
fn pieces_at(alloc: Global, rows: &RowList, place: u32) -> Result<SplitList, AllocError>
    ensures pieces { IfOk result (λ items. items ≡ map (piece rows.now place) (groups_of (map (picked (place ∷ [])) rows.now))) }
    ensures below { IfOk result (λ items. All (λ item. All (λ n. n < length rows.now) item.rows) items) }
{
    let members = groups_at(alloc, rows, &[place])?;
    with_values(alloc, rows, place, members)
}

// Each group with the value that its first row has at a place.
fn with_values(
    alloc: Global,
    rows: &RowList,
    place: u32,
    members: Vec<IdList>,
) -> Result<SplitList, AllocError>
    requires below { All (All (λ n. n < length rows.now)) members.items }
    ensures pieces { IfOk result (λ items. items ≡ map (piece rows.now place) members.items) }
{
    let mut items = SplitList::new(alloc);
    for group in members {
        items.push(piece_of(alloc, rows, place, group)?)?;
    }
    Ok(items)
}

fn piece_of(
    alloc: Global,
    rows: &RowList,
    place: u32,
    group: IdList,
) -> Result<SplitItem, AllocError>
    requires within { All (λ n. n < length rows.now) group }
    ensures piece { IfOk result (λ item. item ≡ piece rows.now place group) }
{
    let value = value_of(alloc, rows, place, &group)?;
    Ok(SplitItem {
        value: Some(value),
        rows: group,
    })
}

// The value of the first row of a group at a place.
fn value_of(alloc: Global, rows: &RowList, place: u32, group: &IdList) -> Result<Value, AllocError>
    requires within { All (λ n. n < length rows.now) group.now }
    ensures value { IfOk result (λ v. v ≡ value_at (first_of rows.now group.now) place) }
{
    match first_row(rows, group) {
        Some(row) => copy_at(alloc, row, place),
        None => Ok(Value::Null),
    }
}

#[tactic(auto, using(crate::proofs::Pieces::singles_more))]
fn single_rows(alloc: Global, rows: &RowList) -> Result<SplitList, AllocError>
    ensures each { IfOk result (λ items. items ≡ single_rows 0 rows.now) }
    ensures below { IfOk result (λ items. All (λ item. All (λ n. n < length rows.now) item.rows) items) }
{
    let mut items = SplitList::new(alloc);
    for n in 0..rows.len() {
        let mut single = IdList::new(alloc);
        single.push(n)?;
        items.push(SplitItem {
            value: None,
            rows: single,
        })?;
    }
    Ok(items)
}
