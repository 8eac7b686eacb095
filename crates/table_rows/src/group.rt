ghost use Rattle.std.specs.Prelude.{◌≡◌, ◌<◌, ◌++◌, ◌∷◌, [], All, Ok, IfOk, OnOk, fold, length, map};
ghost use Rattle.std.specs.List.{IsDistinct, flat_map};
ghost use Rattle.std.specs.Str.{bytes_eq};
ghost use Rattle.table_rows.specs.Columns.{cells};
ghost use Rattle.table_rows.specs.Grouping.{earlier, group_row, group_rows, table_of_groups, groups_by, field_places, listed_fields, refusals, refused_sums};
ghost use Rattle.table_rows.specs.Groups.{groups_of};
ghost use Rattle.table_terms.specs.Refusals.{unless};
ghost use Rattle.table_rows.specs.Refusals.{Answers, Refuses};
ghost use Rattle.table_rows.specs.Rows.{first_of, picked};

use crate::fault::{TableFault, TableWhy};
use crate::group_sums::append_sums;
use crate::groups::groups_at;
use crate::items::{check_list, places_of};
use crate::rows::{append_names, append_picked, first_row};
use grid_base::{GroupList, IdList};
use json_values::{Row, RowList, Table};
use std::alloc::{AllocError, Global};
use table_terms::{GroupSpec, NameSet};
use text_core::NameList;

/// Rows in groups, and a table with a row for each group.
#[derive(Drop)]
pub struct Grouped {
    pub groups: GroupList,
    pub table: Table,
}

/// Rows with the same values in the listed fields, in order of first appearance; without fields all
/// rows are one group, and no rows are none. The columns are the listed fields, the copied ones with
/// the values of the first row of the group, and the summed ones, where null counts as 0.
///
/// Errors: `NoField` and `FieldTwice` at the first item, counted through the three lists, that the
/// table lacks or that stands earlier; then `NotNumber` or `SumRange` at the lowest row that cannot be
/// added to the sums of its group, and in it for the first column.
/// Cost: in proportion to the cells of the listed fields, and one look-up for each row.
pub fn group_rows(alloc: Global, t: &Table, spec: &GroupSpec) -> Result<Grouped, TableFault>
    ensures exact { Answers result (group_rows t.now spec.now) }
    ensures members { IfOk result (λ g. g.groups ≡ groups_of (map (cells t.now.names spec.now.by) t.now.rows)) }
    ensures below { IfOk result (λ g. All (All (λ n. n < length t.now.rows)) g.groups) }
    ensures each { IfOk result (λ g. length g.table.rows ≡ length g.groups) }
{
    let columns = NameSet::of(alloc, t.names())?;
    tested_groups(alloc, t, &columns, spec)
}

// The rows in groups, once the fields are tested.
fn tested_groups(
    alloc: Global,
    t: &Table,
    columns: &NameSet,
    spec: &GroupSpec,
) -> Result<Grouped, TableFault>
    requires columns { columns.now ≡ t.now.names }
    ensures exact { Answers result (group_rows t.now spec.now) }
    ensures members { IfOk result (λ g. g.groups ≡ groups_by t.now spec.now.by) }
    ensures below { IfOk result (λ g. All (All (λ n. n < length t.now.rows)) g.groups) }
    ensures each { IfOk result (λ g. length g.table.rows ≡ length g.groups) }
{
    let names = listed_fields(alloc, spec)?;
    check_list(alloc, columns, 0, &names)?;
    table_of_groups(alloc, t, columns, spec, names)
}

// The fields of the three lists, one list after the other.
fn listed_fields(alloc: Global, spec: &GroupSpec) -> Result<NameList, AllocError>
    ensures names { IfOk result (λ names. names ≡ listed_fields spec.now) }
{
    let mut names = NameList::new(alloc);
    append_names(alloc, &mut names, &spec.by)?;
    append_names(alloc, &mut names, &spec.copy)?;
    append_names(alloc, &mut names, &spec.sum)?;
    Ok(names)
}

// The rows in groups, and the table of the groups under these names.
fn table_of_groups(
    alloc: Global,
    t: &Table,
    columns: &NameSet,
    spec: &GroupSpec,
    names: NameList,
) -> Result<Grouped, TableFault>
    requires columns { columns.now ≡ t.now.names }
    requires names { names ≡ listed_fields spec.now }
    requires distinct { IsDistinct bytes_eq names }
    ensures exact { Answers result (unless (refused_sums t.now.rows (field_places t.now spec.now.sum) (groups_by t.now spec.now.by)) (Ok (table_of_groups t.now spec.now (groups_by t.now spec.now.by)))) }
    ensures members { IfOk result (λ g. g.groups ≡ groups_by t.now spec.now.by) }
    ensures below { IfOk result (λ g. All (All (λ n. n < length t.now.rows)) g.groups) }
    ensures each { IfOk result (λ g. length g.table.rows ≡ length g.groups) }
{
    let by = places_of(alloc, columns, spec.by.as_slice())?;
    let members = groups_at(alloc, t.rows(), by.as_slice())?;
    let mut refused = None;
    let rows = rows_of_groups(alloc, t, columns, spec, &by, &members, &mut refused)?;
    refuse(refused)?;
    let groups = GroupList::from_vec(members)?;
    let table = Table::new(names, rows);
    Ok(Grouped { groups, table })
}

// The row of each group, and the refusal of the lowest row.
fn rows_of_groups(
    alloc: Global,
    t: &Table,
    columns: &NameSet,
    spec: &GroupSpec,
    by: &[u32],
    members: &[IdList],
    refused: &mut Option<TableWhy>,
) -> Result<RowList, AllocError>
    requires columns { columns.now ≡ t.now.names }
    requires by { by.now ≡ field_places t.now spec.now.by }
    requires below { All (All (λ n. n < length t.now.rows)) members.now }
    ensures rows { IfOk result (λ rows. rows ≡ map (group_row t.now.rows (field_places t.now spec.now.by) (field_places t.now spec.now.copy) (field_places t.now spec.now.sum)) members.now) }
    ensures refused { OnOk result (refused.new ≡ fold earlier refused.old (flat_map (refusals t.now.rows (field_places t.now spec.now.sum)) members.now)) }
{
    let copied = places_of(alloc, columns, spec.copy.as_slice())?;
    let summed = places_of(alloc, columns, spec.sum.as_slice())?;
    group_rows_of(alloc, t.rows(), members, by, &copied, &summed, refused)
}

fn refuse(refused: Option<TableWhy>) -> Result<(), TableFault>
    ensures exact { Refuses result refused }
{
    match refused {
        Some(why) => Err(TableFault::Bad { why }),
        None => Ok(()),
    }
}

// The row of each group, and the refusal of the lowest row, where it is below an earlier one.
fn group_rows_of(
    alloc: Global,
    rows: &RowList,
    members: &[IdList],
    by: &[u32],
    copied: &[u32],
    summed: &[u32],
    refused: &mut Option<TableWhy>,
) -> Result<RowList, AllocError>
    requires below { All (All (λ n. n < length rows.now)) members.now }
    ensures rows { IfOk result (λ out. out ≡ map (group_row rows.now by.now copied.now summed.now) members.now) }
    ensures refused { OnOk result (refused.new ≡ fold earlier refused.old (flat_map (refusals rows.now summed.now) members.now)) }
{
    let mut out = RowList::new(alloc);
    for i in 0..members.len() {
        let row = group_row(alloc, rows, &members[i], by, copied, summed, refused)?;
        out.push(row)?;
    }
    Ok(out)
}

// The listed and the copied values of the first row of a group, and its sums.
fn group_row(
    alloc: Global,
    rows: &RowList,
    members: &IdList,
    by: &[u32],
    copied: &[u32],
    summed: &[u32],
    refused: &mut Option<TableWhy>,
) -> Result<Row, AllocError>
    requires within { All (λ n. n < length rows.now) members.now }
    ensures row { IfOk result (λ row. row ≡ group_row rows.now by.now copied.now summed.now members.now) }
    ensures refused { OnOk result (refused.new ≡ fold earlier refused.old (refusals rows.now summed.now members.now)) }
{
    let none = Row::new(alloc);
    let first = first_or(rows, members, &none);
    let mut row = Row::new(alloc);
    append_picked(alloc, &mut row, first, by)?;
    append_picked(alloc, &mut row, first, copied)?;
    append_sums(&mut row, rows, members, summed, refused)?;
    Ok(row)
}

fn first_or<'a>(rows: &'a RowList, members: &IdList, none: &'a Row) -> &'a Row
    requires within { All (λ n. n < length rows.now) members.now }
    requires none { none.now ≡ [] }
    ensures first { result.now ≡ first_of rows.now members.now }
{
    match first_row(rows, members) {
        Some(first) => first,
        None => none,
    }
}
