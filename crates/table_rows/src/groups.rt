ghost use Rattle.std.specs.Prelude.{◌≡◌, ◌<◌, ◌≤◌, [], All, IfOk, OnOk, length, map};
ghost use Rattle.std.specs.List.{IsDistinct, position_or_len};
ghost use Rattle.indexmap.specs.IndexSet.{insert_key};
ghost use Rattle.table_rows.specs.Groups.{groups_of, with_member};
ghost use Rattle.table_rows.specs.Keys.{same_values};
ghost use Rattle.table_rows.specs.Rows.{picked};

use crate::key::Key;
use crate::rows::row_of;
use grid_base::IdList;
use indexmap::IndexSet;
use json_values::RowList;
use std::alloc::{AllocError, Global};

/// The rows in groups of the same values at these places, in order of first appearance: the numbers
/// of the rows of each group.
pub(crate) fn groups_at(
    alloc: Global,
    rows: &RowList,
    places: &[u32],
) -> Result<Vec<IdList>, AllocError>
    ensures members { IfOk result (λ members. members.items ≡ groups_of (map (picked places.now) rows.now)) }
    ensures below { IfOk result (λ members. All (All (λ n. n < length rows.now)) members.items) }
{
    let mut keys = IndexSet::new(alloc);
    let mut members = Vec::new(alloc);
    add_rows(alloc, &mut keys, &mut members, rows, places)?;
    Ok(members)
}

// Adds all rows to the groups of their keys, of which there are none yet.
fn add_rows(
    alloc: Global,
    keys: &mut IndexSet<Key>,
    members: &mut Vec<IdList>,
    rows: &RowList,
    places: &[u32],
) -> Result<(), AllocError>
    requires no_keys { keys.old.keys ≡ [] }
    requires no_members { members.old.items ≡ [] }
    ensures members { OnOk result (members.new.items ≡ groups_of (map (picked places.now) rows.now)) }
    ensures below { OnOk result (All (All (λ n. n < length rows.now)) members.new.items) }
{
    for i in 0..rows.len() {
        let key = Key::of(alloc, row_of(rows, i), places)?;
        add_row(alloc, keys, members, key, i)?;
    }
    Ok(())
}

// Adds a row to the group of its key.
fn add_row(
    alloc: Global,
    keys: &mut IndexSet<Key>,
    members: &mut Vec<IdList>,
    key: Key,
    row: u32,
) -> Result<(), AllocError>
    requires counts { length keys.old.keys ≡ length members.old.items }
    ensures counts { OnOk result (length keys.new.keys ≡ length members.new.items) }
    ensures keys { OnOk result (keys.new.keys ≡ insert_key same_values keys.old.keys key) }
    ensures distinct { OnOk result (IsDistinct same_values keys.new.keys) }
    ensures members { OnOk result (members.new.items ≡ with_member members.old.items (position_or_len (same_values key) keys.old.keys) row) }
{
    let (group, _) = keys.insert_full(key)?;
    add_member(alloc, members, group, row)?;
    Ok(())
}

// Adds a number to the group with a number, or to a new last group.
#[tactic(auto, using(crate::proofs::Grouping::member_there, crate::proofs::Grouping::member_new))]
fn add_member(
    alloc: Global,
    members: &mut Vec<IdList>,
    group: usize,
    number: u32,
) -> Result<(), AllocError>
    requires within { group ≤ length members.old.items }
    ensures members { OnOk result (members.new.items ≡ with_member members.old.items group number) }
{
    if group < members.len() {
        return members[group].push(number);
    }
    let mut first = IdList::new(alloc);
    first.push(number)?;
    members.push(first)?;
    Ok(())
}
