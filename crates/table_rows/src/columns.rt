ghost use Rattle.std.specs.Prelude.{◌≡◌, [], Ok, IfOk, map, length, vec_items};
ghost use Rattle.table_rows.specs.Columns.{keep_fields};
ghost use Rattle.table_terms.specs.Names.{place_of};
ghost use Rattle.table_terms.specs.Refusals.{unless};
ghost use Rattle.table_rows.specs.Refusals.{Answers, AnswersAs, refused_item};
ghost use Rattle.table_rows.specs.Rows.{picked};
ghost use Rattle.json_values.specs.Table.{AreDistinctNames};

use crate::fault::TableFault;
use crate::items::{check_list, places_of};
use crate::rows::{append_picked_rows, copy_names};
use json_values::{RowList, Table};
use std::alloc::{AllocError, Global};
use table_terms::NameSet;
use text_core::NameList;

/// The listed columns, in the listed order.
///
/// Errors: `NoField` and `FieldTwice` at the first item that the table lacks or that stands earlier.
/// Cost: in proportion to the cells that are copied and the names.
pub fn keep_fields(alloc: Global, t: &Table, names: &NameList) -> Result<Table, TableFault>
    ensures exact { Answers result (keep_fields t.now names.now) }
    ensures each { IfOk result (λ kept. length kept.rows ≡ length t.now.rows) }
{
    let places = listed_places(alloc, t.names(), names)?;
    let rows = pick_rows(alloc, t.rows(), places.as_slice())?;
    Ok(Table::new(copy_names(alloc, names)?, rows))
}

// The places of the listed names, each of which is a name and stands once.
fn listed_places(alloc: Global, names: &NameList, listed: &NameList) -> Result<Vec<u32>, TableFault>
    requires distinct { AreDistinctNames names.now }
    ensures exact { AnswersAs vec_items result (unless (refused_item names.now [] 0 listed.now) (Ok (map (place_of names.now) listed.now))) }
    ensures distinct { IfOk result (λ _. AreDistinctNames listed.now) }
{
    let columns = NameSet::of(alloc, names)?;
    check_list(alloc, &columns, 0, listed)?;
    let places = places_of(alloc, &columns, listed.as_slice())?;
    Ok(places)
}

/// The values at these places of each row.
pub(crate) fn pick_rows(
    alloc: Global,
    rows: &RowList,
    places: &[u32],
) -> Result<RowList, AllocError>
    ensures taken { IfOk result (λ r. r ≡ map (picked places.now) rows.now) }
{
    let mut out = RowList::new(alloc);
    append_picked_rows(alloc, &mut out, rows, places)?;
    Ok(out)
}
