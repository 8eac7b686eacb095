ghost use Rattle.std.specs.Prelude.{◌≡◌, ◌++◌, ◌∷◌, [], ◌+◌, IfOk, OnOk, length, map};
ghost use Rattle.std.specs.List.{IsDistinct};
ghost use Rattle.std.specs.Str.{bytes_eq};
ghost use Rattle.table_terms.specs.Names.{place_of};
ghost use Rattle.table_rows.specs.Refusals.{refused_item, Refuses};

use crate::fault::{TableFault, TableWhy};
use std::alloc::{AllocError, Global};
use table_terms::NameSet;
use text_core::{NameList, Text};

/// Tests the items of a list, which count from `first`: each is a name, and stands once.
///
/// Errors: `NoField` or `FieldTwice` of the first item that fails, and `Memory`.
pub fn check_list(
    alloc: Global,
    names: &NameSet,
    first: u32,
    items: &NameList,
) -> Result<(), TableFault>
    ensures exact { Refuses result (refused_item names.now [] first items.now) }
    ensures distinct { OnOk result (IsDistinct bytes_eq items.now) }
{
    let mut seen = NameSet::new(alloc);
    for item in items.as_slice() {
        check_item(alloc, names, &mut seen, first, item.as_str())?;
    }
    Ok(())
}

/// Tests an item, which counts from `first` after those `seen`: it is a name, and none of them. Then it is one.
pub(crate) fn check_item(
    alloc: Global,
    names: &NameSet,
    seen: &mut NameSet,
    first: u32,
    item: &str,
) -> Result<(), TableFault>
    ensures exact { Refuses result (refused_item names.now seen.old (first + length seen.old) (item.now ∷ [])) }
    ensures seen { OnOk result (seen.new ≡ seen.old ++ item.now ∷ []) }
    ensures distinct { OnOk result (IsDistinct bytes_eq seen.new) }
{
    let Some(number) = first.checked_add(seen.len()) else {
        return Err(TableFault::Memory);
    };
    if !names.has(item) {
        let why = TableWhy::NoField { item: number };
        return Err(TableFault::Bad { why });
    }
    if !seen.add(alloc, item)? {
        let why = TableWhy::FieldTwice { item: number };
        return Err(TableFault::Bad { why });
    }
    Ok(())
}

/// The places of the fields among the names.
pub(crate) fn places_of(
    alloc: Global,
    names: &NameSet,
    fields: &[Text],
) -> Result<Vec<u32>, AllocError>
    ensures places { IfOk result (λ places. places.items ≡ map (place_of names.now) fields.now) }
{
    let mut places = Vec::new(alloc);
    for field in fields {
        places.push(names.place_or_end(field.as_str()))?;
    }
    Ok(places)
}
