ghost use Rattle.std.specs.Prelude.{◌≡◌, ◌<◌, [], ℕ, List, Ok, Some, None, true, false, if◌then◌else◌, IfOk, OnOk, length, map, slice_index_or};
ghost use Rattle.std.specs.List.{last_or};
ghost use Rattle.std.specs.Str.{bytes_eq};
ghost use Rattle.indexmap.specs.IndexSet.{insert_key};
ghost use Rattle.json_values.specs.Table.{AreDistinctNames};
ghost use Rattle.lists.specs.Lists.{numbers_where};
ghost use Rattle.table_rows.specs.Columns.{fields_of_pairs, is_twice, refused_label, refused_renames, rename_fields, renamed};
ghost use Rattle.table_terms.specs.Names.{has_name};
ghost use Rattle.table_terms.specs.Refusals.{unless};
ghost use Rattle.table_rows.specs.Refusals.{Answers, Refuses, refused_item};

use crate::fault::{TableFault, TableWhy};
use crate::items::check_item;
use crate::rows::copy_rows;
use json_values::Table;
use std::alloc::{AllocError, Global};
use table_terms::{NameSet, Rename, RenameList};
use text_core::{NameList, Text};

/// All pairs at once: each old name gets its new one, and columns keep their places.
///
/// Errors: `NoField` and `FieldTwice` at the first item whose old name the table lacks or that stands
/// earlier; then `FieldTwice` at the last item whose new name stands twice among the names that result.
/// Cost: in proportion to the cells, which are copied, and the names.
pub fn rename_fields(alloc: Global, t: &Table, pairs: &RenameList) -> Result<Table, TableFault>
    ensures exact { Answers result (rename_fields t.now pairs.now) }
    ensures rows { IfOk result (λ r. r.rows ≡ t.now.rows) }
{
    let names = names_after(alloc, t.names(), pairs)?;
    let rows = copy_rows(alloc, t.rows())?;
    Ok(Table::new(names, rows))
}

// The names of the columns after the renames.
fn names_after(alloc: Global, names: &NameList, pairs: &RenameList) -> Result<NameList, TableFault>
    requires distinct { AreDistinctNames names.now }
    ensures exact { Answers result (unless (refused_renames names.now pairs.now) (Ok (map (renamed pairs.now) names.now))) }
    ensures distinct { IfOk result (λ out. AreDistinctNames out) }
    ensures each { IfOk result (λ out. length out ≡ length names.now) }
{
    let mut fields = NameSet::new(alloc);
    note_fields(alloc, names, pairs, &mut fields)?;
    distinct_names(alloc, names, &fields, pairs)
}

// The names of the columns after the renames of these fields, which are those of the pairs, where none stands twice.
fn distinct_names(
    alloc: Global,
    names: &NameList,
    fields: &NameSet,
    pairs: &RenameList,
) -> Result<NameList, TableFault>
    requires fields { fields.now ≡ fields_of_pairs pairs.now }
    requires distinct { AreDistinctNames names.now }
    ensures exact { Answers result (unless (refused_label (map (renamed pairs.now) names.now) pairs.now) (Ok (map (renamed pairs.now) names.now))) }
    ensures distinct { IfOk result (λ out. AreDistinctNames out) }
    ensures each { IfOk result (λ out. length out ≡ length names.now) }
{
    let out = new_names(alloc, names, fields, pairs)?;
    check_labels(alloc, pairs, &out)?;
    Ok(out)
}

// Notes the old names, each of which is one of these names and stands once.
fn note_fields(
    alloc: Global,
    names: &NameList,
    pairs: &RenameList,
    fields: &mut NameSet,
) -> Result<(), TableFault>
    requires distinct { AreDistinctNames names.now }
    requires none { fields.old ≡ [] }
    ensures exact { Refuses result (refused_item names.now [] 0 (fields_of_pairs pairs.now)) }
    ensures noted { OnOk result (fields.new ≡ fields_of_pairs pairs.now) }
{
    let columns = NameSet::of(alloc, names)?;
    for pair in pairs.as_slice() {
        check_item(alloc, &columns, fields, 0, pair.field.as_str())?;
    }
    Ok(())
}

// Refuses the last item whose new name stands twice among these names.
fn check_labels(alloc: Global, pairs: &RenameList, names: &NameList) -> Result<(), TableFault>
    ensures exact { Refuses result (refused_label names.now pairs.now) }
{
    match last_twice(alloc, pairs, names)? {
        Some(item) => {
            let why = TableWhy::FieldTwice { item };
            Err(TableFault::Bad { why })
        }
        None => Ok(()),
    }
}

// The names of the columns after the renames of these fields, which are those of the pairs.
fn new_names(
    alloc: Global,
    names: &NameList,
    fields: &NameSet,
    pairs: &RenameList,
) -> Result<NameList, AllocError>
    requires fields { fields.now ≡ fields_of_pairs pairs.now }
    ensures names { IfOk result (λ out. out ≡ map (renamed pairs.now) names.now) }
{
    let mut out = NameList::new(alloc);
    for name in names.as_slice() {
        out.push(Text::of(alloc, new_name(name.as_str(), fields, pairs))?)?;
    }
    Ok(out)
}

fn new_name<'a>(name: &'a str, fields: &NameSet, pairs: &'a RenameList) -> &'a str
    requires fields { fields.now ≡ fields_of_pairs pairs.now }
    ensures name { result.now ≡ renamed pairs.now name.now }
{
    match pairs.get(fields.place_or_end(name)) {
        Some(pair) => pair.label.as_str(),
        None => name,
    }
}

// The number of the last item whose new name stands twice among these names.
fn last_twice(
    alloc: Global,
    pairs: &RenameList,
    names: &NameList,
) -> Result<Option<u32>, AllocError>
    ensures last { IfOk result (λ last. last ≡ last_or None (numbers_where (λ pair. is_twice names.now pair.label) pairs.now)) }
{
    let repeated = repeated_names(alloc, names)?;
    Ok(last_repeated(pairs, &repeated))
}

// The names that stand at two places or more.
fn repeated_names(alloc: Global, names: &NameList) -> Result<NameSet, AllocError>
    ensures twice { IfOk result (λ repeated. (name : List ℕ) → has_name repeated name ≡ is_twice names.now name) }
{
    let mut seen = NameSet::new(alloc);
    let mut repeated = NameSet::new(alloc);
    for name in names.as_slice() {
        note_name(alloc, &mut seen, &mut repeated, name.as_str())?;
    }
    Ok(repeated)
}

// Notes a name as repeated, where it was seen before.
fn note_name(
    alloc: Global,
    seen: &mut NameSet,
    repeated: &mut NameSet,
    name: &str,
) -> Result<(), AllocError>
    ensures seen { OnOk result (seen.new ≡ insert_key bytes_eq seen.old name.now) }
    ensures again { OnOk result (has_name seen.old name.now ≡ true → repeated.new ≡ insert_key bytes_eq repeated.old name.now) }
    ensures first { OnOk result (has_name seen.old name.now ≡ false → repeated.new ≡ repeated.old) }
{
    if !seen.add(alloc, name)? {
        repeated.add(alloc, name)?;
    }
    Ok(())
}

// The number of the last item whose new name is one of these.
fn last_repeated(pairs: &RenameList, repeated: &NameSet) -> Option<u32>
    ensures last { result ≡ last_or None (numbers_where (λ pair. has_name repeated.now pair.label) pairs.now) }
{
    let mut last = None;
    for i in 0..pairs.len() {
        let pair = pair_at(pairs, i);
        last = later(last, i, repeated.has(pair.label.as_str()));
    }
    last
}

// A pair of a list, which has one of the number.
fn pair_at(pairs: &RenameList, i: u32) -> &Rename
    requires within { i < length pairs.now }
    ensures lent { result.now ≡ slice_index_or pairs.now i result.now }
{
    &pairs.as_slice()[i as usize]
}

fn later(last: Option<u32>, i: u32, is_later: bool) -> Option<u32>
    ensures chosen { result ≡ (if is_later then Some i else last) }
{
    if is_later { Some(i) } else { last }
}
