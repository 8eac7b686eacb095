ghost use Rattle.std.specs.Prelude.{◌≡◌, ◌<◌, ◌++◌, ◌∷◌, [], IfNone, IfOk, IfSome, IsTrue, MatchOption, length, map, OnOk, OnErr, Some, false, slice_get, slice_set};
ghost use Rattle.std.specs.List.{list_any};
ghost use Rattle.std.specs.Option.{option_copied};
ghost use Rattle.std.specs.Str.{bytes_eq};
ghost use Rattle.std.specs.String.{string_bytes, string_eq};
ghost use Rattle.indexmap.specs.IndexSet.{IsUnique};
ghost use Rattle.json_values.specs.Table.{add_name as add_one_name, add_names as add_all_names, names_of, row_of as values_of};

use crate::fields::{Fields, FieldsList};
use crate::value::Value;
use indexmap::IndexSet;
use lists::ItemList;
use std::alloc::{AllocError, Global};
use std::marker::Model;
use text_core::{NameList, Text};

/// The values of a row, in the order of the columns; counted from 0.
pub type Row = ItemList<Value>;

/// A list of rows; counted from 0.
pub type RowList = ItemList<Row>;

/// Distinct names of columns, and rows as long as the names.
#[derive(Drop)]
pub struct Table {
    names: NameList,
    rows: RowList,
}

impl Model for Table {
    ghost use Rattle.std.specs.Coded.{coded×, coded_ℕ, coded_list, code_by};
    ghost use Rattle.std.specs.Prelude.{refl};
    ghost use Rattle.json_values.specs.contracts.value.Value as cell;
    ghost use Rattle.json_values.specs.Table.{TableContent, AreRows, AreDistinctNames};

    ghost Value = { TableContent };

    ghost coded = { code_by _ (coded× (coded_list (coded_list coded_ℕ)) (coded_list (coded_list cell.the_row.coded))) (λ t. (t.names, t.rows)) (λ p. record { names = p.0; rows = p.1 }) (λ _. refl) };

    ghost view = { λ t. record { names = t.names; rows = t.rows } };

    ghost use Rattle.std.specs.Prelude.{length};

    ghost invariant = { λ t. AreDistinctNames t.names × AreRows (length t.names) t.rows };
}

impl Table {
    ghost use Rattle.json_values.specs.Table.{AreRows, AreDistinctNames, table_of};

    /// The table of these names and rows; takes no memory.
    pub fn new(names: NameList, rows: RowList) -> Table
        requires distinct { AreDistinctNames names }
        requires widths { AreRows (length names) rows }
        ensures names { result.names ≡ names }
        ensures rows { result.rows ≡ rows }
    {
        Table { names, rows }
    }

    /// A column for each name, in the order of first appearance; a missing value is `Null`.
    pub fn from_fields(alloc: Global, rows: FieldsList) -> Result<Table, AllocError>
        ensures exact { IfOk result (λ t. t ≡ table_of rows) }
    {
        let names = all_names(alloc, rows.as_slice())?;
        Table::with_columns(alloc, names, rows)
    }

    // A column for each of these names.
    fn with_columns(
        alloc: Global,
        names: IndexSet<String>,
        rows: FieldsList,
    ) -> Result<Table, AllocError>
        requires unique { IsUnique string_eq names }
        ensures names { IfOk result (λ t. t.names ≡ map string_bytes names.keys) }
        ensures rows { IfOk result (λ t. t.rows ≡ map (values_of (map string_bytes names.keys)) rows) }
    {
        Ok(Table {
            rows: rows_of(alloc, &names, rows)?,
            names: name_list(alloc, names)?,
        })
    }

    /// The names of the columns.
    pub fn names(&self) -> &NameList
        ensures names { result.now ≡ self.now.names }
        ensures distinct { AreDistinctNames result.now }
    {
        &self.names
    }

    /// How many rows there are; they are numbered from 0.
    pub fn row_count(&self) -> u32
        ensures count { result ≡ length self.now.rows }
    {
        self.rows.len()
    }

    /// The row with this number, counted from 0; `None` past the end.
    pub fn row(&self, i: u32) -> Option<&Row>
        ensures lookup { option_copied result ≡ slice_get self.now.rows i }
    {
        self.rows.get(i)
    }

    /// All rows.
    pub fn rows(&self) -> &RowList
        ensures rows { result.now ≡ self.now.rows }
        ensures widths { AreRows (length self.now.names) result.now }
    {
        &self.rows
    }
}

// The names of all fields, in the order of first appearance.
fn all_names(alloc: Global, rows: &[Fields]) -> Result<IndexSet<String>, AllocError>
    ensures names { IfOk result (λ names. map string_bytes names.keys ≡ names_of rows.now) }
    ensures unique { IfOk result (λ names. IsUnique string_eq names) }
{
    let mut names = IndexSet::new(alloc);
    for fields in rows {
        add_names(alloc, &mut names, &fields.entries)?;
    }
    Ok(names)
}

// The names, and after them those of the fields that are new. Most features have the names of the first in its
// order, so that the name at the same place is looked at first.
fn add_names(
    alloc: Global,
    names: &mut IndexSet<String>,
    fields: &[(Text, Value)],
) -> Result<(), AllocError>
    requires unique { IsUnique string_eq names.old }
    ensures names { OnOk result (map string_bytes names.new.keys ≡ add_all_names (map string_bytes names.old.keys) (map (λ f. f.0) fields.now)) }
    ensures unique { OnOk result (IsUnique string_eq names.new) }
{
    for i in 0..fields.len() {
        let name = fields[i].0.as_str();
        if !stands_at(names.as_slice(), i, name) {
            add_name(alloc, names, name)?;
        }
    }
    Ok(())
}

// Whether this name stands at this place.
fn stands_at(names: &[String], place: usize, name: &str) -> bool
    ensures yes { IsTrue result → slice_get (map string_bytes names.now) place ≡ Some name.now }
{
    match names.get(place) {
        Some(there) => there.as_str() == name,
        None => false,
    }
}

pub(crate) fn add_name(
    alloc: Global,
    names: &mut IndexSet<String>,
    name: &str,
) -> Result<(), AllocError>
    requires unique { IsUnique string_eq names.old }
    ensures names { OnOk result (map string_bytes names.new.keys ≡ add_one_name (map string_bytes names.old.keys) name.now) }
    ensures unique { OnOk result (IsUnique string_eq names.new) }
{
    if names.contains(name) {
        return Ok(());
    }
    match names.insert(String::from_str(alloc, name)?) {
        Ok(_) => Ok(()),
        Err(_) => Err(AllocError),
    }
}

// A row of the values of these names for each of the fields.
fn rows_of(
    alloc: Global,
    names: &IndexSet<String>,
    fields_list: FieldsList,
) -> Result<RowList, AllocError>
    requires unique { IsUnique string_eq names.now }
    ensures exact { IfOk result (λ rows. rows ≡ map (values_of (map string_bytes names.now.keys)) fields_list) }
{
    let mut rows = RowList::new(alloc);
    for fields in fields_list.into_vec() {
        rows.push(row_of(alloc, names, fields)?)?;
    }
    Ok(rows)
}

// The values of these names; one that is missing is Null.
fn row_of(alloc: Global, names: &IndexSet<String>, fields: Fields) -> Result<Row, AllocError>
    requires unique { IsUnique string_eq names.now }
    ensures exact { IfOk result (λ row. row ≡ values_of (map string_bytes names.now.keys) fields) }
{
    let mut values = nulls(alloc, names.as_slice())?;
    for (i, field) in fields.entries.into_iter().enumerate() {
        let place = place_of(names, i, field.0.as_str());
        set_value(&mut values, place, field);
    }
    Row::from_vec(values)
}

// Null for each of these names.
fn nulls(alloc: Global, names: &[String]) -> Result<Vec<Value>, AllocError>
    ensures exact { IfOk result (λ values. values.items ≡ values_of (map string_bytes names.now) []) }
{
    let mut values = Vec::with_capacity(alloc, names.len())?;
    for _ in names {
        values.push(Value::Null)?;
    }
    Ok(values)
}

// Where the name stands: at the guessed place, or else as the index tells.
fn place_of(names: &IndexSet<String>, guess: usize, name: &str) -> Option<usize>
    ensures some { IfSome result (λ i. slice_get (map string_bytes names.now.keys) i ≡ Some name.now) }
    ensures none { IfNone result (list_any (bytes_eq name.now) (map string_bytes names.now.keys) ≡ false) }
{
    if stands_at(names.as_slice(), guess, name) {
        return Some(guess);
    }
    names.get_index_of(name)
}

// Moves the value of a field to its place in a row; a field without one goes.
fn set_value(values: &mut Vec<Value>, place: Option<usize>, field: (Text, Value))
    requires within { IfSome place (λ i. i < length values.old.items) }
    ensures exact { MatchOption place (values.new.items ≡ values.old.items) (λ i. values.new.items ≡ slice_set values.old.items i field.1) }
{
    if let Some(place) = place {
        values[place] = field.1;
    }
}

fn name_list(alloc: Global, names: IndexSet<String>) -> Result<NameList, AllocError>
    ensures exact { IfOk result (λ list. list ≡ map string_bytes names.keys) }
{
    let mut list = NameList::new(alloc);
    for name in names {
        list.push(Text::from_string(name))?;
    }
    Ok(list)
}
