ghost use Rattle.std.specs.Prelude.{◌≡◌, ◌++◌, ◌∷◌, [], IfOk, OnOk, filter, map, option_map, not, unwrap_or};
ghost use Rattle.std.specs.List.{IsDistinct};
ghost use Rattle.std.specs.Str.{bytes_eq};
ghost use Rattle.table_ops.specs.Join.{copied_fields, copied_name, forced_field, new_fields};
ghost use Rattle.table_ops.specs.JoinColumns.{added_column, columns_of, join_of, kept_column};
ghost use Rattle.table_terms.specs.Names.{Text, has_name, place_of};

use join_terms::JoinSpec;
use std::alloc::{AllocError, Global};
use table_rows::copy_names;
use table_terms::NameSet;
use text_core::{NameList, Text};

/// Where a column of a joined table comes from; places are counted from 0.
#[derive(Clone, Copy)]
pub enum Column {
    /// From this place of the target.
    Kept { own: u32 },
    /// From a place of the source, and without a match from the target's own.
    Forced { own: u32, place: u32 },
    /// From a place of the source, and null without a match.
    Added { place: u32 },
}

/// The columns of a joined table and their names, in one order.
#[derive(Drop)]
pub struct Columns {
    pub names: NameList,
    pub cells: Vec<Column>,
}

/// The fields that a join copies from its source.
#[derive(Drop)]
pub struct CopiedFields<'a> {
    pub fields: &'a NameList,
    /// The name that each of them gets.
    pub names: NameSet,
    /// Stands before the name of each.
    pub prefix: &'a Text,
    /// They take the place of columns of their names.
    pub force: bool,
}

/// The columns of the target, and after them those of the copied fields whose names are new.
///
/// Errors: `AllocError` for want of memory.
pub(crate) fn columns_of(
    alloc: Global,
    target: &NameList,
    targets: &NameSet,
    source: &NameList,
    sources: &NameSet,
    spec: &JoinSpec,
) -> Result<Columns, AllocError>
    requires target { targets.now ≡ target.now }
    requires source { sources.now ≡ source.now }
    requires targets_differ { IsDistinct bytes_eq target.now }
    requires sources_differ { IsDistinct bytes_eq source.now }
    requires fields_differ { IsDistinct bytes_eq (unwrap_or spec.now.fields []) }
    ensures names { IfOk result (λ c. c.names ≡ target.now ++ map (copied_name spec.now) (new_fields target.now source.now spec.now)) }
    ensures cells { IfOk result (λ c. c.cells.items ≡ columns_of target.now source.now spec.now) }
    ensures distinct { IfOk result (λ c. IsDistinct bytes_eq c.names) }
{
    let fields = copied_fields(alloc, source, spec)?;
    let copied = CopiedFields {
        fields: &fields,
        names: copied_names(alloc, &fields, &spec.prefix)?,
        prefix: &spec.prefix,
        force: spec.force,
    };
    copied_columns(alloc, target, targets, sources, &copied)
}

// The source fields that are copied: the listed ones, else all but the key.
fn copied_fields(alloc: Global, source: &NameList, spec: &JoinSpec) -> Result<NameList, AllocError>
    ensures fields { IfOk result (λ fields. fields ≡ copied_fields source.now spec.now) }
{
    match &spec.fields {
        Some(fields) => copy_names(alloc, fields),
        None => names_without(alloc, source, spec.source_key.as_str()),
    }
}

fn names_without(alloc: Global, names: &NameList, key: &str) -> Result<NameList, AllocError>
    ensures others { IfOk result (λ others. others ≡ filter (λ (name : Text). not (bytes_eq name key.now)) names.now) }
{
    let mut others = NameList::new(alloc);
    for name in names.as_slice() {
        if name.as_str() != key {
            others.push(Text::of(alloc, name.as_str())?)?;
        }
    }
    Ok(others)
}

/// The names that copied fields get, in their order: the prefix, and then the name of the field.
///
/// Errors: `AllocError` for want of memory.
pub fn copied_names(alloc: Global, fields: &NameList, prefix: &Text) -> Result<NameSet, AllocError>
    requires fields_differ { IsDistinct bytes_eq fields.now }
    ensures names { IfOk result (λ names. names ≡ map (λ (f : Text). prefix.now ++ f) fields.now) }
{
    let names = copied_list(alloc, fields, prefix)?;
    NameSet::of(alloc, &names)
}

fn copied_list(alloc: Global, fields: &NameList, prefix: &Text) -> Result<NameList, AllocError>
    ensures names { IfOk result (λ names. names ≡ map (λ (f : Text). prefix.now ++ f) fields.now) }
{
    let mut names = NameList::new(alloc);
    for field in fields.as_slice() {
        names.push(copied_name(alloc, prefix, field.as_str())?)?;
    }
    Ok(names)
}

fn copied_name(alloc: Global, prefix: &Text, field: &str) -> Result<Text, AllocError>
    ensures name { IfOk result (λ name. name ≡ prefix.now ++ field.now) }
{
    let mut name = String::from_str(alloc, prefix.as_str())?;
    name.push_str(field)?;
    Ok(Text::from_string(name))
}

/// The columns of the target, and after them those of the copied fields whose names are new.
///
/// Errors: `AllocError` for want of memory.
pub fn copied_columns(
    alloc: Global,
    target: &NameList,
    targets: &NameSet,
    sources: &NameSet,
    copied: &CopiedFields,
) -> Result<Columns, AllocError>
    requires target { targets.now ≡ target.now }
    requires copied { copied.now.names ≡ map (copied_name (join_of copied.now)) copied.now.fields.now }
    ensures names { IfOk result (λ c. c.names ≡ target.now ++ map (copied_name (join_of copied.now)) (new_fields target.now sources.now (join_of copied.now))) }
    ensures cells { IfOk result (λ c. c.cells.items ≡ columns_of target.now sources.now (join_of copied.now)) }
{
    let mut columns = Columns {
        names: copy_names(alloc, target)?,
        cells: kept_columns(alloc, target, targets, sources, copied)?,
    };
    for field in copied.fields.as_slice() {
        add_column(
            alloc,
            &mut columns,
            targets,
            sources,
            copied,
            field.as_str(),
        )?;
    }
    Ok(columns)
}

// Adds the column of a copied field, where its name is new.
fn add_column(
    alloc: Global,
    columns: &mut Columns,
    targets: &NameSet,
    sources: &NameSet,
    copied: &CopiedFields,
    field: &str,
) -> Result<(), AllocError>
    ensures names { OnOk result (columns.new.names ≡ columns.old.names ++ map (copied_name (join_of copied.now)) (filter (λ (f : Text). not (has_name targets.now (copied_name (join_of copied.now) f))) (field.now ∷ []))) }
    ensures cells { OnOk result (columns.new.cells.items ≡ columns.old.cells.items ++ map (added_column sources.now) (filter (λ (f : Text). not (has_name targets.now (copied_name (join_of copied.now) f))) (field.now ∷ []))) }
{
    let name = copied_name(alloc, copied.prefix, field)?;
    if !targets.has(name.as_str()) {
        columns.names.push(name)?;
        let place = sources.place_or_end(field);
        columns.cells.push(Column::Added { place })?;
    }
    Ok(())
}

// For each column of the target where it comes from.
fn kept_columns(
    alloc: Global,
    target: &NameList,
    targets: &NameSet,
    sources: &NameSet,
    copied: &CopiedFields,
) -> Result<Vec<Column>, AllocError>
    requires copied { copied.now.names ≡ map (copied_name (join_of copied.now)) copied.now.fields.now }
    ensures cells { IfOk result (λ cells. cells.items ≡ map (kept_column targets.now sources.now (join_of copied.now)) target.now) }
{
    let mut cells = Vec::new(alloc);
    for name in target.as_slice() {
        cells.push(kept_column(targets, sources, copied, name.as_str()))?;
    }
    Ok(cells)
}

fn kept_column(targets: &NameSet, sources: &NameSet, copied: &CopiedFields, name: &str) -> Column
    requires copied { copied.now.names ≡ map (copied_name (join_of copied.now)) copied.now.fields.now }
    ensures from { result ≡ kept_column targets.now sources.now (join_of copied.now) name.now }
{
    let own = targets.place_or_end(name);
    match forced_place(sources, copied, name) {
        Some(place) => Column::Forced { own, place },
        None => Column::Kept { own },
    }
}

// The place in the source of the field that takes the place of a column.
#[tactic(auto, using(crate::proofs::Joining::field_found))]
fn forced_place(sources: &NameSet, copied: &CopiedFields, name: &str) -> Option<u32>
    requires copied { copied.now.names ≡ map (copied_name (join_of copied.now)) copied.now.fields.now }
    ensures place { result ≡ option_map (place_of sources.now) (forced_field sources.now (join_of copied.now) name.now) }
{
    if !copied.force {
        return None;
    }
    match copied.fields.get(copied.names.place_or_end(name)) {
        Some(field) => Some(sources.place_or_end(field.as_str())),
        None => None,
    }
}
