ghost use Rattle.std.specs.Prelude.{◌≡◌, ◌<◌, ◌++◌, ◌∷◌, [], IfOk, OnOk, length};
ghost use Rattle.expr_lang.specs.Tree.{all_assigned};
ghost use Rattle.json_values.specs.Table.{AreDistinctNames, AreRows};
ghost use Rattle.table_rows.specs.Refusals.{Answers};
ghost use Rattle.table_rows.specs.Rows.{row_at};
ghost use Rattle.table_terms.specs.Names.{place_of};
ghost use Rattle.calc_ops.specs.EachRow.{assigned_row, assigned_rows, each_rows, names_after, places_after, with_name, with_value};

use expr_lang::AssignList;
use json_values::{Row, RowList, Table, Value};
use std::alloc::{AllocError, Global};
use table_ops::value_for_row;
use table_rows::{TableFault, copy_names};
use table_terms::NameSet;
use text_core::{NameList, Text};

/// The table after the assignments, which are made row by row, and in a row in order: each sets the field of its
/// name to the value of its expression, which sees what was set before it in the same row.
///
/// A name that is no column becomes a new last column, also where there are no rows. An expression knows the
/// columns of the table and the names of the assignments before it.
/// Errors: `Eval` at the first fault in this order.
/// Cost: one value for each row and assignment; each cell is copied once, and each name looked up once.
pub fn each_rows(alloc: Global, t: &Table, a: &AssignList) -> Result<Table, TableFault>
    ensures exact { Answers result (each_rows t.now (all_assigned a.now)) }
    ensures each { IfOk result (λ set. length set.rows ≡ length t.now.rows) }
{
    let targets = targets_of(alloc, t.names(), a)?;
    let rows = assigned_rows(alloc, t, a, &targets)?;
    Ok(Table::new(targets.names, rows))
}

// Where assignments put their values.
#[derive(Drop)]
struct Targets {
    /// The names of the columns after all of them.
    names: NameList,
    /// For each assignment the place of its column, counted from 0.
    places: Vec<u32>,
}

fn targets_of(alloc: Global, names: &NameList, a: &AssignList) -> Result<Targets, AllocError>
    requires distinct { AreDistinctNames names.now }
    ensures names { IfOk result (λ t. t.names ≡ names_after names.now (all_assigned a.now)) }
    ensures places { IfOk result (λ t. t.places.items ≡ places_after names.now (all_assigned a.now)) }
    ensures distinct { IfOk result (λ t. AreDistinctNames t.names) }
{
    let mut targets = Targets {
        names: copy_names(alloc, names)?,
        places: Vec::new(alloc),
    };
    add_targets(alloc, names, a, &mut targets)?;
    Ok(targets)
}

// Adds the targets of all assignments to the names of the columns.
fn add_targets(
    alloc: Global,
    names: &NameList,
    a: &AssignList,
    targets: &mut Targets,
) -> Result<(), AllocError>
    requires distinct { AreDistinctNames names.now }
    requires names { targets.old.names ≡ names.now }
    requires places { targets.old.places.items ≡ [] }
    ensures names { OnOk result (targets.new.names ≡ names_after names.now (all_assigned a.now)) }
    ensures places { OnOk result (targets.new.places.items ≡ places_after names.now (all_assigned a.now)) }
    ensures distinct { OnOk result (AreDistinctNames targets.new.names) }
{
    let mut known = NameSet::of(alloc, names)?;
    for item in a.as_slice() {
        add_target(alloc, &mut known, targets, item.name.as_str())?;
    }
    Ok(())
}

// Adds the place of a name, which goes last where it is new.
fn add_target(
    alloc: Global,
    known: &mut NameSet,
    targets: &mut Targets,
    name: &str,
) -> Result<(), AllocError>
    requires same { targets.old.names ≡ known.old }
    ensures place { OnOk result (targets.new.places.items ≡ targets.old.places.items ++ place_of known.old name.now ∷ []) }
    ensures added { OnOk result (known.new ≡ with_name known.old name.now) }
    ensures same { OnOk result (targets.new.names ≡ known.new) }
    ensures distinct { OnOk result (AreDistinctNames known.new) }
{
    targets.places.push(known.place_or_end(name))?;
    if known.add(alloc, name)? {
        targets.names.push(Text::of(alloc, name)?)?;
    }
    Ok(())
}

fn assigned_rows(
    alloc: Global,
    t: &Table,
    a: &AssignList,
    targets: &Targets,
) -> Result<RowList, TableFault>
    requires names { targets.now.names ≡ names_after t.now.names (all_assigned a.now) }
    requires places { targets.now.places.items ≡ places_after t.now.names (all_assigned a.now) }
    ensures exact { Answers result (assigned_rows t.now.names (all_assigned a.now) 0 t.now.rows) }
    ensures each { IfOk result (λ rows. length rows ≡ length t.now.rows) }
    ensures widths { IfOk result (λ rows. AreRows (length targets.now.names) rows) }
{
    let mut rows = RowList::new(alloc);
    for n in 0..t.row_count() {
        let row = assigned_row(alloc, t, n, a, targets)?;
        rows.push(row)?;
    }
    Ok(rows)
}

fn assigned_row(
    alloc: Global,
    t: &Table,
    n: u32,
    a: &AssignList,
    targets: &Targets,
) -> Result<Row, TableFault>
    requires within { n < length t.now.rows }
    requires names { targets.now.names ≡ names_after t.now.names (all_assigned a.now) }
    requires places { targets.now.places.items ≡ places_after t.now.names (all_assigned a.now) }
    ensures exact { Answers result (assigned_row t.now.names n (all_assigned a.now) (row_at t.now.rows n)) }
    ensures width { IfOk result (λ row. length row ≡ length targets.now.names) }
{
    let items = a.as_slice();
    let mut values = values_of(alloc, t.rows().as_slice()[n as usize].as_slice())?;
    for i in 0..items.len() {
        let value = value_for_row(alloc, targets.names.as_slice(), &values, n, &items[i].value)?;
        set_at(&mut values, targets.places[i], value)?;
    }
    Ok(Row::from_vec(values)?)
}

fn values_of(alloc: Global, row: &[Value]) -> Result<Vec<Value>, AllocError>
    ensures copied { IfOk result (λ values. values.items ≡ row.now) }
{
    let mut values = Vec::with_capacity(alloc, row.len())?;
    for value in row {
        values.push(value.copy(alloc)?)?;
    }
    Ok(values)
}

// Replaces the value at a place, or appends the value where there is no such place.
fn set_at(values: &mut Vec<Value>, place: u32, value: Value) -> Result<(), AllocError>
    ensures set { OnOk result (values.new.items ≡ with_value values.old.items place value) }
{
    let place = place as usize;
    if place < values.len() {
        values[place] = value;
        return Ok(());
    }
    values.push(value)?;
    Ok(())
}
