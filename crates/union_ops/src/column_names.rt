ghost use Rattle.std.specs.Prelude.{◌≡◌, ◌<◌, ◌++◌, ◌∷◌, [], List, ℕ, false, IfOk, OnOk};
ghost use Rattle.std.specs.List.{IsDistinct};
ghost use Rattle.std.specs.Str.{bytes_eq};
ghost use Rattle.table_rows.specs.Merge.{all_names};
ghost use Rattle.table_terms.specs.Names.{has_name};
ghost use Rattle.union_ops.specs.ColumnNames.{AreNewNames, AreTried, IsFree, IsNewName, numbered as name_with_number};

use json_values::Table;
use std::alloc::{AllocError, Global};
use table_terms::NameSet;
use text_core::{NameList, Text};

/// The names of the columns so far, and for each the least number that was not tried as its ending. All numbers from 2
/// on that were tried make no new name, and never will.
#[derive(Drop)]
struct ColumnNames {
    names: NameSet,
    untried: Vec<u32>,
}

/// The names of all tables in order. One that an earlier column has gets `_` and the least whole number from 2 that
/// makes it new.
///
/// Cost: in proportion to the names.
pub(crate) fn union_names(alloc: Global, tables: &[Table]) -> Result<NameList, AllocError>
    ensures named { IfOk result (λ names. AreNewNames (all_names tables.now) names) }
    ensures distinct { IfOk result (λ names. IsDistinct bytes_eq names) }
{
    let mut columns = ColumnNames {
        names: NameSet::new(alloc),
        untried: Vec::new(alloc),
    };
    let mut names = NameList::new(alloc);
    for table in tables {
        add_names(alloc, &mut columns, &mut names, table.names())?;
    }
    Ok(names)
}

fn add_names(
    alloc: Global,
    columns: &mut ColumnNames,
    names: &mut NameList,
    more: &NameList,
) -> Result<(), AllocError>
    requires same { names.old ≡ columns.old.names }
    requires tried { AreTried columns.old.names columns.old.untried.items }
    requires distinct { IsDistinct bytes_eq columns.old.names }
    ensures same { OnOk result (names.new ≡ columns.new.names) }
    ensures tried { OnOk result (AreTried columns.new.names columns.new.untried.items) }
    ensures distinct { OnOk result (IsDistinct bytes_eq columns.new.names) }
    ensures named { (earlier : List (List ℕ)) → AreNewNames earlier names.old → OnOk result (AreNewNames (earlier ++ more.now) names.new) }
{
    for name in more.as_slice() {
        names.push(new_column(alloc, columns, name.as_str())?)?;
    }
    Ok(())
}

// Adds a column, and answers its name.
fn new_column(alloc: Global, columns: &mut ColumnNames, name: &str) -> Result<Text, AllocError>
    requires tried { AreTried columns.old.names columns.old.untried.items }
    ensures named { IfOk result (IsNewName columns.old.names name.now) }
    ensures last { IfOk result (λ text. columns.new.names ≡ columns.old.names ++ text ∷ []) }
    ensures tried { OnOk result (AreTried columns.new.names columns.new.untried.items) }
    ensures distinct { OnOk result (IsDistinct bytes_eq columns.new.names) }
{
    let place = columns.names.place_or_end(name) as usize;
    if place >= columns.untried.len() {
        let own = Text::of(alloc, name)?;
        add_column(alloc, columns, name)?;
        return Ok(own);
    }
    let number = free_number(alloc, &columns.names, name, columns.untried[place])?;
    let text = numbered(alloc, name, number)?;
    add_column(alloc, columns, text.as_str())?;
    columns.untried[place] = number + 1;
    Ok(text)
}

fn add_column(alloc: Global, columns: &mut ColumnNames, name: &str) -> Result<(), AllocError>
    requires new { has_name columns.old.names name.now ≡ false }
    requires tried { AreTried columns.old.names columns.old.untried.items }
    ensures last { OnOk result (columns.new.names ≡ columns.old.names ++ name.now ∷ []) }
    ensures untried { OnOk result (columns.new.untried.items ≡ columns.old.untried.items ++ 2 ∷ []) }
    ensures tried { OnOk result (AreTried columns.new.names columns.new.untried.items) }
    ensures distinct { OnOk result (IsDistinct bytes_eq columns.new.names) }
{
    columns.names.add(alloc, name)?;
    columns.untried.push(2)?;
    Ok(())
}

// The least number, from one on, that makes a name new.
fn free_number(alloc: Global, names: &NameSet, name: &str, first: u32) -> Result<u32, AllocError>
    ensures free { IfOk result (IsFree names.now name.now first) }
    ensures below { IfOk result (λ number. number < u32.MAX) }
{
    for number in first..u32::MAX {
        if !is_taken(alloc, names, name, number)? {
            return Ok(number);
        }
    }
    Err(AllocError)
}

fn is_taken(alloc: Global, names: &NameSet, name: &str, number: u32) -> Result<bool, AllocError>
    ensures exact { IfOk result (λ taken. taken ≡ has_name names.now (name_with_number name.now number)) }
{
    let text = numbered(alloc, name, number)?;
    Ok(names.has(text.as_str()))
}

fn numbered(alloc: Global, name: &str, number: u32) -> Result<Text, AllocError>
    ensures exact { IfOk result (λ text. text ≡ name_with_number name.now number) }
{
    Ok(Text::from_string(format!(in alloc; "{name}_{number}")?))
}
