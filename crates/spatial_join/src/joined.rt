ghost use Rattle.std.specs.Prelude.{◌≡◌, ◌<◌, All, IfOk, length, map, nat_eq};
ghost use Rattle.std.specs.List.{zip};
ghost use Rattle.std.specs.List.Sorted.{IsStrictlyIncreasing};
ghost use Rattle.lists.specs.Lists.{has};
ghost use Rattle.table_terms.specs.Refusals.{on_ok};
ghost use Rattle.table_rows.specs.Refusals.{Answers};
ghost use Rattle.table_ops.specs.Join.{candidates};
ghost use Rattle.spatial_join.specs.CalcColumns.{row_by_places, rows_by_places, summed_place};
ghost use Rattle.spatial_join.specs.Joined.{join_matched, matching};

use crate::calc_columns::joined_columns;
use crate::calculations::{summed_places, with_sums};
use grid_base::{GroupList, IdList};
use join_terms::CalcSpec;
use json_values::{Row, RowList, Table};
use std::alloc::{AllocError, Global};
use table_ops::{Column, candidates, copied_row};
use table_rows::{TableFault, first_row};
use table_terms::NameSet;

/// Fields of the source go to the rows of the target: to each from the first source row that matches it, and after them
/// what is calculated of all that match it. For each target row `matches` has the numbers of those, counted from 0 and
/// ascending.
///
/// With a test only the source rows for which it is true take part. The copied fields are the listed ones, else all,
/// each under its name after the prefix. One whose new name is a column of the target is left out, or with `force`
/// takes its place in the rows that have a match; the other columns stand after those of the target, and are null in
/// the rows without a match. The calculated columns stand last: how many rows match, or the sum of a field over them,
/// where null counts as 0.
/// Errors: `NoField` and `FieldTwice` at the first listed field that the source lacks or that stands earlier, then at
/// the first calculation, counted on from those, whose field the source lacks or whose name is that of a column of
/// the target, of a copied field or of an earlier calculation; then `Eval` and `NotBoolean` at the first source row for
/// which the test is no boolean; then by target rows, and in each by calculations, `NotNumber` and `SumRange` at the
/// first source row that cannot be added; and `Memory`. Items and rows are counted from 0.
/// Cost: in proportion to the cells of both tables, to the matches for each sum, and a binary search for each match.
pub fn join_matched(
    alloc: Global,
    target: &Table,
    source: &Table,
    matches: &GroupList,
    spec: &CalcSpec,
) -> Result<Table, TableFault>
    requires each { length matches.now ≡ length target.now.rows }
    requires ascending { All IsStrictlyIncreasing matches.now }
    ensures exact { Answers result (join_matched target.now source.now matches.now spec.now) }
    ensures each { IfOk result (λ joined. length joined.rows ≡ length target.now.rows) }
{
    let targets = NameSet::of(alloc, target.names())?;
    let sources = NameSet::of(alloc, source.names())?;
    joined_table(alloc, target, &targets, source, &sources, matches, spec)
}

// The joined table, where these are the names of the two.
fn joined_table(
    alloc: Global,
    target: &Table,
    targets: &NameSet,
    source: &Table,
    sources: &NameSet,
    matches: &GroupList,
    spec: &CalcSpec,
) -> Result<Table, TableFault>
    requires target { targets.now ≡ target.now.names }
    requires source { sources.now ≡ source.now.names }
    requires each { length matches.now ≡ length target.now.rows }
    requires ascending { All IsStrictlyIncreasing matches.now }
    ensures exact { Answers result (join_matched target.now source.now matches.now spec.now) }
    ensures each { IfOk result (λ joined. length joined.rows ≡ length target.now.rows) }
{
    let columns = joined_columns(
        alloc,
        target.names(),
        targets,
        source.names(),
        sources,
        spec,
    )?;
    let rows = calc_rows(
        alloc,
        target.rows(),
        source,
        sources,
        matches,
        spec,
        &columns.cells,
    )?;
    Ok(Table::new(columns.names, rows))
}

// The rows of the joined table, with these columns and the calculated ones.
fn calc_rows(
    alloc: Global,
    target: &RowList,
    source: &Table,
    sources: &NameSet,
    matches: &GroupList,
    spec: &CalcSpec,
    columns: &[Column],
) -> Result<RowList, TableFault>
    requires source { sources.now ≡ source.now.names }
    requires each { length matches.now ≡ length target.now }
    requires ascending { All IsStrictlyIncreasing matches.now }
    ensures exact { Answers result (on_ok (candidates source.now spec.now.test) (λ remaining. rows_by_places source.now.rows columns.now (map (summed_place source.now.names) spec.now.calc) remaining (zip target.now matches.now))) }
{
    let sums = summed_places(alloc, sources, spec.calc.as_slice())?;
    let remaining = candidates(alloc, source, &spec.test)?;
    joined_rows(
        alloc,
        target,
        source.rows(),
        matches,
        remaining.as_slice(),
        columns,
        &sums,
    )
}

// The rows of the target with what they take of the remaining source rows that match them.
fn joined_rows(
    alloc: Global,
    target: &RowList,
    source: &RowList,
    matches: &GroupList,
    remaining: &[u32],
    columns: &[Column],
    sums: &[Option<u32>],
) -> Result<RowList, TableFault>
    requires each { length matches.now ≡ length target.now }
    requires ascending { All IsStrictlyIncreasing matches.now }
    requires remaining { IsStrictlyIncreasing remaining.now }
    requires within { All (λ n. n < length source.now) remaining.now }
    ensures exact { Answers result (rows_by_places source.now columns.now sums.now remaining.now (zip target.now matches.now)) }
{
    let mut rows = RowList::new(alloc);
    for i in 0..target.len() {
        let matched = matching(alloc, remaining, matches.as_slice()[i as usize].as_slice())?;
        let row = joined_row(
            alloc,
            &target.as_slice()[i as usize],
            source,
            &matched,
            columns,
            sums,
        )?;
        rows.push(row)?;
    }
    Ok(rows)
}

// Those of the remaining rows that match.
fn matching(alloc: Global, remaining: &[u32], matched: &[u32]) -> Result<IdList, AllocError>
    requires remaining { IsStrictlyIncreasing remaining.now }
    requires matched { IsStrictlyIncreasing matched.now }
    ensures both { IfOk result (λ both. both ≡ matching remaining.now matched.now) }
{
    let mut both = IdList::new(alloc);
    for n in matched {
        if is_listed(remaining, *n) {
            both.push(*n)?;
        }
    }
    Ok(both)
}

fn is_listed(numbers: &[u32], n: u32) -> bool
    requires ascending { IsStrictlyIncreasing numbers.now }
    ensures exact { result ≡ has nat_eq numbers.now n }
{
    match numbers.binary_search(&n) {
        Ok(_) => true,
        Err(_) => false,
    }
}

// A row of the target with the copied fields of the first of these source rows, and what is calculated of all of them.
fn joined_row(
    alloc: Global,
    row: &Row,
    source: &RowList,
    matched: &IdList,
    columns: &[Column],
    sums: &[Option<u32>],
) -> Result<Row, TableFault>
    requires within { All (λ n. n < length source.now) matched.now }
    ensures exact { Answers result (row_by_places source.now columns.now sums.now row.now matched.now) }
{
    let cells = copied_row(alloc, row, first_row(source, matched), columns)?;
    with_sums(cells, source, matched, sums)
}
