//! Calls of `table_ops`.
//!
//! A table is its comma-separated text, whose column `code` has texts; a table in an answer too. Each call may answer
//! the fault instead.
//!
//! - `join_tables` takes the target, the source, the expression that tests rows of the source, what stands before the
//!   names of copied columns, and `force` where they take the place of columns of their name. The key is `code`.
//! - `filter_rows` takes a table, an expression, and `invert` where the rows for which it is false stay; it answers the
//!   numbers of those that stay.
//! - `group_rows` takes a table; groups have `code` in common, `n` of the first row, and the sum of `pop`.
//! - `split_rows` takes a table and a column; it answers the numbers of each piece's rows, a line each.
//! - `rename_fields` takes a table and pairs of a column's new name and its name.
//! - `keep_fields` takes a table, the names of columns that stay, and an expression; it answers those columns, of the
//!   rows for which the expression is true.
//! - `merge_tables` takes two tables, and `force` where their columns may differ.
use case_lists::{bytes_at, list_at, names_at, text_at, told, unknown_call};
use csv_io::{Room2, read_csv, write_csv};
use expr_lang::Expr;
use grid_base::IdList;
use io_core::{Bytes, NameList, Text};
use join_terms::JoinSpec;
use json_values::{Json, Table};
use std::alloc::{AllocError, Global};
use std::fmt::Debug;
use table_ops::{filter_rows, join_tables};
use table_rows::{
    Grouped, SplitItem, SplitList, TableFault, TableList, group_rows, keep_fields, merge_tables,
    rename_fields, split_rows, take_rows,
};
use table_terms::{GroupSpec, Rename, RenameList};

/// What ends a call before its answer: a fault, as it is told, or memory.
#[derive(Drop)]
enum Stop {
    Told(Bytes),
    Memory,
}

impl From<AllocError> for Stop {
    fn from(_: AllocError) -> Stop {
        Stop::Memory
    }
}

fn stop_at<T: Debug>(alloc: Global, fault: &T) -> Stop {
    match told(alloc, fault) {
        Ok(text) => Stop::Told(text),
        Err(_) => Stop::Memory,
    }
}

/// What a call of `table_ops` answers to a case, as this module says; to a call that isn't there, what `unknown_call`
/// answers.
pub fn answer(alloc: Global, call: &str, case: &[Json]) -> Result<Bytes, AllocError> {
    match call {
        "join_tables" => settled(joined(alloc, case)),
        "filter_rows" => settled(filtered(alloc, case)),
        "group_rows" => settled(grouped(alloc, case)),
        "split_rows" => settled(split(alloc, case)),
        "rename_fields" => settled(renamed(alloc, case)),
        "keep_fields" => settled(kept(alloc, case)),
        "merge_tables" => settled(merged(alloc, case)),
        _ => unknown_call(alloc),
    }
}

// A fault, as it is told, is an answer too.
fn settled(answered: Result<Bytes, Stop>) -> Result<Bytes, AllocError> {
    match answered {
        Ok(bytes) => Ok(bytes),
        Err(Stop::Told(bytes)) => Ok(bytes),
        Err(Stop::Memory) => Err(AllocError),
    }
}

fn one_name(alloc: Global, name: &str) -> Result<NameList, AllocError> {
    let mut names = NameList::new(alloc);
    names.push(Text::of(alloc, name)?)?;
    Ok(names)
}

fn table_at(alloc: Global, case: &[Json], place: usize) -> Result<Table, Stop> {
    let text = bytes_at(alloc, case, place)?;
    let texts = one_name(alloc, "code")?;
    match read_csv(alloc, &text, &texts, Room2 { rows: 9 }) {
        Ok(table) => Ok(table),
        Err(fault) => Err(stop_at(alloc, &fault)),
    }
}

fn expression_at(alloc: Global, case: &[Json], place: usize) -> Result<Expr, Stop> {
    match Expr::parse(alloc, text_at(case, place)) {
        Ok(expression) => Ok(expression),
        Err(fault) => Err(stop_at(alloc, &fault)),
    }
}

fn written(alloc: Global, table: &Result<Table, TableFault>) -> Result<Bytes, Stop> {
    match table {
        Ok(table) => Ok(write_csv(alloc, table)?),
        Err(fault) => Err(stop_at(alloc, fault)),
    }
}

fn join_of(alloc: Global, case: &[Json]) -> Result<JoinSpec, Stop> {
    let test = expression_at(alloc, case, 2)?;
    Ok(JoinSpec {
        target_key: Text::of(alloc, "code")?,
        source_key: Text::of(alloc, "code")?,
        fields: None,
        force: text_at(case, 4) == "force",
        test: Some(test),
        prefix: Text::of(alloc, text_at(case, 3))?,
    })
}

fn joined(alloc: Global, case: &[Json]) -> Result<Bytes, Stop> {
    let target = table_at(alloc, case, 0)?;
    let source = table_at(alloc, case, 1)?;
    let spec = join_of(alloc, case)?;
    written(alloc, &join_tables(alloc, &target, &source, &spec))
}

fn filtered(alloc: Global, case: &[Json]) -> Result<Bytes, Stop> {
    let table = table_at(alloc, case, 0)?;
    let test = expression_at(alloc, case, 1)?;
    let inverts = text_at(case, 2) == "invert";
    rows_told(alloc, &filter_rows(alloc, &table, &test, inverts))
}

fn rows_told(alloc: Global, rows: &Result<IdList, TableFault>) -> Result<Bytes, Stop> {
    match rows {
        Ok(rows) => Ok(told(alloc, &rows.as_slice())?),
        Err(fault) => Err(stop_at(alloc, fault)),
    }
}

fn grouped(alloc: Global, case: &[Json]) -> Result<Bytes, Stop> {
    let table = table_at(alloc, case, 0)?;
    let spec = grouping(alloc)?;
    groups_written(alloc, &group_rows(alloc, &table, &spec))
}

fn grouping(alloc: Global) -> Result<GroupSpec, AllocError> {
    let by = one_name(alloc, "code")?;
    let copy = one_name(alloc, "n")?;
    let sum = one_name(alloc, "pop")?;
    Ok(GroupSpec { by, copy, sum })
}

fn groups_written(alloc: Global, groups: &Result<Grouped, TableFault>) -> Result<Bytes, Stop> {
    match groups {
        Ok(groups) => Ok(write_csv(alloc, &groups.table)?),
        Err(fault) => Err(stop_at(alloc, fault)),
    }
}

fn split(alloc: Global, case: &[Json]) -> Result<Bytes, Stop> {
    let table = table_at(alloc, case, 0)?;
    let pieces = pieces_of(alloc, &table, text_at(case, 1));
    pieces_told(alloc, &pieces)
}

fn pieces_of(alloc: Global, table: &Table, field: &str) -> Result<SplitList, TableFault> {
    split_rows(alloc, table, Some(field))
}

fn pieces_told(alloc: Global, pieces: &Result<SplitList, TableFault>) -> Result<Bytes, Stop> {
    match pieces {
        Ok(pieces) => Ok(pieces_text(alloc, pieces.as_slice())?),
        Err(fault) => Err(stop_at(alloc, fault)),
    }
}

fn pieces_text(alloc: Global, pieces: &[SplitItem]) -> Result<Bytes, AllocError> {
    let mut out = Bytes::new(alloc);
    for piece in pieces {
        out.extend(told(alloc, &piece.rows.as_slice())?.as_slice())?;
        out.push(b'\n')?;
    }
    Ok(out)
}

fn renamed(alloc: Global, case: &[Json]) -> Result<Bytes, Stop> {
    let table = table_at(alloc, case, 0)?;
    let pairs = renames(alloc, list_at(case, 1))?;
    let after = rename_fields(alloc, &table, &pairs);
    written(alloc, &after)
}

fn renames(alloc: Global, pairs: &[Json]) -> Result<RenameList, AllocError> {
    let mut renames = RenameList::new(alloc);
    for place in 0..pairs.len() {
        let pair = list_at(pairs, place);
        let label = Text::of(alloc, text_at(pair, 0))?;
        let field = Text::of(alloc, text_at(pair, 1))?;
        renames.push(Rename { label, field })?;
    }
    Ok(renames)
}

fn kept(alloc: Global, case: &[Json]) -> Result<Bytes, Stop> {
    let table = table_at(alloc, case, 0)?;
    let names = names_at(alloc, case, 1)?;
    let test = expression_at(alloc, case, 2)?;
    passing_written(alloc, &keep_fields(alloc, &table, &names), &test)
}

fn passing_written(
    alloc: Global,
    table: &Result<Table, TableFault>,
    test: &Expr,
) -> Result<Bytes, Stop> {
    match table {
        Ok(table) => {
            let passing = passing(alloc, table, test);
            written(alloc, &passing)
        }
        Err(fault) => Err(stop_at(alloc, fault)),
    }
}

fn passing(alloc: Global, table: &Table, test: &Expr) -> Result<Table, TableFault> {
    let rows = filter_rows(alloc, table, test, false)?;
    Ok(take_rows(alloc, table, &rows)?)
}

fn merged(alloc: Global, case: &[Json]) -> Result<Bytes, Stop> {
    let mut tables = TableList::new(alloc);
    tables.push(table_at(alloc, case, 0)?)?;
    tables.push(table_at(alloc, case, 1)?)?;
    let is_forced = text_at(case, 2) == "force";
    written(alloc, &merge_tables(alloc, &tables, is_forced))
}
