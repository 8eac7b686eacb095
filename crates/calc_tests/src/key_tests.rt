//! Rows sorted and thinned by a key.
use calc_ops::{sort_rows, uniq_rows};
use csv_io::{Room2, read_csv};
use expr_lang::Expr;
use grid_base::IdList;
use json_values::Table;
use std::alloc::Global;
use std::test::Fail;
use table_rows::{EvalWhy, TableFault, TableWhy};
use text_core::NameList;

/// Four rows: of `v` the values 2, null, 1 and 2.
fn four_rows(alloc: Global) -> Result<Table, Fail> {
    let texts = NameList::new(alloc);
    Ok(read_csv(
        alloc,
        b"n,v\n1,2\n2,\n3,1\n4,2\n",
        &texts,
        Room2 { rows: 9 },
    )?)
}

/// Six rows, whose key is by their number.
fn six_rows(alloc: Global) -> Result<Table, Fail> {
    let texts = NameList::new(alloc);
    Ok(read_csv(alloc, b"n\n0\n1\n2\n3\n4\n5\n", &texts, Room2 { rows: 9 })?)
}

const MIXED: &str =
    "n == 0 ? 'b' : n == 1 ? null : n == 2 ? 7 : n == 3 ? true : n == 4 ? 'a' : false";

type Answer = Result<IdList, TableFault>;

fn sorted(alloc: Global, t: &Table, key: &str, descending: bool) -> Result<Answer, Fail> {
    let key = Expr::parse(alloc, key)?;
    Ok(sort_rows(alloc, t, &key, descending))
}

fn thinned(alloc: Global, t: &Table, most: u32, invert: bool) -> Result<Answer, Fail> {
    let key = Expr::parse(alloc, "v")?;
    Ok(uniq_rows(alloc, t, &key, most, invert))
}

#[test]
fn null_stands_last_in_both_directions(rt: HostRuntime) -> Result<(), Fail> {
    let table = four_rows(rt.alloc())?;
    let up = sorted(rt.alloc(), &table, "v", false)??;
    assert_eq!(rt; up.as_slice(), [2, 0, 3, 1].as_slice());
    let down = sorted(rt.alloc(), &table, "v", true)??;
    assert_eq!(rt; down.as_slice(), [0, 3, 2, 1].as_slice());
    Ok(())
}

#[test]
fn types_stand_in_order(rt: HostRuntime) -> Result<(), Fail> {
    let table = six_rows(rt.alloc())?;
    let up = sorted(rt.alloc(), &table, MIXED, false)??;
    assert_eq!(rt; up.as_slice(), [5, 3, 2, 4, 0, 1].as_slice());
    let down = sorted(rt.alloc(), &table, MIXED, true)??;
    assert_eq!(rt; down.as_slice(), [0, 4, 2, 3, 5, 1].as_slice());
    Ok(())
}

#[test]
fn first_row_without_a_key_is_refused(rt: HostRuntime) -> Result<(), Fail> {
    let table = four_rows(rt.alloc())?;
    let fault = sorted(rt.alloc(), &table, "v + 1", true)?.err();
    let why = TableWhy::Eval {
        row: 1,
        at: 2,
        why: EvalWhy::Types,
    };
    assert_eq!(rt; fault, Some(TableFault::Bad { why }));
    Ok(())
}

#[test]
fn early_rows_are_kept(rt: HostRuntime) -> Result<(), Fail> {
    let table = four_rows(rt.alloc())?;
    let first = thinned(rt.alloc(), &table, 1, false)??;
    assert_eq!(rt; first.as_slice(), [0, 1, 2].as_slice());
    let others = thinned(rt.alloc(), &table, 1, true)??;
    assert_eq!(rt; others.as_slice(), [3].as_slice());
    let two = thinned(rt.alloc(), &table, 2, false)??;
    assert_eq!(rt; two.as_slice(), [0, 1, 2, 3].as_slice());
    Ok(())
}
