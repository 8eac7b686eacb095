//! Fields set row by row.
use calc_ops::each_rows;
use csv_io::{Room2, read_csv, write_csv};
use expr_lang::{Expr, ExprFault};
use std::alloc::Global;
use std::test::Fail;
use table_rows::{EvalWhy, TableFault, TableWhy};
use text_core::{Bytes, NameList};

/// A table in comma-separated text after assignments.
fn assigned(alloc: Global, table: &[u8], assigns: &str) -> Result<Result<Bytes, TableFault>, Fail> {
    let texts = NameList::new(alloc);
    let table = read_csv(alloc, table, &texts, Room2 { rows: 9 })?;
    let list = Expr::parse_each(alloc, assigns)?;
    Ok(match each_rows(alloc, &table, &list) {
        Ok(set) => Ok(write_csv(alloc, &set)?),
        Err(fault) => Err(fault),
    })
}

#[test]
fn later_assignment_sees_what_was_set(rt: HostRuntime) -> Result<(), Fail> {
    let set = assigned(rt.alloc(), b"pop\n3\n", "d = pop * 2; e = d + 1")??;
    assert_eq!(rt; set.as_slice(), b"pop,d,e\n3,6,7\n".as_slice());
    let none = assigned(rt.alloc(), b"pop\n", "d = pop; pop = e;")??;
    assert_eq!(rt; none.as_slice(), b"pop,d\n".as_slice());
    Ok(())
}

#[test]
fn unknown_name_is_refused_at_its_row_and_place(rt: HostRuntime) -> Result<(), Fail> {
    let fault = assigned(rt.alloc(), b"pop\n3\n", "x = y; y = 1")?.err();
    let why = TableWhy::Eval {
        row: 0,
        at: 4,
        why: EvalWhy::Unknown,
    };
    assert_eq!(rt; fault, Some(TableFault::Bad { why }));
    Ok(())
}

#[test]
fn text_that_is_no_assignments_is_refused_at_its_token(rt: HostRuntime) {
    for (text, fault) in [
        ("x == 1", ExprFault::Syntax { at: 2 }),
        ("this = 1", ExprFault::Syntax { at: 0 }),
        ("a = 1; true = 2", ExprFault::Syntax { at: 7 }),
        ("a=1;;", ExprFault::Unsupported { at: 4 }),
        ("x = y = 2", ExprFault::Unsupported { at: 6 }),
        ("a = ", ExprFault::Syntax { at: 4 }),
    ] {
        match Expr::parse_each(rt.alloc(), text) {
            Ok(_) => panic!(rt; "read {text}"),
            Err(other) => assert_eq!(rt; other, fault, "at {text}"),
        }
    }
}
