ghost use Rattle.std.specs.Prelude.{◌≡◌, ◌<◌, All, Err, IfOk, length, not};
ghost use Rattle.expr_lang.specs.Meaning.{Evaluated, FaultIs, evaluated};
ghost use Rattle.expr_lang.specs.Tree.{tree_of};
ghost use Rattle.json_values.specs.declared.value.Value as cell;
ghost use Rattle.table_ops.specs.Filtering.{filter_rows, says, truth_for, value_for};
ghost use Rattle.table_rows.specs.Refusals.{Answers};

use expr_lang::{EvalFault, Expr, eval_values};
use grid_base::IdList;
use json_values::{Row, Table, Value};
use std::alloc::Global;
use table_rows::{EvalWhy, TableFault, TableWhy, row_of};
use text_core::{NameList, Text};

/// The numbers of the rows, counted from 0 and ascending, for which the expression is true, or with `invert` false.
///
/// It is evaluated for all rows in order.
/// Errors: at the first row for which it is no boolean, `Eval` where it has a fault there, else `NotBoolean`; and
/// `Memory`. The row is counted from 0.
pub fn filter_rows(alloc: Global, t: &Table, e: &Expr, invert: bool) -> Result<IdList, TableFault>
    ensures exact { Answers result (filter_rows t.now (tree_of e.now) (not invert)) }
    ensures within { IfOk result (λ kept. All (λ n. n < length t.now.rows) kept) }
{
    let rows = t.rows();
    let mut kept = IdList::new(alloc);
    for n in 0..rows.len() {
        if test_of(alloc, t.names(), row_of(rows, n), n, e)? != invert {
            kept.push(n)?;
        }
    }
    Ok(kept)
}

// What the expression says of the row with this number.
fn test_of(alloc: Global, names: &NameList, row: &Row, n: u32, e: &Expr) -> Result<bool, TableFault>
    ensures exact { Answers result (says n (evaluated names.now row.now n (tree_of e.now))) }
{
    match value_for_row(alloc, names.as_slice(), row.as_slice(), n, e) {
        Ok(value) => boolean(&value, n),
        Err(fault) => Err(fault),
    }
}

fn boolean(value: &Value, row: u32) -> Result<bool, TableFault>
    ensures exact { Answers result (truth_for row value.now) }
{
    match value {
        Value::Bool(b) => Ok(*b),
        _ => Err(TableFault::Bad {
            why: TableWhy::NotBoolean { row },
        }),
    }
}

/// The value of the expression for the row with this number, counted from 0, whose values stand under these names in
/// order.
///
/// Errors: `Eval` at this row where it has a fault, and `Memory`.
pub fn value_for_row(
    alloc: Global,
    names: &[Text],
    row: &[Value],
    n: u32,
    e: &Expr,
) -> Result<Value, TableFault>
    ensures exact { Answers result (value_for n (evaluated names.now row.now n (tree_of e.now))) }
{
    match eval_values(alloc, e, names, row, n) {
        Ok(value) => Ok(value),
        Err(fault) => Err(refusal(fault, n)),
    }
}

fn refusal(fault: EvalFault, row: u32) -> TableFault
    ensures exact { (said : Evaluated) → FaultIs said fault → Answers {T = cell.Value} (Err result) (value_for row said) }
{
    let (at, why) = match fault {
        EvalFault::Unknown { at } => (at, EvalWhy::Unknown),
        EvalFault::Types { at } => (at, EvalWhy::Types),
        EvalFault::Range { at } => (at, EvalWhy::Range),
        EvalFault::Memory => return TableFault::Memory,
    };
    TableFault::Bad {
        why: TableWhy::Eval { row, at, why },
    }
}
