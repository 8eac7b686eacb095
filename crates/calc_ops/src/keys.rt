ghost use Rattle.std.specs.Prelude.{◌≡◌, ◌<◌, ◌^◌, ◌++◌, ◌∷◌, [], IfOk, OnOk, length};
ghost use Rattle.expr_lang.specs.Tree.{tree_of};
ghost use Rattle.table_rows.specs.Refusals.{AnswersAs};
ghost use Rattle.calc_ops.specs.Keys.{keys_of};

use expr_lang::Expr;
use json_values::{Table, Value};
use std::alloc::{AllocError, Global};
use table_ops::value_for_row;
use table_rows::TableFault;

/// The value of the expression for each row, evaluated once and in order.
///
/// Errors: `Eval` at the first row for which it has a fault.
pub(crate) fn keys_of(alloc: Global, t: &Table, e: &Expr) -> Result<Vec<Value>, TableFault>
    ensures exact { AnswersAs (λ v. v.items) result (keys_of t.now (tree_of e.now)) }
    ensures each { IfOk result (λ keys. length keys.items ≡ length t.now.rows) }
    ensures few { IfOk result (λ keys. length keys.items < 2 ^ 32) }
{
    let rows = t.rows();
    let mut keys = Vec::new(alloc);
    for n in 0..rows.len() {
        let row = &rows.as_slice()[n as usize];
        let key = value_for_row(alloc, t.names().as_slice(), row.as_slice(), n, e)?;
        append(&mut keys, key)?;
    }
    Ok(keys)
}

fn append(keys: &mut Vec<Value>, key: Value) -> Result<(), AllocError>
    ensures last { OnOk result (keys.new.items ≡ keys.old.items ++ key ∷ []) }
{
    keys.push(key)?;
    Ok(())
}
