ghost use Rattle.std.specs.Prelude.{◌≡◌, ◌<◌, All, IfOk, length};
ghost use Rattle.std.specs.List.{range_with_len};
ghost use Rattle.expr_lang.specs.Tree.{tree_of};
ghost use Rattle.table_rows.specs.Refusals.{Answers};
ghost use Rattle.calc_ops.specs.KeyOrder.{numbers_by_key, row_order as order_of_rows, sort_rows};
ghost use Rattle.calc_ops.specs.Keys.{key_at as key_of_row};
ghost use Rattle.json_values.specs.declared.value.Value.TheVariants as is;

use crate::key_order::key_order;
use crate::keys::keys_of;
use expr_lang::Expr;
use grid_base::IdList;
use json_values::{Table, Value};
use std::alloc::{AllocError, Global};
use std::cmp::Ordering;
use table_rows::TableFault;

/// The numbers of the rows in the order of their keys. The key of a row is the value of the expression for it, which
/// is evaluated once.
///
/// Booleans stand before numbers and these before texts; false stands before true, numbers are ordered by value, and
/// texts by Unicode scalar values. `descending` turns this order round. Null stands last in both directions. Rows of
/// equal keys keep their order.
/// Errors: `Eval` at the first row for which the expression has a fault.
/// Cost: n log n comparisons of keys.
pub fn sort_rows(
    alloc: Global,
    t: &Table,
    key: &Expr,
    descending: bool,
) -> Result<IdList, TableFault>
    ensures exact { Answers result (sort_rows t.now (tree_of key.now) descending) }
    ensures within { IfOk result (λ rows. All (λ n. n < length t.now.rows) rows) }
{
    let keys = keys_of(alloc, t, key)?;
    let numbers = numbers_by_key(alloc, &keys, t.row_count(), descending)?;
    Ok(IdList::from_vec(numbers)?)
}

// The numbers of the keys, `count` of them, in the order of the keys.
fn numbers_by_key(
    alloc: Global,
    keys: &[Value],
    count: u32,
    descending: bool,
) -> Result<Vec<u32>, AllocError>
    requires each { length keys.now ≡ count }
    ensures exact { IfOk result (λ numbers. numbers.items ≡ numbers_by_key descending keys.now) }
    ensures within { IfOk result (λ numbers. All (λ n. n < length keys.now) numbers.items) }
{
    let mut numbers = numbers_below(alloc, count)?;
    numbers.sort_unstable_by(|m, n| row_order(descending, keys, *m, *n));
    Ok(numbers)
}

#[tactic(auto, using(face_sets::proofs::GapLemmas::range_more))]
fn numbers_below(alloc: Global, count: u32) -> Result<Vec<u32>, AllocError>
    ensures exact { IfOk result (λ numbers. numbers.items ≡ range_with_len 0 count) }
{
    let mut numbers = Vec::with_capacity(alloc, count as usize)?;
    for n in 0..count {
        numbers.push(n)?;
    }
    Ok(numbers)
}

// The order of two rows: that of their keys, and where these are equal that of their numbers.
fn row_order(descending: bool, keys: &[Value], m: u32, n: u32) -> Ordering
    ensures exact { result ≡ order_of_rows descending keys.now m n }
{
    let null = Value::Null;
    key_order(descending, key_at(keys, m, &null), key_at(keys, n, &null)).then(m.cmp(&n))
}

// The key of a row, or null where there is no such row.
fn key_at<'a>(keys: &'a [Value], n: u32, null: &'a Value) -> &'a Value
    requires null { null.now ≡ is.Null }
    ensures exact { result.now ≡ key_of_row keys.now n }
{
    match keys.get(n as usize) {
        Some(key) => key,
        None => null,
    }
}
