ghost use Rattle.std.specs.Prelude.{◌≡◌, ◌<◌, ◌+◌, ◌^◌, All, IfOk, if◌then◌else◌, length, nat_lt, not, ◌&&◌};
ghost use Rattle.std.specs.Bool.{beq};
ghost use Rattle.lists.specs.Lists.{numbers_where};
ghost use Rattle.expr_lang.specs.Tree.{tree_of};
ghost use Rattle.json_values.specs.Value.{same};
ghost use Rattle.json_values.specs.declared.value.Value as cell;
ghost use Rattle.table_rows.specs.Refusals.{Answers};
ghost use Rattle.calc_ops.specs.EarlyRows.{are_early, count_in, uniq_rows};

use crate::keys::keys_of;
use expr_lang::Expr;
use grid_base::IdList;
use indexmap::IndexMap;
use json_values::{Table, Value};
use std::alloc::{AllocError, Global};
use table_rows::{KeyValue, TableFault};

/// The numbers of the rows for which fewer than `most` rows before them have the same key, or with `invert` those of
/// the other rows, ascending. The key of a row is the value of the expression for it, which is evaluated once.
///
/// Null is the same as null.
/// Errors: `Eval` at the first row for which the expression has a fault.
/// Cost: one look-up for each row.
pub fn uniq_rows(
    alloc: Global,
    t: &Table,
    key: &Expr,
    most: u32,
    invert: bool,
) -> Result<IdList, TableFault>
    ensures exact { Answers result (uniq_rows t.now (tree_of key.now) most invert) }
    ensures within { IfOk result (λ rows. All (λ n. n < length t.now.rows) rows) }
{
    let keys = keys_of(alloc, t, key)?;
    Ok(rows_by_count(alloc, keys, most, invert)?)
}

// The numbers of the keys before which fewer than `most` are the same, or with `invert` of the others.
fn rows_by_count(
    alloc: Global,
    keys: Vec<Value>,
    most: u32,
    invert: bool,
) -> Result<IdList, AllocError>
    requires few { length keys.items < 2 ^ 32 }
    ensures exact { IfOk result (λ rows. rows ≡ numbers_where (beq (not invert)) (are_early most keys.items)) }
    ensures within { IfOk result (λ rows. All (λ n. n < length keys.items) rows) }
{
    let mut counts = IndexMap::new(alloc);
    let mut rows = IdList::new(alloc);
    let mut n = 0;
    for key in keys {
        let counted = KeyValue::of(alloc, key)?;
        if counts_key(&mut counts, counted, most)? != invert {
            rows.push(n)?;
        }
        n += 1;
    }
    Ok(rows)
}

// Counts a key, up to `most`, and tells whether that number was not reached yet.
fn counts_key(
    counts: &mut IndexMap<KeyValue, u32>,
    key: KeyValue,
    most: u32,
) -> Result<bool, AllocError>
    ensures early { IfOk result (λ early. early ≡ nat_lt (count_in counts.old key) most) }
    ensures counts { IfOk result (λ early. (k : cell.Value) → count_in counts.new k ≡ count_in counts.old k + (if early && same key k then 1 else 0)) }
{
    let count = count_in(counts, &key);
    if count >= most {
        return Ok(false);
    }
    counts.insert(key, count + 1)?;
    Ok(true)
}

fn count_in(counts: &IndexMap<KeyValue, u32>, key: &KeyValue) -> u32
    ensures exact { result ≡ count_in counts.now key.now }
{
    match counts.get(key) {
        Some(count) => *count,
        None => 0,
    }
}
