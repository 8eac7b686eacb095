ghost use Rattle.std.specs.Prelude.{◌≡◌, ◌-ℤ◌, ◌*ℤ◌, ◌++◌, IfOk};
ghost use Rattle.std.specs.Str.{bytes_eq};
ghost use Rattle.expr_lang.specs.Meaning.{Answers, alike as alike_value, order_of as order_of_values, applied as applied_value, decided as decided_value, bool_at, other_bool_at, ordered as ordered_value, in_range_at, by_numbers, truth_at, signed as signed_value, added as added_value};
ghost use Rattle.numerals.specs.Decimal.{checked, checked_product};

use crate::fault::EvalFault;
use crate::token::{Operator, Sign};
use json_values::Value;
use numerals::Decimal;
use std::alloc::{AllocError, Global};
use std::cmp::Ordering;
use text_core::Text;

/// The boolean that a value is.
///
/// Errors: `Types` at the place `at`, where the value is no boolean.
pub fn truth(at: u32, value: &Value) -> Result<bool, EvalFault>
    ensures exact { result ≡ truth_at at value.now }
{
    match value {
        Value::Bool(b) => Ok(*b),
        _ => Err(EvalFault::Types { at }),
    }
}

/// What `&&` or `||` is by its left operand alone, where that decides it; `None` where it doesn't, and for any other
/// operator.
///
/// Errors: `Types` at the place `at`, where the operand of one of the two is no boolean.
pub fn decided(at: u32, operator: Operator, left: &Value) -> Result<Option<bool>, EvalFault>
    ensures exact { result ≡ decided_value at operator left.now }
{
    match operator {
        Operator::Both => Ok(if truth(at, left)? { None } else { Some(false) }),
        Operator::Either => Ok(if truth(at, left)? { Some(true) } else { None }),
        _ => Ok(None),
    }
}

/// What `!` makes of a boolean, or `-` of a decimal.
///
/// Errors: `Types` at the place `at` for another value; `Range` there, where the result is no decimal.
pub fn signed(at: u32, sign: Sign, value: &Value) -> Result<Value, EvalFault>
    ensures exact { result ≡ signed_value at sign value.now }
{
    match sign {
        Sign::Not => Ok(Value::Bool(!truth(at, value)?)),
        Sign::Negative => match value {
            Value::Num(number) => in_range(at, Decimal::of_grid(0, 0).checked_sub(number)),
            _ => Err(EvalFault::Types { at }),
        },
    }
}

/// What an operator makes of both its operands, the left one of which did not decide it.
///
/// Errors: `Types` at the place `at` for values that it doesn't take, `Range` there, where the result is no decimal,
/// and `Memory`.
pub fn applied(
    alloc: Global,
    at: u32,
    operator: Operator,
    v: &Value,
    w: &Value,
) -> Result<Value, EvalFault>
    ensures answers { Answers (applied_value at operator v.now w.now) result }
{
    match operator {
        Operator::Both | Operator::Either => Ok(Value::Bool(truth(at, w)?)),
        Operator::Same => Ok(Value::Bool(v.same(w))),
        Operator::NotSame => Ok(Value::Bool(!v.same(w))),
        Operator::Equal => boolean(at, alike(v, w)),
        Operator::NotEqual => other_boolean(at, alike(v, w)),
        Operator::AtMost | Operator::AtLeast | Operator::Less | Operator::Greater => ordered(
            at,
            operator,
            order_of(v, w),
        ),
        Operator::Plus => added(alloc, at, v, w),
        Operator::Minus => subtracted(at, v, w),
        Operator::Times => multiplied(at, v, w),
    }
}

// Two values of one type, or null and any value.
fn alike(v: &Value, w: &Value) -> Option<bool>
    ensures exact { result ≡ alike_value v.now w.now }
{
    match (v, w) {
        (Value::Null, Value::Null) => Some(true),
        (Value::Null, _) | (_, Value::Null) => Some(false),
        (Value::Bool(a), Value::Bool(b)) => Some(*a == *b),
        (Value::Num(a), Value::Num(b)) => Some(a.units() == b.units()),
        (Value::Text(a), Value::Text(b)) => Some(a.as_str() == b.as_str()),
        _ => None,
    }
}

fn order_of(v: &Value, w: &Value) -> Option<Ordering>
    ensures exact { result ≡ order_of_values v.now w.now }
{
    match (v, w) {
        (Value::Num(a), Value::Num(b)) => Some(a.cmp(b)),
        (Value::Text(a), Value::Text(b)) => Some(a.as_str().cmp(b.as_str())),
        _ => None,
    }
}

fn boolean(at: u32, b: Option<bool>) -> Result<Value, EvalFault>
    ensures exact { result ≡ bool_at at b }
{
    match b {
        Some(b) => Ok(Value::Bool(b)),
        None => Err(EvalFault::Types { at }),
    }
}

fn other_boolean(at: u32, b: Option<bool>) -> Result<Value, EvalFault>
    ensures exact { result ≡ other_bool_at at b }
{
    match b {
        Some(b) => Ok(Value::Bool(!b)),
        None => Err(EvalFault::Types { at }),
    }
}

// Whether the order of two values is one that the operator asks for.
fn ordered(at: u32, operator: Operator, order: Option<Ordering>) -> Result<Value, EvalFault>
    ensures exact { result ≡ ordered_value at operator order }
{
    let Some(order) = order else {
        return Err(EvalFault::Types { at });
    };
    Ok(Value::Bool(match operator {
        Operator::AtMost => order.is_le(),
        Operator::AtLeast => order.is_ge(),
        Operator::Less => order.is_lt(),
        _ => order.is_gt(),
    }))
}

fn in_range(at: u32, number: Option<Decimal>) -> Result<Value, EvalFault>
    ensures exact { result ≡ in_range_at at number }
{
    match number {
        Some(number) => Ok(Value::Num(number)),
        None => Err(EvalFault::Range { at }),
    }
}

fn added(alloc: Global, at: u32, v: &Value, w: &Value) -> Result<Value, EvalFault>
    ensures answers { Answers (added_value at v.now w.now) result }
{
    match (v, w) {
        (Value::Num(a), Value::Num(b)) => in_range(at, a.checked_add(b)),
        (Value::Text(a), Value::Text(b)) => Ok(Value::Text(joined(alloc, a, b)?)),
        _ => Err(EvalFault::Types { at }),
    }
}

fn joined(alloc: Global, a: &Text, b: &Text) -> Result<Text, AllocError>
    ensures exact { IfOk result (λ t. t ≡ a.now ++ b.now) }
{
    let mut content = String::from_str(alloc, a.as_str())?;
    content.push_str(b.as_str())?;
    Ok(Text::from_string(content))
}

fn subtracted(at: u32, v: &Value, w: &Value) -> Result<Value, EvalFault>
    ensures exact { result ≡ by_numbers at (λ m n. checked (m -ℤ n)) v.now w.now }
{
    match (v, w) {
        (Value::Num(a), Value::Num(b)) => in_range(at, a.checked_sub(b)),
        _ => Err(EvalFault::Types { at }),
    }
}

fn multiplied(at: u32, v: &Value, w: &Value) -> Result<Value, EvalFault>
    ensures exact { result ≡ by_numbers at (λ m n. checked_product (m *ℤ n)) v.now w.now }
{
    match (v, w) {
        (Value::Num(a), Value::Num(b)) => in_range(at, a.checked_mul(b)),
        _ => Err(EvalFault::Types { at }),
    }
}
