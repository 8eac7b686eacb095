ghost use Rattle.std.specs.Prelude.{◌≡◌};
ghost use Rattle.calc_ops.specs.KeyOrder.{key_order as order_of_keys, type_place as place_of_type, value_order as order_of_values};

use json_values::Value;
use std::cmp::Ordering;

/// The order of two keys, ascending or descending; null is last in both.
pub(crate) fn key_order(descending: bool, v: &Value, w: &Value) -> Ordering
    ensures exact { result ≡ order_of_keys descending v.now w.now }
{
    match (v, w) {
        (Value::Null, Value::Null) => Ordering::Equal,
        (Value::Null, _) => Ordering::Greater,
        (_, Value::Null) => Ordering::Less,
        _ if descending => value_order(w, v),
        _ => value_order(v, w),
    }
}

// The ascending order of two keys that are not null.
fn value_order(v: &Value, w: &Value) -> Ordering
    ensures exact { result ≡ order_of_values v.now w.now }
{
    match (v, w) {
        (Value::Bool(a), Value::Bool(b)) => a.cmp(b),
        (Value::Num(a), Value::Num(b)) => a.cmp(b),
        (Value::Text(a), Value::Text(b)) => a.as_str().cmp(b.as_str()),
        _ => type_place(v).cmp(&type_place(w)),
    }
}

// Where keys of this type stand among those of others.
fn type_place(v: &Value) -> u8
    ensures exact { result ≡ place_of_type v.now }
{
    match v {
        Value::Bool(_) => 0,
        Value::Num(_) => 1,
        Value::Text(_) => 2,
        _ => 3,
    }
}
