ghost use Rattle.std.specs.Prelude.{◌≡◌, IfOk, map, take};
ghost use Rattle.std.specs.Cmp.{partial_equiv_from_equiv};
ghost use Rattle.std.specs.Hash as fed;
ghost use Rattle.std.specs.Hash.{items_Alike, same_Alike};
ghost use Rattle.json_values.specs.Value.{same};
ghost use Rattle.table_rows.specs.Same.{rows_equivalent, same_decides, same_equivalent};
ghost use Rattle.table_rows.specs.Keys.{key_writes, same_values};
ghost use Rattle.table_rows.specs.Rows.{picked};
ghost use Rattle.table_terms.specs.Names.{value_at};

use crate::rows::copy_at;
use json_values::{Row, Value};
use std::alloc::{AllocError, Global};
use std::hash::{Hash, Hasher};
use std::marker::Model;
use text_core::Bytes;

/// A value by which rows are told apart, and of an array or object the JSON text, by which it is hashed.
#[derive(Drop)]
pub struct KeyValue {
    value: Value,
    text: Bytes,
}

impl Model for KeyValue {
    ghost use Rattle.std.specs.Prelude.{◌≡◌};
    ghost use Rattle.json_values.specs.contracts.value.Value as cell;
    ghost use Rattle.json_values.specs.declared.value.Value as values;
    ghost use Rattle.table_rows.specs.Keys.{tree_text};

    ghost Value = { values.Value };

    ghost coded = { cell.the_row.coded };

    ghost view = { λ k. k.value };

    ghost invariant = { λ k. k.text ≡ tree_text k.value };
}

impl KeyValue {
    /// This value, which is moved. Takes memory for an array or an object alone.
    pub fn of(alloc: Global, value: Value) -> Result<KeyValue, AllocError>
        ensures same { IfOk result (λ k. k ≡ value) }
    {
        let mut text = Bytes::new(alloc);
        if let Value::Tree(json) = &value {
            json.print_into(&mut text)?;
        }
        Ok(KeyValue { value, text })
    }

    /// A copy of the value of a row at a place, counted from 0; null past its end.
    pub fn at(alloc: Global, row: &Row, place: u32) -> Result<KeyValue, AllocError>
        ensures copied { IfOk result (λ k. k ≡ value_at row.now place) }
    {
        KeyValue::of(alloc, copy_at(alloc, row, place)?)
    }
}

impl PartialEq for KeyValue {
    ghost eq = { same };

    ghost laws = { partial_equiv_from_equiv same_equivalent };

    fn eq(&self, other: &KeyValue) -> bool {
        self.value.same(&other.value)
    }
}

impl Eq for KeyValue {
    ghost laws = { same_equivalent };
}

impl Hash for KeyValue {
    ghost hash_input = { key_writes };

    ghost respects_eq = { (same_Alike key_writes same_decides).fed };

    fn hash<H: Hasher>(&self, state: &mut H) {
        match &self.value {
            Value::Null => state.write_u8(2),
            Value::Bool(b) => b.hash(state),
            Value::Num(number) => number.units().hash(state),
            Value::Long(text) | Value::Text(text) => text.as_str().hash(state),
            Value::Tree(_) => state.write(self.text.as_slice()),
        }
    }
}

/// The values by which a row is told apart from others.
#[derive(Drop)]
pub(crate) struct Key {
    values: Vec<KeyValue>,
}

impl Model for Key {
    ghost use Rattle.std.specs.Coded.{coded_list};
    ghost use Rattle.json_values.specs.contracts.value.Value as cell;
    ghost use Rattle.json_values.specs.Table.{RowValues};

    ghost Value = { RowValues };

    ghost coded = { coded_list cell.the_row.coded };

    ghost view = { λ k. k.values.items };
}

impl Key {
    /// Copies of the values of a row at these places, null for each past its end.
    pub(crate) fn of(alloc: Global, row: &Row, places: &[u32]) -> Result<Key, AllocError>
        ensures picked { IfOk result (λ k. k ≡ picked places.now row.now) }
    {
        let mut values = Vec::with_capacity(alloc, places.len())?;
        for place in places {
            values.push(KeyValue::at(alloc, row, *place)?)?;
        }
        Ok(Key { values })
    }
}

impl PartialEq for Key {
    ghost eq = { same_values };

    ghost laws = { partial_equiv_from_equiv rows_equivalent };

    fn eq(&self, other: &Key) -> bool {
        self.values == other.values
    }
}

impl Eq for Key {
    ghost laws = { rows_equivalent };
}

impl Hash for Key {
    ghost hash_input = { fed.slice key_writes };

    ghost respects_eq = { (items_Alike (same_Alike key_writes same_decides)).fed };

    fn hash<H: Hasher>(&self, state: &mut H) {
        self.values.hash(state);
    }
}
