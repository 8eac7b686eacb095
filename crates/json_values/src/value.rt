ghost use Rattle.std.specs.Prelude.{◌≡◌, ◌++◌, IfOk, OnOk, OnErr};
ghost use Rattle.numerals.specs.Bytes.{Begins};
ghost use Rattle.numerals.specs.Decimal.{decimal_of_text};

use crate::json::Json;
use crate::printing::{print_bool, print_string};
use numerals::Decimal;
use std::alloc::{AllocError, Global};
use text_core::{Bytes, Text};

/// The value of a table's cell.
///
/// `Num` is a numeral whose value is a `Decimal`; `Long` is another numeral, as it is spelled; `Tree` is an array
/// or an object.
pub enum Value {
    Null,
    Bool(bool),
    Num(Decimal),
    Long(Text),
    Text(Text),
    Tree(Json),
}

// One call, wherever a function lets go of a value, in the place of a look at each variant.
impl Drop for Value {
    fn drop(self) {
        match self {
            Value::Null
            | Value::Bool(_)
            | Value::Num(_)
            | Value::Long(_)
            | Value::Text(_)
            | Value::Tree(_) => {}
        }
    }
}

impl Value {
    ghost use Rattle.json_values.specs.Value.{value_of, number_value, same, value_text, plain_text};
    ghost use Rattle.json_values.specs.ProperCells.{AppendsCell};

    /// The value of a cell that holds this JSON value.
    pub fn of_json(alloc: Global, json: &Json) -> Result<Value, AllocError>
        ensures exact { IfOk result (λ v. v ≡ value_of json.now) }
    {
        Ok(match json {
            Json::Null => Value::Null,
            Json::Bool(b) => Value::Bool(*b),
            Json::Num(numeral) => Value::of_numeral(alloc, numeral)?,
            Json::Text(text) => Value::Text(Text::of(alloc, text.as_str())?),
            Json::List(_) | Json::Object(_) => Value::Tree(json.copy(alloc)?),
        })
    }

    /// The value of a cell that holds this JSON value, whose memory it keeps.
    pub fn of_owned(json: Json) -> Value
        ensures exact { result ≡ value_of json }
    {
        match json {
            Json::Null => Value::Null,
            Json::Bool(b) => Value::Bool(b),
            Json::Num(numeral) => Value::of_owned_numeral(numeral),
            Json::Text(text) => Value::Text(text),
            Json::List(items) => Value::Tree(Json::List(items)),
            Json::Object(fields) => Value::Tree(Json::Object(fields)),
        }
    }

    fn of_owned_numeral(numeral: Text) -> Value
        ensures exact { result ≡ number_value numeral (decimal_of_text numeral) }
    {
        match Decimal::parse(numeral.as_str()) {
            Some(decimal) => Value::Num(decimal),
            None => Value::Long(numeral),
        }
    }

    fn of_numeral(alloc: Global, numeral: &Text) -> Result<Value, AllocError>
        ensures exact { IfOk result (λ v. v ≡ number_value numeral.now (decimal_of_text numeral.now)) }
    {
        match Decimal::parse(numeral.as_str()) {
            Some(decimal) => Ok(Value::Num(decimal)),
            None => Ok(Value::Long(Text::of(alloc, numeral.as_str())?)),
        }
    }

    /// An equal value with memory of its own.
    pub fn copy(&self, alloc: Global) -> Result<Value, AllocError>
        ensures equal { IfOk result (λ v. v ≡ self.now) }
    {
        Ok(match self {
            Value::Null => Value::Null,
            Value::Bool(b) => Value::Bool(*b),
            Value::Num(decimal) => Value::Num(*decimal),
            Value::Long(numeral) => Value::Long(Text::of(alloc, numeral.as_str())?),
            Value::Text(text) => Value::Text(Text::of(alloc, text.as_str())?),
            Value::Tree(json) => Value::Tree(json.copy(alloc)?),
        })
    }

    /// Whether the two have one variant and equal content: numerals go by their spelling, and fields by
    /// their order too.
    pub fn same(&self, o: &Value) -> bool
        ensures value { result ≡ same self.now o.now }
    {
        match (self, o) {
            (Value::Null, Value::Null) => true,
            (Value::Bool(a), Value::Bool(b)) => *a == *b,
            (Value::Num(a), Value::Num(b)) => a.units() == b.units(),
            (Value::Long(a), Value::Long(b)) => a.as_str() == b.as_str(),
            (Value::Text(a), Value::Text(b)) => a.as_str() == b.as_str(),
            (Value::Tree(a), Value::Tree(b)) => a.same(b),
            _ => false,
        }
    }

    /// Appends the JSON text.
    ///
    /// Errors: where memory runs out, `out` begins with what it held.
    pub fn print_json(&self, out: &mut Bytes) -> Result<(), AllocError>
        ensures ok { OnOk result (out.new ≡ out.old ++ value_text self.now) }
        ensures denotes { OnOk result (AppendsCell out.old out.new self.now) }
        ensures err { OnErr result (Begins out.old out.new) }
    {
        self.print_value(out)
    }

    fn print_value(&self, out: &mut Bytes) -> Result<(), AllocError>
        ensures ok { OnOk result (out.new ≡ out.old ++ value_text self.now) }
        ensures err { OnErr result (Begins out.old out.new) }
    {
        match self {
            Value::Null => out.extend(b"null"),
            Value::Bool(b) => print_bool(*b, out),
            Value::Num(decimal) => decimal.print_into(out),
            Value::Long(numeral) => out.extend(numeral.as_str().as_bytes()),
            Value::Text(text) => print_string(text, out),
            Value::Tree(json) => json.print_into(out),
        }
    }

    /// Appends the plain text: nothing for `Null`, a text as it stands, and all others as in JSON.
    ///
    /// Errors: where memory runs out, `out` begins with what it held.
    pub fn print_plain(&self, out: &mut Bytes) -> Result<(), AllocError>
        ensures ok { OnOk result (out.new ≡ out.old ++ plain_text self.now) }
        ensures err { OnErr result (Begins out.old out.new) }
    {
        match self {
            Value::Null => Ok(()),
            Value::Bool(b) => print_bool(*b, out),
            Value::Num(decimal) => decimal.print_into(out),
            Value::Long(text) | Value::Text(text) => out.extend(text.as_str().as_bytes()),
            Value::Tree(json) => json.print_into(out),
        }
    }
}
