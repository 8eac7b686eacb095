ghost use Rattle.std.specs.Prelude.{◌≡◌, ◌++◌, IfOk, OnOk, length, map};
ghost use Rattle.geojson_io.specs.Texts.{key_text, member_text, properties_text};

use crate::writing::geometries::write_comma;
use json_values::{Row, Value, print_string};
use std::alloc::{AllocError, Global};
use text_core::{Bytes, Text};

// The name of a column as it stands before each of its values.
fn key_of(alloc: Global, name: &Text) -> Result<Bytes, AllocError>
    ensures exact { IfOk result (λ key. key ≡ key_text name.now) }
{
    let mut key = Bytes::new(alloc);
    print_string(name, &mut key)?;
    key.push(b':')?;
    Ok(key)
}

/// The names of the columns as they stand before their values.
pub fn keys_of(alloc: Global, names: &[Text]) -> Result<Vec<Bytes>, AllocError>
    ensures exact { IfOk result (λ keys. keys.items ≡ map key_text names.now) }
{
    let mut keys = Vec::new(alloc);
    for name in names {
        keys.push(key_of(alloc, name)?)?;
    }
    Ok(keys)
}

fn write_member(key: &Bytes, value: &Value, out: &mut Bytes) -> Result<(), AllocError>
    ensures written { OnOk result (out.new ≡ out.old ++ member_text (key.now, value.now)) }
{
    out.extend(key.as_slice())?;
    value.print_json(out)
}

/// The object of all columns; null where there is none.
pub fn write_properties(keys: &[Bytes], row: &Row, out: &mut Bytes) -> Result<(), AllocError>
    requires { length keys.now ≡ length row.now }
    ensures written { OnOk result (out.new ≡ out.old ++ properties_text keys.now row.now) }
{
    if keys.len() == 0 {
        return out.extend(b"null");
    }
    out.push(b'{')?;
    let values = row.as_slice();
    for (i, key) in keys.iter().enumerate() {
        write_comma(i, out)?;
        write_member(key, &values[i], out)?;
    }
    out.push(b'}')
}
