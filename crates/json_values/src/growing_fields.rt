ghost use Rattle.std.specs.Prelude.{◌≡◌, ◌++◌, ◌∷◌, [], false, map, OnOk, OnErr, IfOk};
ghost use Rattle.std.specs.List.{list_any};
ghost use Rattle.std.specs.Str.{bytes_eq};
ghost use Rattle.std.specs.String.{string_bytes};
ghost use Rattle.json_values.specs.Seen.{json_value};
ghost use Rattle.json_values.specs.Json.{no_fields};
ghost use Rattle.json_values.specs.Lists.{fields_list, field_names, put};
ghost use Rattle.json_values.specs.Putting.{IsIndex};

use crate::json::{Json, JsonFields};
use crate::table::add_name;
use indexmap::IndexSet;
use std::alloc::{AllocError, Global};
use std::marker::Model;
use text_core::Text;

/// The greatest number of fields that are searched one by one; more of them get an index of their names.
const FEW_FIELDS: u32 = 16;

/// The fields of an object that is being read, with an index of their names where they are many.
#[derive(Drop)]
pub struct GrowingFields {
    fields: JsonFields,
    names: IndexSet<String>,
    alloc: Global,
}

impl Model for GrowingFields {
    ghost use Rattle.json_values.specs.Json.{FieldList};
    ghost use Rattle.json_values.specs.Code.{fields_code};

    ghost Value = { FieldList };

    ghost coded = { fields_code };

    ghost view = { λ g. g.fields };

    ghost use Rattle.std.specs.Prelude.{map};
    ghost use Rattle.std.specs.String.{string_bytes};
    ghost use Rattle.json_values.specs.Putting.{IsIndex};

    ghost invariant = { λ g. IsIndex (map string_bytes g.names.keys) g.fields };
}

impl GrowingFields {
    pub fn new(alloc: Global) -> GrowingFields
        ensures exact { result ≡ no_fields }
    {
        GrowingFields {
            fields: JsonFields::new(alloc),
            names: IndexSet::new(alloc),
            alloc,
        }
    }

    /// A new name goes last; a name that is there takes its new value in its old place.
    pub fn put(&mut self, name: Text, value: Json) -> Result<(), AllocError>
        ensures ok { OnOk result (fields_list self.new ≡ put (fields_list self.old) name (json_value value)) }
    {
        if self.names.is_empty() && self.fields.len() < FEW_FIELDS {
            return self.fields.put(name, value);
        }
        fill_index(self.alloc, &mut self.names, &self.fields)?;
        put_indexed(self.alloc, &mut self.names, &mut self.fields, name, value)
    }

    pub fn finish(self) -> JsonFields
        ensures exact { result ≡ self }
    {
        let GrowingFields {
            fields,
            names: _,
            alloc: _,
        } = self;
        fields
    }
}

// Makes an index that is empty one of all the fields.
fn fill_index(
    alloc: Global,
    names: &mut IndexSet<String>,
    fields: &JsonFields,
) -> Result<(), AllocError>
    requires index { IsIndex (map string_bytes names.old.keys) fields.now }
    ensures ok { OnOk result (map string_bytes names.new.keys ≡ field_names fields.now) }
    ensures err { OnErr result (map string_bytes names.new.keys ≡ map string_bytes names.old.keys) }
{
    if names.is_empty() {
        *names = index_of(alloc, fields)?;
    }
    Ok(())
}

fn index_of(alloc: Global, fields: &JsonFields) -> Result<IndexSet<String>, AllocError>
    ensures exact { IfOk result (λ names. map string_bytes names.keys ≡ field_names fields.now) }
{
    let mut names = IndexSet::new(alloc);
    for i in 0..fields.fields.len() {
        let field = &fields.fields[i];
        add_name(alloc, &mut names, field.0.as_str())?;
    }
    Ok(names)
}

fn put_indexed(
    alloc: Global,
    names: &mut IndexSet<String>,
    fields: &mut JsonFields,
    name: Text,
    value: Json,
) -> Result<(), AllocError>
    requires index { map string_bytes names.old.keys ≡ field_names fields.old }
    ensures put { OnOk result (fields_list fields.new ≡ put (fields_list fields.old) name (json_value value)) }
    ensures index { IsIndex (map string_bytes names.new.keys) fields.new }
{
    match names.get_index_of(name.as_str()) {
        Some(place) => {
            fields.set(place, name, value);
            Ok(())
        }
        None => push_indexed(alloc, names, fields, name, value),
    }
}

// Puts a new name last. Where memory runs out the index is given up.
fn push_indexed(
    alloc: Global,
    names: &mut IndexSet<String>,
    fields: &mut JsonFields,
    name: Text,
    value: Json,
) -> Result<(), AllocError>
    requires index { map string_bytes names.old.keys ≡ field_names fields.old }
    requires new { list_any (bytes_eq name) (field_names fields.old) ≡ false }
    ensures put { OnOk result (fields_list fields.new ≡ put (fields_list fields.old) name (json_value value)) }
    ensures index { IsIndex (map string_bytes names.new.keys) fields.new }
{
    match names.insert(String::from_str(alloc, name.as_str())?) {
        Ok(_) => push_named(names, fields, name, value),
        Err(_) => Err(AllocError),
    }
}

// Puts a field last whose name stands last in the index.
fn push_named(
    names: &mut IndexSet<String>,
    fields: &mut JsonFields,
    name: Text,
    value: Json,
) -> Result<(), AllocError>
    requires index { map string_bytes names.old.keys ≡ field_names fields.old ++ name ∷ [] }
    requires new { list_any (bytes_eq name) (field_names fields.old) ≡ false }
    ensures put { OnOk result (fields_list fields.new ≡ put (fields_list fields.old) name (json_value value)) }
    ensures index { IsIndex (map string_bytes names.new.keys) fields.new }
{
    match fields.push_last(name, value) {
        Ok(()) => Ok(()),
        Err(error) => {
            names.clear();
            Err(error)
        }
    }
}
