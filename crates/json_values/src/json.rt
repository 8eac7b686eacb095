ghost use Rattle.std.specs.Prelude.{◌≡◌, ◌++◌, ◌∷◌, [], List, IfNone, IfOk, IfSome, None, OnErr, OnOk, ◌<◌, length, map, slice_get, slice_set};
ghost use Rattle.std.specs.Option.{option_copied, option_map};
ghost use Rattle.json_values.specs.Seen.{members_seen};
ghost use Rattle.json_values.specs.Putting.{PutsLast, PutsAt, HasValueAt};
ghost use Rattle.json_values.specs.Lists.{value_named};

use std::alloc::{AllocError, Global};
use std::marker::Model;
use text_core::Text;

/// A JSON value. A number keeps its text.
#[derive(Drop)]
#[cycle(json)]
pub enum Json {
    Null,
    Bool(bool),
    Num(Text),
    Text(Text),
    List(JsonList),
    Object(JsonFields),
}

/// The items of an array, in order.
#[derive(Drop)]
#[cycle(json)]
pub struct JsonList {
    pub(crate) items: Vec<Json>,
}

impl Model for JsonList {
    ghost use Rattle.json_values.specs.Json.{ItemList, items_depth};
    ghost use Rattle.json_values.specs.Code.{items_code};

    ghost Value = { ItemList };

    ghost coded = { items_code };

    ghost use Rattle.json_values.specs.Seen.{items_seen};

    ghost view = { λ l. items_seen l.items.items };

    ghost use Rattle.std.specs.Prelude.{◌<◌, ◌^◌, length};

    ghost invariant = { λ l. length l.items.items < 2 ^ 32 };

    ghost size = { items_depth };

    ghost use Rattle.std.proofs.Common.{arith};
    ghost use Rattle.json_values.specs.Falls.{items_fall};

    ghost size_decreases = { λ a h. Prim.omega (arith, items_fall a.items.items) };
}

/// The fields of an object, in order, with distinct names.
#[derive(Drop)]
#[cycle(json)]
pub struct JsonFields {
    pub(crate) fields: Vec<(Text, Json)>,
}

impl Model for JsonFields {
    ghost use Rattle.json_values.specs.Json.{FieldList, fields_depth};
    ghost use Rattle.json_values.specs.Code.{fields_code};

    ghost Value = { FieldList };

    ghost coded = { fields_code };

    ghost use Rattle.json_values.specs.Seen.{fields_seen};

    ghost view = { λ l. fields_seen l.fields.items };

    ghost use Rattle.std.specs.Prelude.{◌<◌, ◌^◌, length};
    ghost use Rattle.json_values.specs.Lists.{HaveDistinctNames};
    ghost use Rattle.json_values.specs.Seen.{members_seen};

    ghost invariant = { λ l. (length l.fields.items < 2 ^ 32) × HaveDistinctNames (members_seen l.fields.items) };

    ghost size = { fields_depth };

    ghost use Rattle.std.proofs.Common.{arith};
    ghost use Rattle.json_values.specs.Falls.{fields_fall};

    ghost size_decreases = { λ a h. Prim.omega (arith, fields_fall a.fields.items) };
}

impl JsonList {
    ghost use Rattle.json_values.specs.Seen.{json_value};
    ghost use Rattle.json_values.specs.Json.{no_items};
    ghost use Rattle.json_values.specs.Lists.{items_list};

    /// No items.
    pub fn new(alloc: Global) -> Self
        ensures exact { result ≡ no_items }
    {
        JsonList {
            items: Vec::new(alloc),
        }
    }

    /// No items, and room for `capacity` of them.
    pub fn with_capacity(alloc: Global, capacity: usize) -> Result<Self, AllocError>
        ensures exact { IfOk result (λ l. l ≡ no_items) }
    {
        Ok(JsonList {
            items: Vec::with_capacity(alloc, capacity)?,
        })
    }

    /// Adds an item at the end. Fails for want of memory, and where there are `u32::MAX` of them.
    pub fn push(&mut self, item: Json) -> Result<(), AllocError>
        ensures ok { OnOk result (items_list self.new ≡ items_list self.old ++ json_value item ∷ []) }
        ensures err { OnErr result (self.new ≡ self.old) }
    {
        if self.items.len() >= u32::MAX as usize {
            return Err(AllocError);
        }
        self.items.push(item)?;
        Ok(())
    }

    /// How many items there are.
    pub fn len(&self) -> u32
        ensures count { result ≡ length (items_list self.now) }
    {
        self.items.len() as u32
    }

    /// The item with this number, counted from 0; `None` past the end.
    pub fn get(&self, i: u32) -> Option<&Json>
        ensures lookup { option_map json_value (option_copied result) ≡ slice_get (items_list self.now) i }
    {
        self.items.get(i as usize)
    }

    /// All items, in order.
    pub fn as_slice(&self) -> &[Json]
        ensures all { map json_value result.now ≡ items_list self.now }
    {
        &self.items
    }
}

impl JsonFields {
    ghost use Rattle.json_values.specs.Seen.{json_value};
    ghost use Rattle.json_values.specs.Json.{no_fields};
    ghost use Rattle.json_values.specs.Lists.{fields_list, put, value_named, HaveDistinctNames};

    /// No fields.
    pub fn new(alloc: Global) -> Self
        ensures exact { result ≡ no_fields }
    {
        JsonFields {
            fields: Vec::new(alloc),
        }
    }

    /// A new name goes last; a name that is there takes its new value in its old place.
    pub(crate) fn put(&mut self, name: Text, value: Json) -> Result<(), AllocError>
        ensures ok { OnOk result (fields_list self.new ≡ put (fields_list self.old) name (json_value value)) }
    {
        match place_of(&self.fields, name.as_str()) {
            Some(place) => {
                self.set(place, name, value);
                Ok(())
            }
            None => self.push_last(name, value),
        }
    }

    /// A field whose name is new goes last.
    pub(crate) fn push_last(&mut self, name: Text, value: Json) -> Result<(), AllocError>
        requires last { PutsLast (fields_list self.old) name }
        ensures ok { OnOk result (fields_list self.new ≡ put (fields_list self.old) name (json_value value)) }
        ensures err { OnErr result (self.new ≡ self.old) }
    {
        if self.fields.len() >= u32::MAX as usize {
            return Err(AllocError);
        }
        self.fields.push((name, value))?;
        Ok(())
    }

    /// A field whose name stands at this place takes the value.
    pub(crate) fn set(&mut self, place: usize, name: Text, value: Json)
        requires there { PutsAt (fields_list self.old) name place }
        ensures exact { fields_list self.new ≡ put (fields_list self.old) name (json_value value) }
    {
        set_field(&mut self.fields, place, (name, value));
    }

    /// How many fields there are; no name stands twice.
    pub fn len(&self) -> u32
        ensures count { result ≡ length (fields_list self.now) }
        ensures distinct { HaveDistinctNames (fields_list self.now) }
    {
        self.fields.len() as u32
    }

    /// The name of the field with this number, counted from 0; `None` past the end.
    pub fn name_at(&self, i: u32) -> Option<&str>
        ensures lookup { option_copied result ≡ option_map (λ f. f.0) (slice_get (fields_list self.now) i) }
    {
        match self.fields.get(i as usize) {
            Some(field) => Some(field.0.as_str()),
            None => None,
        }
    }

    /// The value of the field with this number, counted from 0; `None` past the end.
    pub fn at(&self, i: u32) -> Option<&Json>
        ensures lookup { option_map json_value (option_copied result) ≡ option_map (λ f. f.1) (slice_get (fields_list self.now) i) }
    {
        match self.fields.get(i as usize) {
            Some(field) => Some(&field.1),
            None => None,
        }
    }

    /// The value of the field with this name; `None` where none has it.
    pub fn find(&self, name: &str) -> Option<&Json>
        ensures found { option_map json_value (option_copied result) ≡ value_named name.now (fields_list self.now) }
    {
        match place_of(&self.fields, name) {
            Some(place) => Some(&self.fields[place].1),
            None => None,
        }
    }
}

// Where the name stands in the fields.
fn place_of(fields: &[(Text, Json)], name: &str) -> Option<usize>
    ensures none { IfNone result (PutsLast (members_seen fields.now) name.now) }
    ensures some { IfSome result (λ i. PutsAt (members_seen fields.now) name.now i) }
    ensures absent { IfNone result (value_named name.now (members_seen fields.now) ≡ None) }
    ensures present { IfSome result (λ i. HasValueAt fields.now name.now i) }
{
    for i in 0..fields.len() {
        let field = &fields[i];
        if field.0.as_str() == name {
            return Some(i);
        }
    }
    None
}

fn set_field(fields: &mut Vec<(Text, Json)>, place: usize, field: (Text, Json))
    requires within { place < length fields.old.items }
    ensures exact { fields.new.items ≡ slice_set fields.old.items place field }
{
    fields[place] = field;
}
