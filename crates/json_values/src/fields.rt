ghost use Rattle.std.specs.Prelude.{◌≡◌, ◌<◌, ◌++◌, ◌∷◌, [], length, IfNone, IfOk, IfSome, OnOk, OnErr, slice_get, slice_set};
ghost use Rattle.std.specs.Option.{option_copied};
ghost use Rattle.json_values.specs.Table.{IsNewName, IsPlaceOf};

use crate::value::Value;
use lists::ItemList;
use std::alloc::{AllocError, Global};
use std::marker::Model;
use text_core::Text;

/// Names and values, in order; no name stands twice.
#[derive(Drop)]
pub struct Fields {
    pub(crate) entries: Vec<(Text, Value)>,
}

impl Model for Fields {
    ghost use Rattle.json_values.specs.Table.{NamedValues};
    ghost use Rattle.std.specs.Coded.{coded×, coded_ℕ, coded_list};
    ghost use Rattle.json_values.specs.contracts.value.Value as cell;

    ghost Value = { NamedValues };

    ghost coded = { coded_list (coded× (coded_list coded_ℕ) cell.the_row.coded) };

    ghost view = { λ f. f.entries.items };

    ghost use Rattle.std.specs.Prelude.{◌<◌, ◌^◌, length, map};
    ghost use Rattle.json_values.specs.Table.{AreDistinctNames};

    ghost invariant = { λ f. (length f.entries.items < 2 ^ 32) × AreDistinctNames (map (λ e. e.0) f.entries.items) };
}

impl Fields {
    ghost use Rattle.json_values.specs.Table.{put_value, named_value};

    /// No fields.
    pub fn new(alloc: Global) -> Fields
        ensures empty { result ≡ [] }
    {
        Fields {
            entries: Vec::new(alloc),
        }
    }

    /// No fields, and room for `capacity` of them.
    pub fn with_capacity(alloc: Global, capacity: u32) -> Result<Fields, AllocError>
        ensures empty { IfOk result (λ f. f ≡ []) }
    {
        Ok(Fields {
            entries: Vec::with_capacity(alloc, capacity as usize)?,
        })
    }

    /// A new name goes last; a name that is there takes its new value in its old place.
    ///
    /// Cost: a search through the fields, one by one.
    pub fn put(&mut self, name: Text, value: Value) -> Result<(), AllocError>
        ensures ok { OnOk result (self.new ≡ put_value self.old name value) }
        ensures err { OnErr result (self.new ≡ self.old) }
    {
        match place_of(&self.entries, name.as_str()) {
            Some(place) => {
                set_field(&mut self.entries, place, (name, value));
                Ok(())
            }
            None => self.push_new(name, value),
        }
    }

    /// A field whose name is new goes last.
    ///
    /// Cost: one step, whatever the number of fields.
    pub fn push_new(&mut self, name: Text, value: Value) -> Result<(), AllocError>
        requires new { IsNewName name self.old }
        ensures ok { OnOk result (self.new ≡ self.old ++ (name, value) ∷ []) }
        ensures err { OnErr result (self.new ≡ self.old) }
    {
        if self.entries.len() >= u32::MAX as usize {
            return Err(AllocError);
        }
        self.entries.push((name, value))?;
        Ok(())
    }

    /// The value with this name; `None` where no field has it.
    ///
    /// Cost: a search through the fields, one by one.
    pub fn get(&self, name: &str) -> Option<&Value>
        ensures found { option_copied result ≡ named_value name.now self.now }
    {
        match place_of(&self.entries, name) {
            Some(place) => Some(&self.entries[place].1),
            None => None,
        }
    }

    /// How many fields there are.
    pub fn len(&self) -> u32
        ensures count { result ≡ length self.now }
    {
        self.entries.len() as u32
    }
}

// Where the name stands in the fields.
fn place_of(fields: &[(Text, Value)], name: &str) -> Option<usize>
    ensures none { IfNone result (IsNewName name.now fields.now) }
    ensures some { IfSome result (IsPlaceOf name.now fields.now) }
{
    for i in 0..fields.len() {
        let field = &fields[i];
        if name == field.0.as_str() {
            return Some(i);
        }
    }
    None
}

fn set_field(fields: &mut Vec<(Text, Value)>, place: usize, field: (Text, Value))
    requires within { place < length fields.old.items }
    ensures exact { fields.new.items ≡ slice_set fields.old.items place field }
{
    fields[place] = field;
}

/// A list of fields; counted from 0.
pub type FieldsList = ItemList<Fields>;
