ghost use Rattle.std.specs.Prelude.{◌≡◌, ◌<◌, true, false, List, IfOk, IfNone, IfSome, IfErr, MatchResult, OnOk};
ghost use Rattle.std.specs.Str.{bytes_eq};
ghost use Rattle.numerals.specs.Bytes.{is_white};
ghost use Rattle.json_values.specs.Json.{JsonValue, no_fields};
ghost use Rattle.json_values.specs.Seen.{json_value};
ghost use Rattle.json_read.specs.Faults.{FaultFits};
ghost use Rattle.json_read.specs.Taking.{TakesOne, TakesArray, TakesValue, TakesMember, TakesMembers, TakesObject, TakesText, HasOtherMember, IsNoFirstArray, IsReadOtherwise, IsTakenText};
ghost use Rattle.json_read.specs.Straight.{HasRead, TakesItem};

use crate::fault::JsonFault;
use crate::parsing::fault_at;
use crate::reader::{Fault, MAX_DEPTH, Reader, Stop};
use json_values::{GrowingFields, Json, JsonFields};
use std::alloc::{AllocError, Global};
use text_core::Text;

/// What takes the items of an array one after another, as they are read.
///
/// `took` says of its state at first and its state now that it has taken these values in between, in order.
pub trait ItemTaker {
    ghost took: { Self → Self → List JsonValue → Type 0 };

    /// Reads the next item, with white space around it, and takes it, as `take_item` would.
    ///
    /// `false` where it isn't read so, and then nothing was taken; nothing is said of what is left to read.
    fn take_text(&mut self, reader: &mut Reader<'_>, depth: u32) -> Result<bool, AllocError>
        ensures taken { IfOk result (λ is_taken. is_taken ≡ true → (first : Self) → HasRead depth (TakesOne (took first self.old) (took first self.new)) reader.old reader.new) }
        ensures kept { IfOk result (λ is_taken. is_taken ≡ false → self.new ≡ self.old) };

    /// Takes the next item.
    fn take_item(&mut self, item: Json) -> Result<(), AllocError>
        ensures taken { OnOk result ((first : Self) → TakesOne (took first self.old) (took first self.new) (json_value item)) };
}

/// The fields of an object, but for an array that was taken item by item.
#[derive(Drop)]
pub struct TakenObject {
    /// All fields where no array was taken, else all others.
    pub fields: JsonFields,
    pub is_taken: bool,
}

// The same of an object that is being read.
#[derive(Drop)]
struct Taking {
    fields: GrowingFields,
    is_taken: bool,
}

/// Reads an object, and hands the items of the array in its field `name` to `taker`, each as soon as it is read.
///
/// `None` where the bytes aren't read so: they begin no object, or one whose field `name` is no array or stands twice.
/// What follows is left unread then, so that the text may be accepted or not.
/// Errors: as `parse`; the taker may have taken items then, as it may where the answer is `None`.
/// Source: RFC 8259, as for `parse`.
pub fn parse_taking<T: ItemTaker>(
    alloc: Global,
    bytes: &[u8],
    name: &str,
    taker: &mut T,
) -> Result<Option<TakenObject>, JsonFault>
    ensures ok { IfOk result (λ found. (first : T) → IfSome found (λ object. IsTakenText 64 (T.took first taker.old) (T.took first taker.new) name.now object.fields object.is_taken bytes.now)) }
    ensures other { IfOk result (λ found. IfNone found (IsReadOtherwise 64 name.now bytes.now)) }
    ensures fault { IfErr result (FaultFits 64 bytes.now) }
{
    let mut reader = Reader::new(alloc, bytes);
    match reader.text_taking(name, taker) {
        Ok(found) => Ok(found),
        Err(Stop::Memory) => Err(JsonFault::Memory),
        Err(Stop::Fault(fault)) => Err(fault_at(fault, bytes.len() - reader.left())),
    }
}

impl<'a> Reader<'a> {
    // A whole text with an object, of which the items of the array with this name are taken.
    fn text_taking<T: ItemTaker>(
        &mut self,
        wanted: &str,
        taker: &mut T,
    ) -> Result<Option<TakenObject>, Stop>
        ensures taken { (first : T) → TakesText MAX_DEPTH (T.took first taker.old) (T.took first taker.new) wanted.now result self.old.rest.now self.new.rest.now }
        ensures other { IfOk result (λ found. IfNone found (IsReadOtherwise MAX_DEPTH wanted.now self.old.rest.now)) }
    {
        self.mark()?;
        self.skip_white();
        if !self.take(b'{') {
            return Ok(None);
        }
        let Some(object) = self.object_taking(MAX_DEPTH - 1, wanted, taker)? else {
            return Ok(None);
        };
        self.skip_white();
        if self.rest.is_empty() {
            Ok(Some(object))
        } else {
            Err(Stop::Fault(Fault::Syntax))
        }
    }

    // An object, after its brace, of which the items of the array with this name are taken.
    fn object_taking<T: ItemTaker>(
        &mut self,
        depth: u32,
        wanted: &str,
        taker: &mut T,
    ) -> Result<Option<TakenObject>, Stop>
        requires room { 0 < depth }
        ensures taken { (first : T) → TakesObject depth (T.took first taker.old) (T.took first taker.new) wanted.now result self.old.rest.now self.new.rest.now }
        ensures other { IfOk result (λ found. IfNone found (HasOtherMember depth wanted.now self.old.rest.now)) }
    {
        let mut taking = Taking {
            fields: GrowingFields::new(self.alloc),
            is_taken: false,
        };
        if self.members_taking(depth, wanted, taker, &mut taking)? {
            Ok(Some(taking.finish()))
        } else {
            Ok(None)
        }
    }

    // The members of an object, after its brace; false where the text isn't read item by item.
    fn members_taking<T: ItemTaker>(
        &mut self,
        depth: u32,
        wanted: &str,
        taker: &mut T,
        taking: &mut Taking,
    ) -> Result<bool, Stop>
        requires some { 0 < depth }
        requires no_fields { taking.old.fields ≡ no_fields }
        requires none_taken { taking.old.is_taken ≡ false }
        ensures taken { (first : T) → TakesMembers depth (T.took first taker.old) (T.took first taker.new) wanted.now taking.new result self.old.rest.now self.new.rest.now }
        ensures other { IfOk result (λ is_read. is_read ≡ false → HasOtherMember depth wanted.now self.old.rest.now) }
    {
        self.skip_white();
        if self.take(b'}') {
            return Ok(true);
        }
        loop {
            let name = self.name()?;
            if !self.member_taking(depth, name, wanted, taker, taking)? {
                return Ok(false);
            }
            if self.take(b'}') {
                return Ok(true);
            }
            self.expect(b',')?;
        }
    }

    // The value of the member `name`, with white space around it; false where the text isn't read item by item.
    fn member_taking<T: ItemTaker>(
        &mut self,
        depth: u32,
        name: Text,
        wanted: &str,
        taker: &mut T,
        taking: &mut Taking,
    ) -> Result<bool, Stop>
        requires room { 0 < depth }
        ensures taken { (first : T) → TakesMember depth (T.took first taker.old) (T.took first taker.new) wanted.now name taking.old taking.new result self.old.rest.now self.new.rest.now }
        ensures other { IfOk result (λ is_read. is_read ≡ false → (bytes_eq name wanted.now ≡ true) × IsNoFirstArray taking.old self.old.rest.now) }
    {
        if name.as_str() == wanted {
            return self.array_taking(depth, taker, taking);
        }
        let value = self.padded(depth)?;
        taking.fields.put(name, value)?;
        Ok(true)
    }

    // The array of which the items are taken, with white space around it; false where it is none, or the second one.
    fn array_taking<T: ItemTaker>(
        &mut self,
        depth: u32,
        taker: &mut T,
        taking: &mut Taking,
    ) -> Result<bool, Stop>
        requires room { 0 < depth }
        ensures taken { (first : T) → TakesValue depth (T.took first taker.old) (T.took first taker.new) taking.old taking.new result self.old.rest.now self.new.rest.now }
        ensures other { IfOk result (λ is_read. is_read ≡ false → IsNoFirstArray taking.old self.old.rest.now) }
    {
        if taking.is_taken {
            return Ok(false);
        }
        self.skip_white();
        if !self.take(b'[') {
            return Ok(false);
        }
        self.items_taking(depth - 1, taker)?;
        self.skip_white();
        taking.is_taken = true;
        Ok(true)
    }

    // The items of an array, after its bracket.
    fn items_taking<T: ItemTaker>(&mut self, depth: u32, taker: &mut T) -> Result<(), Stop>
        ensures read { (first : T) → TakesArray depth (T.took first taker.old) (T.took first taker.new) result self.old.rest.now self.new.rest.now }
    {
        self.skip_white();
        if self.take(b']') {
            return Ok(());
        }
        loop {
            self.item_taking(depth, taker)?;
            if self.take(b']') {
                return Ok(());
            }
            self.expect(b',')?;
        }
    }

    // The next item, with white space around it.
    fn item_taking<T: ItemTaker>(&mut self, depth: u32, taker: &mut T) -> Result<(), Stop>
        ensures read { (first : T) → TakesItem depth (T.took first taker.old) (T.took first taker.new) result self.old.rest.now self.new.rest.now }
    {
        let start = self.rest;
        if taker.take_text(self, depth)? {
            return Ok(());
        }
        self.rest = start;
        let item = self.padded(depth)?;
        taker.take_item(item)?;
        Ok(())
    }
}

impl Taking {
    fn finish(self) -> TakenObject
        ensures same { (result.fields ≡ self.fields) × (result.is_taken ≡ self.is_taken) }
    {
        TakenObject {
            fields: self.fields.finish(),
            is_taken: self.is_taken,
        }
    }
}
