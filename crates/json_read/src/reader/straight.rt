ghost use Rattle.std.specs.Prelude.{◌≡◌, ◌<◌, List, ℕ, true, false, IfOk, IfSome};
ghost use Rattle.json_values.specs.Json.{JsonValue, null, string};
ghost use Rattle.json_read.specs.Machine.{value, after, next_name};
ghost use Rattle.json_read.specs.Reading.{NameText, NumberBegins, NumeralOf, Passes};
ghost use Rattle.json_read.specs.Taking.{TakesOne, HasTakenArray, HasValue};
ghost use Rattle.json_read.specs.Straight.{HasRead, HasTakenMember, HasTakenMembers, BeginsWithPair, EndsSoon, IsGridNumber, IsTakenArray, IsTakenObject, PutsOne};

use crate::reader::{Reader, Stop, numeral_text};
use json_values::Json;
use numerals::{front_to_grid, numeral_to_grid};
use std::alloc::{AllocError, Global};
use text_core::Text;

/// What takes the items of an array one after another, and reads each of them itself.
///
/// `took` says of its state at first and its state now that it has taken these values in between, in order.
pub trait ValueTaker {
    ghost took: { Self → Self → List JsonValue → Type 0 };

    /// Reads the next item, with white space around it, and takes it.
    ///
    /// `false` where it isn't read so; nothing is said then of what was taken, or of what is left to read.
    fn take_value(&mut self, reader: &mut Reader<'_>, depth: u32) -> Result<bool, AllocError>
        ensures read { IfOk result (λ is_taken. is_taken ≡ true → (first : Self) → HasRead depth (TakesOne (took first self.old) (took first self.new)) reader.old reader.new) };
}

/// What takes the members of an object one after another, and reads the value of each itself.
///
/// `took` says of its state at first and its state now that it has taken members in between that make these fields.
pub trait MemberTaker {
    ghost took: { Self → Self → List (List ℕ × JsonValue) → Type 0 };

    /// Reads the value of the next member, with white space around it, and takes it.
    ///
    /// `false` where it isn't read so; nothing is said then of what was taken, or of what is left to read.
    fn take_member(
        &mut self,
        name: &str,
        reader: &mut Reader<'_>,
        depth: u32,
    ) -> Result<bool, AllocError>
        ensures read { IfOk result (λ is_taken. is_taken ≡ true → (first : Self) → HasRead depth (PutsOne (took first self.old) (took first self.new) name.now) reader.old reader.new) };
}

// Parts of a text that others read, each with white space around it. Where a part is none, nothing is said of what is
// left.
impl<'a> Reader<'a> {
    /// What has memory for parts that are read.
    pub fn alloc(&self) -> Global {
        self.alloc
    }

    /// Any value, with at most `depth` arrays and objects in one another; `None` where there is a fault.
    ///
    /// Source: RFC 8259, as for `Json::parse`.
    pub fn any_value(&mut self, depth: u32) -> Result<Option<Json>, AllocError>
        ensures read { IfOk result (λ found. IfSome found (λ json. HasValue depth json self.old.rest.now self.new.rest.now)) }
    {
        match self.padded(depth) {
            Ok(json) => Ok(Some(json)),
            Err(Stop::Memory) => Err(AllocError),
            Err(Stop::Fault(_)) => Ok(None),
        }
    }

    /// Whether `null` was read; where it is none, nothing was.
    pub fn null(&mut self) -> bool
        ensures taken { result ≡ true → (d : ℕ) → HasRead d (λ v. v ≡ null) self.old self.new }
        ensures stays { result ≡ false → self.new.rest.now ≡ self.old.rest.now }
    {
        let start = self.rest;
        self.skip_white();
        let Ok(()) = self.word(b"null") else {
            self.rest = start;
            return false;
        };
        self.skip_white();
        true
    }

    /// A string of ASCII without escapes.
    pub fn plain_text(&mut self) -> Option<&'a str>
        ensures read { IfSome result (λ text. (d : ℕ) → HasRead d (λ v. v ≡ string text.now) self.old self.new) }
    {
        self.skip_white();
        if !self.take(b'"') {
            return None;
        }
        let text = self.ascii_string()?;
        self.skip_white();
        Some(text)
    }

    /// The grid numbers of an array of two numbers, or of the first two of three.
    ///
    /// Shape and units: as for `numeral_to_grid`.
    pub fn pair(&mut self, depth: u32, places: u8) -> Option<(i64, i64)>
        ensures read { IfSome result (λ p. HasRead depth (BeginsWithPair places p.0 p.1) self.old self.new) }
    {
        self.skip_white();
        if depth == 0 || !self.take(b'[') {
            return None;
        }
        self.skip_white();
        if self.take(b']') {
            return None;
        }
        let x = self.grid_number(places)?;
        if !self.take(b',') {
            return None;
        }
        let y = self.grid_number(places)?;
        if !self.ends_soon(places) {
            return None;
        }
        self.skip_white();
        Some((x, y))
    }

    // Whether the end of an array was read, at once or after one more number.
    fn ends_soon(&mut self, places: u8) -> bool
        ensures ended { result ≡ true → (d : ℕ) → EndsSoon d self.old.rest.now self.new.rest.now }
    {
        if self.take(b']') {
            return true;
        }
        if !self.take(b',') {
            return false;
        }
        let Some(_height) = self.grid_number(places) else {
            return false;
        };
        self.take(b']')
    }

    fn grid_number(&mut self, places: u8) -> Option<i64>
        ensures read { IfSome result (λ g. (d : ℕ) → HasRead d (IsGridNumber places g) self.old self.new) }
    {
        let start = self.rest;
        self.skip_white();
        let Some((number, size)) = front_to_grid(self.rest, places) else {
            self.rest = start;
            return self.any_grid_number(places);
        };
        let (_, past) = self.rest.split_at(size);
        self.rest = past;
        self.skip_white();
        Some(number)
    }

    // The same of any numeral.
    fn any_grid_number(&mut self, places: u8) -> Option<i64>
        ensures read { IfSome result (λ g. (d : ℕ) → HasRead d (IsGridNumber places g) self.old self.new) }
    {
        self.skip_white();
        let text = self.numeral()?;
        self.skip_white();
        let number = numeral_to_grid(text, places)?;
        Some(number)
    }

    // The text of a number.
    fn numeral(&mut self) -> Option<&'a str>
        ensures read { IfSome result (λ text. Passes (NumeralOf text.now) value after self.old.rest.now self.new.rest.now) }
    {
        let Some(first) = self.peek() else {
            return None;
        };
        match first {
            b'-' | b'0'..=b'9' => self.begun_numeral(),
            _ => None,
        }
    }

    fn begun_numeral(&mut self) -> Option<&'a str>
        requires begins { NumberBegins self.old.rest.now }
        ensures read { IfSome result (λ text. Passes (NumeralOf text.now) value after self.old.rest.now self.new.rest.now) }
    {
        let start = self.rest;
        self.minus();
        let Ok(()) = self.whole() else {
            return None;
        };
        let Ok(()) = self.fraction() else {
            return None;
        };
        let Ok(()) = self.exponent() else {
            return None;
        };
        let text = &start[..start.len() - self.rest.len()];
        Some(numeral_text(text))
    }

    /// An array of one item or more, whose items the taker reads and takes; `false` where it is none.
    pub fn items_by<T: ValueTaker>(&mut self, depth: u32, taker: &mut T) -> Result<bool, AllocError>
        ensures read { IfOk result (λ is_taken. is_taken ≡ true → (first : T) → HasRead depth (IsTakenArray (T.took first taker.old) (T.took first taker.new)) self.old self.new) }
    {
        self.skip_white();
        if depth == 0 || !self.take(b'[') {
            return Ok(false);
        }
        let is_taken = self.some_items_by(depth - 1, taker)?;
        self.skip_white();
        Ok(is_taken)
    }

    // The items of an array, after its bracket.
    fn some_items_by<T: ValueTaker>(
        &mut self,
        depth: u32,
        taker: &mut T,
    ) -> Result<bool, AllocError>
        ensures exact { IfOk result (λ is_taken. is_taken ≡ true → (first : T) → HasTakenArray depth (T.took first taker.old) (T.took first taker.new) self.old.rest.now self.new.rest.now) }
    {
        self.skip_white();
        if self.take(b']') {
            return Ok(false);
        }
        loop {
            if !taker.take_value(self, depth)? {
                return Ok(false);
            }
            if self.take(b']') {
                return Ok(true);
            }
            if !self.take(b',') {
                return Ok(false);
            }
        }
    }

    /// An object, whose members the taker reads and takes; `false` where it is none.
    pub fn members_by<T: MemberTaker>(
        &mut self,
        depth: u32,
        taker: &mut T,
    ) -> Result<bool, AllocError>
        ensures read { IfOk result (λ is_taken. is_taken ≡ true → (first : T) → HasRead depth (IsTakenObject (T.took first taker.old) (T.took first taker.new)) self.old self.new) }
    {
        self.skip_white();
        if depth == 0 || !self.take(b'{') {
            return Ok(false);
        }
        let is_taken = self.some_members_by(depth - 1, taker)?;
        self.skip_white();
        Ok(is_taken)
    }

    // The members of an object, after its brace.
    fn some_members_by<T: MemberTaker>(
        &mut self,
        depth: u32,
        taker: &mut T,
    ) -> Result<bool, AllocError>
        ensures exact { IfOk result (λ is_taken. is_taken ≡ true → (first : T) → HasTakenMembers depth (T.took first taker.old) (T.took first taker.new) self.old.rest.now self.new.rest.now) }
    {
        self.skip_white();
        if self.take(b'}') {
            return Ok(true);
        }
        loop {
            if !self.member_by(depth, taker)? {
                return Ok(false);
            }
            if self.take(b'}') {
                return Ok(true);
            }
            if !self.take(b',') {
                return Ok(false);
            }
        }
    }

    // The next member of an object.
    fn member_by<T: MemberTaker>(&mut self, depth: u32, taker: &mut T) -> Result<bool, AllocError>
        ensures exact { IfOk result (λ is_taken. is_taken ≡ true → (first : T) → HasTakenMember depth (T.took first taker.old) (T.took first taker.new) self.old.rest.now self.new.rest.now) }
    {
        let Some(name) = self.any_name()? else {
            return Ok(false);
        };
        taker.take_member(name.as_str(), self, depth)
    }

    // A name and its colon; `None` where there is a fault.
    fn any_name(&mut self) -> Result<Option<Text>, AllocError>
        ensures read { IfOk result (λ found. IfSome found (λ name. Passes (NameText name) next_name value self.old.rest.now self.new.rest.now)) }
    {
        match self.name() {
            Ok(name) => Ok(Some(name)),
            Err(Stop::Memory) => Err(AllocError),
            Err(Stop::Fault(_)) => Ok(None),
        }
    }
}
