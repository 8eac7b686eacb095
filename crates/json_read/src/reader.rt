ghost use Rattle.std.specs.Prelude.{◌≡◌, ◌++◌, ◌∷◌, ◌<◌, ◌≤◌, IfSome, IfNone, [], List, ℕ, suc, true, false, length, MatchOption, MatchResult, OnOk, OnErr, IfOk, IfErr, IsTrue, if◌then◌else◌};
ghost use Rattle.std.specs.String.{string_bytes};
ghost use Rattle.std.specs.List.{prefix_len};
ghost use Rattle.numerals.specs.Bytes.{is_white, is_digit, is_hex, is_exponent_letter, NextFails, drop_while};
ghost use Rattle.json_values.specs.Json.{no_fields};
ghost use Rattle.json_values.specs.Grammar.{short_escape, Mark, is_high, is_low, mended as mended_char, pair as pair_char};
ghost use Rattle.numerals.specs.Numbers.{Minus, Whole, Fraction, Exponent, Number, Sign};
ghost use Rattle.json_read.specs.Machine.{after_minus, after_zero, after_mantissa, after_letter, after_sign, value, start, after, first_value, first_name, next_name, in_word, in_array, in_object, Role, in_string, in_escape, in_hex, closed, second_bounds as bounds_of};
ghost use Rattle.json_read.specs.Reading.{Passes, Part, PartInto, ReadsDigits, NumberBegins, NumeralOf, ClosesAs, StandsFor, StandsEscaped, StandsInHex, ReadsHexDigit, ReadsFollowing, joined_onto, PartAt, Shows, ShowsPadded, ArrayText, ObjectText, NameText, ReadsByte, ReadsText, outside, inside, past};
ghost use Rattle.numerals.specs.Bytes.{NextIsNot};
ghost use Rattle.json_read.specs.AsciiStrings.{stands_alone, AllAlone, ClosesAsAscii};
ghost use Rattle.json_read.specs.declared.reader.Fault.TheVariants.{Depth, Syntax};
ghost use Rattle.json_read.specs.declared.reader.Stop.TheVariants.{Fault as AtFault, Memory};

mod straight;
mod taking;

use json_values::{GrowingFields, Json, JsonFields, JsonList};
use numerals::digit_count;
use std::alloc::{AllocError, Global};
pub use straight::{MemberTaker, ValueTaker};
pub use taking::{ItemTaker, TakenObject, parse_taking};
use text_core::Text;

/// The greatest depth of an array or an object.
pub const MAX_DEPTH: u32 = 64;

/// How the bytes fail to be a text.
#[derive(Clone, Copy, Debug, PartialEq, Eq, Drop)]
pub enum Fault {
    Syntax,
    Depth,
    Utf8,
}

/// Why a reader stopped.
#[derive(Drop)]
pub enum Stop {
    Fault(Fault),
    Memory,
}

/// What is left to read. At a fault it stands after the longest prefix that begins some text.
#[derive(Drop)]
pub struct Reader<'a> {
    alloc: Global,
    rest: &'a [u8],
}

impl<'a> Reader<'a> {
    /// A reader of these bytes as a JSON text (RFC 8259), with all of them left.
    pub fn new(alloc: Global, bytes: &'a [u8]) -> Self
        ensures exact { result.rest.now ≡ bytes.now }
    {
        Reader { alloc, rest: bytes }
    }

    fn peek(&self) -> Option<u8>
        ensures exact { MatchOption result (self.now.rest.now ≡ [])
            (λ b. (bs : List ℕ) × (self.now.rest.now ≡ b ∷ bs)) }
    {
        self.rest.first().copied()
    }

    // Goes past one byte.
    fn advance(&mut self)
        requires more { 0 < length self.old.rest.now }
        ensures next { (b : ℕ) × (self.old.rest.now ≡ b ∷ self.new.rest.now) }
    {
        self.rest = &self.rest[1..];
    }

    // Goes past the byte `b`, where it is the next one.
    fn take(&mut self, b: u8) -> bool
        ensures taken { result ≡ true → self.old.rest.now ≡ b ∷ self.new.rest.now }
        ensures stays { result ≡ false → self.new.rest.now ≡ self.old.rest.now }
        ensures other { result ≡ false → NextIsNot b self.new.rest.now }
    {
        if self.peek() == Some(b) {
            self.advance();
            true
        } else {
            false
        }
    }

    fn skip_white(&mut self)
        ensures exact { self.new.rest.now ≡ drop_while is_white self.old.rest.now }
    {
        while let Some(b' ' | b'\t' | b'\n' | b'\r') = self.peek() {
            self.advance();
        }
    }

    fn digits(&mut self)
        ensures exact { self.new.rest.now ≡ drop_while is_digit self.old.rest.now }
    {
        self.rest = &self.rest[digit_count(self.rest)..];
    }

    // One or more digits.
    fn some_digits(&mut self) -> Result<(), Stop>
        ensures read { ReadsDigits result self.old.rest.now self.new.rest.now }
    {
        match self.peek() {
            Some(b'0'..=b'9') => {
                self.digits();
                Ok(())
            }
            _ => Err(Stop::Fault(Fault::Syntax)),
        }
    }

    fn minus(&mut self)
        requires begins { NumberBegins self.old.rest.now }
        ensures read { Passes Minus value after_minus self.old.rest.now self.new.rest.now }
    {
        let _ = self.take(b'-');
    }

    fn whole(&mut self) -> Result<(), Stop>
        ensures read { Part (λ _. Whole) after_minus after_zero result self.old.rest.now self.new.rest.now }
    {
        if self.take(b'0') {
            return Ok(());
        }
        self.some_digits()
    }

    fn fraction(&mut self) -> Result<(), Stop>
        ensures read { Part (λ _. Fraction) after_zero after_mantissa result self.old.rest.now self.new.rest.now }
    {
        if !self.take(b'.') {
            return Ok(());
        }
        self.some_digits()
    }

    fn exponent(&mut self) -> Result<(), Stop>
        ensures read { Part (λ _. Exponent) after_mantissa after result self.old.rest.now self.new.rest.now }
    {
        if !self.exponent_letter() {
            return Ok(());
        }
        self.sign();
        self.some_digits()
    }

    fn exponent_letter(&mut self) -> bool
        ensures taken { result ≡ true
            → (b : ℕ) × (self.old.rest.now ≡ b ∷ self.new.rest.now) × IsTrue (is_exponent_letter b) }
        ensures stays { result ≡ false → self.new.rest.now ≡ self.old.rest.now }
        ensures other { result ≡ false → NextFails is_exponent_letter self.new.rest.now }
    {
        self.take(b'e') || self.take(b'E')
    }

    fn sign(&mut self)
        ensures read { Passes Sign after_letter after_sign self.old.rest.now self.new.rest.now }
    {
        let _ = self.take(b'+') || self.take(b'-');
    }

    // A number, which keeps its text.
    fn number(&mut self) -> Result<Text, Stop>
        requires begins { NumberBegins self.old.rest.now }
        ensures read { Part NumeralOf value after result self.old.rest.now self.new.rest.now }
    {
        let start = self.rest;
        self.minus();
        self.whole()?;
        self.fraction()?;
        self.exponent()?;
        let text = &start[..start.len() - self.rest.len()];
        let text = numeral_text(text);
        Ok(Text::of(self.alloc, text)?)
    }

    // A string, after its first quote.
    fn string(&mut self) -> Result<Text, Stop>
        ensures read { (r : Role) → Part ClosesAs (in_string r) (closed r) result self.old.rest.now self.new.rest.now }
    {
        match self.ascii_string() {
            Some(text) => Ok(Text::of(self.alloc, text)?),
            None => self.string_by_units(),
        }
    }

    // A string of ASCII without escapes; where it is another, nothing is read.
    fn ascii_string(&mut self) -> Option<&'a str>
        ensures some { IfSome result (λ text. ClosesAsAscii text.now self.old.rest.now self.new.rest.now) }
        ensures none { IfNone result (self.new.rest.now ≡ self.old.rest.now) }
    {
        let (text, rest) = self.rest.split_at(ascii_count(self.rest));
        match after_quote(rest) {
            Some(past) => {
                self.rest = past;
                Some(ascii_text(text))
            }
            None => None,
        }
    }

    // A string, one character or escape after another.
    fn string_by_units(&mut self) -> Result<Text, Stop>
        ensures read { (r : Role) → Part ClosesAs (in_string r) (closed r) result self.old.rest.now self.new.rest.now }
    {
        let mut text = String::new(self.alloc);
        let mut half = None;
        loop {
            if self.take(b'"') {
                end_units(&mut text, half)?;
                return Ok(Text::from_string(text));
            }
            let unit = self.unit()?;
            half = push_unit(&mut text, half, unit)?;
        }
    }

    // One character or escape of a string.
    fn unit(&mut self) -> Result<u32, Stop>
        requires goes_on { NextIsNot 34 self.old.rest.now }
        ensures read { (r : Role) → Part StandsFor (in_string r) (in_string r) result self.old.rest.now self.new.rest.now }
    {
        if self.take(b'\\') {
            return self.escape();
        }
        let Some(first) = self.peek() else {
            return Err(Stop::Fault(Fault::Syntax));
        };
        if first < 0x20 {
            return Err(Stop::Fault(Fault::Syntax));
        }
        if first < 0x80 {
            self.advance();
            return Ok(u32::from(first));
        }
        self.character(first)
    }

    // An escape, after the backslash.
    fn escape(&mut self) -> Result<u32, Stop>
        ensures read { (r : Role) → Part StandsEscaped (in_escape r) (in_string r) result self.old.rest.now self.new.rest.now }
    {
        if self.take(b'u') {
            return self.four_hex();
        }
        let Some(letter) = self.peek() else {
            return Err(Stop::Fault(Fault::Syntax));
        };
        let Some(unit) = escaped(letter) else {
            return Err(Stop::Fault(Fault::Syntax));
        };
        self.advance();
        Ok(unit)
    }

    // Four hexadecimal digits.
    fn four_hex(&mut self) -> Result<u32, Stop>
        ensures read { (r : Role) → Part StandsInHex (in_hex r 3) (in_string r) result self.old.rest.now self.new.rest.now }
    {
        let a = self.hex_digit()?;
        let b = self.hex_digit()?;
        let c = self.hex_digit()?;
        let d = self.hex_digit()?;
        Ok(((a * 16 + b) * 16 + c) * 16 + d)
    }

    fn hex_digit(&mut self) -> Result<u32, Stop>
        ensures read { ReadsHexDigit result self.old.rest.now self.new.rest.now }
    {
        let Some(letter) = self.peek() else {
            return Err(Stop::Fault(Fault::Syntax));
        };
        let Some(digit) = char::from(letter).to_digit(16) else {
            return Err(Stop::Fault(Fault::Syntax));
        };
        self.advance();
        Ok(digit)
    }

    // A character of several bytes, whose first is `first`.
    fn character(&mut self, first: u8) -> Result<u32, Stop>
        requires first { (bs : List ℕ) × (self.old.rest.now ≡ first ∷ bs) }
        requires several { 128 ≤ first }
        ensures read { (r : Role) → Part StandsFor (in_string r) (in_string r) result self.old.rest.now self.new.rest.now }
    {
        let Some((low, high)) = second_bounds(first) else {
            return Err(Stop::Fault(Fault::Utf8));
        };
        self.advance();
        let lead = u32::from(first);
        let second = self.following(low, high)?;
        if first < 0xE0 {
            return Ok((lead - 0xC0) * 64 + second);
        }
        let third = self.following(0x80, 0xC0)?;
        if first < 0xF0 {
            return Ok(((lead - 0xE0) * 64 + second) * 64 + third);
        }
        let fourth = self.following(0x80, 0xC0)?;
        Ok((((lead - 0xF0) * 64 + second) * 64 + third) * 64 + fourth)
    }

    // The six bits of a byte from `low` up to `high` that follows in a character.
    fn following(&mut self, low: u8, high: u8) -> Result<u32, Stop>
        requires low { 128 ≤ low }
        requires high { high ≤ 192 }
        ensures read { ReadsFollowing low high result self.old.rest.now self.new.rest.now }
    {
        let Some(byte) = self.peek() else {
            return Err(Stop::Fault(Fault::Utf8));
        };
        if byte < low || byte >= high {
            return Err(Stop::Fault(Fault::Utf8));
        }
        self.advance();
        Ok(u32::from(byte) - 0x80)
    }
}

// What a letter after a backslash stands for.
fn escaped(letter: u8) -> Option<u32>
    ensures exact { result ≡ short_escape letter }
{
    match letter {
        b'"' => Some(0x22),
        b'\\' => Some(0x5C),
        b'/' => Some(0x2F),
        b'b' => Some(0x08),
        b'f' => Some(0x0C),
        b'n' => Some(0x0A),
        b'r' => Some(0x0D),
        b't' => Some(0x09),
        _ => None,
    }
}

// The bounds of the second byte of a character of several bytes.
fn second_bounds(first: u8) -> Option<(u8, u8)>
    requires least { 128 ≤ first }
    ensures exact { result ≡ bounds_of first }
{
    match first {
        0xC2..=0xDF => Some((0x80, 0xC0)),
        0xE0 => Some((0xA0, 0xC0)),
        0xED => Some((0x80, 0xA0)),
        0xE1..=0xEF => Some((0x80, 0xC0)),
        0xF0 => Some((0x90, 0xC0)),
        0xF1..=0xF3 => Some((0x80, 0xC0)),
        0xF4 => Some((0x80, 0x90)),
        _ => None,
    }
}

// Writes a unit after `half`, the first half of a surrogate pair or none, and answers the new half.
fn push_unit(text: &mut String, half: Option<u32>, unit: u32) -> Result<Option<u32>, AllocError>
    requires high { IfSome half (λ h. IsTrue (is_high h)) }
    ensures half { IfOk result (λ next. IfSome next (λ h. IsTrue (is_high h))) }
    ensures text { IfOk result (λ next. (us : List ℕ) → joined_onto (string_bytes text.new) next us ≡ joined_onto (string_bytes text.old) half (unit ∷ us)) }
{
    if let Some(high) = half {
        if let 0xDC00..=0xDFFF = unit {
            text.push(pair(high, unit))?;
            return Ok(None);
        }
        text.push('\u{FFFD}')?;
    }
    if let 0xD800..=0xDBFF = unit {
        return Ok(Some(unit));
    }
    text.push(mended(unit))?;
    Ok(None)
}

fn end_units(text: &mut String, half: Option<u32>) -> Result<(), AllocError>
    ensures ok { OnOk result (string_bytes text.new ≡ joined_onto (string_bytes text.old) half []) }
{
    if half.is_some() {
        text.push('\u{FFFD}')?;
    }
    Ok(())
}

fn mended(unit: u32) -> char
    ensures exact { result ≡ mended_char unit }
{
    char::from_u32(unit).unwrap_or('\u{FFFD}')
}

fn pair(high: u32, low: u32) -> char
    requires high { IsTrue (is_high high) }
    requires low { IsTrue (is_low low) }
    ensures exact { result ≡ pair_char high low }
{
    match char::from_u32(0x1_0000 + (high - 0xD800) * 0x400 + (low - 0xDC00)) {
        Some(character) => character,
        None => unreachable!(),
    }
}

impl<'a> Reader<'a> {
    // Goes past the byte `b`.
    fn expect(&mut self, b: u8) -> Result<(), Stop>
        ensures read { ReadsByte b result self.old.rest.now self.new.rest.now }
    {
        if self.take(b) {
            Ok(())
        } else {
            Err(Stop::Fault(Fault::Syntax))
        }
    }

    // The letters of `true`, `false` or `null`.
    fn word(&mut self, letters: &[u8]) -> Result<(), Stop>
        requires some { 0 < length letters.now }
        ensures read { Part (λ _ t. t ≡ letters.now) (in_word letters.now) after result self.old.rest.now self.new.rest.now }
    {
        for letter in letters {
            self.expect(*letter)?;
        }
        Ok(())
    }

    /// A whole text.
    pub(crate) fn text(&mut self) -> Result<Json, Stop>
        ensures read { ReadsText MAX_DEPTH result self.old.rest.now self.new.rest.now }
    {
        self.mark()?;
        let value = self.padded(MAX_DEPTH)?;
        if self.rest.is_empty() {
            Ok(value)
        } else {
            Err(Stop::Fault(Fault::Syntax))
        }
    }

    /// How many bytes are left.
    pub(crate) fn left(&self) -> usize
        ensures exact { result ≡ length self.now.rest.now }
    {
        self.rest.len()
    }

    // A byte order mark, or nothing.
    fn mark(&mut self) -> Result<(), Stop>
        ensures read { Part (λ _. Mark) start value result self.old.rest.now self.new.rest.now }
    {
        if self.take(0xEF) {
            self.expect(0xBB)?;
            self.expect(0xBF)?;
        }
        Ok(())
    }

    // Goes into an array or object, past its first byte: how many may stand in one another inside it.
    fn open(&mut self, depth: u32) -> Result<u32, Stop>
        requires more { 0 < length self.old.rest.now }
        ensures inside { IfOk result (λ inner. suc inner ≡ depth) }
        ensures next { OnOk result ((b : ℕ) × (self.old.rest.now ≡ b ∷ self.new.rest.now)) }
        ensures deep { IfErr result (λ stop. (depth ≡ 0) × (stop ≡ AtFault Depth)) }
        ensures stays { OnErr result (self.new.rest.now ≡ self.old.rest.now) }
    {
        if depth == 0 {
            return Err(Stop::Fault(Fault::Depth));
        }
        self.advance();
        Ok(depth - 1)
    }

    // A value, with at most `depth` arrays and objects in one another.
    #[cycle(values)]
    fn value(&mut self, depth: u32) -> Result<Json, Stop>
        requires begins { NextFails is_white self.old.rest.now }
        ensures read { PartAt (Shows depth) (outside depth value) (outside depth after) result self.old.rest.now self.new.rest.now }
    {
        let Some(first) = self.peek() else {
            return Err(Stop::Fault(Fault::Syntax));
        };
        match first {
            b'"' => {
                self.advance();
                Ok(Json::Text(self.string()?))
            }
            b'[' => {
                let inner = self.open(depth)?;
                Ok(Json::List(self.array(inner)?))
            }
            b'{' => {
                let inner = self.open(depth)?;
                Ok(Json::Object(self.object(inner)?))
            }
            b'-' | b'0'..=b'9' => Ok(Json::Num(self.number()?)),
            b'n' => {
                self.word(b"null")?;
                Ok(Json::Null)
            }
            b't' => {
                self.word(b"true")?;
                Ok(Json::Bool(true))
            }
            b'f' => {
                self.word(b"false")?;
                Ok(Json::Bool(false))
            }
            _ => Err(Stop::Fault(Fault::Syntax)),
        }
    }

    // A value, with white space around it.
    #[cycle(values)]
    fn padded(&mut self, depth: u32) -> Result<Json, Stop>
        ensures part { PartAt (ShowsPadded depth) (outside depth value) (outside depth after) result self.old.rest.now self.new.rest.now }
        ensures trimmed { OnOk result (NextFails is_white self.new.rest.now) }
    {
        self.skip_white();
        let value = self.value(depth)?;
        self.skip_white();
        Ok(value)
    }

    // An array, after its bracket.
    #[cycle(values)]
    fn array(&mut self, depth: u32) -> Result<JsonList, Stop>
        ensures read { PartAt (ArrayText depth) (inside in_array depth first_value) (past depth) result self.old.rest.now self.new.rest.now }
    {
        self.skip_white();
        if self.take(b']') {
            return Ok(JsonList::new(self.alloc));
        }
        // Most arrays are positions.
        let mut items = JsonList::with_capacity(self.alloc, 2)?;
        loop {
            let item = self.padded(depth)?;
            items.push(item)?;
            if self.take(b']') {
                return Ok(items);
            }
            self.expect(b',')?;
        }
    }

    // An object, after its brace.
    #[cycle(values)]
    fn object(&mut self, depth: u32) -> Result<JsonFields, Stop>
        ensures read { PartAt (ObjectText depth) (inside in_object depth first_name) (past depth) result self.old.rest.now self.new.rest.now }
    {
        let mut fields = GrowingFields::new(self.alloc);
        self.members(depth, &mut fields)?;
        Ok(fields.finish())
    }

    // The members of an object, after its brace, which are put to fields.
    #[cycle(values)]
    fn members(&mut self, depth: u32, fields: &mut GrowingFields) -> Result<(), Stop>
        requires empty { fields.old ≡ no_fields }
        ensures read { PartInto (ObjectText depth) (inside in_object depth first_name) (past depth) fields.new result self.old.rest.now self.new.rest.now }
    {
        self.skip_white();
        if self.take(b'}') {
            return Ok(());
        }
        loop {
            let name = self.name()?;
            let item = self.padded(depth)?;
            fields.put(name, item)?;
            if self.take(b'}') {
                return Ok(());
            }
            self.expect(b',')?;
        }
    }

    // A name and its colon.
    fn name(&mut self) -> Result<Text, Stop>
        ensures read { Part NameText next_name value result self.old.rest.now self.new.rest.now }
    {
        self.skip_white();
        self.expect(b'"')?;
        let name = self.string()?;
        self.skip_white();
        self.expect(b':')?;
        Ok(name)
    }
}

// How many bytes at the front stand for themselves in a string, each a character.
fn ascii_count(bytes: &[u8]) -> usize
    ensures count { result ≡ prefix_len stands_alone bytes.now }
    ensures within { result ≤ length bytes.now }
{
    let mut n = 0;
    while n < bytes.len() && is_alone(bytes[n]) {
        n += 1;
    }
    n
}

fn is_alone(byte: u8) -> bool
    ensures exact { result ≡ stands_alone byte }
{
    (0x20..0x80).contains(&byte) && byte != b'"' && byte != b'\\'
}

fn after_quote(bytes: &[u8]) -> Option<&[u8]>
    ensures found { IfSome result (λ past. bytes.now ≡ 34 ∷ past.now) }
{
    match bytes {
        [b'"', past @ ..] => Some(past),
        _ => None,
    }
}

fn ascii_text(bytes: &[u8]) -> &str
    requires alone { AllAlone bytes.now }
    ensures exact { result.now ≡ bytes.now }
{
    unsafe { str::from_utf8_unchecked(bytes) }
}

// A numeral is ASCII.
fn numeral_text(text: &[u8]) -> &str
    requires number { Number text.now }
    ensures exact { result.now ≡ text.now }
{
    unsafe { str::from_utf8_unchecked(text) }
}

impl From<AllocError> for Stop {
    ghost from_gives = { λ _ s. s ≡ Memory };

    fn from(_e: AllocError) -> Stop {
        Stop::Memory
    }
}
