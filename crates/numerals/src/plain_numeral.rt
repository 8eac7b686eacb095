ghost use Rattle.std.specs.Prelude.{◌≡◌, ℕ, suc, ◌+◌, ◌-◌, ◌<◌, ◌≤◌, ◌*◌, ◌^◌, min, pos, ◌+ℤ◌, ◌-ℤ◌, ◌∷◌, IfNone, IfSome, length, take, true, false};
ghost use Rattle.numerals.specs.Numeral.{digits_at, number_onto, numeral_of};
ghost use Rattle.numerals.specs.Plain.{FrontFraction, IsPlain, IsPlainFront, IsUnsignedFront, is_numeric};
ghost use Rattle.numerals.specs.Bytes.{NextFails, NextIsNot};
ghost use Rattle.numerals.specs.Scaling.{IsScaled, IsCut};
ghost use Rattle.numerals.specs.Units.{units_cap};

use crate::numerals::{Scaled, UNITS_CAP, is_digit, is_whole, raised};
use crate::powers::ten_to;

/// A number of this many digits fits a machine word.
const MAX_DIGITS: usize = 19;
/// The greatest number of digits after the point.
const MAX_FRACTION: usize = 18;

/// A number that isn't 0 passes the limit of the grid with this many zeros after it.
const MAX_ZEROS: usize = 18;

/// A numeral without an exponent whose digits, read without the point, are a number of one machine word:
/// `number`, of which `fraction` digits stand after the point.
#[derive(Clone, Copy)]
pub(crate) struct Plain {
    pub(crate) minus: bool,
    number: u64,
    fraction: usize,
}

impl Plain {
    /// The numeral that a text is, where it is such a numeral.
    pub(crate) fn read(text: &[u8]) -> Option<Plain>
        ensures found { IfSome result (λ p. IsPlain (numeral_of text.now) p) }
    {
        let (plain, size) = Plain::front(text)?;
        if size < text.len() {
            return None;
        }
        Some(plain)
    }

    /// The numeral of this kind at the front of a text, after which no byte stands that could go on with it, and how
    /// many bytes it has.
    pub(crate) fn front(text: &[u8]) -> Option<(Plain, usize)>
        ensures found { IfSome result (λ r. IsPlainFront text.now r.0 r.1) }
    {
        match after_byte(text, b'-') {
            Some(unsigned) => {
                let (plain, size) = Plain::unsigned_front(true, unsigned)?;
                Some((plain, size + 1))
            }
            None => Plain::unsigned_front(false, text),
        }
    }

    #[inline(always)]
    fn unsigned_front(minus: bool, text: &[u8]) -> Option<(Plain, usize)>
        ensures found { IfSome result (λ r. IsUnsignedFront minus text.now r.0 r.1) }
    {
        let (window, beyond) = text.split_at(text.len().min(MAX_DIGITS));
        let (plain, size) = Plain::short_front(minus, window)?;
        if is_cut(size, window, beyond) {
            return None;
        }
        Some((plain, size))
    }

    // The same of a text that is too short to pass a machine word.
    #[inline(always)]
    fn short_front(minus: bool, text: &[u8]) -> Option<(Plain, usize)>
        requires short { length text.now ≤ 19 }
        ensures found { IfSome result (λ r. IsUnsignedFront minus text.now r.0 r.1) }
    {
        let (front, count) = front_number(0, 0, text);
        let (whole, rest) = text.split_at(count);
        if !is_whole(whole) {
            return None;
        }
        let (number, fraction, size) = front_fraction(front, count, rest)?;
        let plain = Plain {
            minus,
            number,
            fraction,
        };
        Some((plain, count + size))
    }

    /// Whether digits stand after those of the units of 10^-`places`.
    pub(crate) fn is_finer(&self, places: u8) -> bool
        ensures finer { result ≡ true → places < self.now.fraction }
        ensures other { result ≡ false → self.now.fraction ≤ places }
    {
        self.fraction > usize::from(places)
    }

    /// Its size in units of 10^-`places`.
    pub(crate) fn scaled(&self, places: u8) -> Scaled
        requires few { self.now.fraction ≤ 18 }
        ensures exact { IsScaled self.now.number ((pos 0 -ℤ pos self.now.fraction) +ℤ pos places) result }
    {
        let places = usize::from(places);
        if self.fraction > places {
            return cut_number(self.number, self.fraction - places);
        }
        Scaled {
            units: raised_word(self.number, places - self.fraction),
            tenths: 0,
            more: false,
        }
    }

    /// The same where it is a whole number, but that no more than eighteen zeros are added.
    pub(crate) fn raised(&self, places: u8) -> u128
        requires fits { self.now.fraction ≤ places }
        ensures exact { result ≡ self.now.number * 10 ^ min (places - self.now.fraction) 18 }
    {
        let zeros = usize::from(places) - self.fraction;
        times(self.number, ten_to(zeros.min(MAX_ZEROS)))
    }
}

// The number that the digits at the front make after the `before` digits of `n`, and how many they are.
#[inline(always)]
fn front_number(n: u64, before: usize, text: &[u8]) -> (u64, usize)
    requires small { n < 10 ^ before }
    requires few { before + length text.now ≤ 19 }
    ensures number { result.0 ≡ number_onto n (take result.1 text.now) }
    ensures count { result.1 ≡ length (digits_at text.now) }
    ensures fits { result.1 ≤ length text.now }
    ensures small { result.0 < 10 ^ (before + result.1) }
{
    let mut number = n;
    let mut count = 0;
    while count < text.len() && is_digit(text[count]) {
        number = number * 10 + u64::from(text[count] - b'0');
        count += 1;
    }
    (number, count)
}

// The same of a point and digits, or of nothing, after which no byte stands that could go on with a number; and how
// many bytes these are.
#[inline(always)]
fn front_fraction(n: u64, before: usize, text: &[u8]) -> Option<(u64, usize, usize)>
    requires small { n < 10 ^ before }
    requires few { before + length text.now ≤ 19 }
    ensures found { IfSome result (λ r. FrontFraction n text.now r.0 r.1 r.2) }
{
    let Some(past) = after_byte(text, b'.') else {
        return whole_front(n, text);
    };
    let (number, count) = front_number(n, before, past);
    let (_, rest) = past.split_at(count);
    if count == 0 || goes_on(rest) {
        return None;
    }
    Some((number, count, count + 1))
}

fn whole_front(n: u64, text: &[u8]) -> Option<(u64, usize, usize)>
    ensures found { IfSome result (λ r. FrontFraction n text.now r.0 r.1 r.2) }
{
    if goes_on(text) {
        return None;
    }
    Some((n, 0, 0))
}

// What is after the byte `b`, where it is the next one.
fn after_byte(text: &[u8], b: u8) -> Option<&[u8]>
    ensures some { IfSome result (λ past. text.now ≡ b ∷ past.now) }
    ensures none { IfNone result (NextIsNot b text.now) }
{
    match text {
        [next, past @ ..] if *next == b => Some(past),
        _ => None,
    }
}

// Whether the next byte may stand in a number.
fn goes_on(text: &[u8]) -> bool
    ensures no { result ≡ false → NextFails is_numeric text.now }
{
    match text {
        [] => false,
        [next, ..] => is_in_number(*next),
    }
}

// Whether what is read up to the end of the window may go on beyond it.
fn is_cut(size: usize, window: &[u8], beyond: &[u8]) -> bool
    ensures no { result ≡ false → size ≡ length window.now → NextFails is_numeric beyond.now }
{
    size == window.len() && goes_on(beyond)
}

fn is_in_number(byte: u8) -> bool
    ensures exact { result ≡ is_numeric byte }
{
    is_digit(byte) || byte == b'e' || byte == b'E' || byte == b'.'
}

// The size of a number whose last `dropped` digits stand after the units.
fn cut_number(n: u64, dropped: usize) -> Scaled
    requires some { 0 < dropped }
    requires few { dropped ≤ 18 }
    ensures exact { (k : ℕ) → dropped ≡ suc k → IsCut n k result }
{
    let tenth = ten_to(dropped - 1);
    let unit = tenth * 10;
    Scaled {
        units: u128::from(n / unit),
        tenths: (n % unit / tenth) as u8,
        more: n % tenth != 0,
    }
}

// n * 10^power, counted no further than 10^37.
fn raised_word(n: u64, power: usize) -> u128
    ensures exact { result ≡ min (n * 10 ^ power) units_cap }
{
    if power > MAX_FRACTION {
        return raised(u128::from(n), power as u128);
    }
    times(n, ten_to(power)).min(UNITS_CAP)
}

fn times(a: u64, b: u64) -> u128
    ensures exact { result ≡ a * b }
{
    u128::from(a) * u128::from(b)
}
