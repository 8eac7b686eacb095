ghost use Rattle.std.specs.Prelude.{◌≡◌, ◌++◌, ◌*◌, ◌≤◌, ◌<◌, ◌^◌, ℕ, decimal, length, MatchOption, OnOk, OnErr, unsigned_abs, neg_ℤ, ◌+ℤ◌, ◌-ℤ◌, ◌*ℤ◌};
ghost use Rattle.std.specs.Ordering.{int_cmp};
ghost use Rattle.numerals.specs.Decimal.{checked, checked_product, decimal_of_text, decimal_text, fraction_text, is_negative, last_digits, of_grid, of_size, sign_text, trimmed_digits};
ghost use Rattle.numerals.specs.Bytes.{Begins};

use crate::powers::ten_to;
use crate::units::units_of;
use itoa::Buffer;
use std::alloc::AllocError;
use std::cmp::Ordering;
use std::marker::Model;
use text_core::Bytes;

/// How many units make 1.
const ONE: u128 = 1_000_000_000_000_000_000;

const DECIMAL_PLACES: u8 = 18;
/// A multiple of this ends in nine zeros.
const NINE_ZEROS: u64 = 1_000_000_000;
/// Units are below this, either way: 10^36.
const UNITS_END: u128 = 1_000_000_000_000_000_000_000_000_000_000_000_000;

/// A whole multiple of 10^-18 whose absolute value is below 10^18, seen as the number of its units.
#[derive(Clone, Copy)]
pub struct Decimal {
    units: i128,
}

impl Model for Decimal {
    ghost use Rattle.std.specs.Prelude.{ℤ, ◌<◌, ◌^◌, unsigned_abs};

    ghost Value = { ℤ };

    ghost view = { λ d. d.units };

    ghost invariant = { λ d. unsigned_abs d.units < 10 ^ 36 };

    ghost inverse = { λ z. record { units = z } };
}

impl Decimal {
    /// The decimal 10^18 times which is `units`.
    fn of_units(units: i128) -> Option<Decimal>
        ensures exact { result ≡ checked units }
    {
        if units.unsigned_abs() < UNITS_END {
            Some(Decimal { units })
        } else {
            None
        }
    }

    /// The decimal times 10^18.
    pub fn units(&self) -> i128
        ensures exact { result ≡ self.now }
        ensures small { unsigned_abs result < 10 ^ 36 }
    {
        self.units
    }
}

impl Decimal {
    /// The decimal that a text denotes: `None` where it is no numeral, or one with another value.
    ///
    /// Source: RFC 8259, section 6.
    pub fn parse(text: &str) -> Option<Decimal>
        ensures exact { result ≡ decimal_of_text text.now }
    {
        Decimal::parse_bytes(text.as_bytes())
    }

    /// The same of bytes, which may be no UTF-8.
    pub fn parse_bytes(text: &[u8]) -> Option<Decimal>
        ensures exact { result ≡ decimal_of_text text.now }
    {
        Decimal::of_units(units_of(text, DECIMAL_PLACES)?)
    }

    /// `g / 10^places`.
    pub fn of_grid(g: i64, places: u8) -> Decimal
        requires size { unsigned_abs g < 10 ^ 18 }
        requires places { places ≤ 18 }
        ensures exact { result ≡ of_grid g places }
    {
        let scale = u128::from(ten_to(usize::from(DECIMAL_PLACES - places)));
        Decimal::of_size(times(u128::from(g.unsigned_abs()), scale), g < 0)
    }

    /// The sum; `None` where it is no decimal.
    pub fn checked_add(&self, o: &Decimal) -> Option<Decimal>
        ensures exact { result ≡ checked (self.now +ℤ o.now) }
    {
        Decimal::of_units(self.units + o.units)
    }

    /// The difference; `None` where it is no decimal.
    pub fn checked_sub(&self, o: &Decimal) -> Option<Decimal>
        ensures exact { result ≡ checked (self.now -ℤ o.now) }
    {
        Decimal::of_units(self.units - o.units)
    }

    /// The decimal of the other sign.
    pub fn negated(&self) -> Decimal
        ensures exact { result ≡ neg_ℤ self.now }
    {
        Decimal { units: -self.units }
    }

    /// The product; `None` where it is no decimal, also where it is none for its last digits alone.
    pub fn checked_mul(&self, o: &Decimal) -> Option<Decimal>
        ensures exact { result ≡ checked_product (self.now *ℤ o.now) }
    {
        let size = product(self.units.unsigned_abs(), o.units.unsigned_abs())?;
        Some(Decimal::of_size(size, self.is_negative() != o.is_negative()))
    }

    /// The order of the numbers.
    pub fn cmp(&self, o: &Decimal) -> Ordering
        ensures exact { result ≡ int_cmp self.now o.now }
    {
        self.units.cmp(&o.units)
    }

    fn is_negative(&self) -> bool
        ensures exact { result ≡ is_negative self.now }
    {
        self.units < 0
    }

    fn of_size(size: u128, negative: bool) -> Decimal
        requires small { size < 10 ^ 36 }
        ensures exact { result ≡ of_size size negative }
    {
        let units = size as i128;
        Decimal {
            units: if negative { -units } else { units },
        }
    }

    /// Appends the text: a minus where it is negative, the whole part, and the fraction where there is one.
    ///
    /// Errors: where memory runs out, `out` begins with what it held.
    pub fn print_into(&self, out: &mut Bytes) -> Result<(), AllocError>
        ensures ok { OnOk result (out.new ≡ out.old ++ decimal_text self.now) }
        ensures err { OnErr result (Begins out.old out.new) }
    {
        let size = self.units.unsigned_abs();
        print_sign(self.is_negative(), out)?;
        print_whole((size / ONE) as u64, out)?;
        print_fraction((size % ONE) as u64, out)
    }
}

fn print_sign(negative: bool, out: &mut Bytes) -> Result<(), AllocError>
    ensures ok { OnOk result (out.new ≡ out.old ++ sign_text negative) }
    ensures err { OnErr result (out.new ≡ out.old) }
{
    if negative { out.push(b'-') } else { Ok(()) }
}

fn print_whole(n: u64, out: &mut Bytes) -> Result<(), AllocError>
    ensures ok { OnOk result (out.new ≡ out.old ++ decimal n) }
    ensures err { OnErr result (out.new ≡ out.old) }
{
    let mut buffer = Buffer::new();
    out.extend(buffer.format(n).as_bytes())
}

fn print_fraction(fraction: u64, out: &mut Bytes) -> Result<(), AllocError>
    ensures ok { OnOk result (out.new ≡ out.old ++ fraction_text fraction) }
    ensures err { OnErr result (Begins out.old out.new) }
{
    if fraction == 0 {
        return Ok(());
    }
    out.push(b'.')?;
    print_digits(fraction, out)
}

// Eighteen digits, without the zeros at their end. Most fractions have no more than nine decimal places.
#[tactic(auto, using(crate::proofs::Digits::trim_nine))]
fn print_digits(fraction: u64, out: &mut Bytes) -> Result<(), AllocError>
    ensures ok { OnOk result (out.new ≡ out.old ++ trimmed_digits 18 fraction) }
    ensures err { OnErr result (out.new ≡ out.old) }
{
    if fraction % NINE_ZEROS == 0 {
        print_trimmed(fraction / NINE_ZEROS, 9, out)
    } else {
        print_trimmed(fraction, 18, out)
    }
}

// The last `count` digits of `n`, without the zeros at their end.
fn print_trimmed(n: u64, count: usize, out: &mut Bytes) -> Result<(), AllocError>
    requires few { count ≤ 18 }
    ensures ok { OnOk result (out.new ≡ out.old ++ trimmed_digits count n) }
    ensures err { OnErr result (out.new ≡ out.old) }
{
    let mut n = n;
    let mut count = count;
    while count > 0 && n % 10 == 0 {
        n /= 10;
        count -= 1;
    }
    let mut digits = [b'0'; 18];
    let room = &mut digits[..count];
    write_digits(room, n);
    out.extend(room)
}

// The last digits of `n`, as many as there is room for.
fn write_digits(room: &mut [u8], n: u64)
    ensures exact { room.new ≡ last_digits (length room.old) n }
{
    let mut n = n;
    let mut i = room.len();
    while i > 0 {
        i -= 1;
        room[i] = b'0' + (n % 10) as u8;
        n /= 10;
    }
}

// a * b / 10^18, where that is whole and below 10^36.
fn product(a: u128, b: u128) -> Option<u128>
    requires a { a < 10 ^ 36 }
    requires b { b < 10 ^ 36 }
    ensures exact { MatchOption result ((r : ℕ) → a * b ≡ r * 10 ^ 18 → 10 ^ 36 ≤ r) (λ r. (a * b ≡ r * 10 ^ 18) × (r < 10 ^ 36)) }
{
    let (a_high, a_low) = (a / ONE, a % ONE);
    let (b_high, b_low) = (b / ONE, b % ONE);
    let low = times(a_low, b_low);
    if low % ONE != 0 {
        return None;
    }
    let high = times(a_high, b_high);
    if high >= ONE {
        return None;
    }
    let size = high * ONE + times(a_high, b_low) + times(a_low, b_high) + low / ONE;
    if size < UNITS_END { Some(size) } else { None }
}

fn times(a: u128, b: u128) -> u128
    requires a { a < 10 ^ 18 }
    requires b { b ≤ 10 ^ 18 }
    ensures value { result ≡ a * b }
    ensures small { result < 10 ^ 36 }
{
    a * b
}
