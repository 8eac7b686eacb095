ghost use Rattle.std.specs.Prelude.{◌≡◌, ◌++◌, ◌-◌, [], ◌∷◌, ℕ, suc, ◌<◌, ◌≤◌, ◌*◌, ◌^◌, ℤ, pos, ◌+ℤ◌, ◌-ℤ◌, Some, None, IsTrue, MatchOption, is_some, length, min, ◌==◌};
ghost use Rattle.std.specs.List.{list_all};
ghost use Rattle.numerals.specs.Bytes.{is_digit as is_a_digit};
ghost use Rattle.numerals.specs.Numeral.{digits_at, number_onto, number_of, is_whole_part, fraction_part, exponent_part, exponent_digits, numeral_of, signed, unsigned_numeral};
ghost use Rattle.numerals.specs.Scaling.{AreDigits, IsRead, IsScaled, IsCut, IsPower, IsShift, capped_power, power_cap};
ghost use Rattle.numerals.specs.Units.{units_cap};

/// Numbers are counted no further than this: 10^37.
pub(crate) const UNITS_CAP: u128 = 10_000_000_000_000_000_000_000_000_000_000_000_000;
/// Exponents are counted no further than this, either way: far more than a text has digits.
const POWER_CAP: u128 = 1_000_000_000_000_000_000_000_000_000_000;

/// A numeral by its parts. It stands for whole.fraction times 10^power, below zero where it has a minus.
#[derive(Drop)]
pub(crate) struct Numeral<'a> {
    pub(crate) minus: bool,
    whole: &'a [u8],
    fraction: &'a [u8],
    power: i128,
}

/// The size of a numeral in units of some power of ten: `units`, counted no further than 10^37, then
/// `tenths`, and whether something nonzero follows those.
#[derive(Clone, Copy)]
pub(crate) struct Scaled {
    pub(crate) units: u128,
    pub(crate) tenths: u8,
    pub(crate) more: bool,
}

/// Whether the whole text is a numeral.
///
/// Cost: one pass over the text; takes no memory.
/// Source: RFC 8259, section 6.
pub fn is_numeral(text: &str) -> bool
    ensures exact { result ≡ is_some (numeral_of text.now) }
{
    Numeral::read(text.as_bytes()).is_some()
}

impl<'a> Numeral<'a> {
    /// The parts of a text, where it is a numeral.
    #[tactic(auto, unfolding(crate::specs::Numeral::numeral_of))]
    pub(crate) fn read(text: &'a [u8]) -> Option<Numeral<'a>>
        ensures exact { MatchOption result (numeral_of text.now ≡ None)
            (λ p. IsRead (numeral_of text.now) p.minus p.whole.now p.fraction.now p.power) }
    {
        match text {
            [b'-', unsigned @ ..] => Numeral::read_unsigned(true, unsigned),
            _ => Numeral::read_unsigned(false, text),
        }
    }

    fn read_unsigned(minus: bool, text: &'a [u8]) -> Option<Numeral<'a>>
        ensures exact { MatchOption result (unsigned_numeral minus text.now ≡ None)
            (λ p. IsRead (unsigned_numeral minus text.now) p.minus p.whole.now p.fraction.now p.power) }
    {
        let (whole, rest) = text.split_at(digit_count(text));
        if !is_whole(whole) {
            return None;
        }
        let (fraction, rest) = read_fraction(rest)?;
        let power = read_power(rest)?;
        Some(Numeral {
            minus,
            whole,
            fraction,
            power,
        })
    }

    /// Its size in units of 10^-`places`.
    pub(crate) fn scaled(&self, places: u8) -> Scaled
        requires power { IsPower self.now.power }
        requires whole { AreDigits self.now.whole.now }
        requires fraction { AreDigits self.now.fraction.now }
        ensures exact { (e : ℤ) → self.now.power ≡ capped_power e
            → IsScaled (number_of (self.now.whole.now ++ self.now.fraction.now)) ((e -ℤ pos (length self.now.fraction.now)) +ℤ pos places) result }
    {
        match shift_of(self.power, self.fraction.len(), places) {
            Shift::Up(zeros) => Scaled {
                units: raised(self.digits(), zeros),
                tenths: 0,
                more: false,
            },
            Shift::Down(digits) => self.cut(digits),
        }
    }

    // The number of all digits.
    fn digits(&self) -> u128
        ensures exact { result ≡ min (number_of (self.now.whole.now ++ self.now.fraction.now)) units_cap }
    {
        count_onto(count_onto(0, self.whole), self.fraction)
    }

    // Its size where the last `dropped` of its digits stand after the units.
    fn cut(&self, dropped: u128) -> Scaled
        requires whole { AreDigits self.now.whole.now }
        requires fraction { AreDigits self.now.fraction.now }
        ensures exact { (k : ℕ) → dropped ≡ suc k → IsCut (number_of (self.now.whole.now ++ self.now.fraction.now)) k result }
    {
        let digits = self.whole.len() as u128 + self.fraction.len() as u128;
        if dropped > digits {
            return Scaled {
                units: 0,
                tenths: 0,
                more: !are_zeros(self.whole, self.fraction),
            };
        }
        let kept = digits - dropped;
        if kept <= self.whole.len() as u128 {
            let (front, back) = self.whole.split_at(kept as usize);
            cut_at(count_onto(0, front), back, self.fraction)
        } else {
            let (front, back) = self
                .fraction
                .split_at((kept - self.whole.len() as u128) as usize);
            cut_at(count_onto(count_onto(0, self.whole), front), back, &[])
        }
    }
}

// How far the end of the digits stands from the units.
enum Shift {
    /// The number of zeros that follow the digits.
    Up(u128),
    /// The number of digits that stand after the units.
    Down(u128),
}

fn shift_of(power: i128, fraction: usize, places: u8) -> Shift
    requires power { IsPower power }
    ensures exact { IsShift ((power -ℤ pos fraction) +ℤ pos places) result }
{
    let shift = power - fraction as i128 + i128::from(places);
    if shift >= 0 {
        Shift::Up(shift as u128)
    } else {
        Shift::Down(shift.unsigned_abs())
    }
}

// Units, and the digits after them in two pieces.
fn cut_at(units: u128, back: &[u8], back_end: &[u8]) -> Scaled
    requires back { AreDigits back.now }
    requires end { AreDigits back_end.now }
    ensures exact { (n k : ℕ) → units ≡ min n units_cap → length (back.now ++ back_end.now) ≡ suc k
        → IsCut (number_onto n (back.now ++ back_end.now)) k result }
{
    match back {
        [tenths, rest @ ..] => cut_after(units, *tenths, rest, back_end),
        [] => match back_end {
            [tenths, rest @ ..] => cut_after(units, *tenths, rest, &[]),
            [] => Scaled {
                units,
                tenths: 0,
                more: false,
            },
        },
    }
}

// Units, the digit after them, and the digits after that in two pieces.
fn cut_after(units: u128, tenths: u8, rest: &[u8], rest_end: &[u8]) -> Scaled
    requires tenths { IsTrue (is_a_digit tenths) }
    requires rest { AreDigits rest.now }
    requires end { AreDigits rest_end.now }
    ensures exact { (n k : ℕ) → units ≡ min n units_cap → length (rest.now ++ rest_end.now) ≡ k
        → IsCut (number_onto n (tenths ∷ (rest.now ++ rest_end.now))) k result }
{
    Scaled {
        units,
        tenths: tenths - b'0',
        more: !are_zeros(rest, rest_end),
    }
}

pub(crate) fn is_digit(byte: u8) -> bool
    ensures exact { result ≡ is_a_digit byte }
{
    byte.is_ascii_digit()
}

/// How many digits stand at the front.
pub fn digit_count(text: &[u8]) -> usize
    ensures count { result ≡ length (digits_at text.now) }
    ensures fits { result ≤ length text.now }
{
    let mut n = 0;
    while n < text.len() && is_digit(text[n]) {
        n += 1;
    }
    n
}

/// One digit, or digits that do not begin with zero.
pub(crate) fn is_whole(digits: &[u8]) -> bool
    ensures exact { result ≡ is_whole_part digits.now }
{
    match digits {
        [] => false,
        [_] => true,
        [first, ..] => *first != b'0',
    }
}

// A point and digits, or nothing; and what comes after.
fn read_fraction(text: &[u8]) -> Option<(&[u8], &[u8])>
    ensures exact { MatchOption result (fraction_part text.now ≡ None) (λ p. fraction_part text.now ≡ Some (p.0.now, p.1.now)) }
{
    let [b'.', past @ ..] = text else {
        return Some((&text[..0], text));
    };
    let n = digit_count(past);
    if n == 0 {
        return None;
    }
    Some(past.split_at(n))
}

// An exponent up to the end of the text.
fn read_power(text: &[u8]) -> Option<i128>
    ensures exact { MatchOption result (exponent_part text.now ≡ None)
        (λ p. (e : ℤ) × (exponent_part text.now ≡ Some e) × (p ≡ capped_power e)) }
{
    let [letter, past @ ..] = text else {
        return Some(0);
    };
    if *letter != b'e' && *letter != b'E' {
        return None;
    }
    match past {
        [b'-', digits @ ..] => signed_power(true, digits),
        [b'+', digits @ ..] => signed_power(false, digits),
        _ => signed_power(false, past),
    }
}

fn signed_power(minus: bool, digits: &[u8]) -> Option<i128>
    ensures exact { MatchOption result (exponent_digits minus digits.now ≡ None)
        (λ p. (e : ℤ) × (exponent_digits minus digits.now ≡ Some e) × (p ≡ capped_power e)) }
{
    if digits.is_empty() || digit_count(digits) < digits.len() {
        return None;
    }
    Some(with_sign(minus, power_of(digits)))
}

pub(crate) fn with_sign(minus: bool, size: u128) -> i128
    requires small { size ≤ units_cap }
    ensures exact { result ≡ signed minus size }
{
    let size = size as i128;
    if minus { -size } else { size }
}

fn power_of(digits: &[u8]) -> u128
    ensures exact { result ≡ min (number_of digits.now) power_cap }
{
    let mut n: u128 = 0;
    for digit in digits {
        n = (n * 10 + u128::from(digit.saturating_sub(b'0'))).min(POWER_CAP);
    }
    n
}

// The number of these digits after those that `n` counts.
fn count_onto(n: u128, digits: &[u8]) -> u128
    requires small { n ≤ units_cap }
    ensures exact { result ≡ min (number_onto n digits.now) units_cap }
{
    let mut n = n;
    for digit in digits {
        n = (n * 10 + u128::from(digit.saturating_sub(b'0'))).min(UNITS_CAP);
    }
    n
}

fn are_zeros(digits: &[u8], digits_end: &[u8]) -> bool
    requires digits { AreDigits digits.now }
    requires end { AreDigits digits_end.now }
    ensures exact { result ≡ (number_of (digits.now ++ digits_end.now) == 0) }
{
    holds_zeros(digits) && holds_zeros(digits_end)
}

fn holds_zeros(digits: &[u8]) -> bool
    ensures exact { result ≡ list_all (λ b. b == 48) digits.now }
{
    digits.iter().all(|digit| *digit == b'0')
}

/// n * 10^power, counted no further than 10^37.
pub(crate) fn raised(n: u128, power: u128) -> u128
    requires small { n ≤ units_cap }
    ensures exact { result ≡ min (n * 10 ^ power) units_cap }
{
    let mut n = n;
    for _ in 0..power.min(37) {
        n = (n * 10).min(UNITS_CAP);
    }
    n
}
