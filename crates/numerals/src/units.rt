ghost use Rattle.std.specs.Prelude.{◌≡◌, ◌≤◌, None, IfSome, MatchOption, option_map, unsigned_abs};
ghost use Rattle.numerals.specs.Numeral.{numeral_of};
ghost use Rattle.numerals.specs.Plain.{IsSize};
ghost use Rattle.numerals.specs.Units.{counted, units_cap, units_of_text};

use crate::numerals::{Numeral, Scaled, with_sign};
use crate::plain_numeral::Plain;

/// How many units of 10^-`places` a numeral is, where it is a whole number of them.
///
/// Errors: `None` where it is none, and for a text that is no numeral.
/// Cost: one pass over the digits; takes no memory. The number is counted no further than 10^37, either way.
/// Source: RFC 8259, section 6.
pub fn whole_units(text: &str, places: u8) -> Option<i128>
    ensures exact { result ≡ option_map counted (units_of_text places text.now) }
    ensures small { IfSome result (λ n. unsigned_abs n ≤ units_cap) }
{
    units_of(text.as_bytes(), places)
}

/// The same of bytes.
pub(crate) fn units_of(text: &[u8], places: u8) -> Option<i128>
    ensures exact { result ≡ option_map counted (units_of_text places text.now) }
    ensures small { IfSome result (λ n. unsigned_abs n ≤ units_cap) }
{
    let (minus, scaled) = size_of(text, places)?;
    if scaled.tenths != 0 || scaled.more {
        return None;
    }
    Some(with_sign(minus, scaled.units))
}

/// Whether a numeral has a minus, and its size in units of 10^-`places`.
pub(crate) fn size_of(text: &[u8], places: u8) -> Option<(bool, Scaled)>
    ensures exact { MatchOption result (numeral_of text.now ≡ None) (λ r. IsSize places (numeral_of text.now) r.0 r.1) }
{
    match Plain::read(text) {
        Some(plain) => Some((plain.minus, plain.scaled(places))),
        None => any_size_of(text, places),
    }
}

// The same, by the digits of a numeral of any length.
fn any_size_of(text: &[u8], places: u8) -> Option<(bool, Scaled)>
    ensures exact { MatchOption result (numeral_of text.now ≡ None) (λ r. IsSize places (numeral_of text.now) r.0 r.1) }
{
    let numeral = Numeral::read(text)?;
    Some((numeral.minus, numeral.scaled(places)))
}
