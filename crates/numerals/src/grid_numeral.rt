ghost use Rattle.std.specs.Prelude.{◌≡◌, ◌≤◌, IfSome, Some};
ghost use Rattle.numerals.specs.Numeral.{checked_grid, grid_at, grid_of_text, signed};
ghost use Rattle.numerals.specs.Plain.{IsGridFront, plain_numeral};
ghost use Rattle.numerals.specs.Scaling.{goes_up, one_if};

use crate::numerals::Scaled;
use crate::plain_numeral::Plain;
use crate::units::size_of;
use grid_bounds::LIMIT;

/// Grid numbers go this far, either way.
const GRID_LIMIT: u128 = LIMIT as u128;

/// The grid number of a decimal numeral.
///
/// Shape and units: `places` decimal places, so that 1 in the result is 10^-`places`.
/// Errors: `None` where the grid number passes [`LIMIT`] either way, and for a text that is no numeral.
/// Cost: one pass over the digits; takes no memory.
/// Source: RFC 8259, section 6, for the numeral; the rounding `floor(v * 10^places + 1/2)` is ours.
pub fn numeral_to_grid(text: &str, places: u8) -> Option<i64>
    ensures exact { result ≡ grid_of_text places text.now }
{
    let (minus, scaled) = size_of(text.as_bytes(), places)?;
    on_grid(minus, scaled.units + rounding(&scaled, minus))
}

/// The grid number of the numeral at the front of a text, after which no byte stands that could go on with it, and how
/// many bytes it has.
///
/// Shape and units: as for `numeral_to_grid`.
/// Errors: `None` where the grid number passes [`LIMIT`] either way, and also for a numeral that is long or has an
/// exponent, which has to be read otherwise.
#[inline(always)]
pub fn front_to_grid(text: &[u8], places: u8) -> Option<(i64, usize)>
    ensures found { IfSome result (λ r. IsGridFront places text.now r.0 r.1) }
{
    let (plain, size) = Plain::front(text)?;
    let number = plain_to_grid(&plain, places)?;
    Some((number, size))
}

// The grid number of such a numeral.
#[inline(always)]
fn plain_to_grid(plain: &Plain, places: u8) -> Option<i64>
    requires few { plain.now.fraction ≤ 18 }
    ensures exact { result ≡ grid_at places (Some (plain_numeral plain.now)) }
{
    if plain.is_finer(places) {
        let scaled = plain.scaled(places);
        return on_grid(plain.minus, scaled.units + rounding(&scaled, plain.minus));
    }
    on_grid(plain.minus, plain.raised(places))
}

// What rounding adds to the size. Halves go up: away from zero above it, towards zero below it.
fn rounding(scaled: &Scaled, minus: bool) -> u128
    ensures exact { result ≡ one_if (goes_up minus scaled.now) }
{
    if scaled.tenths > 5 || scaled.tenths == 5 && (scaled.more || !minus) {
        1
    } else {
        0
    }
}

// The number of this sign and size, where the grid has it.
#[inline(always)]
fn on_grid(minus: bool, size: u128) -> Option<i64>
    ensures exact { result ≡ checked_grid (signed minus size) }
{
    if size > GRID_LIMIT {
        return None;
    }
    let size = size as i64;
    Some(if minus { -size } else { size })
}
