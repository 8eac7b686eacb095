ghost use Rattle.std.specs.Prelude.{◌≡◌, ◌<◌, ◌≤◌, ◌^◌, IfSome};
ghost use Rattle.std.specs.Str.{all_ascii_digits};
ghost use Rattle.cmd_words.specs.Quantities.{number_in, count_of, area_units, units_from_zero, square_unit, doubled_below, doubled_above, gap_of, least_area_of};

use numerals::Decimal;

/// How many decimal places the units of an area have.
const AREA_PLACES: u32 = 18;

/// The number of decimal digits, from the least to the greatest.
pub(crate) fn number_in(low: u32, high: u32, digits: &str) -> Option<u32>
    ensures exact { result ≡ number_in low high digits.now }
    ensures range { IfSome result (λ n. (low ≤ n) × (n ≤ high)) }
{
    let n = number_of(digits)?;
    if n < low {
        return None;
    }
    if high < n {
        return None;
    }
    Some(n)
}

fn number_of(digits: &str) -> Option<u32>
    ensures exact { result ≡ number_in 0 4294967295 digits.now }
{
    if digits.is_empty() {
        return None;
    }
    if !are_digits(digits.as_bytes()) {
        return None;
    }
    match digits.parse::<u32>() {
        Ok(n) => Some(n),
        Err(_) => None,
    }
}

fn are_digits(text: &[u8]) -> bool
    ensures exact { result ≡ all_ascii_digits text.now }
{
    for byte in text {
        if !byte.is_ascii_digit() {
            return false;
        }
    }
    true
}

/// The count of decimal digits, from the least one on.
pub(crate) fn count_of(low: u32, digits: &str) -> Option<u32>
    ensures exact { result ≡ count_of low digits.now }
{
    number_in(low, u32::MAX, digits)
}

/// An area in units of 10^-18 squared units of the coordinates: a numeral whose value is a decimal of at least 0.
#[tactic(auto, unfolding(crate::specs::Quantities::area_units))]
fn area_units(value: &str) -> Option<u128>
    ensures exact { result ≡ area_units value.now }
    ensures small { IfSome result (λ units. units < 10 ^ 36) }
{
    let area = Decimal::parse(value)?;
    units_from_zero(area.units())
}

fn units_from_zero(units: i128) -> Option<u128>
    ensures exact { result ≡ units_from_zero units }
{
    if units < 0 {
        return None;
    }
    Some(units.unsigned_abs())
}

/// The number of a gap of this area: twice the area in squares of the grid, rounded down.
pub(crate) fn gap_of(places: u8, value: &str) -> Option<u128>
    ensures exact { result ≡ gap_of places value.now }
{
    Some(doubled_below(places, area_units(value)?))
}

/// The number of this least area: twice the area in squares of the grid, rounded up.
pub(crate) fn least_area_of(places: u8, value: &str) -> Option<u128>
    ensures exact { result ≡ least_area_of places value.now }
{
    Some(doubled_above(places, area_units(value)?))
}

#[tactic(auto, unfolding(crate::specs::Quantities::doubled_below))]
fn doubled_below(places: u8, units: u128) -> u128
    requires { units < 10 ^ 36 }
    ensures exact { result ≡ doubled_below places units }
{
    2 * units / square_unit(places)
}

#[tactic(auto, unfolding(crate::specs::Quantities::doubled_above))]
fn doubled_above(places: u8, units: u128) -> u128
    requires { units < 10 ^ 36 }
    ensures exact { result ≡ doubled_above places units }
{
    let square = square_unit(places);
    (2 * units + (square - 1)) / square
}

// How many units of 10^-18 a square of the grid is.
fn square_unit(places: u8) -> u128
    ensures exact { result ≡ square_unit places }
    ensures some { 0 < result }
    ensures small { result ≤ 10 ^ 18 }
{
    10_u128.pow(AREA_PLACES.saturating_sub(2 * u32::from(places)))
}
