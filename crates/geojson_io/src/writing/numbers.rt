ghost use Rattle.std.specs.Prelude.{◌≡◌, ◌≢◌, ◌++◌, ◌∷◌, ◌+◌, ◌^◌, ◌≤◌, ◌<◌, length, drop, decimal};
ghost use Rattle.grid_base.specs.Grid.{most_places};
ghost use Rattle.grid_base.specs.Sizes.{IsStep};
ghost use Rattle.numerals.specs.Decimal.{is_negative, sign_text, trimmed_digits};
ghost use Rattle.geojson_io.specs.Numbers.{fraction_text, number_width};
ghost use Rattle.geojson_io.specs.Texts.{grid_text};

use itoa::write_digits;
use numerals::ten_to;

// Each function `put_..` writes a text into the room so that it ends at `end`, and gives where it starts.

/// A grid number, or a step of the grid, as the decimal `g / 10^places`.
pub fn put_number(g: i64, places: u8, room: &mut [u8], end: usize) -> usize
    requires size { IsStep g }
    requires places { places ≤ most_places }
    requires room { (number_width ≤ end) × (end ≤ length room.old) }
    ensures within { (result ≤ end) × (end ≤ result + number_width) }
    ensures written { drop result room.new ≡ grid_text places g ++ drop end room.old }
{
    let size = g.unsigned_abs();
    let unit = unit_of(places);
    let start = put_fraction(size % unit, places, room, end);
    let start = write_digits(size / unit, room, start);
    put_sign(is_negative(g), room, start)
}

/// One byte.
pub fn put_byte(byte: u8, room: &mut [u8], end: usize) -> usize
    requires { (0 < end) × (end ≤ length room.old) }
    ensures start { result + 1 ≡ end }
    ensures written { drop result room.new ≡ byte ∷ drop end room.old }
{
    room[end - 1] = byte;
    end - 1
}

fn is_negative(g: i64) -> bool
    ensures sign { result ≡ is_negative g }
{
    g < 0
}

fn put_sign(negative: bool, room: &mut [u8], end: usize) -> usize
    requires { (0 < end) × (end ≤ length room.old) }
    ensures within { (result ≤ end) × (end ≤ result + 1) }
    ensures written { drop result room.new ≡ sign_text negative ++ drop end room.old }
{
    if negative {
        put_byte(b'-', room, end)
    } else {
        end
    }
}

fn put_fraction(fraction: u64, places: u8, room: &mut [u8], end: usize) -> usize
    requires places { places ≤ most_places }
    requires below { fraction < 10 ^ places }
    requires room { (most_places + 1 ≤ end) × (end ≤ length room.old) }
    ensures within { (result ≤ end) × (end ≤ result + (most_places + 1)) }
    ensures written { drop result room.new ≡ fraction_text places fraction ++ drop end room.old }
{
    if fraction == 0 {
        return end;
    }
    // The 1 that keeps the zeros in front gives its place to the point.
    let start = write_digits(digits_after_one(fraction, places), room, end);
    room[start] = b'.';
    start
}

// The number whose digits are a 1 and those of a fraction, without the zeros at their end.
fn digits_after_one(fraction: u64, places: u8) -> u64
    requires places { places ≤ most_places }
    requires below { fraction < 10 ^ places }
    requires some { fraction ≢ 0 }
    ensures digits { decimal result ≡ 49 ∷ trimmed_digits places fraction }
    ensures few { result < 10 ^ (most_places + 1) }
{
    let mut digits = unit_of(places) + fraction;
    while digits % 10 == 0 {
        digits /= 10;
    }
    digits
}

// How many steps of the grid are 1.
fn unit_of(places: u8) -> u64
    requires { places ≤ most_places }
    ensures value { result ≡ 10 ^ places }
    ensures small { result ≤ 10 ^ most_places }
{
    ten_to(usize::from(places))
}
