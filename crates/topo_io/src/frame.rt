ghost use Rattle.std.specs.Prelude.{◌≡◌, ◌≤◌, ◌<◌, ◌*◌, ◌-◌, ◌^◌, ℤ, pos, ◌+ℤ◌, ◌*ℤ◌, ◌<ℤ◌, IfSome, unsigned_abs};
ghost use Rattle.std.specs.Int.{int_div_euclid, int_rem_euclid};
ghost use Rattle.grid_base.specs.Grid.{most_places};
ghost use Rattle.grid_base.specs.Sizes.{IsStep};
ghost use Rattle.numerals.specs.Numeral.{checked_grid};
ghost use Rattle.topo_io.specs.Transform.{axis_place, most_line, part};
ghost use Rattle.topo_io.specs.Positions.{axis_with, quantized_point};

use grid_base::{LIMIT, MAX_PLACES, Pt};
use std::marker::Model;

/// Numbers of a transform are below this, in units of 10^-28, either way: 10^37.
const TRANSFORM_END: u128 = 10_000_000_000_000_000_000_000_000_000_000_000_000;
/// Grid numbers go this far, either way.
const GRID_LIMIT: u128 = LIMIT as u128;
/// Numbers of a transform are taken apart here: 10^19 units make the least that a grid can have, 10^-9.
const PART: i128 = 10_000_000_000_000_000_000;

/// One axis of a transform: a quantized number n stands for n * scale + offset. Both are in units of 10^-28.
#[derive(Clone, Copy)]
pub struct Axis {
    scale: i128,
    offset: i128,
}

impl Model for Axis {
    ghost use Rattle.std.specs.Prelude.{◌<◌, ◌^◌, unsigned_abs};
    ghost use Rattle.topo_io.specs.Transform.{AxisUnits};

    ghost Value = { AxisUnits };

    ghost view = { λ a. record { scale = a.scale; offset = a.offset } };

    ghost invariant = { λ a. (unsigned_abs a.scale < 10 ^ 37) × (unsigned_abs a.offset < 10 ^ 37) };

    ghost inverse = { λ a. record { scale = a.scale; offset = a.offset } };
}

impl Axis {
    /// `None` where a number is not below 10^9.
    pub fn of(scale: i128, offset: i128) -> Option<Axis>
        ensures exact { result ≡ axis_with scale offset }
    {
        if scale.unsigned_abs() < TRANSFORM_END && offset.unsigned_abs() < TRANSFORM_END {
            Some(Axis { scale, offset })
        } else {
            None
        }
    }

    /// The grid number of a quantized number, with halves upwards; `None` where it passes [`LIMIT`] either way.
    ///
    /// The product has up to 49 digits in units of 10^-28, so it is formed in two parts.
    pub fn place(&self, number: i64, places: u8) -> Option<i64>
        requires small { IsStep number }
        requires places { places ≤ most_places }
        ensures exact { result ≡ checked_grid (axis_place self.now places number) }
    {
        let number = i128::from(number);
        let place = place_of(number, self.scale, self.offset, places);
        if place.unsigned_abs() <= GRID_LIMIT {
            Some(place as i64)
        } else {
            None
        }
    }
}

// How many units of 10^-9 make one on the grid.
fn unit_of(places: u8) -> i128
    requires { places ≤ most_places }
    ensures value { result ≡ pos (10 ^ (most_places - places)) }
    ensures positive { pos 0 <ℤ result }
    ensures most { unsigned_abs result ≤ 10 ^ 9 }
{
    10_i128.pow(u32::from(MAX_PLACES - places))
}

// The whole number of parts below z.
fn upper_of(z: i128) -> i128
    requires small { unsigned_abs z < 10 ^ 37 }
    ensures value { result ≡ int_div_euclid z (pos part) }
    ensures small { unsigned_abs result ≤ part }
{
    z.div_euclid(PART)
}

// What is left of z above them, from 0 to below a part.
fn lower_of(z: i128) -> i128
    requires small { unsigned_abs z < 10 ^ 37 }
    ensures value { result ≡ int_rem_euclid z (pos part) }
    ensures small { unsigned_abs result ≤ part }
{
    z.rem_euclid(PART)
}

fn line(number: i128, factor: i128, offset: i128) -> i128
    requires number_small { IsStep number }
    requires factor_small { unsigned_abs factor ≤ part }
    requires offset_small { unsigned_abs offset ≤ part }
    ensures value { result ≡ number *ℤ factor +ℤ offset }
    ensures small { unsigned_abs result ≤ most_line }
{
    number * factor + offset
}

// The whole number of parts below twice z.
fn twice_upper_of(z: i128) -> i128
    requires small { unsigned_abs z ≤ most_line }
    ensures value { result ≡ int_div_euclid (pos 2 *ℤ z) (pos part) }
    ensures small { unsigned_abs result ≤ 2 * most_line }
{
    (2 * z).div_euclid(PART)
}

// The whole number of parts below twice number * scale + offset.
fn doubled(number: i128, scale: i128, offset: i128) -> i128
    requires number_small { IsStep number }
    requires scale_small { unsigned_abs scale < 10 ^ 37 }
    requires offset_small { unsigned_abs offset < 10 ^ 37 }
    ensures value { result ≡ int_div_euclid (pos 2 *ℤ (number *ℤ scale +ℤ offset)) (pos part) }
    ensures small { unsigned_abs result ≤ 4 * most_line }
{
    let upper = line(number, upper_of(scale), upper_of(offset));
    let lower = line(number, lower_of(scale), lower_of(offset));
    2 * upper + twice_upper_of(lower)
}

// The whole number next to z / (2 * unit), halves upwards, where z is doubled.
fn next_to(z: i128, unit: i128) -> i128
    requires positive { pos 0 <ℤ unit }
    requires most { unsigned_abs unit ≤ 10 ^ 9 }
    requires small { unsigned_abs z ≤ 4 * most_line }
    ensures value { result ≡ int_div_euclid (z +ℤ unit) (pos 2 *ℤ unit) }
{
    (z + unit).div_euclid(2 * unit)
}

// The number of units of the grid next to number * scale + offset, halves upwards.
fn place_of(number: i128, scale: i128, offset: i128, places: u8) -> i128
    requires places { places ≤ most_places }
    requires number_small { IsStep number }
    requires scale_small { unsigned_abs scale < 10 ^ 37 }
    requires offset_small { unsigned_abs offset < 10 ^ 37 }
    ensures value { result ≡ int_div_euclid (pos 2 *ℤ (number *ℤ scale +ℤ offset) +ℤ pos (10 ^ (28 - places))) (pos 2 *ℤ pos (10 ^ (28 - places))) }
{
    next_to(doubled(number, scale, offset), unit_of(places))
}

/// The transform of quantized positions (TopoJSON 1.0, section 2.1.2).
#[derive(Clone, Copy)]
pub struct Transform {
    pub x: Axis,
    pub y: Axis,
}

impl Transform {
    /// The point of a quantized position, where the grid has it.
    pub fn point(&self, x: i64, y: i64, places: u8) -> Option<Pt>
        requires across { IsStep x }
        requires upward { IsStep y }
        requires places { places ≤ most_places }
        ensures exact { result ≡ quantized_point self.now places x y }
    {
        let x = self.x.place(x, places)?;
        let y = self.y.place(y, places)?;
        Pt::new(x, y)
    }
}

/// How the positions of a topology are read: with a transform or without, and with how many decimal places.
#[derive(Drop)]
pub struct Frame {
    pub transform: Option<Transform>,
    pub places: u8,
}
