ghost use Rattle.std.specs.Prelude.{◌≡◌, ◌-ℤ◌, ◌+ℤ◌, ◌*ℤ◌, pos, int_lt, ◌&&◌, ◌∷◌, []};
ghost use Rattle.lists.specs.Lists.{each_two};
ghost use Rattle.plane_model.specs.Pixel.{agree, goes_over, is_within, low_side, high_side, meets};
ghost use Rattle.grid_base.specs.Sizes.{IsGridNumber};
ghost use Rattle.hot_pixels.specs.Sides.{IsNearby};

use grid_base::{Pt, Seg};
use std::marker::Model;

// How far inside one side of a pixel a segment's ends are, doubled, so that each number is odd and no end lies on the
// side. What lies on an open side is outside.
#[derive(Clone, Copy)]
struct Side {
    at_start: i64,
    at_stop: i64,
    is_open: bool,
}

impl Model for Side {
    ghost use Rattle.plane_model.specs.Pixel.{Side as PixelSide};
    ghost use Rattle.hot_pixels.specs.Sides.{HasNearbyEnds};

    ghost Value = { PixelSide };

    ghost view = { λ s. record { at_start = s.at_start; at_stop = s.at_stop; is_open = s.is_open } };

    ghost invariant = { λ s. HasNearbyEnds (record { at_start = s.at_start; at_stop = s.at_stop; is_open = s.is_open }) };

    ghost inverse = { λ s. record { at_start = s.at_start; at_stop = s.at_stop; is_open = s.is_open } };
}

// Twice the difference of two grid numbers, and one more.
fn distance(a: i64, b: i64) -> i64
    requires a_on_grid { IsGridNumber a }
    requires b_on_grid { IsGridNumber b }
    ensures value { result ≡ pos 2 *ℤ (a -ℤ b) +ℤ pos 1 }
    ensures nearby { IsNearby result }
{
    2 * (a - b) + 1
}

fn low_side_of(p: i64, q: i64, g: i64) -> Side
    requires p_on_grid { IsGridNumber p }
    requires q_on_grid { IsGridNumber q }
    requires g_on_grid { IsGridNumber g }
    ensures exact { result ≡ low_side p q g }
{
    Side {
        at_start: distance(p, g),
        at_stop: distance(q, g),
        is_open: false,
    }
}

fn high_side_of(p: i64, q: i64, g: i64) -> Side
    requires p_on_grid { IsGridNumber p }
    requires q_on_grid { IsGridNumber q }
    requires g_on_grid { IsGridNumber g }
    ensures exact { result ≡ high_side p q g }
{
    Side {
        at_start: distance(g, p),
        at_stop: distance(g, q),
        is_open: true,
    }
}

fn are_positive(a: i64, b: i64) -> bool
    ensures exact { result ≡ (int_lt (pos 0) a && int_lt (pos 0) b) }
{
    0 < a && 0 < b
}

fn product(a: i64, b: i64) -> i128
    requires a_nearby { IsNearby a }
    requires b_nearby { IsNearby b }
    ensures value { result ≡ a *ℤ b }
{
    a as i128 * b as i128
}

fn is_inside(is_open: bool, n: i128) -> bool
    ensures exact { result ≡ is_within is_open n }
{
    if is_open { 0 < n } else { 0 <= n }
}

fn determinant(a: Side, b: Side) -> i128
    ensures exact { result ≡ a.at_start *ℤ b.at_stop -ℤ a.at_stop *ℤ b.at_start }
{
    product(a.at_start, b.at_stop) - product(a.at_stop, b.at_start)
}

// Whether the segment starts inside a and ends inside b, and comes into b before it leaves a, or where it leaves a.
fn is_over(a: Side, b: Side) -> bool
    ensures exact { result ≡ goes_over a b }
{
    if !are_positive(a.at_start, b.at_stop) {
        return false;
    }
    is_inside(a.is_open || b.is_open, determinant(a, b))
}

// Whether some point of the segment is inside both sides.
fn is_agreed(a: Side, b: Side) -> bool
    ensures exact { result ≡ agree a b }
{
    if are_positive(a.at_start, b.at_start) {
        return true;
    }
    if are_positive(a.at_stop, b.at_stop) {
        return true;
    }
    if is_over(a, b) {
        return true;
    }
    is_over(b, a)
}

// Whether each two of four sides agree.
fn are_agreed(left: Side, right: Side, lower: Side, upper: Side) -> bool
    ensures exact { result ≡ each_two agree (left ∷ right ∷ lower ∷ upper ∷ []) }
{
    if !is_agreed(left, right) {
        return false;
    }
    if !is_agreed(left, lower) {
        return false;
    }
    if !is_agreed(left, upper) {
        return false;
    }
    if !is_agreed(right, lower) {
        return false;
    }
    if !is_agreed(right, upper) {
        return false;
    }
    is_agreed(lower, upper)
}

/// Whether a segment meets the pixel of a grid point: its left and lower sides belong to it, the others don't.
///
/// The segment has a point inside all four sides exactly where it has one inside each two of them.
pub fn meets(s: &Seg, pixel: Pt) -> bool
    ensures exact { result ≡ meets s.now pixel }
{
    let (a, b) = (s.a(), s.b());
    let left = low_side_of(a.x(), b.x(), pixel.x());
    let right = high_side_of(a.x(), b.x(), pixel.x());
    let lower = low_side_of(a.y(), b.y(), pixel.y());
    let upper = high_side_of(a.y(), b.y(), pixel.y());
    are_agreed(left, right, lower, upper)
}
