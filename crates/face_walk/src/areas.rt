ghost use Rattle.std.specs.Prelude.{◌≡◌, ◌*◌, ◌<◌, ◌≤◌, ◌^◌, ◌+ℤ◌, ◌-ℤ◌, ◌*ℤ◌, All, IfOk, length, unsigned_abs};
ghost use Rattle.plane_model.specs.Arcs.{points_of};
ghost use Rattle.grid_base.specs.Sizes.{IsGridNumber};
ghost use Rattle.face_walk.specs.Areas.{IsTriangle, area_along, area_within, most_triangle};

use arc_table::ArcTable;
use grid_base::{Pt, SignedArc};
use std::alloc::AllocError;

fn cross(a: i64, b: i64, c: i64, d: i64) -> i128
    requires a_small { IsGridNumber a }
    requires b_small { IsGridNumber b }
    requires c_small { IsGridNumber c }
    requires d_small { IsGridNumber d }
    ensures value { result ≡ a *ℤ d -ℤ b *ℤ c }
    ensures small { IsTriangle result }
{
    a as i128 * d as i128 - b as i128 * c as i128
}

fn numbers(p: Pt) -> (i64, i64)
    ensures across { result.0 ≡ p.x }
    ensures upward { result.1 ≡ p.y }
    ensures across_small { IsGridNumber result.0 }
    ensures upward_small { IsGridNumber result.1 }
{
    (p.x(), p.y())
}

// Twice the signed area of the triangle from the origin to `p` and `q`.
fn triangle(p: Pt, q: Pt) -> i128
    ensures value { result ≡ p.x *ℤ q.y -ℤ p.y *ℤ q.x }
    ensures small { IsTriangle result }
{
    let (a, b) = numbers(p);
    let (c, d) = numbers(q);
    cross(a, b, c, d)
}

// Twice the area that a path adds to what it goes round.
fn area_along(points: &[Pt]) -> i128
    requires few { length points.now < 2 ^ 32 }
    ensures exact { result ≡ area_along points.now }
    ensures small { unsigned_abs result ≤ 2 ^ 32 * most_triangle }
{
    let mut area = 0i128;
    for i in 1..points.len() {
        area += triangle(points[i - 1], points[i]);
    }
    area
}

// The same of an arc; it has fewer points than 2^32.
fn area_of_arc(t: &ArcTable, a: SignedArc) -> Result<i128, AllocError>
    requires there { a.arc < length t.now }
    ensures exact { IfOk result (λ area. area ≡ area_along (points_of t.now a)) }
    ensures small { IfOk result (λ area. unsigned_abs area ≤ 2 ^ 32 * most_triangle) }
{
    let points = t.points_of(a.id());
    if points.len() > u32::MAX as usize {
        return Err(AllocError);
    }
    let area = area_along(points);
    if a.is_reversed() { Ok(-area) } else { Ok(area) }
}

/// The sum of two areas.
///
/// Errors: `AllocError` where it is past an `i128`.
pub fn added(sum: i128, area: i128) -> Result<i128, AllocError>
    ensures exact { IfOk result (λ more. more ≡ sum +ℤ area) }
{
    sum.checked_add(area).ok_or(AllocError)
}

/// Twice the area of a face, by the arcs that it is left of: `x1 * y2 - y1 * x2` over their steps.
pub fn area_of_face(t: &ArcTable, arcs: &[SignedArc]) -> Result<i128, AllocError>
    requires there { All (λ a. a.arc < length t.now) arcs.now }
    ensures exact { IfOk result (λ area. area ≡ area_within t.now arcs.now) }
{
    let mut area = 0i128;
    for a in arcs {
        let more = area_of_arc(t, *a)?;
        area = added(area, more)?;
    }
    Ok(area)
}
