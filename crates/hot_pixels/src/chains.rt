ghost use Rattle.std.specs.Prelude.{◌≡◌, ◌-ℤ◌, ◌*ℤ◌, ◌<ℤ◌, true, false, IfOk, drop};
ghost use Rattle.std.specs.Int.{int_signum};
ghost use Rattle.plane_model.specs.Hot.{order_key};
ghost use Rattle.grid_base.specs.Sizes.{IsGridNumber};
ghost use Rattle.hot_pixels.specs.Chains.{AreSortedAlong, GoesRising, DoRise};

use grid_base::{Pt, PtList, Seg};
use std::alloc::{AllocError, Global};

// A number as it grows along a step from one number to another; 0 where the step stands still.
fn in_sense(from: i64, to: i64, n: i64) -> i64
    requires { IsGridNumber n }
    ensures value { result ≡ int_signum (to -ℤ from) *ℤ n }
    ensures small { IsGridNumber result }
{
    if from < to {
        n
    } else if to < from {
        -n
    } else {
        0
    }
}

// The number by which the pixels that a segment meets are in order along it.
fn key_along(s: &Seg, p: &Pt) -> i64
    ensures exact { result ≡ order_key s.now p.now }
{
    let (a, b) = (s.a(), s.b());
    in_sense(a.x(), b.x(), p.x()) + in_sense(a.y(), b.y(), p.y())
}

fn list_of(alloc: Global, points: &[Pt]) -> Result<PtList, AllocError>
    ensures exact { IfOk result (λ list. list ≡ points.now) }
{
    let mut list = PtList::with_capacity(alloc, points.len())?;
    list.append(points)?;
    Ok(list)
}

/// The points of a list in the order of their keys along a segment.
pub fn sorted_along(alloc: Global, met: Vec<Pt>, s: &Seg) -> Result<PtList, AllocError>
    ensures made { IfOk result (AreSortedAlong s.now met.items) }
{
    let mut sorted = met;
    sorted.sort_unstable_by_key(|p| key_along(s, p));
    list_of(alloc, &sorted)
}

fn has_lower_key(s: &Seg, p: &Pt, q: &Pt) -> bool
    ensures yes { result ≡ true → order_key s.now p.now <ℤ order_key s.now q.now }
{
    key_along(s, p) < key_along(s, q)
}

// Whether the keys of the points along a segment rise, so that no point stands twice.
fn do_rise(points: &[Pt], s: &Seg) -> bool
    ensures yes { result ≡ true → DoRise s.now points.now }
{
    for k in 1..points.len() {
        if !has_lower_key(s, &points[k - 1], &points[k]) {
            return false;
        }
    }
    true
}

/// The points after the first.
pub fn after_first(points: &[Pt]) -> &[Pt]
    ensures exact { result.now ≡ drop 1 points.now }
{
    if points.is_empty() {
        return points;
    }
    &points[1..]
}

/// Appends all points but the first, in the order of their keys along a segment, to a path, where no two have one key.
///
/// The answer is whether it did; else the path stays as it was.
pub fn go_rising(
    alloc: Global,
    path: &mut PtList,
    points: Vec<Pt>,
    s: &Seg,
) -> Result<bool, AllocError>
    ensures did { IfOk result (λ did. did ≡ true → GoesRising s.now path.old points.items path.new) }
    ensures stayed { IfOk result (λ did. did ≡ false → path.new ≡ path.old) }
{
    if do_rise(&points, s) {
        path.append(after_first(&points))?;
        return Ok(true);
    }
    let sorted = sorted_along(alloc, points, s)?;
    if !do_rise(sorted.as_slice(), s) {
        return Ok(false);
    }
    path.append(after_first(sorted.as_slice()))?;
    Ok(true)
}
