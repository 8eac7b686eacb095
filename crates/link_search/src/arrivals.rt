ghost use Rattle.std.specs.Prelude.{◌≡◌, ◌-◌, ◌<◌, ◌≤◌, Contains, length, slice_index_or, true, false};
ghost use Rattle.std.specs.List.Sorted.{IsSorted};
ghost use Rattle.plane_model.specs.Points.{is_before};
ghost use Rattle.grid_base.specs.Order.{point_cmp};

use grid_base::{Pt, has_point, is_before, is_same};

/// The place of the first of points in order that isn't before `p`, looked for from a place on. It is not proved: a
/// wrong one costs time alone.
pub fn place_from(points: &[Pt], p: Pt, from: usize) -> usize {
    for k in from..points.len() {
        if !is_before(points[k], p) {
            return k;
        }
    }
    points.len()
}

/// Whether a point is among points in order, looked for at `guess` first.
///
/// Cost: three comparisons where the guess is right, or else a binary search.
pub fn arrives_at(points: &[Pt], p: Pt, guess: usize) -> bool
    requires sorted { IsSorted point_cmp points.now }
    ensures yes { result ≡ true → Contains points.now p }
    ensures no { result ≡ false → Contains points.now p → ⊥ }
{
    if stands_at(points, guess, p) {
        return true;
    }
    if comes_past(points, guess, p) && comes_before(points, guess, p) {
        return false;
    }
    has_point(points, p)
}

fn stands_at(points: &[Pt], k: usize, p: Pt) -> bool
    ensures yes { result ≡ true → Contains points.now p }
{
    match points.get(k) {
        Some(q) => is_same(*q, p),
        None => false,
    }
}

// Whether the point before a place, if there is one, comes before `p`.
fn comes_before(points: &[Pt], k: usize, p: Pt) -> bool
    requires within { k ≤ length points.now }
    ensures yes { result ≡ true → 0 < k → is_before (slice_index_or points.now (k - 1) p) p ≡ true }
{
    if k == 0 {
        return true;
    }
    is_before(points[k - 1], p)
}

// Whether a place is among those of points or at their end, and the point there, if there is one, comes after `p`.
fn comes_past(points: &[Pt], k: usize, p: Pt) -> bool
    ensures within { result ≡ true → k ≤ length points.now }
    ensures yes { result ≡ true → k < length points.now → is_before p (slice_index_or points.now k p) ≡ true }
{
    match points.get(k) {
        Some(q) => is_before(p, *q),
        None => k == points.len(),
    }
}
