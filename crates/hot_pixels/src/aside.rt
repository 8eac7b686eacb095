ghost use Rattle.std.specs.Prelude.{◌≡◌, ℤ, pos, ◌+ℤ◌, ◌*ℤ◌, ◌≤ℤ◌, false, IsTrue, unsigned_abs};
ghost use Rattle.plane_model.specs.Points.{GridPoint as Point};
ghost use Rattle.plane_model.specs.Pixel.{meets};
ghost use Rattle.grid_base.specs.Sizes.{IsStep, IsCross};
ghost use Rattle.bucket_grid.specs.Rects.{Holds};

use grid_base::{Rect, Seg, determinant, step};

// The end of a stretch at which the product with `factor` is greatest.
fn greatest_end(factor: i64, low: i64, high: i64) -> i64
    requires low_small { IsStep low }
    requires high_small { IsStep high }
    ensures small { IsStep result }
    ensures greatest { (v : ℤ) → low ≤ℤ v → v ≤ℤ high → (factor *ℤ v) ≤ℤ (factor *ℤ result) }
{
    if factor < 0 { low } else { high }
}

// The end of a stretch at which the product with `factor` is least.
fn least_end(factor: i64, low: i64, high: i64) -> i64
    requires low_small { IsStep low }
    requires high_small { IsStep high }
    ensures small { IsStep result }
    ensures least { (v : ℤ) → low ≤ℤ v → v ≤ℤ high → (factor *ℤ result) ≤ℤ (factor *ℤ v) }
{
    if factor < 0 { high } else { low }
}

// Twice as much as the determinant of a step and the way to a point can differ within the point's pixel.
fn reach_of(dx: i64, dy: i64) -> i128
    requires across_small { IsStep dx }
    requires upward_small { IsStep dy }
    ensures exact { result ≡ pos (unsigned_abs dx) +ℤ pos (unsigned_abs dy) }
{
    i128::from(dx.unsigned_abs()) + i128::from(dy.unsigned_abs())
}

fn doubled(cross: i128) -> i128
    requires small { IsCross cross }
    ensures exact { result ≡ pos 2 *ℤ cross }
{
    2 * cross
}

/// Whether a rectangle lies so far on one side of a segment's line that the segment meets the pixel of no point there.
///
/// Cost: two determinants in 128 bits, one where the rectangle is on the left.
pub fn is_aside(rect: Rect, s: &Seg) -> bool
    ensures passed { (g : Point) → IsTrue result → Holds rect g → meets s.now g ≡ false }
{
    let (dx, dy) = step(s.a(), s.b());
    let (west, south) = step(s.a(), rect.low());
    let (east, north) = step(s.a(), rect.high());
    let reach = reach_of(dx, dy);
    let left = determinant(
        dx,
        dy,
        greatest_end(dy, west, east),
        least_end(dx, south, north),
    );
    if reach < doubled(left) {
        return true;
    }
    let right = determinant(
        dy,
        dx,
        greatest_end(dx, south, north),
        least_end(dy, west, east),
    );
    reach < doubled(right)
}
