ghost use Rattle.std.specs.Prelude.{◌≡◌, ◌≤◌, ◌*◌, ◌<ℤ◌, ◌+ℤ◌, ◌-ℤ◌, ◌*ℤ◌, ℤ, pos, IsTrue, unsigned_abs, int_le, ◌&&◌, Some};
ghost use Rattle.plane_model.specs.Points.{GridPoint as Point, cross};
ghost use Rattle.plane_model.specs.Pixel.{crossing_pixel, floor_div, rounded};
ghost use Rattle.grid_base.specs.Grid.{IsOnGrid, is_grid_number};
ghost use Rattle.grid_base.specs.Sizes.{IsStep, IsCross, most_cross, most_step};
ghost use Rattle.hot_pixels.specs.Crossing.{HasGridEnds, is_share, pixel_by};

use grid_base::{Pt, Seg, determinant, step};

// The determinant of the directions of two segments: 0 exactly where they are parallel.
fn cross_of(s: Seg, t: Seg) -> i128
    ensures value { result ≡ cross s t }
    ensures small { IsCross result }
    ensures on_grid { HasGridEnds s }
{
    let (ax, ay) = step(s.a(), s.b());
    let (bx, by) = step(t.a(), t.b());
    determinant(ax, ay, bx, by)
}

// Whether n / w is from 0 to 1.
fn is_share_of(n: i128, w: i128) -> bool
    ensures exact { result ≡ is_share n w }
{
    0 <= n && n <= w
}

// The whole number next to n / w, halves upwards.
fn quotient(n: i128, w: i128) -> i128
    requires w_positive { pos 0 <ℤ w }
    requires w_small { IsCross w }
    requires n_small { unsigned_abs n ≤ most_step * most_cross }
    ensures exact { result ≡ floor_div (pos 2 *ℤ n +ℤ pos (unsigned_abs w)) (2 * unsigned_abs w) }
{
    (2 * n + w).div_euclid(2 * w)
}

// The grid number next to `from + (step * p) / w`, halves upwards.
fn part_way(from: i64, step: i64, p: i128, w: i128) -> i64
    requires step_small { IsStep step }
    requires w_positive { pos 0 <ℤ w }
    requires w_small { IsCross w }
    requires share { IsTrue (is_share p w) }
    requires from_on_grid { IsTrue (is_grid_number from) }
    requires lands { IsTrue (is_grid_number (rounded from step p (unsigned_abs w))) }
    ensures exact { result ≡ rounded from step p (unsigned_abs w) }
{
    (from as i128 + quotient(step as i128 * p, w)) as i64
}

// The pixel at p / w of the way along s, where p / w and q / w are shares.
fn pixel_at(s: Seg, w: i128, p: i128, q: i128) -> Option<Pt>
    requires w_positive { pos 0 <ℤ w }
    requires w_small { IsCross w }
    requires lands { (g : Point) → pixel_by s (unsigned_abs w) p q ≡ Some g → IsOnGrid g }
    ensures exact { result ≡ pixel_by s (unsigned_abs w) p q }
{
    if !is_share_of(p, w) {
        return None;
    }
    if !is_share_of(q, w) {
        return None;
    }
    let (dx, dy) = step(s.a(), s.b());
    let x = part_way(s.a().x(), dx, p, w);
    let y = part_way(s.a().y(), dy, p, w);
    Pt::new(x, y)
}

/// The pixel of the meeting point of two segments; `None` exactly where they are parallel or don't meet.
///
/// A segment of no length is parallel to all.
/// Cost: three determinants in 128 bits, and two divisions where they meet.
pub fn crossing_pixel(s: &Seg, t: &Seg) -> Option<Pt>
    ensures exact { result ≡ crossing_pixel s.now t.now }
{
    let between = Seg::new(s.a(), t.a());
    let w = cross_of(*s, *t);
    let p = cross_of(between, *t);
    let q = cross_of(between, *s);
    if w == 0 {
        None
    } else if w < 0 {
        pixel_at(*s, -w, -p, -q)
    } else {
        pixel_at(*s, w, p, q)
    }
}
