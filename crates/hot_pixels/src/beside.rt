ghost use Rattle.std.specs.Prelude.{◌≡◌, true, false, None, IsTrue};
ghost use Rattle.plane_model.specs.Pixel.{meets, crossing_pixel};
ghost use Rattle.hot_pixels.specs.Near.{is_outside};
ghost use Rattle.hot_pixels.specs.Spots.{is_end, share_end};

use crate::half_open::meets;
use grid_base::{Pt, Seg, greater, is_same, lesser};

/// Whether a and b are both below `low`, or both above `high`.
pub fn is_outside(a: i64, b: i64, low: i64, high: i64) -> bool
    ensures exact { result ≡ is_outside a b low high }
{
    a < low && b < low || high < a && high < b
}

/// Whether the boxes of two segments lie beside each other, so that the segments don't cross.
pub fn is_beside(s: &Seg, t: &Seg) -> bool
    ensures yes { IsTrue result → crossing_pixel s.now t.now ≡ None }
{
    let (a, b) = (s.a(), s.b());
    let (c, d) = (t.a(), t.b());
    if is_outside(a.x(), b.x(), lesser(c.x(), d.x()), greater(c.x(), d.x())) {
        return true;
    }
    is_outside(a.y(), b.y(), lesser(c.y(), d.y()), greater(c.y(), d.y()))
}

/// Whether a point lies beside the box of a segment, so that the segment doesn't meet its pixel.
pub fn is_off(s: &Seg, p: Pt) -> bool
    ensures yes { result ≡ true → meets s.now p ≡ false }
{
    let (a, b) = (s.a(), s.b());
    if is_outside(a.x(), b.x(), p.x(), p.x()) {
        return true;
    }
    is_outside(a.y(), b.y(), p.y(), p.y())
}

/// Whether a segment meets the pixel of a point. A point beside the segment's box is passed over.
pub fn is_met(s: &Seg, p: Pt) -> bool
    ensures exact { result ≡ meets s.now p }
{
    if is_off(s, p) {
        return false;
    }
    meets(s, p)
}

/// Whether a point is an end of a segment.
pub fn is_end(s: &Seg, p: Pt) -> bool
    ensures exact { result ≡ is_end s.now p }
{
    is_same(p, s.a()) || is_same(p, s.b())
}

/// Whether two segments have an end in common.
pub fn share_end(s: &Seg, t: &Seg) -> bool
    ensures exact { result ≡ share_end s.now t.now }
{
    is_end(t, s.a()) || is_end(t, s.b())
}
