ghost use Rattle.std.specs.Prelude.{◌≡◌, ◌*◌, ◌≤◌, ◌*ℤ◌, int_le, pos, unsigned_abs};
ghost use Rattle.plane_model.specs.Points.{at, step_x, turn};
ghost use Rattle.plane_model.specs.Parity.{is_below, is_over};
ghost use Rattle.plane_model.specs.Below.{rise, rises};
ghost use Rattle.grid_base.specs.Sizes.{IsStep, IsCross};
ghost use Rattle.link_search.specs.Under.{IsScaled, most_scaled};
ghost use Rattle.link_search.specs.Parting.{earlier, later, runs_over};

use grid_base::{Link, Pt, determinant, step};

// How the point `p` stands to a link: above 0 where it is strictly left of it, from its lesser to its greater end.
fn side_of(l: Link, p: Pt) -> i128
    ensures exact { result ≡ turn (at l.start) (at l.stop) (at p) }
    ensures small { IsCross result }
{
    let (ax, ay) = step(l.low(), l.high());
    let (bx, by) = step(l.low(), p);
    determinant(ax, ay, bx, by)
}

// How far a link goes to the right.
fn width_of(l: Link) -> i64
    ensures exact { result ≡ step_x (at l.start) (at l.stop) }
    ensures small { IsStep result }
{
    let (across, _) = step(l.low(), l.high());
    across
}

/// Whether a link stands over or under the abscissa of a point: its lesser end left of the point or under it, its
/// greater end right of the point.
pub fn is_over(l: Link, p: Pt) -> bool
    ensures exact { result ≡ is_over (at p) l }
{
    l.low().x() <= p.x() && p.x() < l.high().x()
}

/// Whether a link passes strictly below a point: its lesser end stands left of the point or under it, its greater
/// end right of the point.
pub fn is_below(l: Link, p: Pt) -> bool
    ensures exact { result ≡ is_below (at p) l }
{
    is_over(l, p) && 0 < side_of(l, p)
}

/// Whether a link passes through a point or above it.
pub fn is_at_or_above(l: Link, p: Pt) -> bool
    ensures exact { result ≡ int_le (turn (at l.start) (at l.stop) (at p)) (pos 0) }
{
    side_of(l, p) <= 0
}

// A product of a step and a determinant.
fn scaled(across: i64, side: i128) -> i128
    requires step { IsStep across }
    requires cross { IsCross side }
    ensures value { result ≡ across *ℤ side }
    ensures small { IsScaled result }
{
    across as i128 * side
}

// How high `l` runs above `k` at the abscissa of `p`, times positive numbers.
fn rise(l: Link, k: Link, p: Pt) -> i128
    ensures exact { result ≡ rise (at p) k l }
    ensures small { unsigned_abs result ≤ 2 * most_scaled }
{
    scaled(width_of(l), side_of(k, p)) - scaled(width_of(k), side_of(l, p))
}

// Above 0, or 0 beside a number below 0.
fn rises(height: i128, bend: i128) -> bool
    ensures exact { result ≡ rises height bend }
{
    if 0 < height {
        return true;
    }
    if height < 0 {
        return false;
    }
    bend < 0
}

/// Whether just right of the abscissa of `p` the link `k` runs below `l`, where both are over that abscissa.
pub fn goes_under(l: Link, k: Link, p: Pt) -> bool
    ensures exact { result ≡ rises (rise (at p) k l) (turn (at l.start) (at l.stop) (at k.stop)) }
{
    rises(rise(l, k, p), side_of(l, k.high()))
}

// The one of two points that stands further right.
fn later(p: Pt, q: Pt) -> Pt
    ensures exact { result ≡ later p q }
{
    if p.x() <= q.x() { q } else { p }
}

// The one of two points that stands further left.
fn earlier(p: Pt, q: Pt) -> Pt
    ensures exact { result ≡ earlier p q }
{
    if p.x() <= q.x() { p } else { q }
}

// Whether a link doesn't run below another at the abscissa of a point.
fn is_up(l: Link, k: Link, p: Pt) -> bool
    ensures exact { result ≡ int_le (rise (at p) l k) (pos 0) }
{
    rise(k, l, p) <= 0
}

/// Whether a link runs below another nowhere, between the ends of both.
pub fn runs_over(l: Link, k: Link) -> bool
    ensures exact { result ≡ runs_over l k }
{
    is_up(l, k, later(k.low(), l.low())) && is_up(l, k, earlier(k.high(), l.high()))
}
