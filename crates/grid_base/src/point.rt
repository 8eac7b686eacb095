ghost use Rattle.std.specs.Prelude.{◌≡◌, ◌-ℤ◌, ◌*ℤ◌, true, false, Contains};
ghost use Rattle.std.specs.List.Sorted.{IsSorted};
ghost use Rattle.plane_model.specs.Points.{GridPoint, Segment, cross, is_before, same_point};
ghost use Rattle.grid_base.specs.Grid.{grid_point, IsOnGrid};
ghost use Rattle.grid_base.specs.Order.{point_cmp};
ghost use Rattle.grid_base.specs.Boxes.{greater, lesser, lower_left, upper_right};
ghost use Rattle.grid_base.specs.Sizes.{IsStep, IsCross};

use grid_bounds::LIMIT;
use std::marker::Model;

/// A point of the grid. Points are ordered by x, then by y.
#[derive(Clone, Copy, PartialEq, Eq, PartialOrd, Ord, Debug)]
pub struct Pt {
    x: i64,
    y: i64,
}

impl Model for Pt {
    ghost use Rattle.plane_model.specs.Points.{GridPoint};
    ghost use Rattle.grid_base.specs.Grid.{IsOnGrid};

    ghost Value = { GridPoint };

    ghost view = { λ p. record { x = p.x; y = p.y } };

    ghost invariant = { λ p. IsOnGrid (record { x = p.x; y = p.y }) };

    ghost inverse = { λ p. record { x = p.x; y = p.y } };
}

impl Pt {
    /// The point (`x`, `y`); `None` exactly where |`x`| or |`y`| passes [`LIMIT`].
    pub fn new(x: i64, y: i64) -> Option<Pt>
        ensures exact { result ≡ grid_point x y }
        ensures within { IsOnGrid (record { x = x; y = y }) → result ≡ Some (record { x = x; y = y }) }
    {
        if -LIMIT <= x && x <= LIMIT && -LIMIT <= y && y <= LIMIT {
            Some(Pt { x, y })
        } else {
            None
        }
    }

    /// The abscissa: a grid number, at most [`LIMIT`] either way.
    pub fn x(&self) -> i64
        ensures exact { result ≡ self.now.x }
        ensures bounded { IsOnGrid self.now }
    {
        self.x
    }

    /// The ordinate: a grid number, at most [`LIMIT`] either way.
    pub fn y(&self) -> i64
        ensures exact { result ≡ self.now.y }
        ensures bounded { IsOnGrid self.now }
    {
        self.y
    }
}

/// Whether two points are equal, in x and in y.
pub fn is_same(p: Pt, q: Pt) -> bool
    ensures exact { result ≡ same_point p q }
{
    p == q
}

/// Whether `p` comes before `q`: points are ordered by x, then by y.
pub fn is_before(p: Pt, q: Pt) -> bool
    ensures exact { result ≡ is_before p q }
{
    p < q
}

/// Whether a point is among points in order.
///
/// Cost: a binary search.
pub fn has_point(points: &[Pt], p: Pt) -> bool
    requires sorted { IsSorted point_cmp points.now }
    ensures yes { result ≡ true → Contains points.now p }
    ensures no { result ≡ false → Contains points.now p → ⊥ }
{
    match points.binary_search(&p) {
        Ok(_) => true,
        Err(_) => false,
    }
}

/// The lesser of two numbers.
pub fn lesser(a: i64, b: i64) -> i64
    ensures exact { result ≡ lesser a b }
{
    if a <= b { a } else { b }
}

/// The greater of two numbers.
pub fn greater(a: i64, b: i64) -> i64
    ensures exact { result ≡ greater a b }
{
    if a <= b { b } else { a }
}

/// The lower left corner of the least rectangle that holds two points.
pub fn lower_left(p: Pt, q: Pt) -> Pt
    ensures exact { result ≡ lower_left p q }
    ensures first_on_grid { IsOnGrid p }
    ensures second_on_grid { IsOnGrid q }
{
    let x = lesser(p.x(), q.x());
    let y = lesser(p.y(), q.y());
    Pt { x, y }
}

/// The upper right corner of the least rectangle that holds two points.
pub fn upper_right(p: Pt, q: Pt) -> Pt
    ensures exact { result ≡ upper_right p q }
{
    let x = greater(p.x(), q.x());
    let y = greater(p.y(), q.y());
    Pt { x, y }
}

/// How far `to` stands to the right of `from`, and above it.
pub fn step(from: Pt, to: Pt) -> (i64, i64)
    ensures across { result.0 ≡ to.x -ℤ from.x }
    ensures upward { result.1 ≡ to.y -ℤ from.y }
    ensures across_small { IsStep result.0 }
    ensures upward_small { IsStep result.1 }
    ensures from_on_grid { IsOnGrid from }
    ensures to_on_grid { IsOnGrid to }
{
    (to.x() - from.x(), to.y() - from.y())
}

/// The determinant of two steps, (`a`, `b`) and (`c`, `d`).
pub fn determinant(a: i64, b: i64, c: i64, d: i64) -> i128
    requires a_small { IsStep a }
    requires b_small { IsStep b }
    requires c_small { IsStep c }
    requires d_small { IsStep d }
    ensures value { result ≡ a *ℤ d -ℤ b *ℤ c }
    ensures small { IsCross result }
{
    a as i128 * d as i128 - b as i128 * c as i128
}

/// The cross product of the steps from `a` to `b` and from `a` to `c`: above 0 where the three turn left.
pub fn turn(a: Pt, b: Pt, c: Pt) -> i128
    ensures exact { result ≡ cross (record { start = a; stop = b }) (record { start = a; stop = c }) }
{
    let (bx, by) = step(a, b);
    let (cx, cy) = step(a, c);
    determinant(bx, by, cx, cy)
}
