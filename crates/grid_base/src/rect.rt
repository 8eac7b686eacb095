ghost use Rattle.std.specs.Prelude.{◌≡◌};
ghost use Rattle.plane_model.specs.Points.{Segment};
ghost use Rattle.grid_base.specs.Grid.{corners_of, IsAtMost, IsOnGrid};
ghost use Rattle.grid_base.specs.Boxes.{box_of};

use crate::point::{Pt, lower_left, upper_right};
use std::marker::Model;

/// A rectangle with sides along the axes; it may be flat.
#[derive(Clone, Copy, PartialEq, Eq, Debug)]
pub struct Rect {
    low: Pt,
    high: Pt,
}

impl Model for Rect {
    ghost use Rattle.grid_base.specs.Grid.{Corners, IsAtMost};

    ghost Value = { Corners };

    ghost view = { λ r. record { low = r.low; high = r.high } };

    ghost invariant = { λ r. IsAtMost r.low r.high };

    ghost inverse = { λ c. record { low = c.low; high = c.high } };
}

impl Rect {
    /// The rectangle with these corners; `None` exactly where a number of `low` passes the same number of `high`.
    pub fn new(low: Pt, high: Pt) -> Option<Rect>
        ensures exact { result ≡ corners_of low high }
    {
        if low.x() <= high.x() && low.y() <= high.y() {
            Some(Rect { low, high })
        } else {
            None
        }
    }

    /// The least rectangle that holds two points.
    pub fn around(p: Pt, q: Pt) -> Rect
        ensures exact { result ≡ box_of (record { start = p; stop = q }) }
        ensures first_on_grid { IsOnGrid p }
        ensures second_on_grid { IsOnGrid q }
    {
        Rect {
            low: lower_left(p, q),
            high: upper_right(p, q),
        }
    }

    /// The lower left corner: neither of its grid numbers passes that of the upper right one.
    pub fn low(&self) -> Pt
        ensures exact { result ≡ self.now.low }
        ensures ordered { IsAtMost self.now.low self.now.high }
    {
        self.low
    }

    /// The upper right corner: neither of its grid numbers is less than that of the lower left one.
    pub fn high(&self) -> Pt
        ensures exact { result ≡ self.now.high }
        ensures ordered { IsAtMost self.now.low self.now.high }
    {
        self.high
    }
}
