ghost use Rattle.std.specs.Prelude.{◌≡◌};
ghost use Rattle.plane_model.specs.Points.{Segment, reversed};

use crate::point::Pt;
use std::marker::Model;

/// A segment from one point to another; the ends may be equal.
#[derive(Clone, Copy, PartialEq, Eq, Debug)]
pub struct Seg {
    start: Pt,
    stop: Pt,
}

impl Model for Seg {
    ghost use Rattle.plane_model.specs.Points.{Segment};

    ghost Value = { Segment };

    ghost view = { λ s. record { start = s.start; stop = s.stop } };

    ghost inverse = { λ s. record { start = s.start; stop = s.stop } };
}

impl Seg {
    /// The segment from `a` to `b`, which may be equal.
    pub fn new(a: Pt, b: Pt) -> Seg
        ensures made { result ≡ record { start = a; stop = b } }
    {
        Seg { start: a, stop: b }
    }

    /// The point at which it starts.
    pub fn a(&self) -> Pt
        ensures exact { result ≡ self.now.start }
    {
        self.start
    }

    /// The point at which it ends.
    pub fn b(&self) -> Pt
        ensures exact { result ≡ self.now.stop }
    {
        self.stop
    }

    /// The segment from its end back to its start.
    pub fn back(&self) -> Seg
        ensures exact { result ≡ reversed self.now }
    {
        Seg::new(self.stop, self.start)
    }
}
