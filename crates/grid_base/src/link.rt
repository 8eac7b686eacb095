ghost use Rattle.std.specs.Prelude.{◌≡◌, if◌then◌else◌, IsTrue};
ghost use Rattle.plane_model.specs.Points.{Segment, same_point, is_before, link_between};

use crate::point::Pt;
use std::marker::Model;

/// A link: a segment without direction between two distinct points. Links are ordered by their lesser, then by
/// their greater end.
#[derive(Clone, Copy, PartialEq, Eq, PartialOrd, Ord, Debug)]
pub struct Link {
    low: Pt,
    high: Pt,
}

impl Model for Link {
    ghost use Rattle.plane_model.specs.Points.{Segment, is_before};
    ghost use Rattle.std.specs.Prelude.{IsTrue};

    ghost Value = { Segment };

    ghost view = { λ l. record { start = l.low; stop = l.high } };

    ghost invariant = { λ l. IsTrue (is_before l.low l.high) };

    ghost inverse = { λ s. record { low = s.start; high = s.stop } };
}

impl Link {
    /// The link between `p` and `q`; `None` exactly where they are equal.
    pub fn of(p: Pt, q: Pt) -> Option<Link>
        ensures exact { result ≡ (if same_point p q then None else Some (link_between (record { start = p; stop = q }))) }
    {
        if p < q {
            Some(Link { low: p, high: q })
        } else if q < p {
            Some(Link { low: q, high: p })
        } else {
            None
        }
    }

    /// The lesser end.
    pub fn low(&self) -> Pt
        ensures lesser { result ≡ self.now.start }
        ensures ordered { IsTrue (is_before self.now.start self.now.stop) }
    {
        self.low
    }

    /// The greater end.
    pub fn high(&self) -> Pt
        ensures greater { result ≡ self.now.stop }
        ensures ordered { IsTrue (is_before self.now.start self.now.stop) }
    {
        self.high
    }
}
