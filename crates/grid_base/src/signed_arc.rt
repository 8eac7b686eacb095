ghost use Rattle.std.specs.Prelude.{◌≡◌, not, IfSome};
ghost use Rattle.plane_model.specs.Arcs.{SignedArc, forward, backward, index_of, arc_of_index};

use crate::numbers::ArcId;
use std::marker::Model;

/// An arc in its direction, or reversed.
#[derive(Clone, Copy, PartialEq, Eq, PartialOrd, Ord, Debug)]
pub struct SignedArc {
    arc: ArcId,
    is_reversed: bool,
}

impl Model for SignedArc {
    ghost use Rattle.plane_model.specs.Arcs.{SignedArc as Signed};

    ghost Value = { Signed };

    ghost view = { λ a. record { arc = a.arc; is_reversed = a.is_reversed } };

    ghost inverse = { λ a. record { arc = a.arc; is_reversed = a.is_reversed } };
}

impl SignedArc {
    /// The arc in its direction.
    pub fn forward(id: ArcId) -> SignedArc
        ensures made { result ≡ forward id }
    {
        SignedArc {
            arc: id,
            is_reversed: false,
        }
    }

    /// The arc reversed.
    pub fn backward(id: ArcId) -> SignedArc
        ensures made { result ≡ backward id }
    {
        SignedArc {
            arc: id,
            is_reversed: true,
        }
    }

    /// The arc's number, counted from 0, without the direction.
    pub fn id(&self) -> ArcId
        ensures exact { result ≡ self.now.arc }
    {
        self.arc
    }

    /// Whether the arc is gone along against its direction.
    pub fn is_reversed(&self) -> bool
        ensures exact { result ≡ self.now.is_reversed }
    {
        self.is_reversed
    }

    /// The same arc in the other direction.
    pub fn flip(&self) -> SignedArc
        ensures turned { result ≡ record { arc = self.now.arc; is_reversed = not self.now.is_reversed } }
    {
        SignedArc {
            arc: self.arc,
            is_reversed: !self.is_reversed,
        }
    }

    /// The index of TopoJSON: `n` for arc `n`, and `-n - 1` for arc `n` reversed.
    pub fn to_index(&self) -> i64
        ensures exact { result ≡ index_of self.now }
    {
        let number = self.arc.num() as i64;
        if self.is_reversed {
            -number - 1
        } else {
            number
        }
    }

    /// The signed arc of an index of TopoJSON; `None` exactly where the index names no arc below `count`.
    pub fn from_index(i: i64, count: u32) -> Option<SignedArc>
        ensures exact { result ≡ arc_of_index i count }
    {
        let is_reversed = i < 0;
        let number = if is_reversed { -(i + 1) } else { i };
        if number < count as i64 {
            Some(SignedArc {
                arc: ArcId::new(number as u32),
                is_reversed,
            })
        } else {
            None
        }
    }
}
