ghost use Rattle.std.specs.Prelude.{◌≡◌, ⊤};
ghost use Rattle.grid_base.specs.Boxes.{box_of};
ghost use Rattle.grid_base.specs.Grid.{Corners, IsOnGrid};

use grid_base::{Rect, Seg};

/// An item that has a box.
///
/// `corners` is that box, and `known` what a call of `rect` shows of the item.
pub trait Boxed {
    ghost corners: { Self → Corners };

    ghost known: { Self → Type 0 };

    /// The box of the item. It is asked for at each division anew, so it should cost little.
    fn rect(&self) -> Rect
        ensures exact { result ≡ corners self.now }
        ensures told { known self.now };
}

// A rectangle is its own box.
impl Boxed for Rect {
    ghost corners = { λ r. r };

    ghost known = { λ r. ⊤ };

    #[inline(always)]
    fn rect(&self) -> Rect {
        *self
    }
}

// The box of a segment holds its ends, which lie on the grid.
impl Boxed for Seg {
    ghost corners = { box_of };

    ghost known = { λ s. IsOnGrid s.start × IsOnGrid s.stop };

    #[inline(always)]
    fn rect(&self) -> Rect {
        Rect::around(self.a(), self.b())
    }
}
