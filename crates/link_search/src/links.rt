ghost use Rattle.std.specs.Prelude.{◌≡◌, IfOk};
ghost use Rattle.grid_base.specs.Boxes.{box_of};
ghost use Rattle.link_search.specs.Rows.{AreStops};
ghost use Rattle.link_search.specs.Topmost.{HasGridEnds};

use bucket_grid::Boxed;
use grid_base::{Link, Pt, Rect, SignedArc};
use known_order::move_to_positions;
use std::alloc::{AllocError, Global};

/// A link of an arc, and the signed arc that goes along it from its lesser to its greater end. They are ordered by
/// the link.
#[derive(Clone, Copy, PartialEq, Eq, PartialOrd, Ord, Debug)]
pub struct ArcLink {
    pub link: Link,
    pub along: SignedArc,
}

// The box of a link holds its ends.
impl Boxed for ArcLink {
    ghost corners = { λ l. box_of l.link };

    ghost known = { HasGridEnds };

    #[inline(always)]
    fn rect(&self) -> Rect {
        Rect::around(self.link.low(), self.link.high())
    }
}

/// The greater ends of links, in order, where `positions` has for each link the position of its end: a wrong one costs
/// time alone.
pub fn highs_of(alloc: Global, links: &[ArcLink], positions: &[u32]) -> Result<Vec<Pt>, AllocError>
    ensures exact { IfOk result (λ v. AreStops links.now v.items) }
{
    let mut highs = Vec::with_capacity(alloc, links.len())?;
    for l in links {
        highs.push(l.link.high())?;
    }
    let mut left = Vec::with_capacity(alloc, positions.len())?;
    left.extend_from_slice(positions)?;
    move_to_positions(&mut highs, &mut left);
    // After this the sort has only to find the ends in order.
    highs.sort_unstable();
    Ok(highs)
}
