ghost use Rattle.std.specs.Prelude.{◌<◌, All, IfOk, length};
ghost use Rattle.plane_model.specs.Snapped.{links_of};
ghost use Rattle.arc_table.specs.Along.{GoAlong};
ghost use Rattle.arc_table.specs.ArcNets.{IsNetOf};
ghost use Rattle.arc_table.specs.Direction.{IsForward};
ghost use Rattle.arc_table.specs.Order.{AreNumbered};
ghost use Rattle.arc_table.specs.WholeArcs.{IsWholeArc, StartsAtLeast};

use crate::arc_net::ArcNet;
use crate::arc_order::{ArcListing, ArcOrder};
use crate::numbering::{pool_of, ways_of};
use grid_base::Drawing;
use span_pool::SpanPool;
use std::alloc::{AllocError, Global};
use std::marker::Model;

/// The arcs of a snapped drawing in the order of their numbers, and what a table of them is made of beside: it stands
/// on no links. Contracts see the list of their points.
#[derive(Drop)]
pub struct NumberedArcs {
    pub(crate) arcs: SpanPool,
    pub(crate) order: ArcOrder,
    // for each link the position of its greater end among these ends in order
    pub(crate) highs: Vec<u32>,
    // how many steps there are along the links
    pub(crate) steps: usize,
}

impl Model for NumberedArcs {
    ghost use Rattle.std.specs.Prelude.{◌≢◌, ◌<◌, All, AllPairs, List, length};
    ghost use Rattle.plane_model.specs.Points.{GridPoint};
    ghost use Rattle.arc_table.specs.Along.{links_of_arcs};
    ghost use Rattle.arc_table.specs.Direction.{IsForward};

    ghost Value = { List (List GridPoint) };

    ghost view = { λ n. n.arcs.spans };

    ghost invariant = { λ n. All (λ arc. 1 < length arc) n.arcs.spans
        × All IsForward n.arcs.spans
        × AllPairs (λ k l. k ≢ l) (links_of_arcs n.arcs.spans) };
}

impl NumberedArcs {
    /// The arcs of the paths of a snapped drawing along the steps of its net, which is let go. Each is as
    /// `ArcTable::build` has it.
    pub fn of(alloc: Global, d: &Drawing, net: ArcNet) -> Result<NumberedArcs, AllocError>
        requires net { IsNetOf d.now net.net }
        ensures long { IfOk result (λ t. All (λ arc. 1 < length arc) t) }
        ensures forward { IfOk result (λ t. All IsForward t) }
        ensures links { IfOk result (λ t. GoAlong (links_of d.now) t) }
        ensures whole { IfOk result (λ t. All (IsWholeArc d.now) t) }
        ensures least { IfOk result (λ t. All (StartsAtLeast d.now) t) }
        ensures numbered { IfOk result (λ t. AreNumbered d.now t) }
    {
        let ArcNet { net, highs } = net;
        let ways = ways_of(alloc, &net, d)?;
        let mut listing = ArcListing::new(alloc, &net, &ways)?;
        let arcs = pool_of(alloc, &net, &ways, &mut listing)?;
        Ok(NumberedArcs {
            arcs,
            order: listing.into_order(),
            highs,
            steps: net.step_count(),
        })
    }
}
