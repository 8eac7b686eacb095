ghost use Rattle.std.specs.Prelude.{IfOk};
ghost use Rattle.arc_table.specs.ArcNets.{IsNetOf};

use crate::half_links::Net;
use crate::merging::order_by_highs;
use crate::nodes::turns_of;
use grid_base::Snapped;
use known_order::positions_in;
use std::alloc::{AllocError, Global};

/// What arcs are made of beside the paths of a snapped drawing: the steps along its links, and where each leads on.
#[derive(Drop)]
pub struct ArcNet<'a> {
    pub(crate) net: Net<'a>,
    // for each link the position of its greater end among these ends in order: a wrong one costs time alone
    pub(crate) highs: Vec<u32>,
}

impl<'a> ArcNet<'a> {
    /// The net of a snapped drawing, whose links serve nothing else.
    pub fn of(alloc: Global, s: &'a Snapped) -> Result<ArcNet<'a>, AllocError>
        ensures exact { IfOk result (λ n. IsNetOf s.now n.net) }
    {
        let turns = turns_of(alloc, s)?;
        let links = s.links();
        let by_high = order_by_highs(alloc, links.as_slice())?;
        let net = Net::of(alloc, links, &turns, &by_high)?;
        let highs = positions_in(alloc, &by_high)?;
        Ok(ArcNet { net, highs })
    }
}
