ghost use Rattle.std.specs.Prelude.{◌≡◌, ◌<◌, ◌≤◌, All, List, length, map};
ghost use Rattle.plane_model.specs.Points.{GridPoint};
ghost use Rattle.arc_table.specs.Around.{IsTurned, start_of};
ghost use Rattle.arc_table.specs.Rows.{AreRows};

use crate::table::ArcTable;
use grid_base::SignedArc;
use std::alloc::{AllocError, Global};

// Where the links of arcs, and their greater ends, stand in order: a wrong one costs time alone.
#[derive(Drop)]
pub(crate) struct LinkOrder {
    // for each link of each arc its number among the links in order
    pub(crate) links: Vec<u32>,
    pub(crate) highs: Vec<u32>,
}

impl ArcTable {
    /// For each link of the arcs, one arc after another, its position among the links in order. It is not proved: a
    /// wrong one costs time alone.
    pub fn link_positions(&self, alloc: Global) -> Result<Vec<u32>, AllocError> {
        match &self.order {
            Some(order) => Vec::from_slice(alloc, &order.links),
            None => Ok(Vec::new(alloc)),
        }
    }

    /// For each of the links in order the position of its greater end among the greater ends in order. It is not
    /// proved: a wrong one costs time alone.
    pub fn high_positions(&self) -> &[u32] {
        match &self.order {
            Some(order) => &order.highs,
            None => &[],
        }
    }

    /// Lets the positions of links go, once no more faces are built of the table.
    pub fn forget_order(&mut self)
        ensures same { self.new ≡ self.old }
    {
        self.order = None;
    }

    /// Where the row of each vertex where arcs start begins among all signed arcs by their starts, counted from 0, and
    /// after these where the last row ends; and these arcs, in each row counterclockwise from the direction of the
    /// positive x axis.
    pub fn rows(&self) -> (&[u32], &[SignedArc])
        ensures turned { IsTurned self.now (map (start_of self.now) result.1.now) result.1.now }
        ensures rows { (nodes : List GridPoint) × AreRows (map (start_of self.now) result.1.now) nodes result.0.now }
        ensures within { All (λ place. place ≤ length result.1.now) result.0.now }
        ensures there { All (λ a. a.arc < length self.now) result.1.now }
    {
        (&self.rows, &self.outs)
    }
}
