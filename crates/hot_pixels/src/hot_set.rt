ghost use Rattle.std.specs.Prelude.{◌≡◌, ◌↔◌, ◌-◌, IfOk, IsTrue, Contains, length};
ghost use Rattle.lists.specs.Lists.{ascending};
ghost use Rattle.plane_model.specs.Points.{is_before};
ghost use Rattle.plane_model.specs.Drawing.{Drawing as Map};
ghost use Rattle.plane_model.specs.Hot.{hot_points, chain_among, chain_of};
ghost use Rattle.hot_pixels.specs.Chains.{AreHotPointsOf};

use crate::chains::sorted_along;
use crate::hot_edges::HotEdges;
use crate::near::{Run, along_curve, count_near, met_near, runs_over};
use grid_base::{Drawing, Pt, PtList, Seg};
use std::alloc::{AllocError, Global};
use std::marker::Model;

/// The hot points of a drawing, ascending, each once, for the chains of any segment.
#[derive(Drop)]
pub struct HotSet {
    drawn: HotEdges,
    // the points in an order of their own, and runs of them
    curved: Vec<Pt>,
    runs: Vec<Run>,
}

impl Model for HotSet {
    ghost use Rattle.std.specs.Prelude.{List};
    ghost use Rattle.plane_model.specs.Points.{GridPoint};
    ghost use Rattle.hot_pixels.specs.Near.{IsSearchable};

    ghost Value = { List GridPoint };

    ghost view = { λ s. s.drawn.points };

    ghost invariant = { λ s. IsSearchable s.drawn.points s.curved.items s.runs.items };
}

impl HotSet {
    /// The hot points: the vertices, and the pixels of all crossings of segments.
    ///
    /// Only segments that are near each other are tried.
    pub fn of(alloc: Global, d: &Drawing) -> Result<HotSet, AllocError>
        ensures exact { IfOk result (λ s. s ≡ ascending is_before (hot_points d.now)) }
    {
        let drawn = HotEdges::of(alloc, d)?;
        HotSet::over(alloc, drawn)
    }

    /// The same hot points, for the chains of any segment.
    pub fn over(alloc: Global, drawn: HotEdges) -> Result<HotSet, AllocError>
        ensures exact { IfOk result (λ s. s ≡ drawn.points) }
    {
        let curved = along_curve(alloc, drawn.points())?;
        let runs = runs_over(alloc, &curved)?;
        Ok(HotSet {
            drawn,
            curved,
            runs,
        })
    }

    /// The chain of a segment: the hot points whose pixels it meets, in the order in which it passes them.
    ///
    /// The chain is a drawing's where the set is, and it begins and ends at the segment's ends where these are hot.
    pub fn chain_of(&self, alloc: Global, s: &Seg) -> Result<PtList, AllocError>
        ensures exact { IfOk result (λ chain. chain ≡ chain_among self.now s.now) }
        ensures drawn { IfOk result (λ chain. (d : Map) → AreHotPointsOf d self.now → chain ≡ chain_of d s.now) }
    {
        let met = met_near(alloc, &self.curved, &self.runs, s)?;
        sorted_along(alloc, met, s)
    }

    /// How many links the chain of a segment has: one less than its points, and none where it has no point.
    pub fn chain_links(&self, s: &Seg) -> u64
        ensures exact { result ≡ length (chain_among self.now s.now) - 1 }
        ensures drawn { (d : Map) → AreHotPointsOf d self.now → result ≡ length (chain_of d s.now) - 1 }
    {
        count_near(&self.curved, &self.runs, s).saturating_sub(1)
    }

    /// Whether a point is hot.
    ///
    /// Cost: a binary search.
    pub fn contains(&self, p: Pt) -> bool
        ensures exact { IsTrue result ↔ Contains self.now p }
    {
        self.drawn.contains(p)
    }
}
