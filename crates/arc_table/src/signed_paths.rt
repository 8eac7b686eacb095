ghost use Rattle.std.specs.Prelude.{◌≡◌, ◌<◌, All, IfOk, IfSome, Some, length};
ghost use Rattle.arc_table.specs.Lookup.{BeginAlong, IsBegunBy};
ghost use Rattle.arc_table.specs.PathArcs.{AreArcsAlong, BeginsAtLeast};

use crate::half_links::{Step, is_step};
use crate::list_types::SignedPath;
use crate::table::ArcTable;
use grid_base::{ArcId, Path, SignedArc};
use std::alloc::{AllocError, Global};

impl ArcTable {
    /// The arcs that a snapped path goes along, in order. A closed path is gone along from its first node, or where
    /// it has none from its least vertex: then it is one closed arc, named as often as the path goes round it.
    pub fn path_arcs(&self, alloc: Global, path: &Path) -> Result<SignedPath, AllocError>
        ensures exact { IfOk result (AreArcsAlong self.now path.now) }
        ensures least { IfOk result (BeginsAtLeast self.now path.now) }
        ensures begun { IfOk result (BeginAlong self.now path.now) }
        ensures there { IfOk result (λ arcs. All (λ a. a.arc < length self.now) arcs) }
    {
        let points = path.as_slice();
        let mut arcs = SignedPath::new(alloc);
        // An arc begins at each node on the way, so no step before the first node begins one, and none inside an arc.
        let mut inside = 0;
        let mut near = 0;
        for i in 1..points.len() {
            if inside > 0 {
                inside -= 1;
            } else if let Some(arc) = self.begun_near(near, Step::new(points[i - 1], points[i])) {
                arcs.push(arc)?;
                inside = self.points_of(arc.id()).len() - 2;
                near = arc.id().num();
            }
        }
        Ok(arcs)
    }

    // The signed arc that begins with a step. The arcs whose numbers are next to `near` are tried first: a path often
    // goes along arcs in the order of their numbers, or back along them.
    fn begun_near(&self, near: u32, step: Step) -> Option<SignedArc>
        ensures exact { IsBegunBy self.now step result }
        ensures there { IfSome result (λ a. a.arc < length self.now) }
    {
        if let Some(arc) = self.begun_at(near.wrapping_add(1), step) {
            return Some(arc);
        }
        if let Some(arc) = self.begun_at(near.wrapping_sub(1), step) {
            return Some(arc);
        }
        self.begun_by(step)
    }

    // The arc with this number, in the direction in which it begins with a step.
    fn begun_at(&self, n: u32, step: Step) -> Option<SignedArc>
        ensures exact { IfSome result (λ a. IsBegunBy self.now step (Some a)) }
    {
        if n >= self.count() {
            return None;
        }
        let forward = SignedArc::forward(ArcId::new(n));
        if is_step(self.first_step(forward), step) {
            Some(forward)
        } else if is_step(self.first_step(forward.flip()), step) {
            Some(forward.flip())
        } else {
            None
        }
    }
}
