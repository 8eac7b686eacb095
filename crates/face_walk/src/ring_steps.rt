ghost use Rattle.std.specs.Prelude.{◌≡◌, ℕ, ◌∷◌, ◌++◌, [], IfOk, List, OnOk, filter, length, map, nat_eq};
ghost use Rattle.std.specs.List.Sorted.{IsNonDecreasing, IsNonDecreasingBy, IsPermutation};
ghost use Rattle.lists.specs.Lists.{joined_up};
ghost use Rattle.plane_model.specs.Points.{Path as Way};
ghost use Rattle.face_walk.specs.RingSteps.{AreAdded, AreStepsFrom, AreStepsOf, owners_from};

use arc_table::ArcTable;
use grid_base::{ArcId, Drawing, FeatId, Path, PtList, RingsList, next_number};
use known_order::{move_to_positions, positions_by_key};
use std::alloc::{AllocError, Global};

/// A step along an arc, by a ring of a polygon or by a box; these are known by numbers from 0. Steps are ordered by the
/// arc.
#[derive(Clone, Copy, PartialEq, Eq, PartialOrd, Ord)]
pub struct RingStep {
    pub arc: ArcId,
    pub item: u32,
}

/// The steps along arcs of the polygons and of the boxes of a drawing, each in order, and the feature of each polygon.
#[derive(Drop)]
pub struct PathSteps {
    pub(crate) polygon_steps: Vec<RingStep>,
    pub(crate) owners: Vec<FeatId>,
    pub(crate) box_steps: Vec<RingStep>,
    ghost polygons_by_arc: { IsNonDecreasingBy (λ s. s.arc) polygon_steps.items },
    ghost owners_in_order: { IsNonDecreasing owners.items },
    ghost boxes_by_arc: { IsNonDecreasingBy (λ s. s.arc) box_steps.items },
}

impl PathSteps {
    ghost use Rattle.std.specs.Prelude.{IfOk};
    ghost use Rattle.face_walk.specs.PathSteps.{AreAllStepsOf};

    /// The steps along the arcs of a table, of the rings and boxes of the drawing that it was built of.
    pub fn of(alloc: Global, t: &ArcTable, s: &Drawing) -> Result<PathSteps, AllocError>
        ensures steps { IfOk result (AreAllStepsOf t.now s.now) }
    {
        let polygons = polygon_steps(alloc, t, s)?;
        let box_steps = box_steps(alloc, t, s)?;
        Ok(PathSteps {
            polygon_steps: polygons.steps,
            owners: polygons.owners,
            box_steps,
        })
    }
}

/// The steps of all polygons, in order, and the feature of each polygon.
#[derive(Drop)]
pub struct PolygonSteps {
    pub steps: Vec<RingStep>,
    pub owners: Vec<FeatId>,
}

/// The steps of the polygons of a drawing, which are numbered feature by feature.
pub fn polygon_steps(alloc: Global, t: &ArcTable, s: &Drawing) -> Result<PolygonSteps, AllocError>
    ensures steps { IfOk result (λ all. AreStepsOf t.now (joined_up s.now.polygons) all.steps.items) }
    ensures owners { IfOk result (λ all. all.owners.items ≡ owners_from 0 s.now.polygons) }
{
    let mut all = PolygonSteps {
        steps: Vec::new(alloc),
        owners: Vec::new(alloc),
    };
    for f in 0..s.polygon_count() {
        let feature = FeatId::new(f);
        push_polygons(alloc, &mut all, t, feature, s.rings_of(feature))?;
    }
    sort_by_arc(alloc, &mut all.steps, t.count())?;
    Ok(all)
}

/// The steps of all boxes, in order.
pub fn box_steps(alloc: Global, t: &ArcTable, s: &Drawing) -> Result<Vec<RingStep>, AllocError>
    ensures steps { IfOk result (λ v. AreStepsOf t.now (map (λ path. path ∷ []) s.now.boxes) v.items) }
{
    let mut steps = Vec::new(alloc);
    for b in 0..s.box_count() {
        push_steps(alloc, &mut steps, t, b, s.box_of(b))?;
    }
    sort_by_arc(alloc, &mut steps, t.count())?;
    Ok(steps)
}

// Sorts steps along arcs with numbers below `count`. Those along one arc, in whose order they mostly stand, are moved
// together first.
fn sort_by_arc(alloc: Global, steps: &mut Vec<RingStep>, count: u32) -> Result<(), AllocError>
    ensures moved { OnOk result (IsPermutation steps.old.items steps.new.items) }
    ensures sorted { OnOk result (IsNonDecreasingBy (λ s. s.arc) steps.new.items) }
{
    let keys: Vec<u32> = steps.iter().map(|s| s.arc.num()).collect(alloc)?;
    let mut positions = positions_by_key(alloc, &keys, count as usize)?;
    move_to_positions(steps, &mut positions);
    steps.sort_unstable();
    Ok(())
}

// The polygons of one feature more.
fn push_polygons(
    alloc: Global,
    all: &mut PolygonSteps,
    t: &ArcTable,
    feature: FeatId,
    polygons: &RingsList,
) -> Result<(), AllocError>
    ensures owners { OnOk result (all.new.owners.items ≡ all.old.owners.items ++ map (λ p. feature) polygons.now) }
    ensures steps { (before : List (List Way)) → length all.old.owners.items ≡ length before →
        AreStepsFrom t.now 0 before all.old.steps.items →
        OnOk result (AreStepsFrom t.now 0 (before ++ polygons.now) all.new.steps.items) }
{
    for polygon in polygons.as_slice() {
        let number = next_number(all.owners.len())?;
        all.owners.push(feature)?;
        push_rings(alloc, &mut all.steps, t, number, polygon.as_slice())?;
    }
    Ok(())
}

fn push_rings(
    alloc: Global,
    steps: &mut Vec<RingStep>,
    t: &ArcTable,
    item: u32,
    rings: &[PtList],
) -> Result<(), AllocError>
    ensures added { OnOk result (AreAdded t.now item rings.now steps.old.items steps.new.items) }
{
    for ring in rings {
        push_steps(alloc, steps, t, item, ring)?;
    }
    Ok(())
}

fn push_steps(
    alloc: Global,
    steps: &mut Vec<RingStep>,
    t: &ArcTable,
    item: u32,
    path: &Path,
) -> Result<(), AllocError>
    ensures added { OnOk result (AreAdded t.now item (path.now ∷ []) steps.old.items steps.new.items) }
{
    let arcs = t.path_arcs(alloc, path)?;
    for a in arcs.as_slice() {
        steps.push(RingStep { arc: a.id(), item })?;
    }
    Ok(())
}

/// The steps along one arc, of steps in order.
pub fn steps_along(steps: &[RingStep], arc: ArcId) -> &[RingStep]
    ensures exact { IsNonDecreasingBy (λ s. s.arc) steps.now → result.now ≡ filter (λ s. nat_eq s.arc arc) steps.now }
{
    let first = steps.partition_point(|s| s.arc.num() < arc.num());
    let count = steps[first..].partition_point(|s| s.arc.num() == arc.num());
    &steps[first..first + count]
}
