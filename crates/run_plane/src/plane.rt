ghost use Rattle.std.specs.Prelude.{◌≡◌, [], All, List, length, nat_lt, replicate, slice_set, IfErr, IfOk, OnOk};
ghost use Rattle.std.specs.List.{AllZip};
ghost use Rattle.lists.specs.Lists.{put_in_order};
ghost use Rattle.plane_model.specs.Drawing.{Drawing as Drawn};
ghost use Rattle.plane_model.specs.Points.{Path};
ghost use Rattle.plane_model.specs.Snapped.{snapped};
ghost use Rattle.grid_base.specs.Drawn.{HasPaths};
ghost use Rattle.arc_table.specs.Direction.{IsForward};
ghost use Rattle.arc_table.specs.Order.{AreNumbered};
ghost use Rattle.arc_table.specs.PathArcs.{AreArcsOf};
ghost use Rattle.arc_table.specs.WholeArcs.{StartsAtLeast};
ghost use Rattle.face_walk.specs.Holders.{list_at};
ghost use Rattle.face_walk.specs.PathSteps.{AreAllStepsOf};
ghost use Rattle.face_walk.specs.Places.{IsBuiltOf};
ghost use Rattle.snap_round.specs.Snapping.{FaultMeans};
ghost use Rattle.run_plane.specs.Begun.{IsFew};
ghost use Rattle.run_plane.specs.LaidOut.{AreHeld, AreHeldFaces, IsLaidOut, PutsInto};
ghost use Rattle.run_plane.specs.LineArcs.{AreLineArcs};

use crate::lines::lines_along;
use arc_table::{ArcNet, ArcTable, NumberedArcs, SignedPaths};
use face_sets::FaceSet;
use face_walk::{Faces, Labels, PathSteps};
use grid_base::{Drawing, FaceId, FeatId, Snapped};
use snap_round::{SnapFault, into_snapped};
use std::alloc::{AllocError, Global};

/// The snapped drawing of all sources and boxes of a run, as arcs and faces.
#[derive(Drop)]
pub struct Plane {
    pub arcs: ArcTable,
    pub faces: Faces,
    /// The faces that each box holds, by its number, counted from 0.
    pub boxes: Vec<FaceSet>,
    ghost built: { IsBuiltOf arcs faces },
}

/// A drawing laid out: its plane, the faces that each polygon feature holds, and the paths of each line feature as
/// arcs, by the numbers of the features of each kind, counted from 0.
#[derive(Drop)]
pub struct LaidOut {
    pub plane: Plane,
    pub features: Vec<FaceSet>,
    pub lines: Vec<SignedPaths>,
}

/// Snaps a drawing, lets it go, and builds the arcs and faces of the snapped one.
///
/// Errors: `TooDense`, where its snapped paths have more than 8,000,000 links, repeats counted, and `Memory`.
pub fn laid_out(alloc: Global, drawing: Drawing) -> Result<LaidOut, SnapFault>
    ensures fault { IfErr result (FaultMeans drawing) }
    ensures few { IfOk result (λ laid. IsFew drawing) }
    ensures laid { IfOk result (λ laid. IsLaidOut (snapped drawing) laid.plane.arcs laid.plane.faces laid.plane.boxes.items laid.features.items) }
    ensures lines { IfOk result (λ laid. AllZip (AreLineArcs laid.plane.arcs) (snapped drawing).lines laid.lines.items) }
{
    let snapped = into_snapped(alloc, drawing)?;
    Ok(built(alloc, snapped)?)
}

fn built(alloc: Global, snapped: Snapped) -> Result<LaidOut, AllocError>
    ensures laid { IfOk result (λ laid. IsLaidOut snapped laid.plane.arcs laid.plane.faces laid.plane.boxes.items laid.features.items) }
    ensures lines { IfOk result (λ laid. AllZip (AreLineArcs laid.plane.arcs) snapped.lines laid.lines.items) }
{
    let drawn = ArcsAndPaths::of(alloc, snapped)?;
    let ArcsAndPaths { mut arcs, paths } = drawn;
    let along = AlongArcs::of(alloc, &arcs, paths)?;
    let AlongArcs {
        lines,
        steps,
        counts,
    } = along;
    let faces = faces_between(alloc, &arcs, counts.points)?;
    arcs.forget_order();
    let held = HeldFaces::of(alloc, &faces, steps, counts)?;
    Ok(LaidOut {
        plane: Plane {
            arcs,
            faces,
            boxes: held.boxes,
        },
        features: held.features,
        lines,
    })
}

// Without point features no run asks in which face a point lies.
fn faces_between(alloc: Global, arcs: &ArcTable, point_count: u32) -> Result<Faces, AllocError>
    ensures built { IfOk result (IsBuiltOf arcs.now) }
{
    if point_count == 0 {
        Faces::without_search(alloc, arcs)
    } else {
        Faces::build(alloc, arcs)
    }
}

// The arcs of a snapped drawing, and its paths.
#[derive(Drop)]
struct ArcsAndPaths {
    arcs: ArcTable,
    paths: Drawing,
}

impl ArcsAndPaths {
    // The links are let go once the arcs have their numbers, before the table of them is made.
    fn of(alloc: Global, snapped: Snapped) -> Result<ArcsAndPaths, AllocError>
        ensures paths { IfOk result (λ made. made.paths ≡ snapped) }
        ensures kept { IfOk result (λ made. HasPaths snapped) }
        ensures exact { IfOk result (λ made. AreArcsOf snapped made.arcs) }
        ensures forward { IfOk result (λ made. All IsForward made.arcs) }
        ensures least { IfOk result (λ made. All (StartsAtLeast snapped) made.arcs) }
        ensures numbered { IfOk result (λ made. AreNumbered snapped made.arcs) }
    {
        let _ = snapped.links();
        let net = ArcNet::of(alloc, &snapped)?;
        let numbered = NumberedArcs::of(alloc, snapped.paths(), net)?;
        let paths = snapped.into_paths();
        paths.keeps_paths();
        let arcs = ArcTable::of_numbered(alloc, numbered)?;
        Ok(ArcsAndPaths { arcs, paths })
    }
}

// How many features of two kinds, and how many boxes, a drawing has.
#[derive(Clone, Copy)]
struct Counts {
    polygons: u32,
    points: u32,
    boxes: u32,
}

// What the paths of a drawing are along its arcs.
#[derive(Drop)]
struct AlongArcs {
    lines: Vec<SignedPaths>,
    steps: PathSteps,
    counts: Counts,
}

impl AlongArcs {
    // The paths are let go.
    fn of(alloc: Global, arcs: &ArcTable, paths: Drawing) -> Result<AlongArcs, AllocError>
        ensures lines { IfOk result (λ along. AllZip (AreLineArcs arcs.now) paths.lines along.lines.items) }
        ensures steps { IfOk result (λ along. AreAllStepsOf arcs.now paths along.steps) }
        ensures features { IfOk result (λ along. along.counts.polygons ≡ length paths.polygons) }
        ensures boxes { IfOk result (λ along. along.counts.boxes ≡ length paths.boxes) }
    {
        Ok(AlongArcs {
            lines: lines_along(alloc, arcs, &paths)?,
            steps: PathSteps::of(alloc, arcs, &paths)?,
            counts: Counts {
                polygons: paths.polygon_count(),
                points: paths.point_count(),
                boxes: paths.box_count(),
            },
        })
    }
}

// The faces that each polygon feature holds, and each box, by their numbers.
#[derive(Drop)]
struct HeldFaces {
    features: Vec<FaceSet>,
    boxes: Vec<FaceSet>,
}

impl HeldFaces {
    fn of(
        alloc: Global,
        faces: &Faces,
        steps: PathSteps,
        counts: Counts,
    ) -> Result<HeldFaces, AllocError>
        ensures held { (t : List Path) (s : Drawn) → IsBuiltOf t faces.now → AreAllStepsOf t s steps → counts.polygons ≡ length s.polygons → counts.boxes ≡ length s.boxes →
            IfOk result (λ held. AreHeld s t faces.now held.boxes.items held.features.items) }
    {
        let labels = Labels::of_steps(alloc, faces, steps)?;
        HeldFaces::by_labels(alloc, faces, &labels, counts)
    }

    // For each feature and each box the faces whose labels have it.
    fn by_labels(
        alloc: Global,
        faces: &Faces,
        labels: &Labels,
        counts: Counts,
    ) -> Result<HeldFaces, AllocError>
        requires holders { length labels.now.holders ≡ faces.now.count }
        requires boxes { length labels.now.boxes ≡ faces.now.count }
        ensures features { IfOk result (λ held. AreHeldFaces labels.now.holders faces.now.count counts.polygons held.features.items) }
        ensures boxes { IfOk result (λ held. AreHeldFaces labels.now.boxes faces.now.count counts.boxes held.boxes.items) }
    {
        let mut features = empty_sets(alloc, counts.polygons)?;
        let mut boxes = empty_sets(alloc, counts.boxes)?;
        for number in 0..faces.count() {
            let face = FaceId::new(number);
            put_in_features(&mut features, labels.holders(face), face)?;
            put_in_boxes(&mut boxes, labels.boxes(face), face)?;
        }
        Ok(HeldFaces { features, boxes })
    }
}

fn put_in_features(
    sets: &mut Vec<FaceSet>,
    features: &[FeatId],
    face: FaceId,
) -> Result<(), AllocError>
    ensures put { OnOk result (PutsInto features.now face sets.old.items sets.new.items) }
{
    for feature in features {
        put_face(sets, feature.num(), face)?;
    }
    Ok(())
}

fn put_in_boxes(sets: &mut Vec<FaceSet>, boxes: &[u32], face: FaceId) -> Result<(), AllocError>
    ensures put { OnOk result (PutsInto boxes.now face sets.old.items sets.new.items) }
{
    for number in boxes {
        put_face(sets, *number, face)?;
    }
    Ok(())
}

fn empty_sets(alloc: Global, count: u32) -> Result<Vec<FaceSet>, AllocError>
    ensures empty { IfOk result (λ sets. sets.items ≡ replicate count []) }
{
    let mut sets = Vec::new(alloc);
    for _number in 0..count {
        sets.push(FaceSet::new(alloc))?;
    }
    Ok(sets)
}

// Puts a face into the set with this number, where there is one.
fn put_face(sets: &mut Vec<FaceSet>, number: u32, face: FaceId) -> Result<(), AllocError>
    ensures put { OnOk result (sets.new.items ≡ slice_set sets.old.items number (put_in_order nat_lt face (list_at sets.old.items number))) }
{
    match sets.get_mut(number as usize) {
        Some(set) => set.insert(face),
        None => Ok(()),
    }
}
