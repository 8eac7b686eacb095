ghost use Rattle.std.specs.Prelude.{◌≡◌, ◌++◌, ◌∷◌, [], IfOk, OnOk, if◌then◌else◌, length, map};
ghost use Rattle.std.specs.List.{AllZip};
ghost use Rattle.run_plane.specs.OnPlane.{AreBelow, AreOn, IsLayerOn, IsOn};
ghost use Rattle.run_shapes.specs.Cutting.{ArePointsLeft, AreShapesLeft, IsCut, IsShapeLeft, StaysAt, cut_faces, cut_paths};
ghost use Rattle.run_state.specs.FaceSets.{face_shapes, sets_in};

use arc_table::SignedPaths;
use face_sets::{FaceSet, SetList};
use grid_base::{Kind, Pt, PtList};
use line_ops::{clip_paths, erase_paths, point_inside};
use region_ops::{clip_sets, erase_sets};
use run_plane::{Layer, Plane, Shape};
use run_state::{nonempty, sets_of, shapes_of};
use std::alloc::{AllocError, Global};

/// What stays of a feature: what lies inside the cutting set, or what doesn't.
#[derive(Clone, Copy, Debug, PartialEq, Eq)]
pub enum CutKeeps {
    Inside,
    Outside,
}

/// The layer with what the cut leaves of its features; those without geometry afterwards are left out.
///
/// Errors: `AllocError` for want of memory.
pub fn cut(
    alloc: Global,
    plane: &Plane,
    layer: &Layer,
    cut_set: &FaceSet,
    keeps: CutKeeps,
) -> Result<Layer, AllocError>
    requires on { IsLayerOn plane.now layer.now }
    ensures made { IfOk result (IsCut keeps plane.now cut_set.now layer.now) }
    ensures on { IfOk result (IsLayerOn plane.now) }
{
    let shapes = shapes_left(alloc, plane, layer, cut_set, keeps)?;
    nonempty(alloc, layer, shapes)
}

fn shapes_left(
    alloc: Global,
    plane: &Plane,
    layer: &Layer,
    cut_set: &FaceSet,
    keeps: CutKeeps,
) -> Result<Vec<Shape>, AllocError>
    requires on { IsLayerOn plane.now layer.now }
    ensures exact { IfOk result (λ left. AreShapesLeft layer.now.kind keeps plane.now cut_set.now layer.now.shapes.items left.items) }
    ensures on { IfOk result (λ left. AreOn plane.now left.items) }
    ensures count { IfOk result (λ left. length left.items ≡ length layer.now.shapes.items) }
{
    match layer.kind {
        Kind::Polygon => cut_polygons(alloc, &layer.shapes, cut_set, keeps),
        Kind::Line | Kind::Point | Kind::Table => {
            cut_shapes(alloc, plane, &layer.shapes, cut_set, keeps)
        }
    }
}

fn cut_polygons(
    alloc: Global,
    shapes: &[Shape],
    cut_set: &FaceSet,
    keeps: CutKeeps,
) -> Result<Vec<Shape>, AllocError>
    ensures exact { IfOk result (λ left. left.items ≡ face_shapes (map (cut_faces keeps cut_set.now) (sets_in shapes.now))) }
    ensures count { IfOk result (λ left. length left.items ≡ length shapes.now) }
{
    let sets = sets_of(alloc, shapes)?;
    let left = cut_sets(alloc, &sets, cut_set, keeps)?;
    shapes_of(alloc, left.into_vec())
}

fn cut_sets(
    alloc: Global,
    sets: &SetList,
    cut_set: &FaceSet,
    keeps: CutKeeps,
) -> Result<SetList, AllocError>
    ensures exact { IfOk result (λ left. left ≡ map (cut_faces keeps cut_set.now) sets.now) }
    ensures count { IfOk result (λ left. length left ≡ length sets.now) }
{
    match keeps {
        CutKeeps::Inside => clip_sets(alloc, sets, cut_set),
        CutKeeps::Outside => erase_sets(alloc, sets, cut_set),
    }
}

fn cut_shapes(
    alloc: Global,
    plane: &Plane,
    shapes: &[Shape],
    cut_set: &FaceSet,
    keeps: CutKeeps,
) -> Result<Vec<Shape>, AllocError>
    requires on { AreOn plane.now shapes.now }
    ensures exact { IfOk result (λ left. AllZip (IsShapeLeft keeps plane.now cut_set.now) shapes.now left.items) }
    ensures on { IfOk result (λ left. AreOn plane.now left.items) }
    ensures count { IfOk result (λ left. length left.items ≡ length shapes.now) }
{
    let mut left = Vec::new(alloc);
    for shape in shapes {
        left.push(cut_shape(alloc, plane, shape, cut_set, keeps)?)?;
    }
    Ok(left)
}

fn cut_shape(
    alloc: Global,
    plane: &Plane,
    shape: &Shape,
    cut_set: &FaceSet,
    keeps: CutKeeps,
) -> Result<Shape, AllocError>
    requires on { IsOn plane.now shape.now }
    ensures exact { IfOk result (IsShapeLeft keeps plane.now cut_set.now shape.now) }
    ensures on { IfOk result (IsOn plane.now) }
{
    match shape {
        Shape::Paths(paths) => Ok(Shape::Paths(cut_paths(alloc, plane, paths, cut_set, keeps)?)),
        Shape::Points(points) => Ok(Shape::Points(cut_points(
            alloc, plane, points, cut_set, keeps,
        )?)),
        Shape::Nothing | Shape::Faces(_) => Ok(Shape::Nothing),
    }
}

fn cut_paths(
    alloc: Global,
    plane: &Plane,
    paths: &SignedPaths,
    cut_set: &FaceSet,
    keeps: CutKeeps,
) -> Result<SignedPaths, AllocError>
    requires on { AreBelow (length plane.now.arcs) paths.now }
    ensures exact { IfOk result (λ left. left ≡ cut_paths keeps plane.now cut_set.now paths.now) }
    ensures on { IfOk result (AreBelow (length plane.now.arcs)) }
{
    match keeps {
        CutKeeps::Inside => clip_paths(alloc, &plane.faces, paths, cut_set),
        CutKeeps::Outside => erase_paths(alloc, &plane.faces, paths, cut_set),
    }
}

fn cut_points(
    alloc: Global,
    plane: &Plane,
    points: &PtList,
    cut_set: &FaceSet,
    keeps: CutKeeps,
) -> Result<PtList, AllocError>
    ensures exact { IfOk result (ArePointsLeft keeps plane.now cut_set.now points.now) }
{
    let mut left = PtList::new(alloc);
    for point in points.as_slice() {
        push_if(&mut left, *point, stays(plane, *point, cut_set, keeps))?;
    }
    Ok(left)
}

fn push_if(points: &mut PtList, point: Pt, stays: bool) -> Result<(), AllocError>
    ensures pushed { OnOk result (points.new ≡ points.old ++ (if stays then point ∷ [] else [])) }
{
    if stays {
        points.push(point)?;
    }
    Ok(())
}

fn stays(plane: &Plane, point: Pt, cut_set: &FaceSet, keeps: CutKeeps) -> bool
    ensures exact { StaysAt keeps plane.now cut_set.now point result }
{
    match keeps {
        CutKeeps::Inside => point_inside(&plane.arcs, &plane.faces, point, cut_set),
        CutKeeps::Outside => !point_inside(&plane.arcs, &plane.faces, point, cut_set),
    }
}
