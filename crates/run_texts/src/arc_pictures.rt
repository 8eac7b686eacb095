ghost use Rattle.std.specs.Prelude.{◌≡◌, ℕ, All, IfOk, length};
ghost use Rattle.std.specs.List.{AllZip};
ghost use Rattle.topo_io.specs.Arcs.{LayerIsBelow, ShapeIsBelow};
ghost use Rattle.face_sets.specs.Sets.{IsSetOf};
ghost use Rattle.run_plane.specs.OnPlane.{AreBelow, AreOn, IsLayerOn, IsOn};
ghost use Rattle.run_texts.specs.Tracing.{AreTraced, IsTraced, IsTracedLayer, lines_along, points_alone};

use arc_table::SignedPaths;
use face_sets::FaceSet;
use grid_base::PtList;
use ring_trace::trace;
use run_plane::{Layer, Plane, Shape, copy_paths, copy_points, copy_text};
use std::alloc::{AllocError, Global};
use table_rows::copy_table;
use topo_io::{ArcLayer, ArcShape, ArcShapeList};

/// A layer with its shapes as arcs of the plane, in the order of its features: rings round faces, and paths.
///
/// Errors: `AllocError` for want of memory.
pub(crate) fn arc_layer_of(
    alloc: Global,
    plane: &Plane,
    layer: &Layer,
) -> Result<ArcLayer, AllocError>
    requires on { IsLayerOn plane.now layer.now }
    ensures below { IfOk result (LayerIsBelow (length plane.now.arcs)) }
    ensures traced { IfOk result (IsTracedLayer plane.now layer.now) }
{
    let shapes = arc_shapes(alloc, plane, &layer.shapes)?;
    Ok(ArcLayer {
        name: copy_text(alloc, &layer.name)?,
        kind: layer.kind,
        table: copy_table(alloc, &layer.table)?,
        shapes,
    })
}

fn arc_shapes(alloc: Global, plane: &Plane, shapes: &[Shape]) -> Result<ArcShapeList, AllocError>
    requires on { AreOn plane.now shapes.now }
    ensures count { IfOk result (λ traced. length traced ≡ length shapes.now) }
    ensures below { IfOk result (All (ShapeIsBelow (length plane.now.arcs))) }
    ensures traced { IfOk result (AllZip (IsTraced plane.now) shapes.now) }
{
    let mut traced = ArcShapeList::new(alloc);
    for shape in shapes {
        traced.push(arc_shape(alloc, plane, shape)?)?;
    }
    Ok(traced)
}

// A shape as arcs of the plane; nothing for one that is empty.
fn arc_shape(alloc: Global, plane: &Plane, shape: &Shape) -> Result<ArcShape, AllocError>
    requires on { IsOn plane.now shape.now }
    ensures below { IfOk result (ShapeIsBelow (length plane.now.arcs)) }
    ensures traced { IfOk result (IsTraced plane.now shape.now) }
{
    match shape {
        Shape::Nothing => Ok(ArcShape::Nothing),
        Shape::Faces(faces) => rings_round(alloc, plane, faces),
        Shape::Paths(paths) => lines_along(alloc, plane, paths),
        Shape::Points(points) => points_alone(alloc, points),
    }
}

#[tactic(auto, using(crate::proofs::Tracing::none_traced, crate::proofs::Tracing::rings_traced))]
fn rings_round(alloc: Global, plane: &Plane, faces: &FaceSet) -> Result<ArcShape, AllocError>
    requires on { IsSetOf plane.now.faces faces.now }
    ensures below { IfOk result (ShapeIsBelow (length plane.now.arcs)) }
    ensures traced { IfOk result (AreTraced plane.now faces.now) }
{
    if faces.is_empty() {
        return Ok(ArcShape::Nothing);
    }
    let polygons = trace(alloc, &plane.arcs, &plane.faces, faces)?;
    Ok(ArcShape::Polygons(polygons))
}

#[tactic(auto, using(crate::proofs::Tracing::no_lines, crate::proofs::Tracing::some_lines))]
fn lines_along(alloc: Global, plane: &Plane, paths: &SignedPaths) -> Result<ArcShape, AllocError>
    requires on { AreBelow (length plane.now.arcs) paths.now }
    ensures below { IfOk result (ShapeIsBelow (length plane.now.arcs)) }
    ensures traced { IfOk result (λ traced. traced ≡ lines_along paths.now) }
{
    if paths.len() == 0 {
        return Ok(ArcShape::Nothing);
    }
    let lines = copy_paths(alloc, paths)?;
    Ok(ArcShape::Lines(lines))
}

#[tactic(auto, using(crate::proofs::Tracing::no_points, crate::proofs::Tracing::some_points))]
fn points_alone(alloc: Global, points: &PtList) -> Result<ArcShape, AllocError>
    ensures below { IfOk result (λ traced. (n : ℕ) → ShapeIsBelow n traced) }
    ensures traced { IfOk result (λ traced. traced ≡ points_alone points.now) }
{
    if points.len() == 0 {
        return Ok(ArcShape::Nothing);
    }
    let copy = copy_points(alloc, points)?;
    Ok(ArcShape::Points(copy))
}
