ghost use Rattle.std.specs.Prelude.{◌≡◌, [], IfErr, IfOk, length, slice_index_or};
ghost use Rattle.run_plane.specs.Shapes.{faces_in};
ghost use Rattle.run_state.specs.FaceSets.{HasSets, any_faces, cut_set_of, face_shapes, sets_in};
ghost use Rattle.run_state.specs.Origins.{base_of, refused_origin};
ghost use Rattle.run_state.specs.Stops.{StopsFor};

use crate::base::Base;
use crate::features::{nonempty, numbers_below, with_shapes};
use crate::origins::origin_layer;
use crate::state::{CommandStop, HeldLayer};
use face_sets::{FaceSet, SetList};
use grid_base::FaceId;
use job_terms::Origin;
use run_plane::{Layer, Shape};
use std::alloc::{AllocError, Global};

/// The faces that `-clip` and `-erase` cut by: those of any feature of the origin, or those in its box.
///
/// Errors: `Refused` as of `origin_layer`, where the origin is no box, and `Memory`.
pub fn cut_set_of(
    alloc: Global,
    base: &Base<'_>,
    layers: &[HeldLayer],
    from: &Origin,
) -> Result<FaceSet, CommandStop>
    ensures exact { IfOk result (λ faces. faces ≡ cut_set_of (base_of base.now) layers.now from.now) }
    ensures stops { IfErr result (StopsFor (refused_origin (base_of base.now).sources layers.now from.now)) }
{
    if let Origin::Area(number) = from {
        return Ok(box_faces(alloc, &base.plane.boxes, *number)?);
    }
    let layer = origin_layer(layers, base.sources, from)?;
    Ok(union_of(alloc, &layer.shapes)?)
}

// The faces in the box with this number, from 0.
fn box_faces(alloc: Global, boxes: &[FaceSet], number: u32) -> Result<FaceSet, AllocError>
    ensures exact { IfOk result (λ faces. faces ≡ slice_index_or boxes.now number []) }
{
    match boxes.get(number as usize) {
        Some(faces) => faces.copy(alloc),
        None => Ok(FaceSet::new(alloc)),
    }
}

/// The faces of any of the shapes.
///
/// Errors: `AllocError` for want of memory.
pub fn union_of(alloc: Global, shapes: &[Shape]) -> Result<FaceSet, AllocError>
    ensures exact { IfOk result (λ faces. faces ≡ any_faces shapes.now) }
{
    let mut faces = Vec::new(alloc);
    for shape in shapes {
        faces.extend_from_slice(faces_in(shape))?;
    }
    Ok(FaceSet::from_faces(faces))
}

fn faces_in(shape: &Shape) -> &[FaceId]
    ensures exact { result.now ≡ faces_in shape.now }
{
    match shape {
        Shape::Faces(set) => set.faces(),
        Shape::Nothing | Shape::Paths(_) | Shape::Points(_) => &[],
    }
}

/// For each shape of a layer its faces, in order; none for a shape of lines or points.
///
/// Errors: `AllocError` for want of memory.
pub fn sets_of(alloc: Global, shapes: &[Shape]) -> Result<SetList, AllocError>
    ensures exact { IfOk result (λ sets. sets ≡ sets_in shapes.now) }
    ensures count { IfOk result (λ sets. length sets ≡ length shapes.now) }
{
    let mut sets = SetList::new(alloc);
    for shape in shapes {
        sets.push(set_of(alloc, shape)?)?;
    }
    Ok(sets)
}

fn set_of(alloc: Global, shape: &Shape) -> Result<FaceSet, AllocError>
    ensures exact { IfOk result (λ set. set ≡ faces_in shape.now) }
{
    match shape {
        Shape::Faces(faces) => faces.copy(alloc),
        Shape::Nothing | Shape::Paths(_) | Shape::Points(_) => Ok(FaceSet::new(alloc)),
    }
}

/// A shape for each set, in order.
///
/// Errors: `AllocError` for want of memory.
pub fn shapes_of(alloc: Global, sets: Vec<FaceSet>) -> Result<Vec<Shape>, AllocError>
    ensures exact { IfOk result (λ shapes. shapes.items ≡ face_shapes sets.items) }
    ensures count { IfOk result (λ shapes. length shapes.items ≡ length sets.items) }
{
    let mut shapes = Vec::new(alloc);
    for set in sets {
        shapes.push(Shape::Faces(set))?;
    }
    Ok(shapes)
}

/// The layer with these sets of faces for its shapes. Features without faces are left out, unless `keeps_empty`.
///
/// Errors: `AllocError` for want of memory.
pub fn with_sets(
    alloc: Global,
    layer: &Layer,
    sets: SetList,
    keeps_empty: bool,
) -> Result<Layer, AllocError>
    requires each { length sets ≡ length layer.now.table.rows }
    ensures made { IfOk result (HasSets keeps_empty layer.now sets) }
{
    let shapes = shapes_of(alloc, sets.into_vec())?;
    if keeps_empty {
        let all = numbers_below(alloc, layer.table.row_count())?;
        return with_shapes(alloc, layer, &all, shapes);
    }
    nonempty(alloc, layer, shapes)
}
