ghost use Rattle.std.specs.Prelude.{◌≡◌, IfOk};

use crate::layer::Shape;
use arc_table::{SignedPath, SignedPaths};
use grid_base::{PtList, SignedArc};
use std::alloc::{AllocError, Global};
use text_core::Text;

/// An equal text with memory of its own.
///
/// Errors: `AllocError` for want of memory.
pub fn copy_text(alloc: Global, text: &Text) -> Result<Text, AllocError>
    ensures copied { IfOk result (λ copy. copy ≡ text.now) }
{
    Text::of(alloc, text.as_str())
}

/// Equal shapes in the same order, with memory of their own.
///
/// Errors: `AllocError` for want of memory.
pub fn copy_shapes(alloc: Global, shapes: &[Shape]) -> Result<Vec<Shape>, AllocError>
    ensures copied { IfOk result (λ copy. copy.items ≡ shapes.now) }
{
    let mut copy = Vec::new(alloc);
    for shape in shapes {
        copy.push(copy_shape(alloc, shape)?)?;
    }
    Ok(copy)
}

/// An equal shape with memory of its own.
///
/// Errors: `AllocError` for want of memory.
pub fn copy_shape(alloc: Global, shape: &Shape) -> Result<Shape, AllocError>
    ensures copied { IfOk result (λ copy. copy ≡ shape.now) }
{
    Ok(match shape {
        Shape::Nothing => Shape::Nothing,
        Shape::Faces(faces) => Shape::Faces(faces.copy(alloc)?),
        Shape::Paths(paths) => Shape::Paths(copy_paths(alloc, paths)?),
        Shape::Points(points) => Shape::Points(copy_points(alloc, points)?),
    })
}

/// Equal paths in the same order, with memory of their own.
///
/// Errors: `AllocError` for want of memory.
pub fn copy_paths(alloc: Global, paths: &SignedPaths) -> Result<SignedPaths, AllocError>
    ensures copied { IfOk result (λ copy. copy ≡ paths.now) }
{
    let mut copy = SignedPaths::new(alloc);
    for path in paths.as_slice() {
        copy.push(copy_path(alloc, path.as_slice())?)?;
    }
    Ok(copy)
}

/// A path of these signed arcs, in their order.
///
/// Errors: `AllocError` for want of memory, or where there are more than 4,294,967,295 of them.
pub fn copy_path(alloc: Global, path: &[SignedArc]) -> Result<SignedPath, AllocError>
    ensures copied { IfOk result (λ copy. copy ≡ path.now) }
{
    let mut copy = SignedPath::new(alloc);
    for arc in path {
        copy.push(*arc)?;
    }
    Ok(copy)
}

/// Equal points in the same order, with memory of their own.
///
/// Errors: `AllocError` for want of memory.
pub fn copy_points(alloc: Global, points: &PtList) -> Result<PtList, AllocError>
    ensures copied { IfOk result (λ copy. copy ≡ points.now) }
{
    let mut copy = PtList::new(alloc);
    for point in points.as_slice() {
        copy.push(*point)?;
    }
    Ok(copy)
}
