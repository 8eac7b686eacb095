ghost use Rattle.std.specs.Prelude.{◌≡◌, ◌<◌, IfOk, All, length, map};
ghost use Rattle.std.specs.List.{range_with_len};
ghost use Rattle.run_state.specs.Features.{HasRows, LeavesOut, TakesFeatures};
ghost use Rattle.run_plane.specs.Shapes.{shape_at, with_geometry};

use grid_base::IdList;
use run_plane::{Layer, Shape, copy_shape, copy_text};
use std::alloc::{AllocError, Global};
use table_rows::take_rows;

/// The features with these numbers, counted from 0, in the order of the numbers, as a layer of the same name and kind.
///
/// Errors: `AllocError` for want of memory.
pub fn take_features(alloc: Global, layer: &Layer, numbers: &IdList) -> Result<Layer, AllocError>
    requires { All (λ n. n < length layer.now.table.rows) numbers.now }
    ensures taken { IfOk result (TakesFeatures layer.now numbers.now) }
{
    let shapes = take_shapes(alloc, &layer.shapes, numbers.as_slice())?;
    with_shapes(alloc, layer, numbers, shapes)
}

/// The features of a layer with other shapes, in order; those without geometry are left out.
///
/// Errors: `AllocError` for want of memory.
pub fn nonempty(alloc: Global, layer: &Layer, mut shapes: Vec<Shape>) -> Result<Layer, AllocError>
    requires { length shapes.items ≡ length layer.now.table.rows }
    ensures left { IfOk result (LeavesOut layer.now shapes.items) }
{
    let all = numbers_below(alloc, layer.table.row_count())?;
    let kept = with_geometry(alloc, &shapes, &all)?;
    leave_out_empty(&mut shapes);
    with_shapes(alloc, layer, &kept, shapes)
}

fn leave_out_empty(shapes: &mut Vec<Shape>)
    ensures left { shapes.new.items ≡ map (shape_at shapes.old.items) (with_geometry shapes.old.items (range_with_len 0 (length shapes.old.items))) }
    ensures count { length shapes.new.items ≡ length (with_geometry shapes.old.items (range_with_len 0 (length shapes.old.items))) }
{
    shapes.retain(|shape| !shape.is_empty());
}

/// The numbers from 0 below a count, ascending.
///
/// Errors: `AllocError` for want of memory.
#[tactic(auto, using(run_plane::proofs::Growth::range_more))]
pub fn numbers_below(alloc: Global, count: u32) -> Result<IdList, AllocError>
    ensures all { IfOk result (λ numbers. numbers ≡ range_with_len 0 count) }
    ensures below { IfOk result (λ numbers. All (λ n. n < count) numbers) }
    ensures each { IfOk result (λ numbers. length numbers ≡ count) }
{
    let mut numbers = IdList::new(alloc);
    for number in 0..count {
        numbers.push(number)?;
    }
    Ok(numbers)
}

/// Those of the numbers, counted from 0, whose shape has some geometry, in the same order.
///
/// Errors: `AllocError` for want of memory.
pub fn with_geometry(
    alloc: Global,
    shapes: &[Shape],
    numbers: &IdList,
) -> Result<IdList, AllocError>
    requires { All (λ n. n < length shapes.now) numbers.now }
    ensures kept { IfOk result (λ kept. kept ≡ with_geometry shapes.now numbers.now) }
    ensures below { IfOk result (λ kept. All (λ n. n < length shapes.now) kept) }
{
    let mut kept = IdList::new(alloc);
    for number in numbers.as_slice() {
        if !shapes[*number as usize].is_empty() {
            kept.push(*number)?;
        }
    }
    Ok(kept)
}

/// A layer of the same name and kind, with the rows of these numbers, counted from 0, and a shape for each.
///
/// Errors: `AllocError` for want of memory.
pub fn with_shapes(
    alloc: Global,
    layer: &Layer,
    numbers: &IdList,
    shapes: Vec<Shape>,
) -> Result<Layer, AllocError>
    requires there { All (λ n. n < length layer.now.table.rows) numbers.now }
    requires each { length shapes.items ≡ length numbers.now }
    ensures made { IfOk result (HasRows layer.now numbers.now shapes.items) }
{
    let table = take_rows(alloc, &layer.table, numbers)?;
    Ok(Layer {
        name: copy_text(alloc, &layer.name)?,
        kind: layer.kind,
        table,
        shapes,
    })
}

fn take_shapes(alloc: Global, shapes: &[Shape], numbers: &[u32]) -> Result<Vec<Shape>, AllocError>
    requires { All (λ n. n < length shapes.now) numbers.now }
    ensures taken { IfOk result (λ taken. taken.items ≡ map (shape_at shapes.now) numbers.now) }
    ensures count { IfOk result (λ taken. length taken.items ≡ length numbers.now) }
{
    let mut taken = Vec::new(alloc);
    for number in numbers {
        taken.push(copy_shape(alloc, &shapes[*number as usize])?)?;
    }
    Ok(taken)
}
