ghost use Rattle.std.specs.Prelude.{◌≡◌, ◌++◌, ◌∷◌, ◌<◌, [], IfOk, OnOk, All, length, map, replicate};
ghost use Rattle.run_plane.specs.OnPlane.{AreOn, IsLayerOn};
ghost use Rattle.run_shapes.specs.Exploding.{
  AreSplitOf,
  ArePartsOf,
  ArePieces,
  IsExploded,
  one_path,
  one_point,
  part_shape,
  repeated,
  split_paths,
  split_points,
  split_shape,
};

use arc_table::{SignedPath, SignedPaths};
use grid_base::{IdList, Kind, Pt, PtList, SignedArc};
use region_ops::{PartItem, explode_sets};
use run_plane::{Layer, Plane, Shape, copy_path, copy_shape};
use run_state::{sets_of, with_shapes};
use std::alloc::{AllocError, Global};

/// Pieces of features, with the numbers of their features, counted from 0.
#[derive(Drop)]
struct Pieces {
    numbers: IdList,
    shapes: Vec<Shape>,
}

/// One feature for each part, path or point, in order, with the row copied; a feature without geometry stays.
///
/// Errors: `AllocError` for want of memory.
pub fn exploded(alloc: Global, plane: &Plane, layer: &Layer) -> Result<Layer, AllocError>
    requires on { IsLayerOn plane.now layer.now }
    ensures made { IfOk result (IsExploded plane.now layer.now) }
    ensures on { IfOk result (IsLayerOn plane.now) }
{
    let Pieces { numbers, shapes } = pieces_of(alloc, plane, layer)?;
    with_shapes(alloc, layer, &numbers, shapes)
}

fn pieces_of(alloc: Global, plane: &Plane, layer: &Layer) -> Result<Pieces, AllocError>
    requires on { IsLayerOn plane.now layer.now }
    ensures are { IfOk result (λ p. ArePieces layer.now.kind plane.now layer.now.shapes.items p.numbers p.shapes.items) }
    ensures on { IfOk result (λ p. AreOn plane.now p.shapes.items) }
    ensures below { IfOk result (λ p. All (λ n. n < length layer.now.shapes.items) p.numbers) }
    ensures each { IfOk result (λ p. length p.shapes.items ≡ length p.numbers) }
{
    match layer.kind {
        Kind::Polygon => parts_of(alloc, plane, &layer.shapes),
        Kind::Line | Kind::Point | Kind::Table => split(
            alloc,
            layer.table.row_count(),
            &layer.shapes,
        ),
    }
}

// ---- polygons

fn parts_of(alloc: Global, plane: &Plane, shapes: &[Shape]) -> Result<Pieces, AllocError>
    requires on { AreOn plane.now shapes.now }
    ensures are { IfOk result (λ p. ArePartsOf plane.now shapes.now p.numbers p.shapes.items) }
    ensures on { IfOk result (λ p. AreOn plane.now p.shapes.items) }
    ensures below { IfOk result (λ p. All (λ n. n < length shapes.now) p.numbers) }
    ensures each { IfOk result (λ p. length p.shapes.items ≡ length p.numbers) }
{
    let sets = sets_of(alloc, shapes)?;
    let items = explode_sets(alloc, &plane.arcs, &plane.faces, &sets)?;
    let numbers = part_numbers(alloc, items.as_slice())?;
    let shapes = part_shapes(alloc, items.into_vec())?;
    Ok(Pieces { numbers, shapes })
}

fn part_numbers(alloc: Global, items: &[PartItem]) -> Result<IdList, AllocError>
    ensures exact { IfOk result (λ numbers. numbers ≡ map (λ item. item.feature) items.now) }
    ensures count { IfOk result (λ numbers. length numbers ≡ length items.now) }
{
    let mut numbers = IdList::new(alloc);
    for item in items {
        numbers.push(item.feature)?;
    }
    Ok(numbers)
}

fn part_shapes(alloc: Global, items: Vec<PartItem>) -> Result<Vec<Shape>, AllocError>
    ensures exact { IfOk result (λ shapes. shapes.items ≡ map part_shape items.items) }
    ensures count { IfOk result (λ shapes. length shapes.items ≡ length items.items) }
{
    let mut shapes = Vec::new(alloc);
    for item in items {
        shapes.push(Shape::Faces(item.set))?;
    }
    Ok(shapes)
}

// ---- lines and points

fn split(alloc: Global, count: u32, shapes: &[Shape]) -> Result<Pieces, AllocError>
    requires count { length shapes.now ≡ count }
    ensures are { IfOk result (λ p. AreSplitOf shapes.now p.numbers p.shapes.items) }
    ensures below { IfOk result (λ p. All (λ n. n < length shapes.now) p.numbers) }
    ensures each { IfOk result (λ p. length p.shapes.items ≡ length p.numbers) }
{
    let mut numbers = IdList::new(alloc);
    let mut pieces = Vec::new(alloc);
    for number in 0..count {
        let added = push_split(alloc, &mut pieces, &shapes[number as usize])?;
        repeat(&mut numbers, number, added)?;
    }
    Ok(Pieces {
        numbers,
        shapes: pieces,
    })
}

// Appends a number to others, `times` times.
fn repeat(numbers: &mut IdList, number: u32, times: usize) -> Result<(), AllocError>
    ensures repeated { OnOk result (numbers.new ≡ numbers.old ++ replicate times number) }
{
    for _time in 0..times {
        numbers.push(number)?;
    }
    Ok(())
}

// Appends the pieces of a shape to others, and tells how many there are.
fn push_split(alloc: Global, pieces: &mut Vec<Shape>, shape: &Shape) -> Result<usize, AllocError>
    ensures pushed { OnOk result (pieces.new.items ≡ pieces.old.items ++ split_shape shape.now) }
    ensures count { IfOk result (λ count. count ≡ length (split_shape shape.now)) }
{
    match shape {
        Shape::Paths(paths) => push_paths(alloc, pieces, paths),
        Shape::Points(points) => push_points(alloc, pieces, points),
        Shape::Nothing | Shape::Faces(_) => push_whole(alloc, pieces, shape),
    }
}

fn push_whole(alloc: Global, pieces: &mut Vec<Shape>, shape: &Shape) -> Result<usize, AllocError>
    ensures pushed { OnOk result (pieces.new.items ≡ pieces.old.items ++ shape.now ∷ []) }
    ensures count { IfOk result (λ count. count ≡ 1) }
{
    pieces.push(copy_shape(alloc, shape)?)?;
    Ok(1)
}

#[tactic(auto, using(crate::proofs::Pieces::some_paths))]
fn push_paths(
    alloc: Global,
    pieces: &mut Vec<Shape>,
    paths: &SignedPaths,
) -> Result<usize, AllocError>
    ensures pushed { OnOk result (pieces.new.items ≡ pieces.old.items ++ split_paths paths.now) }
    ensures count { IfOk result (λ count. count ≡ length (split_paths paths.now)) }
{
    if paths.len() == 0 {
        pieces.push(Shape::Paths(SignedPaths::new(alloc)))?;
        return Ok(1);
    }
    push_each_path(alloc, pieces, paths.as_slice())?;
    Ok(paths.len() as usize)
}

fn push_each_path(
    alloc: Global,
    pieces: &mut Vec<Shape>,
    paths: &[SignedPath],
) -> Result<(), AllocError>
    ensures pushed { OnOk result (pieces.new.items ≡ pieces.old.items ++ map one_path paths.now) }
{
    for path in paths {
        pieces.push(one_path(alloc, path.as_slice())?)?;
    }
    Ok(())
}

fn one_path(alloc: Global, path: &[SignedArc]) -> Result<Shape, AllocError>
    ensures exact { IfOk result (λ shape. shape ≡ one_path path.now) }
{
    let mut paths = SignedPaths::new(alloc);
    paths.push(copy_path(alloc, path)?)?;
    Ok(Shape::Paths(paths))
}

#[tactic(auto, using(crate::proofs::Pieces::some_points))]
fn push_points(alloc: Global, pieces: &mut Vec<Shape>, points: &PtList) -> Result<usize, AllocError>
    ensures pushed { OnOk result (pieces.new.items ≡ pieces.old.items ++ split_points points.now) }
    ensures count { IfOk result (λ count. count ≡ length (split_points points.now)) }
{
    if points.len() == 0 {
        pieces.push(Shape::Points(PtList::new(alloc)))?;
        return Ok(1);
    }
    push_each_point(alloc, pieces, points.as_slice())?;
    Ok(points.len() as usize)
}

fn push_each_point(alloc: Global, pieces: &mut Vec<Shape>, points: &[Pt]) -> Result<(), AllocError>
    ensures pushed { OnOk result (pieces.new.items ≡ pieces.old.items ++ map one_point points.now) }
{
    for point in points {
        pieces.push(one_point(alloc, *point)?)?;
    }
    Ok(())
}

fn one_point(alloc: Global, point: Pt) -> Result<Shape, AllocError>
    ensures exact { IfOk result (λ shape. shape ≡ one_point point) }
{
    let mut points = PtList::new(alloc);
    points.push(point)?;
    Ok(Shape::Points(points))
}
