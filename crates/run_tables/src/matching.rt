ghost use Rattle.std.specs.Prelude.{◌≡◌, All, IfOk, length};
ghost use Rattle.std.specs.List.Sorted.{IsStrictlyIncreasing};
ghost use Rattle.run_plane.specs.Shapes.{points_in};
ghost use Rattle.run_state.specs.FaceSets.{sets_in};
ghost use Rattle.run_tables.specs.Matching.{AreMatches, point_lists};
ghost use Rattle.spatial_join.specs.Matches.{AreMatchedPoints, AreMatchedSets};

use grid_base::{GroupList, Kind, PathList, PtList};
use run_plane::{Layer, Plane, Shape, copy_points};
use run_state::sets_of;
use spatial_join::{match_points, match_sets};
use std::alloc::{AllocError, Global};

/// For each feature of a layer the numbers of the features of another that match it, counted from 0 and ascending. A
/// feature of points and one of polygons match where some point of the first is inside the second or on its boundary.
///
/// Errors: `AllocError` for want of memory.
/// Cost: n log n for n faces, arcs at points and matches.
pub fn matches_of(
    alloc: Global,
    plane: &Plane,
    source: &Layer,
    layer: &Layer,
) -> Result<GroupList, AllocError>
    ensures exact { IfOk result (AreMatches plane.now source.now layer.now) }
    ensures each { IfOk result (λ matches. length matches ≡ length layer.now.table.rows) }
    ensures ascending { IfOk result (All IsStrictlyIncreasing) }
{
    match layer.kind {
        Kind::Polygon => matches_of_polygons(alloc, plane, &source.shapes, &layer.shapes),
        Kind::Line | Kind::Point | Kind::Table => {
            matches_of_points(alloc, plane, &source.shapes, &layer.shapes)
        }
    }
}

// For each polygon feature the numbers of the others that have a point inside it.
fn matches_of_polygons(
    alloc: Global,
    plane: &Plane,
    others: &[Shape],
    shapes: &[Shape],
) -> Result<GroupList, AllocError>
    ensures exact { IfOk result (AreMatchedSets plane.now.arcs plane.now.faces (point_lists others.now) (sets_in shapes.now)) }
    ensures each { IfOk result (λ matches. length matches ≡ length shapes.now) }
    ensures ascending { IfOk result (All IsStrictlyIncreasing) }
{
    let sets = sets_of(alloc, shapes)?;
    let points = point_lists(alloc, others)?;
    match_sets(alloc, &plane.arcs, &plane.faces, &sets, &points)
}

// For each point feature the numbers of the others that have a point of it inside.
fn matches_of_points(
    alloc: Global,
    plane: &Plane,
    others: &[Shape],
    shapes: &[Shape],
) -> Result<GroupList, AllocError>
    ensures exact { IfOk result (AreMatchedPoints plane.now.arcs plane.now.faces (point_lists shapes.now) (sets_in others.now)) }
    ensures each { IfOk result (λ matches. length matches ≡ length shapes.now) }
    ensures ascending { IfOk result (All IsStrictlyIncreasing) }
{
    let sets = sets_of(alloc, others)?;
    let points = point_lists(alloc, shapes)?;
    match_points(alloc, &plane.arcs, &plane.faces, &points, &sets)
}

fn point_lists(alloc: Global, shapes: &[Shape]) -> Result<PathList, AllocError>
    ensures exact { IfOk result (λ lists. lists ≡ point_lists shapes.now) }
    ensures count { IfOk result (λ lists. length lists ≡ length shapes.now) }
{
    let mut lists = PathList::new(alloc);
    for shape in shapes {
        lists.push(points_in(alloc, shape)?)?;
    }
    Ok(lists)
}

fn points_in(alloc: Global, shape: &Shape) -> Result<PtList, AllocError>
    ensures exact { IfOk result (λ points. points ≡ points_in shape.now) }
{
    match shape {
        Shape::Points(points) => copy_points(alloc, points),
        Shape::Nothing | Shape::Faces(_) | Shape::Paths(_) => Ok(PtList::new(alloc)),
    }
}
