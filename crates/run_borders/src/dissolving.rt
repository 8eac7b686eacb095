ghost use Rattle.std.specs.Prelude.{◌≡◌, ◌<◌, ◌++◌, IfErr, IfOk, None, OnOk, All, length, map, nat_lt};
ghost use Rattle.std.specs.List.{flat_map};
ghost use Rattle.lists.specs.Lists.{ascending};
ghost use Rattle.region_ops.specs.Dissolved.{union_of};
ghost use Rattle.run_plane.specs.Shapes.{points_in, shape_at};
ghost use Rattle.run_borders.specs.Dissolving.{
  IsGrouped,
  arcs_along,
  arcs_in,
  grouped_shapes,
  line_shape,
  member_arcs,
  member_points,
  no_shape,
  path_along,
  point_shape,
  refused_dissolve,
};
ghost use Rattle.run_state.specs.FaceSets.{face_shapes, sets_in};
ghost use Rattle.run_state.specs.Stops.{StopsFor};

use crate::paths::path_along;
use arc_table::{SignedPath, SignedPaths};
use grid_base::{ArcId, GroupList, Kind, Pt, PtList, SignedArc};
use region_ops::dissolve_sets;
use run_plane::{Layer, Shape, copy_text};
use run_state::{CommandStop, RefuseWhy, sets_of, shapes_of};
use std::alloc::{AllocError, Global};
use table_rows::group_rows;
use table_terms::GroupSpec;

/// A feature for each group of rows that have the same values in the listed columns: the faces of any member, each arc
/// that a member uses once, or all points of the members in order.
///
/// Errors: `Refused` with `NoGroupPoints` for points without `group_points`, or with what the table is refused for, and
/// `Memory`.
#[tactic(auto, using(run_state::proofs::Stops::table_stops))]
pub fn dissolved(
    alloc: Global,
    layer: &Layer,
    spec: &GroupSpec,
    group_points: bool,
) -> Result<Layer, CommandStop>
    ensures made { IfOk result (IsGrouped spec.now layer.now) }
    ensures accepted { IfOk result (λ made. refused_dissolve spec.now group_points layer.now ≡ None) }
    ensures stops { IfErr result (StopsFor (refused_dissolve spec.now group_points layer.now)) }
{
    if layer.kind == Kind::Point && !group_points {
        return Err(CommandStop::Refused(RefuseWhy::NoGroupPoints));
    }
    let grouped = group_rows(alloc, &layer.table, spec)?;
    let shapes = grouped_shapes(alloc, layer.kind, &layer.shapes, &grouped.groups)?;
    Ok(Layer {
        name: copy_text(alloc, &layer.name)?,
        kind: layer.kind,
        table: grouped.table,
        shapes,
    })
}

fn grouped_shapes(
    alloc: Global,
    kind: Kind,
    shapes: &[Shape],
    groups: &GroupList,
) -> Result<Vec<Shape>, AllocError>
    requires members { All (All (λ n. n < length shapes.now)) groups.now }
    ensures exact { IfOk result (λ list. list.items ≡ grouped_shapes kind shapes.now groups.now) }
    ensures count { IfOk result (λ list. length list.items ≡ length groups.now) }
{
    match kind {
        Kind::Polygon => united(alloc, shapes, groups),
        Kind::Line => lines_of_groups(alloc, shapes, groups),
        Kind::Point => points_of_groups(alloc, shapes, groups),
        Kind::Table => nothings(alloc, groups),
    }
}

fn united(alloc: Global, shapes: &[Shape], groups: &GroupList) -> Result<Vec<Shape>, AllocError>
    requires members { All (All (λ n. n < length shapes.now)) groups.now }
    ensures exact { IfOk result (λ list. list.items ≡ face_shapes (map (union_of (sets_in shapes.now)) groups.now)) }
    ensures count { IfOk result (λ list. length list.items ≡ length groups.now) }
{
    let sets = sets_of(alloc, shapes)?;
    let united = dissolve_sets(alloc, &sets, groups)?;
    shapes_of(alloc, united.into_vec())
}

fn lines_of_groups(
    alloc: Global,
    shapes: &[Shape],
    groups: &GroupList,
) -> Result<Vec<Shape>, AllocError>
    ensures exact { IfOk result (λ list. list.items ≡ map (line_shape shapes.now) groups.now) }
    ensures count { IfOk result (λ list. length list.items ≡ length groups.now) }
{
    let mut list = Vec::new(alloc);
    for group in groups.as_slice() {
        let arcs = arcs_of(alloc, shapes, group.as_slice())?;
        list.push(Shape::Paths(paths_along(alloc, &arcs)?))?;
    }
    Ok(list)
}

fn points_of_groups(
    alloc: Global,
    shapes: &[Shape],
    groups: &GroupList,
) -> Result<Vec<Shape>, AllocError>
    ensures exact { IfOk result (λ list. list.items ≡ map (point_shape shapes.now) groups.now) }
    ensures count { IfOk result (λ list. length list.items ≡ length groups.now) }
{
    let mut list = Vec::new(alloc);
    for group in groups.as_slice() {
        list.push(Shape::Points(points_of(alloc, shapes, group.as_slice())?))?;
    }
    Ok(list)
}

fn nothings(alloc: Global, groups: &GroupList) -> Result<Vec<Shape>, AllocError>
    ensures exact { IfOk result (λ list. list.items ≡ map no_shape groups.now) }
    ensures count { IfOk result (λ list. length list.items ≡ length groups.now) }
{
    let mut list = Vec::new(alloc);
    for _group in groups.as_slice() {
        list.push(Shape::Nothing)?;
    }
    Ok(list)
}

// Each arc of the members once, ascending.
fn arcs_of(alloc: Global, shapes: &[Shape], members: &[u32]) -> Result<Vec<ArcId>, AllocError>
    ensures exact { IfOk result (λ arcs. arcs.items ≡ member_arcs shapes.now members.now) }
{
    let mut arcs = Vec::new(alloc);
    for member in members {
        append_arcs(&mut arcs, paths_in(shapes, *member))?;
    }
    Ok(each_once(arcs))
}

// The arcs of a list, ascending, each once.
fn each_once(arcs: Vec<ArcId>) -> Vec<ArcId>
    ensures exact { result.items ≡ ascending nat_lt arcs.items }
{
    let mut arcs = arcs;
    arcs.sort_unstable();
    arcs.dedup();
    arcs
}

// A path of its own along each arc, in its direction.
fn paths_along(alloc: Global, arcs: &[ArcId]) -> Result<SignedPaths, AllocError>
    ensures exact { IfOk result (λ paths. paths ≡ map path_along arcs.now) }
{
    let mut paths = SignedPaths::new(alloc);
    for arc in arcs {
        paths.push(path_along(alloc, *arc)?)?;
    }
    Ok(paths)
}

// The paths of the shape with this number.
fn paths_in(shapes: &[Shape], number: u32) -> &[SignedPath]
    ensures exact { flat_map arcs_along result.now ≡ arcs_in (shape_at shapes.now number) }
{
    match shapes.get(number as usize) {
        Some(shape) => paths_of(shape),
        None => &[],
    }
}

fn paths_of(shape: &Shape) -> &[SignedPath]
    ensures exact { flat_map arcs_along result.now ≡ arcs_in shape.now }
{
    match shape {
        Shape::Paths(paths) => paths.as_slice(),
        Shape::Nothing | Shape::Faces(_) | Shape::Points(_) => &[],
    }
}

fn append_arcs(arcs: &mut Vec<ArcId>, paths: &[SignedPath]) -> Result<(), AllocError>
    ensures all { OnOk result (arcs.new.items ≡ arcs.old.items ++ flat_map arcs_along paths.now) }
{
    for path in paths {
        append_arcs_along(arcs, path.as_slice())?;
    }
    Ok(())
}

fn append_arcs_along(arcs: &mut Vec<ArcId>, path: &[SignedArc]) -> Result<(), AllocError>
    ensures all { OnOk result (arcs.new.items ≡ arcs.old.items ++ arcs_along path.now) }
{
    for arc in path {
        arcs.push(arc.id())?;
    }
    Ok(())
}

// The points of the members, in order.
fn points_of(alloc: Global, shapes: &[Shape], members: &[u32]) -> Result<PtList, AllocError>
    ensures exact { IfOk result (λ points. points ≡ member_points shapes.now members.now) }
{
    let mut points = PtList::new(alloc);
    for member in members {
        points.append(points_at(shapes, *member))?;
    }
    Ok(points)
}

// The points of the shape with this number.
fn points_at(shapes: &[Shape], number: u32) -> &[Pt]
    ensures exact { result.now ≡ points_in (shape_at shapes.now number) }
{
    match shapes.get(number as usize) {
        Some(shape) => points_in(shape),
        None => &[],
    }
}

fn points_in(shape: &Shape) -> &[Pt]
    ensures exact { result.now ≡ points_in shape.now }
{
    match shape {
        Shape::Points(points) => points.as_slice(),
        Shape::Nothing | Shape::Faces(_) | Shape::Paths(_) => &[],
    }
}
