ghost use Rattle.std.specs.Prelude.{◌≡◌, ◌≤◌, [], ◌∷◌, ◌++◌, filter, map, All, IfOk, OnOk};
ghost use Rattle.std.specs.Option.{option_copied, option_map};
ghost use Rattle.grid_base.specs.Grid.{most_places};
ghost use Rattle.json_values.specs.Lists.{items_list};
ghost use Rattle.json_values.specs.Seen.{json_value};
ghost use Rattle.geojson_io.specs.Reads.{each};
ghost use Rattle.geojson_io.specs.Geometries.{has_rings};
ghost use Rattle.topo_io.specs.Reads.{Answers};
ghost use Rattle.topo_io.specs.Shapes.{one_line, one_point, one_polygon, paths_in, points_in, polygon_of, position, several_lines, several_points, several_polygons, shape_in, stitched_shape};
ghost use Rattle.geojson_io.specs.Sound.{HasPoints, IsRing, ShapeIsSound};
ghost use Rattle.topo_io.specs.Stitching.{has_points};

use crate::fault::{Stop, TopoWhy};
use crate::frame::Frame;
use crate::reading::Topology;
use crate::reading::positions::lone_position;
use crate::reading::stitching::{path_of, rings_of, stitched};
use geojson_io::{GeoShape, GeoType, some_lines, some_points, some_polygons};
use grid_base::{PathList, PolygonRings, Pt, PtList, RingsList};
use json_values::{Json, JsonFields};
use std::alloc::{AllocError, Global};

// A position by itself, which takes one of the room that is left.
fn position(json: &Json, frame: &Frame, left: &mut u32) -> Result<Pt, Stop>
    requires { frame.now.places ≤ most_places }
    ensures answers { Answers (position frame.now (json_value json.now)) left.old result left.new }
{
    if *left == 0 {
        return Err(Stop::Why(TopoWhy::TooManyPositions));
    }
    let point = lone_position(json, frame)?;
    *left -= 1;
    Ok(point)
}

fn one_point(alloc: Global, json: &Json, frame: &Frame, left: &mut u32) -> Result<PtList, Stop>
    requires { frame.now.places ≤ most_places }
    ensures answers { Answers (one_point frame.now (json_value json.now)) left.old result left.new }
{
    let Json::List(list) = json else {
        return Err(Stop::Why(TopoWhy::BadPosition));
    };
    let mut points = PtList::new(alloc);
    if list.len() == 0 {
        return Ok(points);
    }
    let point = position(json, frame, left)?;
    points.push(point)?;
    Ok(points)
}

fn each_point(alloc: Global, items: &[Json], frame: &Frame, left: &mut u32) -> Result<PtList, Stop>
    requires { frame.now.places ≤ most_places }
    ensures answers { Answers (each (position frame.now) (map json_value items.now)) left.old result left.new }
{
    let mut points = PtList::new(alloc);
    for item in items {
        let point = position(item, frame, left)?;
        points.push(point)?;
    }
    Ok(points)
}

fn several_points(alloc: Global, json: &Json, frame: &Frame, left: &mut u32) -> Result<PtList, Stop>
    requires { frame.now.places ≤ most_places }
    ensures answers { Answers (several_points frame.now (json_value json.now)) left.old result left.new }
{
    match json {
        Json::List(list) => each_point(alloc, list.as_slice(), frame, left),
        _ => Err(Stop::Why(TopoWhy::BadPosition)),
    }
}

// Adds a line, unless it has no positions.
#[tactic(auto, using(geojson_io::proofs::SoundLemmas::has_points))]
fn push_line(lines: &mut PathList, line: PtList) -> Result<(), AllocError>
    requires { All HasPoints lines.old }
    ensures exact { OnOk result (lines.new ≡ lines.old ++ filter has_points (line ∷ [])) }
    ensures sound { OnOk result (All HasPoints lines.new) }
{
    if line.len() > 0 {
        lines.push(line)?;
    }
    Ok(())
}

fn one_line(
    alloc: Global,
    items: &[Json],
    arcs: &PathList,
    left: &mut u32,
) -> Result<PathList, Stop>
    ensures read { Answers (one_line arcs.now (map json_value items.now)) left.old result left.new }
    ensures sound { IfOk result (λ lines. All HasPoints lines) }
{
    let mut lines = PathList::new(alloc);
    let line = stitched(alloc, items, arcs, left)?;
    push_line(&mut lines, line)?;
    Ok(lines)
}

fn several_lines(
    alloc: Global,
    items: &[Json],
    arcs: &PathList,
    left: &mut u32,
) -> Result<PathList, Stop>
    ensures read { Answers (several_lines arcs.now (map json_value items.now)) left.old result left.new }
    ensures sound { IfOk result (λ lines. All HasPoints lines) }
{
    let mut lines = PathList::new(alloc);
    for item in items {
        let line = path_of(alloc, item, arcs, left)?;
        push_line(&mut lines, line)?;
    }
    Ok(lines)
}

// Adds a polygon, unless it has no rings.
fn push_polygon(polygons: &mut RingsList, polygon: PolygonRings) -> Result<(), AllocError>
    ensures exact { OnOk result (polygons.new ≡ polygons.old ++ filter has_rings (polygon ∷ [])) }
    ensures sound { OnOk result (All (All IsRing) polygons.old → All IsRing polygon → All (All IsRing) polygons.new) }
{
    if polygon.len() > 0 {
        polygons.push(polygon)?;
    }
    Ok(())
}

fn one_polygon(
    alloc: Global,
    items: &[Json],
    arcs: &PathList,
    left: &mut u32,
) -> Result<RingsList, Stop>
    ensures read { Answers (one_polygon arcs.now (map json_value items.now)) left.old result left.new }
    ensures sound { IfOk result (λ polygons. All (All IsRing) polygons) }
{
    let mut polygons = RingsList::new(alloc);
    let polygon = rings_of(alloc, items, arcs, left)?;
    push_polygon(&mut polygons, polygon)?;
    Ok(polygons)
}

fn polygon_of(
    alloc: Global,
    json: &Json,
    arcs: &PathList,
    left: &mut u32,
) -> Result<PolygonRings, Stop>
    ensures read { Answers (polygon_of arcs.now (json_value json.now)) left.old result left.new }
    ensures sound { IfOk result (λ rings. All IsRing rings) }
{
    match json {
        Json::List(list) => rings_of(alloc, list.as_slice(), arcs, left),
        _ => Err(Stop::Why(TopoWhy::NotTopology)),
    }
}

fn several_polygons(
    alloc: Global,
    items: &[Json],
    arcs: &PathList,
    left: &mut u32,
) -> Result<RingsList, Stop>
    ensures read { Answers (several_polygons arcs.now (map json_value items.now)) left.old result left.new }
    ensures sound { IfOk result (λ polygons. All (All IsRing) polygons) }
{
    let mut polygons = RingsList::new(alloc);
    for item in items {
        let polygon = polygon_of(alloc, item, arcs, left)?;
        push_polygon(&mut polygons, polygon)?;
    }
    Ok(polygons)
}

// The shape of lists of arc indexes.
fn stitched_shape(
    alloc: Global,
    kind: GeoType,
    items: &[Json],
    arcs: &PathList,
    left: &mut u32,
) -> Result<GeoShape, Stop>
    ensures read { Answers (stitched_shape kind arcs.now (map json_value items.now)) left.old result left.new }
    ensures sound { IfOk result (λ shape. ShapeIsSound shape) }
{
    match kind {
        GeoType::LineString => Ok(some_lines(one_line(alloc, items, arcs, left)?)),
        GeoType::MultiLineString => Ok(some_lines(several_lines(alloc, items, arcs, left)?)),
        GeoType::Polygon => Ok(some_polygons(one_polygon(alloc, items, arcs, left)?)),
        GeoType::MultiPolygon => Ok(some_polygons(several_polygons(alloc, items, arcs, left)?)),
        GeoType::Point | GeoType::MultiPoint => Ok(GeoShape::Nothing),
    }
}

fn paths_in(
    alloc: Global,
    kind: GeoType,
    json: Option<&Json>,
    arcs: &PathList,
    left: &mut u32,
) -> Result<GeoShape, Stop>
    ensures read { Answers (paths_in kind arcs.now (option_map json_value (option_copied json.entry))) left.old result left.new }
    ensures sound { IfOk result (λ shape. ShapeIsSound shape) }
{
    match json {
        Some(Json::List(list)) => stitched_shape(alloc, kind, list.as_slice(), arcs, left),
        _ => Err(Stop::Why(TopoWhy::NotTopology)),
    }
}

fn point_in(
    alloc: Global,
    json: Option<&Json>,
    frame: &Frame,
    left: &mut u32,
) -> Result<GeoShape, Stop>
    requires { frame.now.places ≤ most_places }
    ensures read { Answers (points_in (one_point frame.now) (option_map json_value (option_copied json.entry))) left.old result left.new }
    ensures sound { IfOk result (λ shape. ShapeIsSound shape) }
{
    match json {
        Some(json) => Ok(some_points(one_point(alloc, json, frame, left)?)),
        None => Err(Stop::Why(TopoWhy::BadPosition)),
    }
}

fn points_in(
    alloc: Global,
    json: Option<&Json>,
    frame: &Frame,
    left: &mut u32,
) -> Result<GeoShape, Stop>
    requires { frame.now.places ≤ most_places }
    ensures read { Answers (points_in (several_points frame.now) (option_map json_value (option_copied json.entry))) left.old result left.new }
    ensures sound { IfOk result (λ shape. ShapeIsSound shape) }
{
    match json {
        Some(json) => Ok(some_points(several_points(alloc, json, frame, left)?)),
        None => Err(Stop::Why(TopoWhy::BadPosition)),
    }
}

/// The shape of a geometry of this type. A geometry of which nothing remains is none.
pub fn shape_in(
    alloc: Global,
    kind: GeoType,
    object: &JsonFields,
    topology: &Topology,
    left: &mut u32,
) -> Result<GeoShape, Stop>
    requires { topology.now.frame.places ≤ most_places }
    ensures read { Answers (shape_in kind topology.now object.now) left.old result left.new }
    ensures sound { IfOk result (λ shape. ShapeIsSound shape) }
{
    match kind {
        GeoType::Point => point_in(alloc, object.find("coordinates"), &topology.frame, left),
        GeoType::MultiPoint => {
            points_in(alloc, object.find("coordinates"), &topology.frame, left)
        }
        _ => paths_in(alloc, kind, object.find("arcs"), &topology.arcs, left),
    }
}
