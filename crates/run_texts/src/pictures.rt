ghost use Rattle.std.specs.Prelude.{◌≡◌, ◌<◌, ◌≤◌, ◌==◌, ◌++◌, All, IfOk, OnOk, if◌then◌else◌, length, map};
ghost use Rattle.plane_model.specs.Arcs.{points_of};
ghost use Rattle.grid_base.specs.Grid.{most_places};
ghost use Rattle.json_values.specs.Table.{AreRows};
ghost use Rattle.face_sets.specs.Sets.{IsSetOf};
ghost use Rattle.run_plane.specs.OnPlane.{AreBelow, AreOn, IsLayerOn};
ghost use Rattle.run_texts.specs.Pictures.{AreWritten, IsDrawn, IsPictureText, points_along, without_shared};

use arc_table::{ArcTable, SignedPath, SignedPaths};
use face_sets::FaceSet;
use geojson_io::{
    GeoShape, end_collection, keys_of, start_collection, write_next_feature, write_next_points,
};
use grid_base::{PathList, PolygonRings, PtList, RingsList, SignedArc, append_reversed};
use io_core::Bytes;
use json_values::Row;
use ring_trace::trace;
use run_plane::{Layer, Plane, Shape};
use std::alloc::{AllocError, Global};

/// The GeoJSON text of a layer with its shapes as grid points, of `places` decimal places: rings round faces, points
/// along arcs.
///
/// Errors: `AllocError` for want of memory.
pub(crate) fn picture_text(
    alloc: Global,
    plane: &Plane,
    layer: &Layer,
    places: u8,
) -> Result<Bytes, AllocError>
    requires places { places ≤ most_places }
    requires on { IsLayerOn plane.now layer.now }
    ensures says { IfOk result (IsPictureText plane.now places layer.now) }
{
    let keys = keys_of(alloc, layer.table.names().as_slice())?;
    let rows = layer.table.rows().as_slice();
    let mut out = start_collection(alloc, rows.len())?;
    write_shapes(
        alloc,
        plane,
        &layer.shapes,
        keys.as_slice(),
        rows,
        places,
        &mut out,
    )?;
    end_collection(rows.len(), &mut out)?;
    Ok(out)
}

// A feature for each shape, printed as soon as it is drawn: only one shape at a time is held in points, and the points
// of a point feature are lent.
fn write_shapes(
    alloc: Global,
    plane: &Plane,
    shapes: &[Shape],
    keys: &[Bytes],
    rows: &[Row],
    places: u8,
    out: &mut Bytes,
) -> Result<(), AllocError>
    requires places { places ≤ most_places }
    requires count { length shapes.now ≡ length rows.now }
    requires widths { AreRows (length keys.now) rows.now }
    requires on { AreOn plane.now shapes.now }
    ensures written { OnOk result (AreWritten plane.now places keys.now rows.now shapes.now out.old out.new) }
{
    for (i, shape) in shapes.iter().enumerate() {
        let row = &rows[i];
        let drawn = match shape {
            Shape::Nothing => GeoShape::Nothing,
            Shape::Faces(faces) => drawn_faces(alloc, plane, faces)?,
            Shape::Paths(paths) => drawn_paths(alloc, plane, paths)?,
            Shape::Points(points) => {
                write_next_points(i, keys, row, points.as_slice(), places, out)?;
                continue;
            }
        };
        write_next_feature(i, keys, row, &drawn, places, out)?;
    }
    Ok(())
}

// The rings round a set of faces; nothing where it is empty.
#[tactic(auto, using(crate::proofs::Drawing::no_faces_drawn))]
fn drawn_faces(alloc: Global, plane: &Plane, faces: &FaceSet) -> Result<GeoShape, AllocError>
    requires on { IsSetOf plane.now.faces faces.now }
    ensures drawn { IfOk result (IsDrawn plane.now (Shape.Faces faces.now)) }
{
    if faces.is_empty() {
        return Ok(GeoShape::Nothing);
    }
    let polygons = trace(alloc, &plane.arcs, &plane.faces, faces)?;
    let drawn = polygons_along(alloc, &plane.arcs, polygons.as_slice())?;
    Ok(GeoShape::Polygons(drawn))
}

// The lines along paths; nothing where there are none.
#[tactic(auto, using(crate::proofs::Drawing::no_paths_drawn, crate::proofs::Drawing::paths_drawn))]
fn drawn_paths(alloc: Global, plane: &Plane, paths: &SignedPaths) -> Result<GeoShape, AllocError>
    requires on { AreBelow (length plane.now.arcs) paths.now }
    ensures drawn { IfOk result (IsDrawn plane.now (Shape.Paths paths.now)) }
{
    if paths.len() == 0 {
        return Ok(GeoShape::Nothing);
    }
    let drawn = lines_along(alloc, &plane.arcs, paths.as_slice())?;
    Ok(GeoShape::Lines(drawn))
}

fn polygons_along(
    alloc: Global,
    arcs: &ArcTable,
    polygons: &[SignedPaths],
) -> Result<RingsList, AllocError>
    requires { All (All (All (λ a. a.arc < length arcs.now))) polygons.now }
    ensures exact { IfOk result (λ drawn. drawn ≡ map (map (points_along arcs.now)) polygons.now) }
{
    let mut drawn = RingsList::new(alloc);
    for rings in polygons {
        drawn.push(rings_along(alloc, arcs, rings.as_slice())?)?;
    }
    Ok(drawn)
}

fn rings_along(
    alloc: Global,
    arcs: &ArcTable,
    rings: &[SignedPath],
) -> Result<PolygonRings, AllocError>
    requires { All (All (λ a. a.arc < length arcs.now)) rings.now }
    ensures exact { IfOk result (λ drawn. drawn ≡ map (points_along arcs.now) rings.now) }
{
    let mut drawn = PolygonRings::new(alloc);
    for ring in rings {
        drawn.push(points_along(alloc, arcs, ring.as_slice())?)?;
    }
    Ok(drawn)
}

fn lines_along(alloc: Global, arcs: &ArcTable, paths: &[SignedPath]) -> Result<PathList, AllocError>
    requires { All (All (λ a. a.arc < length arcs.now)) paths.now }
    ensures exact { IfOk result (λ drawn. drawn ≡ map (points_along arcs.now) paths.now) }
{
    let mut drawn = PathList::new(alloc);
    for path in paths {
        drawn.push(points_along(alloc, arcs, path.as_slice())?)?;
    }
    Ok(drawn)
}

// The points of arcs that follow one another, each shared end once.
fn points_along(alloc: Global, arcs: &ArcTable, path: &[SignedArc]) -> Result<PtList, AllocError>
    requires { All (λ a. a.arc < length arcs.now) path.now }
    ensures exact { IfOk result (λ points. points ≡ points_along arcs.now path.now) }
{
    let mut points = PtList::new(alloc);
    for arc in path {
        append_arc(&mut points, arcs, *arc)?;
    }
    Ok(points)
}

// Adds the points of an arc, without the first where others stand before it.
#[tactic(auto, using(crate::proofs::Along::shared_forward, crate::proofs::Along::shared_backward))]
fn append_arc(points: &mut PtList, arcs: &ArcTable, arc: SignedArc) -> Result<(), AllocError>
    requires { arc.arc < length arcs.now }
    ensures exact { OnOk result (points.new ≡ points.old ++ without_shared points.old (points_of arcs.now arc)) }
    ensures some { OnOk result (0 < length points.new) }
{
    let way = arcs.points_of(arc.id());
    let shared = shared_ends(points);
    if arc.is_reversed() {
        append_reversed(points, &way[..way.len() - shared])
    } else {
        points.append(&way[shared..])
    }
}

// How many points of the next arc are there already: one where points stand before it, since it begins at the last of
// them.
fn shared_ends(points: &PtList) -> usize
    ensures exact { result ≡ (if length points.now == 0 then 0 else 1) }
{
    if points.len() == 0 { 0 } else { 1 }
}
