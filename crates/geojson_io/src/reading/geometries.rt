ghost use Rattle.std.specs.Prelude.{◌≡◌, All, IfOk, filter};
ghost use Rattle.json_values.specs.Seen.{json_value};
ghost use Rattle.geojson_io.specs.Reads.{Answers};
ghost use Rattle.geojson_io.specs.Geometries.{has_rings, some_points, some_lines, some_polygons, shape_of, geometry, geometry_of_fields};
ghost use Rattle.geojson_io.specs.Sound.{HasPoints, IsRing, ShapeIsSound};

use crate::fault::{ShapeWhy, Stop};
use crate::reading::items::{one, several};
use crate::reading::positions::{Lines, Polygons, Positions};
use crate::reading::types::{GeoType, type_of};
use crate::shape::GeoShape;
use grid_base::{PathList, PtList, RingsList};
use json_read::{Json, JsonFields};
use std::alloc::{AllocError, Global};

/// The polygons that have rings.
pub fn with_rings(polygons: RingsList) -> Result<RingsList, AllocError>
    ensures exact { IfOk result (λ left. left ≡ filter has_rings polygons) }
{
    let mut left = polygons.into_vec();
    left.retain(|polygon| polygon.len() > 0);
    RingsList::from_vec(left)
}

/// The shape of these points, or nothing where there is none.
pub fn some_points(points: PtList) -> GeoShape
    ensures exact { result ≡ some_points points }
    ensures sound { ShapeIsSound result }
{
    if points.len() == 0 {
        return GeoShape::Nothing;
    }
    GeoShape::Points(points)
}

/// The shape of these lines, or nothing where there is none.
pub fn some_lines(lines: PathList) -> GeoShape
    ensures exact { result ≡ some_lines lines }
    ensures sound { All HasPoints lines → ShapeIsSound result }
{
    if lines.len() == 0 {
        return GeoShape::Nothing;
    }
    GeoShape::Lines(lines)
}

/// The shape of these polygons, or nothing where there is none.
pub fn some_polygons(polygons: RingsList) -> GeoShape
    ensures exact { result ≡ some_polygons polygons }
    ensures sound { All (All IsRing) polygons → ShapeIsSound result }
{
    if polygons.len() == 0 {
        return GeoShape::Nothing;
    }
    GeoShape::Polygons(polygons)
}

// The shape of coordinates. A geometry of which nothing remains is none.
fn shape(
    alloc: Global,
    kind: GeoType,
    json: &Json,
    places: u8,
    left: &mut u32,
) -> Result<GeoShape, Stop>
    ensures answers { Answers (shape_of places kind (json_value json.now)) left.old result left.new }
{
    match kind {
        GeoType::Point => Ok(some_points(one::<Positions>(alloc, json, places, left)?)),
        GeoType::MultiPoint => Ok(some_points(several::<Positions>(alloc, json, places, left)?)),
        GeoType::LineString => Ok(some_lines(one::<Lines>(alloc, json, places, left)?)),
        GeoType::MultiLineString => Ok(some_lines(several::<Lines>(alloc, json, places, left)?)),
        GeoType::Polygon => {
            let polygons = one::<Polygons>(alloc, json, places, left)?;
            Ok(some_polygons(with_rings(polygons)?))
        }
        GeoType::MultiPolygon => {
            let polygons = several::<Polygons>(alloc, json, places, left)?;
            Ok(some_polygons(with_rings(polygons)?))
        }
    }
}

fn typed_geometry(
    alloc: Global,
    fields: &JsonFields,
    places: u8,
    left: &mut u32,
) -> Result<GeoShape, Stop>
    ensures answers { Answers (geometry_of_fields places fields.now) left.old result left.new }
{
    let name = type_of(fields);
    if name == "GeometryCollection" {
        return Err(Stop::Why(ShapeWhy::Collection));
    }
    let Some(kind) = GeoType::named(name) else {
        return Err(Stop::Why(ShapeWhy::NotGeo));
    };
    let Some(coordinates) = fields.find("coordinates") else {
        return Err(Stop::Why(ShapeWhy::BadPosition));
    };
    shape(alloc, kind, coordinates, places, left)
}

/// A geometry inside a feature or a collection; null is none.
pub fn geometry(alloc: Global, json: &Json, places: u8, left: &mut u32) -> Result<GeoShape, Stop>
    ensures answers { Answers (geometry places (json_value json.now)) left.old result left.new }
{
    match json {
        Json::Null => Ok(GeoShape::Nothing),
        Json::Object(fields) => typed_geometry(alloc, fields, places, left),
        _ => Err(Stop::Why(ShapeWhy::NotGeo)),
    }
}
