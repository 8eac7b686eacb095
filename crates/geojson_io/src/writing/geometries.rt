ghost use Rattle.std.specs.Prelude.{◌≡◌, ◌≤◌, ◌++◌, ◌∷◌, [], OnOk, codes};
ghost use Rattle.grid_base.specs.Grid.{most_places};
ghost use Rattle.grid_base.specs.Sizes.{IsStep};
ghost use Rattle.geojson_io.specs.Texts.{grid_text, point_text, path_text, polygon_text, list_text, geometry_text, before_item, type_text, one_or_many};

use crate::shape::GeoShape;
use crate::writing::numbers::{put_byte, put_number};
use grid_base::{PolygonRings, Pt, PtList};
use std::alloc::AllocError;
use text_core::Bytes;

/// A point as a pair of numbers in brackets.
pub fn write_point(point: &Pt, places: u8, out: &mut Bytes) -> Result<(), AllocError>
    requires { places ≤ most_places }
    ensures written { OnOk result (out.new ≡ out.old ++ point_text places point.now) }
{
    write_pair(point.x(), point.y(), places, out)
}

/// Two numbers of the grid, or two steps of it, as a pair in brackets.
pub fn write_pair(x: i64, y: i64, places: u8, out: &mut Bytes) -> Result<(), AllocError>
    requires across { IsStep x }
    requires upward { IsStep y }
    requires places { places ≤ most_places }
    ensures written { OnOk result (out.new ≡ out.old ++ point_text places (record { x = x; y = y })) }
{
    // From the last byte to the first.
    let mut room = [b']'; 64];
    let start = put_number(y, places, &mut room, 63);
    let start = put_byte(b',', &mut room, start);
    let start = put_number(x, places, &mut room, start);
    let start = put_byte(b'[', &mut room, start);
    out.extend(&room[start..])
}

/// A number of the grid, or a step of it, as the decimal `g / 10^places`.
pub fn write_number(g: i64, places: u8, out: &mut Bytes) -> Result<(), AllocError>
    requires size { IsStep g }
    requires places { places ≤ most_places }
    ensures written { OnOk result (out.new ≡ out.old ++ grid_text places g) }
{
    let mut room = [0; 32];
    let start = put_number(g, places, &mut room, 32);
    out.extend(&room[start..])
}

/// A comma before each item but the first.
pub fn write_comma(i: usize, out: &mut Bytes) -> Result<(), AllocError>
    ensures written { OnOk result (out.new ≡ out.old ++ before_item (44 ∷ []) i) }
{
    if i > 0 {
        out.push(b',')?;
    }
    Ok(())
}

fn write_path(points: &[Pt], places: u8, out: &mut Bytes) -> Result<(), AllocError>
    requires { places ≤ most_places }
    ensures written { OnOk result (out.new ≡ out.old ++ list_text (point_text places) points.now) }
{
    out.push(b'[')?;
    for (i, point) in points.iter().enumerate() {
        write_comma(i, out)?;
        write_point(point, places, out)?;
    }
    out.push(b']')
}

fn write_paths(paths: &[PtList], places: u8, out: &mut Bytes) -> Result<(), AllocError>
    requires { places ≤ most_places }
    ensures written { OnOk result (out.new ≡ out.old ++ list_text (path_text places) paths.now) }
{
    out.push(b'[')?;
    for (i, path) in paths.iter().enumerate() {
        write_comma(i, out)?;
        write_path(path.as_slice(), places, out)?;
    }
    out.push(b']')
}

fn write_polygons(polygons: &[PolygonRings], places: u8, out: &mut Bytes) -> Result<(), AllocError>
    requires { places ≤ most_places }
    ensures written { OnOk result (out.new ≡ out.old ++ list_text (polygon_text places) polygons.now) }
{
    out.push(b'[')?;
    for (i, polygon) in polygons.iter().enumerate() {
        write_comma(i, out)?;
        write_paths(polygon.as_slice(), places, out)?;
    }
    out.push(b']')
}

// What stands before the coordinates of a geometry.
fn write_type(name: &str, out: &mut Bytes) -> Result<(), AllocError>
    ensures written { OnOk result (out.new ≡ out.old ++ type_text name.now) }
{
    out.extend(b"{\"type\":\"")?;
    out.extend(name.as_bytes())?;
    out.extend(b"\",\"coordinates\":")
}

/// The geometry object of points, or null where there is none.
pub fn write_points(points: &[Pt], places: u8, out: &mut Bytes) -> Result<(), AllocError>
    requires { places ≤ most_places }
    ensures written { OnOk result (out.new ≡ out.old ++ one_or_many (codes "Point") (codes "MultiPoint") (point_text places) points.now) }
{
    match points {
        [] => out.extend(b"null"),
        [point] => {
            write_type("Point", out)?;
            write_point(point, places, out)?;
            out.push(b'}')
        }
        _ => {
            write_type("MultiPoint", out)?;
            write_path(points, places, out)?;
            out.push(b'}')
        }
    }
}

fn write_lines(lines: &[PtList], places: u8, out: &mut Bytes) -> Result<(), AllocError>
    requires { places ≤ most_places }
    ensures written { OnOk result (out.new ≡ out.old ++ one_or_many (codes "LineString") (codes "MultiLineString") (path_text places) lines.now) }
{
    match lines {
        [] => out.extend(b"null"),
        [line] => {
            write_type("LineString", out)?;
            write_path(line.as_slice(), places, out)?;
            out.push(b'}')
        }
        _ => {
            write_type("MultiLineString", out)?;
            write_paths(lines, places, out)?;
            out.push(b'}')
        }
    }
}

fn write_areas(polygons: &[PolygonRings], places: u8, out: &mut Bytes) -> Result<(), AllocError>
    requires { places ≤ most_places }
    ensures written { OnOk result (out.new ≡ out.old ++ one_or_many (codes "Polygon") (codes "MultiPolygon") (polygon_text places) polygons.now) }
{
    match polygons {
        [] => out.extend(b"null"),
        [polygon] => {
            write_type("Polygon", out)?;
            write_paths(polygon.as_slice(), places, out)?;
            out.push(b'}')
        }
        _ => {
            write_type("MultiPolygon", out)?;
            write_polygons(polygons, places, out)?;
            out.push(b'}')
        }
    }
}

/// The geometry object of a shape, or null.
pub fn write_geometry(shape: &GeoShape, places: u8, out: &mut Bytes) -> Result<(), AllocError>
    requires { places ≤ most_places }
    ensures written { OnOk result (out.new ≡ out.old ++ geometry_text places shape.now) }
{
    match shape {
        GeoShape::Nothing => out.extend(b"null"),
        GeoShape::Points(points) => write_points(points.as_slice(), places, out),
        GeoShape::Lines(lines) => write_lines(lines.as_slice(), places, out),
        GeoShape::Polygons(polygons) => write_areas(polygons.as_slice(), places, out),
    }
}
