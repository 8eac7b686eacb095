ghost use Rattle.std.specs.Prelude.{◌≡◌, ◌++◌, All, OnOk, codes, length};
ghost use Rattle.geojson_io.specs.Texts.{list_text, point_text};
ghost use Rattle.json_values.specs.Table.{AreRows};
ghost use Rattle.topo_io.specs.Arcs.{IsBelow, ShapeIsBelow};
ghost use Rattle.topo_io.specs.Texts.{index_text, indexes_text, rings_text, type_text, null_text, one_or_many, shape_text, row_member, geometry_text, geometries_text};

use crate::arc_layer::ArcShape;
use crate::writing::numbering::Numbering;
use arc_table::{SignedPath, SignedPaths};
use geojson_io::{write_comma, write_number, write_point, write_properties};
use grid_base::{Pt, SignedArc};
use json_values::Row;
use std::alloc::AllocError;
use text_core::Bytes;

// An arc by its new index.
fn write_index(arc: SignedArc, numbering: &Numbering, out: &mut Bytes) -> Result<(), AllocError>
    requires { IsBelow (length numbering.now.numbers.items) arc }
    ensures written { OnOk result (out.new ≡ out.old ++ index_text numbering.now.numbers.items arc) }
{
    write_number(numbering.renamed(arc).to_index(), 0, out)
}

fn write_path(path: &[SignedArc], numbering: &Numbering, out: &mut Bytes) -> Result<(), AllocError>
    requires { All (IsBelow (length numbering.now.numbers.items)) path.now }
    ensures written { OnOk result (out.new ≡ out.old ++ indexes_text numbering.now.numbers.items path.now) }
{
    out.push(b'[')?;
    for (i, arc) in path.iter().enumerate() {
        write_comma(i, out)?;
        write_index(*arc, numbering, out)?;
    }
    out.push(b']')
}

fn write_paths(
    paths: &[SignedPath],
    numbering: &Numbering,
    out: &mut Bytes,
) -> Result<(), AllocError>
    requires { All (All (IsBelow (length numbering.now.numbers.items))) paths.now }
    ensures written { OnOk result (out.new ≡ out.old ++ rings_text numbering.now.numbers.items paths.now) }
{
    out.push(b'[')?;
    for (i, path) in paths.iter().enumerate() {
        write_comma(i, out)?;
        write_path(path.as_slice(), numbering, out)?;
    }
    out.push(b']')
}

fn write_polygons(
    polygons: &[SignedPaths],
    numbering: &Numbering,
    out: &mut Bytes,
) -> Result<(), AllocError>
    requires { All (All (All (IsBelow (length numbering.now.numbers.items)))) polygons.now }
    ensures written { OnOk result (out.new ≡ out.old ++ list_text (rings_text numbering.now.numbers.items) polygons.now) }
{
    out.push(b'[')?;
    for (i, polygon) in polygons.iter().enumerate() {
        write_comma(i, out)?;
        write_paths(polygon.as_slice(), numbering, out)?;
    }
    out.push(b']')
}

fn write_positions(points: &[Pt], out: &mut Bytes) -> Result<(), AllocError>
    ensures written { OnOk result (out.new ≡ out.old ++ list_text (point_text 0) points.now) }
{
    out.push(b'[')?;
    for (i, point) in points.iter().enumerate() {
        write_comma(i, out)?;
        write_point(point, 0, out)?;
    }
    out.push(b']')
}

// What stands before the arcs or the coordinates of a geometry.
fn write_type(name: &str, member: &str, out: &mut Bytes) -> Result<(), AllocError>
    ensures written { OnOk result (out.new ≡ out.old ++ type_text name.now member.now) }
{
    out.extend(b"{\"type\":\"")?;
    out.extend(name.as_bytes())?;
    out.extend(b"\",\"")?;
    out.extend(member.as_bytes())?;
    out.extend(b"\":")
}

fn write_null(out: &mut Bytes) -> Result<(), AllocError>
    ensures written { OnOk result (out.new ≡ out.old ++ null_text) }
{
    out.extend(b"{\"type\":null")
}

fn write_points(points: &[Pt], out: &mut Bytes) -> Result<(), AllocError>
    ensures written { OnOk result (out.new ≡ out.old ++ one_or_many (codes "Point") (codes "MultiPoint") (codes "coordinates") (point_text 0) points.now) }
{
    match points {
        [] => write_null(out),
        [point] => {
            write_type("Point", "coordinates", out)?;
            write_point(point, 0, out)
        }
        _ => {
            write_type("MultiPoint", "coordinates", out)?;
            write_positions(points, out)
        }
    }
}

fn write_lines(
    lines: &[SignedPath],
    numbering: &Numbering,
    out: &mut Bytes,
) -> Result<(), AllocError>
    requires { All (All (IsBelow (length numbering.now.numbers.items))) lines.now }
    ensures written { OnOk result (out.new ≡ out.old ++ one_or_many (codes "LineString") (codes "MultiLineString") (codes "arcs") (indexes_text numbering.now.numbers.items) lines.now) }
{
    match lines {
        [] => write_null(out),
        [line] => {
            write_type("LineString", "arcs", out)?;
            write_path(line.as_slice(), numbering, out)
        }
        _ => {
            write_type("MultiLineString", "arcs", out)?;
            write_paths(lines, numbering, out)
        }
    }
}

fn write_areas(
    polygons: &[SignedPaths],
    numbering: &Numbering,
    out: &mut Bytes,
) -> Result<(), AllocError>
    requires { All (All (All (IsBelow (length numbering.now.numbers.items)))) polygons.now }
    ensures written { OnOk result (out.new ≡ out.old ++ one_or_many (codes "Polygon") (codes "MultiPolygon") (codes "arcs") (rings_text numbering.now.numbers.items) polygons.now) }
{
    match polygons {
        [] => write_null(out),
        [polygon] => {
            write_type("Polygon", "arcs", out)?;
            write_paths(polygon.as_slice(), numbering, out)
        }
        _ => {
            write_type("MultiPolygon", "arcs", out)?;
            write_polygons(polygons, numbering, out)
        }
    }
}

// A geometry without its end, where properties may follow.
fn write_shape(shape: &ArcShape, numbering: &Numbering, out: &mut Bytes) -> Result<(), AllocError>
    requires { ShapeIsBelow (length numbering.now.numbers.items) shape.now }
    ensures written { OnOk result (out.new ≡ out.old ++ shape_text numbering.now.numbers.items shape.now) }
{
    match shape {
        ArcShape::Nothing => write_null(out),
        ArcShape::Points(points) => write_points(points.as_slice(), out),
        ArcShape::Lines(lines) => write_lines(lines.as_slice(), numbering, out),
        ArcShape::Polygons(polygons) => write_areas(polygons.as_slice(), numbering, out),
    }
}

// The properties, where there is a column.
fn write_row(keys: &[Bytes], row: &Row, out: &mut Bytes) -> Result<(), AllocError>
    requires { length keys.now ≡ length row.now }
    ensures written { OnOk result (out.new ≡ out.old ++ row_member keys.now row.now) }
{
    if keys.len() == 0 {
        return Ok(());
    }
    out.extend(b",\"properties\":")?;
    write_properties(keys, row, out)
}

fn write_geometry(
    keys: &[Bytes],
    row: &Row,
    shape: &ArcShape,
    numbering: &Numbering,
    out: &mut Bytes,
) -> Result<(), AllocError>
    requires width { length keys.now ≡ length row.now }
    requires there { ShapeIsBelow (length numbering.now.numbers.items) shape.now }
    ensures written { OnOk result (out.new ≡ out.old ++ geometry_text numbering.now.numbers.items keys.now (row.now, shape.now)) }
{
    write_shape(shape, numbering, out)?;
    write_row(keys, row, out)?;
    out.push(b'}')
}

/// The geometries of a layer, with commas between them.
pub fn write_geometries(
    keys: &[Bytes],
    rows: &[Row],
    shapes: &[ArcShape],
    numbering: &Numbering,
    out: &mut Bytes,
) -> Result<(), AllocError>
    requires count { length shapes.now ≡ length rows.now }
    requires widths { AreRows (length keys.now) rows.now }
    requires there { All (ShapeIsBelow (length numbering.now.numbers.items)) shapes.now }
    ensures written { OnOk result (out.new ≡ out.old ++ geometries_text numbering.now.numbers.items keys.now rows.now shapes.now) }
{
    for (i, shape) in shapes.iter().enumerate() {
        write_comma(i, out)?;
        write_geometry(keys, &rows[i], shape, numbering, out)?;
    }
    Ok(())
}
