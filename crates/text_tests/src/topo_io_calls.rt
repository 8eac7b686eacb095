//! Calls of `topo_io`.
//!
//! `read_topojson`, `read_at_places` and `read_into_room` are as those of GeoJSON, whose module tells them.
//!
//! `write_lines` takes a number of decimal places, the names of columns and two points of the grid; it answers the
//! topology of the arc between them and of one layer `in`, whose one feature goes there and back, with null in each
//! column. `write_nothing` takes the same, and the feature has no geometry.
ghost use Rattle.std.specs.Prelude.{◌≡◌, ◌≤◌, ◌∷◌, [], All, IfOk, length};
ghost use Rattle.grid_base.specs.Grid.{most_places};
ghost use Rattle.topo_io.specs.Arcs.{ShapeIsBelow, LayerIsBelow};

use crate::geojson_io_calls::{AMPLE, layers_text, places_at, room_of};
use arc_table::{ArcTable, SignedPaths};
use case_lists::{bytes_of_text, list_at, names_at, number_at, told, unknown_call};
use geojson_io::Room;
use grid_base::{Drawing, Kind, Path, Pt, PtList};
use io_core::{Bytes, NameList, Text};
use json_values::{Fields, FieldsList, Json, Table, Value};
use snap_round::snap;
use std::alloc::{AllocError, Global};
use topo_io::{ArcLayer, ArcLayers, ArcShape, ArcShapeList, read_topojson, write_topojson};

/// What a call of `topo_io` answers to a case, as this module says; to a call that isn't there, what `unknown_call`
/// answers.
pub fn answer(alloc: Global, call: &str, case: &[Json]) -> Result<Bytes, AllocError> {
    match call {
        "read_topojson" => read(alloc, case.first(), 0, AMPLE),
        "read_at_places" => read(alloc, case.get(1), places_at(case, 0), AMPLE),
        "read_into_room" => read(alloc, case.get(2), 0, room_of(case)),
        "write_lines" => write(alloc, case, Kind::Line),
        "write_nothing" => write(alloc, case, Kind::Table),
        _ => unknown_call(alloc),
    }
}

fn read(alloc: Global, source: Option<&Json>, places: u8, room: Room) -> Result<Bytes, AllocError>
    requires { places ≤ most_places }
{
    let Some(source) = source else {
        return unknown_call(alloc);
    };
    match read_topojson(alloc, source, places, room) {
        Ok(layers) => layers_text(alloc, &layers, places),
        Err(fault) => told(alloc, &fault),
    }
}

fn write(alloc: Global, case: &[Json], kind: Kind) -> Result<Bytes, AllocError> {
    let (Some(a), Some(b)) = (point_at(case, 2), point_at(case, 3)) else {
        return bytes_of_text(alloc, "off the grid");
    };
    let arcs = arcs_between(alloc, a, b)?;
    let shape = shape_of(alloc, kind, &arcs, a, b)?;
    let table = one_row(alloc, &names_at(alloc, case, 1)?)?;
    let layers = one_layer(alloc, kind, table, shape, arcs.count())?;
    write_topojson(alloc, &layers, &arcs, places_at(case, 0))
}

// The point at this place of a case, whose coordinates are whole numbers.
fn point_at(case: &[Json], place: usize) -> Option<Pt> {
    let coordinates = list_at(case, place);
    Pt::new(
        i64::from(number_at(coordinates, 0)),
        i64::from(number_at(coordinates, 1)),
    )
}

fn two_points(alloc: Global, a: Pt, b: Pt) -> Result<Path, AllocError>
    ensures exact { IfOk result (λ path. path ≡ a ∷ b ∷ []) }
{
    let mut path = PtList::new(alloc);
    path.push(a)?;
    path.push(b)?;
    Ok(path)
}

// The arcs of a drawing of one line.
fn arcs_between(alloc: Global, a: Pt, b: Pt) -> Result<ArcTable, AllocError> {
    let mut drawing = Drawing::new(alloc);
    drawing.add_feature(Kind::Line)?;
    drawing.add_line(two_points(alloc, a, b)?)?;
    match snap(alloc, &drawing) {
        Ok(snapped) => ArcTable::build(alloc, &snapped),
        Err(_) => Err(AllocError),
    }
}

// The shape of a feature of the kind: of lines there and back, or nothing.
fn shape_of(alloc: Global, kind: Kind, t: &ArcTable, a: Pt, b: Pt) -> Result<ArcShape, AllocError>
    ensures made { IfOk result (λ shape. ShapeIsBelow (length t.now) shape) }
{
    match kind {
        Kind::Line => there_and_back(alloc, t, a, b),
        _ => Ok(ArcShape::Nothing),
    }
}

// The shape of one path there and one back along the arcs between `a` and `b`.
fn there_and_back(alloc: Global, t: &ArcTable, a: Pt, b: Pt) -> Result<ArcShape, AllocError>
    ensures made { IfOk result (λ shape. ShapeIsBelow (length t.now) shape) }
{
    let mut lines = SignedPaths::new(alloc);
    lines.push(t.path_arcs(alloc, &two_points(alloc, a, b)?)?)?;
    lines.push(t.path_arcs(alloc, &two_points(alloc, b, a)?)?)?;
    Ok(ArcShape::Lines(lines))
}

// A table of one row, with null for each of the names.
fn one_row(alloc: Global, names: &NameList) -> Result<Table, AllocError>
    ensures exact { IfOk result (λ t. length t.rows ≡ 1) }
{
    let mut fields = Fields::new(alloc);
    for name in names.as_slice() {
        fields.put(Text::of(alloc, name.as_str())?, Value::Null)?;
    }
    let mut rows = FieldsList::new(alloc);
    rows.push(fields)?;
    Table::from_fields(alloc, rows)
}

// A list of one layer with one feature.
fn one_layer(
    alloc: Global,
    kind: Kind,
    table: Table,
    shape: ArcShape,
    count: u32,
) -> Result<ArcLayers, AllocError>
    requires row { length table.rows ≡ 1 }
    requires below { ShapeIsBelow count shape }
    ensures made { IfOk result (λ layers. All (LayerIsBelow count) layers) }
{
    let mut shapes = ArcShapeList::new(alloc);
    shapes.push(shape)?;
    let name = Text::of(alloc, "in")?;
    let mut layers = ArcLayers::new(alloc);
    layers.push(ArcLayer {
        name,
        kind,
        table,
        shapes,
    })?;
    Ok(layers)
}
