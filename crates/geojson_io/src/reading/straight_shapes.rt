ghost use Rattle.std.specs.Prelude.{IfOk, IfSome};
ghost use Rattle.json_read.specs.Straight.{HasRead};
ghost use Rattle.geojson_io.specs.Positions.{position};
ghost use Rattle.geojson_io.specs.Geometries.{several, shape_of};
ghost use Rattle.geojson_io.specs.Straight.{HasList, ReadsAs, ReadsListAs};
ghost use Rattle.geojson_io.specs.declared.reading.types.GeoType.TheVariants as type;

use crate::reading::geometries::{some_lines, some_points, some_polygons, with_rings};
use crate::reading::items::ReadItem;
use crate::reading::positions::{Lines, Polygons, Positions, Rings, is_closed};
use crate::reading::types::GeoType;
use crate::shape::GeoShape;
use grid_base::{PathList, PolygonRings, Pt, PtList, RingsList};
use json_read::{Reader, ValueTaker};
use lists::ItemList;
use std::alloc::AllocError;

// These read shapes straight from a text. Each answers `None` where the text may be a fault, or is none of the common
// forms; it is read as a JSON value then.

// Items that are read straight from a text.
trait ReadStraight: ReadItem {
    fn read_straight(
        reader: &mut Reader<'_>,
        depth: u32,
        places: u8,
        left: &mut u32,
    ) -> Result<Option<Self::Item>, AllocError>
        ensures read { IfOk result (λ found. IfSome found (λ item. HasRead depth (ReadsAs (Self.read places) left.old item left.new) reader.old reader.new)) };
}

// The items so far, and the positions for which there is room.
#[derive(Drop)]
struct ListTaker<R: ReadStraight> {
    places: u8,
    left: u32,
    list: ItemList<R::Item>,
}

impl<R: ReadStraight> ValueTaker for ListTaker<R> {
    ghost took = { λ first now. HasList R.read first.places first.left now.places now.list now.left };

    fn take_value(&mut self, reader: &mut Reader<'_>, depth: u32) -> Result<bool, AllocError> {
        let Some(item) = R::read_straight(reader, depth, self.places, &mut self.left)? else {
            return Ok(false);
        };
        self.list.push(item)?;
        Ok(true)
    }
}

// The items of an array with one item or more.
fn read_list<R: ReadStraight>(
    reader: &mut Reader<'_>,
    depth: u32,
    places: u8,
    left: &mut u32,
) -> Result<Option<ItemList<R::Item>>, AllocError>
    ensures read { IfOk result (λ found. IfSome found (λ list. HasRead depth (ReadsAs (several (R.read places)) left.old list left.new) reader.old reader.new)) }
{
    let mut taker = ListTaker::<R> {
        places,
        left: *left,
        list: ItemList::new(reader.alloc()),
    };
    if !reader.items_by(depth, &mut taker)? {
        return Ok(None);
    }
    *left = taker.left;
    Ok(Some(taker.list))
}

fn position(reader: &mut Reader<'_>, depth: u32, places: u8, left: &mut u32) -> Option<Pt>
    ensures read { IfSome result (λ point. HasRead depth (ReadsListAs (position places) left.old point left.new) reader.old reader.new) }
{
    if *left == 0 {
        return None;
    }
    let (x, y) = reader.pair(depth, places)?;
    let point = Pt::new(x, y)?;
    *left -= 1;
    Some(point)
}

impl ReadStraight for Positions {
    fn read_straight(
        reader: &mut Reader<'_>,
        depth: u32,
        places: u8,
        left: &mut u32,
    ) -> Result<Option<Pt>, AllocError> {
        Ok(position(reader, depth, places, left))
    }
}

impl ReadStraight for Lines {
    fn read_straight(
        reader: &mut Reader<'_>,
        depth: u32,
        places: u8,
        left: &mut u32,
    ) -> Result<Option<PtList>, AllocError> {
        let Some(path) = read_list::<Positions>(reader, depth, places, left)? else {
            return Ok(None);
        };
        if path.len() < 2 {
            return Ok(None);
        }
        Ok(Some(path))
    }
}

impl ReadStraight for Rings {
    fn read_straight(
        reader: &mut Reader<'_>,
        depth: u32,
        places: u8,
        left: &mut u32,
    ) -> Result<Option<PtList>, AllocError> {
        let Some(path) = read_list::<Positions>(reader, depth, places, left)? else {
            return Ok(None);
        };
        if path.len() < 4 || !is_closed(&path) {
            return Ok(None);
        }
        Ok(Some(path))
    }
}

impl ReadStraight for Polygons {
    fn read_straight(
        reader: &mut Reader<'_>,
        depth: u32,
        places: u8,
        left: &mut u32,
    ) -> Result<Option<PolygonRings>, AllocError> {
        read_list::<Rings>(reader, depth, places, left)
    }
}

fn point_shape(
    reader: &mut Reader<'_>,
    depth: u32,
    places: u8,
    left: &mut u32,
) -> Result<Option<GeoShape>, AllocError>
    ensures read { IfOk result (λ found. IfSome found (λ shape. HasRead depth (ReadsAs (shape_of places type.Point) left.old shape left.new) reader.old reader.new)) }
{
    let Some(point) = position(reader, depth, places, left) else {
        return Ok(None);
    };
    let mut points = PtList::new(reader.alloc());
    points.push(point)?;
    Ok(Some(GeoShape::Points(points)))
}

fn points_shape(
    reader: &mut Reader<'_>,
    depth: u32,
    places: u8,
    left: &mut u32,
) -> Result<Option<GeoShape>, AllocError>
    ensures read { IfOk result (λ found. IfSome found (λ shape. HasRead depth (ReadsAs (shape_of places type.MultiPoint) left.old shape left.new) reader.old reader.new)) }
{
    let Some(points) = read_list::<Positions>(reader, depth, places, left)? else {
        return Ok(None);
    };
    Ok(Some(some_points(points)))
}

fn line_shape(
    reader: &mut Reader<'_>,
    depth: u32,
    places: u8,
    left: &mut u32,
) -> Result<Option<GeoShape>, AllocError>
    ensures read { IfOk result (λ found. IfSome found (λ shape. HasRead depth (ReadsAs (shape_of places type.LineString) left.old shape left.new) reader.old reader.new)) }
{
    let Some(path) = Lines::read_straight(reader, depth, places, left)? else {
        return Ok(None);
    };
    let mut lines = PathList::new(reader.alloc());
    lines.push(path)?;
    Ok(Some(GeoShape::Lines(lines)))
}

fn lines_shape(
    reader: &mut Reader<'_>,
    depth: u32,
    places: u8,
    left: &mut u32,
) -> Result<Option<GeoShape>, AllocError>
    ensures read { IfOk result (λ found. IfSome found (λ shape. HasRead depth (ReadsAs (shape_of places type.MultiLineString) left.old shape left.new) reader.old reader.new)) }
{
    let Some(lines) = read_list::<Lines>(reader, depth, places, left)? else {
        return Ok(None);
    };
    Ok(Some(some_lines(lines)))
}

fn polygon_shape(
    reader: &mut Reader<'_>,
    depth: u32,
    places: u8,
    left: &mut u32,
) -> Result<Option<GeoShape>, AllocError>
    ensures read { IfOk result (λ found. IfSome found (λ shape. HasRead depth (ReadsAs (shape_of places type.Polygon) left.old shape left.new) reader.old reader.new)) }
{
    let Some(polygon) = Polygons::read_straight(reader, depth, places, left)? else {
        return Ok(None);
    };
    let mut polygons = RingsList::new(reader.alloc());
    polygons.push(polygon)?;
    let kept = with_rings(polygons)?;
    Ok(Some(some_polygons(kept)))
}

fn polygons_shape(
    reader: &mut Reader<'_>,
    depth: u32,
    places: u8,
    left: &mut u32,
) -> Result<Option<GeoShape>, AllocError>
    ensures read { IfOk result (λ found. IfSome found (λ shape. HasRead depth (ReadsAs (shape_of places type.MultiPolygon) left.old shape left.new) reader.old reader.new)) }
{
    let Some(polygons) = read_list::<Polygons>(reader, depth, places, left)? else {
        return Ok(None);
    };
    let kept = with_rings(polygons)?;
    Ok(Some(some_polygons(kept)))
}

// The shape of coordinates of this type.
pub(crate) fn straight_shape(
    kind: GeoType,
    reader: &mut Reader<'_>,
    depth: u32,
    places: u8,
    left: &mut u32,
) -> Result<Option<GeoShape>, AllocError>
    ensures read { IfOk result (λ found. IfSome found (λ shape. HasRead depth (ReadsAs (shape_of places kind) left.old shape left.new) reader.old reader.new)) }
{
    match kind {
        GeoType::Point => point_shape(reader, depth, places, left),
        GeoType::MultiPoint => points_shape(reader, depth, places, left),
        GeoType::LineString => line_shape(reader, depth, places, left),
        GeoType::Polygon => polygon_shape(reader, depth, places, left),
        GeoType::MultiLineString => lines_shape(reader, depth, places, left),
        GeoType::MultiPolygon => polygons_shape(reader, depth, places, left),
    }
}
