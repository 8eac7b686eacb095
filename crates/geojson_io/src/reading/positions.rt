ghost use Rattle.std.specs.Prelude.{◌≡◌};
ghost use Rattle.json_values.specs.Seen.{json_value};
ghost use Rattle.geojson_io.specs.Positions.{place, position, line, is_closed, ring, rings};

use crate::fault::{ShapeWhy, Stop};
use crate::reading::items::{ReadItem, several};
use grid_base::{PolygonRings, Pt, PtList};
use json_read::{Json, numeral_to_grid};
use std::alloc::Global;

/// The point of a position, which begins with two numbers.
pub fn place(json: &Json, places: u8) -> Result<Pt, ShapeWhy>
    ensures exact { result ≡ place places (json_value json.now) }
{
    let Json::List(list) = json else {
        return Err(ShapeWhy::BadPosition);
    };
    let Some(Json::Num(x)) = list.get(0) else {
        return Err(ShapeWhy::BadPosition);
    };
    let Some(Json::Num(y)) = list.get(1) else {
        return Err(ShapeWhy::BadPosition);
    };
    let x = numeral_to_grid(x.as_str(), places).ok_or(ShapeWhy::Range)?;
    let y = numeral_to_grid(y.as_str(), places).ok_or(ShapeWhy::Range)?;
    Pt::new(x, y).ok_or(ShapeWhy::Range)
}

/// Positions, each of which takes one of the room that is left.
pub struct Positions;

impl ReadItem for Positions {
    type Item = Pt;

    ghost read = { position };

    fn read_item(_alloc: Global, json: &Json, places: u8, left: &mut u32) -> Result<Pt, Stop> {
        if *left == 0 {
            return Err(Stop::Why(ShapeWhy::TooManyPositions));
        }
        match place(json, places) {
            Ok(point) => {
                *left -= 1;
                Ok(point)
            }
            Err(why) => Err(Stop::Why(why)),
        }
    }
}

/// Lines, each of two or more positions.
pub struct Lines;

impl ReadItem for Lines {
    type Item = PtList;

    ghost read = { line };

    fn read_item(alloc: Global, json: &Json, places: u8, left: &mut u32) -> Result<PtList, Stop> {
        let path = several::<Positions>(alloc, json, places, left)?;
        if path.len() < 2 {
            return Err(Stop::Why(ShapeWhy::LineShort));
        }
        Ok(path)
    }
}

/// Whether a path ends where it starts.
pub fn is_closed(path: &PtList) -> bool
    ensures exact { result ≡ is_closed path.now }
{
    match path.as_slice() {
        [first, .., last] => first == last,
        _ => true,
    }
}

/// Rings, each of four or more positions, whose ends are equal.
pub struct Rings;

impl ReadItem for Rings {
    type Item = PtList;

    ghost read = { ring };

    fn read_item(alloc: Global, json: &Json, places: u8, left: &mut u32) -> Result<PtList, Stop> {
        let path = several::<Positions>(alloc, json, places, left)?;
        if path.len() < 4 {
            return Err(Stop::Why(ShapeWhy::RingShort));
        }
        if !is_closed(&path) {
            return Err(Stop::Why(ShapeWhy::RingOpen));
        }
        Ok(path)
    }
}

/// Polygons, each of its rings.
pub struct Polygons;

impl ReadItem for Polygons {
    type Item = PolygonRings;

    ghost read = { rings };

    fn read_item(
        alloc: Global,
        json: &Json,
        places: u8,
        left: &mut u32,
    ) -> Result<PolygonRings, Stop> {
        several::<Rings>(alloc, json, places, left)
    }
}
