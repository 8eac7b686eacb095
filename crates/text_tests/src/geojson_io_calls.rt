//! Calls of `geojson_io`.
//!
//! `read_geojson` takes the JSON value of a source with the name `in`; it answers the name and the text of each layer,
//! or the fault. It reads whole units, into room for 100 features and 100 positions. `read_at_places` takes a number of
//! decimal places before the source, and `read_into_room` how many positions and features there is room for.
ghost use Rattle.std.specs.Prelude.{◌≤◌};
ghost use Rattle.grid_base.specs.Grid.{most_places};

use case_lists::{number_at, told, unknown_call};
use geojson_io::{GeoLayers, Room, read_geojson, write_geojson};
use grid_base::MAX_PLACES;
use io_core::Bytes;
use json_values::Json;
use std::alloc::{AllocError, Global};

/// Room for more than any source of the cases has.
pub const AMPLE: Room = Room {
    positions: 100,
    features: 100,
};

/// What a call of `geojson_io` answers to a case, as this module says; to a call that isn't there, what `unknown_call`
/// answers.
pub fn answer(alloc: Global, call: &str, case: &[Json]) -> Result<Bytes, AllocError> {
    match call {
        "read_geojson" => read(alloc, case.first(), 0, AMPLE),
        "read_at_places" => read(alloc, case.get(1), places_at(case, 0), AMPLE),
        "read_into_room" => read(alloc, case.get(2), 0, room_of(case)),
        _ => unknown_call(alloc),
    }
}

/// The number of decimal places at this place of a case, at most as many as a grid has.
pub fn places_at(case: &[Json], place: usize) -> u8
    ensures within { result ≤ most_places }
{
    number_at(case, place).min(u32::from(MAX_PLACES)) as u8
}

/// The room for positions and features with which a case begins.
pub fn room_of(case: &[Json]) -> Room {
    Room {
        positions: number_at(case, 0),
        features: number_at(case, 1),
    }
}

fn read(alloc: Global, source: Option<&Json>, places: u8, room: Room) -> Result<Bytes, AllocError>
    requires { places ≤ most_places }
{
    let Some(source) = source else {
        return unknown_call(alloc);
    };
    match read_geojson(alloc, source, places, "in", room) {
        Ok(layers) => layers_text(alloc, &layers, places),
        Err(fault) => told(alloc, &fault),
    }
}

/// The name of each layer, and its text.
pub fn layers_text(alloc: Global, layers: &GeoLayers, places: u8) -> Result<Bytes, AllocError>
    requires { places ≤ most_places }
{
    let mut out = Bytes::new(alloc);
    for layer in layers.as_slice() {
        out.extend(layer.name.as_str().as_bytes())?;
        out.push(b'\n')?;
        out.extend(write_geojson(alloc, layer, places)?.as_slice())?;
    }
    Ok(out)
}
