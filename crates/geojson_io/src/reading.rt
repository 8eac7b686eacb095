ghost use Rattle.std.specs.Prelude.{◌≡◌, ◌≤◌, All, IfOk, IfErr, Ok};
ghost use Rattle.grid_base.specs.Grid.{most_places};
ghost use Rattle.json_values.specs.Seen.{json_value};
ghost use Rattle.geojson_io.specs.Reads.{IsFault};
ghost use Rattle.geojson_io.specs.Layers.{read_geojson as geojson_layers};
ghost use Rattle.geojson_io.specs.Sound.{LayerIsSound};

mod features;
mod geometries;
mod items;
mod layering;
mod positions;
mod straight_features;
mod straight_shapes;
mod taking;
mod types;

use crate::fault::{ShapeFault, ShapeWhy};
use crate::layer::{GeoLayers, Room};
use features::{members, top_members};
pub use features::{Feature, properties_of};
pub use geometries::{some_lines, some_points, some_polygons};
use json_read::Json;
pub use layering::layers_of;
pub use positions::{is_closed, place};
use std::alloc::Global;
pub use taking::{Parsed, parse_features};
pub use types::{GeoType, Member, type_of};

/// The layers of a GeoJSON value, named by `name`.
///
/// Shape and units: `places` decimal places of the grid; features and layers in the order of the value.
/// Errors: `Bad` is the first fault in the order of the features, and in each of its room, its type, its geometry and
/// its properties; nothing is changed.
/// Source: RFC 7946; the grid, the order of faults and the names of layers are ours.
pub fn read_geojson(
    alloc: Global,
    json: &Json,
    places: u8,
    name: &str,
    room: Room,
) -> Result<GeoLayers, ShapeFault>
    requires { places ≤ most_places }
    ensures ok { IfOk result (λ layers. geojson_layers places name.now room.positions room.features (json_value json.now) ≡ Ok layers) }
    ensures fault { IfErr result (IsFault (geojson_layers places name.now room.positions room.features (json_value json.now))) }
    ensures sound { IfOk result (λ layers. All LayerIsSound layers) }
{
    let Some((kind, items)) = top_members(json) else {
        return Err(ShapeFault::Bad {
            why: ShapeWhy::NotGeo,
            feature: 0,
        });
    };
    let mut left = room.positions;
    let features = members(alloc, kind, items, places, room.features, &mut left)?;
    Ok(layers_of(alloc, name, features)?)
}
