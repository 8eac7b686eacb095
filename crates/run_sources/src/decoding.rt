ghost use Rattle.std.specs.Prelude.{◌≡◌, ◌≤◌, ◌∷◌, [], All, IfOk, replicate};
ghost use Rattle.grid_base.specs.Grid.{most_places};
ghost use Rattle.json_values.specs.Seen.{json_value};
ghost use Rattle.run_sources.specs.Decoding.{features_given, json_stop, table_stop, is_topology, table_layer, Decodes, DecodesJson, DecodesTable, TopologyGives, ValueGives};
ghost use Rattle.geojson_io.specs.Sound.{LayerIsSound};
ghost use Rattle.geojson_io.specs.declared.shape.GeoShape.TheVariants.{Nothing};

use crate::fault::InputWhy;
use crate::formats::{is_csv, title_of};
use csv_io::{CsvFault, Room2, read_csv};
use geojson_io::{
    GeoLayer, GeoLayers, GeoShape, GeoShapeList, Parsed, Room, ShapeFault, parse_features,
    read_geojson,
};
use grid_base::Kind;
use io_core::Text;
use job_terms::SourceWord;
use json_read::{Json, JsonFault, Table};
use std::alloc::{AllocError, Global};
use topo_io::{TopoFault, read_topojson};

/// Why the bytes of a source give no layers.
#[derive(Clone, Copy, PartialEq, Eq)]
pub(crate) enum DecodeStop {
    Refused(InputWhy),
    Memory,
}

impl From<AllocError> for DecodeStop {
    ghost use Rattle.std.specs.Prelude.{◌≡◌};
    ghost use Rattle.run_sources.specs.declared.decoding.DecodeStop.{DecodeStop};

    ghost from_gives = { λ _ stop. stop ≡ DecodeStop.Memory };

    fn from(_error: AllocError) -> DecodeStop {
        DecodeStop::Memory
    }
}

/// The layers of the bytes of a source, on a grid of `places` decimal places.
pub(crate) fn decoded(
    alloc: Global,
    source: &SourceWord,
    places: u8,
    room: Room,
    bytes: &[u8],
) -> Result<GeoLayers, DecodeStop>
    requires { places ≤ most_places }
    ensures gives { Decodes places room source.now bytes.now result }
    ensures sound { IfOk result (λ layers. All LayerIsSound layers) }
{
    if is_csv(source, bytes) {
        table_layers(alloc, source, room, bytes)
    } else {
        json_layers(alloc, title_of(source), places, room, bytes)
    }
}

fn json_layers(
    alloc: Global,
    title: &str,
    places: u8,
    room: Room,
    bytes: &[u8],
) -> Result<GeoLayers, DecodeStop>
    requires { places ≤ most_places }
    ensures gives { DecodesJson places room title.now bytes.now result }
    ensures sound { IfOk result (λ layers. All LayerIsSound layers) }
{
    match parse_features(alloc, bytes, places, title, room) {
        Ok(Parsed::Features(read)) => features_of(read),
        Ok(Parsed::Value(json)) => value_layers(alloc, title, places, room, &json),
        Err(fault) => Err(json_stop(fault)),
    }
}

fn json_stop(fault: JsonFault) -> DecodeStop
    ensures exact { result ≡ json_stop fault }
{
    match fault {
        JsonFault::Syntax { at } => DecodeStop::Refused(InputWhy::Syntax { at }),
        JsonFault::Depth { at } => DecodeStop::Refused(InputWhy::Depth { at }),
        JsonFault::Utf8 { at } => DecodeStop::Refused(InputWhy::Utf8 { at }),
        JsonFault::Memory => DecodeStop::Memory,
    }
}

fn value_layers(
    alloc: Global,
    title: &str,
    places: u8,
    room: Room,
    json: &Json,
) -> Result<GeoLayers, DecodeStop>
    requires { places ≤ most_places }
    ensures gives { ValueGives places room title.now (json_value json.now) result }
    ensures sound { IfOk result (λ layers. All LayerIsSound layers) }
{
    if is_topology(json) {
        return topology_layers(alloc, places, room, json);
    }
    features_of(read_geojson(alloc, json, places, title, room))
}

// The layers of GeoJSON, or why it is refused.
fn features_of(read: Result<GeoLayers, ShapeFault>) -> Result<GeoLayers, DecodeStop>
    ensures exact { result ≡ features_given read }
{
    match read {
        Ok(layers) => Ok(layers),
        Err(ShapeFault::Bad { why, feature }) => {
            Err(DecodeStop::Refused(InputWhy::Shape { why, feature }))
        }
        Err(ShapeFault::Memory) => Err(DecodeStop::Memory),
    }
}

fn topology_layers(
    alloc: Global,
    places: u8,
    room: Room,
    json: &Json,
) -> Result<GeoLayers, DecodeStop>
    requires { places ≤ most_places }
    ensures gives { TopologyGives places room (json_value json.now) result }
    ensures sound { IfOk result (λ layers. All LayerIsSound layers) }
{
    match read_topojson(alloc, json, places, room) {
        Ok(layers) => Ok(layers),
        Err(TopoFault::Bad { why, place }) => {
            Err(DecodeStop::Refused(InputWhy::Topo { why, place }))
        }
        Err(TopoFault::Memory) => Err(DecodeStop::Memory),
    }
}

// Whether the value is a topology, after TopoJSON 1.0, section 2.1.
fn is_topology(json: &Json) -> bool
    ensures exact { result ≡ is_topology (json_value json.now) }
{
    match json {
        Json::Object(members) => match members.find("type") {
            Some(Json::Text(name)) => name.as_str() == "Topology",
            _ => false,
        },
        _ => false,
    }
}

fn table_layers(
    alloc: Global,
    source: &SourceWord,
    room: Room,
    bytes: &[u8],
) -> Result<GeoLayers, DecodeStop>
    ensures gives { DecodesTable room source.now bytes.now result }
    ensures sound { IfOk result (λ layers. All LayerIsSound layers) }
{
    let rows = Room2 {
        rows: room.features,
    };
    match read_csv(alloc, bytes, &source.string_fields, rows) {
        Ok(table) => Ok(layers_of_table(alloc, title_of(source), table)?),
        Err(fault) => Err(table_stop(fault)),
    }
}

fn table_stop(fault: CsvFault) -> DecodeStop
    ensures exact { result ≡ table_stop fault }
{
    match fault {
        CsvFault::Utf8 { at } => DecodeStop::Refused(InputWhy::Utf8 { at }),
        CsvFault::NoHeader => DecodeStop::Refused(InputWhy::NoHeader),
        CsvFault::RepeatedName { column } => {
            DecodeStop::Refused(InputWhy::RepeatedName { column })
        }
        CsvFault::TooManyRows { row } => DecodeStop::Refused(InputWhy::TooManyRows { row }),
        CsvFault::UnequalRow { row } => DecodeStop::Refused(InputWhy::UnequalRow { row }),
        CsvFault::Memory => DecodeStop::Memory,
    }
}

// The one layer of a table: rows without geometry.
fn layers_of_table(alloc: Global, title: &str, table: Table) -> Result<GeoLayers, AllocError>
    ensures made { IfOk result (λ layers. layers ≡ table_layer title.now table ∷ []) }
{
    let shapes = nothings(alloc, table.row_count())?;
    let layer = GeoLayer {
        name: Text::of(alloc, title)?,
        kind: Kind::Table,
        table,
        shapes,
    };
    let mut layers = GeoLayers::new(alloc);
    layers.push(layer)?;
    Ok(layers)
}

fn nothings(alloc: Global, count: u32) -> Result<GeoShapeList, AllocError>
    ensures exact { IfOk result (λ shapes. shapes ≡ replicate count Nothing) }
{
    let mut shapes = GeoShapeList::new(alloc);
    for _row in 0..count {
        shapes.push(GeoShape::Nothing)?;
    }
    Ok(shapes)
}
