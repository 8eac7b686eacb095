ghost use Rattle.std.specs.Prelude.{◌≡◌, ◌≤◌, All, Err, IfErr, IfOk, Ok};
ghost use Rattle.grid_base.specs.Grid.{most_places};
ghost use Rattle.json_values.specs.Lists.{items_list};
ghost use Rattle.json_values.specs.Seen.{json_value};
ghost use Rattle.topo_io.specs.Reads.{AnswersAt, IsFault};
ghost use Rattle.geojson_io.specs.Sound.{LayerIsSound};
ghost use Rattle.topo_io.specs.Topologies.{Members, layers_in, members, read_topojson as topology_layers};

mod arcs;
mod features;
mod objects;
mod positions;
mod shapes;
mod stitching;
mod transform;

use crate::fault::{TopoFault, TopoPlace, TopoWhy};
use crate::frame::{Frame, Transform};
use arcs::arcs_of;
pub use features::Numbers;
use geojson_io::{GeoLayers, Room, type_of};
use grid_base::PathList;
use json_values::{Json, JsonFields, JsonList};
use objects::layers_of_objects;
pub use positions::Sums;
use std::alloc::Global;
use transform::transform_of;

/// The layers of a topology: those of each of its objects, in order.
///
/// Shape and units: `places` decimal places of the grid; features and layers in the order of the value.
/// Errors: `Bad` is the first fault: at the top its type, `objects`, `arcs` and the transform; then in the arcs, in
/// order; then in the features of the objects, in order. Nothing is changed.
/// Source: TopoJSON 1.0; the grid, the order of faults and the names of layers are ours.
pub fn read_topojson(
    alloc: Global,
    json: &Json,
    places: u8,
    room: Room,
) -> Result<GeoLayers, TopoFault>
    requires { places ≤ most_places }
    ensures ok { IfOk result (λ layers. topology_layers places room.positions room.features (json_value json.now) ≡ Ok layers) }
    ensures fault { IfErr result (IsFault (topology_layers places room.positions room.features (json_value json.now))) }
    ensures sound { IfOk result (λ layers. All LayerIsSound layers) }
{
    match top_of(json) {
        Ok(top) => layers_of_top(alloc, top, places, room),
        Err(why) => Err(TopoFault::Bad {
            why,
            place: TopoPlace::Top,
        }),
    }
}

/// A topology whose arcs have been read.
#[derive(Drop)]
pub struct Topology {
    pub frame: Frame,
    pub arcs: PathList,
}

// The members of a topology.
#[derive(Drop)]
struct Top<'a> {
    objects: &'a JsonFields,
    arcs: &'a JsonList,
    transform: Option<Transform>,
}

fn top_of(json: &Json) -> Result<Top<'_>, TopoWhy>
    ensures ok { IfOk result (λ top. let m : Members = record { objects = top.objects.now; arcs = items_list top.arcs.now; transform = top.transform } in members (json_value json.now) ≡ Ok m) }
    ensures fault { IfErr result (λ why. members (json_value json.now) ≡ Err why) }
{
    let Json::Object(members) = json else {
        return Err(TopoWhy::NotTopology);
    };
    if type_of(members) != "Topology" {
        return Err(TopoWhy::NotTopology);
    }
    let Some(Json::Object(objects)) = members.find("objects") else {
        return Err(TopoWhy::NotTopology);
    };
    let Some(Json::List(arcs)) = members.find("arcs") else {
        return Err(TopoWhy::NotTopology);
    };
    let transform = transform_of(members.find("transform"))?;
    Ok(Top {
        objects,
        arcs,
        transform,
    })
}

fn layers_of_top(
    alloc: Global,
    top: Top<'_>,
    places: u8,
    room: Room,
) -> Result<GeoLayers, TopoFault>
    requires { places ≤ most_places }
    ensures read { let m : Members = record { objects = top.entry.objects.now; arcs = items_list top.entry.arcs.now; transform = top.entry.transform } in AnswersAt (layers_in places room.positions room.features m) result }
    ensures sound { IfOk result (λ layers. All LayerIsSound layers) }
{
    let frame = Frame {
        transform: top.transform,
        places,
    };
    let arcs = arcs_of(alloc, top.arcs, &frame)?;
    let topology = Topology { frame, arcs };
    layers_of_objects(alloc, top.objects, &topology, room)
}
