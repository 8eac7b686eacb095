ghost use Rattle.std.specs.Prelude.{◌≡◌, ◌≤◌, ◌+◌, ◌++◌, All, IfErr, IfOk, None, OnOk, Ok, Some, MatchOption, map, length, slice_get};
ghost use Rattle.std.specs.Option.{option_copied, option_map};
ghost use Rattle.grid_base.specs.Grid.{most_places};
ghost use Rattle.json_values.specs.Lists.{fields_list, value_named};
ghost use Rattle.json_values.specs.Seen.{json_value};
ghost use Rattle.geojson_io.specs.Layers.{layers_of};
ghost use Rattle.topo_io.specs.Reads.{AnswersAt, IsFault};
ghost use Rattle.geojson_io.specs.Sound.{FeatureIsSound, LayerIsSound};
ghost use Rattle.topo_io.specs.Topologies.{IsAdded, geometries, layers_of_members, members_in, object_features};

use crate::fault::{TopoFault, TopoPlace, TopoWhy};
use crate::reading::Topology;
use crate::reading::features::{Numbers, features_of};
use geojson_io::{Feature, GeoLayers, Room, layers_of, type_of};
use json_values::{Json, JsonFields};
use std::alloc::{AllocError, Global};
use std::slice;

// The geometries of a collection, whose properties are an object, null or absent too.
fn members_in<'a>(geometries: Option<&'a Json>, properties: Option<&Json>) -> Option<&'a [Json]>
    ensures exact { MatchOption result (members_in (option_map json_value (option_copied geometries.entry)) (option_map json_value (option_copied properties.entry)) ≡ None)
        (λ items. members_in (option_map json_value (option_copied geometries.entry)) (option_map json_value (option_copied properties.entry)) ≡ Some (map json_value items.now)) }
{
    let Some(Json::List(list)) = geometries else {
        return None;
    };
    match properties {
        None | Some(Json::Null) | Some(Json::Object(_)) => Some(list.as_slice()),
        _ => None,
    }
}

// The geometries of an object: those of a collection, or itself.
fn geometries_of(json: &Json) -> Option<&[Json]>
    ensures exact { MatchOption result (geometries (json_value json.now) ≡ None) (λ items. geometries (json_value json.now) ≡ Some (map json_value items.now)) }
{
    match json {
        Json::Object(object) => {
            if type_of(object) == "GeometryCollection" {
                members_in(object.find("geometries"), object.find("properties"))
            } else {
                Some(slice::from_ref(json))
            }
        }
        _ => Some(slice::from_ref(json)),
    }
}

// The features of an object.
fn object_features(
    alloc: Global,
    numbers: Numbers,
    json: &Json,
    topology: &Topology,
    left: &mut u32,
) -> Result<Vec<Feature>, TopoFault>
    requires places { topology.now.frame.places ≤ most_places }
    requires room { numbers.before ≤ numbers.limit }
    ensures ok { IfOk result (λ read. object_features topology.now numbers (json_value json.now) left.old ≡ Ok (read.items, left.new)) }
    ensures fault { IfErr result (IsFault (object_features topology.now numbers (json_value json.now) left.old)) }
    ensures room { IfOk result (λ read. numbers.before + length read.items ≤ numbers.limit) }
    ensures sound { IfOk result (λ read. All FeatureIsSound read.items) }
{
    match geometries_of(json) {
        Some(items) => features_of(alloc, numbers, items, topology, left),
        None => Err(TopoFault::Bad {
            why: TopoWhy::NotTopology,
            place: TopoPlace::Shape {
                object: numbers.object,
                feature: 0,
            },
        }),
    }
}

fn append_layers(layers: &mut GeoLayers, more: GeoLayers) -> Result<(), AllocError>
    ensures added { OnOk result (layers.new ≡ layers.old ++ more) }
{
    for layer in more.into_vec() {
        layers.push(layer)?;
    }
    Ok(())
}

// Adds the layers of an object with these features.
fn add_layers(
    alloc: Global,
    name: &str,
    features: Vec<Feature>,
    layers: &mut GeoLayers,
) -> Result<(), AllocError>
    requires features { All FeatureIsSound features.items }
    requires layers { All LayerIsSound layers.old }
    ensures exact { OnOk result (layers.new ≡ layers.old ++ layers_of name.now features.items) }
    ensures sound { OnOk result (All LayerIsSound layers.new) }
{
    let more = layers_of(alloc, name, features)?;
    append_layers(layers, more)
}

// Adds the layers of an object, and tells how many features it has.
fn add_object(
    alloc: Global,
    name: &str,
    json: &Json,
    numbers: Numbers,
    topology: &Topology,
    left: &mut u32,
    layers: &mut GeoLayers,
) -> Result<u32, TopoFault>
    requires places { topology.now.frame.places ≤ most_places }
    requires room { numbers.before ≤ numbers.limit }
    requires sound { All LayerIsSound layers.old }
    ensures ok { IfOk result (λ count. IsAdded (object_features topology.now numbers (json_value json.now) left.old) name.now layers.old count left.new layers.new) }
    ensures fault { IfErr result (IsFault (object_features topology.now numbers (json_value json.now) left.old)) }
    ensures room { IfOk result (λ count. numbers.before + count ≤ numbers.limit) }
    ensures sound { OnOk result (All LayerIsSound layers.new) }
{
    let features = object_features(alloc, numbers, json, topology, left)?;
    let count = features.len() as u32;
    add_layers(alloc, name, features, layers)?;
    Ok(count)
}

// The name and the value of the member with this number.
fn member_at(members: &JsonFields, i: u32) -> Option<(&str, &Json)>
    ensures exact { MatchOption result (slice_get (fields_list members.now) i ≡ None) (λ p. slice_get (fields_list members.now) i ≡ Some (p.0.now, json_value p.1.now)) }
{
    Some((members.name_at(i)?, members.at(i)?))
}

/// The layers of the objects, in order.
pub fn layers_of_objects(
    alloc: Global,
    objects: &JsonFields,
    topology: &Topology,
    room: Room,
) -> Result<GeoLayers, TopoFault>
    requires { topology.now.frame.places ≤ most_places }
    ensures read { AnswersAt (layers_of_members topology.now room.positions room.features objects.now) result }
    ensures sound { IfOk result (λ layers. All LayerIsSound layers) }
{
    let mut layers = GeoLayers::new(alloc);
    let mut left = room.positions;
    let mut before = 0;
    for object in 0..objects.len() {
        let Some((name, json)) = member_at(objects, object) else {
            unreachable!()
        };
        let numbers = Numbers {
            object,
            before,
            limit: room.features,
        };
        let count = add_object(alloc, name, json, numbers, topology, &mut left, &mut layers)?;
        before += count;
    }
    Ok(layers)
}
