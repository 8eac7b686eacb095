ghost use Rattle.std.specs.Prelude.{◌≡◌, ◌≤◌, ◌<◌, ◌+◌, All, OnOk, IfErr, IfOk, Ok, length, map};
ghost use Rattle.std.specs.Option.{option_copied, option_map};
ghost use Rattle.grid_base.specs.Grid.{most_places};
ghost use Rattle.json_values.specs.Lists.{fields_list, value_named};
ghost use Rattle.json_values.specs.Seen.{json_value};
ghost use Rattle.topo_io.specs.Reads.{Answers, AnswersIn, AnswersPlain, IsFault, StandsAt};
ghost use Rattle.topo_io.specs.Shapes.{geometry, typed_geometry};
ghost use Rattle.geojson_io.specs.Sound.{ShapeIsSound, FeatureIsSound};
ghost use Rattle.topo_io.specs.Topologies.{feature, features, numbered_feature, properties};
ghost use Rattle.topo_io.specs.declared.fault.TopoPlace.TheVariants.{Shape};

use crate::fault::{Stop, TopoFault, TopoPlace, TopoWhy};
use crate::reading::Topology;
use crate::reading::shapes::shape_in;
use geojson_io::{Feature, GeoShape, GeoType, properties_of, type_of};
use json_values::{Fields, Json, JsonFields};
use std::alloc::Global;

fn properties(alloc: Global, json: Option<&Json>) -> Result<Fields, Stop>
    ensures answers { AnswersPlain (properties (option_map json_value (option_copied json.entry))) result }
{
    match json {
        None | Some(Json::Null) => Ok(Fields::new(alloc)),
        Some(Json::Object(object)) => Ok(properties_of(alloc, object)?),
        _ => Err(Stop::Why(TopoWhy::NotTopology)),
    }
}

fn typed_geometry(
    alloc: Global,
    object: &JsonFields,
    topology: &Topology,
    left: &mut u32,
) -> Result<GeoShape, Stop>
    requires { topology.now.frame.places ≤ most_places }
    ensures read { Answers (typed_geometry topology.now object.now) left.old result left.new }
    ensures sound { IfOk result (λ shape. ShapeIsSound shape) }
{
    let name = type_of(object);
    if name == "GeometryCollection" {
        return Err(Stop::Why(TopoWhy::Collection));
    }
    let Some(kind) = GeoType::named(name) else {
        return Err(Stop::Why(TopoWhy::NotTopology));
    };
    shape_in(alloc, kind, object, topology, left)
}

// A geometry whose type is null is none.
fn geometry(
    alloc: Global,
    object: &JsonFields,
    topology: &Topology,
    left: &mut u32,
) -> Result<GeoShape, Stop>
    requires { topology.now.frame.places ≤ most_places }
    ensures read { Answers (geometry topology.now object.now) left.old result left.new }
    ensures sound { IfOk result (λ shape. ShapeIsSound shape) }
{
    match object.find("type") {
        Some(Json::Null) => Ok(GeoShape::Nothing),
        _ => typed_geometry(alloc, object, topology, left),
    }
}

fn read_feature(
    alloc: Global,
    json: &Json,
    topology: &Topology,
    left: &mut u32,
) -> Result<Feature, Stop>
    requires { topology.now.frame.places ≤ most_places }
    ensures read { Answers (feature topology.now (json_value json.now)) left.old result left.new }
    ensures sound { IfOk result (λ feature. FeatureIsSound feature) }
{
    let Json::Object(object) = json else {
        return Err(Stop::Why(TopoWhy::NotTopology));
    };
    let shape = geometry(alloc, object, topology, left)?;
    let fields = properties(alloc, object.find("properties"))?;
    Ok(Feature { shape, fields })
}

/// Where the features of an object stand: the number of the object, how many features stand before it, and how many
/// there may be.
#[derive(Clone, Copy)]
pub struct Numbers {
    pub object: u32,
    pub before: u32,
    pub limit: u32,
}

// Feature number `n` of an object, where there is room for it.
fn numbered(
    alloc: Global,
    numbers: Numbers,
    n: u32,
    json: &Json,
    topology: &Topology,
    left: &mut u32,
) -> Result<Feature, TopoFault>
    requires places { topology.now.frame.places ≤ most_places }
    requires room { numbers.before + n ≤ numbers.limit }
    ensures read { AnswersIn (numbered_feature topology.now numbers (n, json_value json.now)) left.old result left.new }
    ensures room { OnOk result (numbers.before + n < numbers.limit) }
    ensures sound { IfOk result (λ feature. FeatureIsSound feature) }
{
    let place = TopoPlace::Shape {
        object: numbers.object,
        feature: n,
    };
    if numbers.before + n == numbers.limit {
        return Err(TopoFault::Bad {
            why: TopoWhy::TooManyFeatures,
            place,
        });
    }
    match read_feature(alloc, json, topology, left) {
        Ok(feature) => Ok(feature),
        Err(Stop::Memory) => Err(TopoFault::Memory),
        Err(Stop::Why(why)) => Err(TopoFault::Bad { why, place }),
    }
}

/// The features of an object, in order.
pub fn features_of(
    alloc: Global,
    numbers: Numbers,
    items: &[Json],
    topology: &Topology,
    left: &mut u32,
) -> Result<Vec<Feature>, TopoFault>
    requires places { topology.now.frame.places ≤ most_places }
    requires room { numbers.before ≤ numbers.limit }
    ensures ok { IfOk result (λ read. features topology.now numbers (map json_value items.now) left.old ≡ Ok (read.items, left.new)) }
    ensures fault { IfErr result (IsFault (features topology.now numbers (map json_value items.now) left.old)) }
    ensures room { IfOk result (λ read. numbers.before + length read.items ≤ numbers.limit) }
    ensures sound { IfOk result (λ read. All FeatureIsSound read.items) }
{
    let mut features = Vec::new(alloc);
    let mut n = 0;
    for item in items {
        let feature = numbered(alloc, numbers, n, item, topology, left)?;
        features.push(feature)?;
        n += 1;
    }
    Ok(features)
}
