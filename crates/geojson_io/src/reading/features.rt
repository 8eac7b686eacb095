ghost use Rattle.std.specs.Prelude.{◌≡◌, ◌<◌, ◌≤◌, ◌++◌, ◌∷◌, [], MatchOption, IfOk, IfErr, OnOk, None, Some, Ok, ⊤, length, map, slice_get};
ghost use Rattle.std.specs.Option.{option_copied, option_map};
ghost use Rattle.json_values.specs.Lists.{fields_list};
ghost use Rattle.json_values.specs.Seen.{json_value};
ghost use Rattle.json_values.specs.Table.{IsNewName};
ghost use Rattle.geojson_io.specs.Reads.{Answers, AnswersIn, IsFault};
ghost use Rattle.geojson_io.specs.Features.{properties, property, feature, feature_of_fields, bare_feature, member_of, numbered, members, top_members, in_list};

use crate::fault::{ShapeFault, ShapeWhy, Stop};
use crate::reading::geometries::geometry;
use crate::reading::types::{GeoType, Member, type_of};
use crate::shape::GeoShape;
use json_read::{Fields, Json, JsonFields, Value};
use std::alloc::{AllocError, Global};
use std::slice;
use text_core::Text;

/// A feature as it was read.
#[derive(Drop)]
pub struct Feature {
    pub shape: GeoShape,
    pub fields: Fields,
}

// Appends the member with the number `i`, whose name is new, to the named values.
fn put_property(
    alloc: Global,
    object: &JsonFields,
    i: u32,
    fields: &mut Fields,
) -> Result<(), AllocError>
    requires within { i < length (fields_list object.now) }
    requires new { MatchOption (slice_get (fields_list object.now) i) ⊤ (λ f. IsNewName f.0 fields.old) }
    ensures ok { OnOk result (MatchOption (slice_get (fields_list object.now) i) ⊤ (λ f. fields.new ≡ fields.old ++ property f ∷ [])) }
{
    match object.name_at(i) {
        None => unreachable!(),
        Some(name) => match object.at(i) {
            None => unreachable!(),
            Some(json) => {
                let name = Text::of(alloc, name)?;
                let value = Value::of_json(alloc, json)?;
                fields.push_new(name, value)
            }
        },
    }
}

/// The members of an object as named values.
pub fn properties_of(alloc: Global, object: &JsonFields) -> Result<Fields, AllocError>
    ensures exact { IfOk result (λ fields. fields ≡ map property (fields_list object.now)) }
{
    let mut fields = Fields::with_capacity(alloc, object.len())?;
    for i in 0..object.len() {
        put_property(alloc, object, i, &mut fields)?;
    }
    Ok(fields)
}

fn properties(alloc: Global, json: Option<&Json>, left: u32) -> Result<Fields, Stop>
    ensures answers { Answers (properties (option_map json_value (option_copied json.entry))) left result left }
{
    match json {
        None | Some(Json::Null) => Ok(Fields::new(alloc)),
        Some(Json::Object(object)) => Ok(properties_of(alloc, object)?),
        _ => Err(Stop::Why(ShapeWhy::NotGeo)),
    }
}

fn feature_of_fields(
    alloc: Global,
    object: &JsonFields,
    places: u8,
    left: &mut u32,
) -> Result<Feature, Stop>
    ensures answers { Answers (feature_of_fields places object.now) left.old result left.new }
{
    let shape = match object.find("geometry") {
        Some(json) => geometry(alloc, json, places, left)?,
        None => GeoShape::Nothing,
    };
    let fields = properties(alloc, object.find("properties"), *left)?;
    Ok(Feature { shape, fields })
}

fn read_feature(alloc: Global, json: &Json, places: u8, left: &mut u32) -> Result<Feature, Stop>
    ensures answers { Answers (feature places (json_value json.now)) left.old result left.new }
{
    let Json::Object(object) = json else {
        return Err(Stop::Why(ShapeWhy::NotGeo));
    };
    if type_of(object) != "Feature" {
        return Err(Stop::Why(ShapeWhy::NotGeo));
    }
    feature_of_fields(alloc, object, places, left)
}

// A geometry as a feature without properties.
fn bare_feature(alloc: Global, json: &Json, places: u8, left: &mut u32) -> Result<Feature, Stop>
    ensures answers { Answers (bare_feature places (json_value json.now)) left.old result left.new }
{
    let shape = geometry(alloc, json, places, left)?;
    let fields = Fields::new(alloc);
    Ok(Feature { shape, fields })
}

fn read_member(
    alloc: Global,
    kind: Member,
    json: &Json,
    places: u8,
    left: &mut u32,
) -> Result<Feature, Stop>
    ensures answers { Answers (member_of kind places (json_value json.now)) left.old result left.new }
{
    match kind {
        Member::Feature => read_feature(alloc, json, places, left),
        Member::Geometry => bare_feature(alloc, json, places, left),
    }
}

/// Feature number `n`, where there is room for it among `limit` features.
pub fn numbered(
    alloc: Global,
    kind: Member,
    n: u32,
    json: &Json,
    places: u8,
    limit: u32,
    left: &mut u32,
) -> Result<Feature, ShapeFault>
    ensures read { n ≤ limit → AnswersIn (numbered kind places limit (n, json_value json.now)) left.old result left.new }
    ensures room { OnOk result (n < limit) }
{
    if n >= limit {
        return Err(ShapeFault::Bad {
            why: ShapeWhy::TooManyFeatures,
            feature: n,
        });
    }
    match read_member(alloc, kind, json, places, left) {
        Ok(feature) => Ok(feature),
        Err(Stop::Memory) => Err(ShapeFault::Memory),
        Err(Stop::Why(why)) => Err(ShapeFault::Bad { why, feature: n }),
    }
}

/// Features one after another, where there is room for `limit` of them and for `left` positions.
pub fn members(
    alloc: Global,
    kind: Member,
    items: &[Json],
    places: u8,
    limit: u32,
    left: &mut u32,
) -> Result<Vec<Feature>, ShapeFault>
    ensures ok { IfOk result (λ features. members kind places limit (map json_value items.now) left.old ≡ Ok (features.items, left.new)) }
    ensures fault { IfErr result (IsFault (members kind places limit (map json_value items.now) left.old)) }
{
    let mut features = Vec::new(alloc);
    let mut n = 0;
    for item in items {
        let feature = numbered(alloc, kind, n, item, places, limit, left)?;
        features.push(feature)?;
        n += 1;
    }
    Ok(features)
}

/// The members of a collection, or a feature or a geometry alone.
pub fn top_members(json: &Json) -> Option<(Member, &[Json])>
    ensures exact { MatchOption result (top_members (json_value json.now) ≡ None) (λ p. top_members (json_value json.now) ≡ Some (p.0, map json_value p.1.now)) }
{
    let Json::Object(object) = json else {
        return None;
    };
    match type_of(object) {
        "FeatureCollection" => in_list(Member::Feature, object.find("features")),
        "Feature" => Some((Member::Feature, slice::from_ref(json))),
        "GeometryCollection" => in_list(Member::Geometry, object.find("geometries")),
        name => match GeoType::named(name) {
            Some(_) => Some((Member::Geometry, slice::from_ref(json))),
            None => None,
        },
    }
}

fn in_list(kind: Member, json: Option<&Json>) -> Option<(Member, &[Json])>
    ensures exact { MatchOption result (in_list kind (option_map json_value (option_copied json.entry)) ≡ None) (λ p. in_list kind (option_map json_value (option_copied json.entry)) ≡ Some (p.0, map json_value p.1.now)) }
{
    match json {
        Some(Json::List(list)) => Some((kind, list.as_slice())),
        _ => None,
    }
}
