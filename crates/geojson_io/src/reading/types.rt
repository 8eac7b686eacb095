ghost use Rattle.std.specs.Prelude.{◌≡◌};
ghost use Rattle.json_values.specs.Lists.{value_named};
ghost use Rattle.geojson_io.specs.Geometries.{geo_type_of, type_of};

use json_read::{Json, JsonFields};

/// The type of a geometry that is no collection.
#[derive(Clone, Copy, PartialEq, Eq, Debug)]
pub enum GeoType {
    Point,
    MultiPoint,
    LineString,
    MultiLineString,
    Polygon,
    MultiPolygon,
}

impl GeoType {
    /// The type with this name.
    pub fn named(name: &str) -> Option<GeoType>
        ensures exact { result ≡ geo_type_of name.now }
    {
        match name {
            "Point" => Some(GeoType::Point),
            "MultiPoint" => Some(GeoType::MultiPoint),
            "LineString" => Some(GeoType::LineString),
            "MultiLineString" => Some(GeoType::MultiLineString),
            "Polygon" => Some(GeoType::Polygon),
            "MultiPolygon" => Some(GeoType::MultiPolygon),
            _ => None,
        }
    }
}

/// What the members of a collection are to be.
#[derive(Clone, Copy, PartialEq, Eq, Debug)]
pub enum Member {
    Feature,
    Geometry,
}

/// The name of an object's type; empty where it has none.
pub fn type_of(object: &JsonFields) -> &str
    ensures exact { result.now ≡ type_of object.now }
{
    match object.find("type") {
        Some(Json::Text(name)) => name.as_str(),
        _ => "",
    }
}
