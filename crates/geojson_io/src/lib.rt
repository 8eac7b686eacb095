//! GeoJSON (RFC 7946) both ways.
//!
//! - `read_geojson` takes a JSON value and gives layers of grid points, one for each kind of geometry, or the first
//!   fault in order. A coordinate is rounded to a grid number: the decimal times ten to the decimal places, halves up.
//! - `parse_features` does the same with the bytes of a FeatureCollection, feature by feature as their texts are read,
//!   and gives the value of any other JSON text. A feature of the common form is read straight, without a JSON value of
//!   its coordinates.
//! - `write_geojson` takes a layer with its table and makes the text, `null` for a feature without geometry. It is made
//!   of `start_collection`, `write_next_feature` for each feature, and `end_collection`, by which others may write
//!   features whose shapes they don't keep. `write_next_points` does it for a feature of points that are lent.
//! - `Room` is what is left for positions and features of all sources together.
//!
//! `topo_io` reads and writes the same features in TopoJSON 1.0, and takes the parts for that from here.
#![tactic(auto)]

mod fault;
mod layer;
mod reading;
mod shape;
mod writing;

pub use fault::{ShapeFault, ShapeWhy};
pub use layer::{GeoLayer, GeoLayers, Room};
pub use reading::{Parsed, parse_features, read_geojson};
pub use shape::{GeoShape, GeoShapeList};
pub use writing::write_geojson;

// Parts for another format of the same features.
pub use reading::{
    Feature, GeoType, Member, is_closed, layers_of, place, properties_of, some_lines, some_points,
    some_polygons, type_of,
};
pub use writing::{keys_of, write_comma, write_number, write_pair, write_point, write_properties};

// The text of a layer, feature by feature.
pub use writing::{end_collection, start_collection, write_next_feature, write_next_points};
