ghost use Rattle.std.specs.Prelude.{◌≡◌, ◌≤◌, ◌++◌, ◌∷◌, [], List, IfOk, OnOk, codes, length};
ghost use Rattle.grid_base.specs.Grid.{most_places};
ghost use Rattle.json_values.specs.Table.{AreRows};
ghost use Rattle.geojson_io.specs.Texts.{before_item, collection_end, collection_start, feature_text, features_text, geojson_text, properties_text};
ghost use Rattle.geojson_io.specs.declared.shape.GeoShape.{GeoShape};

mod geometries;
mod numbers;
mod properties;

use crate::layer::GeoLayer;
use crate::shape::GeoShape;
use geometries::{write_geometry, write_points};
pub use geometries::{write_comma, write_number, write_pair, write_point};
use grid_base::Pt;
use json_read::Row;
pub use properties::{keys_of, write_properties};
use std::alloc::{AllocError, Global};
use text_core::Bytes;

/// About how many bytes the text of a feature takes.
const FEATURE_BYTES: usize = 160;

/// The GeoJSON text of a layer.
///
/// Shape and units: grid numbers are printed as `g / 10^places`.
/// Source: RFC 7946; the exact text is ours.
pub fn write_geojson(alloc: Global, layer: &GeoLayer, places: u8) -> Result<Bytes, AllocError>
    requires { places ≤ most_places }
    ensures exact { IfOk result (λ text. text ≡ geojson_text places layer.now) }
{
    let shapes = layer.shapes.as_slice();
    let keys = keys_of(alloc, layer.table.names().as_slice())?;
    let rows = layer.table.rows().as_slice();
    let mut out = start_collection(alloc, shapes.len())?;
    write_features(keys.as_slice(), rows, shapes, places, &mut out)?;
    end_collection(shapes.len(), &mut out)?;
    Ok(out)
}

/// What stands before the first feature, with room for about `features` features after it.
pub fn start_collection(alloc: Global, features: usize) -> Result<Bytes, AllocError>
    ensures exact { IfOk result (λ text. text ≡ collection_start) }
{
    let mut out = Bytes::new(alloc);
    out.reserve(features.saturating_mul(FEATURE_BYTES))?;
    out.extend(b"{\"type\":\"FeatureCollection\",\"features\":[\n")?;
    Ok(out)
}

/// Feature number `i`, counted from 0, with what stands between it and the one before it; `keys` are those of
/// `keys_of`.
pub fn write_next_feature(
    i: usize,
    keys: &[Bytes],
    row: &Row,
    shape: &GeoShape,
    places: u8,
    out: &mut Bytes,
) -> Result<(), AllocError>
    requires places { places ≤ most_places }
    requires width { length keys.now ≡ length row.now }
    ensures written { OnOk result (out.new ≡ out.old ++ (before_item (codes ",\n") i ++ feature_text places keys.now (row.now, shape.now))) }
{
    start_feature(i, out)?;
    write_geometry(shape, places, out)?;
    end_feature(keys, row, out)
}

/// Feature number `i` of these points, which stay the caller's: what `write_next_feature` writes of a shape of them,
/// without a geometry where there is none.
pub fn write_next_points(
    i: usize,
    keys: &[Bytes],
    row: &Row,
    points: &[Pt],
    places: u8,
    out: &mut Bytes,
) -> Result<(), AllocError>
    requires places { places ≤ most_places }
    requires width { length keys.now ≡ length row.now }
    ensures written { OnOk result (out.new ≡ out.old ++ (before_item (codes ",\n") i ++ feature_text places keys.now (row.now, GeoShape.Points points.now))) }
{
    start_feature(i, out)?;
    write_points(points, places, out)?;
    end_feature(keys, row, out)
}

/// What stands after the last of `features` features.
pub fn end_collection(features: usize, out: &mut Bytes) -> Result<(), AllocError>
    ensures written { OnOk result ((shapes : List GeoShape) → length shapes ≡ features → out.new ≡ out.old ++ collection_end shapes) }
{
    if features == 0 {
        return out.extend(b"]}\n");
    }
    out.extend(b"\n]}\n")
}

// What stands before the geometry of feature number `i`, with what parts it from the feature before it.
fn start_feature(i: usize, out: &mut Bytes) -> Result<(), AllocError>
    ensures written { OnOk result (out.new ≡ out.old ++ (before_item (codes ",\n") i ++ codes "{\"type\":\"Feature\",\"geometry\":")) }
{
    write_break(i, out)?;
    out.extend(b"{\"type\":\"Feature\",\"geometry\":")
}

// A comma and a line feed before each feature but the first.
fn write_break(i: usize, out: &mut Bytes) -> Result<(), AllocError>
    ensures written { OnOk result (out.new ≡ out.old ++ before_item (codes ",\n") i) }
{
    if i > 0 {
        out.extend(b",\n")?;
    }
    Ok(())
}

// What stands after the geometry of a feature.
fn end_feature(keys: &[Bytes], row: &Row, out: &mut Bytes) -> Result<(), AllocError>
    requires width { length keys.now ≡ length row.now }
    ensures written { OnOk result (out.new ≡ out.old ++ (codes ",\"properties\":" ++ (properties_text keys.now row.now ++ 125 ∷ []))) }
{
    out.extend(b",\"properties\":")?;
    write_properties(keys, row, out)?;
    out.push(b'}')
}

fn write_features(
    keys: &[Bytes],
    rows: &[Row],
    shapes: &[GeoShape],
    places: u8,
    out: &mut Bytes,
) -> Result<(), AllocError>
    requires places { places ≤ most_places }
    requires count { length shapes.now ≡ length rows.now }
    requires widths { AreRows (length keys.now) rows.now }
    ensures written { OnOk result (out.new ≡ out.old ++ features_text places keys.now rows.now shapes.now) }
{
    for (i, shape) in shapes.iter().enumerate() {
        write_next_feature(i, keys, &rows[i], shape, places, out)?;
    }
    Ok(())
}
