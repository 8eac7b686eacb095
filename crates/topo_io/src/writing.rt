ghost use Rattle.std.specs.Prelude.{◌≡◌, ◌≤◌, ◌++◌, ◌∷◌, [], All, IfOk, OnOk, length, map};
ghost use Rattle.grid_base.specs.Grid.{most_places};
ghost use Rattle.geojson_io.specs.Texts.{separated};
ghost use Rattle.topo_io.specs.Arcs.{LayerIsBelow};
ghost use Rattle.topo_io.specs.Texts.{head_text, object_text, topojson_text};

mod arcs;
mod numbering;
mod shapes;

use crate::arc_layer::{ArcLayer, ArcLayers};
use arc_table::ArcTable;
use arcs::write_arcs;
use geojson_io::{keys_of, write_comma};
use json_values::print_string;
use numbering::Numbering;
use numerals::Decimal;
use shapes::write_geometries;
use std::alloc::{AllocError, Global};
use text_core::Bytes;

/// The TopoJSON text of layers: one object for each, by its name, and the arcs that they use.
///
/// Shape and units: grid numbers, with 10^-`places` as the scale. The arcs are numbered anew from 0, in order of their
/// numbers; the first position of an arc stands by itself, each other as a difference.
/// Source: TopoJSON 1.0; the exact text is ours.
pub fn write_topojson(
    alloc: Global,
    layers: &ArcLayers,
    arcs: &ArcTable,
    places: u8,
) -> Result<Bytes, AllocError>
    requires places { places ≤ most_places }
    requires there { All (LayerIsBelow (length arcs.now)) layers.now }
    ensures exact { IfOk result (λ text. text ≡ topojson_text places arcs.now layers.now) }
{
    let numbering = Numbering::of(alloc, layers.as_slice(), arcs.count())?;
    let mut out = Bytes::new(alloc);
    write_head(places, &mut out)?;
    write_objects(alloc, layers.as_slice(), &numbering, &mut out)?;
    out.extend(b"},\"arcs\":[")?;
    write_arcs(arcs, numbering.used.as_slice(), &mut out)?;
    out.extend(b"]}\n")?;
    Ok(out)
}

fn write_head(places: u8, out: &mut Bytes) -> Result<(), AllocError>
    requires { places ≤ most_places }
    ensures written { OnOk result (out.new ≡ out.old ++ head_text places) }
{
    let scale = Decimal::of_grid(1, places);
    out.extend(b"{\"type\":\"Topology\",\"transform\":{\"scale\":[")?;
    scale.print_into(out)?;
    out.push(b',')?;
    scale.print_into(out)?;
    out.extend(b"],\"translate\":[0,0]},\"objects\":{")
}

fn write_objects(
    alloc: Global,
    layers: &[ArcLayer],
    numbering: &Numbering,
    out: &mut Bytes,
) -> Result<(), AllocError>
    requires { All (LayerIsBelow (length numbering.now.numbers.items)) layers.now }
    ensures written { OnOk result (out.new ≡ out.old ++ separated (44 ∷ []) (map (object_text numbering.now.numbers.items) layers.now)) }
{
    for (i, layer) in layers.iter().enumerate() {
        write_comma(i, out)?;
        write_object(alloc, layer, numbering, out)?;
    }
    Ok(())
}

fn write_object(
    alloc: Global,
    layer: &ArcLayer,
    numbering: &Numbering,
    out: &mut Bytes,
) -> Result<(), AllocError>
    requires { LayerIsBelow (length numbering.now.numbers.items) layer.now }
    ensures written { OnOk result (out.new ≡ out.old ++ object_text numbering.now.numbers.items layer.now) }
{
    print_string(&layer.name, out)?;
    out.extend(b":{\"type\":\"GeometryCollection\",\"geometries\":[")?;
    let keys = keys_of(alloc, layer.table.names().as_slice())?;
    let rows = layer.table.rows().as_slice();
    write_geometries(
        keys.as_slice(),
        rows,
        layer.shapes.as_slice(),
        numbering,
        out,
    )?;
    out.extend(b"]}")
}
