ghost use Rattle.std.specs.Prelude.{◌≡◌, ◌<◌, ◌++◌, ◌∷◌, [], length, map, All, IfOk, OnOk};
ghost use Rattle.std.specs.List.{AllZip};
ghost use Rattle.lists.specs.Lists.{joined_up, last_of};
ghost use Rattle.geojson_io.specs.Sound.{HasPoints, IsRing, LayerIsSound, ShapeIsSound};
ghost use Rattle.snap_round.specs.Paths.{with_lines, with_points, with_polygons, with_rings};
ghost use Rattle.run_beginning.specs.BegunLayers.{point_shape, row_shape};
ghost use Rattle.run_beginning.specs.Drawing.{drawing_of, drawn_boxes, drawn_lines, drawn_rings, lines_of, points_of, polygons_of, with_layers};
ghost use Rattle.run_beginning.specs.DrawnLayers.{IsDrawn, IsDrawnSource};

use geojson_io::{GeoLayer, GeoShape};
use grid_base::{BoxList, Drawing, Kind, PolygonRings, Pt, PtList, Rect};
use job_terms::Owner;
use json_values::Table;
use run_plane::{Layer, Shape};
use run_sources::ReadSource;
use std::alloc::{AllocError, Global};
use text_core::Text;

/// A drawing of sources, and what is left of these.
#[derive(Drop)]
pub(crate) struct Drawn {
    pub(crate) drawing: Drawing,
    pub(crate) sources: Vec<DrawnSource>,
}

/// What is left of the layers of a source, and what they were read for.
#[derive(Drop)]
pub(crate) struct DrawnSource {
    pub(crate) owner: Owner,
    pub(crate) layers: Vec<DrawnLayer>,
}

/// What is left of a layer that is drawn. The plane gives polygons and lines their shapes, one for each row.
#[derive(Drop)]
pub(crate) enum DrawnLayer {
    Polygons { name: Text, table: Table },
    Lines { name: Text, table: Table },
    /// A layer of points, or of rows alone, as commands begin with it.
    Whole(Layer),
}

/// The one drawing of all features of the sources, in order, and of the boxes. The paths of a feature are let go as
/// soon as they are drawn.
pub(crate) fn drawing_of(
    alloc: Global,
    sources: Vec<ReadSource>,
    boxes: &BoxList,
) -> Result<Drawn, AllocError>
    requires sound { All (λ read. All LayerIsSound read.layers) sources.items }
    ensures exact { IfOk result (λ drawn. drawn.drawing ≡ drawing_of (joined_up (map (λ read. read.layers) sources.items)) boxes.now) }
    ensures left { IfOk result (λ drawn. AllZip IsDrawnSource sources.items drawn.sources.items) }
{
    let mut drawing = Drawing::new(alloc);
    let sources = add_sources(alloc, &mut drawing, sources)?;
    add_boxes(&mut drawing, boxes.as_slice())?;
    Ok(Drawn { drawing, sources })
}

// Adds the features of sources, and answers what is left of these.
fn add_sources(
    alloc: Global,
    drawing: &mut Drawing,
    sources: Vec<ReadSource>,
) -> Result<Vec<DrawnSource>, AllocError>
    requires sound { All (λ read. All LayerIsSound read.layers) sources.items }
    ensures added { OnOk result (drawing.new ≡ with_layers (joined_up (map (λ read. read.layers) sources.items)) drawing.old) }
    ensures left { IfOk result (λ left. AllZip IsDrawnSource sources.items left.items) }
{
    let mut left = Vec::new(alloc);
    for source in sources {
        let layers = add_layers(alloc, drawing, source.layers.into_vec())?;
        left.push(DrawnSource {
            owner: source.owner,
            layers,
        })?;
    }
    Ok(left)
}

// Adds the features of layers, and answers what is left of these.
fn add_layers(
    alloc: Global,
    drawing: &mut Drawing,
    layers: Vec<GeoLayer>,
) -> Result<Vec<DrawnLayer>, AllocError>
    requires sound { All LayerIsSound layers.items }
    ensures added { OnOk result (drawing.new ≡ with_layers layers.items drawing.old) }
    ensures left { IfOk result (λ left. AllZip IsDrawn layers.items left.items) }
{
    let mut left = Vec::new(alloc);
    for layer in layers {
        left.push(add_layer(alloc, drawing, layer)?)?;
    }
    Ok(left)
}

fn add_boxes(drawing: &mut Drawing, boxes: &[Rect]) -> Result<(), AllocError>
    ensures added { OnOk result (drawing.new ≡ record drawing.old { boxes = drawing.old.boxes ++ drawn_boxes boxes.now }) }
{
    for rect in boxes {
        drawing.add_box(*rect)?;
    }
    Ok(())
}

// Adds the features of a layer, and answers what is left of it.
fn add_layer(
    alloc: Global,
    drawing: &mut Drawing,
    layer: GeoLayer,
) -> Result<DrawnLayer, AllocError>
    requires sound { LayerIsSound layer }
    ensures added { OnOk result (drawing.new ≡ with_layers (layer ∷ []) drawing.old) }
    ensures left { IfOk result (IsDrawn layer) }
{
    let GeoLayer {
        name,
        kind,
        table,
        shapes,
    } = layer;
    let shapes = match kind {
        Kind::Polygon => {
            add_polygon_features(drawing, shapes.into_vec())?;
            return Ok(DrawnLayer::Polygons { name, table });
        }
        Kind::Line => {
            add_line_features(drawing, shapes.into_vec())?;
            return Ok(DrawnLayer::Lines { name, table });
        }
        Kind::Point => add_point_features(alloc, drawing, shapes.into_vec())?,
        Kind::Table => row_shapes(alloc, shapes.as_slice())?,
    };
    Ok(DrawnLayer::Whole(Layer {
        name,
        kind,
        table,
        shapes,
    }))
}

fn add_polygon_features(drawing: &mut Drawing, shapes: Vec<GeoShape>) -> Result<(), AllocError>
    requires sound { All ShapeIsSound shapes.items }
    ensures added { OnOk result (drawing.new ≡ record drawing.old { polygons = drawing.old.polygons ++ map polygons_of shapes.items }) }
{
    for shape in shapes {
        drawing.add_feature(Kind::Polygon)?;
        add_shape_polygons(drawing, shape)?;
    }
    Ok(())
}

#[tactic(auto, using(crate::proofs::DrawingLemmas::no_polygons))]
fn add_shape_polygons(drawing: &mut Drawing, shape: GeoShape) -> Result<(), AllocError>
    requires feature { 0 < length drawing.old.polygons }
    requires sound { ShapeIsSound shape }
    ensures added { OnOk result (drawing.new ≡ with_polygons (polygons_of shape) drawing.old) }
{
    match shape {
        GeoShape::Polygons(polygons) => add_polygons(drawing, polygons.into_vec()),
        GeoShape::Nothing | GeoShape::Lines(_) | GeoShape::Points(_) => Ok(()),
    }
}

#[tactic(auto, using(crate::proofs::DrawingLemmas::no_polygons))]
fn add_polygons(drawing: &mut Drawing, polygons: Vec<PolygonRings>) -> Result<(), AllocError>
    requires feature { 0 < length drawing.old.polygons }
    requires rings { All (All IsRing) polygons.items }
    ensures added { OnOk result (drawing.new ≡ with_polygons (map drawn_rings polygons.items) drawing.old) }
{
    for polygon in polygons {
        drawing.add_polygon()?;
        add_rings(drawing, polygon.into_vec())?;
    }
    Ok(())
}

// Adds rings to the last polygon.
#[tactic(auto, using(crate::proofs::DrawingLemmas::no_rings))]
fn add_rings(drawing: &mut Drawing, rings: Vec<PtList>) -> Result<(), AllocError>
    requires polygon { 0 < length (last_of [] drawing.old.polygons) }
    requires rings { All IsRing rings.items }
    ensures added { OnOk result (drawing.new ≡ with_rings (drawn_rings rings.items) drawing.old) }
{
    for ring in rings {
        drawing.add_ring(ring)?;
    }
    Ok(())
}

fn add_line_features(drawing: &mut Drawing, shapes: Vec<GeoShape>) -> Result<(), AllocError>
    requires sound { All ShapeIsSound shapes.items }
    ensures added { OnOk result (drawing.new ≡ record drawing.old { lines = drawing.old.lines ++ map lines_of shapes.items }) }
{
    for shape in shapes {
        drawing.add_feature(Kind::Line)?;
        add_shape_lines(drawing, shape)?;
    }
    Ok(())
}

#[tactic(auto, using(crate::proofs::DrawingLemmas::no_lines))]
fn add_shape_lines(drawing: &mut Drawing, shape: GeoShape) -> Result<(), AllocError>
    requires feature { 0 < length drawing.old.lines }
    requires sound { ShapeIsSound shape }
    ensures added { OnOk result (drawing.new ≡ with_lines (lines_of shape) drawing.old) }
{
    match shape {
        GeoShape::Lines(lines) => add_lines(drawing, lines.into_vec()),
        GeoShape::Nothing | GeoShape::Polygons(_) | GeoShape::Points(_) => Ok(()),
    }
}

#[tactic(auto, using(crate::proofs::DrawingLemmas::no_lines))]
fn add_lines(drawing: &mut Drawing, lines: Vec<PtList>) -> Result<(), AllocError>
    requires feature { 0 < length drawing.old.lines }
    requires points { All HasPoints lines.items }
    ensures added { OnOk result (drawing.new ≡ with_lines (drawn_lines lines.items) drawing.old) }
{
    for line in lines {
        drawing.add_line(line)?;
    }
    Ok(())
}

// Adds point features, and answers their shapes.
fn add_point_features(
    alloc: Global,
    drawing: &mut Drawing,
    shapes: Vec<GeoShape>,
) -> Result<Vec<Shape>, AllocError>
    ensures added { OnOk result (drawing.new ≡ record drawing.old { points = drawing.old.points ++ map points_of shapes.items }) }
    ensures kept { IfOk result (λ kept. kept.items ≡ map point_shape shapes.items) }
{
    let mut kept = Vec::new(alloc);
    for shape in shapes {
        let points = points_in(alloc, shape);
        drawing.add_feature(Kind::Point)?;
        add_points(drawing, points.as_slice())?;
        kept.push(Shape::Points(points))?;
    }
    Ok(kept)
}

fn points_in(alloc: Global, shape: GeoShape) -> PtList
    ensures exact { result ≡ points_of shape }
{
    match shape {
        GeoShape::Points(points) => points,
        GeoShape::Nothing | GeoShape::Lines(_) | GeoShape::Polygons(_) => PtList::new(alloc),
    }
}

fn add_points(drawing: &mut Drawing, points: &[Pt]) -> Result<(), AllocError>
    requires feature { 0 < length drawing.old.points }
    ensures added { OnOk result (drawing.new ≡ with_points points.now drawing.old) }
{
    for point in points {
        drawing.add_point(*point)?;
    }
    Ok(())
}

fn row_shapes(alloc: Global, shapes: &[GeoShape]) -> Result<Vec<Shape>, AllocError>
    ensures rows { IfOk result (λ rows. rows.items ≡ map row_shape shapes.now) }
{
    let mut rows = Vec::new(alloc);
    for _shape in shapes {
        rows.push(Shape::Nothing)?;
    }
    Ok(rows)
}
