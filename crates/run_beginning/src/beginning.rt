ghost use Rattle.std.specs.Prelude.{◌≡◌, ◌++◌, ◌∷◌, [], List, drop, length, map, slice_index_or, All, IfErr, IfOk, OnOk};
ghost use Rattle.std.specs.List.{AllZip, range_with_len};
ghost use Rattle.std.specs.Vec.Iter.{into_iter_items, into_iter_len};
ghost use Rattle.lists.specs.Lists.{first_or, joined_up};
ghost use Rattle.plane_model.specs.Drawing.{Drawing};
ghost use Rattle.plane_model.specs.Points.{Path};
ghost use Rattle.plane_model.specs.Snapped.{snapped};
ghost use Rattle.geojson_io.specs.LayerContent.{LayerContent};
ghost use Rattle.geojson_io.specs.Sound.{LayerIsSound};
ghost use Rattle.snap_round.specs.Snapping.{FaultMeans};
ghost use Rattle.run_plane.specs.Begun.{IsFew};
ghost use Rattle.run_plane.specs.LaidOut.{IsLaidOut};
ghost use Rattle.run_plane.specs.LineArcs.{AreLineArcs};
ghost use Rattle.run_plane.specs.OnPlane.{AreLayersOn, AreAllOn};
ghost use Rattle.run_plane.specs.declared.layer.Shape.TheVariants as shapes;
ghost use Rattle.run_sources.specs.declared.sources.ReadSource.{ReadSource};
ghost use Rattle.run_beginning.specs.BegunLayers.{AreBegun, AreSourcesBegun, BeginsOver, IsBegunLayer, Left, left_after, left_after_all, of_command, of_import};
ghost use Rattle.run_beginning.specs.Drawing.{drawing_of};
ghost use Rattle.run_beginning.specs.DrawnLayers.{IsDrawn, IsDrawnSource};
ghost use Rattle.run_beginning.specs.NextFeatures.{AreCounted, IsLeft};

use crate::drawing::{DrawnLayer, DrawnSource, drawing_of};
use arc_table::SignedPaths;
use face_sets::FaceSet;
use grid_base::{BoxList, Kind};
use job_terms::Owner;
use run_plane::{LaidOut, Layer, Plane, Shape, laid_out};
use run_sources::ReadSource;
use snap_round::SnapFault;
use std::alloc::{AllocError, Global};
use std::vec::IntoIter;

/// What a run has when its commands begin.
#[derive(Drop)]
pub struct Begun {
    pub plane: Plane,
    /// The layers of the import, in order.
    pub layers: Vec<Layer>,
    /// The layers of each source that belongs to a command, by its number less one; none for one of the import.
    pub sources: Vec<Vec<Layer>>,
}

/// Snaps all sources and boxes together, and builds their arcs and faces.
///
/// Errors: `TooDense`, and `Memory`.
pub fn begin(alloc: Global, sources: Vec<ReadSource>, boxes: &BoxList) -> Result<Begun, SnapFault>
    requires sound { All (λ read. All LayerIsSound read.layers) sources.items }
    ensures few { IfOk result (λ begun. IsFew (drawing_of (joined_up (map (λ read. read.layers) sources.items)) boxes.now)) }
    ensures over { IfOk result (λ begun. BeginsOver (snapped (drawing_of (joined_up (map (λ read. read.layers) sources.items)) boxes.now)) (map (λ read. read.owner) sources.items) (map (λ read. read.layers) sources.items) begun.plane.arcs begun.plane.faces begun.plane.boxes.items begun.layers.items (map (λ own. own.items) begun.sources.items)) }
    ensures on { IfOk result (λ begun. AreLayersOn begun.plane begun.layers.items) }
    ensures sources_on { IfOk result (λ begun. AreAllOn begun.plane (map (λ own. own.items) begun.sources.items)) }
    ensures fault { IfErr result (FaultMeans (drawing_of (joined_up (map (λ read. read.layers) sources.items)) boxes.now)) }
{
    let drawn = drawing_of(alloc, sources, boxes)?;
    let laid = laid_out(alloc, drawn.drawing)?;
    Ok(begun_with(alloc, laid, drawn.sources)?)
}

// The features of the drawing that are left, the next ones first.
#[derive(Drop)]
struct Next {
    // The faces of the polygon features.
    faces: IntoIter<FaceSet>,
    // The paths of the line features, as arcs.
    lines: IntoIter<SignedPaths>,
}

fn begun_with(alloc: Global, laid: LaidOut, sources: Vec<DrawnSource>) -> Result<Begun, AllocError>
    ensures over { (s : Drawing) (given : List ReadSource) → IsLaidOut s laid.plane.arcs laid.plane.faces laid.plane.boxes.items laid.features.items → AllZip (AreLineArcs laid.plane.arcs) s.lines laid.lines.items → AllZip IsDrawnSource given sources.items → IfOk result (λ begun. BeginsOver s (map (λ read. read.owner) given) (map (λ read. read.layers) given) begun.plane.arcs begun.plane.faces begun.plane.boxes.items begun.layers.items (map (λ own. own.items) begun.sources.items)) }
{
    let LaidOut {
        plane,
        features,
        lines,
    } = laid;
    let mut layers = Vec::new(alloc);
    let mut owned = Vec::new(alloc);
    begin_sources(alloc, features, lines, sources, &mut layers, &mut owned)?;
    Ok(Begun {
        plane,
        layers,
        sources: owned,
    })
}

// Fills two empty lists with the layers of sources over the plane: those of the import, and those of each source for
// its command.
fn begin_sources(
    alloc: Global,
    features: Vec<FaceSet>,
    lines: Vec<SignedPaths>,
    sources: Vec<DrawnSource>,
    layers: &mut Vec<Layer>,
    owned: &mut Vec<Vec<Layer>>,
) -> Result<(), AllocError>
    requires layers { layers.old.items ≡ [] }
    requires owned { owned.old.items ≡ [] }
    ensures begun { (arcs : List Path) (paths : List (List Path)) (given : List ReadSource) → AllZip (AreLineArcs arcs) paths lines.items → AllZip IsDrawnSource given sources.items → OnOk result (AreSourcesBegun arcs (record { faces = features.items; lines = paths }) (map (λ read. read.owner) given) (map (λ read. read.layers) given) layers.new.items (map (λ own. own.items) owned.new.items)) }
{
    let mut next = first_of(features, lines);
    for source in sources {
        let begun = begun_layers(alloc, &mut next, source.layers)?;
        hand_out(alloc, source.owner, begun, layers, owned)?;
    }
    Ok(())
}

// All features of the drawing are left.
fn first_of(features: Vec<FaceSet>, lines: Vec<SignedPaths>) -> Next
    ensures faces { into_iter_items result.faces ≡ features.items }
    ensures lines { into_iter_items result.lines ≡ lines.items }
    ensures counted { AreCounted result }
{
    Next {
        faces: features.into_iter(),
        lines: lines.into_iter(),
    }
}

// Adds the layers of a source to those of the import, or keeps them for its command.
fn hand_out(
    alloc: Global,
    owner: Owner,
    begun: Vec<Layer>,
    layers: &mut Vec<Layer>,
    owned: &mut Vec<Vec<Layer>>,
) -> Result<(), AllocError>
    ensures layers { OnOk result (layers.new.items ≡ layers.old.items ++ of_import owner begun.items) }
    ensures owned { OnOk result (map (λ own. own.items) owned.new.items ≡ map (λ own. own.items) owned.old.items ++ of_command owner begun.items ∷ []) }
{
    match owner {
        Owner::Import => {
            put_layers(layers, begun)?;
            owned.push(Vec::new(alloc))?;
        }
        Owner::Command(_) => owned.push(begun)?,
    }
    Ok(())
}

fn put_layers(layers: &mut Vec<Layer>, more: Vec<Layer>) -> Result<(), AllocError>
    ensures put { OnOk result (layers.new.items ≡ layers.old.items ++ more.items) }
{
    for layer in more {
        layers.push(layer)?;
    }
    Ok(())
}

// Layers over the plane, of the features that are left of the drawing.
fn begun_layers(
    alloc: Global,
    next: &mut Next,
    layers: Vec<DrawnLayer>,
) -> Result<Vec<Layer>, AllocError>
    requires counted { AreCounted next.old }
    ensures begun { (arcs : List Path) (left : Left) (given : List LayerContent) → IsLeft arcs left next.old → AllZip IsDrawn given layers.items → IfOk result (λ begun. AreBegun arcs left given begun.items) }
    ensures left { (arcs : List Path) (left : Left) (given : List LayerContent) → IsLeft arcs left next.old → AllZip IsDrawn given layers.items → OnOk result (IsLeft arcs (left_after_all given left) next.new) }
    ensures counted { OnOk result (AreCounted next.new) }
{
    let mut begun = Vec::new(alloc);
    for layer in layers {
        begun.push(begun_layer(alloc, next, layer)?)?;
    }
    Ok(begun)
}

fn begun_layer(alloc: Global, next: &mut Next, layer: DrawnLayer) -> Result<Layer, AllocError>
    requires counted { AreCounted next.old }
    ensures begun { (arcs : List Path) (left : Left) (given : LayerContent) → IsLeft arcs left next.old → IsDrawn given layer → IfOk result (IsBegunLayer arcs left given) }
    ensures left { (arcs : List Path) (left : Left) (given : LayerContent) → IsLeft arcs left next.old → IsDrawn given layer → OnOk result (IsLeft arcs (left_after given left) next.new) }
    ensures counted { OnOk result (AreCounted next.new) }
{
    match layer {
        DrawnLayer::Polygons { name, table } => {
            let shapes = begun_shapes(alloc, &mut next.faces, table.row_count())?;
            Ok(Layer {
                name,
                kind: Kind::Polygon,
                table,
                shapes,
            })
        }
        DrawnLayer::Lines { name, table } => {
            let shapes = begun_shapes(alloc, &mut next.lines, table.row_count())?;
            Ok(Layer {
                name,
                kind: Kind::Line,
                table,
                shapes,
            })
        }
        DrawnLayer::Whole(layer) => Ok(layer),
    }
}

// What a feature of the drawing is over the plane.
trait IntoShape: Drop {
    ghost use Rattle.run_plane.specs.declared.layer.Shape.{Shape};

    ghost nothing: { Self };

    ghost shape: { Self → Shape };

    // That of a feature that takes up nothing.
    fn nothing(alloc: Global) -> Self
        ensures exact { result ≡ nothing };

    fn into_shape(self) -> Shape
        ensures exact { result ≡ shape self };
}

impl IntoShape for FaceSet {
    ghost nothing = { [] };

    ghost shape = { shapes.Faces };

    fn nothing(alloc: Global) -> FaceSet {
        FaceSet::new(alloc)
    }

    fn into_shape(self) -> Shape {
        Shape::Faces(self)
    }
}

impl IntoShape for SignedPaths {
    ghost nothing = { [] };

    ghost shape = { shapes.Paths };

    fn nothing(alloc: Global) -> SignedPaths {
        SignedPaths::new(alloc)
    }

    fn into_shape(self) -> Shape {
        Shape::Paths(self)
    }
}

// The shapes of the next `count` features.
fn begun_shapes<T: IntoShape>(
    alloc: Global,
    features: &mut IntoIter<T>,
    count: u32,
) -> Result<Vec<Shape>, AllocError>
    requires count { into_iter_len features.old ≡ length (into_iter_items features.old) }
    ensures each { IfOk result (λ begun. length begun.items ≡ count) }
    ensures begun { IfOk result (λ begun. begun.items ≡ map (λ k. T.shape (slice_index_or (into_iter_items features.old) k T.nothing)) (range_with_len 0 count)) }
    ensures features { OnOk result (into_iter_items features.new ≡ drop count (into_iter_items features.old)) }
    ensures count { OnOk result (into_iter_len features.new ≡ length (into_iter_items features.new)) }
{
    let mut begun = Vec::new(alloc);
    for _number in 0..count {
        let feature = next_or(features, T::nothing(alloc));
        begun.push(feature.into_shape())?;
    }
    Ok(begun)
}

// The next of the items. There is one for each feature.
fn next_or<T: Drop>(items: &mut IntoIter<T>, none: T) -> T
    requires count { into_iter_len items.old ≡ length (into_iter_items items.old) }
    ensures first { result ≡ first_or none (into_iter_items items.old) }
    ensures rest { into_iter_items items.new ≡ drop 1 (into_iter_items items.old) }
    ensures count { into_iter_len items.new ≡ length (into_iter_items items.new) }
{
    match items.next() {
        Some(item) => item,
        None => none,
    }
}
