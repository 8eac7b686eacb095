ghost use Rattle.std.specs.Prelude.{◌≡◌, ◌++◌, ◌∷◌, [], IfOk, OnOk, filter};
ghost use Rattle.geojson_io.specs.Layers.{kind_of, kinds_of, is_of_kind, layer_of, layers_of, kind_ending};
ghost use Rattle.geojson_io.specs.Layering.{add_kind, is_of_another, split_layers};

use crate::layer::{GeoLayer, GeoLayers};
use crate::reading::features::Feature;
use crate::shape::{GeoShape, GeoShapeList};
use grid_base::Kind;
use json_read::{FieldsList, Table};
use std::alloc::{AllocError, Global};
use text_core::Text;

fn kind_of(shape: &GeoShape) -> Option<Kind>
    ensures exact { result ≡ kind_of shape.now }
{
    match shape {
        GeoShape::Nothing => None,
        GeoShape::Polygons(_) => Some(Kind::Polygon),
        GeoShape::Lines(_) => Some(Kind::Line),
        GeoShape::Points(_) => Some(Kind::Point),
    }
}

// Adds a kind, unless it is there.
fn add_kind(kinds: &mut Vec<Kind>, kind: Kind) -> Result<(), AllocError>
    ensures ok { OnOk result (kinds.new.items ≡ add_kind kinds.old.items kind) }
{
    if !kinds.contains(&kind) {
        kinds.push(kind)?;
    }
    Ok(())
}

// The kinds of the features, in order of first appearance.
fn kinds_of(alloc: Global, features: &[Feature]) -> Result<Vec<Kind>, AllocError>
    ensures exact { IfOk result (λ kinds. kinds.items ≡ kinds_of features.now) }
{
    let mut kinds = Vec::new(alloc);
    for feature in features {
        if let Some(kind) = kind_of(&feature.shape) {
            add_kind(&mut kinds, kind)?;
        }
    }
    Ok(kinds)
}

fn layer_of(
    alloc: Global,
    name: Text,
    kind: Kind,
    features: Vec<Feature>,
) -> Result<GeoLayer, AllocError>
    ensures exact { IfOk result (λ layer. layer ≡ layer_of name kind features.items) }
{
    let mut rows = FieldsList::new(alloc);
    let mut shapes = GeoShapeList::new(alloc);
    for feature in features {
        let Feature { shape, fields } = feature;
        rows.push(fields)?;
        shapes.push(shape)?;
    }
    let table = Table::from_fields(alloc, rows)?;
    Ok(GeoLayer {
        name,
        kind,
        table,
        shapes,
    })
}

fn ending(kind: Kind) -> &'static str
    ensures exact { result.now ≡ kind_ending kind }
{
    match kind {
        Kind::Polygon => "-polygon",
        Kind::Line => "-line",
        Kind::Point => "-point",
        Kind::Table => "",
    }
}

// The name of a layer that is one of several.
fn name_with_ending(alloc: Global, name: &str, kind: Kind) -> Result<Text, AllocError>
    ensures exact { IfOk result (λ text. text ≡ name.now ++ kind_ending kind) }
{
    let mut text = String::from_str(alloc, name)?;
    text.push_str(ending(kind))?;
    Ok(Text::from_string(text))
}

// Whether a feature belongs to this kind; one without geometry counts as one of the first kind.
fn is_of_kind(first: Kind, kind: Kind, feature: &Feature) -> bool
    ensures exact { result ≡ is_of_kind first kind feature.now }
{
    kind_of(&feature.shape).unwrap_or(first) == kind
}

// The features of a kind, and the others.
fn parted(
    alloc: Global,
    first: Kind,
    kind: Kind,
    features: Vec<Feature>,
) -> Result<(Vec<Feature>, Vec<Feature>), AllocError>
    ensures exact { IfOk result (λ p. (p.0.items ≡ filter (is_of_kind first kind) features.items) × (p.1.items ≡ filter (is_of_another first kind) features.items)) }
{
    let mut chosen = Vec::new(alloc);
    let mut others = Vec::new(alloc);
    for feature in features {
        if is_of_kind(first, kind, &feature) {
            chosen.push(feature)?;
        } else {
            others.push(feature)?;
        }
    }
    Ok((chosen, others))
}

// A layer for each kind.
fn split_layers(
    alloc: Global,
    name: &str,
    first: Kind,
    kinds: &[Kind],
    features: Vec<Feature>,
) -> Result<GeoLayers, AllocError>
    ensures exact { IfOk result (λ layers. layers ≡ split_layers name.now first kinds.now features.items) }
{
    let mut layers = GeoLayers::new(alloc);
    let mut left = features;
    for kind in kinds {
        let (chosen, others) = parted(alloc, first, *kind, left)?;
        left = others;
        let name = name_with_ending(alloc, name, *kind)?;
        layers.push(layer_of(alloc, name, *kind, chosen)?)?;
    }
    Ok(layers)
}

fn one_layer(
    alloc: Global,
    name: &str,
    kind: Kind,
    features: Vec<Feature>,
) -> Result<GeoLayers, AllocError>
    ensures exact { IfOk result (λ layers. layers ≡ layer_of name.now kind features.items ∷ []) }
{
    let mut layers = GeoLayers::new(alloc);
    let name = Text::of(alloc, name)?;
    layers.push(layer_of(alloc, name, kind, features)?)?;
    Ok(layers)
}

/// The layers of these features: one of this name where they have one kind, one for each kind where they have
/// several, and a table where none has a geometry.
pub fn layers_of(alloc: Global, name: &str, features: Vec<Feature>) -> Result<GeoLayers, AllocError>
    ensures exact { IfOk result (λ layers. layers ≡ layers_of name.now features.items) }
{
    let kinds = kinds_of(alloc, features.as_slice())?;
    match kinds.as_slice() {
        [] => one_layer(alloc, name, Kind::Table, features),
        [only] => one_layer(alloc, name, *only, features),
        [first, ..] => split_layers(alloc, name, *first, kinds.as_slice(), features),
    }
}
