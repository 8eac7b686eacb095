ghost use Rattle.std.specs.Prelude.{◌≡◌, IfOk, None, Some, false, if◌then◌else◌, map, true};
ghost use Rattle.table_terms.specs.Refusals.{first_refusal};
ghost use Rattle.run_state.specs.Origins.{one_layer, origin_layers};
ghost use Rattle.run_state.specs.Stops.{refusal_of};
ghost use Rattle.run_state.specs.Targets.{has_target, targets};
ghost use Rattle.run_checks.specs.Checks.{
  first_kind,
  has_geometry,
  is_polygon,
  joins_all,
  joins_with,
  refused_alone,
  refused_cut,
  refused_kinds,
  refused_mixture,
  refused_number,
  refused_pairs,
  refused_for_origin,
  refused_target,
  takes,
  takes_all,
  takes_beside,
  takes_together,
};

use grid_base::Kind;
use job_terms::{JointAction, LayerAction, Origin, Target};
use run_plane::Layer;
use run_state::{
    HeldLayer, RefuseWhy, check_target, first_target, is_selected, only_target, origin_layer,
};

/// Tests the target, then the origin, then the kinds of the target's layers. `sources` has the layers of each source,
/// which are counted from 1.
///
/// Errors: the first refusal: `NoLayer` of the target; `NoLayer`, `ManyLayers` or `WrongKind` of the origin;
/// `WrongKind` of the layers.
pub fn check_each(
    layers: &[HeldLayer],
    sources: &[Vec<Layer>],
    target: &Target,
    action: &LayerAction,
) -> Result<(), RefuseWhy>
    ensures exact { refusal_of result ≡ first_refusal (refused_target target.now layers.now) (first_refusal (refused_for_origin (map (λ own. own.items) sources.now) layers.now action.now) (refused_kinds (map (λ own. own.items) sources.now) layers.now action.now (targets target.now layers.now))) }
    ensures sourced { IfOk result (λ done. refused_for_origin (map (λ own. own.items) sources.now) layers.now action.now ≡ None) }
    ensures there { IfOk result (λ done. has_target target.now layers.now ≡ true) }
    ensures absent { has_target target.now layers.now ≡ false → result ≡ Err RefuseWhy.NoLayer }
{
    check_target(layers, target)?;
    check_layers(layers, sources, target, action)
}

/// Tests the target of a command that changes layers together, then the kinds of its layers, then their number.
///
/// Errors: the first refusal: `NoLayer`, `WrongKind` or `OneLayer`.
pub fn check_together(
    layers: &[HeldLayer],
    target: &Target,
    action: &JointAction,
) -> Result<(), RefuseWhy>
    ensures exact { refusal_of result ≡ first_refusal (refused_target target.now layers.now) (first_refusal (refused_mixture action.now (targets target.now layers.now)) (refused_number action.now (targets target.now layers.now))) }
    ensures there { IfOk result (λ done. has_target target.now layers.now ≡ true) }
    ensures absent { has_target target.now layers.now ≡ false → result ≡ Err RefuseWhy.NoLayer }
{
    check_target(layers, target)?;
    check_joint(layers, target, action)
}

fn check_joint(layers: &[HeldLayer], target: &Target, action: &JointAction) -> Result<(), RefuseWhy>
    requires there { has_target target.now layers.now ≡ true }
    ensures exact { refusal_of result ≡ first_refusal (refused_mixture action.now (targets target.now layers.now)) (refused_number action.now (targets target.now layers.now)) }
{
    check_mixture(layers, target, action)?;
    check_number(layers, target, action)
}

fn check_layers(
    layers: &[HeldLayer],
    sources: &[Vec<Layer>],
    target: &Target,
    action: &LayerAction,
) -> Result<(), RefuseWhy>
    ensures exact { refusal_of result ≡ first_refusal (refused_for_origin (map (λ own. own.items) sources.now) layers.now action.now) (refused_kinds (map (λ own. own.items) sources.now) layers.now action.now (targets target.now layers.now)) }
    ensures sourced { IfOk result (λ done. refused_for_origin (map (λ own. own.items) sources.now) layers.now action.now ≡ None) }
{
    check_origin(layers, sources, action)?;
    check_kinds(layers, sources, target, action)
}

// Tests that the origin is there, and has polygons where the command cuts by it.
fn check_origin(
    layers: &[HeldLayer],
    sources: &[Vec<Layer>],
    action: &LayerAction,
) -> Result<(), RefuseWhy>
    ensures exact { refusal_of result ≡ refused_for_origin (map (λ own. own.items) sources.now) layers.now action.now }
{
    match action {
        LayerAction::Clip { from } => check_cut(layers, sources, from),
        LayerAction::Erase { from } => check_cut(layers, sources, from),
        LayerAction::Join { from, .. } => check_one(layers, sources, from),
        LayerAction::SpatialJoin { from, .. } => check_one(layers, sources, from),
        LayerAction::Dissolve { .. }
        | LayerAction::Clean { .. }
        | LayerAction::Mosaic
        | LayerAction::InnerLines
        | LayerAction::Lines { .. }
        | LayerAction::Explode
        | LayerAction::Filter { .. }
        | LayerAction::FilterFields { .. }
        | LayerAction::RenameFields { .. }
        | LayerAction::Split { .. }
        | LayerAction::Each { .. }
        | LayerAction::Sort { .. }
        | LayerAction::Uniq { .. }
        | LayerAction::FilterIslands { .. } => Ok(()),
    }
}

fn check_one(layers: &[HeldLayer], sources: &[Vec<Layer>], from: &Origin) -> Result<(), RefuseWhy>
    ensures exact { refusal_of result ≡ refusal_of (one_layer (origin_layers (map (λ own. own.items) sources.now) layers.now from.now)) }
{
    origin_layer(layers, sources, from)?;
    Ok(())
}

// Tests that what a command cuts by is polygons. A box always is there.
fn check_cut(layers: &[HeldLayer], sources: &[Vec<Layer>], from: &Origin) -> Result<(), RefuseWhy>
    ensures exact { refusal_of result ≡ refused_cut (map (λ own. own.items) sources.now) layers.now from.now }
{
    if let Origin::Area(_) = from {
        return Ok(());
    }
    let layer = origin_layer(layers, sources, from)?;
    check_fit(is_polygon(layer.kind))
}

// Tests that layers are of the kinds that they have to be.
fn check_fit(fits: bool) -> Result<(), RefuseWhy>
    ensures exact { refusal_of result ≡ (if fits then None else Some RefuseWhy.WrongKind) }
{
    if fits {
        Ok(())
    } else {
        Err(RefuseWhy::WrongKind)
    }
}

fn check_kinds(
    layers: &[HeldLayer],
    sources: &[Vec<Layer>],
    target: &Target,
    action: &LayerAction,
) -> Result<(), RefuseWhy>
    ensures exact { refusal_of result ≡ refused_kinds (map (λ own. own.items) sources.now) layers.now action.now (targets target.now layers.now) }
{
    match action {
        LayerAction::SpatialJoin { from, .. } => check_pairs(layers, sources, target, from),
        _ => check_fit(takes_all(layers, target, action)),
    }
}

// Tests that the layers of the target are joined by place with the origin.
fn check_pairs(
    layers: &[HeldLayer],
    sources: &[Vec<Layer>],
    target: &Target,
    from: &Origin,
) -> Result<(), RefuseWhy>
    ensures exact { refusal_of result ≡ refused_pairs (one_layer (origin_layers (map (λ own. own.items) sources.now) layers.now from.now)) (targets target.now layers.now) }
{
    let source = origin_layer(layers, sources, from)?;
    check_fit(joins_all(source.kind, layers, target))
}

fn joins_all(source: Kind, layers: &[HeldLayer], target: &Target) -> bool
    ensures exact { result ≡ joins_all source (targets target.now layers.now) }
{
    for held in layers {
        if is_selected(target, held) && !joins_with(source, held.layer.kind) {
            return false;
        }
    }
    true
}

// Whether layers of these kinds are joined by place.
fn joins_with(source: Kind, kind: Kind) -> bool
    ensures exact { result ≡ joins_with source kind }
{
    match source {
        Kind::Polygon => kind == Kind::Point,
        Kind::Point => kind == Kind::Polygon,
        Kind::Line | Kind::Table => false,
    }
}

fn takes_all(layers: &[HeldLayer], target: &Target, action: &LayerAction) -> bool
    ensures exact { result ≡ takes_all action.now (targets target.now layers.now) }
{
    for held in layers {
        if is_selected(target, held) && !takes(action, held.layer.kind) {
            return false;
        }
    }
    true
}

// Whether the command takes a layer of this kind; a join by place goes by its origin too.
fn takes(action: &LayerAction, kind: Kind) -> bool
    ensures exact { result ≡ takes action.now kind }
{
    match action {
        LayerAction::Clip { .. } | LayerAction::Erase { .. } | LayerAction::Explode => {
            has_geometry(kind)
        }
        LayerAction::Clean { .. }
        | LayerAction::Mosaic
        | LayerAction::InnerLines
        | LayerAction::Lines { .. }
        | LayerAction::FilterIslands { .. } => is_polygon(kind),
        LayerAction::Filter { remove_empty, .. } => !*remove_empty || has_geometry(kind),
        LayerAction::Dissolve { .. }
        | LayerAction::Join { .. }
        | LayerAction::SpatialJoin { .. }
        | LayerAction::FilterFields { .. }
        | LayerAction::RenameFields { .. }
        | LayerAction::Split { .. }
        | LayerAction::Each { .. }
        | LayerAction::Sort { .. }
        | LayerAction::Uniq { .. } => true,
    }
}

fn has_geometry(kind: Kind) -> bool
    ensures exact { result ≡ has_geometry kind }
{
    kind != Kind::Table
}

fn is_polygon(kind: Kind) -> bool
    ensures exact { result ≡ is_polygon kind }
{
    kind == Kind::Polygon
}

fn check_mixture(
    layers: &[HeldLayer],
    target: &Target,
    action: &JointAction,
) -> Result<(), RefuseWhy>
    requires there { has_target target.now layers.now ≡ true }
    ensures exact { refusal_of result ≡ refused_mixture action.now (targets target.now layers.now) }
{
    let first = first_kind(layers, target);
    check_fit(takes_together(layers, target, action, first))
}

// The kind of the first layer of the target.
fn first_kind(layers: &[HeldLayer], target: &Target) -> Kind
    requires there { has_target target.now layers.now ≡ true }
    ensures exact { result ≡ first_kind (targets target.now layers.now) }
{
    first_target(layers, target).kind
}

fn takes_together(layers: &[HeldLayer], target: &Target, action: &JointAction, first: Kind) -> bool
    ensures exact { result ≡ takes_together action.now first (targets target.now layers.now) }
{
    for held in layers {
        if is_selected(target, held) && !takes_beside(action, first, held.layer.kind) {
            return false;
        }
    }
    true
}

// Whether a command that changes layers together takes one of this kind, where the first of them is of the kind
// `first`.
fn takes_beside(action: &JointAction, first: Kind, kind: Kind) -> bool
    ensures exact { result ≡ takes_beside action.now first kind }
{
    match action {
        JointAction::MergeLayers { .. } => first == kind,
        JointAction::Union => is_polygon(kind),
    }
}

// Tests that there are as many layers as the command needs.
fn check_number(
    layers: &[HeldLayer],
    target: &Target,
    action: &JointAction,
) -> Result<(), RefuseWhy>
    ensures exact { refusal_of result ≡ refused_number action.now (targets target.now layers.now) }
{
    match action {
        JointAction::MergeLayers { .. } => Ok(()),
        JointAction::Union => check_several(layers, target),
    }
}

fn check_several(layers: &[HeldLayer], target: &Target) -> Result<(), RefuseWhy>
    ensures exact { refusal_of result ≡ refused_alone (targets target.now layers.now) }
{
    match only_target(layers, target) {
        Ok(_) => Err(RefuseWhy::OneLayer),
        Err(_) => Ok(()),
    }
}
