ghost use Rattle.std.specs.Prelude.{◌≡◌, ◌∷◌, [], ℕ, List, IfErr, IfOk, None, Ok, map, option_copied, replicate, true};
ghost use Rattle.std.specs.List.{AllZip, position_or_len};
ghost use Rattle.run_plane.specs.OnPlane.{AreAllOn, AreLayersOn, IsLayerOn};
ghost use Rattle.run_tables.specs.Matching.{AreMatches};
ghost use Rattle.run_state.specs.OnPlane.{AreHeldOn};
ghost use Rattle.run_state.specs.Targets.{has_target, is_selected, targets};
ghost use Rattle.run_state.specs.Origins.{base_of, one_layer, origin_layers};
ghost use Rattle.run_state.specs.Stops.{StopsAs, StopsFor};
ghost use Rattle.run_steps.specs.Commands.{CutsBy, IsTitled, Joins, JoinsByPlace, MadeTogether, MakesOne, PutsFor, PutsOut, PutsTogether, at_first};
ghost use Rattle.run_checks.specs.Checks.{refused_for_origin};
ghost use Rattle.run_steps.specs.Refusals.{RefusesHeld, RefusesIn, RefusesLayer, RefusesByPlace, refused_join, refused_together};
ghost use Rattle.run_tables.specs.Made.{GivesTable};
ghost use Rattle.spatial_join.specs.Joined.{join_matched};

use face_sets::FaceSet;
use io_core::Text;
use job_terms::{Command, JointAction, LayerAction, Origin, Target};
use join_terms::{CalcSpec, JoinSpec};
use run_borders::{dissolved, inner_lines, outlines, united};
use run_plane::{Layer, Plane, copy_text};
use run_shapes::{CutKeeps, cleaned, cut, exploded, mosaic, without_islands};
use run_state::{Base, CommandStop, HeldLayer, cut_set_of, is_selected, origin_layer};
use run_tables::{
    calculated, filtered, joined, joined_by_matches, matches_of, merged, renamed, sorted, split,
    unrepeated, with_fields,
};
use std::alloc::{AllocError, Global};

/// The layer that the command makes of its target's layers, in the place of the first, under the name of `name=` where
/// it stands: for each layer before that one nothing.
///
/// Errors: `Refused` by the tables of the layers, and `Memory`.
pub(crate) fn joint_output(
    alloc: Global,
    base: &Base<'_>,
    layers: &[HeldLayer],
    command: &Command,
    action: &JointAction,
) -> Result<Vec<Vec<Layer>>, CommandStop>
    requires there { has_target command.now.target layers.now ≡ true }
    requires on { AreHeldOn base.now.plane.now layers.now }
    ensures puts { IfOk result (λ outputs. PutsTogether (base_of base.now) command.now action.now layers.now (map (λ out. out.items) outputs.items)) }
    ensures on { IfOk result (λ outputs. AreAllOn base.now.plane.now (map (λ out. out.items) outputs.items)) }
    ensures accepted { IfOk result (λ outputs. refused_together action.now (targets command.now.target layers.now) ≡ None) }
    ensures stops { IfErr result (StopsFor (refused_together action.now (targets command.now.target layers.now))) }
{
    let layer = made_together(alloc, base, layers, &command.target, action)?;
    let layer = titled(alloc, layer, command.name.as_ref())?;
    Ok(at_first(alloc, layers, &command.target, layer)?)
}

fn made_together(
    alloc: Global,
    base: &Base<'_>,
    layers: &[HeldLayer],
    target: &Target,
    action: &JointAction,
) -> Result<Layer, CommandStop>
    requires there { has_target target.now layers.now ≡ true }
    requires on { AreHeldOn base.now.plane.now layers.now }
    ensures made { IfOk result (MadeTogether (base_of base.now) action.now (targets target.now layers.now)) }
    ensures on { IfOk result (IsLayerOn base.now.plane.now) }
    ensures accepted { IfOk result (λ outputs. refused_together action.now (targets target.now layers.now) ≡ None) }
    ensures stops { IfErr result (StopsFor (refused_together action.now (targets target.now layers.now))) }
{
    match action {
        JointAction::MergeLayers { force } => merged(alloc, layers, target, *force),
        JointAction::Union => Ok(united(alloc, base.plane, layers, target)?),
    }
}

// A layer in the place of the first target.
fn at_first(
    alloc: Global,
    layers: &[HeldLayer],
    target: &Target,
    layer: Layer,
) -> Result<Vec<Vec<Layer>>, AllocError>
    ensures placed { IfOk result (λ outputs. map (λ out. out.items) outputs.items ≡ at_first target.now layers.now layer) }
{
    let mut outputs = nothings(alloc, before_first(layers, target))?;
    outputs.push(one_output(alloc, layer)?)?;
    Ok(outputs)
}

// How many layers stand before the first target.
fn before_first(layers: &[HeldLayer], target: &Target) -> usize
    ensures exact { result ≡ position_or_len (is_selected target.now) layers.now }
{
    let mut count = 0;
    for held in layers {
        if is_selected(target, held) {
            return count;
        }
        count += 1;
    }
    count
}

fn nothings(alloc: Global, count: usize) -> Result<Vec<Vec<Layer>>, AllocError>
    ensures exact { IfOk result (λ outputs. map (λ out. out.items) outputs.items ≡ replicate count []) }
{
    let mut outputs = Vec::new(alloc);
    for _place in 0..count {
        outputs.push(Vec::new(alloc))?;
    }
    Ok(outputs)
}

/// What the command puts out for each layer, in order, under the name of `name=` where it stands: nothing for one that
/// is no target of it.
///
/// Errors: `Refused` at the first layer that is refused, and `Memory`.
pub(crate) fn each_outputs(
    alloc: Global,
    base: &Base<'_>,
    layers: &[HeldLayer],
    command: &Command,
    action: &LayerAction,
) -> Result<Vec<Vec<Layer>>, CommandStop>
    requires sourced { refused_for_origin (base_of base.now).sources layers.now action.now ≡ None }
    requires on { AreHeldOn base.now.plane.now layers.now }
    ensures puts { IfOk result (λ outputs. AllZip (PutsFor (base_of base.now) layers.now command.now action.now) layers.now (map (λ out. out.items) outputs.items)) }
    ensures on { IfOk result (λ outputs. AreAllOn base.now.plane.now (map (λ out. out.items) outputs.items)) }
    ensures accepted { IfOk result (λ outputs. RefusesIn (RefusesLayer (base_of base.now) layers.now action.now) (targets command.now.target layers.now) None) }
    ensures stops { IfErr result (StopsAs (RefusesIn (RefusesLayer (base_of base.now) layers.now action.now) (targets command.now.target layers.now))) }
{
    let cut_set = cut_set_for(alloc, base, layers, action)?;
    let mut outputs = Vec::new(alloc);
    for held in layers {
        outputs.push(held_outputs(alloc, base, layers, command, action, &cut_set, held)?)?;
    }
    Ok(outputs)
}

// The faces that a command cuts by; none where it doesn't cut.
#[tactic(auto, using(crate::proofs::Refusals::cut_set_there))]
fn cut_set_for(
    alloc: Global,
    base: &Base<'_>,
    layers: &[HeldLayer],
    action: &LayerAction,
) -> Result<FaceSet, CommandStop>
    requires sourced { refused_for_origin (base_of base.now).sources layers.now action.now ≡ None }
    ensures cut_set { IfOk result (CutsBy (base_of base.now) layers.now action.now) }
    ensures memory { IfErr result (λ stop. stop ≡ CommandStop.Memory) }
{
    match action {
        LayerAction::Clip { from } => cut_set_of(alloc, base, layers, from),
        LayerAction::Erase { from } => cut_set_of(alloc, base, layers, from),
        _ => Ok(FaceSet::new(alloc)),
    }
}

fn held_outputs(
    alloc: Global,
    base: &Base<'_>,
    layers: &[HeldLayer],
    command: &Command,
    action: &LayerAction,
    cut_set: &FaceSet,
    held: &HeldLayer,
) -> Result<Vec<Layer>, CommandStop>
    requires cut_set { CutsBy (base_of base.now) layers.now action.now cut_set.now }
    requires on { IsLayerOn base.now.plane.now held.now.layer }
    ensures puts { IfOk result (λ outputs. PutsFor (base_of base.now) layers.now command.now action.now held.now outputs.items) }
    ensures on { IfOk result (λ outputs. AreLayersOn base.now.plane.now outputs.items) }
    ensures accepted { IfOk result (λ outputs. RefusesHeld (base_of base.now) layers.now command.now action.now held.now None) }
    ensures stops { IfErr result (StopsAs (RefusesHeld (base_of base.now) layers.now command.now action.now held.now)) }
{
    if !is_selected(&command.target, held) {
        return Ok(Vec::new(alloc));
    }
    let made = layer_outputs(alloc, base, layers, action, cut_set, &held.layer)?;
    Ok(all_titled(alloc, made, command.name.as_ref())?)
}

// Layers under the name of `name=`, where it stands.
fn all_titled(
    alloc: Global,
    layers: Vec<Layer>,
    name: Option<&Text>,
) -> Result<Vec<Layer>, AllocError>
    ensures titled { IfOk result (λ all. AllZip (IsTitled (option_copied name.entry)) layers.items all.items) }
{
    let mut all = Vec::new(alloc);
    for layer in layers {
        all.push(titled(alloc, layer, name)?)?;
    }
    Ok(all)
}

fn titled(alloc: Global, mut layer: Layer, name: Option<&Text>) -> Result<Layer, AllocError>
    ensures titled { IfOk result (IsTitled (option_copied name.entry) layer) }
{
    if let Some(name) = name {
        layer.name = copy_text(alloc, name)?;
    }
    Ok(layer)
}

// What the command puts out for one layer of its target.
fn layer_outputs(
    alloc: Global,
    base: &Base<'_>,
    layers: &[HeldLayer],
    action: &LayerAction,
    cut_set: &FaceSet,
    layer: &Layer,
) -> Result<Vec<Layer>, CommandStop>
    requires cut_set { CutsBy (base_of base.now) layers.now action.now cut_set.now }
    requires on { IsLayerOn base.now.plane.now layer.now }
    ensures puts { IfOk result (λ outputs. PutsOut (base_of base.now) layers.now action.now layer.now outputs.items) }
    ensures on { IfOk result (λ outputs. AreLayersOn base.now.plane.now outputs.items) }
    ensures accepted { IfOk result (λ outputs. RefusesLayer (base_of base.now) layers.now action.now layer.now None) }
    ensures stops { IfErr result (StopsAs (RefusesLayer (base_of base.now) layers.now action.now layer.now)) }
{
    match action {
        LayerAction::Split { field } => split(alloc, layer, field.as_ref()),
        _ => {
            let made = layer_made(alloc, base, layers, action, cut_set, layer)?;
            Ok(one_output(alloc, made)?)
        }
    }
}

// The one layer that a command other than a split puts out.
fn layer_made(
    alloc: Global,
    base: &Base<'_>,
    layers: &[HeldLayer],
    action: &LayerAction,
    cut_set: &FaceSet,
    layer: &Layer,
) -> Result<Layer, CommandStop>
    requires one { MakesOne action.now }
    requires cut_set { CutsBy (base_of base.now) layers.now action.now cut_set.now }
    requires on { IsLayerOn base.now.plane.now layer.now }
    ensures puts { IfOk result (λ made. PutsOut (base_of base.now) layers.now action.now layer.now (made ∷ [])) }
    ensures on { IfOk result (IsLayerOn base.now.plane.now) }
    ensures accepted { IfOk result (λ made. RefusesLayer (base_of base.now) layers.now action.now layer.now None) }
    ensures stops { IfErr result (StopsAs (RefusesLayer (base_of base.now) layers.now action.now layer.now)) }
{
    let plane = base.plane;
    match action {
        LayerAction::Clip { .. } => Ok(cut(alloc, plane, layer, cut_set, CutKeeps::Inside)?),
        LayerAction::Erase { .. } => Ok(cut(alloc, plane, layer, cut_set, CutKeeps::Outside)?),
        LayerAction::Dissolve { spec, group_points } => {
            dissolved(alloc, layer, spec, *group_points)
        }
        LayerAction::Clean {
            rule,
            allow_empty,
            gap,
        } => Ok(cleaned(alloc, plane, layer, *rule, *allow_empty, *gap)?),
        LayerAction::Mosaic => Ok(mosaic(alloc, plane, layer)?),
        LayerAction::Explode => Ok(exploded(alloc, plane, layer)?),
        LayerAction::InnerLines => Ok(inner_lines(alloc, plane, layer)?),
        LayerAction::Lines { fields } => outlines(alloc, plane, layer, fields),
        LayerAction::Join { from, spec } => joined_by(alloc, base, layers, from, spec, layer),
        LayerAction::SpatialJoin { from, spec } => {
            joined_by_place(alloc, base, layers, from, spec, layer)
        }
        LayerAction::Filter {
            test,
            invert,
            remove_empty,
        } => filtered(alloc, layer, test.as_ref(), *invert, *remove_empty),
        LayerAction::FilterFields { fields } => with_fields(alloc, layer, fields),
        LayerAction::RenameFields { pairs } => renamed(alloc, layer, pairs),
        LayerAction::Split { .. } => unreachable!(),
        LayerAction::Each { assigns } => calculated(alloc, layer, assigns),
        LayerAction::Sort { key, descending } => sorted(alloc, layer, key, *descending),
        LayerAction::Uniq { key, most, invert } => unrepeated(alloc, layer, key, *most, *invert),
        LayerAction::FilterIslands {
            least_area: area,
            least_links: links,
            remove_empty,
        } => Ok(without_islands(alloc, plane, layer, *area, *links, *remove_empty)?),
    }
}

fn joined_by(
    alloc: Global,
    base: &Base<'_>,
    layers: &[HeldLayer],
    from: &Origin,
    spec: &JoinSpec,
    layer: &Layer,
) -> Result<Layer, CommandStop>
    ensures joins { IfOk result (λ made. Joins (base_of base.now) layers.now from.now spec.now layer.now (made ∷ [])) }
    ensures accepted { IfOk result (λ made. refused_join (one_layer (origin_layers (base_of base.now).sources layers.now from.now)) spec.now layer.now ≡ None) }
    ensures stops { IfErr result (StopsFor (refused_join (one_layer (origin_layers (base_of base.now).sources layers.now from.now)) spec.now layer.now)) }
{
    let source = origin_layer(layers, base.sources, from)?;
    joined(alloc, layer, source, spec)
}

#[tactic(auto, using(crate::proofs::ByPlace::no_source))]
fn joined_by_place(
    alloc: Global,
    base: &Base<'_>,
    layers: &[HeldLayer],
    from: &Origin,
    spec: &CalcSpec,
    layer: &Layer,
) -> Result<Layer, CommandStop>
    ensures joins { IfOk result (λ made. JoinsByPlace (base_of base.now) layers.now from.now spec.now layer.now (made ∷ [])) }
    ensures accepted { IfOk result (λ made. RefusesByPlace (base_of base.now).plane (one_layer (origin_layers (base_of base.now).sources layers.now from.now)) spec.now layer.now None) }
    ensures stops { IfErr result (StopsAs (RefusesByPlace (base_of base.now).plane (one_layer (origin_layers (base_of base.now).sources layers.now from.now)) spec.now layer.now)) }
{
    let source = origin_layer(layers, base.sources, from)?;
    joined_with(alloc, base.plane, source, spec, layer)
}

// The layer joined by place with its origin.
fn joined_with(
    alloc: Global,
    plane: &Plane,
    source: &Layer,
    spec: &CalcSpec,
    layer: &Layer,
) -> Result<Layer, CommandStop>
    ensures joins { IfOk result (λ made. (matches : List (List ℕ)) × AreMatches plane.now source.now layer.now matches × GivesTable (join_matched layer.now.table source.now.table matches spec.now) layer.now made) }
    ensures accepted { IfOk result (λ made. RefusesByPlace plane.now (Ok source.now) spec.now layer.now None) }
    ensures stops { IfErr result (StopsAs (RefusesByPlace plane.now (Ok source.now) spec.now layer.now)) }
{
    let matches = matches_of(alloc, plane, source, layer)?;
    joined_by_matches(alloc, layer, source, &matches, spec)
}

fn one_output(alloc: Global, layer: Layer) -> Result<Vec<Layer>, AllocError>
    ensures one { IfOk result (λ outputs. outputs.items ≡ layer ∷ []) }
{
    let mut outputs = Vec::new(alloc);
    outputs.push(layer)?;
    Ok(outputs)
}
