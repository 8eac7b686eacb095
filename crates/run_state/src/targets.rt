ghost use Rattle.std.specs.Prelude.{◌≡◌, IfErr, IfOk, Some, option_copied, slice_get, true};
ghost use Rattle.std.specs.List.{list_all, list_any};
ghost use Rattle.table_terms.specs.Names.{has_name};
ghost use Rattle.run_state.specs.Origins.{one_layer};
ghost use Rattle.run_state.specs.Targets.{TargetAnswers, are_layers, has_target, is_layer, is_selected, is_wanted, targets, wanted_layers};

use crate::refusal::RefuseWhy;
use crate::state::HeldLayer;
use io_core::Text;
use job_terms::Target;
use run_plane::Layer;

/// Tests that each name of a target is that of a layer, and that the target selects some layer.
///
/// Errors: `NoLayer` where that isn't so.
pub fn check_target(layers: &[HeldLayer], target: &Target) -> Result<(), RefuseWhy>
    ensures answers { TargetAnswers target.now layers.now result }
{
    if !are_layers(layers, target) {
        return Err(RefuseWhy::NoLayer);
    }
    if !selects_some(layers, target) {
        return Err(RefuseWhy::NoLayer);
    }
    Ok(())
}

fn are_layers(layers: &[HeldLayer], target: &Target) -> bool
    ensures exact { result ≡ are_layers target.now layers.now }
{
    match target {
        Target::Default => true,
        Target::All => true,
        Target::Names(names) => are_names(layers, names.as_slice()),
    }
}

fn are_names(layers: &[HeldLayer], names: &[Text]) -> bool
    ensures exact { result ≡ list_all (is_layer layers.now) names.now }
{
    names.iter().all(|name| is_layer(layers, name.as_str()))
}

/// Whether some layer has the name.
pub fn is_layer(layers: &[HeldLayer], name: &str) -> bool
    ensures exact { result ≡ is_layer layers.now name.now }
{
    layers.iter().any(|held| name == held.layer.name.as_str())
}

/// Whether the target has some layer.
pub fn selects_some(layers: &[HeldLayer], target: &Target) -> bool
    ensures exact { result ≡ list_any (is_selected target.now) layers.now }
{
    layers.iter().any(|held| is_selected(target, held))
}

/// Whether the command of this target works on the layer.
pub fn is_selected(target: &Target, held: &HeldLayer) -> bool
    ensures exact { result ≡ is_selected target.now held.now }
{
    match target {
        Target::Default => held.is_default,
        Target::All => true,
        Target::Names(names) => is_among(names.as_slice(), held.layer.name.as_str()),
    }
}

fn is_among(names: &[Text], name: &str) -> bool
    ensures exact { result ≡ has_name names.now name.now }
{
    names.iter().any(|listed| name == listed.as_str())
}

/// The first layer of a target that is there.
#[tactic(auto, using(crate::proofs::TargetLemmas::has_first))]
pub fn first_target<'a>(layers: &'a [HeldLayer], target: &Target) -> &'a Layer
    requires there { has_target target.now layers.now ≡ true }
    ensures first { Some result.now ≡ slice_get (targets target.now layers.now) 0 }
{
    match first_selected(layers, target) {
        Some(layer) => layer,
        None => unreachable!(),
    }
}

fn first_selected<'a>(layers: &'a [HeldLayer], target: &Target) -> Option<&'a Layer>
    ensures first { option_copied result ≡ slice_get (targets target.now layers.now) 0 }
{
    for held in layers {
        if is_selected(target, held) {
            return Some(&held.layer);
        }
    }
    None
}

/// The one layer of a target.
///
/// Errors: `NoLayer` where it has none, and `ManyLayers` where it has several.
pub fn only_target<'a>(layers: &'a [HeldLayer], target: &Target) -> Result<&'a Layer, RefuseWhy>
    ensures ok { IfOk result (λ layer. one_layer (targets target.now layers.now) ≡ Ok layer.now) }
    ensures err { IfErr result (λ why. one_layer (targets target.now layers.now) ≡ Err why) }
{
    only_where(layers, &Wanted::Target(target))
}

/// What a layer is looked for by.
#[derive(Clone, Copy)]
pub enum Wanted<'a> {
    /// Its name.
    Name(&'a str),
    /// A target that selects it.
    Target(&'a Target),
}

/// The one layer that is wanted.
///
/// Errors: `NoLayer` where there is none, and `ManyLayers` where there are several.
pub fn only_where<'a>(layers: &'a [HeldLayer], wanted: &Wanted) -> Result<&'a Layer, RefuseWhy>
    ensures ok { IfOk result (λ layer. one_layer (wanted_layers wanted.now layers.now) ≡ Ok layer.now) }
    ensures err { IfErr result (λ why. one_layer (wanted_layers wanted.now layers.now) ≡ Err why) }
{
    let mut found = None;
    for held in layers {
        if is_wanted(wanted, held) {
            if found.is_some() {
                return Err(RefuseWhy::ManyLayers);
            }
            found = Some(&held.layer);
        }
    }
    found.ok_or(RefuseWhy::NoLayer)
}

fn is_wanted(wanted: &Wanted, held: &HeldLayer) -> bool
    ensures exact { result ≡ is_wanted wanted.now held.now }
{
    match wanted {
        Wanted::Name(name) => *name == held.layer.name.as_str(),
        Wanted::Target(target) => is_selected(target, held),
    }
}
