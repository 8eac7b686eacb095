ghost use Rattle.std.specs.Prelude.{◌≡◌, ◌≤◌, All, IfErr, IfOk, None, false, length, true};
ghost use Rattle.std.specs.List.{AllZip};
ghost use Rattle.grid_base.specs.Grid.{most_places};
ghost use Rattle.topo_io.specs.Arcs.{LayerIsBelow};
ghost use Rattle.run_state.specs.OnPlane.{AreHeldOn};
ghost use Rattle.run_state.specs.Origins.{base_of};
ghost use Rattle.run_state.specs.Stops.{StopsFor};
ghost use Rattle.run_state.specs.Targets.{has_target, targets};
ghost use Rattle.run_texts.specs.Tracing.{IsTracedLayer};
ghost use Rattle.run_texts.specs.Written.{IsCsvText, IsGeoText, IsTopoText, OutputSays, has_name_twice, names_of_layers, refused_form, refused_names, refused_one, refused_output};

use crate::arc_pictures::arc_layer_of;
use crate::pictures::picture_text;
use csv_io::write_csv;
use io_core::Bytes;
use job_terms::{OutForm, Target};
use run_plane::Plane;
use run_state::{Base, CommandStop, HeldLayer, RefuseWhy, check_target, is_selected, only_target};
use std::alloc::{AllocError, Global};
use table_terms::NameSet;
use topo_io::{ArcLayers, write_topojson};

/// The text of an output: a topology of the layers of the target, in order, or its one layer in another form.
///
/// Errors: `Refused` with `NoLayer` where the target isn't there, with `NameTwice` where two layers of a topology have
/// one name, or with `ManyLayers` for several layers in another form; and `Memory`.
pub fn output_text(
    alloc: Global,
    base: &Base<'_>,
    layers: &[HeldLayer],
    target: &Target,
    form: OutForm,
) -> Result<Bytes, CommandStop>
    requires places { base.now.places ≤ most_places }
    requires on { AreHeldOn base.now.plane.now layers.now }
    ensures says { IfOk result (OutputSays (base_of base.now) form (targets target.now layers.now)) }
    ensures there { IfOk result (λ text. has_target target.now layers.now ≡ true) }
    ensures absent { has_target target.now layers.now ≡ false → result ≡ Err (CommandStop.Refused RefuseWhy.NoLayer) }
    ensures accepted { IfOk result (λ text. refused_output target.now form layers.now ≡ None) }
    ensures stops { IfErr result (StopsFor (refused_output target.now form layers.now)) }
{
    check_target(layers, target)?;
    text_of(alloc, base, layers, target, form)
}

fn text_of(
    alloc: Global,
    base: &Base<'_>,
    layers: &[HeldLayer],
    target: &Target,
    form: OutForm,
) -> Result<Bytes, CommandStop>
    requires places { base.now.places ≤ most_places }
    requires on { AreHeldOn base.now.plane.now layers.now }
    ensures says { IfOk result (OutputSays (base_of base.now) form (targets target.now layers.now)) }
    ensures accepted { IfOk result (λ text. refused_form form (targets target.now layers.now) ≡ None) }
    ensures stops { IfErr result (StopsFor (refused_form form (targets target.now layers.now))) }
{
    match form {
        OutForm::Topo => topology_text(alloc, base, layers, target),
        OutForm::Geo => geo_text(alloc, base, layers, target),
        OutForm::Csv => table_text(alloc, layers, target),
    }
}

fn geo_text(
    alloc: Global,
    base: &Base<'_>,
    layers: &[HeldLayer],
    target: &Target,
) -> Result<Bytes, CommandStop>
    requires places { base.now.places ≤ most_places }
    requires on { AreHeldOn base.now.plane.now layers.now }
    ensures says { IfOk result (IsGeoText (base_of base.now) (targets target.now layers.now)) }
    ensures accepted { IfOk result (λ text. refused_one (targets target.now layers.now) ≡ None) }
    ensures stops { IfErr result (StopsFor (refused_one (targets target.now layers.now))) }
{
    let layer = only_target(layers, target)?;
    Ok(picture_text(alloc, base.plane, layer, base.places)?)
}

fn table_text(alloc: Global, layers: &[HeldLayer], target: &Target) -> Result<Bytes, CommandStop>
    ensures says { IfOk result (IsCsvText (targets target.now layers.now)) }
    ensures accepted { IfOk result (λ text. refused_one (targets target.now layers.now) ≡ None) }
    ensures stops { IfErr result (StopsFor (refused_one (targets target.now layers.now))) }
{
    let layer = only_target(layers, target)?;
    Ok(write_csv(alloc, &layer.table)?)
}

fn topology_text(
    alloc: Global,
    base: &Base<'_>,
    layers: &[HeldLayer],
    target: &Target,
) -> Result<Bytes, CommandStop>
    requires places { base.now.places ≤ most_places }
    requires on { AreHeldOn base.now.plane.now layers.now }
    ensures says { IfOk result (IsTopoText (base_of base.now) (targets target.now layers.now)) }
    ensures accepted { IfOk result (λ text. refused_names (targets target.now layers.now) ≡ None) }
    ensures stops { IfErr result (StopsFor (refused_names (targets target.now layers.now))) }
{
    if has_repeat(alloc, layers, target)? {
        return Err(CommandStop::Refused(RefuseWhy::NameTwice));
    }
    let drawn = arc_layers(alloc, base.plane, layers, target)?;
    let text = write_topojson(alloc, &drawn, &base.plane.arcs, base.places)?;
    Ok(text)
}

// Whether two layers of the target have one name.
fn has_repeat(alloc: Global, layers: &[HeldLayer], target: &Target) -> Result<bool, AllocError>
    ensures exact { IfOk result (λ twice. twice ≡ has_name_twice (names_of_layers (targets target.now layers.now))) }
{
    let mut seen = NameSet::new(alloc);
    for held in layers {
        if is_selected(target, held) && !seen.add(alloc, held.layer.name.as_str())? {
            return Ok(true);
        }
    }
    Ok(false)
}

// The layers of the target as arcs.
fn arc_layers(
    alloc: Global,
    plane: &Plane,
    all: &[HeldLayer],
    target: &Target,
) -> Result<ArcLayers, AllocError>
    requires on { AreHeldOn plane.now all.now }
    ensures below { IfOk result (All (LayerIsBelow (length plane.now.arcs))) }
    ensures each { IfOk result (AllZip (IsTracedLayer plane.now) (targets target.now all.now)) }
{
    let mut layers = ArcLayers::new(alloc);
    for held in all {
        if is_selected(target, held) {
            layers.push(arc_layer_of(alloc, plane, &held.layer)?)?;
        }
    }
    Ok(layers)
}
