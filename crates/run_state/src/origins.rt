ghost use Rattle.std.specs.Prelude.{◌≡◌, ◌-◌, [], IfErr, IfOk, map, slice_index_or};
ghost use Rattle.run_state.specs.Origins.{named_layers, one_layer, origin_layers};

use crate::refusal::RefuseWhy;
use crate::state::HeldLayer;
use crate::targets::{Wanted, only_where};
use job_terms::Origin;
use run_plane::Layer;

/// The one layer of an origin: of the layers of the state that of its name, or that of its source, counted from 1.
///
/// Errors: `NoLayer` where there is none, as of a box, and `ManyLayers` where there are several.
pub fn origin_layer<'a>(
    layers: &'a [HeldLayer],
    sources: &'a [Vec<Layer>],
    origin: &Origin,
) -> Result<&'a Layer, RefuseWhy>
    ensures ok { IfOk result (λ layer. one_layer (origin_layers (map (λ own. own.items) sources.now) layers.now origin.now) ≡ Ok layer.now) }
    ensures err { IfErr result (λ why. one_layer (origin_layers (map (λ own. own.items) sources.now) layers.now origin.now) ≡ Err why) }
{
    match origin {
        Origin::Layer(name) => named_layer(layers, name.as_str()),
        Origin::Source(number) => match layers_of(sources, *number) {
            [layer] => Ok(layer),
            [] => Err(RefuseWhy::NoLayer),
            _ => Err(RefuseWhy::ManyLayers),
        },
        Origin::Area(_) => Err(RefuseWhy::NoLayer),
    }
}

// The layers of the source with this number, from 1.
fn layers_of(sources: &[Vec<Layer>], number: u32) -> &[Layer]
    ensures exact { result.now ≡ slice_index_or (map (λ own. own.items) sources.now) (number - 1) [] }
{
    match sources.get((number as usize).saturating_sub(1)) {
        Some(layers) => layers,
        None => &[],
    }
}

fn named_layer<'a>(layers: &'a [HeldLayer], name: &str) -> Result<&'a Layer, RefuseWhy>
    ensures ok { IfOk result (λ layer. one_layer (named_layers name.now layers.now) ≡ Ok layer.now) }
    ensures err { IfErr result (λ why. one_layer (named_layers name.now layers.now) ≡ Err why) }
{
    only_where(layers, &Wanted::Name(name))
}
