ghost use Rattle.std.specs.Prelude.{IfOk};
ghost use Rattle.run_plane.specs.OnPlane.{IsLayerOn};
ghost use Rattle.run_shapes.specs.Islands.{IsMainland};

use calc_ops::drop_islands;
use run_plane::{Layer, Plane};
use run_state::{sets_of, with_sets};
use std::alloc::{AllocError, Global};

/// The layer without its islands: a part of a feature goes where no other feature has a side of a link of its
/// boundary, and twice its area, in squares of the grid, is below `least_area` or its boundary has fewer than
/// `least_links` links. A feature of which nothing is left stays without geometry; with `remove_empty` all features
/// without geometry are left out.
///
/// Errors: `AllocError` for want of memory.
pub fn without_islands(
    alloc: Global,
    plane: &Plane,
    layer: &Layer,
    least_area: u128,
    least_links: u32,
    remove_empty: bool,
) -> Result<Layer, AllocError>
    requires on { IsLayerOn plane.now layer.now }
    ensures made { IfOk result (IsMainland least_area least_links remove_empty plane.now layer.now) }
    ensures on { IfOk result (IsLayerOn plane.now) }
{
    let old = sets_of(alloc, &layer.shapes)?;
    let sets = drop_islands(
        alloc,
        &plane.arcs,
        &plane.faces,
        &old,
        least_area,
        least_links,
    )?;
    with_sets(alloc, layer, sets, !remove_empty)
}
