ghost use Rattle.std.specs.Prelude.{◌≡◌, IfOk, length, map, true};
ghost use Rattle.run_plane.specs.OnPlane.{IsLayerOn};
ghost use Rattle.run_borders.specs.Uniting.{AreGathered, IsUnited, item_shape};
ghost use Rattle.run_state.specs.OnPlane.{AreHeldOn};
ghost use Rattle.run_state.specs.Targets.{has_target, targets};

use grid_base::Kind;
use job_terms::Target;
use run_plane::{Layer, Plane, Shape, copy_text};
use run_state::{HeldLayer, first_target, is_selected, sets_of};
use std::alloc::{AllocError, Global};
use table_rows::{TableList, copy_table};
use union_ops::{LayerSets, UnionItem, union_sets, union_tables};

/// The union of the target's layers, under the name of the first: a feature for each part of the faces that the same
/// features have, one or none of each layer. Of features of one layer that share faces the earlier one has them. The
/// columns are those of all layers side by side; a row is null where no feature of a layer has the faces.
///
/// Errors: `AllocError` for want of memory.
/// Cost: n log n for n faces, each with the number of layers, and one step for each face of each feature.
#[tactic(auto, using(crate::proofs::UnitedLayers::of_tables))]
pub fn united(
    alloc: Global,
    plane: &Plane,
    layers: &[HeldLayer],
    target: &Target,
) -> Result<Layer, AllocError>
    requires there { has_target target.now layers.now ≡ true }
    requires on { AreHeldOn plane.now layers.now }
    ensures made { IfOk result (IsUnited plane.now (targets target.now layers.now)) }
    ensures on { IfOk result (IsLayerOn plane.now) }
{
    let first = first_target(layers, target);
    let Gathered { tables, sets } = gather(alloc, layers, target)?;
    let items = union_sets(alloc, &plane.arcs, &plane.faces, &sets)?;
    let table = union_tables(alloc, &tables, &items)?;
    let shapes = item_shapes(alloc, items.into_vec())?;
    Ok(Layer {
        name: copy_text(alloc, &first.name)?,
        kind: Kind::Polygon,
        table,
        shapes,
    })
}

// The tables of layers, and the sets of faces of their features.
#[derive(Drop)]
struct Gathered {
    tables: TableList,
    sets: LayerSets,
}

fn gather(alloc: Global, layers: &[HeldLayer], target: &Target) -> Result<Gathered, AllocError>
    ensures gathered { IfOk result (λ all. AreGathered (targets target.now layers.now) all.tables all.sets) }
{
    let mut tables = TableList::new(alloc);
    let mut sets = LayerSets::new(alloc);
    for held in layers {
        if is_selected(target, held) {
            tables.push(copy_table(alloc, &held.layer.table)?)?;
            sets.push(sets_of(alloc, &held.layer.shapes)?)?;
        }
    }
    Ok(Gathered { tables, sets })
}

fn item_shapes(alloc: Global, items: Vec<UnionItem>) -> Result<Vec<Shape>, AllocError>
    ensures exact { IfOk result (λ shapes. shapes.items ≡ map item_shape items.items) }
    ensures count { IfOk result (λ shapes. length shapes.items ≡ length items.items) }
{
    let mut shapes = Vec::new(alloc);
    for item in items {
        shapes.push(Shape::Faces(item.set))?;
    }
    Ok(shapes)
}
