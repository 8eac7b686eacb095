ghost use Rattle.std.specs.Prelude.{◌≡◌, All, IfOk, map};
ghost use Rattle.face_walk.specs.Places.{IsBuiltOf};
ghost use Rattle.face_sets.specs.Sets.{IsSetOf};
ghost use Rattle.union_ops.specs.Union.{CoverOnce, IsItemOf, IsUnion, item_of};

use crate::face_choices::FaceChoices;
use crate::union_lists::{ChoiceList, LayerSets, UnionItem, UnionList};
use arc_table::ArcTable;
use face_groups::{Piece, pieces_by_key};
use face_walk::Faces;
use std::alloc::{AllocError, Global};

/// For each choice that some face has, with a set of at least one layer, the parts of the faces that have it, in
/// order. Choices stand in lexicographic order; none comes after every number.
///
/// The choice of a face has for each layer the first set that has the face, or none. So of sets of one layer that
/// share faces the earlier one has them.
/// Cost: n log n for n faces, each with the length of its choice, and one step for each face of each set.
pub fn union_sets(
    alloc: Global,
    t: &ArcTable,
    f: &Faces,
    layers: &LayerSets,
) -> Result<UnionList, AllocError>
    requires built { IsBuiltOf t.now f.now }
    requires faces { All (All (IsSetOf f.now)) layers.now }
    ensures exact { IfOk result (IsUnion f.now layers.now) }
    ensures each_once { IfOk result (CoverOnce layers.now) }
    ensures items { IfOk result (All (IsItemOf f.now layers.now)) }
{
    let choices = FaceChoices::of(alloc, f, layers)?;
    let pieces = pieces_by_key(alloc, t, f, &choices)?;
    let items = items_of(alloc, &choices, pieces)?;
    Ok(items)
}

// An item for each part, with the choice of its faces.
fn items_of(
    alloc: Global,
    choices: &FaceChoices,
    pieces: Vec<Piece>,
) -> Result<UnionList, AllocError>
    ensures exact { IfOk result (λ items. items ≡ map (item_of choices.now) pieces.items) }
{
    let mut items = UnionList::new(alloc);
    for piece in pieces {
        let choice = choice_list(alloc, choices.at(piece.face))?;
        items.push(UnionItem {
            choice,
            set: piece.set,
        })?;
    }
    Ok(items)
}

fn choice_list(alloc: Global, choice: &[Option<u32>]) -> Result<ChoiceList, AllocError>
    ensures same { IfOk result (λ l. l ≡ choice.now) }
{
    let mut list = ChoiceList::new(alloc);
    for number in choice {
        list.push(*number)?;
    }
    Ok(list)
}
