ghost use Rattle.std.specs.Prelude.{◌≡◌, All, IfOk, map};
ghost use Rattle.face_walk.specs.Places.{IsBuiltOf};
ghost use Rattle.face_sets.specs.Sets.{IsSetOf};
ghost use Rattle.region_ops.specs.Items.{IsPiece};
ghost use Rattle.region_ops.specs.Mosaic.{IsMosaic, IsShared, item_of};

use crate::item_lists::{MosaicItem, MosaicList};
use arc_table::ArcTable;
use face_groups::{Piece, pieces_by_key};
use face_sets::{FaceOwners, SetList};
use face_walk::Faces;
use grid_base::IdList;
use std::alloc::{AllocError, Global};

/// For each list of sets that are all the sets that have some face, in lexicographic order of lists, the parts of
/// those faces in order.
///
/// Cost: n log n for n faces, each with the length of its list.
pub fn mosaic_sets(
    alloc: Global,
    t: &ArcTable,
    f: &Faces,
    old: &SetList,
) -> Result<MosaicList, AllocError>
    requires built { IsBuiltOf t.now f.now }
    requires faces { All (IsSetOf f.now) old.now }
    ensures exact { IfOk result (IsMosaic f.now old.now) }
    ensures shared { IfOk result (All (IsShared old.now)) }
    ensures inner { IfOk result (All (IsPiece f.now)) }
{
    let owners = FaceOwners::of(alloc, f, old)?;
    let pieces = pieces_by_key(alloc, t, f, &owners)?;
    let items = items_of(alloc, &owners, pieces)?;
    Ok(items)
}

// A piece for each part, with the list of its faces.
fn items_of(
    alloc: Global,
    owners: &FaceOwners,
    pieces: Vec<Piece>,
) -> Result<MosaicList, AllocError>
    ensures exact { IfOk result (λ items. items ≡ map (item_of owners.now) pieces.items) }
{
    let mut items = MosaicList::new(alloc);
    for piece in pieces {
        let ids = IdList::of(alloc, owners.at(piece.face))?;
        items.push(MosaicItem {
            ids,
            set: piece.set,
        })?;
    }
    Ok(items)
}
