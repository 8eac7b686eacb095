ghost use Rattle.std.specs.Prelude.{◌≡◌, ◌++◌, ◌<◌, IfOk, OnOk, length};
ghost use Rattle.std.specs.Cmp.{IsStrictWeakOrder};
ghost use Rattle.face_walk.specs.Places.{IsBuiltOf};
ghost use Rattle.face_sets.specs.Sets.{IsSetOf};
ghost use Rattle.face_groups.specs.Pieces.{AreKeyPieces, ArePushed, pieces_of};

use crate::grouping::sets_by_key;
use crate::keys::FaceKeys;
use arc_table::ArcTable;
use face_sets::{FaceSet, parts};
use face_walk::Faces;
use grid_base::FaceId;
use std::alloc::{AllocError, Global};

/// A part of the faces that have one key.
#[derive(Drop)]
pub struct Piece {
    /// The first of the faces that have the key.
    pub face: FaceId,
    pub set: FaceSet,
}

/// For each key that some inner face has, in the order of the keys, the parts of the faces that have it, in order.
///
/// Cost: n log n for n faces, each with the length of its key.
pub fn pieces_by_key<K: FaceKeys>(
    alloc: Global,
    t: &ArcTable,
    f: &Faces,
    keys: &K,
) -> Result<Vec<Piece>, AllocError>
    requires built { IsBuiltOf t.now f.now }
    requires ordered { IsStrictWeakOrder (K.comes_before keys.now) }
    ensures exact { IfOk result (λ v. AreKeyPieces f.now (K.is_keyed keys.now) (K.comes_before keys.now) v.items) }
{
    let sets = sets_by_key(alloc, f, keys)?;
    let mut pieces = Vec::new(alloc);
    for set in sets.as_slice() {
        push_pieces(alloc, t, f, set, &mut pieces)?;
    }
    Ok(pieces)
}

// The parts of a set, with its first face.
fn push_pieces(
    alloc: Global,
    t: &ArcTable,
    f: &Faces,
    set: &FaceSet,
    pieces: &mut Vec<Piece>,
) -> Result<(), AllocError>
    requires built { IsBuiltOf t.now f.now }
    requires inner { IsSetOf f.now set.now }
    requires some { 0 < length set.now }
    ensures exact { OnOk result (ArePushed f.now set.now pieces.old.items pieces.new.items) }
{
    let face = set.faces()[0];
    let parts = parts(alloc, t, f, set)?;
    push_parts(pieces, face, parts.into_vec())?;
    Ok(())
}

fn push_parts(pieces: &mut Vec<Piece>, face: FaceId, parts: Vec<FaceSet>) -> Result<(), AllocError>
    ensures exact { OnOk result (pieces.new.items ≡ pieces.old.items ++ pieces_of face parts.items) }
{
    for set in parts {
        pieces.push(Piece { face, set })?;
    }
    Ok(())
}
