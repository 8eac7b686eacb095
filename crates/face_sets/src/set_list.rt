ghost use Rattle.std.specs.Prelude.{◌≡◌, IfOk, nat_lt};
ghost use Rattle.lists.specs.Lists.{ascending, joined_up};

use crate::face_set::FaceSet;
use grid_base::FaceId;
use lists::ItemList;
use std::alloc::{AllocError, Global};

/// A list of sets of faces, of at most 4,294,967,295; counted from 0.
pub type SetList = ItemList<FaceSet>;

/// The faces that any of the sets has.
///
/// Cost: n log n for the n faces of the sets.
pub fn union_of(alloc: Global, sets: &SetList) -> Result<FaceSet, AllocError>
    ensures exact { IfOk result (λ set. set ≡ ascending nat_lt (joined_up sets.now)) }
{
    let faces = faces_of_all(alloc, sets.as_slice())?;
    Ok(FaceSet::from_faces(faces))
}

// The faces of the sets, set by set.
#[tactic(auto, using(crate::proofs::GapLemmas::faces_more))]
fn faces_of_all(alloc: Global, sets: &[FaceSet]) -> Result<Vec<FaceId>, AllocError>
    ensures exact { IfOk result (λ v. v.items ≡ joined_up sets.now) }
{
    let mut faces = Vec::new(alloc);
    for set in sets {
        faces.extend_from_slice(set.faces())?;
    }
    Ok(faces)
}
