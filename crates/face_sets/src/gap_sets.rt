ghost use Rattle.std.specs.Prelude.{◌≡◌, All, IfOk, filter, nat_eq, not};
ghost use Rattle.std.specs.List.Sorted.{IsStrictlyIncreasing};
ghost use Rattle.lists.specs.Lists.{has};
ghost use Rattle.face_walk.specs.Places.{IsBuiltOf};
ghost use Rattle.face_sets.specs.Gaps.{AreGaps, outside_of};
ghost use Rattle.face_sets.specs.Sets.{IsSetOf};

use crate::face_set::FaceSet;
use crate::part_sets::parts_of;
use crate::set_list::SetList;
use arc_table::ArcTable;
use face_walk::Faces;
use grid_base::FaceId;
use std::alloc::{AllocError, Global};

/// The gaps of a set of faces, in the order of the least arcs in their boundaries.
///
/// Faces outside the set are of one gap where arcs with both sides outside it join them; those that are joined so to
/// the outer face are in no gap.
/// Cost: n log n for the n arcs and faces of the table.
pub fn gaps(alloc: Global, t: &ArcTable, f: &Faces, set: &FaceSet) -> Result<SetList, AllocError>
    requires built { IsBuiltOf t.now f.now }
    ensures exact { IfOk result (AreGaps f.now set.now) }
    ensures inner { IfOk result (All (IsSetOf f.now)) }
{
    let outside = faces_outside(alloc, f, set)?;
    let sets = parts_of(alloc, t, f, &outside)?;
    sets_without(sets, f.outer())
}

// The sets that haven't a face.
fn sets_without(sets: SetList, face: FaceId) -> Result<SetList, AllocError>
    ensures exact { IfOk result (λ left. left ≡ filter (λ set. not (has nat_eq set face)) sets) }
{
    let mut left = sets.into_vec();
    left.retain(|set| !set.has(face));
    SetList::from_vec(left)
}

// The faces that a set hasn't, ascending; the outer one is there.
fn faces_outside(alloc: Global, f: &Faces, set: &FaceSet) -> Result<Vec<FaceId>, AllocError>
    ensures exact { IfOk result (λ v. v.items ≡ outside_of f.now set.now) }
    ensures ascending { IfOk result (λ v. IsStrictlyIncreasing v.items) }
{
    let mut outside = Vec::new(alloc);
    for n in 0..f.count() {
        let face = FaceId::new(n);
        if !set.has(face) {
            outside.push(face)?;
        }
    }
    Ok(outside)
}
