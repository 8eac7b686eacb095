ghost use Rattle.std.specs.Prelude.{◌≡◌, ◌<◌, All, IfOk, length, map};
ghost use Rattle.std.specs.List.{flat_map};
ghost use Rattle.face_walk.specs.Places.{FaceTable};
ghost use Rattle.face_sets.specs.Sets.{IsSetOf};
ghost use Rattle.region_ops.specs.Dissolved.{set_at, union_of};

use face_sets::{FaceSet, SetList};
use grid_base::{FaceId, GroupList};
use std::alloc::{AllocError, Global};

/// For each group, which lists the numbers of its members, the faces of any of them.
///
/// Cost: n log n for the n faces of the members.
pub fn dissolve_sets(
    alloc: Global,
    old: &SetList,
    groups: &GroupList,
) -> Result<SetList, AllocError>
    requires members { All (All (λ n. n < length old.now)) groups.now }
    ensures exact { IfOk result (λ sets. sets ≡ map (union_of old.now) groups.now) }
    ensures inner { (t : FaceTable) → All (IsSetOf t) old.now → IfOk result (All (IsSetOf t)) }
{
    let mut sets = SetList::new(alloc);
    for group in groups.as_slice() {
        let faces = faces_of(alloc, old, group.as_slice())?;
        sets.push(FaceSet::from_faces(faces))?;
    }
    Ok(sets)
}

// The faces of the members of a group, set by set.
fn faces_of(alloc: Global, old: &SetList, group: &[u32]) -> Result<Vec<FaceId>, AllocError>
    requires members { All (λ n. n < length old.now) group.now }
    ensures exact { IfOk result (λ v. v.items ≡ flat_map (set_at old.now) group.now) }
{
    let sets = old.as_slice();
    let mut faces = Vec::new(alloc);
    for n in group {
        faces.extend_from_slice(sets[*n as usize].faces())?;
    }
    Ok(faces)
}
