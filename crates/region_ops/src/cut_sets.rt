ghost use Rattle.std.specs.Prelude.{◌≡◌, All, IfOk, map};
ghost use Rattle.face_walk.specs.Places.{FaceTable};
ghost use Rattle.face_sets.specs.Sets.{IsSetOf};
ghost use Rattle.region_ops.specs.Cut.{meet, minus};

use face_sets::{FaceSet, SetList};
use std::alloc::{AllocError, Global};

/// For each set its faces that are in the cut set too. A set may become empty.
pub fn clip_sets(alloc: Global, old: &SetList, cut_set: &FaceSet) -> Result<SetList, AllocError>
    ensures exact { IfOk result (λ sets. sets ≡ map (meet cut_set.now) old.now) }
    ensures inner { (t : FaceTable) → All (IsSetOf t) old.now → IfOk result (All (IsSetOf t)) }
{
    let mut sets = SetList::new(alloc);
    for set in old.as_slice() {
        sets.push(set.meet(alloc, cut_set)?)?;
    }
    Ok(sets)
}

/// For each set its faces that aren't in the cut set. A set may become empty.
pub fn erase_sets(alloc: Global, old: &SetList, cut_set: &FaceSet) -> Result<SetList, AllocError>
    ensures exact { IfOk result (λ sets. sets ≡ map (minus cut_set.now) old.now) }
    ensures inner { (t : FaceTable) → All (IsSetOf t) old.now → IfOk result (All (IsSetOf t)) }
{
    let mut sets = SetList::new(alloc);
    for set in old.as_slice() {
        sets.push(set.minus(alloc, cut_set)?)?;
    }
    Ok(sets)
}
