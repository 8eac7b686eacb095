ghost use Rattle.std.specs.Prelude.{◌≡◌, ◌++◌, ◌<◌, [], All, IfOk, OnOk, length, slice_index_or};
ghost use Rattle.face_walk.specs.Places.{IsBuiltOf};
ghost use Rattle.face_sets.specs.Sets.{IsSetOf};
ghost use Rattle.region_ops.specs.Exploded.{ArePieces, IsExploded, IsPushed, items_of};
ghost use Rattle.region_ops.specs.Items.{IsPart};

use crate::item_lists::{PartItem, PartList};
use arc_table::ArcTable;
use face_sets::{FaceSet, SetList, parts};
use face_walk::Faces;
use std::alloc::{AllocError, Global};

/// The parts of each set, set by set, in order. An empty set stays one item.
pub fn explode_sets(
    alloc: Global,
    t: &ArcTable,
    f: &Faces,
    old: &SetList,
) -> Result<PartList, AllocError>
    requires built { IsBuiltOf t.now f.now }
    requires faces { All (IsSetOf f.now) old.now }
    ensures exact { IfOk result (IsExploded f.now old.now) }
    ensures parts { IfOk result (All (IsPart f.now (length old.now))) }
{
    let mut items = PartList::new(alloc);
    for n in 0..old.len() {
        push_pieces(alloc, t, f, &mut items, old, n)?;
    }
    Ok(items)
}

// The parts of a set, or where it is empty the set.
fn pieces_of(alloc: Global, t: &ArcTable, f: &Faces, set: &FaceSet) -> Result<SetList, AllocError>
    requires built { IsBuiltOf t.now f.now }
    requires faces { IsSetOf f.now set.now }
    ensures exact { IfOk result (ArePieces f.now set.now) }
    ensures inner { IfOk result (All (IsSetOf f.now)) }
{
    if set.is_empty() {
        let mut sets = SetList::new(alloc);
        sets.push(FaceSet::new(alloc))?;
        return Ok(sets);
    }
    parts(alloc, t, f, set)
}

// Adds the pieces of one set.
fn push_pieces(
    alloc: Global,
    t: &ArcTable,
    f: &Faces,
    items: &mut PartList,
    old: &SetList,
    n: u32,
) -> Result<(), AllocError>
    requires built { IsBuiltOf t.now f.now }
    requires faces { All (IsSetOf f.now) old.now }
    requires number { n < length old.now }
    requires so_far { All (IsPart f.now (length old.now)) items.old }
    ensures exact { OnOk result (IsPushed f.now n (slice_index_or old.now n []) items.old items.new) }
    ensures parts { OnOk result (All (IsPart f.now (length old.now)) items.new) }
{
    let pieces = pieces_of(alloc, t, f, &old.as_slice()[n as usize])?;
    push_items(items, n, pieces.into_vec())?;
    Ok(())
}

fn push_items(items: &mut PartList, n: u32, pieces: Vec<FaceSet>) -> Result<(), AllocError>
    ensures exact { OnOk result (items.new ≡ items.old ++ items_of n pieces.items) }
{
    for set in pieces {
        items.push(PartItem { feature: n, set })?;
    }
    Ok(())
}
