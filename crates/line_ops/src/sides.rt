ghost use Rattle.std.specs.Prelude.{◌≡◌, ◌++◌, ◌<◌, false, ℕ, List, All, IfOk, OnOk, filter, length, map};
ghost use Rattle.std.specs.Option.{option_to_list};
ghost use Rattle.face_sets.specs.Owners.{AreOwners, owners_of};
ghost use Rattle.line_ops.specs.Inside.{left_of};
ghost use Rattle.line_ops.specs.Sided.{has_both, sided, sided_among};
ghost use Rattle.face_walk.specs.Places.{HasArc, IsBuiltOf};

use arc_table::{ArcList, ArcTable};
use face_sets::{FaceOwners, SetList};
use face_walk::Faces;
use grid_base::{ArcId, SignedArc};
use lists::ItemList;
use std::alloc::{AllocError, Global};

/// An arc whose two sides are in different sets of a list, with the least number of a set at each side.
#[derive(Clone, Copy, PartialEq, Eq, Debug)]
pub struct SidedArc {
    pub arc: ArcId,
    /// `None` where no set has the left side.
    pub left: Option<u32>,
    /// `None` where no set has the right side.
    pub right: Option<u32>,
}

/// A list of such arcs, of at most 4,294,967,295; counted from 0.
pub type SidedArcs = ItemList<SidedArc>;

/// The arcs whose two sides are in different sets of the list, ascending.
pub fn sided_arcs(
    alloc: Global,
    t: &ArcTable,
    f: &Faces,
    sets: &SetList,
) -> Result<SidedArcs, AllocError>
    requires built { IsBuiltOf t.now f.now }
    ensures exact { IfOk result (λ arcs. arcs ≡ sided_among f.now sets.now (length t.now)) }
    ensures there { IfOk result (All (λ a. a.arc < length t.now)) }
{
    let owners = FaceOwners::of(alloc, f, sets)?;
    let mut arcs = SidedArcs::new(alloc);
    for n in 0..t.count() {
        push_sided(&mut arcs, sides_of(f, &owners, ArcId::new(n)))?;
    }
    Ok(arcs)
}

// Adds an arc, where there is one.
fn push_sided(arcs: &mut SidedArcs, found: Option<SidedArc>) -> Result<(), AllocError>
    ensures added { OnOk result (arcs.new ≡ arcs.old ++ option_to_list found) }
{
    if let Some(sided) = found {
        arcs.push(sided)?;
    }
    Ok(())
}

// The least sets at the sides of an arc; `None` where both sides are in the same sets.
fn sides_of(f: &Faces, owners: &FaceOwners, arc: ArcId) -> Option<SidedArc>
    requires arc { HasArc f.now (record { arc = arc; is_reversed = false }) }
    ensures exact { (sets : List (List ℕ)) → AreOwners sets f.now.count owners.now → result ≡ sided f.now sets arc }
{
    let left = sets_left_of(f, owners, SignedArc::forward(arc));
    let right = sets_left_of(f, owners, SignedArc::backward(arc));
    if left == right {
        return None;
    }
    Some(SidedArc {
        arc,
        left: left.first().copied(),
        right: right.first().copied(),
    })
}

// The sets that have the left side of an arc.
fn sets_left_of<'a>(f: &Faces, owners: &'a FaceOwners, a: SignedArc) -> &'a [u32]
    requires { HasArc f.now a }
    ensures exact { (sets : List (List ℕ)) → AreOwners sets f.now.count owners.now → result.now ≡ owners_of sets (left_of f.now a) }
{
    owners.at(f.left_of(a))
}

/// The arcs whose two sides are in different sets of the list, ascending.
pub fn boundary_arcs(
    alloc: Global,
    t: &ArcTable,
    f: &Faces,
    sets: &SetList,
) -> Result<ArcList, AllocError>
    requires built { IsBuiltOf t.now f.now }
    ensures exact { IfOk result (λ arcs. arcs ≡ map (λ s. s.arc) (sided_among f.now sets.now (length t.now))) }
    ensures there { IfOk result (All (λ a. a < length t.now)) }
{
    let sided = sided_arcs(alloc, t, f, sets)?;
    let mut arcs = ArcList::new(alloc);
    for s in sided.as_slice() {
        arcs.push(s.arc)?;
    }
    Ok(arcs)
}

/// Those of them that have a set of the list at each side, ascending.
pub fn inner_arcs(
    alloc: Global,
    t: &ArcTable,
    f: &Faces,
    sets: &SetList,
) -> Result<ArcList, AllocError>
    requires built { IsBuiltOf t.now f.now }
    ensures exact { IfOk result (λ arcs. arcs ≡ map (λ s. s.arc) (filter has_both (sided_among f.now sets.now (length t.now)))) }
    ensures there { IfOk result (All (λ a. a < length t.now)) }
{
    let sided = sided_arcs(alloc, t, f, sets)?;
    let mut arcs = ArcList::new(alloc);
    for s in sided.as_slice() {
        if s.left.is_some() && s.right.is_some() {
            arcs.push(s.arc)?;
        }
    }
    Ok(arcs)
}
