ghost use Rattle.std.specs.Prelude.{◌≡◌, ℕ, ◌<◌, ◌≤◌, IfOk, List, OnOk, Some, length, slice_get};
ghost use Rattle.plane_model.specs.Points.{Path};
ghost use Rattle.face_walk.specs.Places.{HasArc, IsBuiltOf, face_left_of};
ghost use Rattle.face_walk.specs.Crossings.{AreCrossings, AreMarked, IsDone, IsLonger, IsReached, LeaveNone, face_across, outer_of};
ghost use Rattle.face_walk.specs.declared.crossings.Crossing.{Crossing as Step};

use crate::faces::Faces;
use grid_base::{ArcId, FaceId, SignedArc};
use std::alloc::{AllocError, Global};

/// A step across an arc, from a face that has been reached into one that has not.
#[derive(Clone, Copy)]
pub struct Crossing {
    pub from: FaceId,
    pub into: FaceId,
    pub arc: ArcId,
}

/// The steps by which all faces are reached from the outer face, breadth first.
pub fn crossings_of(alloc: Global, f: &Faces) -> Result<Vec<Crossing>, AllocError>
    ensures exact { IfOk result (λ v. AreCrossings f.now v.items) }
    ensures all { (arcs : List Path) → IsBuiltOf arcs f.now → IfOk result (λ v. LeaveNone f.now v.items) }
{
    let outer = f.outer();
    let mut reached = vec![in alloc; false; f.count() as usize]?;
    reached[outer.num() as usize] = true;
    let mut crossings = Vec::with_capacity(alloc, f.count() as usize)?;
    reach_all(&mut crossings, &mut reached, f, outer)?;
    Ok(crossings)
}

// Goes on from the outer face, and then from each face that has been reached.
fn reach_all(
    crossings: &mut Vec<Crossing>,
    reached: &mut [bool],
    f: &Faces,
    outer: FaceId,
) -> Result<(), AllocError>
    requires marked { AreMarked f.now crossings.old.items reached.old }
    requires outer { outer ≡ outer_of f.now }
    requires there { outer < f.now.count }
    ensures exact { OnOk result (AreCrossings f.now crossings.new.items) }
    ensures all { (arcs : List Path) → IsBuiltOf arcs f.now → OnOk result (LeaveNone f.now crossings.new.items) }
{
    cross_from(crossings, reached, f, outer)?;
    for k in 0..f.count() as usize {
        cross_next(crossings, reached, f, k)?;
    }
    Ok(())
}

// Goes on from the face that crossing `k` leads into, where there is such a crossing.
fn cross_next(
    crossings: &mut Vec<Crossing>,
    reached: &mut [bool],
    f: &Faces,
    k: usize,
) -> Result<(), AllocError>
    requires marked { AreMarked f.now crossings.old.items reached.old }
    ensures within { OnOk result (length crossings.old.items ≤ k → length crossings.new.items ≡ length crossings.old.items) }
    ensures marked { OnOk result (AreMarked f.now crossings.new.items reached.new) }
    ensures longer { OnOk result (IsLonger crossings.old.items crossings.new.items) }
    ensures done { (arcs : List Path) → IsBuiltOf arcs f.now → (c : Step) → slice_get crossings.old.items k ≡ Some c →
        OnOk result (IsDone f.now crossings.new.items c.into) }
{
    if k >= crossings.len() {
        return Ok(());
    }
    let face = crossings[k].into;
    cross_from(crossings, reached, f, face)
}

// Crosses each arc round a face that leads into a face that has not been reached.
fn cross_from(
    crossings: &mut Vec<Crossing>,
    reached: &mut [bool],
    f: &Faces,
    face: FaceId,
) -> Result<(), AllocError>
    requires marked { AreMarked f.now crossings.old.items reached.old }
    requires there { face < f.now.count }
    requires from { IsReached (outer_of f.now) crossings.old.items (length crossings.old.items) face }
    ensures marked { OnOk result (AreMarked f.now crossings.new.items reached.new) }
    ensures longer { OnOk result (IsLonger crossings.old.items crossings.new.items) }
    ensures done { (arcs : List Path) → IsBuiltOf arcs f.now → OnOk result (IsDone f.now crossings.new.items face) }
{
    for a in f.arcs_of(face) {
        cross(crossings, reached, f, face, *a)?;
    }
    Ok(())
}

// Crosses one arc, where the face on its right has not been reached.
fn cross(
    crossings: &mut Vec<Crossing>,
    reached: &mut [bool],
    f: &Faces,
    face: FaceId,
    a: SignedArc,
) -> Result<(), AllocError>
    requires marked { AreMarked f.now crossings.old.items reached.old }
    requires there { face < f.now.count }
    requires from { IsReached (outer_of f.now) crossings.old.items (length crossings.old.items) face }
    requires arc { HasArc f.now a }
    requires left { face_left_of f.now.places a ≡ face }
    ensures marked { OnOk result (AreMarked f.now crossings.new.items reached.new) }
    ensures longer { OnOk result (IsLonger crossings.old.items crossings.new.items) }
    ensures right { OnOk result (IsReached (outer_of f.now) crossings.new.items (length crossings.new.items) (face_across f.now.places a)) }
{
    let into = f.left_of(a.flip());
    if reached[into.num() as usize] {
        return Ok(());
    }
    reached[into.num() as usize] = true;
    crossings.push(Crossing {
        from: face,
        into,
        arc: a.id(),
    })?;
    Ok(())
}
