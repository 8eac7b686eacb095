ghost use Rattle.std.specs.Prelude.{◌≡◌, ◌<◌, ◌≤◌, ◌^◌, ℕ, List, All, IfOk, length, slice_index, true, false};
ghost use Rattle.std.specs.List.Sorted.{IsStrictlyIncreasing};
ghost use Rattle.face_sets.specs.Parts.{
  AreGroups,
  AreInOrder,
  AreNumbered,
  Begins,
  GoesOn,
  HasPart,
  IsDivided,
  IsFaceOf,
  IsPartAt,
  IsPieceOf,
  IsRun,
};
ghost use Rattle.face_walk.specs.Places.{IsBuiltOf};
ghost use Rattle.face_sets.specs.Joined.{AreParts, IsRanked};
ghost use Rattle.face_sets.specs.Sets.{IsSetOf};

use crate::face_set::FaceSet;
use crate::joined_faces::Parts;
use crate::set_list::SetList;
use arc_table::ArcTable;
use face_walk::Faces;
use grid_base::FaceId;
use std::alloc::{AllocError, Global};

/// A face of a set, with the number of its part: greater for a part that stands later.
#[derive(Clone, Copy)]
struct PartFace {
    part: u64,
    face: FaceId,
}

/// The parts of a set of faces, in the order of the least arcs in their boundaries.
///
/// Faces are of one part where arcs between faces of the set join them.
pub fn parts(alloc: Global, t: &ArcTable, f: &Faces, set: &FaceSet) -> Result<SetList, AllocError>
    requires built { IsBuiltOf t.now f.now }
    requires faces { IsSetOf f.now set.now }
    ensures exact { IfOk result (AreParts f.now set.now) }
    ensures divided { IfOk result (IsDivided set.now) }
    ensures of_the_set { IfOk result (All (IsPieceOf set.now)) }
    ensures inner { IfOk result (All (IsSetOf f.now)) }
{
    parts_of(alloc, t, f, set.faces())
}

/// The parts of faces that stand in order, the outer one among them or not.
pub fn parts_of(
    alloc: Global,
    t: &ArcTable,
    f: &Faces,
    faces: &[FaceId],
) -> Result<SetList, AllocError>
    requires built { IsBuiltOf t.now f.now }
    requires ascending { IsStrictlyIncreasing faces.now }
    ensures exact { IfOk result (AreParts f.now faces.now) }
    ensures divided { IfOk result (IsDivided faces.now) }
    ensures of_them { IfOk result (All (IsPieceOf faces.now)) }
{
    if faces.len() > u32::MAX as usize {
        return Err(AllocError);
    }
    let (parts, _) = Parts::of(alloc, f, faces)?;
    let numbered = numbered_faces(alloc, &parts, faces)?;
    sets_of(alloc, &numbered)
}

// The faces with their parts, in order of parts.
fn numbered_faces(
    alloc: Global,
    parts: &Parts,
    faces: &[FaceId],
) -> Result<Vec<PartFace>, AllocError>
    requires few { length faces.now < 2 ^ 32 }
    requires each { length parts.now.joining ≡ length faces.now }
    requires ascending { IsStrictlyIncreasing faces.now }
    ensures in_order { IfOk result (λ v. AreInOrder v.items) }
    ensures numbered { IfOk result (λ v. AreNumbered faces.now v.items) }
    ensures of_them { IfOk result (λ v. All (IsFaceOf faces.now) v.items) }
    ensures ranked { IfOk result (λ v. All (IsRanked faces.now parts.now.joining parts.now.numbers.items) v.items) }
{
    let mut numbered = Vec::with_capacity(alloc, faces.len())?;
    for i in 0..faces.len() {
        numbered.push(numbered_face(parts, faces, i))?;
    }
    numbered.sort_unstable_by_key(|p| p.part);
    Ok(numbered)
}

fn numbered_face(parts: &Parts, faces: &[FaceId], i: usize) -> PartFace
    requires few { length faces.now < 2 ^ 32 }
    requires each { length parts.now.joining ≡ length faces.now }
    requires place { i < length faces.now }
    ensures face { result.face ≡ slice_index faces.now i }
    ensures of_them { IsFaceOf faces.now result }
    ensures ranked { IsRanked faces.now parts.now.joining parts.now.numbers.items result }
{
    PartFace {
        part: parts.rank_of(i as u32),
        face: faces[i],
    }
}

// The faces of each part, of faces in the order of their parts.
fn sets_of(alloc: Global, numbered: &[PartFace]) -> Result<SetList, AllocError>
    requires in_order { AreInOrder numbered.now }
    ensures groups { IfOk result (AreGroups numbered.now numbered.now) }
    ensures of_them { (faces : List ℕ) → All (IsFaceOf faces) numbered.now → IfOk result (All (IsPieceOf faces)) }
{
    let mut sets = SetList::new(alloc);
    for i in 0..numbered.len() {
        if begins_part(numbered, i) {
            sets.push(set_of(alloc, numbered, i)?)?;
        }
    }
    Ok(sets)
}

fn part_at(numbered: &[PartFace], i: usize) -> u64
    requires { i < length numbered.now }
    ensures exact { HasPart numbered.now i result }
{
    numbered[i].part
}

// Whether the face at a place is the first of its part.
fn begins_part(numbered: &[PartFace], i: usize) -> bool
    requires in_order { AreInOrder numbered.now }
    requires place { i < length numbered.now }
    ensures begins { result ≡ true → Begins numbered.now i }
    ensures goes_on { result ≡ false → GoesOn numbered.now i }
{
    i == 0 || part_at(numbered, i - 1) != part_at(numbered, i)
}

// How far from a place on the faces are of one part.
fn end_of_part(numbered: &[PartFace], part: u64, first: usize) -> usize
    requires in_order { AreInOrder numbered.now }
    requires place { first < length numbered.now }
    requires part { HasPart numbered.now first part }
    ensures run { IsRun numbered.now part first result }
{
    for i in first..numbered.len() {
        if part_at(numbered, i) != part {
            return i;
        }
    }
    numbered.len()
}

// The faces from a place on, as far as they are of one part.
fn set_of(alloc: Global, numbered: &[PartFace], first: usize) -> Result<FaceSet, AllocError>
    requires in_order { AreInOrder numbered.now }
    requires place { first < length numbered.now }
    requires begins { Begins numbered.now first }
    ensures exact { IfOk result (IsPartAt numbered.now first) }
    ensures of_them { (faces : List ℕ) → All (IsFaceOf faces) numbered.now → IfOk result (IsPieceOf faces) }
{
    let end = end_of_part(numbered, part_at(numbered, first), first);
    let mut faces = Vec::new(alloc);
    for i in first..end {
        faces.push(numbered[i].face)?;
    }
    Ok(FaceSet::from_faces(faces))
}
