ghost use Rattle.std.specs.Prelude.{◌≡◌, ◌++◌, ◌∷◌, [], ◌<◌, ◌≤◌, ◌^◌, true, filter, All, Contains, IfOk, IfSome, List, None, OnOk, length, map, slice_index};
ghost use Rattle.std.specs.List.Sorted.{IsStrictlyIncreasing};
ghost use Rattle.plane_model.specs.Points.{Path};
ghost use Rattle.face_walk.specs.Joining.{AreClasses};
ghost use Rattle.face_walk.specs.Places.{HasArc, IsBuiltOf, face_left_of};
ghost use Rattle.face_sets.specs.Boundary.{face_right_of, is_outward, outward_at, side_at, sides_of};
ghost use Rattle.face_sets.specs.Joined.{
  AreJoinedBy,
  AreLeastNumbers,
  AreSound,
  IsCoarser,
  IsJoinedAround,
  IsJoinedOver,
  rank_of,
};
ghost use Rattle.face_sets.specs.Parts.{IsSide};

use face_walk::{Faces, Joining};
use grid_base::{FaceId, SignedArc};
use std::alloc::{AllocError, Global};

/// A signed arc of the boundary of a set, and the place in the set of the face on its left.
#[derive(Clone, Copy, Debug)]
pub struct Side {
    pub place: u32,
    pub arc: SignedArc,
}

/// The parts of a set, by the places of its faces: each part has the number of the least arc in its boundary.
#[derive(Drop)]
pub struct Parts {
    joining: Joining,
    // the number of a part at the least place of its faces
    numbers: Vec<u32>,
    ghost each: { length numbers.items ≡ length joining },
}

// The place of the face on the right of a signed arc, where it is in the set.
fn place_across(f: &Faces, faces: &[FaceId], arc: SignedArc) -> Option<u32>
    requires few { length faces.now < 2 ^ 32 }
    requires ascending { IsStrictlyIncreasing faces.now }
    requires arc { HasArc f.now arc }
    ensures there { IfSome result (λ i. i < length faces.now) }
    ensures found { IfSome result (λ i. slice_index faces.now i ≡ face_right_of f.now.places arc) }
    ensures missed { result ≡ None → Contains faces.now (face_right_of f.now.places arc) → ⊥ }
{
    place_of(faces, f.left_of(arc.flip()))
}

// The place of a face in a set, where it is there.
fn place_of(faces: &[FaceId], face: FaceId) -> Option<u32>
    requires few { length faces.now < 2 ^ 32 }
    requires ascending { IsStrictlyIncreasing faces.now }
    ensures there { IfSome result (λ i. i < length faces.now) }
    ensures found { IfSome result (λ i. slice_index faces.now i ≡ face) }
    ensures missed { result ≡ None → Contains faces.now face → ⊥ }
{
    let guess = place_without_gaps(faces, face);
    if stands_at(faces, guess, face) {
        return Some(guess as u32);
    }
    match faces.binary_search(&face) {
        Ok(i) => Some(i as u32),
        Err(_) => None,
    }
}

// Where a face stands in a set, if no number is left out before it.
fn place_without_gaps(faces: &[FaceId], face: FaceId) -> usize {
    match faces.first() {
        Some(first) => face.num().saturating_sub(first.num()) as usize,
        None => 0,
    }
}

fn stands_at(faces: &[FaceId], i: usize, face: FaceId) -> bool
    ensures there { result ≡ true → i < length faces.now }
    ensures found { result ≡ true → slice_index faces.now i ≡ face }
{
    match faces.get(i) {
        Some(found) => found.num() == face.num(),
        None => false,
    }
}

impl Parts {
    /// The parts of a set, whose faces stand in order, and its boundary, face by face.
    pub fn of(alloc: Global, f: &Faces, faces: &[FaceId]) -> Result<(Parts, Vec<Side>), AllocError>
        requires few { length faces.now < 2 ^ 32 }
        requires ascending { IsStrictlyIncreasing faces.now }
        ensures exact { (arcs : List Path) → IsBuiltOf arcs f.now → IfOk result (λ p. p.1.items ≡ sides_of f.now.places (length arcs) faces.now) }
        ensures there { IfOk result (λ p. All (IsSide f.now (length faces.now)) p.1.items) }
        ensures each { IfOk result (λ p. length p.0.joining ≡ length faces.now) }
        ensures joined { (arcs : List Path) → IsBuiltOf arcs f.now → IfOk result (λ p. AreJoinedBy f.now faces.now p.0.joining) }
        ensures least { IfOk result (λ p. AreLeastNumbers p.0.joining p.1.items p.0.numbers.items) }
        ensures numbers { IfOk result (λ p. length p.0.numbers.items ≡ length p.0.joining) }
        ensures classes { IfOk result (λ p. AreClasses p.0.joining) }
    {
        let (joining, sides) = joined(alloc, f, faces)?;
        let numbers = numbers_of(alloc, &joining, &sides)?;
        Ok((Parts { joining, numbers }, sides))
    }

    /// The number of the part that the face at a place is in.
    pub fn number_of(&self, place: u32) -> u32
        requires { place < length self.now.joining }
        ensures exact { result ≡ slice_index self.now.numbers.items (slice_index self.now.joining place) }
    {
        self.numbers[self.joining.least(place) as usize]
    }

    /// Where the part stands that the face at a place is in: by its number, and by the least place of its faces.
    pub fn rank_of(&self, place: u32) -> u64
        requires { place < length self.now.joining }
        ensures exact { result ≡ rank_of self.now.joining self.now.numbers.items place }
    {
        let least = self.joining.least(place);
        u64::from(self.numbers[least as usize]) * 4294967296 + u64::from(least)
    }
}

// The places of the faces, joined where the faces share an arc, and the arcs across which no face of the set lies.
fn joined(alloc: Global, f: &Faces, faces: &[FaceId]) -> Result<(Joining, Vec<Side>), AllocError>
    requires few { length faces.now < 2 ^ 32 }
    requires ascending { IsStrictlyIncreasing faces.now }
    ensures count { IfOk result (λ p. length p.0 ≡ length faces.now) }
    ensures exact { (arcs : List Path) → IsBuiltOf arcs f.now → IfOk result (λ p. AreJoinedBy f.now faces.now p.0) }
    ensures sides { (arcs : List Path) → IsBuiltOf arcs f.now → IfOk result (λ p. p.1.items ≡ sides_of f.now.places (length arcs) faces.now) }
    ensures there { IfOk result (λ p. All (IsSide f.now (length faces.now)) p.1.items) }
{
    let mut joining = Joining::new(alloc, faces.len() as u32)?;
    let mut sides = Vec::new(alloc);
    for i in 0..faces.len() {
        go_round(&mut joining, &mut sides, f, faces, i)?;
    }
    Ok((joining, sides))
}

// Joins a face with those of the set across its arcs; the other arcs round it are of the boundary.
fn go_round(
    joining: &mut Joining,
    sides: &mut Vec<Side>,
    f: &Faces,
    faces: &[FaceId],
    i: usize,
) -> Result<(), AllocError>
    requires few { length faces.now < 2 ^ 32 }
    requires ascending { IsStrictlyIncreasing faces.now }
    requires face { i < length faces.now }
    requires count { length joining.old ≡ length faces.now }
    requires there { All (IsSide f.now (length faces.now)) sides.old.items }
    ensures count { OnOk result (length joining.new ≡ length faces.now) }
    ensures kept { OnOk result (IsCoarser joining.old joining.new) }
    ensures sound { (arcs : List Path) → IsBuiltOf arcs f.now → AreSound f.now faces.now joining.old → OnOk result (AreSound f.now faces.now joining.new) }
    ensures around { (arcs : List Path) → IsBuiltOf arcs f.now → OnOk result (IsJoinedAround f.now faces.now i joining.new) }
    ensures sides { (arcs : List Path) → IsBuiltOf arcs f.now →
        OnOk result (sides.new.items ≡ sides.old.items ++ map (side_at i) (outward_at f.now.places (length arcs) faces.now (slice_index faces.now i))) }
    ensures there { OnOk result (All (IsSide f.now (length faces.now)) sides.new.items) }
{
    let round = f.arcs_of(faces[i]);
    for arc in round {
        cross(joining, sides, f, faces, i, *arc)?;
    }
    Ok(())
}

// Joins a face with that of the set across one of its arcs; where there is none, the arc is of the boundary.
fn cross(
    joining: &mut Joining,
    sides: &mut Vec<Side>,
    f: &Faces,
    faces: &[FaceId],
    i: usize,
    arc: SignedArc,
) -> Result<(), AllocError>
    requires few { length faces.now < 2 ^ 32 }
    requires ascending { IsStrictlyIncreasing faces.now }
    requires face { i < length faces.now }
    requires arc { HasArc f.now arc }
    requires count { length joining.old ≡ length faces.now }
    requires there { All (IsSide f.now (length faces.now)) sides.old.items }
    ensures count { length joining.new ≡ length faces.now }
    ensures kept { IsCoarser joining.old joining.new }
    ensures sound { face_left_of f.now.places arc ≡ slice_index faces.now i → AreSound f.now faces.now joining.old → AreSound f.now faces.now joining.new }
    ensures over { OnOk result (IsJoinedOver f.now faces.now i arc joining.new) }
    ensures sides { OnOk result (sides.new.items ≡ sides.old.items ++ map (side_at i) (filter (is_outward f.now.places faces.now) (arc ∷ []))) }
    ensures there { OnOk result (All (IsSide f.now (length faces.now)) sides.new.items) }
{
    match place_across(f, faces, arc) {
        Some(place) => {
            joining.join(i as u32, place);
            Ok(())
        }
        None => Ok(sides.push(Side {
            place: i as u32,
            arc,
        })?),
    }
}

// The least arc in the boundary of each part, at the least place of its faces.
fn numbers_of(alloc: Global, joining: &Joining, sides: &[Side]) -> Result<Vec<u32>, AllocError>
    requires { All (λ s. s.place < length joining.now) sides.now }
    ensures each { IfOk result (λ v. length v.items ≡ length joining.now) }
    ensures least { IfOk result (λ v. AreLeastNumbers joining.now sides.now v.items) }
    ensures classes { IfOk result (λ v. AreClasses joining.now) }
{
    let mut numbers = vec![in alloc; u32::MAX; joining.count() as usize]?;
    for side in sides {
        let least = joining.least(side.place) as usize;
        numbers[least] = numbers[least].min(side.arc.id().num());
    }
    Ok(numbers)
}
