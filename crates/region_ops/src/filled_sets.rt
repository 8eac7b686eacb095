ghost use Rattle.std.specs.Prelude.{◌≡◌, ◌++◌, ◌<◌, All, IfOk, List, OnOk, [], int_le, length, map, nat_lt, pos, slice_index_or, slice_set, ℕ};
ghost use Rattle.lists.specs.Lists.{ascending};
ghost use Rattle.plane_model.specs.Points.{Path};
ghost use Rattle.face_walk.specs.Places.{HasArc, IsBuiltOf};
ghost use Rattle.face_sets.specs.Boundary.{face_right_of};
ghost use Rattle.face_sets.specs.Owners.{owners_of};
ghost use Rattle.face_sets.specs.Sets.{IsSetOf};
ghost use Rattle.region_ops.specs.Filled.{AreGifts, AreSoleOwners, AreTogether, IsReceiver, given, neighbours_of, sets_round};

use crate::cleaned_sets::first_of;
use face_sets::{FaceSet, SetList};
use face_walk::Faces;
use grid_base::{FaceId, OverlapRule, SignedArc, empty_lists};
use std::alloc::{AllocError, Global};

/// For each set the faces of the gaps that go to it, of those of at most the area `most`, doubled and in squares of
/// the grid.
///
/// A gap goes to the set that ranks first, by `areas`, of those that have a face across its boundary. `firsts` tells of
/// each face which set has it.
pub fn gifts_of(
    alloc: Global,
    f: &Faces,
    gaps: &SetList,
    firsts: &[Option<u32>],
    areas: &[i128],
    rule: OverlapRule,
    most: u128,
) -> Result<Vec<Vec<FaceId>>, AllocError>
    requires gaps { All (IsSetOf f.now) gaps.now }
    requires each { length firsts.now ≡ f.now.count }
    ensures each { IfOk result (λ v. length v.items ≡ length areas.now) }
    ensures exact { (arcs : List Path) → IsBuiltOf arcs f.now → (cleaned : List (List ℕ)) → AreSoleOwners cleaned f.now.count firsts.now → length areas.now ≡ length cleaned →
        IfOk result (λ v. AreGifts rule most arcs f.now areas.now cleaned gaps.now (map (λ list. list.items) v.items)) }
{
    let mut gifts = empty_lists(alloc, areas.len())?;
    for gap in gaps.as_slice() {
        let to = receiver_of(alloc, f, firsts, areas, rule, most, gap)?;
        give(&mut gifts, gap.faces(), to)?;
    }
    Ok(gifts)
}

// The set that a gap goes to, where the gap is filled.
fn receiver_of(
    alloc: Global,
    f: &Faces,
    firsts: &[Option<u32>],
    areas: &[i128],
    rule: OverlapRule,
    most: u128,
    gap: &FaceSet,
) -> Result<Option<u32>, AllocError>
    requires gap { IsSetOf f.now gap.now }
    requires each { length firsts.now ≡ f.now.count }
    ensures exact { (arcs : List Path) → IsBuiltOf arcs f.now → (cleaned : List (List ℕ)) → AreSoleOwners cleaned f.now.count firsts.now →
        IfOk result (IsReceiver rule most arcs f.now areas.now cleaned gap.now) }
{
    if !is_at_most(gap.twice_area(f)?, most) {
        return Ok(None);
    }
    let numbers = neighbours_of(alloc, f, firsts, gap.faces())?;
    Ok(first_of(&numbers, areas, rule))
}

fn is_at_most(area: i128, most: u128) -> bool
    ensures exact { result ≡ int_le area (pos most) }
{
    match u128::try_from(area) {
        Ok(area) => area <= most,
        Err(_) => true,
    }
}

// The numbers of the sets across the arcs round the faces of a gap, as often as they are there.
fn neighbours_of(
    alloc: Global,
    f: &Faces,
    firsts: &[Option<u32>],
    gap: &[FaceId],
) -> Result<Vec<u32>, AllocError>
    requires each { length firsts.now ≡ f.now.count }
    ensures exact { (arcs : List Path) → IsBuiltOf arcs f.now → (cleaned : List (List ℕ)) → AreSoleOwners cleaned f.now.count firsts.now →
        IfOk result (λ v. v.items ≡ neighbours_of arcs f.now cleaned gap.now) }
{
    let mut numbers = Vec::new(alloc);
    for face in gap {
        push_neighbours(&mut numbers, f, firsts, *face)?;
    }
    Ok(numbers)
}

#[tactic(auto, using(crate::proofs::FillLemmas::round_more))]
fn push_neighbours(
    numbers: &mut Vec<u32>,
    f: &Faces,
    firsts: &[Option<u32>],
    face: FaceId,
) -> Result<(), AllocError>
    requires each { length firsts.now ≡ f.now.count }
    ensures exact { (arcs : List Path) → IsBuiltOf arcs f.now → (cleaned : List (List ℕ)) → AreSoleOwners cleaned f.now.count firsts.now →
        OnOk result (numbers.new.items ≡ numbers.old.items ++ sets_round arcs f.now cleaned face) }
{
    let round = f.arcs_of(face);
    for arc in round {
        numbers.extend_from_slice(set_across(f, firsts, *arc))?;
    }
    Ok(())
}

// The set that has the face on the right of a signed arc, where one has.
fn set_across<'a>(f: &Faces, firsts: &'a [Option<u32>], arc: SignedArc) -> &'a [u32]
    requires arc { HasArc f.now arc }
    requires each { length firsts.now ≡ f.now.count }
    ensures exact { (cleaned : List (List ℕ)) → AreSoleOwners cleaned f.now.count firsts.now → result.now ≡ owners_of cleaned (face_right_of f.now.places arc) }
{
    firsts[f.left_of(arc.flip()).num() as usize].as_slice()
}

// Appends the faces of a gap to the list of the set that it goes to.
fn give(lists: &mut Vec<Vec<FaceId>>, gap: &[FaceId], to: Option<u32>) -> Result<(), AllocError>
    ensures each { OnOk result (length lists.new.items ≡ length lists.old.items) }
    ensures exact { OnOk result (map (λ list. list.items) lists.new.items ≡ given to gap.now (map (λ list. list.items) lists.old.items)) }
{
    match to {
        Some(n) => append(lists, n as usize, gap),
        None => Ok(()),
    }
}

// Appends faces to the list at a place, where there is one.
fn append(lists: &mut Vec<Vec<FaceId>>, place: usize, faces: &[FaceId]) -> Result<(), AllocError>
    ensures each { OnOk result (length lists.new.items ≡ length lists.old.items) }
    ensures exact { OnOk result (map (λ list. list.items) lists.new.items ≡ slice_set (map (λ list. list.items) lists.old.items) place (slice_index_or (map (λ list. list.items) lists.old.items) place [] ++ faces.now)) }
{
    if place < lists.len() {
        lists[place].extend_from_slice(faces)?;
    }
    Ok(())
}

/// Each set with the faces that are given to it. A set that is given none is moved.
pub fn together(
    alloc: Global,
    cleaned: SetList,
    gifts: &[Vec<FaceId>],
) -> Result<SetList, AllocError>
    requires each { length gifts.now ≡ length cleaned }
    ensures exact { IfOk result (AreTogether cleaned (map (λ list. list.items) gifts.now) (length cleaned)) }
{
    let mut sets = SetList::new(alloc);
    for set in cleaned.into_vec() {
        let more = &gifts[sets.len() as usize];
        sets.push(with_faces(alloc, set, more)?)?;
    }
    Ok(sets)
}

#[tactic(auto, using(crate::proofs::FirstLemmas::none_more))]
fn with_faces(alloc: Global, set: FaceSet, more: &[FaceId]) -> Result<FaceSet, AllocError>
    ensures exact { IfOk result (λ s. s ≡ ascending nat_lt (more.now ++ set)) }
{
    let old = set.faces();
    if more.is_empty() {
        return Ok(set);
    }
    let mut faces = Vec::from_slice(alloc, more)?;
    faces.extend_from_slice(old)?;
    Ok(FaceSet::from_faces(faces))
}
