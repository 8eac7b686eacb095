ghost use Rattle.std.specs.Prelude.{◌≡◌, ◌<◌, ◌==◌, ◌++◌, ◌+ℤ◌, [], true, not, All, IfOk, OnOk, OnErr, filter, length, nat_eq, nat_lt};
ghost use Rattle.std.specs.List.Sorted.{IsStrictlyIncreasing};
ghost use Rattle.lists.specs.Lists.{has, put_in_order, ascending};
ghost use Rattle.face_sets.specs.Sets.{IsSetOf, area_of};

use face_walk::{Faces, added};
use grid_base::FaceId;
use std::alloc::{AllocError, Global};
use std::marker::Model;

/// A set of faces. Contracts see it as the ascending list of their numbers.
#[derive(Drop)]
pub struct FaceSet {
    faces: Vec<FaceId>,
}

impl Model for FaceSet {
    ghost use Rattle.std.specs.Prelude.{List, ℕ};
    ghost use Rattle.std.specs.List.Sorted.{IsStrictlyIncreasing};

    ghost Value = { List ℕ };

    ghost view = { λ s. s.faces.items };

    ghost invariant = { λ s. IsStrictlyIncreasing s.faces.items };
}

impl FaceSet {
    /// The empty set.
    pub fn new(alloc: Global) -> FaceSet
        ensures empty { result ≡ [] }
    {
        FaceSet {
            faces: Vec::new(alloc),
        }
    }

    /// The set of the faces of a list.
    ///
    /// Cost: n log n for n faces. Takes no memory.
    pub fn from_faces(faces: Vec<FaceId>) -> FaceSet
        ensures exact { result ≡ ascending nat_lt faces.items }
    {
        let mut faces = faces;
        faces.sort_unstable();
        faces.dedup();
        FaceSet { faces }
    }

    /// Puts a face into the set, where it isn't yet.
    ///
    /// Cost: a binary search, and a move of the greater faces; neither where there is none.
    pub fn insert(&mut self, f: FaceId) -> Result<(), AllocError>
        ensures ok { OnOk result (self.new ≡ put_in_order nat_lt f self.old) }
        ensures err { OnErr result (self.new ≡ self.old) }
    {
        put(&mut self.faces, f)
    }

    /// Whether a face is in the set. Takes no memory.
    pub fn has(&self, f: FaceId) -> bool
        ensures exact { result ≡ has nat_eq self.now f }
    {
        is_listed(&self.faces, f)
    }

    /// Whether the set has no face.
    pub fn is_empty(&self) -> bool
        ensures exact { result ≡ (length self.now == 0) }
    {
        self.faces.is_empty()
    }

    /// The faces, ascending.
    pub fn faces(&self) -> &[FaceId]
        ensures all { result.now ≡ self.now }
        ensures ascending { IsStrictlyIncreasing self.now }
    {
        &self.faces
    }

    /// An equal set with memory of its own; `AllocError` for want of it.
    pub fn copy(&self, alloc: Global) -> Result<FaceSet, AllocError>
        ensures same { IfOk result (λ s. s ≡ self.now) }
    {
        Ok(FaceSet {
            faces: Vec::from_slice(alloc, &self.faces)?,
        })
    }

    /// The faces of either set.
    pub fn union(&self, alloc: Global, o: &FaceSet) -> Result<FaceSet, AllocError>
        ensures exact { IfOk result (λ s. s ≡ ascending nat_lt (self.now ++ o.now)) }
    {
        let mut faces = Vec::from_slice(alloc, &self.faces)?;
        faces.extend_from_slice(&o.faces)?;
        faces.sort_unstable();
        faces.dedup();
        Ok(FaceSet { faces })
    }

    /// The faces of both sets.
    pub fn meet(&self, alloc: Global, o: &FaceSet) -> Result<FaceSet, AllocError>
        ensures exact { IfOk result (λ s. s ≡ filter (λ f. has nat_eq o.now f) self.now) }
    {
        let faces = taken(alloc, &self.faces, o)?;
        Ok(FaceSet { faces })
    }

    /// The faces of this set that are not in the other.
    pub fn minus(&self, alloc: Global, o: &FaceSet) -> Result<FaceSet, AllocError>
        ensures exact { IfOk result (λ s. s ≡ filter (λ f. not (has nat_eq o.now f)) self.now) }
    {
        let faces = left_out(alloc, &self.faces, o)?;
        Ok(FaceSet { faces })
    }

    /// Twice the area of the faces together, in squares of the grid. Takes no memory.
    ///
    /// Errors: `AllocError` where it is past an `i128` on the way.
    pub fn twice_area(&self, f: &Faces) -> Result<i128, AllocError>
        requires faces { IsSetOf f.now self.now }
        ensures exact { IfOk result (λ area. area ≡ area_of f.now.areas self.now) }
    {
        sum_of_areas(f, &self.faces)
    }
}

fn sum_of_areas(f: &Faces, faces: &[FaceId]) -> Result<i128, AllocError>
    requires faces { IsSetOf f.now faces.now }
    ensures exact { IfOk result (λ area. area ≡ area_of f.now.areas faces.now) }
{
    let mut sum = 0i128;
    for face in faces {
        sum = added(sum, f.twice_area(*face))?;
    }
    Ok(sum)
}

fn is_listed(faces: &[FaceId], f: FaceId) -> bool
    requires { IsStrictlyIncreasing faces.now }
    ensures exact { result ≡ has nat_eq faces.now f }
{
    match faces.binary_search(&f) {
        Ok(_) => true,
        Err(_) => false,
    }
}

// Puts a face into an ascending list.
fn put(faces: &mut Vec<FaceId>, f: FaceId) -> Result<(), AllocError>
    requires { IsStrictlyIncreasing faces.old.items }
    ensures ok { OnOk result (faces.new.items ≡ put_in_order nat_lt f faces.old.items) }
    ensures err { OnErr result (faces.new.items ≡ faces.old.items) }
    ensures ascending { IsStrictlyIncreasing faces.new.items }
{
    if is_past(faces, f) {
        faces.push(f)?;
        return Ok(());
    }
    match faces.binary_search(&f) {
        Ok(_) => Ok(()),
        Err(place) => {
            faces.insert(place, f)?;
            Ok(())
        }
    }
}

// Whether a face is greater than all of an ascending list.
fn is_past(faces: &[FaceId], f: FaceId) -> bool
    requires { IsStrictlyIncreasing faces.now }
    ensures yes { result ≡ true → All (λ g. g < f) faces.now }
{
    match faces.last() {
        Some(last) => last.num() < f.num(),
        None => true,
    }
}

// The faces of a list that are in a set.
fn taken(alloc: Global, faces: &[FaceId], set: &FaceSet) -> Result<Vec<FaceId>, AllocError>
    ensures exact { IfOk result (λ v. v.items ≡ filter (λ f. has nat_eq set.now f) faces.now) }
{
    let mut kept = Vec::new(alloc);
    for f in faces {
        if set.has(*f) {
            kept.push(*f)?;
        }
    }
    Ok(kept)
}

// The faces of a list that are not in a set.
fn left_out(alloc: Global, faces: &[FaceId], set: &FaceSet) -> Result<Vec<FaceId>, AllocError>
    ensures exact { IfOk result (λ v. v.items ≡ filter (λ f. not (has nat_eq set.now f)) faces.now) }
{
    let mut kept = Vec::new(alloc);
    for f in faces {
        if !set.has(*f) {
            kept.push(*f)?;
        }
    }
    Ok(kept)
}
