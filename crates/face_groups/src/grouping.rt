ghost use Rattle.std.specs.Prelude.{◌≡◌, ◌<◌, ◌≤◌, Contains, IfOk, length, nat_lt, slice_index, slice_range, true, false};
ghost use Rattle.std.specs.Cmp.{IsStrictWeakOrder};
ghost use Rattle.lists.specs.Lists.{ascending};
ghost use Rattle.face_groups.specs.Groups.{AreByKey, AreKeySets, AreKeyed, IsKeyRun, IsKeyed};

use crate::keys::FaceKeys;
use face_sets::{FaceSet, SetList};
use face_walk::Faces;
use grid_base::FaceId;
use std::alloc::{AllocError, Global};

/// The inner faces that have a key: for each key the set of those that have it, in the order of the keys.
///
/// Cost: n log n for n faces, each with the length of its key.
pub fn sets_by_key<K: FaceKeys>(alloc: Global, f: &Faces, keys: &K) -> Result<SetList, AllocError>
    requires ordered { IsStrictWeakOrder (K.comes_before keys.now) }
    ensures exact { IfOk result (AreKeySets (IsKeyed f.now (K.is_keyed keys.now)) (K.comes_before keys.now)) }
{
    let faces = faces_by_key(alloc, f, keys)?;
    let sets = sets_of(alloc, keys, &faces)?;
    Ok(sets)
}

// These faces in the order of their keys.
fn faces_by_key<K: FaceKeys>(alloc: Global, f: &Faces, keys: &K) -> Result<Vec<FaceId>, AllocError>
    requires ordered { IsStrictWeakOrder (K.comes_before keys.now) }
    ensures all { IfOk result (λ v. AreKeyed f.now (K.is_keyed keys.now) v.items) }
    ensures in_order { IfOk result (λ v. AreByKey (K.comes_before keys.now) v.items) }
{
    let mut faces = keyed_faces(alloc, f, keys)?;
    faces.sort_by(|a, b| keys.order(*a, *b))?;
    Ok(faces)
}

// The inner faces that have a key, ascending.
fn keyed_faces<K: FaceKeys>(alloc: Global, f: &Faces, keys: &K) -> Result<Vec<FaceId>, AllocError>
    ensures all { IfOk result (λ v. AreKeyed f.now (K.is_keyed keys.now) v.items) }
{
    let mut faces = Vec::new(alloc);
    for n in 0..f.count() {
        let face = FaceId::new(n);
        if is_keyed(f, keys, face) {
            faces.push(face)?;
        }
    }
    Ok(faces)
}

fn is_keyed<K: FaceKeys>(f: &Faces, keys: &K, face: FaceId) -> bool
    requires there { face < f.now.count }
    ensures yes { result ≡ true → IsKeyed f.now (K.is_keyed keys.now) face }
    ensures no { result ≡ false → IsKeyed f.now (K.is_keyed keys.now) face → ⊥ }
{
    face != f.outer() && keys.has_key(face)
}

// The set of the faces of each key, of faces in the order of their keys.
fn sets_of<K: FaceKeys>(alloc: Global, keys: &K, faces: &[FaceId]) -> Result<SetList, AllocError>
    requires ordered { IsStrictWeakOrder (K.comes_before keys.now) }
    requires in_order { AreByKey (K.comes_before keys.now) faces.now }
    ensures exact { IfOk result (AreKeySets (Contains faces.now) (K.comes_before keys.now)) }
{
    let mut sets = SetList::new(alloc);
    let mut first = 0;
    while first < faces.len() {
        let end = end_of_run(keys, faces, first);
        sets.push(set_between(alloc, faces, first, end)?)?;
        first = end;
    }
    Ok(sets)
}

// How far from a place on the keys of the faces tie with that of the face there.
fn end_of_run<K: FaceKeys>(keys: &K, faces: &[FaceId], first: usize) -> usize
    requires ordered { IsStrictWeakOrder (K.comes_before keys.now) }
    requires in_order { AreByKey (K.comes_before keys.now) faces.now }
    requires place { first < length faces.now }
    ensures run { IsKeyRun (K.comes_before keys.now) faces.now first result }
{
    for i in first + 1..faces.len() {
        if comes_before(keys, faces, first, i) {
            return i;
        }
    }
    faces.len()
}

// Whether the key of the face at one place comes before that of the face at another.
fn comes_before<K: FaceKeys>(keys: &K, faces: &[FaceId], i: usize, j: usize) -> bool
    requires first { i < length faces.now }
    requires second { j < length faces.now }
    ensures exact { result ≡ K.comes_before keys.now (slice_index faces.now i) (slice_index faces.now j) }
{
    keys.order(faces[i], faces[j]).is_lt()
}

// The set of the faces from one place to another.
fn set_between(
    alloc: Global,
    faces: &[FaceId],
    first: usize,
    end: usize,
) -> Result<FaceSet, AllocError>
    requires ordered { first ≤ end }
    requires within { end ≤ length faces.now }
    ensures exact { IfOk result (λ set. set ≡ ascending nat_lt (slice_range faces.now first end)) }
{
    let faces = Vec::from_slice(alloc, &faces[first..end])?;
    Ok(FaceSet::from_faces(faces))
}
