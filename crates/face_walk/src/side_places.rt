ghost use Rattle.std.specs.Prelude.{◌≡◌, ◌-◌, ◌<◌, ◌≤◌, true, false, IfOk, length, nat_lt, slice_index};
ghost use Rattle.std.specs.List.Sorted.{IsNonDecreasingBy, IsPartitionedBy, IsPartitionPoint};
ghost use Rattle.face_walk.specs.Sides.{AreStarts};

use grid_base::next_number;
use std::alloc::{AllocError, Global};

/// For each face below `count` the place where its sides begin among all, whose faces are `faces`, in order; and after
/// these the place where all end.
///
/// Errors: `AllocError` for want of memory, or of numbers below 2^32 for places.
pub fn starts_of(alloc: Global, faces: &[u32], count: u32) -> Result<Vec<u32>, AllocError>
    requires in_order { IsNonDecreasingBy (λ f. f) faces.now }
    ensures exact { IfOk result (λ v. AreStarts faces.now count v.items) }
{
    let mut starts = Vec::with_capacity(alloc, count as usize + 1)?;
    let mut start = 0;
    for f in 0..count as u64 + 1 {
        start = first_from(faces, f, place_after(faces, f, start));
        starts.push(next_number(start)?)?;
    }
    Ok(starts)
}

// The place of the first face that isn't below `f`, looked for from a place on. It is not proved: a wrong one costs
// time alone.
fn place_after(faces: &[u32], f: u64, from: usize) -> usize {
    for k in from..faces.len() {
        if faces[k] as u64 >= f {
            return k;
        }
    }
    faces.len()
}

/// Where what belongs to a number begins, by a list of such places.
pub fn start_at(starts: &[u32], number: u32) -> usize {
    match starts.get(number as usize) {
        Some(start) => *start as usize,
        None => usize::MAX,
    }
}

// The place of the first of faces in order that is not below `f`, looked for at `guess` first.
fn first_from(faces: &[u32], f: u64, guess: usize) -> usize
    ensures bound { result ≤ length faces.now }
    ensures exact { IsPartitionedBy (λ g. nat_lt g f) faces.now → IsPartitionPoint (λ g. nat_lt g f ≡ true) (λ g. nat_lt g f ≡ false) faces.now result }
{
    if guess <= faces.len()
        && is_below_before(faces, f, guess)
        && is_none_below_at(faces, f, guess)
    {
        return guess;
    }
    faces.partition_point(|g| (*g as u64) < f)
}

fn is_below(g: u32, f: u64) -> bool
    ensures exact { result ≡ nat_lt g f }
{
    (g as u64) < f
}

// Whether the face before a place, if there is one, is below `f`.
fn is_below_before(faces: &[u32], f: u64, k: usize) -> bool
    requires within { k ≤ length faces.now }
    ensures yes { result ≡ true → 0 < k → nat_lt (slice_index faces.now (k - 1)) f ≡ true }
{
    if k == 0 {
        return true;
    }
    is_below(faces[k - 1], f)
}

// Whether the face at a place, if there is one, isn't below `f`.
fn is_none_below_at(faces: &[u32], f: u64, k: usize) -> bool
    ensures yes { result ≡ true → k < length faces.now → nat_lt (slice_index faces.now k) f ≡ false }
{
    if k >= faces.len() {
        return true;
    }
    if is_below(faces[k], f) {
        return false;
    }
    true
}
