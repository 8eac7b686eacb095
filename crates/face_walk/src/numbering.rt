ghost use Rattle.std.specs.Prelude.{◌≡◌, ◌+◌, ◌*◌, ◌<◌, ◌≤◌, All, IfOk, length, map, slice_index};
ghost use Rattle.face_walk.specs.Numbering.{IsNumbering};
ghost use Rattle.face_walk.specs.Places.{place_of};
ghost use Rattle.face_walk.specs.Sides.{AreInOrder, AreListed, AreSides};

use crate::joining::Joining;
use crate::places::place_of;
use grid_base::{ArcId, SignedArc};
use known_order::{move_to_positions, positions_by_key};
use std::alloc::{AllocError, Global};

/// The number of the face of each place, and how many faces there are.
#[derive(Drop)]
pub struct Numbering {
    pub places: Vec<u32>,
    pub count: u32,
    ghost below: { All (λ n. n < count) places.items },
}

/// The face on the left of a signed arc. They are ordered by the face, then by the arc.
#[derive(Clone, Copy, PartialEq, Eq, PartialOrd, Ord)]
pub struct FaceSide {
    pub face: u32,
    pub arc: SignedArc,
}

/// Numbers the classes of places in the order of their least places.
pub fn numbering_of(alloc: Global, joining: &Joining) -> Result<Numbering, AllocError>
    ensures each { IfOk result (λ n. length n.places.items ≡ length joining.now) }
    ensures exact { IfOk result (λ n. IsNumbering joining.now n.places.items n.count) }
{
    let mut places = Vec::with_capacity(alloc, joining.count() as usize)?;
    let mut count = 0u32;
    for n in 0..joining.count() {
        let least = joining.least(n);
        if least < n {
            let face = face_at(&places, least);
            places.push(face)?;
        } else {
            places.push(count)?;
            count += 1;
        }
    }
    Ok(Numbering { places, count })
}

fn face_at(places: &[u32], n: u32) -> u32
    requires there { n < length places.now }
    ensures exact { result ≡ slice_index places.now n }
{
    places[n as usize]
}

/// The faces left of the signed arcs, in the order of the faces; those of one face in the order of the arcs.
pub fn sides_of(alloc: Global, arc_count: u32, places: &[u32]) -> Result<Vec<FaceSide>, AllocError>
    requires few { arc_count ≤ 2000000000 }
    requires each { length places.now ≡ 2 * arc_count + 1 }
    ensures exact { IfOk result (λ v. AreSides places.now arc_count v.items) }
    ensures in_order { IfOk result (λ v. AreInOrder v.items) }
    ensures there { IfOk result (λ v. All (λ s. s.arc.arc < arc_count) v.items) }
    ensures listed { IfOk result (λ v. AreListed places.now (map (λ s. s.face) v.items) (map (λ s. s.arc) v.items)) }
{
    let mut sides = Vec::with_capacity(alloc, places.len())?;
    for n in 0..arc_count {
        let id = ArcId::new(n);
        sides.push(side_of(places, SignedArc::forward(id)))?;
        sides.push(side_of(places, SignedArc::backward(id)))?;
    }
    // The places beside arcs stand as the signed arcs do, after the outside.
    let mut positions = positions_by_key(alloc, &places[1..], places.len())?;
    move_to_positions(&mut sides, &mut positions);
    // After this the sort has only to find the sides in order.
    sides.sort_unstable();
    Ok(sides)
}

fn side_of(places: &[u32], arc: SignedArc) -> FaceSide
    requires few { length places.now ≤ 4000000001 }
    requires there { 2 * arc.arc + 2 < length places.now }
    ensures arc { result.arc ≡ arc }
    ensures face { result.face ≡ slice_index places.now (place_of arc) }
{
    let place = place_of(arc);
    FaceSide {
        face: places[place as usize],
        arc,
    }
}

/// The number of the face of each side, in the order of the sides; `AllocError` for want of memory.
pub fn faces_of(alloc: Global, sides: &[FaceSide]) -> Result<Vec<u32>, AllocError>
    ensures exact { IfOk result (λ v. v.items ≡ map (λ s. s.face) sides.now) }
{
    sides.iter().map(|s| s.face).collect(alloc)
}

/// The signed arc of each side, in the order of the sides; `AllocError` for want of memory.
pub fn arcs_of(alloc: Global, sides: &[FaceSide]) -> Result<Vec<SignedArc>, AllocError>
    ensures exact { IfOk result (λ v. v.items ≡ map (λ s. s.arc) sides.now) }
{
    sides.iter().map(|s| s.arc).collect(alloc)
}
