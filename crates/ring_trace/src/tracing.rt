ghost use Rattle.std.specs.Prelude.{◌≡◌, ◌+◌, ◌++◌, ◌<◌, All, AllPairs, IfOk, List, OnOk, ℕ, false, length, true};
ghost use Rattle.std.specs.List.{sum_by};
ghost use Rattle.std.specs.List.Sorted.{IsNonDecreasingBy};
ghost use Rattle.plane_model.specs.Arcs.{SignedArc};
ghost use Rattle.arc_table.specs.Around.{start_of};
ghost use Rattle.face_walk.specs.Places.{IsBuiltOf};
ghost use Rattle.face_sets.specs.Sets.{IsSetOf};
ghost use Rattle.ring_trace.specs.Rings.{IsWhole};
ghost use Rattle.face_sets.specs.Joined.{AreParts};
ghost use Rattle.ring_trace.specs.Keys.{AreByPart, BeginsPart, HasKeyPart, IsKey, StaysInPart, along_key, arcs_along, path_along};
ghost use Rattle.ring_trace.specs.Pairing.{stop_of};
ghost use Rattle.ring_trace.specs.Ways.{IsSimpleRing};
ghost use Rattle.ring_trace.specs.Turns.{MayStandBefore};
ghost use Rattle.ring_trace.specs.Traced.{BeginsWithLeast, HasPolygonsOfParts, UseParts, UsesBoundary, times, times_along, times_traced};

use crate::pairing::{Edge, edges_of};
use crate::ring_keys::{RingKey, keys_of};
use crate::simple_rings::{Rings, rings_of};
use arc_table::{ArcTable, Polys, SignedPath, SignedPaths};
use face_sets::{FaceSet, Parts};
use face_walk::Faces;
use std::alloc::{AllocError, Global};

/// The polygons of a set of faces, one for each of its parts: first the exterior, counterclockwise, then the holes,
/// clockwise, each with the set on its left.
///
/// A ring begins with its arc of least number; holes and polygons are in the order of their least arcs.
/// Cost: n log n for the n links round the set, however large the table is.
pub fn trace(alloc: Global, t: &ArcTable, f: &Faces, set: &FaceSet) -> Result<Polys, AllocError>
    requires built { IsBuiltOf t.now f.now }
    requires faces { IsSetOf f.now set.now }
    ensures boundary { IfOk result (UsesBoundary f.now.places (length t.now) set.now) }
    ensures simple { IfOk result (All (All (IsSimpleRing (start_of t.now) (stop_of t.now)))) }
    ensures least_first { IfOk result (All (All BeginsWithLeast)) }
    ensures in_order { IfOk result (All (AllPairs (MayStandBefore t.now))) }
    ensures parts { (parts : List (List ℕ)) → AreParts f.now set.now parts → IfOk result (UseParts f.now.places (length t.now) parts) }
    ensures has_parts { IfOk result (HasPolygonsOfParts f.now (length t.now) set.now) }
    ensures there { IfOk result (λ polygons. All (λ rings. All (λ ring. All (λ a. a.arc < length t.now) ring) rings) polygons) }
{
    let faces = set.faces();
    if faces.len() > u32::MAX as usize {
        return Err(AllocError);
    }
    let (parts, sides) = Parts::of(alloc, f, faces)?;
    if sides.len() > u32::MAX as usize {
        return Err(AllocError);
    }
    let edges = edges_of(alloc, t, &parts, &sides)?;
    let rings = rings_of(alloc, t, &edges)?;
    let keys = keys_of(alloc, t, &edges, &rings)?;
    polygons_of(alloc, &edges, &rings, &keys)
}

// The polygons of rings in order: one for all rings of a part.
fn polygons_of(
    alloc: Global,
    edges: &[Edge],
    rings: &Rings,
    keys: &[RingKey],
) -> Result<Polys, AllocError>
    requires rings { IsWhole (length edges.now) rings.now }
    requires keys { All (IsKey rings.now) keys.now }
    requires in_order { IsNonDecreasingBy (λ key. key.part) keys.now }
    ensures there { (n : ℕ) → All (λ e. e.arc.arc < n) edges.now → IfOk result (All (All (All (λ a. a.arc < n)))) }
    ensures by_part { IfOk result (AreByPart edges.now rings.now keys.now) }
    ensures once { (a : SignedArc) → IfOk result (λ polygons. times_traced a polygons ≡ sum_by (along_key (times_along a edges.now) rings.now) keys.now) }
{
    let mut polygons = Polys::new(alloc);
    let mut polygon = SignedPaths::new(alloc);
    for i in 0..keys.len() {
        if begins_part(keys, i) {
            polygons.push(polygon)?;
            polygon = SignedPaths::new(alloc);
        }
        polygon.push(path_of(alloc, edges, rings, keys[i])?)?;
    }
    if polygon.len() > 0 {
        polygons.push(polygon)?;
    }
    Ok(polygons)
}

// Whether the ring at a place is the first of its part, and rings of other parts come before it.
fn begins_part(keys: &[RingKey], i: usize) -> bool
    requires in_order { IsNonDecreasingBy (λ key. key.part) keys.now }
    requires place { i < length keys.now }
    ensures begins { result ≡ true → BeginsPart keys.now i }
    ensures stays { result ≡ false → StaysInPart keys.now i }
{
    i > 0 && part_at(keys, i - 1) != part_at(keys, i)
}

fn part_at(keys: &[RingKey], i: usize) -> u32
    requires { i < length keys.now }
    ensures exact { HasKeyPart keys.now i result }
{
    keys[i].part
}

// The arcs of a ring, from the least on.
fn path_of(
    alloc: Global,
    edges: &[Edge],
    rings: &Rings,
    key: RingKey,
) -> Result<SignedPath, AllocError>
    requires rings { IsWhole (length edges.now) rings.now }
    requires key { IsKey rings.now key }
    ensures there { (n : ℕ) → All (λ e. e.arc.arc < n) edges.now → IfOk result (All (λ a. a.arc < n)) }
    ensures exact { IfOk result (λ path. path ≡ path_along edges.now rings.now key) }
    ensures once { (a : SignedArc) → IfOk result (λ path. times a path ≡ along_key (times_along a edges.now) rings.now key) }
{
    let mut path = SignedPath::new(alloc);
    push_arcs(&mut path, edges, &rings.edges[key.first..key.end])?;
    push_arcs(&mut path, edges, &rings.edges[key.begin..key.first])?;
    Ok(path)
}

fn push_arcs(path: &mut SignedPath, edges: &[Edge], ring: &[u32]) -> Result<(), AllocError>
    requires { All (λ e. e < length edges.now) ring.now }
    ensures there { OnOk result ((n : ℕ) → All (λ e. e.arc.arc < n) edges.now → All (λ a. a.arc < n) path.old → All (λ a. a.arc < n) path.new) }
    ensures exact { OnOk result (path.new ≡ path.old ++ arcs_along edges.now ring.now) }
    ensures once { OnOk result ((a : SignedArc) → times a path.new ≡ times a path.old + sum_by (times_along a edges.now) ring.now) }
{
    for e in ring {
        path.push(edges[*e as usize].arc)?;
    }
    Ok(())
}
