ghost use Rattle.std.specs.Prelude.{◌≡◌, ◌<◌, ◌≤◌, ◌^◌, ℕ, All, IfOk, List, false, length, map, true};
ghost use Rattle.std.specs.List.{range_with_len};
ghost use Rattle.std.specs.List.Sorted.{IsPermutation, IsSorted, IsStrictlyIncreasing};
ghost use Rattle.face_walk.specs.Places.{FaceTable, IsBuiltOf};
ghost use Rattle.face_sets.specs.Boundary.{sides_of};
ghost use Rattle.face_sets.specs.Joined.{AreJoinedBy};
ghost use Rattle.ring_trace.specs.Pairing.{
  AreApart,
  AreBalanced,
  AreByStart,
  AreEdgesOf,
  AreVertices,
  LeadOn,
  corner_cmp,
  end_corner,
  same_corner,
  start_corner,
  stop_corner,
};
ghost use Rattle.ring_trace.specs.Rings.{edge_at};

use arc_table::ArcTable;
use face_sets::{Parts, Side};
use grid_base::{Pt, SignedArc, is_same};
use std::alloc::{AllocError, Global};

/// A signed arc of the boundary of a part, and where it starts. They are ordered by the part, then by the start.
#[derive(Clone, Copy, PartialEq, Eq, PartialOrd, Ord)]
pub struct Edge {
    pub part: u32,
    pub start: Pt,
    pub arc: SignedArc,
}

/// The end of an edge, with the place of the edge. They are ordered by the part, then by the end.
#[derive(Clone, Copy, PartialEq, Eq, PartialOrd, Ord)]
struct EdgeEnd {
    part: u32,
    stop: Pt,
    edge: u32,
}

/// The edges of all parts, in order.
pub fn edges_of(
    alloc: Global,
    t: &ArcTable,
    parts: &Parts,
    sides: &[Side],
) -> Result<Vec<Edge>, AllocError>
    requires there { All (λ s. s.arc.arc < length t.now) sides.now }
    requires places { All (λ s. s.place < length parts.now.joining) sides.now }
    ensures each { IfOk result (λ v. length v.items ≡ length sides.now) }
    ensures there { IfOk result (λ v. All (λ e. e.arc.arc < length t.now) v.items) }
    ensures arcs { IfOk result (λ v. IsPermutation (map (λ s. s.arc) sides.now) (map (λ e. e.arc) v.items)) }
    ensures made { IfOk result (λ v. AreEdgesOf t.now parts.now.joining parts.now.numbers.items sides.now v.items) }
    ensures in_order { IfOk result (λ v. AreByStart v.items) }
    ensures balanced { (faces : FaceTable) (set : List ℕ) → IsBuiltOf t.now faces → IsStrictlyIncreasing set → AreJoinedBy faces set parts.now.joining →
        sides.now ≡ sides_of faces.places (length t.now) set → IfOk result (λ v. AreBalanced t.now v.items) }
{
    let mut edges = Vec::with_capacity(alloc, sides.len())?;
    for side in sides {
        edges.push(Edge {
            part: parts.number_of(side.place),
            start: t.start_of(side.arc),
            arc: side.arc,
        })?;
    }
    edges.sort_unstable();
    Ok(edges)
}

/// For each edge the place of one that starts where it ends, each edge once.
///
/// In a boundary as many edges of a part end at a vertex as start there. So the ends, in order, stand by the starts.
pub fn onward_of(alloc: Global, t: &ArcTable, edges: &[Edge]) -> Result<Vec<u32>, AllocError>
    requires few { length edges.now < 2 ^ 32 }
    requires there { All (λ e. e.arc.arc < length t.now) edges.now }
    ensures each { IfOk result (λ v. length v.items ≡ length edges.now) }
    ensures there { IfOk result (λ v. All (λ k. k < length edges.now) v.items) }
    ensures apart { IfOk result (λ v. AreApart v.items) }
    ensures leads { AreBalanced t.now edges.now → AreByStart edges.now → IfOk result (λ v. LeadOn t.now edges.now v.items) }
{
    let ends = ends_of(alloc, t, edges)?;
    let mut onward = vec![in alloc; 0u32; edges.len()]?;
    for k in 0..ends.len() {
        onward[ends[k].edge as usize] = k as u32;
    }
    Ok(onward)
}

fn ends_of(alloc: Global, t: &ArcTable, edges: &[Edge]) -> Result<Vec<EdgeEnd>, AllocError>
    requires few { length edges.now < 2 ^ 32 }
    requires there { All (λ e. e.arc.arc < length t.now) edges.now }
    ensures each { IfOk result (λ v. length v.items ≡ length edges.now) }
    ensures there { IfOk result (λ v. All (λ e. e.edge < length edges.now) v.items) }
    ensures places { IfOk result (λ v. IsPermutation (range_with_len 0 (length edges.now)) (map (λ e. e.edge) v.items)) }
    ensures stops { IfOk result (λ v. All (λ e. end_corner e ≡ stop_corner t.now (edge_at edges.now e.edge)) v.items) }
    ensures corners { IfOk result (λ v. IsPermutation (map (stop_corner t.now) edges.now) (map end_corner v.items)) }
    ensures in_order { IfOk result (λ v. IsSorted corner_cmp (map end_corner v.items)) }
{
    let mut ends = Vec::with_capacity(alloc, edges.len())?;
    for k in 0..edges.len() {
        ends.push(EdgeEnd {
            part: edges[k].part,
            stop: t.start_of(edges[k].arc.flip()),
            edge: k as u32,
        })?;
    }
    ends.sort_unstable();
    Ok(ends)
}

/// For each edge the number of the vertex where it starts: the place of the first edge of its part that starts there.
pub fn vertices_of(alloc: Global, edges: &[Edge]) -> Result<Vec<u32>, AllocError>
    requires few { length edges.now < 2 ^ 32 }
    ensures each { IfOk result (λ v. length v.items ≡ length edges.now) }
    ensures there { IfOk result (λ v. All (λ k. k < length edges.now) v.items) }
    ensures exact { AreByStart edges.now → IfOk result (λ v. AreVertices edges.now v.items) }
{
    let mut vertices = Vec::with_capacity(alloc, edges.len())?;
    let mut first = 0;
    for k in 0..edges.len() {
        let vertex = vertex_of(edges, first, k);
        vertices.push(vertex as u32)?;
        first = vertex;
    }
    Ok(vertices)
}

// The place of the first edge that starts where the one at place `k` does, where that is at `first` or at `k`.
fn vertex_of(edges: &[Edge], first: usize, k: usize) -> usize
    requires first { first ≤ k }
    requires place { k < length edges.now }
    ensures within { result ≤ k }
    ensures on { same_corner (start_corner (edge_at edges.now k)) (start_corner (edge_at edges.now first)) ≡ true → result ≡ first }
    ensures anew { same_corner (start_corner (edge_at edges.now k)) (start_corner (edge_at edges.now first)) ≡ false → result ≡ k }
{
    if start_together(edges, k, first) {
        first
    } else {
        k
    }
}

// Whether two edges of one part start at one point.
fn start_together(edges: &[Edge], j: usize, k: usize) -> bool
    requires first { j < length edges.now }
    requires second { k < length edges.now }
    ensures exact { result ≡ same_corner (start_corner (edge_at edges.now j)) (start_corner (edge_at edges.now k)) }
{
    is_same_start(edges[j], edges[k])
}

fn is_same_start(a: Edge, b: Edge) -> bool
    ensures exact { result ≡ same_corner (start_corner a) (start_corner b) }
{
    a.part == b.part && is_same(a.start, b.start)
}
