ghost use Rattle.std.specs.Prelude.{◌≡◌, [], ◌++◌, ◌<◌, ◌≤◌, ◌^◌, ℕ, All, IfOk, OnOk, drop, false, length, reverse, slice_index, slice_index_or, slice_set, take, true};
ghost use Rattle.std.specs.List.Sorted.{IsPermutation};
ghost use Rattle.ring_trace.specs.Rings.{AreTiled, HasEachOnce, IsKept, IsSpan, IsWalk, IsWhole, StaysGone};
ghost use Rattle.ring_trace.specs.Pairing.{AreApart, AreBalanced, AreByStart};
ghost use Rattle.ring_trace.specs.Ways.{AreRingsByCorners, AreSimpleRings, AreMarked, AreRingsByVertices, IsAtRest, IsSimpleRing, IsMarkedWay, IsWay, start_in, stop_in};

use crate::pairing::{Edge, onward_of, vertices_of};
use arc_table::ArcTable;
use std::alloc::{AllocError, Global};

/// A ring: where its edges begin and end in a list of edges.
#[derive(Clone, Copy)]
pub struct RingSpan {
    pub begin: usize,
    pub end: usize,
}

/// Rings that pass each of their vertices once, as the places of their edges, one ring after the other.
#[derive(Drop)]
pub struct Rings {
    pub edges: Vec<u32>,
    pub spans: Vec<RingSpan>,
}

/// What is known on the way along closed runs of edges.
#[derive(Drop)]
struct Walk {
    // the edge after each edge, and the vertex where each starts
    onward: Vec<u32>,
    vertices: Vec<u32>,
    // the edges that have been gone along
    is_gone: Vec<bool>,
    // the edges on the way that no ring has been cut from, and the vertices where they start
    way: Vec<u32>,
    is_passed: Vec<bool>,
}

/// The rings of edges: closed runs, cut where they come to a vertex again.
pub fn rings_of(alloc: Global, t: &ArcTable, edges: &[Edge]) -> Result<Rings, AllocError>
    requires few { length edges.now < 2 ^ 32 }
    requires there { All (λ e. e.arc.arc < length t.now) edges.now }
    ensures whole { IfOk result (IsWhole (length edges.now)) }
    ensures once { IfOk result (HasEachOnce edges.now) }
    ensures tiled { IfOk result (λ rings. AreTiled 0 rings.spans.items (length rings.edges.items)) }
    ensures simple { AreBalanced t.now edges.now → AreByStart edges.now → IfOk result (AreRingsByCorners t.now edges.now) }
{
    let mut walk = Walk {
        onward: onward_of(alloc, t, edges)?,
        vertices: vertices_of(alloc, edges)?,
        is_gone: vec![in alloc; false; edges.len()]?,
        way: Vec::new(alloc),
        is_passed: vec![in alloc; false; edges.len()]?,
    };
    let mut rings = Rings {
        edges: Vec::with_capacity(alloc, edges.len())?,
        spans: Vec::new(alloc),
    };
    for e in 0..edges.len() {
        if !walk.is_gone[e] {
            go_round(&mut walk, &mut rings, e)?;
        }
    }
    Ok(rings)
}

// Goes along the closed run of an edge, and takes what is left of it for a ring.
fn go_round(walk: &mut Walk, rings: &mut Rings, first: usize) -> Result<(), AllocError>
    requires walk { IsWalk walk.old }
    requires rings { IsWhole (length walk.old.onward.items) rings.old }
    requires kept { IsKept walk.old rings.old }
    requires first { first < length walk.old.onward.items }
    requires new { slice_index_or walk.old.is_gone.items first false ≡ false }
    requires apart { AreApart walk.old.onward.items }
    requires rest { IsAtRest walk.old rings.old }
    ensures walk { OnOk result (IsWalk walk.new) }
    ensures count { OnOk result (length walk.new.onward.items ≡ length walk.old.onward.items) }
    ensures rings { OnOk result (IsWhole (length walk.old.onward.items) rings.new) }
    ensures kept { OnOk result (IsKept walk.new rings.new) }
    ensures gone { OnOk result (slice_index_or walk.new.is_gone.items first false ≡ true) }
    ensures stays { OnOk result (StaysGone walk.old.is_gone.items walk.new.is_gone.items) }
    ensures onward { OnOk result (walk.new.onward.items ≡ walk.old.onward.items) }
    ensures vertices { OnOk result (walk.new.vertices.items ≡ walk.old.vertices.items) }
    ensures rest { OnOk result (IsAtRest walk.new rings.new) }
{
    let mut at = go_along(walk, rings, first)?;
    while !walk.is_gone[at] {
        at = go_along(walk, rings, at)?;
    }
    close(walk, rings)
}

// Goes along one edge, and answers the next; cuts a ring first, where the edge starts at a vertex on the way.
fn go_along(walk: &mut Walk, rings: &mut Rings, edge: usize) -> Result<usize, AllocError>
    requires walk { IsWalk walk.old }
    requires rings { IsWhole (length walk.old.onward.items) rings.old }
    requires kept { IsKept walk.old rings.old }
    requires edge { edge < length walk.old.onward.items }
    requires new { slice_index_or walk.old.is_gone.items edge false ≡ false }
    ensures walk { OnOk result (IsWalk walk.new) }
    ensures count { OnOk result (length walk.new.onward.items ≡ length walk.old.onward.items) }
    ensures rings { OnOk result (IsWhole (length walk.old.onward.items) rings.new) }
    ensures kept { OnOk result (IsKept walk.new rings.new) }
    ensures gone { OnOk result (walk.new.is_gone.items ≡ slice_set walk.old.is_gone.items edge true) }
    ensures next { IfOk result (λ next. next < length walk.old.onward.items) }
    ensures onward { OnOk result (walk.new.onward.items ≡ walk.old.onward.items) }
    ensures vertices { OnOk result (walk.new.vertices.items ≡ walk.old.vertices.items) }
    ensures leads { (from : ℕ) → IsMarkedWay walk.old from (start_in walk.old.vertices.items edge) →
        OnOk result (IsMarkedWay walk.new from (stop_in walk.old.onward.items walk.old.vertices.items edge)) }
    ensures simple { (from : ℕ) → IsMarkedWay walk.old from (start_in walk.old.vertices.items edge) → AreRingsByVertices walk.old rings.old → OnOk result (AreRingsByVertices walk.old rings.new) }
    ensures follows { IfOk result (λ next. next ≡ slice_index walk.old.onward.items edge) }
{
    let vertex = walk.vertices[edge] as usize;
    if walk.is_passed[vertex] {
        cut_ring(walk, rings, vertex)?;
    }
    walk.is_passed[vertex] = true;
    walk.is_gone[edge] = true;
    walk.way.push(edge as u32)?;
    Ok(walk.onward[edge] as usize)
}

// Takes the way from a vertex on for a ring.
fn cut_ring(walk: &mut Walk, rings: &mut Rings, vertex: usize) -> Result<(), AllocError>
    requires walk { IsWalk walk.old }
    requires rings { IsWhole (length walk.old.onward.items) rings.old }
    requires kept { IsKept walk.old rings.old }
    ensures walk { OnOk result (IsWalk walk.new) }
    ensures count { OnOk result (length walk.new.onward.items ≡ length walk.old.onward.items) }
    ensures rings { OnOk result (IsWhole (length walk.old.onward.items) rings.new) }
    ensures kept { OnOk result (IsKept walk.new rings.new) }
    ensures gone { OnOk result (walk.new.is_gone.items ≡ walk.old.is_gone.items) }
    ensures onward { OnOk result (walk.new.onward.items ≡ walk.old.onward.items) }
    ensures vertices { OnOk result (walk.new.vertices.items ≡ walk.old.vertices.items) }
    ensures marked { AreMarked walk.old.vertices.items walk.old.is_passed.items walk.old.way.items →
        OnOk result (AreMarked walk.old.vertices.items walk.new.is_passed.items walk.new.way.items) }
    ensures freed { AreMarked walk.old.vertices.items walk.old.is_passed.items walk.old.way.items → OnOk result (slice_index_or walk.new.is_passed.items vertex false ≡ false) }
    ensures leads { (from : ℕ) → IsMarkedWay walk.old from vertex → slice_index_or walk.old.is_passed.items vertex false ≡ true →
        OnOk result (IsWay (start_in walk.old.vertices.items) (stop_in walk.old.onward.items walk.old.vertices.items) from walk.new.way.items vertex) }
    ensures simple { (from : ℕ) → IsMarkedWay walk.old from vertex → slice_index_or walk.old.is_passed.items vertex false ≡ true → AreRingsByVertices walk.old rings.old →
        OnOk result (AreRingsByVertices walk.old rings.new) }
{
    let begin = rings.edges.len();
    while let Some(edge) = walk.way.pop() {
        let start = walk.vertices[edge as usize] as usize;
        rings.edges.push(edge)?;
        walk.is_passed[start] = false;
        if start == vertex {
            break;
        }
    }
    add_ring(rings, begin)
}

// Takes the whole way for a ring.
fn close(walk: &mut Walk, rings: &mut Rings) -> Result<(), AllocError>
    requires walk { IsWalk walk.old }
    requires rings { IsWhole (length walk.old.onward.items) rings.old }
    requires kept { IsKept walk.old rings.old }
    ensures walk { OnOk result (IsWalk walk.new) }
    ensures count { OnOk result (length walk.new.onward.items ≡ length walk.old.onward.items) }
    ensures rings { OnOk result (IsWhole (length walk.old.onward.items) rings.new) }
    ensures kept { OnOk result (IsKept walk.new rings.new) }
    ensures gone { OnOk result (walk.new.is_gone.items ≡ walk.old.is_gone.items) }
    ensures done { OnOk result (walk.new.way.items ≡ []) }
    ensures onward { OnOk result (walk.new.onward.items ≡ walk.old.onward.items) }
    ensures vertices { OnOk result (walk.new.vertices.items ≡ walk.old.vertices.items) }
    ensures marked { AreMarked walk.old.vertices.items walk.old.is_passed.items walk.old.way.items →
        OnOk result (AreMarked walk.old.vertices.items walk.new.is_passed.items walk.new.way.items) }
    ensures simple { (from : ℕ) → IsMarkedWay walk.old from from → AreRingsByVertices walk.old rings.old →
        OnOk result (AreRingsByVertices walk.old rings.new) }
{
    let begin = rings.edges.len();
    while let Some(edge) = walk.way.pop() {
        let start = walk.vertices[edge as usize] as usize;
        rings.edges.push(edge)?;
        walk.is_passed[start] = false;
    }
    add_ring(rings, begin)
}

// Makes a ring of the edges from a place on, which stand from the last to the first.
fn add_ring(rings: &mut Rings, begin: usize) -> Result<(), AllocError>
    requires place { begin ≤ length rings.old.edges.items }
    requires tiled { AreTiled 0 rings.old.spans.items begin }
    requires spans { All (IsSpan (length rings.old.edges.items)) rings.old.spans.items }
    ensures edges { OnOk result (IsPermutation rings.old.edges.items rings.new.edges.items) }
    ensures tiled { OnOk result (AreTiled 0 rings.new.spans.items (length rings.new.edges.items)) }
    ensures spans { OnOk result (All (IsSpan (length rings.new.edges.items)) rings.new.spans.items) }
    ensures simple { (start stop : ℕ → ℕ) → AreSimpleRings start stop (take begin rings.old.edges.items) rings.old.spans.items →
        IsSimpleRing start stop (reverse (drop begin rings.old.edges.items)) → OnOk result (AreSimpleRings start stop rings.new.edges.items rings.new.spans.items) }
{
    let end = rings.edges.len();
    turn_back(&mut rings.edges, begin);
    rings.spans.push(RingSpan { begin, end })?;
    Ok(())
}

// Turns the order of the edges from a place on.
fn turn_back(edges: &mut Vec<u32>, begin: usize)
    requires { begin ≤ length edges.old.items }
    ensures moved { IsPermutation edges.old.items edges.new.items }
    ensures exact { edges.new.items ≡ take begin edges.old.items ++ reverse (drop begin edges.old.items) }
{
    edges[begin..].reverse();
}
