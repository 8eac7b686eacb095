ghost use Rattle.std.specs.Prelude.{◌≡◌, ◌+◌, ◌<◌, ◌≤◌, All, IfOk, IfSome, length, ℕ, slice_index};
ghost use Rattle.std.specs.List.{sum_by};
ghost use Rattle.std.specs.List.Sorted.{IsNonDecreasingBy, IsSorted};
ghost use Rattle.ring_trace.specs.Rings.{IsSpan, IsWhole};
ghost use Rattle.ring_trace.specs.Keys.{IsKey, IsKeyOf, IsHoleBy, IsKeyOfSome, IsLeastFirst, along_key, along_span, arc_number, key_cmp};

use crate::pairing::Edge;
use crate::simple_rings::{RingSpan, Rings};
use crate::turns::{points_round, turns_left};
use arc_table::ArcTable;
use std::alloc::{AllocError, Global};

/// A ring of a part, with the place of its edge along the least arc. They are ordered by the part; then the exterior
/// comes first, and holes are ordered by their least arcs.
#[derive(Clone, Copy, PartialEq, Eq, PartialOrd, Ord)]
pub struct RingKey {
    pub part: u32,
    pub is_hole: bool,
    pub least: u32,
    pub begin: usize,
    pub first: usize,
    pub end: usize,
}

/// The rings of all parts, in order.
pub fn keys_of(
    alloc: Global,
    t: &ArcTable,
    edges: &[Edge],
    rings: &Rings,
) -> Result<Vec<RingKey>, AllocError>
    requires rings { IsWhole (length edges.now) rings.now }
    requires there { All (λ e. e.arc.arc < length t.now) edges.now }
    ensures there { IfOk result (λ v. All (IsKey rings.now) v.items) }
    ensures spans { IfOk result (λ v. All (IsKeyOfSome rings.now.spans.items) v.items) }
    ensures least { IfOk result (λ v. All (IsLeastFirst edges.now rings.now) v.items) }
    ensures holes { IfOk result (λ v. All (IsHoleBy t.now edges.now rings.now) v.items) }
    ensures in_order { IfOk result (λ v. IsNonDecreasingBy (λ key. key.part) v.items) }
    ensures sorted { IfOk result (λ v. IsSorted key_cmp v.items) }
    ensures once { (g : ℕ → ℕ) → IfOk result (λ v. sum_by (along_key g rings.now) v.items ≡ sum_by (along_span g rings.now) rings.now.spans.items) }
{
    let mut keys = Vec::with_capacity(alloc, rings.spans.len())?;
    for span in &rings.spans {
        if let Some(key) = key_of(alloc, t, edges, rings, *span)? {
            keys.push(key)?;
        }
    }
    keys.sort_unstable();
    Ok(keys)
}

// The key of a ring; `None` where it has no edge.
fn key_of(
    alloc: Global,
    t: &ArcTable,
    edges: &[Edge],
    rings: &Rings,
    span: RingSpan,
) -> Result<Option<RingKey>, AllocError>
    requires rings { IsWhole (length edges.now) rings.now }
    requires span { IsSpan (length rings.now.edges.items) span }
    requires there { All (λ e. e.arc.arc < length t.now) edges.now }
    ensures there { IfOk result (λ key. IfSome key (IsKey rings.now)) }
    ensures span { IfOk result (IsKeyOf span) }
    ensures least { IfOk result (λ key. IfSome key (IsLeastFirst edges.now rings.now)) }
    ensures hole { IfOk result (λ key. IfSome key (IsHoleBy t.now edges.now rings.now)) }
{
    if span.begin >= span.end {
        return Ok(None);
    }
    let first = span.begin + least_of(edges, &rings.edges[span.begin..span.end]);
    let edge = edges[rings.edges[first] as usize];
    let points = points_round(alloc, t, edges, rings, span, first)?;
    Ok(Some(RingKey {
        part: edge.part,
        is_hole: !turns_left(&points),
        least: edge.arc.id().num(),
        begin: span.begin,
        first,
        end: span.end,
    }))
}

// The place in a ring of the edge along the arc of least number.
fn least_of(edges: &[Edge], ring: &[u32]) -> usize
    requires some { 0 < length ring.now }
    requires there { All (λ e. e < length edges.now) ring.now }
    ensures within { result < length ring.now }
    ensures least { All (λ e. arc_number edges.now (slice_index ring.now result) ≤ arc_number edges.now e) ring.now }
{
    let mut least = 0;
    for k in 1..ring.len() {
        if number_along(edges, ring[k]) < number_along(edges, ring[least]) {
            least = k;
        }
    }
    least
}

// The number of the arc that an edge goes along.
fn number_along(edges: &[Edge], e: u32) -> u32
    requires { e < length edges.now }
    ensures exact { result ≡ arc_number edges.now e }
{
    edges[e as usize].arc.id().num()
}
