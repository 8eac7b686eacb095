ghost use Rattle.std.specs.Prelude.{◌≡◌, ◌++◌, ◌<◌, All, IfOk, OnOk, map, length};
ghost use Rattle.std.specs.List.Sorted.{IsSorted};
ghost use Rattle.arc_table.specs.Lookup.{AreInner, IsFirstAt, IsLeastNamed, inner_below, lesser_of, vertex_cmp};

use grid_base::{ArcId, Pt, SignedArc, is_same};
use known_order::{gathered, order_by_key};
use span_pool::{SpanId, SpanPool};
use std::alloc::{AllocError, Global};

/// A vertex of an arc.
#[derive(Clone, Copy, PartialEq, Eq, PartialOrd, Ord)]
pub struct ArcVertex {
    pub at: Pt,
    pub arc: ArcId,
}

/// The vertices of all arcs between their ends, in order. `keys` has for each of them, one arc after another, where it
/// stands in this order, as numbers below `count`: a wrong one costs time alone.
pub fn inner_vertices(
    alloc: Global,
    arcs: &SpanPool,
    keys: &[u32],
    count: usize,
) -> Result<Vec<ArcVertex>, AllocError>
    requires long { All (λ arc. 1 < length arc) arcs.now.spans }
    ensures exact { IfOk result (λ v. AreInner arcs.now.spans v.items) }
{
    let by_vertex = order_by_key(alloc, keys, count)?;
    let listed = vertices_of(alloc, arcs, keys.len())?;
    let mut vertices = gathered(alloc, &listed, &by_vertex)?;
    // After this the sort has only to find the vertices in order.
    vertices.sort_unstable();
    Ok(vertices)
}

// The vertices of all arcs between their ends, arc by arc; room is made for `count` of them at first.
fn vertices_of(alloc: Global, arcs: &SpanPool, count: usize) -> Result<Vec<ArcVertex>, AllocError>
    requires long { All (λ arc. 1 < length arc) arcs.now.spans }
    ensures exact { IfOk result (λ v. v.items ≡ inner_below arcs.now.spans (length arcs.now.spans)) }
{
    let mut vertices = Vec::with_capacity(alloc, count)?;
    for n in 0..arcs.count() {
        let points = arcs.get(SpanId::new(n));
        let id = ArcId::new(n);
        push_vertices(&mut vertices, id, &points[1..points.len() - 1])?;
    }
    Ok(vertices)
}

fn push_vertices(vertices: &mut Vec<ArcVertex>, arc: ArcId, points: &[Pt]) -> Result<(), AllocError>
    ensures pushed { OnOk result (vertices.new.items ≡ vertices.old.items ++ map (λ p. record { at = p; arc = arc }) points.now) }
{
    for p in points {
        vertices.push(ArcVertex { at: *p, arc })?;
    }
    Ok(())
}

/// The least arc of the vertices at `p`; `None` where there is none.
pub fn least_at(vertices: &[ArcVertex], p: Pt) -> Option<ArcId>
    requires sorted { IsSorted vertex_cmp vertices.now }
    ensures exact { IsFirstAt vertices.now p result }
{
    let low = ArcVertex {
        at: p,
        arc: ArcId::new(0),
    };
    let first = vertices.partition_point(|v| *v < low);
    if first >= vertices.len() {
        return None;
    }
    let found = vertices[first];
    if is_same(found.at, p) {
        Some(found.arc)
    } else {
        None
    }
}

/// The least of the arcs that signed arcs name; `None` where there are none.
pub fn least_of(named: &[SignedArc]) -> Option<ArcId>
    ensures exact { IsLeastNamed named.now result }
{
    let mut least = None;
    for a in named {
        least = lesser_of(least, Some(a.id()));
    }
    least
}

/// The lesser of two arcs, or the only one.
pub fn lesser_of(one: Option<ArcId>, other: Option<ArcId>) -> Option<ArcId>
    ensures exact { result ≡ lesser_of one other }
{
    let Some(m) = one else {
        return other;
    };
    let Some(n) = other else {
        return one;
    };
    if n.num() < m.num() { other } else { one }
}
