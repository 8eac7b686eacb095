//! How rings turn at their least points.

ghost use Rattle.std.specs.Prelude.{◌≡◌, ◌+◌, ◌++◌, ◌-◌, ◌<◌, ◌≤◌, All, IfOk, OnOk, length, slice_index_or, int_lt, nat_lt, pos, if◌then◌else◌};
ghost use Rattle.lists.specs.Lists.{without_last};
ghost use Rattle.plane_model.specs.Arcs.{points_of};
ghost use Rattle.plane_model.specs.Rings.{turn_at_least};
ghost use Rattle.ring_trace.specs.Keys.{arcs_along, edges_between};
ghost use Rattle.ring_trace.specs.Rings.{IsSpan, IsWhole};
ghost use Rattle.ring_trace.specs.Turns.{IsFirstLeast, closed, points_along, round_of};

use crate::pairing::Edge;
use crate::simple_rings::{RingSpan, Rings};
use arc_table::ArcTable;
use grid_base::{Pt, SignedArc, is_before, turn};
use std::alloc::{AllocError, Global};

/// The points of a ring from one of its edges on, and the first of them again.
pub fn points_round(
    alloc: Global,
    t: &ArcTable,
    edges: &[Edge],
    rings: &Rings,
    span: RingSpan,
    first: usize,
) -> Result<Vec<Pt>, AllocError>
    requires rings { IsWhole (length edges.now) rings.now }
    requires span { IsSpan (length rings.now.edges.items) span }
    requires begins { span.begin ≤ first }
    requires ends { first < span.end }
    requires there { All (λ e. e.arc.arc < length t.now) edges.now }
    ensures exact { IfOk result (λ v. v.items ≡ round_of t.now (arcs_along edges.now (edges_between rings.now span.begin first span.end))) }
{
    let mut points = Vec::new(alloc);
    push_round(&mut points, t, edges, &rings.edges[first..span.end])?;
    push_round(&mut points, t, edges, &rings.edges[span.begin..first])?;
    close(&mut points)?;
    Ok(points)
}

// Pushes the points along edges, but where the last ends.
fn push_round(
    points: &mut Vec<Pt>,
    t: &ArcTable,
    edges: &[Edge],
    ring: &[u32],
) -> Result<(), AllocError>
    requires there { All (λ e. e < length edges.now) ring.now }
    requires arcs { All (λ e. e.arc.arc < length t.now) edges.now }
    ensures exact { OnOk result (points.new.items ≡ points.old.items ++ points_along t.now (arcs_along edges.now ring.now)) }
{
    for e in ring {
        push_points(points, t, edges[*e as usize].arc)?;
    }
    Ok(())
}

// Pushes the points of a signed arc but the last.
fn push_points(points: &mut Vec<Pt>, t: &ArcTable, arc: SignedArc) -> Result<(), AllocError>
    requires { arc.arc < length t.now }
    ensures exact { OnOk result (points.new.items ≡ points.old.items ++ without_last (points_of t.now arc)) }
{
    let along = t.points_of(arc.id());
    points.reserve(along.len())?;
    for k in 0..along.len() - 1 {
        points.push(along[place_along(arc, along.len(), k)])?;
    }
    Ok(())
}

// The place, among the `count` points of an arc, of the point that comes after `k` others on the signed arc.
fn place_along(arc: SignedArc, count: usize, k: usize) -> usize
    requires { k < count }
    ensures exact { result ≡ (if arc.is_reversed then count - 1 - k else k) }
{
    if arc.is_reversed() { count - 1 - k } else { k }
}

// Pushes the first of the points.
fn close(points: &mut Vec<Pt>) -> Result<(), AllocError>
    ensures ok { OnOk result (points.new.items ≡ closed points.old.items) }
{
    if points.len() > 0 {
        let first = points[0];
        points.push(first)?;
    }
    Ok(())
}

/// Whether a closed path turns left at its least point.
pub fn turns_left(points: &[Pt]) -> bool
    ensures exact { result ≡ int_lt (pos 0) (turn_at_least points.now) }
{
    if points.len() < 2 {
        return false;
    }
    let least = least_point(points);
    0 < turn(points[least - 1], points[least], point_after(points, least))
}

// The point after a place, where the last of a closed path is the first too.
fn point_after(points: &[Pt], place: usize) -> Pt
    requires many { 1 < length points.now }
    requires place { place < length points.now }
    ensures exact { (d : Pt) → result ≡ slice_index_or points.now (if nat_lt (place + 1) (length points.now) then place + 1 else 1) d }
{
    if place + 1 < points.len() {
        points[place + 1]
    } else {
        points[1]
    }
}

// The first place of the least of some points but the first.
fn least_point(points: &[Pt]) -> usize
    requires { 1 < length points.now }
    ensures exact { IsFirstLeast points.now (length points.now) result }
{
    let mut least = 1;
    for k in 2..points.len() {
        if is_before(points[k], points[least]) {
            least = k;
        }
    }
    least
}
