ghost use Rattle.std.specs.Prelude.{◌≡◌, [], ℕ, All, None, nat_eq};
ghost use Rattle.lists.specs.Lists.{has};
ghost use Rattle.plane_model.specs.Arcs.{forward};
ghost use Rattle.arc_table.specs.Around.{IsAround};
ghost use Rattle.arc_table.specs.Lookup.{IsArcAt, IsLeastAt};
ghost use Rattle.face_walk.specs.Places.{HasArc, IsBuiltOf, IsFaceOver};
ghost use Rattle.line_ops.specs.Inside.{is_inside};
ghost use Rattle.line_ops.specs.Points.{IsInsideAt, has_some_left};

use crate::inside::is_inside;
use arc_table::ArcTable;
use face_sets::FaceSet;
use face_walk::Faces;
use grid_base::{Pt, SignedArc};

/// Whether a vertex of the drawing is inside a set: where it is on no link, by the face in which it lies, else by the
/// faces next to it. Takes no memory.
///
/// No vertex of a snapped drawing lies between the ends of a link, so a point on a link is a vertex of its arc.
pub fn point_inside(t: &ArcTable, f: &Faces, p: Pt, set: &FaceSet) -> bool
    requires built { IsBuiltOf t.now f.now }
    ensures exact { IsInsideAt t.now f.now p set.now result }
{
    let around = t.around(p);
    if around.is_empty() {
        inside_off_nodes(t, f, p, set)
    } else {
        has_left_of(f, set, around)
    }
}

// Whether the set has a side of the least arc at a vertex, or where there is none the face over it.
fn inside_off_nodes(t: &ArcTable, f: &Faces, p: Pt, set: &FaceSet) -> bool
    requires built { IsBuiltOf t.now f.now }
    requires around { IsAround t.now p [] }
    ensures on_arc { (n : ℕ) → IsLeastAt t.now p n → result ≡ is_inside f.now set.now (forward n) }
    ensures alone { IsArcAt t.now p None → (k : ℕ) × IsFaceOver f.now p k × (result ≡ has nat_eq set.now k) }
{
    match t.arc_through(p) {
        Some(id) => is_inside(f, set, SignedArc::forward(id)),
        None => set.has(f.at(t, p)),
    }
}

// Whether the set has the left of one of the arcs.
fn has_left_of(f: &Faces, set: &FaceSet, arcs: &[SignedArc]) -> bool
    requires arcs { All (HasArc f.now) arcs.now }
    ensures exact { result ≡ has_some_left f.now set.now arcs.now }
{
    for a in arcs {
        if set.has(f.left_of(*a)) {
            return true;
        }
    }
    false
}
