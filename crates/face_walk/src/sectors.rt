ghost use Rattle.std.specs.Prelude.{◌≡◌, ◌+◌, ◌*◌, ◌<◌, ◌≤◌, All, List, length, ℕ};
ghost use Rattle.plane_model.specs.Points.{GridPoint};
ghost use Rattle.arc_table.specs.Rows.{AreRows, IsRow};
ghost use Rattle.face_walk.specs.Joining.{made_one};
ghost use Rattle.face_walk.specs.Joins.{joined_by};
ghost use Rattle.face_walk.specs.Places.{HasPlaces, place_of};
ghost use Rattle.face_walk.specs.Sectors.{arc_at, place_right_of, sectors, sectors_below};

use crate::joining::Joining;
use crate::places::place_of;
use grid_base::SignedArc;

/// Joins round each vertex where arcs start the places of each sector between two arcs, of all signed arcs by their
/// starts; `rows` says where the row of each vertex begins among them, and at last where all end.
pub fn join_sectors(joining: &mut Joining, rows: &[u32], outs: &[SignedArc])
    requires few { length joining.old ≤ 4000000001 }
    requires within { All (λ place. place ≤ length outs.now) rows.now }
    requires there { All (HasPlaces (length joining.old)) outs.now }
    ensures count { length joining.new ≡ length joining.old }
    ensures exact { (starts nodes : List GridPoint) → length starts ≡ length outs.now → AreRows starts nodes rows.now →
        joining.new ≡ joined_by (sectors starts outs.now) joining.old }
{
    for k in 1..rows.len() {
        join_row(joining, outs, rows[k - 1] as usize, rows[k] as usize);
    }
}

// The same of the arcs from place `first` on and before `stop`.
fn join_row(joining: &mut Joining, outs: &[SignedArc], first: usize, stop: usize)
    requires few { length joining.old ≤ 4000000001 }
    requires within { stop ≤ length outs.now }
    requires there { All (HasPlaces (length joining.old)) outs.now }
    ensures count { length joining.new ≡ length joining.old }
    ensures exact { (starts : List GridPoint) (p : GridPoint) (classes : List ℕ) → IsRow starts p first stop →
        joining.old ≡ joined_by (sectors_below starts outs.now first) classes →
        joining.new ≡ joined_by (sectors_below starts outs.now stop) classes }
{
    for i in first..stop {
        join_sector(joining, outs, i, next_in_row(first, stop, i));
    }
}

// The place after `i` round the row: after the last comes the first.
fn next_in_row(first: usize, stop: usize, i: usize) -> usize
    requires within { i < stop }
    requires from { first ≤ i }
    ensures there { result < stop }
    ensures on { i + 1 < stop → result ≡ i + 1 }
    ensures round { stop ≤ i + 1 → result ≡ first }
{
    if i + 1 < stop { i + 1 } else { first }
}

// Joins the left of the arc at place `i` with the right of the one at place `next`.
fn join_sector(joining: &mut Joining, outs: &[SignedArc], i: usize, next: usize)
    requires few { length joining.old ≤ 4000000001 }
    requires there { All (HasPlaces (length joining.old)) outs.now }
    requires first { i < length outs.now }
    requires second { next < length outs.now }
    ensures count { length joining.new ≡ length joining.old }
    ensures exact { joining.new ≡ made_one (place_of (arc_at outs.now i)) (place_right_of (arc_at outs.now next)) joining.old }
{
    joining.join(place_of(outs[i]), place_of(outs[next].flip()));
}
