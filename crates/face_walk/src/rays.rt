ghost use Rattle.std.specs.Prelude.{◌≡◌, ◌+◌, ◌*◌, ◌<◌, ◌≤◌, All, IfSome, List, ℕ, length, true};
ghost use Rattle.link_search.specs.PlaceNumbers.{HasPlaces};
ghost use Rattle.link_search.specs.Rows.{AreLowest, IsMinimum, start_at, starts_row};
ghost use Rattle.face_walk.specs.Joining.{made_one};
ghost use Rattle.face_walk.specs.Joins.{joined_by};
ghost use Rattle.face_walk.specs.Rays.{AreRays, IsRay, place_met};

use crate::joining::Joining;
use crate::places::{OUTSIDE, place_of};
use link_search::{ArcLink, LinkSearch, first_round};

/// Joins along the ray from each vertex that all its links leave: the right of the first of them with the left of the
/// topmost link below the vertex, or with the outside. `lowest` says of each link whether it is the first of these.
pub fn join_rays(joining: &mut Joining, search: &LinkSearch, lowest: &[bool])
    requires few { length joining.old ≤ 4000000001 }
    requires there { All (λ l. HasPlaces (length joining.old) l.along) search.now.links.items }
    requires each { length lowest.now ≡ length search.now.links.items }
    requires lowest { AreLowest search.now.links.items lowest.now }
    ensures count { length joining.new ≡ length joining.old }
    ensures exact { (rays : List (ℕ × ℕ)) × AreRays search.now.links.items rays × (joining.new ≡ joined_by rays joining.old) }
{
    for i in 0..search.links.len() {
        if lowest[i] {
            join_ray(joining, search, i);
        }
    }
}

// Joins along the ray from the vertex that the link at `i` and those after it leave.
fn join_ray(joining: &mut Joining, search: &LinkSearch, i: usize)
    requires few { length joining.old ≤ 4000000001 }
    requires there { All (λ l. HasPlaces (length joining.old) l.along) search.now.links.items }
    requires link { i < length search.now.links.items }
    requires row { starts_row search.now.links.items i ≡ true }
    requires vertex { IsMinimum search.now.links.items (start_at search.now.links.items i) }
    ensures count { length joining.new ≡ length joining.old }
    ensures exact { (ray : ℕ × ℕ) × IsRay search.now.links.items (start_at search.now.links.items i) ray × (joining.new ≡ made_one ray.0 ray.1 joining.old) }
{
    let first = first_round(&search.links, i);
    let met = search.topmost_below(first.link.low());
    joining.join(place_met(met), place_of(first.along.flip()));
}

// The place that a ray ends at.
fn place_met(met: Option<ArcLink>) -> u32
    requires few { IfSome met (λ l. l.along.arc < 2000000000) }
    ensures exact { result ≡ place_met met }
    ensures within { (m : ℕ) → 0 < m → IfSome met (λ l. HasPlaces m l.along) → result < m }
{
    match met {
        Some(l) => place_of(l.along),
        None => OUTSIDE,
    }
}
