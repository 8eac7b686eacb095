ghost use Rattle.std.specs.Prelude.{◌≡◌, ◌+◌, ◌*◌, ◌<◌, ◌≤◌, All, IfOk, IfSome, List, Some, ℕ, length, map, slice_get, slice_index};
ghost use Rattle.plane_model.specs.Points.{Path};
ghost use Rattle.link_search.specs.Topmost.{IsTopmostBelow};
ghost use Rattle.face_walk.specs.Areas.{area_within};
ghost use Rattle.face_walk.specs.Numbering.{AreAllBelow};
ghost use Rattle.face_walk.specs.Places.{HasArc, HasJoins, HasPlaces, IsBuiltOf, IsFaceOver, areas_of_faces, arcs_with_left, face_left_of, place_of};
ghost use Rattle.face_walk.specs.Rays.{AreLinksOf};
ghost use Rattle.face_walk.specs.Sides.{AreListed, AreSplit, arcs_from};

use crate::areas::area_of_face;
use crate::joining::Joining;
use crate::links::links_of;
use crate::numbering::{FaceSide, Numbering, arcs_of, faces_of, numbering_of, sides_of};
use crate::places::{MAX_ARCS, OUTSIDE, place_of};
use crate::rays::join_rays;
use crate::sectors::join_sectors;
use crate::side_places::starts_of;
use crate::topmost::topmost_of_arcs;
use arc_table::ArcTable;
use grid_base::{FaceId, Pt, SignedArc};
use link_search::{ArcLink, LinkSearch, lowest_of};
use std::alloc::{AllocError, Global};
use std::marker::Model;
use std::snapshot::Snapshot;

/// The faces between the arcs of a table, numbered from 0; the outer face, which is unbounded, has no area.
#[derive(Drop)]
pub struct Faces {
    // the face of each place
    places: Vec<u32>,
    count: u32,
    // the signed arcs by the faces on their left
    side_arcs: Vec<SignedArc>,
    // where those of each face begin, and at last where all end
    side_starts: Vec<u32>,
    areas: Vec<i128>,
    // the links of the arcs, which contracts alone see
    links: Snapshot<Vec<ArcLink>>,
    // the search among these; `None` once it is let go
    search: Option<LinkSearch>,
}

impl Model for Faces {
    ghost use Rattle.std.specs.Prelude.{◌≡◌, ◌<◌, ◌≤◌, All, IfSome, length};
    ghost use Rattle.face_walk.specs.Places.{FaceTable, HasPlaces};
    ghost use Rattle.face_walk.specs.Sides.{AreSplit};

    ghost Value = { FaceTable };

    ghost view = { λ f. record { places = f.places.items; count = f.count; areas = f.areas.items; links = f.links.value.items } };

    ghost invariant = { λ f. (0 < length f.places.items)
        × (length f.places.items ≤ 4000000001)
        × All (λ n. n < f.count) f.places.items
        × All (HasPlaces (length f.places.items)) f.side_arcs.items
        × (length f.areas.items ≡ f.count)
        × All (λ l. HasPlaces (length f.places.items) l.along) f.links.value.items
        × AreSplit f.places.items f.count f.side_arcs.items f.side_starts.items
        × IfSome f.search (λ s. s.links.items ≡ f.links.value.items) };
}

impl Faces {
    /// The faces of a table of arcs.
    ///
    /// Cost: n log n for n links, beside the rays of vertices that have no link close below them.
    pub fn build(alloc: Global, t: &ArcTable) -> Result<Faces, AllocError>
        ensures built { IfOk result (IsBuiltOf t.now) }
    {
        Faces::made(alloc, t, true)
    }

    /// The same without the search by which `at` finds a link, for a table in which no point is looked up: `at` takes a
    /// step for each link. The search is let go as soon as the faces are joined.
    pub fn without_search(alloc: Global, t: &ArcTable) -> Result<Faces, AllocError>
        ensures built { IfOk result (IsBuiltOf t.now) }
    {
        Faces::made(alloc, t, false)
    }

    fn made(alloc: Global, t: &ArcTable, is_searched: bool) -> Result<Faces, AllocError>
        ensures built { IfOk result (IsBuiltOf t.now) }
    {
        if t.count() > MAX_ARCS {
            return Err(AllocError);
        }
        let links = links_of(alloc, t)?;
        let lowest = lowest_of(alloc, &links, t.high_positions())?;
        let search = LinkSearch::of(alloc, links, &lowest)?;
        let mut joining = Joining::new(alloc, 2 * t.count() + 1)?;
        let (rows, outs) = t.rows();
        join_sectors(&mut joining, rows, outs);
        join_rays(&mut joining, &search, &lowest);
        let links = ArcLinks::of(search, is_searched);
        let numbering = numbering_of(alloc, &joining)?;
        drop(joining);
        let sides = sides_of(alloc, t.count(), &numbering.places)?;
        Faces::of_sides(alloc, t, links, numbering, sides)
    }

    fn of_sides(
        alloc: Global,
        t: &ArcTable,
        links: ArcLinks,
        numbering: Numbering,
        sides: Vec<FaceSide>,
    ) -> Result<Faces, AllocError>
        requires few { length t.now ≤ 2000000000 }
        requires places { length numbering.places.items ≡ 2 * length t.now + 1 }
        requires sides { All (λ s. s.arc.arc < length t.now) sides.items }
        requires listed { AreListed numbering.places.items (map (λ s. s.face) sides.items) (map (λ s. s.arc) sides.items) }
        requires joined { HasJoins t.now links.seen.value.items numbering.places.items }
        requires numbered { AreAllBelow numbering.count numbering.places.items }
        requires among { IfSome links.search (λ s. s.links.items ≡ links.seen.value.items) }
        requires all { AreLinksOf t.now links.seen.value.items }
        requires links { All (λ l. HasPlaces (length numbering.places.items) l.along) links.seen.value.items }
        ensures built { IfOk result (IsBuiltOf t.now) }
    {
        let side_faces = faces_of(alloc, &sides)?;
        let side_arcs = arcs_of(alloc, &sides)?;
        drop(sides);
        let side_starts = starts_of(alloc, &side_faces, numbering.count)?;
        drop(side_faces);
        let areas = areas_of(alloc, t, numbering.count, &side_arcs, &side_starts)?;
        let Numbering { places, count } = numbering;
        let ArcLinks {
            seen: links,
            search,
        } = links;
        Ok(Faces {
            places,
            count,
            side_arcs,
            side_starts,
            areas,
            links,
            search,
        })
    }

    /// How many faces there are.
    pub fn count(&self) -> u32
        ensures exact { result ≡ self.now.count }
    {
        self.count
    }

    /// The face outside of all arcs.
    pub fn outer(&self) -> FaceId
        ensures exact { slice_get self.now.places 0 ≡ Some result }
        ensures there { result < self.now.count }
    {
        FaceId::new(self.places[OUTSIDE as usize])
    }

    /// The face on the left of a signed arc.
    pub fn left_of(&self, a: SignedArc) -> FaceId
        requires { HasArc self.now a }
        ensures exact { slice_get self.now.places (place_of a) ≡ Some result }
        ensures there { result < self.now.count }
    {
        FaceId::new(self.places[place_of(a) as usize])
    }

    /// The signed arcs that a face is left of, in order.
    pub fn arcs_of(&self, f: FaceId) -> &[SignedArc]
        ensures exact { (arcs : List Path) → IsBuiltOf arcs self.now → result.now ≡ arcs_with_left self.now.places (length arcs) f }
        ensures left { All (λ a. face_left_of self.now.places a ≡ f) result.now }
        ensures there { All (HasArc self.now) result.now }
    {
        if f.num() >= self.count {
            return &[];
        }
        arcs_left(&self.side_arcs, &self.side_starts, f.num())
    }

    /// Twice the area of a face that isn't the outer one, in squares of the grid.
    pub fn twice_area(&self, f: FaceId) -> i128
        requires { f < self.now.count }
        ensures exact { slice_get self.now.areas f ≡ Some result }
        ensures summed { (arcs : List Path) → IsBuiltOf arcs self.now → result ≡ area_within arcs (arcs_with_left self.now.places (length arcs) f) }
    {
        self.areas[f.num() as usize]
    }

    /// The face that a point lies in which is on no link: the one left of the topmost link below it, or the outer face.
    /// Takes no memory.
    pub fn at(&self, t: &ArcTable, p: Pt) -> FaceId
        requires built { IsBuiltOf t.now self.now }
        ensures exact { IsFaceOver self.now p result }
        ensures there { result < self.now.count }
    {
        match self.topmost_below(t, p) {
            Some(l) => self.left_of(l.along),
            None => self.outer(),
        }
    }

    // The topmost link below a point.
    fn topmost_below(&self, t: &ArcTable, p: Pt) -> Option<ArcLink>
        requires built { IsBuiltOf t.now self.now }
        ensures exact { IsTopmostBelow self.now.links p result }
        ensures there { IfSome result (λ l. HasArc self.now l.along) }
    {
        match &self.search {
            Some(search) => search.topmost_below(p),
            None => topmost_of_arcs(t, p),
        }
    }
}

// The links of the arcs, which contracts alone see, and the search among them where points are looked up.
#[derive(Drop)]
struct ArcLinks {
    seen: Snapshot<Vec<ArcLink>>,
    search: Option<LinkSearch>,
}

impl ArcLinks {
    fn of(search: LinkSearch, is_searched: bool) -> ArcLinks
        ensures links { result.seen.value.items ≡ search.links.items }
        ensures among { IfSome result.search (λ s. s.links.items ≡ result.seen.value.items) }
    {
        let seen = Snapshot::of(&search.links);
        let search = if is_searched { Some(search) } else { None };
        ArcLinks { seen, search }
    }
}

// Of arcs that stand by the faces on their left those of one face.
fn arcs_left<'a>(arcs: &'a [SignedArc], starts: &[u32], f: u32) -> &'a [SignedArc]
    requires there { f + 1 < length starts.now }
    requires ordered { slice_index starts.now f ≤ slice_index starts.now (f + 1) }
    requires within { slice_index starts.now (f + 1) ≤ length arcs.now }
    ensures exact { result.now ≡ arcs_from arcs.now starts.now f }
    ensures below { (n : ℕ) → All (λ a. a.arc < n) arcs.now → All (λ a. a.arc < n) result.now }
    ensures there { (m : ℕ) → All (HasPlaces m) arcs.now → All (HasPlaces m) result.now }
{
    let start = starts[f as usize] as usize;
    let end = starts[f as usize + 1] as usize;
    &arcs[start..end]
}

// Twice the area of each face.
fn areas_of(
    alloc: Global,
    t: &ArcTable,
    count: u32,
    arcs: &[SignedArc],
    starts: &[u32],
) -> Result<Vec<i128>, AllocError>
    requires there { All (λ a. a.arc < length t.now) arcs.now }
    requires split { (places : List ℕ) × AreSplit places count arcs.now starts.now }
    ensures count { IfOk result (λ v. length v.items ≡ count) }
    ensures exact { (places : List ℕ) → AreSplit places count arcs.now starts.now → length places ≡ 2 * length t.now + 1 →
        IfOk result (λ v. v.items ≡ areas_of_faces t.now places count) }
{
    let mut areas = Vec::with_capacity(alloc, count as usize)?;
    for f in 0..count {
        areas.push(area_of_face(t, arcs_left(arcs, starts, f))?)?;
    }
    Ok(areas)
}
