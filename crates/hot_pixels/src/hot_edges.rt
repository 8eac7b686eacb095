ghost use Rattle.std.specs.Prelude.{◌≡◌, ◌++◌, ◌↔◌, ◌<◌, ℕ, true, false, Option, Some, None, slice_get, slice_index_or, IfOk, OnOk, IsTrue, All, AllPairs, Contains, length, drop};
ghost use Rattle.std.specs.List.{flat_map};
ghost use Rattle.lists.specs.Lists.{ascending};
ghost use Rattle.plane_model.specs.Points.{GridPoint as Point, Segment as Piece, is_before};
ghost use Rattle.plane_model.specs.Hot.{hot_points, chain_among};
ghost use Rattle.hot_pixels.specs.Spots.{spots_of};
ghost use Rattle.hot_pixels.specs.Edges.{AreEdgesOf, HasEdgeAt};
ghost use Rattle.hot_pixels.specs.HotEnds.{HaveHotEnds, AreEndsOf, AddsEnd};
ghost use Rattle.hot_pixels.specs.Links.{path_links, links_of_chains};
ghost use Rattle.hot_pixels.specs.Near.{HoldsRun};
ghost use Rattle.hot_pixels.specs.Marking.{AreMarks, AreLookedUp};

use crate::chains::{after_first, go_rising, sorted_along};
use crate::edges::{Edges, edges_of, known_edge};
use crate::marking::{Marking, go_to_stop, marks_of, with_ends};
use crate::meetings::ends_and_back;
use crate::near::{Run, along_curve, met_among, met_near, runs_over};
use crate::pairs::{add_crossings, buckets_over};
use crate::path_links::{add_links_after, push_link};
use crate::spots::spots_of;
use grid_base::{Drawing, Link, Pt, PtList, Seg, has_point, is_same};
use known_order::move_by_coordinates;
use std::alloc::{AllocError, Global};
use std::marker::Model;

/// The hot points of a drawing, ascending, each once, and the edges of the drawing, for the chains of its own segments.
#[derive(Drop)]
pub struct HotEdges {
    points: Vec<Pt>,
    edges: Vec<Seg>,
    // for each segment of the drawing the number of its edge
    numbers: Vec<u32>,
    // the hot points that edges meet besides their ends
    marking: Marking,
    inner_runs: Vec<Run>,
}

impl Model for HotEdges {
    ghost use Rattle.std.specs.Prelude.{All, AllPairs, IsTrue};
    ghost use Rattle.plane_model.specs.Points.{GridPoint, is_before};
    ghost use Rattle.hot_pixels.specs.HotEnds.{PointsAndEdges, HaveHotEnds};
    ghost use Rattle.hot_pixels.specs.Near.{HoldsRun};
    ghost use Rattle.hot_pixels.specs.Marking.{AreMarks};

    ghost Value = { PointsAndEdges };

    ghost view = { λ s. record { points = s.points.items; edges = s.edges.items } };

    ghost invariant = { λ s. (AllPairs (λ (p q : GridPoint). IsTrue (is_before p q)) s.points.items × HaveHotEnds s.points.items s.edges.items) × (AreMarks s.points.items s.edges.items s.marking.crowded.items s.marking.lasts.items s.marking.meetings.items s.marking.inner.items × All (HoldsRun s.marking.inner.items) s.inner_runs.items) };
}

impl HotEdges {
    /// The hot points and the edges of a drawing.
    ///
    /// Only segments that are near each other are tried.
    pub fn of(alloc: Global, d: &Drawing) -> Result<HotEdges, AllocError>
        ensures points { IfOk result (λ s. s.points ≡ ascending is_before (hot_points d.now)) }
        ensures edges { IfOk result (λ s. AreEdgesOf (spots_of d.now) s.edges) }
    {
        let spots = spots_of(alloc, d)?;
        let edges = edges_of(alloc, &spots)?;
        drop(spots);
        let mut found = ends_of(alloc, &edges.segments)?;
        let buckets = buckets_over(alloc, &edges.segments)?;
        add_crossings(&mut found, alloc, &edges.segments, &buckets)?;
        let points = each_once(alloc, found)?;
        let marking = marks_of(alloc, &points, &edges.segments, &buckets)?;
        HotEdges::over(alloc, points, edges, marking)
    }

    // The set of these points and edges, with runs of the inner points.
    fn over(
        alloc: Global,
        points: Vec<Pt>,
        edges: Edges,
        marking: Marking,
    ) -> Result<HotEdges, AllocError>
        requires up { AllPairs (λ (p q : Point). IsTrue (is_before p q)) points.items }
        requires ends { HaveHotEnds points.items edges.segments.items }
        requires marked { AreMarks points.items edges.segments.items marking.crowded.items marking.lasts.items marking.meetings.items marking.inner.items }
        ensures points { IfOk result (λ s. s.points ≡ points.items) }
        ensures edges { IfOk result (λ s. s.edges ≡ edges.segments.items) }
    {
        let Marking {
            crowded,
            lasts,
            meetings,
            inner,
        } = marking;
        let inner = along_curve(alloc, &inner)?;
        let inner_runs = runs_over(alloc, &inner)?;
        let Edges { segments, numbers } = edges;
        Ok(HotEdges {
            points,
            edges: segments,
            numbers,
            marking: Marking {
                crowded,
                lasts,
                meetings,
                inner,
            },
            inner_runs,
        })
    }

    /// The hot points, ascending.
    pub fn points(&self) -> &[Pt]
        ensures exact { result.now ≡ self.now.points }
        ensures ascending { AllPairs (λ (p q : Point). IsTrue (is_before p q)) self.now.points }
    {
        &self.points
    }

    /// Whether a point is hot.
    ///
    /// Cost: a binary search.
    pub fn contains(&self, p: Pt) -> bool
        ensures exact { IsTrue result ↔ Contains self.now.points p }
    {
        is_listed(self.points(), p)
    }

    /// Goes on along the chain of a segment between hot points: appends the points after its first, which is where the
    /// segment starts.
    ///
    /// `place` is where the segment stands among the drawing's (`spots_of`): another number costs time alone.
    pub fn go_along(
        &self,
        alloc: Global,
        path: &mut PtList,
        s: &Seg,
        place: usize,
    ) -> Result<(), AllocError>
        requires start { Contains self.now.points s.now.start }
        requires stop { Contains self.now.points s.now.stop }
        ensures appended { OnOk result (path.new ≡ path.old ++ drop 1 (chain_among self.now.points s.now)) }
    {
        let Some(number) = known_edge(&self.edges, &self.numbers, place, s) else {
            return self.go_searched(alloc, path, s);
        };
        let i = number as usize;
        if is_clear_edge(&self.marking, i) {
            return go_to_stop(path, s);
        }
        self.go_gathered(alloc, path, s, i)
    }

    // The same for a segment whose edge has this number: its points were gathered, or only inner ones are tried.
    fn go_gathered(
        &self,
        alloc: Global,
        path: &mut PtList,
        s: &Seg,
        i: usize,
    ) -> Result<(), AllocError>
        requires edge { HasEdgeAt self.now.edges s.now i }
        requires start { Contains self.now.points s.now.start }
        requires stop { Contains self.now.points s.now.stop }
        ensures appended { OnOk result (path.new ≡ path.old ++ drop 1 (chain_among self.now.points s.now)) }
    {
        let found = looked_up(alloc, &self.marking, &self.inner_runs, i, s)?;
        let is_done = go_rising(alloc, path, found, s)?;
        if is_done {
            return Ok(());
        }
        self.go_searched(alloc, path, s)
    }

    // The same for any segment, by trying all points.
    fn go_searched(&self, alloc: Global, path: &mut PtList, s: &Seg) -> Result<(), AllocError>
        ensures appended { OnOk result (path.new ≡ path.old ++ drop 1 (chain_among self.now.points s.now)) }
    {
        let met = met_among(alloc, &self.points, s)?;
        let chain = sorted_along(alloc, met, s)?;
        path.append(after_first(chain.as_slice()))
    }

    /// The links along the chains of the edges, edge by edge: those that edges share stand often.
    pub fn links(&self, alloc: Global) -> Result<Vec<Link>, AllocError>
        ensures exact { IfOk result (λ links. links.items ≡ links_of_chains self.now.points self.now.edges) }
    {
        let room = self.edges.len().saturating_add(self.marking.meetings.len());
        let mut links = Vec::with_capacity(alloc, room)?;
        for i in 0..self.edges.len() {
            self.add_links(alloc, &mut links, i)?;
        }
        Ok(links)
    }

    // Adds the links along the chain of the edge with this number.
    fn add_links(&self, alloc: Global, links: &mut Vec<Link>, i: usize) -> Result<(), AllocError>
        requires there { i < length self.now.edges }
        ensures added { (d : Piece) → OnOk result (links.new.items ≡ links.old.items ++ path_links (chain_among self.now.points (slice_index_or self.now.edges i d))) }
    {
        let s = self.edges[i];
        if is_clear_edge(&self.marking, i) {
            return push_link(links, s.a(), s.b());
        }
        let mut rest = PtList::new(alloc);
        self.go_gathered(alloc, &mut rest, &s, i)?;
        add_links_after(links, s.a(), rest.as_slice())
    }
}

fn is_listed(points: &[Pt], p: Pt) -> bool
    requires { AllPairs (λ (q r : Point). IsTrue (is_before q r)) points.now }
    ensures exact { IsTrue result ↔ Contains points.now p }
{
    has_point(points, p)
}

// Whether there is a place with this number that has no mark.
fn has_no_mark(marks: &[bool], i: usize) -> bool
    ensures exact { IsTrue result ↔ slice_get marks.now i ≡ Some false }
{
    match marks.get(i) {
        Some(mark) => !*mark,
        None => false,
    }
}

fn has_no_meeting(lasts: &[Option<u32>], i: usize) -> bool
    ensures yes { result ≡ true → slice_get lasts.now i ≡ Some None }
{
    match lasts.get(i) {
        Some(last) => last.is_none(),
        None => false,
    }
}

// Whether an edge is of no crowded bucket and has no meeting.
fn is_clear_edge(marking: &Marking, i: usize) -> bool
    ensures apart { result ≡ true → slice_get marking.now.crowded.items i ≡ Some false }
    ensures alone { result ≡ true → slice_get marking.now.lasts.items i ≡ Some None }
{
    if !has_no_mark(&marking.crowded, i) {
        return false;
    }
    has_no_meeting(&marking.lasts, i)
}

fn last_of(lasts: &[Option<u32>], i: usize) -> Option<u32>
    ensures exact { (last : Option ℕ) → slice_get lasts.now i ≡ Some last → result ≡ last }
{
    match lasts.get(i) {
        Some(last) => *last,
        None => None,
    }
}

// The points that a segment whose edge has this number may meet: its ends, and those that were gathered for the edge or
// are found among the inner ones.
fn looked_up(
    alloc: Global,
    marking: &Marking,
    runs: &[Run],
    i: usize,
    s: &Seg,
) -> Result<Vec<Pt>, AllocError>
    requires { All (HoldsRun marking.now.inner.items) runs.now }
    ensures made { IfOk result (λ all. AreLookedUp marking.now.crowded.items marking.now.lasts.items marking.now.meetings.items marking.now.inner.items s.now i all.items) }
{
    if has_no_mark(&marking.crowded, i) {
        let gathered = ends_and_back(alloc, &marking.meetings, last_of(&marking.lasts, i), s)?;
        return Ok(gathered);
    }
    let met = met_near(alloc, &marking.inner, runs, s)?;
    let searched = with_ends(alloc, &met, s)?;
    Ok(searched)
}

// The points of a list in ascending order, each once.
fn each_once(alloc: Global, points: Vec<Pt>) -> Result<Vec<Pt>, AllocError>
    ensures exact { IfOk result (λ sorted. sorted.items ≡ ascending is_before points.items) }
{
    let mut sorted = points;
    move_by_coordinates(alloc, &mut sorted)?;
    // After this the sort has only to find the points in order.
    sorted.sort_unstable();
    sorted.dedup();
    sorted.shrink_to_fit();
    Ok(sorted)
}

// Adds a point, unless it is the last that was added.
fn add_end(points: &mut Vec<Pt>, last: Pt, p: Pt) -> Result<(), AllocError>
    requires last { Contains points.old.items last }
    ensures ok { OnOk result (AddsEnd p points.old.items points.new.items) }
{
    if is_same(p, last) {
        return Ok(());
    }
    points.push(p)?;
    Ok(())
}

// The ends of edges. One at which the edge before stops is not added again: most stand once.
fn ends_of(alloc: Global, edges: &[Seg]) -> Result<Vec<Pt>, AllocError>
    ensures made { IfOk result (λ points. AreEndsOf edges.now points.items) }
{
    let mut points = Vec::with_capacity(alloc, edges.len())?;
    if edges.is_empty() {
        return Ok(points);
    }
    let mut last = edges[0].a();
    points.push(last)?;
    for s in edges {
        add_end(&mut points, last, s.a())?;
        add_end(&mut points, s.a(), s.b())?;
        last = s.b();
    }
    Ok(points)
}
