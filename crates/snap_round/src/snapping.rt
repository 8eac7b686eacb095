ghost use Rattle.std.specs.Prelude.{◌≡◌, ◌≤◌, true, IfOk, IfErr, IfSome};
ghost use Rattle.lists.specs.Lists.{ascending};
ghost use Rattle.plane_model.specs.Points.{is_before};
ghost use Rattle.plane_model.specs.Hot.{hot_points};
ghost use Rattle.plane_model.specs.Snapped.{snapped, links_of, link_count};
ghost use Rattle.grid_base.specs.Drawn.{HasPaths};
ghost use Rattle.hot_pixels.specs.Spots.{spots_of};
ghost use Rattle.hot_pixels.specs.Edges.{AreEdgesOf};
ghost use Rattle.snap_round.specs.Paths.{without_points};
ghost use Rattle.snap_round.specs.Snapping.{FaultMeans, HasPointsAlone, most_links};

use crate::counting::count_links;
use crate::fault::SnapFault;
use crate::joining::{PathStop, Progress};
use crate::links::links_in_order;
use crate::paths::{add_point_features, snapped_paths};
use crate::vertex_count::count_vertices;
use grid_base::{Drawing, LinkList, PtList, Snapped};
use hot_pixels::{HotEdges, HotSet, spots_of};
use std::alloc::{AllocError, Global};

// The most links that snapped paths may have together, repeats counted.
const MAX_LINKS: u64 = 8_000_000;

// How many links the snapped paths will have together, repeats counted.
fn count_of(alloc: Global, hot: HotEdges, d: &Drawing) -> Result<u64, AllocError>
    requires paths { HasPaths d.now }
    requires hot { hot.points ≡ ascending is_before (hot_points d.now) }
    ensures exact { IfOk result (λ count. count ≡ link_count (snapped d.now)) }
{
    let set = HotSet::over(alloc, hot)?;
    let spots = spots_of(alloc, d)?;
    count_links(&set, &spots)
}

// The paths, where they have no more than `most` vertices, so that they have no more links, repeats counted.
fn few_paths(paths: Drawing, most: u64) -> Result<Option<Drawing>, AllocError>
    ensures kept { IfOk result (λ found. IfSome found (λ few. few ≡ paths)) }
    ensures few { IfOk result (λ found. IfSome found (λ few. link_count paths ≤ most)) }
{
    if count_vertices(&paths)? > most {
        return Ok(None);
    }
    Ok(Some(paths))
}

// The snapped paths; `None` where they may have more than `most` links, repeats counted.
fn paths_within(
    alloc: Global,
    hot: &HotEdges,
    d: &Drawing,
    most: u64,
) -> Result<Option<Drawing>, AllocError>
    requires paths { HasPaths d.now }
    requires hot { hot.now.points ≡ ascending is_before (hot_points d.now) }
    ensures exact { IfOk result (λ found. IfSome found (λ paths. paths ≡ without_points (snapped d.now))) }
    ensures few { IfOk result (λ found. IfSome found (λ paths. link_count (snapped d.now) ≤ most)) }
{
    let mut progress = Progress {
        room: most,
        place: 0,
        joined: PtList::new(alloc),
    };
    match snapped_paths(alloc, &mut progress, hot, d) {
        Ok(paths) => few_paths(paths, most),
        Err(PathStop::Full) => Ok(None),
        Err(PathStop::Memory) => Err(AllocError),
    }
}

// The links of the snapped paths.
fn links_along(alloc: Global, hot: HotEdges, d: &Drawing) -> Result<LinkList, AllocError>
    requires hot { hot.points ≡ ascending is_before (hot_points d.now) }
    requires edges { AreEdgesOf (spots_of d.now) hot.edges }
    ensures exact { IfOk result (λ links. links ≡ links_of (snapped d.now)) }
{
    let found = hot.links(alloc)?;
    drop(hot);
    links_in_order(found)
}

// The snapped drawing of these paths, and of the points of the drawing: they stay.
fn with_links(
    alloc: Global,
    hot: HotEdges,
    paths: Drawing,
    d: &Drawing,
) -> Result<Snapped, AllocError>
    requires hot { hot.points ≡ ascending is_before (hot_points d.now) }
    requires edges { AreEdgesOf (spots_of d.now) hot.edges }
    requires paths { paths ≡ without_points (snapped d.now) }
    ensures exact { IfOk result (λ s. s ≡ snapped d.now) }
{
    let links = links_along(alloc, hot, d)?;
    let mut all = paths;
    add_point_features(&mut all, d)?;
    Ok(Snapped::new(all, links))
}

// The snapped drawing, however many links it has.
fn snap_all(alloc: Global, d: &Drawing) -> Result<Snapped, AllocError>
    requires paths { HasPaths d.now }
    ensures exact { IfOk result (λ s. s ≡ snapped d.now) }
{
    let hot = HotEdges::of(alloc, d)?;
    match paths_within(alloc, &hot, d, u64::MAX)? {
        Some(paths) => with_links(alloc, hot, paths, d),
        None => Err(AllocError),
    }
}

/// The snapped drawing: each path by the chains of its segments, joined end to end, and each point as it is.
///
/// `TooDense` comes exactly where the snapped paths have more than 8,000,000 links together, repeats counted, and says
/// how many; it takes no more memory than the hot points and paths of that many links. `Memory` may come at any size.
/// Cost: with n segments, m crossings and l links, sorting n + m and l, and a search among the hot points for each
/// segment.
pub fn snap(alloc: Global, d: &Drawing) -> Result<Snapped, SnapFault>
    ensures exact { IfOk result (λ s. s ≡ snapped d.now) }
    ensures within { IfOk result (λ s. link_count (snapped d.now) ≤ most_links) }
    ensures fault { IfErr result (FaultMeans d.now) }
{
    d.keeps_paths();
    let hot = HotEdges::of(alloc, d)?;
    if let Some(paths) = paths_within(alloc, &hot, d, MAX_LINKS)? {
        return Ok(with_links(alloc, hot, paths, d)?);
    }
    let count = count_of(alloc, hot, d)?;
    if count > MAX_LINKS {
        return Err(SnapFault::TooDense { count });
    }
    Ok(snap_all(alloc, d)?)
}

/// The same of a drawing that is let go. One that has points alone becomes the snapped one, without a search or a copy.
pub fn into_snapped(alloc: Global, d: Drawing) -> Result<Snapped, SnapFault>
    ensures exact { IfOk result (λ s. s ≡ snapped d) }
    ensures within { IfOk result (λ s. link_count (snapped d) ≤ most_links) }
    ensures fault { IfErr result (FaultMeans d) }
{
    if has_points_alone(&d) {
        return Ok(as_snapped(alloc, d));
    }
    snap(alloc, &d)
}

// Whether a drawing has neither polygon features nor line features nor boxes.
fn has_points_alone(d: &Drawing) -> bool
    ensures yes { result ≡ true → HasPointsAlone d.now }
{
    d.polygon_count() == 0 && d.line_count() == 0 && d.box_count() == 0
}

// A drawing that has points alone: they stay, and there are no links.
fn as_snapped(alloc: Global, d: Drawing) -> Snapped
    requires alone { HasPointsAlone d }
    ensures exact { result ≡ snapped d }
    ensures few { link_count (snapped d) ≡ 0 }
{
    let links = LinkList::new(alloc);
    Snapped::new(d, links)
}
