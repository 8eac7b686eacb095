ghost use Rattle.std.specs.Prelude.{◌≡◌, ◌<◌, ◌++◌, [], IfOk, OnOk, All, map, length};
ghost use Rattle.lists.specs.Lists.{last_of};
ghost use Rattle.plane_model.specs.Snapped.{snapped_path, snapped_by};
ghost use Rattle.snap_round.specs.Joining.{IsHotPath, IsHotRing};
ghost use Rattle.snap_round.specs.Paths.{with_rings, with_polygons, with_lines, with_points, without_points, HasHotPaths};

use crate::joining::{PathStop, Progress, joined_chains};
use grid_base::{Drawing, FeatId, Kind, PolygonRings, Pt, PtList};
use hot_pixels::HotEdges;
use std::alloc::{AllocError, Global};

// Adds the snapped rings of a polygon to the last polygon.
fn add_rings(
    alloc: Global,
    out: &mut Drawing,
    progress: &mut Progress,
    hot: &HotEdges,
    rings: &[PtList],
) -> Result<(), PathStop>
    requires polygon { 0 < length (last_of [] out.old.polygons) }
    requires hot { All (IsHotRing hot.now.points) rings.now }
    ensures ok { OnOk result (out.new ≡ with_rings (map (snapped_path hot.now.points) rings.now) out.old) }
{
    for ring in rings {
        let joined = joined_chains(alloc, progress, hot, ring.as_slice())?;
        out.add_ring(joined)?;
    }
    Ok(())
}

// Adds the snapped polygons of a feature to the last polygon feature.
fn add_polygons(
    alloc: Global,
    out: &mut Drawing,
    progress: &mut Progress,
    hot: &HotEdges,
    polygons: &[PolygonRings],
) -> Result<(), PathStop>
    requires feature { 0 < length out.old.polygons }
    requires hot { All (All (IsHotRing hot.now.points)) polygons.now }
    ensures ok { OnOk result (out.new ≡ with_polygons (map (map (snapped_path hot.now.points)) polygons.now) out.old) }
{
    for polygon in polygons {
        out.add_polygon()?;
        add_rings(alloc, out, progress, hot, polygon.as_slice())?;
    }
    Ok(())
}

fn add_polygon_features(
    alloc: Global,
    out: &mut Drawing,
    progress: &mut Progress,
    hot: &HotEdges,
    d: &Drawing,
) -> Result<(), PathStop>
    requires hot { All (All (All (IsHotRing hot.now.points))) d.now.polygons }
    ensures ok { OnOk result (out.new ≡ record out.old { polygons = out.old.polygons ++ map (map (map (snapped_path hot.now.points))) d.now.polygons }) }
{
    for f in 0..d.polygon_count() {
        let polygons = d.rings_of(FeatId::new(f));
        out.add_feature(Kind::Polygon)?;
        add_polygons(alloc, out, progress, hot, polygons.as_slice())?;
    }
    Ok(())
}

// Adds the snapped paths of a feature to the last line feature.
fn add_lines(
    alloc: Global,
    out: &mut Drawing,
    progress: &mut Progress,
    hot: &HotEdges,
    lines: &[PtList],
) -> Result<(), PathStop>
    requires feature { 0 < length out.old.lines }
    requires hot { All (IsHotPath hot.now.points) lines.now }
    ensures ok { OnOk result (out.new ≡ with_lines (map (snapped_path hot.now.points) lines.now) out.old) }
{
    for line in lines {
        let joined = joined_chains(alloc, progress, hot, line.as_slice())?;
        out.add_line(joined)?;
    }
    Ok(())
}

fn add_line_features(
    alloc: Global,
    out: &mut Drawing,
    progress: &mut Progress,
    hot: &HotEdges,
    d: &Drawing,
) -> Result<(), PathStop>
    requires hot { All (All (IsHotPath hot.now.points)) d.now.lines }
    ensures ok { OnOk result (out.new ≡ record out.old { lines = out.old.lines ++ map (map (snapped_path hot.now.points)) d.now.lines }) }
{
    for f in 0..d.line_count() {
        let lines = d.lines_of(FeatId::new(f));
        out.add_feature(Kind::Line)?;
        add_lines(alloc, out, progress, hot, lines.as_slice())?;
    }
    Ok(())
}

// Adds the points to the last point feature.
fn add_points(out: &mut Drawing, points: &[Pt]) -> Result<(), AllocError>
    requires feature { 0 < length out.old.points }
    ensures ok { OnOk result (out.new ≡ with_points points.now out.old) }
{
    for p in points {
        out.add_point(*p)?;
    }
    Ok(())
}

/// Adds the point features of a drawing, as they are.
pub fn add_point_features(out: &mut Drawing, d: &Drawing) -> Result<(), AllocError>
    ensures ok { OnOk result (out.new ≡ record out.old { points = out.old.points ++ d.now.points }) }
{
    for f in 0..d.point_count() {
        let points = d.points_of(FeatId::new(f));
        out.add_feature(Kind::Point)?;
        add_points(out, points.as_slice())?;
    }
    Ok(())
}

// How many points the point features have: as many places stand between those of lines and those of boxes.
fn count_points(d: &Drawing) -> usize {
    let mut count: usize = 0;
    for f in 0..d.point_count() {
        count = count.wrapping_add(d.points_of(FeatId::new(f)).len() as usize);
    }
    count
}

fn add_boxes(
    alloc: Global,
    out: &mut Drawing,
    progress: &mut Progress,
    hot: &HotEdges,
    d: &Drawing,
) -> Result<(), PathStop>
    requires hot { All (IsHotRing hot.now.points) d.now.boxes }
    ensures ok { OnOk result (out.new ≡ record out.old { boxes = out.old.boxes ++ map (snapped_path hot.now.points) d.now.boxes }) }
{
    for b in 0..d.box_count() {
        let joined = joined_chains(alloc, progress, hot, d.box_of(b).as_slice())?;
        out.add_box_path(joined)?;
    }
    Ok(())
}

/// The drawing without its points, each path snapped to these hot points, where their chains have no more links than
/// there is room for.
pub fn snapped_paths(
    alloc: Global,
    progress: &mut Progress,
    hot: &HotEdges,
    d: &Drawing,
) -> Result<Drawing, PathStop>
    requires { HasHotPaths hot.now.points d.now }
    ensures exact { IfOk result (λ paths. paths ≡ without_points (snapped_by hot.now.points d.now)) }
{
    let mut paths = Drawing::new(alloc);
    add_polygon_features(alloc, &mut paths, progress, hot, d)?;
    add_line_features(alloc, &mut paths, progress, hot, d)?;
    progress.place = progress.place.wrapping_add(count_points(d));
    add_boxes(alloc, &mut paths, progress, hot, d)?;
    Ok(paths)
}
