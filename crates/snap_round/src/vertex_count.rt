ghost use Rattle.std.specs.Prelude.{◌≡◌, ◌≤◌, ◌+◌, IfOk, sum_by, length};
ghost use Rattle.plane_model.specs.Snapped.{link_count};

use grid_base::{Drawing, FeatId, PolygonRings, PtList};
use std::alloc::AllocError;

// A count with more counted. A number past the last `u64` is out of memory: no drawing has that many vertices.
fn counted(count: u64, more: u64) -> Result<u64, AllocError>
    ensures exact { IfOk result (λ sum. sum ≡ count + more) }
{
    count.checked_add(more).ok_or(AllocError)
}

fn count_in_rings(rings: &[PtList]) -> Result<u64, AllocError>
    ensures exact { IfOk result (λ count. count ≡ sum_by length rings.now) }
{
    let mut count: u64 = 0;
    for ring in rings {
        count = counted(count, u64::from(ring.len()))?;
    }
    Ok(count)
}

fn count_in_polygons(polygons: &[PolygonRings]) -> Result<u64, AllocError>
    ensures exact { IfOk result (λ count. count ≡ sum_by (sum_by length) polygons.now) }
{
    let mut count: u64 = 0;
    for polygon in polygons {
        count = counted(count, count_in_rings(polygon.as_slice())?)?;
    }
    Ok(count)
}

fn count_in_polygon_features(d: &Drawing) -> Result<u64, AllocError>
    ensures exact { IfOk result (λ count. count ≡ sum_by (sum_by (sum_by length)) d.now.polygons) }
{
    let mut count: u64 = 0;
    for f in 0..d.polygon_count() {
        let polygons = d.rings_of(FeatId::new(f));
        count = counted(count, count_in_polygons(polygons.as_slice())?)?;
    }
    Ok(count)
}

fn count_in_line_features(d: &Drawing) -> Result<u64, AllocError>
    ensures exact { IfOk result (λ count. count ≡ sum_by (sum_by length) d.now.lines) }
{
    let mut count: u64 = 0;
    for f in 0..d.line_count() {
        let lines = d.lines_of(FeatId::new(f));
        count = counted(count, count_in_rings(lines.as_slice())?)?;
    }
    Ok(count)
}

fn count_in_boxes(d: &Drawing) -> Result<u64, AllocError>
    ensures exact { IfOk result (λ count. count ≡ sum_by length d.now.boxes) }
{
    let mut count: u64 = 0;
    for b in 0..d.box_count() {
        count = counted(count, u64::from(d.box_of(b).len()))?;
    }
    Ok(count)
}

/// How many vertices the paths of a drawing have: each has fewer links.
pub fn count_vertices(d: &Drawing) -> Result<u64, AllocError>
    ensures made { IfOk result (λ count. link_count d.now ≤ count) }
{
    let polygons = count_in_polygon_features(d)?;
    let lines = count_in_line_features(d)?;
    let boxes = count_in_boxes(d)?;
    let paths = counted(polygons, lines)?;
    counted(paths, boxes)
}
