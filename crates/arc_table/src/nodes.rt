ghost use Rattle.std.specs.Prelude.{◌≡◌, ◌+◌, ◌++◌, ◌<◌, ◌≤◌, IfOk, OnOk, length};
ghost use Rattle.std.specs.List.{flat_map};
ghost use Rattle.arc_table.specs.Nodes.{AreTurns, ends_of, turns_at_start, turns_back, turns_of_drawing, turns_of_line, turns_of_ring};

use grid_base::{FeatId, Pt, PtList, RingsList, Snapped, is_same};
use std::alloc::{AllocError, Global};

/// The vertices where a line path starts or ends, or a path turns back, in order.
pub fn turns_of(alloc: Global, s: &Snapped) -> Result<Vec<Pt>, AllocError>
    ensures exact { IfOk result (λ v. AreTurns s.now v.items) }
{
    let mut turns = unsorted_turns(alloc, s)?;
    turns.sort_unstable();
    Ok(turns)
}

fn unsorted_turns(alloc: Global, s: &Snapped) -> Result<Vec<Pt>, AllocError>
    ensures exact { IfOk result (λ v. v.items ≡ turns_of_drawing s.now) }
{
    let mut turns = Vec::new(alloc);
    mark_polygon_features(&mut turns, s)?;
    mark_line_features(&mut turns, s)?;
    mark_boxes(&mut turns, s)?;
    Ok(turns)
}

fn mark_polygon_features(turns: &mut Vec<Pt>, s: &Snapped) -> Result<(), AllocError>
    ensures added { OnOk result (turns.new.items ≡ turns.old.items ++ flat_map (λ feature. flat_map (λ polygon. flat_map turns_of_ring polygon) feature) s.now.polygons) }
{
    for f in 0..s.polygon_count() {
        mark_polygons(turns, s.rings_of(FeatId::new(f)))?;
    }
    Ok(())
}

fn mark_line_features(turns: &mut Vec<Pt>, s: &Snapped) -> Result<(), AllocError>
    ensures added { OnOk result (turns.new.items ≡ turns.old.items ++ flat_map (λ feature. flat_map turns_of_line feature) s.now.lines) }
{
    for f in 0..s.line_count() {
        mark_lines(turns, s.lines_of(FeatId::new(f)).as_slice())?;
    }
    Ok(())
}

fn mark_boxes(turns: &mut Vec<Pt>, s: &Snapped) -> Result<(), AllocError>
    ensures added { OnOk result (turns.new.items ≡ turns.old.items ++ flat_map turns_of_ring s.now.boxes) }
{
    for b in 0..s.box_count() {
        mark_ring(turns, s.box_of(b).as_slice())?;
    }
    Ok(())
}

fn mark_polygons(turns: &mut Vec<Pt>, polygons: &RingsList) -> Result<(), AllocError>
    ensures added { OnOk result (turns.new.items ≡ turns.old.items ++ flat_map (λ polygon. flat_map turns_of_ring polygon) polygons.now) }
{
    for polygon in polygons.as_slice() {
        mark_rings(turns, polygon.as_slice())?;
    }
    Ok(())
}

fn mark_rings(turns: &mut Vec<Pt>, rings: &[PtList]) -> Result<(), AllocError>
    ensures added { OnOk result (turns.new.items ≡ turns.old.items ++ flat_map turns_of_ring rings.now) }
{
    for ring in rings {
        mark_ring(turns, ring.as_slice())?;
    }
    Ok(())
}

fn mark_lines(turns: &mut Vec<Pt>, lines: &[PtList]) -> Result<(), AllocError>
    ensures added { OnOk result (turns.new.items ≡ turns.old.items ++ flat_map turns_of_line lines.now) }
{
    for line in lines {
        mark_line(turns, line.as_slice())?;
    }
    Ok(())
}

// The ends of a line, and where it turns back.
fn mark_line(turns: &mut Vec<Pt>, line: &[Pt]) -> Result<(), AllocError>
    ensures added { OnOk result (turns.new.items ≡ turns.old.items ++ turns_of_line line.now) }
{
    mark_ends(turns, line)?;
    mark_path(turns, line)
}

fn mark_ends(turns: &mut Vec<Pt>, line: &[Pt]) -> Result<(), AllocError>
    ensures added { OnOk result (turns.new.items ≡ turns.old.items ++ ends_of line.now) }
{
    if line.len() > 0 {
        turns.push(line[0])?;
        turns.push(line[line.len() - 1])?;
    }
    Ok(())
}

// Where a ring turns back, also at its own start.
fn mark_ring(turns: &mut Vec<Pt>, ring: &[Pt]) -> Result<(), AllocError>
    ensures added { OnOk result (turns.new.items ≡ turns.old.items ++ turns_of_ring ring.now) }
{
    mark_start(turns, ring)?;
    mark_path(turns, ring)
}

fn mark_start(turns: &mut Vec<Pt>, ring: &[Pt]) -> Result<(), AllocError>
    ensures added { OnOk result (turns.new.items ≡ turns.old.items ++ turns_at_start ring.now) }
{
    if ring.len() > 2 && is_same(ring[ring.len() - 2], ring[1]) {
        turns.push(ring[0])?;
    }
    Ok(())
}

// Where a path has the same vertex before and after.
fn mark_path(turns: &mut Vec<Pt>, path: &[Pt]) -> Result<(), AllocError>
    ensures added { OnOk result (turns.new.items ≡ turns.old.items ++ turns_back path.now) }
{
    for i in 2..path.len() {
        if is_same(path[i - 2], path[i]) {
            turns.push(path[i - 1])?;
        }
    }
    Ok(())
}
