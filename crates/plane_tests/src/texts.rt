// Points, paths and polygons as lines of text.
use arc_table::{ArcTable, Polys, SignedPaths};
use grid_base::{Pt, SignedArc};
use std::alloc::{AllocError, Global};
use text_core::Bytes;

// Appends a point, after a blank where it isn't the first of its line.
fn print_point(alloc: Global, out: &mut Bytes, point: Pt) -> Result<(), AllocError> {
    let (x, y) = (point.x(), point.y());
    let text = match out.as_slice().last().copied() {
        None | Some(b'\n') => format!(in alloc; "{x},{y}")?,
        Some(_) => format!(in alloc; " {x},{y}")?,
    };
    out.extend(text.as_bytes())
}

/// Appends points, one after another.
pub fn print_points(alloc: Global, out: &mut Bytes, points: &[Pt]) -> Result<(), AllocError> {
    for point in points {
        print_point(alloc, out, *point)?;
    }
    Ok(())
}

/// The text of points.
pub fn points_text(alloc: Global, points: &[Pt]) -> Result<Bytes, AllocError> {
    let mut out = Bytes::new(alloc);
    print_points(alloc, &mut out, points)?;
    Ok(out)
}

/// Appends the points of signed arcs, one after another. A point where one ends and the next begins stands once; `and`
/// stands where one doesn't begin where the one before it ends.
pub fn print_path(
    alloc: Global,
    out: &mut Bytes,
    arcs: &ArcTable,
    path: &[SignedArc],
) -> Result<(), AllocError> {
    let mut end = None;
    for arc in path {
        end = print_arc(alloc, out, arcs, *arc, end)?;
    }
    Ok(())
}

// Appends the points of a signed arc but the first, if the path ends there so far; answers the last.
fn print_arc(
    alloc: Global,
    out: &mut Bytes,
    arcs: &ArcTable,
    arc: SignedArc,
    end: Option<Pt>,
) -> Result<Option<Pt>, AllocError> {
    if arc.id().num() >= arcs.count() {
        out.extend(b" no arc")?;
        return Ok(None);
    }
    let points = points_along(alloc, arcs.points_of(arc.id()), arc.is_reversed())?;
    let Some((first, rest)) = points.as_slice().split_first() else {
        return Ok(end);
    };
    if end.is_some() && end != Some(*first) {
        out.extend(b" and")?;
    }
    if end != Some(*first) {
        print_point(alloc, out, *first)?;
    }
    print_points(alloc, out, rest)?;
    Ok(points.last().copied())
}

fn points_along(alloc: Global, points: &[Pt], is_reversed: bool) -> Result<Vec<Pt>, AllocError> {
    let mut along = Vec::new(alloc);
    for i in 0..points.len() {
        if is_reversed {
            along.push(points[points.len() - 1 - i])?;
        } else {
            along.push(points[i])?;
        }
    }
    Ok(along)
}

/// The text of paths, a line each.
pub fn paths_text(
    alloc: Global,
    arcs: &ArcTable,
    paths: &SignedPaths,
) -> Result<Bytes, AllocError> {
    let mut out = Bytes::new(alloc);
    for path in paths.as_slice() {
        print_path(alloc, &mut out, arcs, path.as_slice())?;
        out.push(b'\n')?;
    }
    Ok(out)
}

/// The text of polygons, a line each, with ` /` before each hole.
pub fn polygons_text(
    alloc: Global,
    arcs: &ArcTable,
    polygons: &Polys,
) -> Result<Bytes, AllocError> {
    let mut out = Bytes::new(alloc);
    for rings in polygons.as_slice() {
        print_rings(alloc, &mut out, arcs, rings)?;
        out.push(b'\n')?;
    }
    Ok(out)
}

fn print_rings(
    alloc: Global,
    out: &mut Bytes,
    arcs: &ArcTable,
    rings: &SignedPaths,
) -> Result<(), AllocError> {
    for (place, ring) in rings.as_slice().iter().enumerate() {
        if place > 0 {
            out.extend(b" /")?;
        }
        print_path(alloc, out, arcs, ring.as_slice())?;
    }
    Ok(())
}
