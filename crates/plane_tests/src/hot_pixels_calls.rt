//! Calls of `hot_pixels`. A segment is two points, from its start to its end.
//!
//! - `crossing_pixel` takes two segments; it answers the pixel of their crossing, or nothing.
//! - `meets` takes a segment and a pixel; it answers whether the one meets the other.
//! - `contains` takes a point; it answers whether it is hot in the group's drawing.
//! - `chain_of` takes a segment; it answers the hot points on its way, and on a line of its own the number of links.
//! - `go_along` takes a list of segments between hot points, each with its place among those of the drawing; it
//!   answers the path that has their chains one after another.
ghost use Rattle.std.specs.Prelude.{◌<◌};

use crate::drawings::point_at;
use crate::texts::{points_text, print_points};
use case_lists::{bytes_of_text, list_at, number_at, told, unknown_call};
use grid_base::{Drawing, PtList, Seg};
use hot_pixels::{HotEdges, HotSet, crossing_pixel, meets};
use json_read::Json;
use std::alloc::{AllocError, Global};
use text_core::Bytes;

/// What a call of `hot_pixels` answers to a case, as this module says; to a call that isn't there, what `unknown_call`
/// answers.
pub fn answer(
    alloc: Global,
    drawing: &Drawing,
    call: &str,
    case: &[Json],
) -> Result<Bytes, AllocError> {
    match call {
        "crossing_pixel" => crossing(alloc, case),
        "meets" => met(alloc, case),
        "contains" => contained(alloc, drawing, case),
        "chain_of" => chain(alloc, drawing, case),
        "go_along" => appended(alloc, drawing, list_at(case, 0)),
        _ => unknown_call(alloc),
    }
}

// The segment at this place of a list and the next.
fn segment_at(list: &[Json], place: usize) -> Option<Seg>
    requires { place < 1000 }
{
    Some(Seg::new(point_at(list, place)?, point_at(list, place + 1)?))
}

fn crossing(alloc: Global, case: &[Json]) -> Result<Bytes, AllocError> {
    let (Some(s), Some(t)) = (segment_at(case, 0), segment_at(case, 2)) else {
        return unknown_call(alloc);
    };
    match crossing_pixel(&s, &t) {
        Some(pixel) => points_text(alloc, &[pixel]),
        None => bytes_of_text(alloc, ""),
    }
}

fn met(alloc: Global, case: &[Json]) -> Result<Bytes, AllocError> {
    let (Some(s), Some(pixel)) = (segment_at(case, 0), point_at(case, 2)) else {
        return unknown_call(alloc);
    };
    told(alloc, &meets(&s, pixel))
}

fn contained(alloc: Global, drawing: &Drawing, case: &[Json]) -> Result<Bytes, AllocError> {
    let Some(point) = point_at(case, 0) else {
        return unknown_call(alloc);
    };
    told(alloc, &HotSet::of(alloc, drawing)?.contains(point))
}

fn chain(alloc: Global, drawing: &Drawing, case: &[Json]) -> Result<Bytes, AllocError> {
    let Some(segment) = segment_at(case, 0) else {
        return unknown_call(alloc);
    };
    let set = HotSet::of(alloc, drawing)?;
    let mut out = points_text(alloc, set.chain_of(alloc, &segment)?.as_slice())?;
    out.push(b'\n')?;
    out.extend(told(alloc, &set.chain_links(&segment))?.as_slice())?;
    out.push(b'\n')?;
    Ok(out)
}

fn appended(alloc: Global, drawing: &Drawing, segments: &[Json]) -> Result<Bytes, AllocError> {
    let hot = HotEdges::of(alloc, drawing)?;
    let mut path = PtList::new(alloc);
    for place in 0..segments.len() {
        append(alloc, &hot, &mut path, list_at(segments, place))?;
    }
    let mut out = Bytes::new(alloc);
    print_points(alloc, &mut out, path.as_slice())?;
    Ok(out)
}

// Appends the chain of a segment; nothing where it isn't between hot points.
fn append(
    alloc: Global,
    hot: &HotEdges,
    path: &mut PtList,
    list: &[Json],
) -> Result<(), AllocError> {
    let Some(segment) = segment_at(list, 0) else {
        return Ok(());
    };
    if !hot.contains(segment.a()) || !hot.contains(segment.b()) {
        return Ok(());
    }
    path.push(segment.a())?;
    hot.go_along(alloc, path, &segment, number_at(list, 2) as usize)
}
