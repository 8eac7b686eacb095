//! Calls of `grid_base`.
//!
//! `drawing` takes nothing; it answers how many features of polygons, of lines and of points the group's drawing has,
//! and how many boxes. `from_index` takes an index and a number of arcs; it answers the arc's number and whether it is
//! reversed, or none.
use case_lists::{bytes_of_text, integer_at, number_at, told, unknown_call};
use grid_base::{Drawing, SignedArc};
use json_read::Json;
use std::alloc::{AllocError, Global};
use text_core::Bytes;

/// What a call of `grid_base` answers to a case, as this module says; to a call that isn't there, what `unknown_call`
/// answers.
pub fn answer(
    alloc: Global,
    drawing: &Drawing,
    call: &str,
    case: &[Json],
) -> Result<Bytes, AllocError> {
    match call {
        "drawing" => counts(alloc, drawing),
        "from_index" => arc_of(alloc, integer_at(case, 0), number_at(case, 1)),
        _ => unknown_call(alloc),
    }
}

fn counts(alloc: Global, drawing: &Drawing) -> Result<Bytes, AllocError> {
    let features = (
        drawing.polygon_count(),
        drawing.line_count(),
        drawing.point_count(),
    );
    told(alloc, &(features, drawing.box_count()))
}

fn arc_of(alloc: Global, index: i64, count: u32) -> Result<Bytes, AllocError> {
    match SignedArc::from_index(index, count) {
        Some(arc) => told(alloc, &(arc.id().num(), arc.is_reversed())),
        None => bytes_of_text(alloc, "None"),
    }
}
