//! Calls of `arc_table`, over the arcs of the group's drawing. A signed arc is its index.
//!
//! - `points_of` takes nothing; it answers the points of each arc, a line each.
//! - `around` takes a point; it answers the signed arcs round it.
//! - `arc_at` takes a point; it answers the arc that is there, or none.
//! - `path_arcs` takes the points of a path; it answers the signed arcs along it.
use crate::drawings::{point_at, points_of};
use crate::texts::print_points;
use arc_table::ArcTable;
use case_lists::{list_at, told, unknown_call};
use grid_base::{ArcId, Pt, SignedArc};
use json_read::Json;
use std::alloc::{AllocError, Global};
use text_core::Bytes;

/// What a call of `arc_table` answers to a case, as this module says; to a call that isn't there, what `unknown_call`
/// answers.
pub fn answer(
    alloc: Global,
    arcs: &ArcTable,
    call: &str,
    case: &[Json],
) -> Result<Bytes, AllocError> {
    match call {
        "points_of" => all_points(alloc, arcs),
        "path_arcs" => along(alloc, arcs, list_at(case, 0)),
        _ => match point_at(case, 0) {
            Some(point) => at_point(alloc, arcs, call, point),
            None => unknown_call(alloc),
        },
    }
}

fn at_point(alloc: Global, arcs: &ArcTable, call: &str, point: Pt) -> Result<Bytes, AllocError> {
    match call {
        "around" => indexes(alloc, arcs.around(point)),
        "arc_at" => told(alloc, &arcs.arc_at(point)),
        _ => unknown_call(alloc),
    }
}

fn all_points(alloc: Global, arcs: &ArcTable) -> Result<Bytes, AllocError> {
    let mut out = Bytes::new(alloc);
    for number in 0..arcs.count() {
        print_points(alloc, &mut out, arcs.points_of(ArcId::new(number)))?;
        out.push(b'\n')?;
    }
    Ok(out)
}

fn along(alloc: Global, arcs: &ArcTable, points: &[Json]) -> Result<Bytes, AllocError> {
    let path = arcs.path_arcs(alloc, &points_of(alloc, points)?)?;
    indexes(alloc, path.as_slice())
}

fn indexes(alloc: Global, path: &[SignedArc]) -> Result<Bytes, AllocError> {
    let mut indexes = Vec::new(alloc);
    for arc in path {
        indexes.push(arc.to_index())?;
    }
    told(alloc, &indexes)
}
