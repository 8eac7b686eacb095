//! Calls of `line_ops`, over the group's drawing.
//!
//! - `inner_arcs` takes how many features there are; it answers the numbers of the arcs with one of them at each side.
//! - `sided_arcs` takes the same; it answers the arcs whose sides differ, each with the features at its left and right,
//!   a line each.
//! - `clip_paths` takes the number of a box; it answers what is in it of the first line feature, a path a line.
//! - `point_inside` takes the number of a box and a point; it answers whether the one has the other.
ghost use Rattle.std.specs.Prelude.{All, IfOk};
ghost use Rattle.face_walk.specs.Places.{HasArc};

use crate::drawings::point_at;
use crate::laid::{Holder, LaidOut, features, held};
use crate::texts::paths_text;
use arc_table::SignedPaths;
use case_lists::{number_at, told, unknown_call};
use grid_base::FeatId;
use json_read::Json;
use line_ops::{clip_paths, inner_arcs, point_inside, sided_arcs};
use std::alloc::{AllocError, Global};
use text_core::Bytes;

/// What a call of `line_ops` answers to a case, as this module says; to a call that isn't there, what `unknown_call`
/// answers.
pub fn answer(
    alloc: Global,
    laid: &LaidOut,
    call: &str,
    case: &[Json],
) -> Result<Bytes, AllocError> {
    let number = number_at(case, 0);
    match call {
        "inner_arcs" => inner(alloc, laid, number),
        "sided_arcs" => sided(alloc, laid, number),
        "clip_paths" => clipped(alloc, laid, number),
        "point_inside" => inside(alloc, laid, number, case),
        _ => unknown_call(alloc),
    }
}

fn inside(alloc: Global, laid: &LaidOut, number: u32, case: &[Json]) -> Result<Bytes, AllocError> {
    let Some(point) = point_at(case, 1) else {
        return unknown_call(alloc);
    };
    let cut_set = held(alloc, laid, Holder::Box(number))?;
    told(
        alloc,
        &point_inside(&laid.arcs, &laid.faces, point, &cut_set),
    )
}

fn inner(alloc: Global, laid: &LaidOut, count: u32) -> Result<Bytes, AllocError> {
    let sets = features(alloc, laid, count)?;
    let arcs = inner_arcs(alloc, &laid.arcs, &laid.faces, &sets)?;
    let mut numbers = Vec::new(alloc);
    for arc in arcs.as_slice() {
        numbers.push(arc.num())?;
    }
    told(alloc, &numbers)
}

fn sided(alloc: Global, laid: &LaidOut, count: u32) -> Result<Bytes, AllocError> {
    let sets = features(alloc, laid, count)?;
    let arcs = sided_arcs(alloc, &laid.arcs, &laid.faces, &sets)?;
    let mut out = Bytes::new(alloc);
    for arc in arcs.as_slice() {
        let line = told(alloc, &(arc.arc.num(), arc.left, arc.right))?;
        out.extend(line.as_slice())?;
        out.push(b'\n')?;
    }
    Ok(out)
}

fn clipped(alloc: Global, laid: &LaidOut, number: u32) -> Result<Bytes, AllocError> {
    let cut_set = held(alloc, laid, Holder::Box(number))?;
    let kept = clip_paths(alloc, &laid.faces, &line_arcs(alloc, laid)?, &cut_set)?;
    paths_text(alloc, &laid.arcs, &kept)
}

// The arcs of the first line feature, where it is there.
#[tactic(auto, using(crate::proofs::Faces::arcs_have_places))]
fn line_arcs(alloc: Global, laid: &LaidOut) -> Result<SignedPaths, AllocError>
    ensures made { IfOk result (All (All (HasArc laid.now.faces))) }
{
    let mut paths = SignedPaths::new(alloc);
    if laid.snapped.line_count() > 0 {
        for path in laid.snapped.lines_of(FeatId::new(0)).as_slice() {
            paths.push(laid.arcs.path_arcs(alloc, path)?)?;
        }
    }
    Ok(paths)
}
