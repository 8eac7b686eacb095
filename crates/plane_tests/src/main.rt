//! Runs calls of the crates of the plane, from points to the commands on polygons and lines, over small drawings, and
//! compares what each answers with what was worked out by hand.
//!
//! No clause says that a call succeeds where there is memory, nor that the definitions which contracts cite are those
//! that were meant. So each case has a drawing, or points, and what a person says of them.
//!
//! The cases stand on standard input, as `case_lists` has them, where a group may have a `drawing`, as `drawings` says.
//! Each module `.._calls` is one crate's, and says what its calls take and answer. A point is a list of two numbers of
//! the grid; in an answer it is `x,y`, and points that follow one another stand in a line.
#![tactic(auto)]

mod arc_table_calls;
mod bucket_grid_calls;
mod drawings;
mod face_sets_calls;
mod face_walk_calls;
mod grid_base_calls;
mod hot_pixels_calls;
mod laid;
mod line_ops_calls;
mod region_ops_calls;
mod ring_trace_calls;
mod rings;
mod snap_round_calls;
mod span_pool_calls;
mod texts;

use case_lists::{Tally, list_at, list_in, text_in, told, unknown_call};
use drawings::drawing_of;
use grid_base::Drawing;
use json_read::{Json, ReadJson};
use laid::{LaidOut, laid_out};
use std::alloc::{AllocError, Global};
use std::io;
use text_core::Bytes;

fn main(rt: HostRuntime) -> io::Result<()> {
    let text = io::read_to_string(rt.alloc(), rt.stdin())?;
    let Ok(Json::List(groups)) = Json::parse(rt.alloc(), text.as_bytes()) else {
        return println!(rt; "no list of groups");
    };
    let mut tally = Tally::new();
    for group in groups.as_slice() {
        run_group(&rt, group, &mut tally)?;
    }
    tally.print(&rt)
}

fn run_group(rt: &HostRuntime, group: &Json, tally: &mut Tally) -> io::Result<()> {
    let drawing = drawing_of(rt.alloc(), group)?;
    let cases = list_in(group, "cases");
    for place in 0..cases.len() {
        let case = list_at(cases, place);
        let answer = answer_of(rt.alloc(), group, &drawing, case)?;
        tally.count(rt, group, place, case, &answer)?;
    }
    Ok(())
}

fn answer_of(
    alloc: Global,
    group: &Json,
    drawing: &Drawing,
    case: &[Json],
) -> Result<Bytes, AllocError> {
    let call = text_in(group, "call");
    match text_in(group, "of") {
        "grid_base" => grid_base_calls::answer(alloc, drawing, call, case),
        "bucket_grid" => bucket_grid_calls::answer(alloc, call, case),
        "hot_pixels" => hot_pixels_calls::answer(alloc, drawing, call, case),
        "snap_round" => snap_round_calls::answer(alloc, drawing, call, case),
        "span_pool" => span_pool_calls::answer(alloc, call, case),
        of => match laid_out(alloc, drawing) {
            Ok(laid) => answer_of_laid(alloc, &laid, of, call, case),
            Err(fault) => told(alloc, &fault),
        },
    }
}

// What the calls answer that work on a drawing laid out.
fn answer_of_laid(
    alloc: Global,
    laid: &LaidOut,
    of: &str,
    call: &str,
    case: &[Json],
) -> Result<Bytes, AllocError> {
    match of {
        "arc_table" => arc_table_calls::answer(alloc, &laid.arcs, call, case),
        "face_walk" => face_walk_calls::answer(alloc, laid, call, case),
        "face_sets" => face_sets_calls::answer(alloc, laid, call, case),
        "ring_trace" => ring_trace_calls::answer(alloc, laid, call, case),
        "region_ops" => region_ops_calls::answer(alloc, laid, call, case),
        "line_ops" => line_ops_calls::answer(alloc, laid, call, case),
        _ => unknown_call(alloc),
    }
}
