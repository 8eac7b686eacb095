//! Calls of `snap_round`, over the group's drawing.
//!
//! `snap` takes nothing; it answers the vertices of the first path of each line feature, a line each, and on a line of
//! its own the number of links, or the fault. `snap_repeated` takes a number of points from (0, 0) to the right, and
//! how often a line from the first to the last of them stands; it answers so of that drawing, by `into_snapped`.
use crate::drawings::repeated_lines;
use crate::texts::print_points;
use case_lists::{number_at, told, unknown_call};
use grid_base::{Drawing, FeatId, Snapped};
use json_read::Json;
use snap_round::{SnapFault, into_snapped, snap};
use std::alloc::{AllocError, Global};
use text_core::Bytes;

/// What a call of `snap_round` answers to a case, as this module says; to a call that isn't there, what `unknown_call`
/// answers.
pub fn answer(
    alloc: Global,
    drawing: &Drawing,
    call: &str,
    case: &[Json],
) -> Result<Bytes, AllocError> {
    match call {
        "snap" => snapped(alloc, snap(alloc, drawing)),
        "snap_repeated" => {
            let lines = repeated_lines(alloc, number_at(case, 0), number_at(case, 1))?;
            snapped(alloc, into_snapped(alloc, lines))
        }
        _ => unknown_call(alloc),
    }
}

fn snapped(alloc: Global, outcome: Result<Snapped, SnapFault>) -> Result<Bytes, AllocError> {
    match outcome {
        Ok(snapped) => lines_text(alloc, &snapped),
        Err(fault) => told(alloc, &fault),
    }
}

fn lines_text(alloc: Global, snapped: &Snapped) -> Result<Bytes, AllocError> {
    let mut out = Bytes::new(alloc);
    for number in 0..snapped.line_count() {
        if let Some(path) = snapped.lines_of(FeatId::new(number)).get(0) {
            print_points(alloc, &mut out, path.as_slice())?;
        }
        out.push(b'\n')?;
    }
    out.extend(told(alloc, &snapped.links().len())?.as_slice())?;
    out.push(b'\n')?;
    Ok(out)
}
