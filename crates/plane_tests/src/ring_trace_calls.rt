//! Calls of `ring_trace`.
//!
//! - `trace` takes a feature of the group's drawing; it answers the polygons round its faces, a line each.
use crate::laid::{Holder, LaidOut, held};
use crate::texts::polygons_text;
use case_lists::{number_at, unknown_call};
use json_read::Json;
use ring_trace::trace;
use std::alloc::{AllocError, Global};
use text_core::Bytes;

/// What a call of `ring_trace` answers to a case, as this module says; to a call that isn't there, what `unknown_call`
/// answers.
pub fn answer(
    alloc: Global,
    laid: &LaidOut,
    call: &str,
    case: &[Json],
) -> Result<Bytes, AllocError> {
    if call != "trace" {
        return unknown_call(alloc);
    }
    let set = held(alloc, laid, Holder::Feature(number_at(case, 0)))?;
    let polygons = trace(alloc, &laid.arcs, &laid.faces, &set)?;
    polygons_text(alloc, &laid.arcs, &polygons)
}
