//! Calls of `region_ops`, over the faces that the first features of the group's drawing hold. Each takes how many
//! features these are.
//!
//! - `clip_sets` and `erase_sets` take the number of a box after that; `clean_sets` takes the rule of overlaps, and
//!   twice the greatest area of a gap that it fills. They answer the polygons round the faces that are left of each
//!   feature, a line each, after a line `feature`.
//! - `mosaic_sets` answers which features hold each piece, and how many faces it has, a line each.
ghost use Rattle.std.specs.Prelude.{All};
ghost use Rattle.face_sets.specs.Sets.{IsSetOf};

use crate::laid::{Holder, LaidOut, features, held};
use crate::texts::polygons_text;
use case_lists::{number_at, text_at, told, unknown_call};
use face_sets::{FaceSet, SetList};
use grid_base::OverlapRule;
use json_read::Json;
use region_ops::{clean_sets, clip_sets, erase_sets, mosaic_sets};
use ring_trace::trace;
use std::alloc::{AllocError, Global};
use text_core::Bytes;

/// What a call of `region_ops` answers to a case, as this module says; to a call that isn't there, what `unknown_call`
/// answers.
pub fn answer(
    alloc: Global,
    laid: &LaidOut,
    call: &str,
    case: &[Json],
) -> Result<Bytes, AllocError> {
    let sets = features(alloc, laid, number_at(case, 0))?;
    match call {
        "clip_sets" | "erase_sets" => {
            let cut_set = held(alloc, laid, Holder::Box(number_at(case, 1)))?;
            cut(alloc, laid, call, &sets, &cut_set)
        }
        "clean_sets" => {
            let rule = rule_named(text_at(case, 1));
            let gap = u128::from(number_at(case, 2));
            outlines(
                alloc,
                laid,
                &clean_sets(alloc, &laid.arcs, &laid.faces, &sets, rule, gap)?,
            )
        }
        "mosaic_sets" => mosaic(alloc, laid, &sets),
        _ => unknown_call(alloc),
    }
}

fn rule_named(name: &str) -> OverlapRule {
    match name {
        "min-id" => OverlapRule::MinId,
        "max-id" => OverlapRule::MaxId,
        "min-area" => OverlapRule::MinArea,
        _ => OverlapRule::MaxArea,
    }
}

fn cut(
    alloc: Global,
    laid: &LaidOut,
    call: &str,
    sets: &SetList,
    cut_set: &FaceSet,
) -> Result<Bytes, AllocError>
    requires { All (IsSetOf laid.now.faces) sets.now }
{
    if call == "clip_sets" {
        outlines(alloc, laid, &clip_sets(alloc, sets, cut_set)?)
    } else {
        outlines(alloc, laid, &erase_sets(alloc, sets, cut_set)?)
    }
}

fn outlines(alloc: Global, laid: &LaidOut, sets: &SetList) -> Result<Bytes, AllocError>
    requires { All (IsSetOf laid.now.faces) sets.now }
{
    let mut out = Bytes::new(alloc);
    for number in 0..sets.len() {
        out.extend(b"feature\n")?;
        out.extend(outline(alloc, laid, sets, number)?.as_slice())?;
    }
    Ok(out)
}

fn outline(alloc: Global, laid: &LaidOut, sets: &SetList, number: u32) -> Result<Bytes, AllocError>
    requires { All (IsSetOf laid.now.faces) sets.now }
{
    match sets.get(number) {
        Some(set) => {
            let polygons = trace(alloc, &laid.arcs, &laid.faces, set)?;
            polygons_text(alloc, &laid.arcs, &polygons)
        }
        None => unknown_call(alloc),
    }
}

fn mosaic(alloc: Global, laid: &LaidOut, sets: &SetList) -> Result<Bytes, AllocError>
    requires { All (IsSetOf laid.now.faces) sets.now }
{
    let items = mosaic_sets(alloc, &laid.arcs, &laid.faces, sets)?;
    let mut out = Bytes::new(alloc);
    for item in items.as_slice() {
        let holders = item.ids.as_slice();
        out.extend(told(alloc, &(holders, item.set.faces().len()))?.as_slice())?;
        out.push(b'\n')?;
    }
    Ok(out)
}
