//! Calls of `face_sets`.
//!
//! - `union`, `meet` and `minus` take two lists of numbers of faces; they answer the faces of the set that is made of
//!   the two. `copy` takes one.
//! - `faces` takes a feature of the group's drawing; it answers how many inner faces it holds.
//! - `parts` takes a feature; it answers how many parts its faces have.
use crate::laid::{Holder, LaidOut, held};
use case_lists::{list_at, number_at, told, unknown_call};
use face_sets::{FaceSet, parts};
use grid_base::FaceId;
use json_read::Json;
use std::alloc::{AllocError, Global};
use text_core::Bytes;

/// What a call of `face_sets` answers to a case, as this module says; to a call that isn't there, what `unknown_call`
/// answers.
pub fn answer(
    alloc: Global,
    laid: &LaidOut,
    call: &str,
    case: &[Json],
) -> Result<Bytes, AllocError> {
    match call {
        "faces" | "parts" => of_feature(alloc, laid, call, number_at(case, 0)),
        _ => {
            let set = set_of(alloc, list_at(case, 0))?;
            let other = set_of(alloc, list_at(case, 1))?;
            of_two(alloc, call, &set, &other)
        }
    }
}

fn of_feature(
    alloc: Global,
    laid: &LaidOut,
    call: &str,
    feature: u32,
) -> Result<Bytes, AllocError> {
    let set = held(alloc, laid, Holder::Feature(feature))?;
    match call {
        "faces" => told(alloc, &set.faces().len()),
        _ => told(alloc, &parts(alloc, &laid.arcs, &laid.faces, &set)?.len()),
    }
}

fn set_of(alloc: Global, numbers: &[Json]) -> Result<FaceSet, AllocError> {
    let mut set = FaceSet::new(alloc);
    for place in 0..numbers.len() {
        set.insert(FaceId::new(number_at(numbers, place)))?;
    }
    Ok(set)
}

fn of_two(alloc: Global, call: &str, set: &FaceSet, other: &FaceSet) -> Result<Bytes, AllocError> {
    let made = match call {
        "union" => set.union(alloc, other)?,
        "meet" => set.meet(alloc, other)?,
        "minus" => set.minus(alloc, other)?,
        "copy" => set.copy(alloc)?,
        _ => return unknown_call(alloc),
    };
    numbers_text(alloc, &made)
}

fn numbers_text(alloc: Global, set: &FaceSet) -> Result<Bytes, AllocError> {
    let mut numbers = Vec::new(alloc);
    for face in set.faces() {
        numbers.push(face.num())?;
    }
    told(alloc, &numbers)
}
