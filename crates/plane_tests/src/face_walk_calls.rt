//! Calls of `face_walk`, over the faces of the group's drawing.
//!
//! `count` takes nothing; it answers how many faces there are, and which features hold the outer one. `faces_with`
//! takes a list of features and twice an area; it answers how many faces have that area and just these holders.
use crate::laid::LaidOut;
use case_lists::{integer_at, list_at, number_at, told, unknown_call};
use grid_base::{FaceId, FeatId};
use json_read::Json;
use std::alloc::{AllocError, Global};
use text_core::Bytes;

/// What a call of `face_walk` answers to a case, as this module says; to a call that isn't there, what `unknown_call`
/// answers.
pub fn answer(
    alloc: Global,
    laid: &LaidOut,
    call: &str,
    case: &[Json],
) -> Result<Bytes, AllocError> {
    match call {
        "count" => {
            let holders = laid.labels.holders(laid.faces.outer());
            told(alloc, &(laid.faces.count(), holders))
        }
        "faces_with" => {
            let holders = features_of(alloc, list_at(case, 0))?;
            told(
                alloc,
                &faces_with(laid, &holders, i128::from(integer_at(case, 1))),
            )
        }
        _ => unknown_call(alloc),
    }
}

fn features_of(alloc: Global, numbers: &[Json]) -> Result<Vec<FeatId>, AllocError> {
    let mut features = Vec::new(alloc);
    for place in 0..numbers.len() {
        features.push(FeatId::new(number_at(numbers, place)))?;
    }
    Ok(features)
}

fn faces_with(laid: &LaidOut, holders: &[FeatId], twice_area: i128) -> u32 {
    let mut count = 0_u32;
    for number in 0..laid.faces.count() {
        let face = FaceId::new(number);
        if laid.labels.holders(face) == holders && laid.faces.twice_area(face) == twice_area {
            count = count.saturating_add(1);
        }
    }
    count
}
