//! Calls of `bucket_grid`.
//!
//! `each_near` takes a number of columns and of boxes, each of 10 by 10 grid points, which stand side by side and are
//! numbered along the rows; then the number of a box, a number of buckets, and a number of boxes. It answers whether
//! there are more buckets than that, whether the box is near its own middle, and whether no more boxes are than that.
ghost use Rattle.std.specs.Prelude.{◌<◌};

use bucket_grid::Buckets;
use case_lists::{number_at, told, unknown_call};
use grid_base::{BoxList, Pt, Rect};
use json_read::Json;
use std::alloc::{AllocError, Global};
use text_core::Bytes;

/// What a call of `bucket_grid` answers to a case, as this module says; to a call that isn't there, what `unknown_call`
/// answers.
pub fn answer(alloc: Global, call: &str, case: &[Json]) -> Result<Bytes, AllocError> {
    match call {
        "each_near" => near(alloc, case),
        _ => unknown_call(alloc),
    }
}

fn near(alloc: Global, case: &[Json]) -> Result<Bytes, AllocError> {
    let columns = number_at(case, 0).max(1);
    let number = number_at(case, 2);
    let buckets = Buckets::build(alloc, &side_by_side(alloc, columns, number_at(case, 1))?)?;
    let Some(middle) = place_in(columns, number, 5) else {
        return unknown_call(alloc);
    };
    let Some(near) = buckets.each_near(buckets.bucket_of(middle)) else {
        return unknown_call(alloc);
    };
    let is_cut = buckets.count() > number_at(case, 3);
    let is_few = near.len() <= number_at(case, 4) as usize;
    told(alloc, &(is_cut, near.contains(&number), is_few))
}

fn side_by_side(alloc: Global, columns: u32, count: u32) -> Result<BoxList, AllocError>
    requires { 0 < columns }
{
    let mut boxes = BoxList::new(alloc);
    for number in 0..count {
        if let Some(rect) = box_of(columns, number) {
            boxes.push(rect)?;
        }
    }
    Ok(boxes)
}

fn box_of(columns: u32, number: u32) -> Option<Rect>
    requires { 0 < columns }
{
    Rect::new(place_in(columns, number, 0)?, place_in(columns, number, 9)?)
}

// The point so far to the right of and above the lower left corner of a box.
fn place_in(columns: u32, number: u32, by: u32) -> Option<Pt>
    requires { 0 < columns }
{
    let column = i64::from(number % columns);
    let row = i64::from(number / columns);
    Pt::new(10 * column + i64::from(by), 10 * row + i64::from(by))
}
