//! Calls of `span_pool`.
//!
//! `keep_second` takes the points of two spans. It reserves room, pushes both, and keeps the second alone. It answers
//! the numbers that the spans got, by how much the first lessened the spare spans and points, and how many spans are
//! left; and on a line of its own the points of what is then the first.
use crate::drawings::points_of;
use crate::texts::print_points;
use case_lists::{list_at, told, unknown_call};
use grid_base::{IdList, Pt};
use json_read::Json;
use span_pool::{SpanId, SpanPool};
use std::alloc::{AllocError, Global};
use text_core::Bytes;

/// What a call of `span_pool` answers to a case, as this module says; to a call that isn't there, what `unknown_call`
/// answers.
pub fn answer(alloc: Global, call: &str, case: &[Json]) -> Result<Bytes, AllocError> {
    match call {
        "keep_second" => {
            let first = points_of(alloc, list_at(case, 0))?;
            let second = points_of(alloc, list_at(case, 1))?;
            second_kept(alloc, first.as_slice(), second.as_slice())
        }
        _ => unknown_call(alloc),
    }
}

fn second_kept(alloc: Global, first: &[Pt], second: &[Pt]) -> Result<Bytes, AllocError> {
    if first.len() > 10 || second.len() > 10 {
        return unknown_call(alloc);
    }
    let mut pool = SpanPool::new(alloc);
    pool.reserve(2, 20)?;
    let (spans, points) = (pool.spare_spans(), pool.spare_points());
    let one = pool.push_span(first).num();
    let used = (spans - pool.spare_spans(), points - pool.spare_points());
    let two = pool.push_span(second).num();
    let mut ids = IdList::new(alloc);
    ids.push(1)?;
    pool.keep_only(&ids);
    if pool.count() == 0 {
        return unknown_call(alloc);
    }
    let mut out = told(alloc, &(one, used, two, pool.count()))?;
    out.push(b'\n')?;
    print_points(alloc, &mut out, pool.get(SpanId::new(0)))?;
    out.push(b'\n')?;
    Ok(out)
}
