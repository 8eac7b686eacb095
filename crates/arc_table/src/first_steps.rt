ghost use Rattle.std.specs.Prelude.{◌≡◌, ◌<◌, [], All, IfOk, length, map, slice_index_or};
ghost use Rattle.std.specs.List.Sorted.{IsPermutation, IsSortedByKey};
ghost use Rattle.std.specs.Ordering.{is_lt};
ghost use Rattle.arc_table.specs.Around.{signed_below, signed_of, first_step, start_of, half_of, comes_round_first, comes_first};
ghost use Rattle.arc_table.specs.Direction.{point_at};
ghost use Rattle.grid_base.specs.Order.{point_cmp};
ghost use Rattle.plane_model.specs.Arcs.{goes_up};

use crate::half_links::Step;
use crate::merging::numbers_below;
use grid_base::{ArcId, Pt, SignedArc, is_before, is_same, turn};
use known_order::{gathered, order_by_key};
use span_pool::{SpanId, SpanPool};
use std::alloc::{AllocError, Global};
use std::cmp::Ordering;

/// A signed arc with its first step.
#[derive(Clone, Copy)]
pub struct FirstStep {
    pub step: Step,
    pub arc: SignedArc,
}

/// The codes of the signed arcs by where they start. `keys` has for each, arc after arc and each arc forward and then
/// reversed, its place in this order, below `count`: a wrong one costs time alone.
///
/// Errors: `AllocError` for want of memory, or of numbers below 2^32 for the codes.
pub fn codes_by_start(
    alloc: Global,
    arcs: &SpanPool,
    keys: Vec<u32>,
    count: usize,
) -> Result<Vec<u32>, AllocError>
    ensures all { IfOk result (λ v. IsPermutation (signed_below (length arcs.now.spans)) (map signed_of v.items)) }
    ensures sorted { IfOk result (λ v. IsSortedByKey (start_of arcs.now.spans) point_cmp (map signed_of v.items)) }
{
    if arcs.count() > u32::MAX / 2 {
        return Err(AllocError);
    }
    let by_key = order_by_key(alloc, &keys, count)?;
    drop(keys);
    let all = numbers_below(alloc, 2 * arcs.count() as usize)?;
    let mut codes = gathered(alloc, &all, &by_key)?;
    drop(all);
    // After this the sort has only to find the arcs in order.
    codes.sort_unstable_by_key(|code| start_of(arcs, signed_of(*code)));
    Ok(codes)
}

/// The signed arc with a code: twice the number of its arc, and one more where it is reversed.
#[inline(always)]
pub fn signed_of(code: u32) -> SignedArc
    ensures exact { result ≡ signed_of code }
{
    let id = ArcId::new(code / 2);
    if code % 2 == 0 {
        SignedArc::forward(id)
    } else {
        SignedArc::backward(id)
    }
}

/// The step that a signed arc begins with.
pub fn first_step(arcs: &SpanPool, a: SignedArc) -> Step
    requires long { All (λ arc. 1 < length arc) arcs.now.spans }
    requires there { a.arc < length arcs.now.spans }
    ensures exact { result ≡ first_step arcs.now.spans a }
{
    let points = arcs.get(SpanId::new(a.id().num()));
    let last = points.len() - 1;
    if a.is_reversed() {
        Step::new(points[last], points[last - 1])
    } else {
        Step::new(points[0], points[1])
    }
}

/// Where a signed arc starts; of one that isn't there, the origin.
pub fn start_of(arcs: &SpanPool, a: SignedArc) -> Pt
    ensures exact { result ≡ start_of arcs.now.spans a }
{
    let points = points_or_none(arcs, a.id());
    if a.is_reversed() {
        point_or_origin(points, points.len().saturating_sub(1))
    } else {
        point_or_origin(points, 0)
    }
}

// The points of an arc; none of one that isn't there.
fn points_or_none(arcs: &SpanPool, id: ArcId) -> &[Pt]
    ensures exact { result.now ≡ slice_index_or arcs.now.spans id [] }
{
    if id.num() < arcs.count() {
        arcs.get(SpanId::new(id.num()))
    } else {
        &[]
    }
}

// The point at a place, and the origin past the end.
fn point_or_origin(points: &[Pt], k: usize) -> Pt
    ensures exact { result ≡ point_at points.now k }
{
    match points.get(k) {
        Some(p) => *p,
        None => Pt::new(0, 0).unwrap(),
    }
}

/// The order by start, and at one start counterclockwise from the direction of the positive x axis.
pub fn turning(a: &FirstStep, b: &FirstStep) -> Ordering
    ensures less { is_lt result ≡ comes_first a.now.step b.now.step }
{
    if comes_first(&a.step, &b.step) {
        Ordering::Less
    } else if comes_first(&b.step, &a.step) {
        Ordering::Greater
    } else {
        Ordering::Equal
    }
}

/// Whether a step comes before another by start, or at one start counterclockwise from the direction of the positive x
/// axis.
pub fn comes_first(a: &Step, b: &Step) -> bool
    ensures exact { result ≡ comes_first a.now b.now }
{
    is_before(a.from(), b.from()) || is_same(a.from(), b.from()) && comes_round_first(a, b)
}

// Counterclockwise from the direction of the positive x axis, for steps from one point.
fn comes_round_first(a: &Step, b: &Step) -> bool
    requires together { a.now.start ≡ b.now.start }
    ensures exact { result ≡ comes_round_first a.now b.now }
{
    let (half, other) = (half_of(a), half_of(b));
    half < other || half == other && 0 < turn(a.from(), a.to(), b.to())
}

// 0 for a step up or along the positive x axis, 1 for another, and 2 for one that stays where it is.
fn half_of(step: &Step) -> u32
    ensures exact { result ≡ half_of step.now }
{
    if goes_up(step) {
        0
    } else if is_same(step.from(), step.to()) {
        2
    } else {
        1
    }
}

// The step goes up, or along the positive x axis.
fn goes_up(step: &Step) -> bool
    ensures exact { result ≡ goes_up step.now }
{
    let (from, to) = (step.from(), step.to());
    from.y() < to.y() || from.y() == to.y() && from.x() < to.x()
}
