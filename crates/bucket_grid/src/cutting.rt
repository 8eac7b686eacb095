ghost use Rattle.std.specs.Prelude.{IfOk, IfSome};
ghost use Rattle.bucket_grid.specs.Slabs.{DividesRect};

use crate::boxed::Boxed;
use crate::dividing::dividing;
use crate::tree::{Axis, Slabs, coordinate};
use grid_base::Rect;
use std::alloc::{AllocError, Global};

/// Where the middle of some boxes is, along one axis, and how far they are spread.
#[derive(Clone, Copy)]
struct Spread {
    middle: i64,
    width: i64,
}

// The greatest number of boxes that are looked at for one median.
const SAMPLE: usize = 12;

fn center(rect: Rect, axis: Axis) -> i64 {
    (coordinate(rect.low(), axis) + coordinate(rect.high(), axis)) / 2
}

fn sample<T: Boxed>(
    alloc: Global,
    items: &[T],
    near: &[u32],
    axis: Axis,
) -> Result<Vec<i64>, AllocError> {
    let mut centers = Vec::with_capacity(alloc, SAMPLE)?;
    for i in near.iter().step_by(near.len() / SAMPLE + 1) {
        if let Some(item) = items.get(*i as usize) {
            centers.push(center(item.rect(), axis))?;
        }
    }
    centers.sort_unstable();
    Ok(centers)
}

fn spread_of<T: Boxed>(
    alloc: Global,
    items: &[T],
    near: &[u32],
    axis: Axis,
) -> Result<Spread, AllocError> {
    let centers = sample(alloc, items, near, axis)?;
    let first = centers.first().copied().unwrap_or(0);
    let last = centers.last().copied().unwrap_or(0);
    let middle = centers.get(centers.len() / 2).copied().unwrap_or(0);
    Ok(Spread {
        middle,
        width: last.saturating_sub(first),
    })
}

// The cut next to `at`: the points up to a number, and those past it.
fn cut_at(rect: Rect, axis: Axis, at: i64) -> Option<Slabs>
    ensures found { IfSome result (DividesRect rect) }
{
    let low = coordinate(rect.low(), axis);
    let high = coordinate(rect.high(), axis);
    let cut = Slabs {
        axis,
        first: at.min(high - 1).max(low),
        reach: 0,
        last: 1,
    };
    dividing(rect, cut)
}

/// A cut of the rectangle near the median of the boxes, across the axis in which they are spread more.
pub fn cut_of<T: Boxed>(
    alloc: Global,
    items: &[T],
    near: &[u32],
    rect: Rect,
) -> Result<Option<Slabs>, AllocError>
    ensures divides { IfOk result (λ found. IfSome found (DividesRect rect)) }
{
    let across = spread_of(alloc, items, near, Axis::Across)?;
    let upward = spread_of(alloc, items, near, Axis::Upward)?;
    if across.width >= upward.width {
        Ok(cut_at(rect, Axis::Across, across.middle))
    } else {
        Ok(cut_at(rect, Axis::Upward, upward.middle))
    }
}
