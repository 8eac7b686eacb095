ghost use Rattle.std.specs.Prelude.{IfSome};
ghost use Rattle.bucket_grid.specs.Slabs.{DividesRect};

use crate::boxed::Boxed;
use crate::tree::{Axis, Slabs, coordinate};
use grid_base::Rect;

/// From where to where some boxes reach along an axis, and how long they are together.
#[derive(Clone, Copy)]
struct Extent {
    low: i64,
    high: i64,
    lengths: u64,
}

// The greatest number of slabs that divide a rectangle.
const MAX_SLABS: u64 = 4096;

// With fewer slabs boxes that lie in several of them can cost more than the division saves: a cut is left to do it.
const MIN_SLABS: u32 = 4;

// Each axis has a loop of its own, which computes no side of a box across the other one.
fn extent_of<T: Boxed>(items: &[T], near: &[u32], axis: Axis) -> Option<Extent> {
    match axis {
        Axis::Across => extent_along(items, near, Axis::Across),
        Axis::Upward => extent_along(items, near, Axis::Upward),
    }
}

#[inline(always)]
fn extent_along<T: Boxed>(items: &[T], near: &[u32], axis: Axis) -> Option<Extent> {
    let first = items.get(*near.first()? as usize)?.rect();
    let mut extent = Extent {
        low: coordinate(first.low(), axis),
        high: coordinate(first.high(), axis),
        lengths: 0,
    };
    for i in near {
        if let Some(item) = items.get(*i as usize) {
            let rect = item.rect();
            let (low, high) = (coordinate(rect.low(), axis), coordinate(rect.high(), axis));
            extent.low = extent.low.min(low);
            extent.high = extent.high.max(high);
            extent.lengths = extent.lengths.saturating_add(high.abs_diff(low));
        }
    }
    Some(extent)
}

/// The slabs, where they begin and end within the rectangle.
pub fn dividing(rect: Rect, slabs: Slabs) -> Option<Slabs>
    ensures found { IfSome result (DividesRect rect) }
{
    let low = coordinate(rect.low(), slabs.axis);
    let high = coordinate(rect.high(), slabs.axis);
    let past = u64::from(slabs.last).checked_mul(u64::from(slabs.reach) + 1)?;
    if low <= slabs.first && slabs.first <= high && past <= high.abs_diff(slabs.first) {
        Some(slabs)
    } else {
        None
    }
}

/// About `count` slabs of one width, from where the boxes begin to where they end, or fewer of them, at least twice as
/// wide as the boxes are on the average: in most layouts a box then lies in one and a half of them, and never in more
/// than two and a half, on the average.
pub fn slabs_of<T: Boxed>(
    items: &[T],
    near: &[u32],
    rect: Rect,
    axis: Axis,
    count: u64,
) -> Option<Slabs>
    ensures divides { IfSome result (DividesRect rect) }
{
    let extent = extent_of(items, near, axis)?;
    let span = extent.high.abs_diff(extent.low);
    let mean = extent.lengths / (near.len() as u64 + 1);
    let wanted = span / (count.min(MAX_SLABS) + 1);
    let reach = u32::try_from(wanted.max(mean.saturating_mul(2))).ok()?;
    let last = u32::try_from(span / (u64::from(reach) + 1)).ok()?;
    if last < MIN_SLABS - 1 {
        return None;
    }
    let slabs = Slabs {
        axis,
        first: extent.low,
        reach,
        last,
    };
    dividing(rect, slabs)
}
