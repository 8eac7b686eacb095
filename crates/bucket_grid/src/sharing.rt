ghost use Rattle.std.specs.Prelude.{◌≡◌, ◌&&◌, int_le, All, IfOk, map};
ghost use Rattle.bucket_grid.specs.Rects.{share_point, boxes_near};

use crate::boxed::Boxed;
use grid_base::{IdList, Rect};
use std::alloc::{AllocError, Global};

// Whether two ranges share a number.
fn overlap(low: i64, high: i64, other_low: i64, other_high: i64) -> bool
    ensures exact { result ≡ (int_le low other_high && int_le other_low high) }
{
    low <= other_high && other_low <= high
}

/// Whether two rectangles share a grid point.
pub fn share(a: Rect, b: Rect) -> bool
    ensures exact { result ≡ share_point a b }
{
    overlap(a.low().x(), a.high().x(), b.low().x(), b.high().x())
        && overlap(a.low().y(), a.high().y(), b.low().y(), b.high().y())
}

/// The boxes near a rectangle.
///
/// Errors: `AllocError` for want of memory, or of numbers below 2^32 for the items.
pub fn all_near<T: Boxed>(alloc: Global, items: &[T], rect: Rect) -> Result<IdList, AllocError>
    ensures near { IfOk result (λ ids. ids ≡ boxes_near (map T.corners items.now) rect) }
    ensures told { IfOk result (λ ids. All T.known items.now) }
{
    if items.len() > u32::MAX as usize {
        return Err(AllocError);
    }
    let mut ids = IdList::new(alloc);
    for i in 0..items.len() as u32 {
        if share(rect, items[i as usize].rect()) {
            ids.push(i)?;
        }
    }
    Ok(ids)
}
