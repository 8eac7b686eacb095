ghost use Rattle.std.specs.Prelude.{◌≡◌, ◌<◌, ◌≤◌, [], All, IfOk, IfSome, OnOk, length, map, slice_index_or, ℕ};
ghost use Rattle.bucket_grid.specs.Slabs.{AreListed, DividesRect, IsPutInto, slab_high, slab_low, slab_part, start_of as start_of_slab, strip as strip_of};

use crate::boxed::Boxed;
use crate::tree::{Axis, Slabs, coordinate, slab_of};
use grid_base::{IdList, Pt, Rect};
use std::alloc::{AllocError, Global};

fn start_of(slabs: &Slabs, slab: u32) -> Option<i64>
    ensures exact { IfSome result (λ start. start ≡ start_of_slab slabs.now slab) }
{
    let past = i64::from(slab).checked_mul(i64::from(slabs.reach) + 1)?;
    slabs.first.checked_add(past)
}

// The part of a rectangle from `low` to `high` along an axis.
fn strip(rect: Rect, axis: Axis, low: i64, high: i64) -> Option<Rect>
    ensures exact { IfSome result (λ part. part ≡ strip_of axis low high rect) }
{
    match axis {
        Axis::Across => Rect::new(
            Pt::new(low, rect.low().y())?,
            Pt::new(high, rect.high().y())?,
        ),
        Axis::Upward => Rect::new(
            Pt::new(rect.low().x(), low)?,
            Pt::new(rect.high().x(), high)?,
        ),
    }
}

// The least number along the axis in the part of a rectangle that lies in a slab.
fn low_of(rect: Rect, slabs: &Slabs, slab: u32) -> Option<i64>
    ensures exact { IfSome result (λ low. low ≡ slab_low slabs.now slab rect) }
{
    if slab == 0 {
        return Some(coordinate(rect.low(), slabs.axis));
    }
    start_of(slabs, slab)
}

// The greatest number there.
fn high_of(rect: Rect, slabs: &Slabs, slab: u32) -> Option<i64>
    ensures exact { IfSome result (λ high. high ≡ slab_high slabs.now slab rect) }
{
    if slab == slabs.last {
        return Some(coordinate(rect.high(), slabs.axis));
    }
    let next = start_of(slabs, slab.checked_add(1)?)?;
    next.checked_sub(1)
}

/// The part of a rectangle that lies in a slab.
pub fn slab_rect(rect: Rect, slabs: &Slabs, slab: u32) -> Option<Rect>
    ensures exact { IfSome result (λ part. part ≡ slab_part slabs.now slab rect) }
{
    let low = low_of(rect, slabs, slab)?;
    let high = high_of(rect, slabs, slab)?;
    strip(rect, slabs.axis, low, high)
}

// Empty lists, `count` of them, each with room for `room` numbers.
fn empty_lists(alloc: Global, count: usize, room: usize) -> Result<Vec<IdList>, AllocError>
    ensures count { IfOk result (λ lists. length lists.items ≡ count) }
    ensures empty { IfOk result (λ lists. (k : ℕ) → slice_index_or lists.items k [] ≡ []) }
{
    let mut lists = Vec::with_capacity(alloc, count)?;
    for _i in 0..count {
        lists.push(IdList::with_capacity(alloc, room)?)?;
    }
    Ok(lists)
}

// Adds a number to each list from `from` to before `end`.
fn add_to_lists(lists: &mut Vec<IdList>, from: usize, end: usize, id: u32) -> Result<(), AllocError>
    requires within { end ≤ length lists.old.items }
    ensures exact { OnOk result (IsPutInto from end id lists.old.items lists.new.items) }
{
    for k in from..end {
        lists[k].push(id)?;
    }
    Ok(())
}

/// For each slab of a rectangle the boxes near it, out of those near the rectangle.
pub fn slab_lists<T: Boxed>(
    alloc: Global,
    items: &[T],
    near: &[u32],
    slabs: &Slabs,
) -> Result<Vec<IdList>, AllocError>
    requires near { All (λ i. i < length items.now) near.now }
    ensures exact { IfOk result (λ lists. AreListed slabs.now (map T.corners items.now) near.now lists.items) }
{
    let count = slabs.last as usize + 1;
    // Most boxes lie in one slab or two.
    let room = (near.len() / count).saturating_mul(3) / 2;
    let mut lists = empty_lists(alloc, count, room)?;
    for i in near {
        let rect = items[*i as usize].rect();
        let from = slab_of(slabs, coordinate(rect.low(), slabs.axis));
        let to = slab_of(slabs, coordinate(rect.high(), slabs.axis));
        add_to_lists(&mut lists, from as usize, to as usize + 1, *i)?;
    }
    Ok(lists)
}
