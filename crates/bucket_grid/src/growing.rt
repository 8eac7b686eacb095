ghost use Rattle.std.specs.Prelude.{◌≡◌, ◌<◌, List, All, IfOk, IfSome, length, map, ℕ};
ghost use Rattle.grid_base.specs.Grid.{Corners};
ghost use Rattle.bucket_grid.specs.Rects.{Holds, boxes_near};
ghost use Rattle.bucket_grid.specs.Division.{IsDivisionOf};
ghost use Rattle.bucket_grid.specs.Slabs.{DividesRect};
ghost use Rattle.bucket_grid.specs.Tree.{Grew};

use crate::boxed::Boxed;
use crate::cutting::cut_of;
use crate::dividing::slabs_of;
use crate::number_lists::NumberLists;
use crate::slab_lists::{slab_lists, slab_rect};
use crate::tree::{Axis, Node, Slabs};
use grid_base::{IdList, Rect, next_number};
use std::alloc::{AllocError, Global};

/// A tree of divisions as far as it has grown: its nodes, the rectangles of its leaves, and the boxes near each.
#[derive(Drop)]
pub struct Forest {
    pub nodes: Vec<Node>,
    pub rects: Vec<Rect>,
    pub near: NumberLists,
}

/// A division of a rectangle, and for each slab the boxes near it.
#[derive(Drop)]
pub struct Division {
    pub slabs: Slabs,
    pub lists: Vec<IdList>,
}

/// The greatest number of divisions that lead to a leaf: into columns, into rows, then by cuts.
pub const MAX_STEPS: u32 = 42;

// The greatest number of cuts among them.
const MAX_CUTS: u32 = 40;

// A rectangle that meets at most this number of boxes is not divided.
const BUCKET_SIZE: u32 = 24;

// The number of boxes that a cell of a column should get, on the average.
const CELL_SIZE: u64 = 8;

fn add_leaf(forest: &mut Forest, rect: Rect, near: IdList) -> Result<Node, AllocError>
    ensures exact { IfOk result (λ top. (steps : ℕ) (boxes : List Corners) → near ≡ boxes_near boxes rect →
        Grew steps boxes (Holds rect) forest.old.nodes.items forest.new.nodes.items forest.old.rects.items forest.new.rects.items forest.old.near forest.new.near (λ g. top)) }
{
    let place = next_number(forest.rects.len())?;
    forest.rects.push(rect)?;
    forest.near.push(near.as_slice())?;
    Ok(Node::Leaf(place))
}

/// Gives back the memory that the lists of leaves have to spare.
pub fn fit(forest: &mut Forest)
    ensures nodes { forest.new.nodes.items ≡ forest.old.nodes.items }
    ensures rects { forest.new.rects.items ≡ forest.old.rects.items }
    ensures near { forest.new.near ≡ forest.old.near }
{
    forest.rects.shrink_to_fit();
    forest.near.fit();
}

// Whether a cut leaves each part with fewer boxes, and does not list too many boxes twice.
fn is_helpful(all: u32, lists: &[IdList]) -> bool {
    let mut count = 0u64;
    let mut largest = 0;
    for near in lists {
        count = count.saturating_add(u64::from(near.len()));
        largest = near.len().max(largest);
    }
    largest < all && count <= all as u64 + all as u64 / 2
}

// Whether many slabs leave at most half of the pairs of boxes in one list.
fn is_even(all: u32, lists: &[IdList]) -> bool {
    let mut pairs = 0u64;
    for near in lists {
        let count = u64::from(near.len());
        pairs = pairs.saturating_add(count.saturating_mul(count));
    }
    pairs <= u64::from(all).saturating_mul(u64::from(all)) / 2
}

// Columns for the first step and cells of a column for the second, each where the boxes suit them.
fn slabs_at<T: Boxed>(items: &[T], near: &[u32], rect: Rect, steps: u32) -> Option<Slabs>
    ensures divides { IfSome result (DividesRect rect) }
{
    let cells = near.len() as u64 / CELL_SIZE;
    if steps > MAX_CUTS + 1 {
        slabs_of(items, near, rect, Axis::Across, cells.isqrt())
    } else if steps > MAX_CUTS {
        slabs_of(items, near, rect, Axis::Upward, cells)
    } else {
        None
    }
}

// The division for a step, as far as it parts the boxes well: into slabs of one width, or else by a cut.
fn division_of<T: Boxed>(
    alloc: Global,
    items: &[T],
    near: &IdList,
    rect: Rect,
    steps: u32,
) -> Result<Option<Division>, AllocError>
    requires near { All (λ i. i < length items.now) near.now }
    ensures parted { IfOk result (λ found. IfSome found (IsDivisionOf (map T.corners items.now) rect near.now)) }
{
    let ids = near.as_slice();
    if let Some(slabs) = slabs_at(items, ids, rect, steps) {
        let lists = slab_lists(alloc, items, ids, &slabs)?;
        if is_even(near.len(), &lists) {
            return Ok(Some(Division { slabs, lists }));
        }
    }
    let Some(slabs) = cut_of(alloc, items, ids, rect)? else {
        return Ok(None);
    };
    let lists = slab_lists(alloc, items, ids, &slabs)?;
    if !is_helpful(near.len(), &lists) {
        return Ok(None);
    }
    Ok(Some(Division { slabs, lists }))
}

/// Grows a tree over a rectangle, in at most `steps` steps, and answers its top node, which is not among the nodes.
pub fn grow<T: Boxed>(
    forest: &mut Forest,
    alloc: Global,
    items: &[T],
    rect: Rect,
    near: IdList,
    steps: u32,
) -> Result<Node, AllocError>
    requires near { near ≡ boxes_near (map T.corners items.now) rect }
    ensures grew { IfOk result (λ top.
        Grew steps (map T.corners items.now) (Holds rect) forest.old.nodes.items forest.new.nodes.items forest.old.rects.items forest.new.rects.items forest.old.near forest.new.near (λ g. top)) }
{
    if steps == 0 || near.len() <= BUCKET_SIZE {
        return add_leaf(forest, rect, near);
    }
    let Some(division) = division_of(alloc, items, &near, rect, steps)? else {
        return add_leaf(forest, rect, near);
    };
    drop(near);
    let Division { slabs, mut lists } = division;
    let mut tops = Vec::with_capacity(alloc, lists.len())?;
    while let Some(part) = lists.pop() {
        let slab = slab_rect(rect, &slabs, lists.len() as u32).ok_or(AllocError)?;
        tops.push(grow(forest, alloc, items, slab, part, steps - 1)?)?;
    }
    let children = next_number(forest.nodes.len())?;
    forest.nodes.extend_from_slice(&tops)?;
    Ok(Node::Split { slabs, children })
}
