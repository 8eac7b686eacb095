ghost use Rattle.std.specs.Prelude.{◌≡◌, ℕ, All, IfOk, length, map, slice_get};
ghost use Rattle.std.specs.Option.{option_copied, option_map};
ghost use Rattle.plane_model.specs.Points.{GridPoint};
ghost use Rattle.grid_base.specs.Grid.{IsOnGrid};
ghost use Rattle.bucket_grid.specs.Rects.{IsPlaceOf, boxes_near, whole};

use crate::boxed::Boxed;
use crate::growing::{Forest, MAX_STEPS, fit, grow};
use crate::number_lists::NumberLists;
use crate::sharing::all_near;
use crate::tree::{Node, child_of, coordinate};
use grid_base::{BoxList, LIMIT, Pt, Rect};
use std::alloc::{AllocError, Global};
use std::marker::Model;

/// Rectangles that part the grid, each with the boxes near it.
#[derive(Drop)]
pub struct Buckets {
    nodes: Vec<Node>,
    rects: Vec<Rect>,
    near: NumberLists,
    root: usize,
}

impl Model for Buckets {
    ghost use Rattle.bucket_grid.specs.Rects.{RectLists};
    ghost use Rattle.bucket_grid.specs.Leading.{LeadsEach};

    ghost Value = { RectLists };

    ghost view = { λ b. record { rects = b.rects.items; near = b.near } };

    ghost invariant = { λ b. LeadsEach b.nodes.items b.rects.items b.near b.root };
}

impl Buckets {
    /// Buckets over boxes, which are counted from 0.
    ///
    /// Cost: n log n for boxes that rarely overlap.
    pub fn build(alloc: Global, boxes: &BoxList) -> Result<Buckets, AllocError>
        ensures near { IfOk result (λ b. b.near ≡ map (boxes_near boxes.now) b.rects) }
        ensures places { IfOk result (λ b. (g : GridPoint) → IsOnGrid g → (k : ℕ) × IsPlaceOf b.rects g k) }
    {
        Buckets::build_over(alloc, boxes.as_slice())
    }

    /// Buckets over the boxes of items, which are counted from 0.
    ///
    /// Errors: `AllocError` for want of memory, or of numbers below 2^32 for the items or the buckets.
    /// Cost: n log n for boxes that rarely overlap; takes no memory for the boxes.
    pub fn build_over<T: Boxed>(alloc: Global, items: &[T]) -> Result<Buckets, AllocError>
        ensures near { IfOk result (λ b. b.near ≡ map (boxes_near (map T.corners items.now)) b.rects) }
        ensures places { IfOk result (λ b. (g : GridPoint) → IsOnGrid g → (k : ℕ) × IsPlaceOf b.rects g k) }
        ensures told { IfOk result (λ b. All T.known items.now) }
    {
        let whole = whole_grid()?;
        let near = all_near(alloc, items, whole)?;
        let mut forest = Forest {
            nodes: Vec::new(alloc),
            rects: Vec::new(alloc),
            near: NumberLists::new(alloc),
        };
        let top = grow(&mut forest, alloc, items, whole, near, MAX_STEPS)?;
        fit(&mut forest);
        let Forest {
            mut nodes,
            rects,
            near,
        } = forest;
        let root = nodes.len();
        nodes.push(top)?;
        if rects.len() > u32::MAX as usize {
            return Err(AllocError);
        }
        Ok(Buckets {
            nodes,
            rects,
            near,
            root,
        })
    }

    /// How many buckets there are.
    pub fn count(&self) -> u32
        ensures exact { result ≡ length self.now.rects }
        ensures lists { length self.now.near ≡ length self.now.rects }
    {
        self.rects.len() as u32
    }

    /// The number of the bucket of a point: that of the only rectangle that holds it.
    pub fn bucket_of(&self, p: Pt) -> u32
        ensures place { IsPlaceOf self.now.rects p result }
    {
        let mut node = self.root;
        for _step in 0..MAX_STEPS + 1 {
            match self.nodes[node] {
                Node::Leaf(place) => return place,
                Node::Split { slabs, children } => {
                    node = child_of(&slabs, children, coordinate(p, slabs.axis));
                }
            }
        }
        unreachable!()
    }

    /// The rectangle of a bucket; `None` exactly where `place` is not below the count.
    pub fn area_of(&self, place: u32) -> Option<Rect>
        ensures lookup { result ≡ slice_get self.now.rects place }
    {
        self.rects.get(place as usize).copied()
    }

    /// The numbers of the boxes that share a grid point with the rectangle of a bucket, ascending; `None` exactly where
    /// `place` is not below the count.
    pub fn each_near(&self, place: u32) -> Option<&[u32]>
        ensures lookup { option_map (λ ids. ids.now) result ≡ slice_get self.now.near place }
    {
        self.near.get(place as usize)
    }
}

// The rectangle of all grid points.
fn whole_grid() -> Result<Rect, AllocError>
    ensures exact { IfOk result (λ rect. rect ≡ whole) }
{
    let low = Pt::new(-LIMIT, -LIMIT).ok_or(AllocError)?;
    let high = Pt::new(LIMIT, LIMIT).ok_or(AllocError)?;
    Rect::new(low, high).ok_or(AllocError)
}
