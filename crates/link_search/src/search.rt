ghost use Rattle.std.specs.Prelude.{◌≡◌, All, Contains, IfOk, IfSome, OnOk, List, Some, ℕ, length, map, slice_get, slice_index_or, true, false, ◌<◌, ◌-ℤ◌, pos};
ghost use Rattle.plane_model.specs.Points.{at};
ghost use Rattle.plane_model.specs.Parity.{is_below};
ghost use Rattle.bucket_grid.specs.Rects.{boxes_near, whole};
ghost use Rattle.grid_base.specs.Grid.{IsOnGrid, grid_point};
ghost use Rattle.link_search.specs.Descent.{IsBelowPoint, IsFound, IsNextBelow, IsNotAbove, IsSettled, IsUpper};
ghost use Rattle.link_search.specs.Parting.{AreTreesOver, LeadsToAll, parts_of};
ghost use Rattle.link_search.specs.PlaceNumbers.{HasPlaces};
ghost use Rattle.link_search.specs.Rows.{AreByStart};
ghost use Rattle.link_search.specs.Topmost.{HasGridEnds, IsTopmostBelow, boxes_of};
ghost use Rattle.link_search.specs.declared.link_tree.LinkTree.{LinkTree};
ghost use Rattle.link_search.specs.declared.links.ArcLink.{ArcLink};

use crate::link_tree::{LinkTree, MAX_STEPS, Stretch, topmost_by, tree_of};
use crate::links::ArcLink;
use crate::under::{goes_under, is_at_or_above, is_below};
use bucket_grid::Buckets;
use grid_base::Pt;
use std::alloc::{AllocError, Global};

// Near so few links, or where so few rays start at these, the links are tried one by one: a tree would cost more.
const CROWD: usize = 64;

const MANY_RAYS: usize = 200;

/// The links of all arcs, in order, and buckets over them.
#[derive(Drop)]
pub struct LinkSearch {
    pub links: Vec<ArcLink>,
    pub buckets: Buckets,
    // for each bucket a tree of the links near it, where these are many
    pub trees: Vec<Option<LinkTree>>,
    ghost near: { buckets.near ≡ map (boxes_near (boxes_of links.items)) buckets.rects },
    ghost on_grid: { All HasGridEnds links.items },
    ghost sorted: { AreByStart links.items },
    ghost led: { ∥ AreTreesOver links.items buckets.near trees.items ∥₁ },
}

impl LinkSearch {
    /// The search among links, which stand by their lesser ends. `lowest` says of each whether a ray starts at it, as
    /// `lowest_of` has it: a wrong answer costs time alone.
    ///
    /// Errors: `AllocError` for want of memory, or of numbers below 2^32 for links or buckets.
    pub fn of(alloc: Global, links: Vec<ArcLink>, lowest: &[bool]) -> Result<LinkSearch, AllocError>
        requires sorted { AreByStart links.items }
        ensures same { IfOk result (λ s. s.links.items ≡ links.items) }
    {
        let buckets = Buckets::build_over(alloc, &links)?;
        let trees = trees_of(alloc, &links, lowest, &buckets)?;
        Ok(LinkSearch {
            links,
            buckets,
            trees,
        })
    }

    /// The topmost link below a point, just right of it; `None` where no link is below.
    ///
    /// The buckets are gone through downwards, until a link is found that no link in a lower one can pass.
    pub fn topmost_below(&self, p: Pt) -> Option<ArcLink>
        ensures exact { IsTopmostBelow self.now.links.items p result }
        ensures there { (m : ℕ) → All (λ l. HasPlaces m l.along) self.now.links.items → IfSome result (λ l. HasPlaces m l.along) }
    {
        let mut best = None;
        let mut next = Some(p);
        while let Some(at) = next {
            let place = self.buckets.bucket_of(at);
            best = self.topmost_in(place, p, best);
            next = self.next_below(place, p, &best);
        }
        best
    }

    // The next point to look from, below a bucket; `None` where no link in a lower bucket can pass `best`.
    fn next_below(&self, place: u32, p: Pt, best: &Option<ArcLink>) -> Option<Pt>
        requires place { place < length self.now.buckets.rects }
        ensures exact { IsNextBelow (slice_index_or self.now.buckets.rects place whole) p best.now result }
        ensures on_grid { IsOnGrid p }
    {
        let rect = self.buckets.area_of(place)?;
        let bottom = straight_below(p, rect.low())?;
        if is_settled(best, bottom) {
            return None;
        }
        point_below(bottom)
    }

    // The topmost link below `p`, of `best` and the links in a bucket.
    fn topmost_in(&self, place: u32, p: Pt, best: Option<ArcLink>) -> Option<ArcLink>
        requires best { IsFound self.now.links.items p best }
        ensures found { IsFound self.now.links.items p result }
        ensures kept { (k : ArcLink) → is_below (at p) k.link ≡ true → IsNotAbove p k best → IsNotAbove p k result }
        ensures near { (ids : List ℕ) → slice_get self.now.buckets.near place ≡ Some ids → (i : ℕ) → (k : ArcLink) → Contains ids i →
            slice_get self.now.links.items i ≡ Some k → is_below (at p) k.link ≡ true → IsNotAbove p k result }
    {
        let Some(near) = self.buckets.each_near(place) else {
            return best;
        };
        match self.trees.get(place as usize) {
            Some(Some(tree)) => topmost_by(&self.links, tree, p, best),
            _ => topmost_of(&self.links, near, p, best),
        }
    }
}

// Whether some bucket has many links.
fn has_crowds(buckets: &Buckets) -> bool {
    for place in 0..buckets.count() {
        if let Some(near) = buckets.each_near(place) {
            if near.len() > CROWD {
                return true;
            }
        }
    }
    false
}

// Whether many rays start at links with these numbers.
fn has_many_rays(lowest: &[bool], near: &[u32]) -> bool {
    let mut count: usize = 0;
    for i in near {
        if let Some(is_start) = lowest.get(*i as usize) {
            count = count.saturating_add(*is_start as usize);
        }
    }
    count > MANY_RAYS
}

// For each bucket a tree of the links near it, where these are many.
fn trees_of(
    alloc: Global,
    links: &[ArcLink],
    lowest: &[bool],
    buckets: &Buckets,
) -> Result<Vec<Option<LinkTree>>, AllocError>
    ensures led { IfOk result (λ trees. AreTreesOver links.now buckets.now.near trees.items) }
{
    let mut trees = Vec::new(alloc);
    if !has_crowds(buckets) {
        return Ok(trees);
    }
    for place in 0..buckets.count() {
        trees.push(tree_at(alloc, links, lowest, buckets, place)?)?;
    }
    Ok(trees)
}

fn tree_at(
    alloc: Global,
    links: &[ArcLink],
    lowest: &[bool],
    buckets: &Buckets,
    place: u32,
) -> Result<Option<LinkTree>, AllocError>
    ensures leads { IfOk result (λ found. (tree : LinkTree) (ids : List ℕ) → found ≡ Some tree → slice_get buckets.now.near place ≡ Some ids → LeadsToAll links.now ids (parts_of tree)) }
{
    let Some(near) = buckets.each_near(place) else {
        return Ok(None);
    };
    let Some(rect) = buckets.area_of(place) else {
        return Ok(None);
    };
    if near.len() <= CROWD || !has_many_rays(lowest, near) {
        return Ok(None);
    }
    let stretch = Stretch {
        low: rect.low().x(),
        high: rect.high().x(),
    };
    Ok(Some(tree_of(alloc, links, near, stretch, MAX_STEPS)?))
}

/// The topmost link below `p`, of `best` and all links.
pub fn topmost_of_all(links: &[ArcLink], p: Pt, best: Option<ArcLink>) -> Option<ArcLink>
    requires best { IsFound links.now p best }
    ensures found { IsFound links.now p result }
    ensures kept { (k : ArcLink) → is_below (at p) k.link ≡ true → IsNotAbove p k best → IsNotAbove p k result }
    ensures all { (i : ℕ) → (k : ArcLink) → slice_get links.now i ≡ Some k → is_below (at p) k.link ≡ true → IsNotAbove p k result }
{
    let mut topmost = best;
    for i in 0..links.len() {
        topmost = upper(topmost, links[i], p);
    }
    topmost
}

/// The topmost link below `p`, of `best` and the links with these numbers.
pub fn topmost_of(links: &[ArcLink], near: &[u32], p: Pt, best: Option<ArcLink>) -> Option<ArcLink>
    requires best { IsFound links.now p best }
    ensures found { IsFound links.now p result }
    ensures kept { (k : ArcLink) → is_below (at p) k.link ≡ true → IsNotAbove p k best → IsNotAbove p k result }
    ensures near { (i : ℕ) → (k : ArcLink) → Contains near.now i → slice_get links.now i ≡ Some k → is_below (at p) k.link ≡ true → IsNotAbove p k result }
{
    let mut topmost = best;
    for i in near {
        topmost = upper_at(links, *i, p, topmost);
    }
    topmost
}

/// The same after one link more.
pub fn upper_at(links: &[ArcLink], i: u32, p: Pt, topmost: Option<ArcLink>) -> Option<ArcLink>
    requires best { IsFound links.now p topmost }
    ensures found { IsFound links.now p result }
    ensures kept { (k : ArcLink) → is_below (at p) k.link ≡ true → IsNotAbove p k topmost → IsNotAbove p k result }
    ensures this { (k : ArcLink) → slice_get links.now i ≡ Some k → is_below (at p) k.link ≡ true → IsNotAbove p k result }
{
    match link_at(links, i) {
        Some(l) => upper(topmost, l, p),
        None => topmost,
    }
}

/// The link with this number.
pub fn link_at(links: &[ArcLink], i: u32) -> Option<ArcLink>
    ensures exact { result ≡ slice_get links.now i }
{
    links.get(i as usize).copied()
}

// The point straight below `p`, as low as `q`.
fn straight_below(p: Pt, q: Pt) -> Option<Pt>
    ensures exact { result ≡ Some (record { x = p.x; y = q.y }) }
    ensures on_grid { IsOnGrid p }
{
    Pt::new(p.x(), q.y())
}

// The point just below; `None` where the grid ends.
fn point_below(p: Pt) -> Option<Pt>
    ensures exact { result ≡ grid_point p.x (p.y -ℤ pos 1) }
{
    Pt::new(p.x(), p.y() - 1)
}

// Whether the topmost link so far passes through a point or above it.
fn is_settled(topmost: &Option<ArcLink>, bottom: Pt) -> bool
    ensures yes { result ≡ true → IsSettled topmost.now bottom }
{
    match *topmost {
        Some(l) => is_at_or_above(l.link, bottom),
        None => false,
    }
}

/// The link, where it is below `p` and no lower than the topmost one so far; else that one.
pub fn upper(topmost: Option<ArcLink>, l: ArcLink, p: Pt) -> Option<ArcLink>
    requires below { IsBelowPoint p topmost }
    ensures exact { IsUpper p topmost l result }
{
    if !is_below(l.link, p) {
        return topmost;
    }
    match topmost {
        Some(k) => upper_of_two(k, l, p),
        None => Some(l),
    }
}

// Of two links below `p`, the second unless it runs below the first.
fn upper_of_two(k: ArcLink, l: ArcLink, p: Pt) -> Option<ArcLink>
    requires first { is_below (at p) k.link ≡ true }
    requires second { is_below (at p) l.link ≡ true }
    ensures exact { IsUpper p (Some k) l result }
{
    if goes_under(k.link, l.link, p) {
        Some(k)
    } else {
        Some(l)
    }
}
