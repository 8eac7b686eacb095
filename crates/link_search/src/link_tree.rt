ghost use Rattle.std.specs.Prelude.{◌≡◌, Contains, IfOk, List, Some, ℕ, filter, slice_get, true, false};
ghost use Rattle.plane_model.specs.Points.{at};
ghost use Rattle.plane_model.specs.Parity.{is_below};
ghost use Rattle.link_search.specs.Descent.{IsFound, IsNotAbove};
ghost use Rattle.link_search.specs.Parting.{Leads, LeadsToAll, parts_of, these, sides, levels, starts_before, stops_past, comes_over, comes_under};
ghost use Rattle.link_search.specs.declared.links.ArcLink.{ArcLink};

use crate::links::ArcLink;
use crate::search::{link_at, topmost_of, topmost_of_all, upper_at};
use crate::under::{is_below, is_over, runs_over};
use grid_base::{IdList, Link, Pt};
use std::alloc::{AllocError, Global};

/// Links, by their numbers, parted again and again: few of them; those left of an abscissa, and those from there on;
/// or those under a link, and those over it (a trapezoid tree, after Preparata 1981).
///
/// A link over the abscissa stands in both parts, and so does one that crosses the link.
#[derive(Drop)]
pub enum LinkTree {
    Few(IdList),
    Beside(i64, Box<LinkTree>, Box<LinkTree>),
    Over(u32, Box<LinkTree>, Box<LinkTree>),
}

/// A stretch of abscissas, both ends taken in.
#[derive(Clone, Copy)]
pub struct Stretch {
    pub low: i64,
    pub high: i64,
}

// How links are parted: by an abscissa, or along a link.
#[derive(Clone, Copy)]
enum Cut {
    At(i64),
    Along(u32),
}

/// The greatest number of steps that lead to a part with few links.
pub const MAX_STEPS: u32 = 100;

// The greatest number of links that are not parted.
const FEW: usize = 32;

// The number of links that are tried for a cut.
const CANDIDATES: u64 = 5;

// How many links of the list these are chosen among.
const SAMPLE: u64 = 9;

/// The topmost link below `p`, of `best` and the links of a tree.
///
/// Cost: a step for each division that leads to few links.
pub fn topmost_by(
    links: &[ArcLink],
    tree: &LinkTree,
    p: Pt,
    best: Option<ArcLink>,
) -> Option<ArcLink>
    requires best { IsFound links.now p best }
    ensures found { IsFound links.now p result }
    ensures kept { (k : ArcLink) → is_below (at p) k.link ≡ true → IsNotAbove p k best → IsNotAbove p k result }
    ensures led { (i : ℕ) → (k : ArcLink) → Leads links.now p i k (parts_of tree.now) → slice_get links.now i ≡ Some k → is_below (at p) k.link ≡ true → IsNotAbove p k result }
{
    match tree {
        LinkTree::Few(numbers) => topmost_of(links, numbers.as_slice(), p, best),
        LinkTree::Beside(x, left, right) => {
            if p.x() < *x {
                topmost_by(links, left, p, best)
            } else {
                topmost_by(links, right, p, best)
            }
        }
        LinkTree::Over(j, lower, higher) => match link_at(links, *j) {
            None => topmost_of_all(links, p, best),
            Some(l) => {
                if !is_over(l.link, p) {
                    topmost_of_all(links, p, best)
                } else if is_below(l.link, p) {
                    topmost_by(links, higher, p, upper_at(links, *j, p, best))
                } else {
                    topmost_by(links, lower, p, best)
                }
            }
        },
    }
}

/// A tree of the links with these numbers, for points over a stretch of abscissas, in at most `steps` steps.
pub fn tree_of(
    alloc: Global,
    links: &[ArcLink],
    near: &[u32],
    stretch: Stretch,
    steps: u32,
) -> Result<LinkTree, AllocError>
    ensures leads { IfOk result (λ tree. LeadsToAll links.now near.now (parts_of tree)) }
{
    if steps == 0 || near.len() <= FEW {
        return few(alloc, near);
    }
    match cut_of(alloc, links, near, stretch)? {
        None => few(alloc, near),
        Some(Cut::At(x)) => {
            let starting = left_of(alloc, links, near, x)?;
            let stopping = right_of(alloc, links, near, x)?;
            let left = tree_of(alloc, links, &starting, before(stretch, x), steps - 1)?;
            let right = tree_of(alloc, links, &stopping, past(stretch, x), steps - 1)?;
            beside(alloc, x, left, right)
        }
        Some(Cut::Along(j)) => {
            let Some(l) = link_at(links, j) else {
                return few(alloc, near);
            };
            let under = under_of(alloc, links, near, l.link)?;
            let over = over_of(alloc, links, near, l.link)?;
            let lower = tree_of(alloc, links, &under, stretch, steps - 1)?;
            let higher = tree_of(alloc, links, &over, stretch, steps - 1)?;
            over_link(alloc, j, lower, higher)
        }
    }
}

fn few(alloc: Global, near: &[u32]) -> Result<LinkTree, AllocError>
    ensures exact { IfOk result (λ tree. parts_of tree ≡ these near.now) }
{
    Ok(LinkTree::Few(IdList::of(alloc, near)?))
}

fn beside(alloc: Global, x: i64, left: LinkTree, right: LinkTree) -> Result<LinkTree, AllocError>
    ensures exact { IfOk result (λ tree. parts_of tree ≡ sides x (parts_of left) (parts_of right)) }
{
    let left = Box::new(alloc, left)?;
    let right = Box::new(alloc, right)?;
    Ok(LinkTree::Beside(x, left, right))
}

fn over_link(
    alloc: Global,
    j: u32,
    lower: LinkTree,
    higher: LinkTree,
) -> Result<LinkTree, AllocError>
    ensures exact { IfOk result (λ tree. parts_of tree ≡ levels j (parts_of lower) (parts_of higher)) }
{
    let lower = Box::new(alloc, lower)?;
    let higher = Box::new(alloc, higher)?;
    Ok(LinkTree::Over(j, lower, higher))
}

// Of links with these numbers, those that start left of an abscissa.
fn left_of(alloc: Global, links: &[ArcLink], near: &[u32], x: i64) -> Result<Vec<u32>, AllocError>
    ensures exact { IfOk result (λ part. part.items ≡ filter (λ i. starts_before x (slice_get links.now i)) near.now) }
{
    near.iter()
        .copied()
        .filter(|i| starts_before(link_at(links, *i), x))
        .collect(alloc)
}

fn starts_before(k: Option<ArcLink>, x: i64) -> bool
    ensures exact { result ≡ starts_before x k }
{
    match k {
        Some(k) => k.link.low().x() < x,
        None => false,
    }
}

// Those that stop right of an abscissa.
fn right_of(alloc: Global, links: &[ArcLink], near: &[u32], x: i64) -> Result<Vec<u32>, AllocError>
    ensures exact { IfOk result (λ part. part.items ≡ filter (λ i. stops_past x (slice_get links.now i)) near.now) }
{
    near.iter()
        .copied()
        .filter(|i| stops_past(link_at(links, *i), x))
        .collect(alloc)
}

fn stops_past(k: Option<ArcLink>, x: i64) -> bool
    ensures exact { result ≡ stops_past x k }
{
    match k {
        Some(k) => x < k.link.high().x(),
        None => false,
    }
}

// Those that run over a link somewhere.
fn over_of(alloc: Global, links: &[ArcLink], near: &[u32], l: Link) -> Result<Vec<u32>, AllocError>
    ensures exact { IfOk result (λ part. part.items ≡ filter (λ i. comes_over l (slice_get links.now i)) near.now) }
{
    near.iter()
        .copied()
        .filter(|i| comes_over(link_at(links, *i), l))
        .collect(alloc)
}

fn comes_over(k: Option<ArcLink>, l: Link) -> bool
    ensures exact { result ≡ comes_over l k }
{
    match k {
        Some(k) => !runs_over(l, k.link),
        None => false,
    }
}

// Those that run under a link somewhere.
fn under_of(alloc: Global, links: &[ArcLink], near: &[u32], l: Link) -> Result<Vec<u32>, AllocError>
    ensures exact { IfOk result (λ part. part.items ≡ filter (λ i. comes_under l (slice_get links.now i)) near.now) }
{
    near.iter()
        .copied()
        .filter(|i| comes_under(link_at(links, *i), l))
        .collect(alloc)
}

fn comes_under(k: Option<ArcLink>, l: Link) -> bool
    ensures exact { result ≡ comes_under l k }
{
    match k {
        Some(k) => !runs_over(k.link, l),
        None => false,
    }
}

// ---- cuts, which are not proved: a bad one costs time alone

fn before(stretch: Stretch, x: i64) -> Stretch {
    Stretch {
        low: stretch.low,
        high: x.saturating_sub(1),
    }
}

fn past(stretch: Stretch, x: i64) -> Stretch {
    Stretch {
        low: x,
        high: stretch.high,
    }
}

fn is_across(l: &ArcLink, stretch: Stretch) -> bool {
    l.link.low().x() <= stretch.low && stretch.high < l.link.high().x()
}

// Along a link over the whole stretch, where at least a quarter of the links are; else at an end within the stretch,
// about the middle one. There is none where no end is within.
fn cut_of(
    alloc: Global,
    links: &[ArcLink],
    near: &[u32],
    stretch: Stretch,
) -> Result<Option<Cut>, AllocError> {
    if count_across(links, near, stretch) >= near.len() / 4 {
        if let Some(j) = middle_link(links, near, stretch) {
            return Ok(Some(Cut::Along(j)));
        }
    }
    match middle_end(alloc, links, near, stretch)? {
        Some(x) => Ok(Some(Cut::At(x))),
        None => Ok(None),
    }
}

fn count_across(links: &[ArcLink], near: &[u32], stretch: Stretch) -> usize {
    let mut count: usize = 0;
    for i in near {
        if let Some(l) = link_at(links, *i) {
            count = count.saturating_add(is_across(&l, stretch) as usize);
        }
    }
    count
}

// One of the links with these numbers, the first of a ninth of them or one close after it, and its number.
fn sample_at(links: &[ArcLink], near: &[u32], k: u64) -> Option<(u32, ArcLink)> {
    let scattered = k.wrapping_mul(0x9E37_79B9_7F4A_7C15) >> 32;
    let first = (near.len() as u64).saturating_mul(k) / SAMPLE;
    let i = *near.get(first.saturating_add(scattered % 7) as usize)?;
    let l = link_at(links, i)?;
    Some((i, l))
}

// How far from the middle of a sample a link runs.
fn excess_of(links: &[ArcLink], near: &[u32], l: &ArcLink) -> u32 {
    let mut over: u32 = 0;
    let mut others: u32 = 0;
    for k in 0..SAMPLE {
        if let Some((_, m)) = sample_at(links, near, k) {
            if runs_over(m.link, l.link) {
                over = over.saturating_add(1);
            } else {
                others = others.saturating_add(1);
            }
        }
    }
    over.abs_diff(others)
}

// The number of a link over the whole stretch that runs about amid the others.
fn middle_link(links: &[ArcLink], near: &[u32], stretch: Stretch) -> Option<u32> {
    let mut best = None;
    let mut least = u32::MAX;
    for k in 0..CANDIDATES {
        if let Some((i, l)) = sample_at(links, near, 2 * k) {
            let excess = excess_across(links, near, &l, stretch);
            if excess < least {
                least = excess;
                best = Some(i);
            }
        }
    }
    best
}

// The same for a link over the whole stretch; no other is chosen.
fn excess_across(links: &[ArcLink], near: &[u32], l: &ArcLink, stretch: Stretch) -> u32 {
    if is_across(l, stretch) {
        excess_of(links, near, l)
    } else {
        u32::MAX
    }
}

// About the middle one of the ends within a stretch.
fn middle_end(
    alloc: Global,
    links: &[ArcLink],
    near: &[u32],
    stretch: Stretch,
) -> Result<Option<i64>, AllocError> {
    let mut ends = Vec::new(alloc);
    for i in near {
        if let Some(l) = link_at(links, *i) {
            push_within(&mut ends, l.link.low().x(), stretch)?;
            push_within(&mut ends, l.link.high().x(), stretch)?;
        }
    }
    ends.sort_unstable();
    Ok(ends.get(ends.len() / 2).copied())
}

fn push_within(ends: &mut Vec<i64>, x: i64, stretch: Stretch) -> Result<(), AllocError> {
    if stretch.low < x && x <= stretch.high {
        ends.push(x)?;
    }
    Ok(())
}
