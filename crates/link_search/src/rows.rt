ghost use Rattle.std.specs.Prelude.{◌≡◌, ◌<◌, All, IfOk, length};
ghost use Rattle.link_search.specs.Topmost.{HasGridEnds};
ghost use Rattle.link_search.specs.Rows.{AreLowest, AreStops, IsFirstOfRow, IsFirstOfTwo, IsLowestAt, starts_row};

use crate::arrivals::{arrives_at, place_from};
use crate::links::{ArcLink, highs_of};
use grid_base::{Pt, is_same, turn};
use std::alloc::{AllocError, Global};

/// For each link, which stand by their lesser ends, whether it is the first of those that leave this end, and none
/// arrives there. `high_positions` has for each the position of its greater end among these ends in order: a wrong one
/// costs time alone.
pub fn lowest_of(
    alloc: Global,
    links: &[ArcLink],
    high_positions: &[u32],
) -> Result<Vec<bool>, AllocError>
    ensures each { IfOk result (λ v. length v.items ≡ length links.now) }
    ensures exact { IfOk result (λ v. AreLowest links.now v.items) }
{
    let highs = highs_of(alloc, links, high_positions)?;
    let mut lowest = Vec::with_capacity(alloc, links.len())?;
    let mut before = 0;
    for i in 0..links.len() {
        before = place_from(&highs, links[i].link.low(), before);
        lowest.push(is_lowest(links, &highs, i, before))?;
    }
    Ok(lowest)
}

// Whether the link at a place is the first of those that leave its lesser end, and none arrives there. `guess` is where
// the greater ends come to the lesser one: a wrong one costs time alone.
fn is_lowest(links: &[ArcLink], highs: &[Pt], i: usize, guess: usize) -> bool
    requires there { i < length links.now }
    requires highs { AreStops links.now highs.now }
    ensures exact { IsLowestAt links.now i result }
{
    starts_row(links, i) && !arrives_at(highs, links[i].link.low(), guess)
}

// Whether no link before the one at a place leaves the same vertex.
fn starts_row(links: &[ArcLink], i: usize) -> bool
    requires there { i < length links.now }
    ensures exact { result ≡ starts_row links.now i }
{
    i == 0 || !is_same(links[i - 1].link.low(), links[i].link.low())
}

/// Of the links that leave one vertex, from the one at `i` on, the first counterclockwise from straight down.
pub fn first_round(links: &[ArcLink], i: usize) -> ArcLink
    requires there { i < length links.now }
    requires ordered { All HasGridEnds links.now }
    ensures exact { IsFirstOfRow links.now i result }
{
    let mut first = links[i];
    for j in i + 1..links.len() {
        if !is_same(links[j].link.low(), first.link.low()) {
            return first;
        }
        first = first_of_two(first, links[j]);
    }
    first
}

// Of two links from one vertex, the first counterclockwise from straight down.
fn first_of_two(first: ArcLink, next: ArcLink) -> ArcLink
    requires same { next.link.start ≡ first.link.start }
    requires ordered { HasGridEnds first × HasGridEnds next }
    ensures exact { IsFirstOfTwo first next result }
{
    if turn(first.link.low(), first.link.high(), next.link.high()) < 0 {
        next
    } else {
        first
    }
}
