ghost use Rattle.std.specs.Prelude.{◌≡◌, ◌<◌, ◌++◌, ◌∷◌, [], All, OnOk, IfOk, if◌then◌else◌, length, slice_get};
ghost use Rattle.hot_pixels.specs.Found.{HasCrossingsAmong};
ghost use Rattle.hot_pixels.specs.Parting.{are_left, is_left, is_left_by, left_numbers};

use crate::pairs::add_crossings_among;
use grid_base::{Pt, Seg, turn};
use std::alloc::{AllocError, Global};

/// The greatest number of lines that part the segments of a bucket, one after the other.
pub const MAX_LINES: u32 = 40;

// The greatest number of segments that are tried pair by pair.
const FEW: usize = 64;

// How many segments are looked at for a line.
const SAMPLE: u64 = 9;

/// Adds the pixels of the crossings among edges with these numbers to `points`, some of them often.
///
/// Many edges are parted by a line, and again: two edges that are on no common side of it meet in a common end at the
/// most. So n segments that cross seldom are tried in n log n steps, however long they are.
pub fn add_crossings_parted(
    points: &mut Vec<Pt>,
    alloc: Global,
    edges: &[Seg],
    near: &[u32],
    lines: u32,
) -> Result<(), AllocError>
    requires { All (λ i. i < length edges.now) near.now }
    ensures ok { OnOk result (HasCrossingsAmong edges.now near.now points.old.items points.new.items) }
{
    if lines == 0 || near.len() <= FEW {
        return add_crossings_among(points, edges, near);
    }
    let Some(line) = line_of(edges, near) else {
        return add_crossings_among(points, edges, near);
    };
    let left = left_of(alloc, edges, near, &line)?;
    let right = left_of(alloc, edges, near, &line.back())?;
    if !is_helpful(near.len(), left.len(), right.len()) {
        return add_crossings_among(points, edges, near);
    }
    add_crossings_parted(points, alloc, edges, &left, lines - 1)?;
    add_crossings_parted(points, alloc, edges, &right, lines - 1)
}

// Whether a segment is on the left of a line: it has an end there, or lies in the line.
fn is_left(line: &Seg, s: &Seg) -> bool
    ensures exact { result ≡ is_left line.now s.now }
{
    are_left(
        turn(line.a(), line.b(), s.a()),
        turn(line.a(), line.b(), s.b()),
    )
}

// The same of where its ends stand to the line.
fn are_left(start: i128, stop: i128) -> bool
    ensures exact { result ≡ are_left start stop }
{
    0 < start || 0 < stop || 0 <= start && 0 <= stop
}

fn is_left_at(edges: &[Seg], i: u32, line: &Seg) -> bool
    requires { i < length edges.now }
    ensures exact { result ≡ is_left_by line.now (slice_get edges.now i) }
{
    is_left(line, &edges[i as usize])
}

fn push_if(numbers: &mut Vec<u32>, i: u32, is_wanted: bool) -> Result<(), AllocError>
    ensures ok { OnOk result (numbers.new.items ≡ (if is_wanted then numbers.old.items ++ i ∷ [] else numbers.old.items)) }
{
    if is_wanted {
        numbers.push(i)?;
    }
    Ok(())
}

// Those on the left of a line, of edges with these numbers.
fn left_of(alloc: Global, edges: &[Seg], near: &[u32], line: &Seg) -> Result<Vec<u32>, AllocError>
    requires { All (λ i. i < length edges.now) near.now }
    ensures exact { IfOk result (λ left. left.items ≡ left_numbers line.now edges.now near.now) }
{
    let mut left = Vec::new(alloc);
    for i in near {
        push_if(&mut left, *i, is_left_at(edges, *i, line))?;
    }
    Ok(left)
}

// Whether a line parts edges well, and few of them are on both sides.
fn is_helpful(all: usize, left: usize, right: usize) -> bool {
    let both = left.saturating_add(right);
    left.max(right) <= all - all / 8 && both <= all.saturating_add(all / 4)
}

// One of the edges with these numbers: the first of a ninth of them, or one of the six after it.
fn sample_at(edges: &[Seg], near: &[u32], k: u64) -> Option<Seg> {
    let scattered = k.wrapping_mul(0x9E37_79B9_7F4A_7C15) >> 32;
    let first = (near.len() as u64).saturating_mul(k) / SAMPLE;
    let i = near.get(first.saturating_add(scattered % 7) as usize)?;
    edges.get(*i as usize).copied()
}

// How many edges of a sample are on the left of a line.
fn load_of(edges: &[Seg], near: &[u32], line: &Seg) -> u32 {
    let mut load: u32 = 0;
    for k in 0..SAMPLE {
        if let Some(s) = sample_at(edges, near, k) {
            load = load.saturating_add(is_left(line, &s) as u32);
        }
    }
    load
}

// A line that parts the edges with these numbers well: of those along some, the one with the fewest on one side.
fn line_of(edges: &[Seg], near: &[u32]) -> Option<Seg> {
    let mut best = None;
    let mut least = u32::MAX;
    for k in 0..SAMPLE {
        if let Some(line) = sample_at(edges, near, k) {
            let load = load_of(edges, near, &line).max(load_of(edges, near, &line.back()));
            if load < least {
                least = load;
                best = Some(line);
            }
        }
    }
    best
}
