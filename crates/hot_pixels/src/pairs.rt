ghost use Rattle.std.specs.Prelude.{◌≡◌, ◌++◌, All, OnOk, IfOk, length, ◌<◌, Some, slice_get};
ghost use Rattle.std.specs.Option.{option_to_list};
ghost use Rattle.hot_pixels.specs.Found.{AreBucketsOver, HasAllCrossings, HasCrossingsBefore};
ghost use Rattle.hot_pixels.specs.Spots.{crossing_between, crossings_with, crossings_among};

use crate::beside::{is_beside, share_end};
use crate::crossing::crossing_pixel;
use crate::parting::{MAX_LINES, add_crossings_parted};
use bucket_grid::Buckets;
use grid_base::{Pt, Seg};
use std::alloc::{AllocError, Global};

// The crossing of two edges, if they have no end in common.
fn crossing_of(s: &Seg, t: &Seg) -> Option<Pt>
    ensures exact { result ≡ crossing_between (Some s.now) (Some t.now) }
{
    if is_beside(s, t) {
        return None;
    }
    if share_end(s, t) {
        return None;
    }
    crossing_pixel(s, t)
}

fn push_some(points: &mut Vec<Pt>, found: Option<Pt>) -> Result<(), AllocError>
    ensures added { OnOk result (points.new.items ≡ points.old.items ++ option_to_list found) }
{
    if let Some(p) = found {
        points.push(p)?;
    }
    Ok(())
}

fn add_crossings_with(
    points: &mut Vec<Pt>,
    edges: &[Seg],
    near: &[u32],
    i: u32,
) -> Result<(), AllocError>
    requires first { i < length edges.now }
    requires there { All (λ j. j < length edges.now) near.now }
    ensures added { OnOk result (points.new.items ≡ points.old.items ++ crossings_with edges.now i near.now) }
{
    let s = &edges[i as usize];
    for j in near {
        push_some(points, crossing_of(s, &edges[*j as usize]))?;
    }
    Ok(())
}

/// Adds the pixels of the crossings among edges with these numbers: each is tried with those after it.
pub fn add_crossings_among(
    points: &mut Vec<Pt>,
    edges: &[Seg],
    near: &[u32],
) -> Result<(), AllocError>
    requires { All (λ i. i < length edges.now) near.now }
    ensures added { OnOk result (points.new.items ≡ points.old.items ++ crossings_among edges.now near.now) }
{
    for k in 0..near.len() {
        add_crossings_with(points, edges, &near[k + 1..], near[k])?;
    }
    Ok(())
}

/// The boxes of a bucket.
pub fn near_of(buckets: &Buckets, place: u32) -> &[u32]
    requires { place < length buckets.now.near }
    ensures exact { slice_get buckets.now.near place ≡ Some result.now }
{
    match buckets.each_near(place) {
        Some(near) => near,
        None => unreachable!(),
    }
}

fn add_crossings_in(
    points: &mut Vec<Pt>,
    alloc: Global,
    edges: &[Seg],
    buckets: &Buckets,
) -> Result<(), AllocError>
    requires { AreBucketsOver edges.now buckets.now }
    ensures ok { OnOk result (HasCrossingsBefore (length buckets.now.near) buckets.now.near edges.now points.old.items points.new.items) }
{
    for place in 0..buckets.count() {
        add_crossings_parted(points, alloc, edges, near_of(buckets, place), MAX_LINES)?;
    }
    Ok(())
}

/// Buckets over the boxes of the edges.
pub fn buckets_over(alloc: Global, edges: &[Seg]) -> Result<Buckets, AllocError>
    ensures made { IfOk result (AreBucketsOver edges.now) }
{
    Buckets::build_over(alloc, edges)
}

/// Adds the pixels of all crossings of the edges to `points`, some of them often.
pub fn add_crossings(
    points: &mut Vec<Pt>,
    alloc: Global,
    edges: &[Seg],
    buckets: &Buckets,
) -> Result<(), AllocError>
    requires { AreBucketsOver edges.now buckets.now }
    ensures ok { OnOk result (HasAllCrossings edges.now points.old.items points.new.items) }
{
    add_crossings_in(points, alloc, edges, buckets)
}
