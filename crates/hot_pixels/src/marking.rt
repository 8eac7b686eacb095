ghost use Rattle.std.specs.Prelude.{◌≡◌, ◌++◌, ◌∷◌, [], ◌<◌, ℕ, true, false, if◌then◌else◌, All, OnOk, IfOk, length, drop};
ghost use Rattle.plane_model.specs.Pixel.{meets};
ghost use Rattle.hot_pixels.specs.Found.{AreBucketsOver};
ghost use Rattle.hot_pixels.specs.Meetings.{AreLists, AddsMeetings};
ghost use Rattle.hot_pixels.specs.Marking.{IsEndOf, IsMarked, IsGathered, IsSeen, KeepMarks, AreMarks, AreCrowdsMarked, ends_of, others_of};

use crate::beside::{is_end, is_off};
use crate::half_open::meets;
use crate::meetings::Meeting;
use crate::pairs::near_of;
use bucket_grid::Buckets;
use grid_base::{Pt, PtList, Seg, next_number};
use std::alloc::{AllocError, Global};

// The segments of a bucket that has more are not tried point by point.
const CROWD: usize = 64;

// With more meetings for each point, on average, none are kept.
const MANY: usize = 4;

/// What is known of the points that edges meet besides their ends.
///
/// An edge of a crowded bucket has a mark, and what it meets is among the inner points. Any other has its meetings,
/// from the last one back.
#[derive(Drop)]
pub struct Marking {
    pub crowded: Vec<bool>,
    pub lasts: Vec<Option<u32>>,
    pub meetings: Vec<Meeting>,
    pub inner: Vec<Pt>,
}

/// Marks of the segments of crowded buckets; of the others the points that they meet besides their ends. The points
/// that a marked one may meet so are inner.
pub fn marks_of(
    alloc: Global,
    points: &[Pt],
    edges: &[Seg],
    buckets: &Buckets,
) -> Result<Marking, AllocError>
    requires over { AreBucketsOver edges.now buckets.now }
    ensures exact { IfOk result (λ m. AreMarks points.now edges.now m.crowded.items m.lasts.items m.meetings.items m.inner.items) }
{
    let room = points.len().saturating_mul(MANY);
    let mut crowded = vec![in alloc; false; edges.len()]?;
    mark_crowds(&mut crowded, edges, buckets);
    let mut lasts = vec![in alloc; None; edges.len()]?;
    let mut meetings = Vec::new(alloc);
    let mut inner = Vec::new(alloc);
    for p in points {
        if meetings.len() > room {
            return all_crowded(alloc, points, edges);
        }
        let is_inner = gather_near(&mut lasts, &mut meetings, &crowded, edges, buckets, *p)?;
        push_if(&mut inner, *p, is_inner)?;
    }
    Ok(Marking {
        crowded,
        lasts,
        meetings,
        inner,
    })
}

// All segments have marks, and all points are inner.
fn all_crowded(alloc: Global, points: &[Pt], edges: &[Seg]) -> Result<Marking, AllocError>
    ensures made { IfOk result (λ m. AreMarks points.now edges.now m.crowded.items m.lasts.items m.meetings.items m.inner.items) }
{
    let crowded = vec![in alloc; true; edges.len()]?;
    let lasts = vec![in alloc; None; edges.len()]?;
    let mut inner = Vec::with_capacity(alloc, points.len())?;
    inner.extend_from_slice(points)?;
    Ok(Marking {
        crowded,
        lasts,
        meetings: Vec::new(alloc),
        inner,
    })
}

fn push_if(points: &mut Vec<Pt>, p: Pt, is_wanted: bool) -> Result<(), AllocError>
    ensures ok { OnOk result (points.new.items ≡ (if is_wanted then points.old.items ++ p ∷ [] else points.old.items)) }
{
    if is_wanted {
        points.push(p)?;
    }
    Ok(())
}

// Marks the segments of crowded buckets.
fn mark_crowds(marks: &mut Vec<bool>, edges: &[Seg], buckets: &Buckets)
    requires over { AreBucketsOver edges.now buckets.now }
    requires each { length marks.old.items ≡ length edges.now }
    ensures each { length marks.new.items ≡ length edges.now }
    ensures crowds { AreCrowdsMarked (length buckets.now.near) buckets.now.near marks.new.items }
{
    for place in 0..buckets.count() {
        mark_crowd(marks, near_of(buckets, place));
    }
}

// Marks the segments of a bucket, where they are too many.
fn mark_crowd(marks: &mut Vec<bool>, near: &[u32])
    requires there { All (λ i. i < length marks.old.items) near.now }
    ensures kept { KeepMarks marks.old.items marks.new.items }
    ensures all { 64 < length near.now → All (IsMarked marks.new.items) near.now }
{
    if CROWD < near.len() {
        mark_all(marks, near);
    }
}

fn mark_all(marks: &mut Vec<bool>, near: &[u32])
    requires there { All (λ i. i < length marks.old.items) near.now }
    ensures kept { KeepMarks marks.old.items marks.new.items }
    ensures all { All (IsMarked marks.new.items) near.now }
{
    for k in 0..near.len() {
        mark(marks, near[k]);
    }
}

fn mark(marks: &mut Vec<bool>, i: u32)
    requires there { i < length marks.old.items }
    ensures kept { KeepMarks marks.old.items marks.new.items }
    ensures marked { IsMarked marks.new.items i }
{
    marks[i as usize] = true;
}

// Gathers the meetings of segments with a point. Those of a crowded bucket have marks. The answer is whether a marked
// one may meet the point besides its ends.
fn gather_near(
    lasts: &mut Vec<Option<u32>>,
    meetings: &mut Vec<Meeting>,
    crowded: &[bool],
    edges: &[Seg],
    buckets: &Buckets,
    p: Pt,
) -> Result<bool, AllocError>
    requires over { AreBucketsOver edges.now buckets.now }
    requires each { length crowded.now ≡ length edges.now }
    requires crowds { AreCrowdsMarked (length buckets.now.near) buckets.now.near crowded.now }
    requires lists { AreLists edges.now lasts.old.items meetings.old.items }
    ensures adds { OnOk result (AddsMeetings edges.now p lasts.old.items meetings.old.items lasts.new.items meetings.new.items) }
    ensures seen { IfOk result (λ is_inner. (i : ℕ) → IsSeen edges.now crowded.now lasts.new.items meetings.new.items is_inner p i) }
{
    let near = near_of(buckets, buckets.bucket_of(p));
    if near.len() > CROWD {
        return Ok(true);
    }
    gather_met(lasts, meetings, crowded, edges, near, p)
}

fn gather_met(
    lasts: &mut Vec<Option<u32>>,
    meetings: &mut Vec<Meeting>,
    crowded: &[bool],
    edges: &[Seg],
    near: &[u32],
    p: Pt,
) -> Result<bool, AllocError>
    requires there { All (λ i. i < length edges.now) near.now }
    requires each { length crowded.now ≡ length edges.now }
    requires lists { AreLists edges.now lasts.old.items meetings.old.items }
    ensures adds { OnOk result (AddsMeetings edges.now p lasts.old.items meetings.old.items lasts.new.items meetings.new.items) }
    ensures seen { IfOk result (λ is_inner. All (IsSeen edges.now crowded.now lasts.new.items meetings.new.items is_inner p) near.now) }
{
    let mut is_inner = false;
    for k in 0..near.len() {
        is_inner = gather_if_met(lasts, meetings, crowded, edges, near[k], p, is_inner)?;
    }
    Ok(is_inner)
}

// Gathers the meeting of a segment with a point, where it has no mark. The answer is whether a marked one meets the
// point besides its ends: this segment or one before.
fn gather_if_met(
    lasts: &mut Vec<Option<u32>>,
    meetings: &mut Vec<Meeting>,
    crowded: &[bool],
    edges: &[Seg],
    i: u32,
    p: Pt,
    is_inner: bool,
) -> Result<bool, AllocError>
    requires there { i < length edges.now }
    requires each { length crowded.now ≡ length edges.now }
    requires lists { AreLists edges.now lasts.old.items meetings.old.items }
    ensures adds { OnOk result (AddsMeetings edges.now p lasts.old.items meetings.old.items lasts.new.items meetings.new.items) }
    ensures grows { IfOk result (λ after. is_inner ≡ true → after ≡ true) }
    ensures seen { IfOk result (λ after. IsSeen edges.now crowded.now lasts.new.items meetings.new.items after p i) }
{
    if is_off_or_end(&edges[i as usize], p) {
        return Ok(is_inner);
    }
    if crowded[i as usize] {
        return Ok(is_inner || meets(&edges[i as usize], p));
    }
    gather(lasts, meetings, edges, i, p)?;
    Ok(is_inner)
}

// Adds the meeting of a segment with a point, if it meets the point.
fn gather(
    lasts: &mut Vec<Option<u32>>,
    meetings: &mut Vec<Meeting>,
    edges: &[Seg],
    i: u32,
    p: Pt,
) -> Result<(), AllocError>
    requires there { i < length edges.now }
    requires lists { AreLists edges.now lasts.old.items meetings.old.items }
    ensures adds { OnOk result (AddsMeetings edges.now p lasts.old.items meetings.old.items lasts.new.items meetings.new.items) }
    ensures found { OnOk result (IsGathered edges.now lasts.new.items meetings.new.items p i) }
{
    if !meets(&edges[i as usize], p) {
        return Ok(());
    }
    let before = lasts[i as usize];
    let number = next_number(meetings.len())?;
    meetings.push(Meeting { point: p, before })?;
    lasts[i as usize] = Some(number);
    Ok(())
}

// Whether a point is beside a segment's box, or an end of the segment.
fn is_off_or_end(s: &Seg, p: Pt) -> bool
    ensures yes { result ≡ true → meets s.now p ≡ true → IsEndOf s.now p }
{
    if is_off(s, p) {
        return true;
    }
    is_end(s, p)
}

/// Appends the stop of a segment to a path, if it isn't its start.
pub fn go_to_stop(path: &mut PtList, s: &Seg) -> Result<(), AllocError>
    ensures added { OnOk result (path.new ≡ path.old ++ drop 1 (ends_of s.now)) }
{
    if s.a() != s.b() {
        path.push(s.b())?;
    }
    Ok(())
}

fn add_ends(points: &mut Vec<Pt>, s: &Seg) -> Result<(), AllocError>
    ensures added { OnOk result (points.new.items ≡ points.old.items ++ ends_of s.now) }
{
    points.push(s.a())?;
    if s.a() != s.b() {
        points.push(s.b())?;
    }
    Ok(())
}

fn add_others(points: &mut Vec<Pt>, met: &[Pt], s: &Seg) -> Result<(), AllocError>
    ensures added { OnOk result (points.new.items ≡ points.old.items ++ others_of s.now met.now) }
{
    for p in met {
        push_if(points, *p, !is_end(s, *p))?;
    }
    Ok(())
}

/// The ends of a segment, and those of the points that are none.
pub fn with_ends(alloc: Global, met: &[Pt], s: &Seg) -> Result<Vec<Pt>, AllocError>
    ensures exact { IfOk result (λ all. all.items ≡ ends_of s.now ++ others_of s.now met.now) }
{
    let mut all = Vec::with_capacity(alloc, met.len().saturating_add(2))?;
    add_ends(&mut all, s)?;
    add_others(&mut all, met, s)?;
    Ok(all)
}
