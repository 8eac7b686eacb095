ghost use Rattle.std.specs.Prelude.{◌≡◌, ◌+◌, ◌<◌, ◌≤◌, ℕ, false, IfOk, OnOk, IsTrue, All, filter, length, take, slice_index_or};
ghost use Rattle.std.specs.List.{count_by};
ghost use Rattle.std.specs.List.Sorted.{IsPermutation};
ghost use Rattle.plane_model.specs.Points.{GridPoint as Point};
ghost use Rattle.plane_model.specs.Pixel.{meets};
ghost use Rattle.bucket_grid.specs.Rects.{Holds};
ghost use Rattle.hot_pixels.specs.Near.{HoldsRun, HoldsBetween, HoldsMore, MeetsNoneBetween};

use crate::aside::is_aside;
use crate::beside::{is_met, is_outside};
use grid_base::{LIMIT, Pt, Rect, Seg, lower_left, upper_right};
use std::alloc::{AllocError, Global};
use std::cmp::Ordering;

/// A run of points, from place `start` to below `stop`, and a rectangle that holds each of them.
///
/// The runs that follow, up to place `next`, are parts of it.
#[derive(Clone, Copy)]
pub struct Run {
    start: usize,
    stop: usize,
    next: usize,
    rect: Rect,
}

// How far a search has come: the points before `from` are done, those from there to below `stop` are to be tried, and
// `run` is the run to look at next. `credit` is how many short runs could have been tried for what the search has saved
// and not spent.
#[derive(Clone, Copy)]
struct Place {
    run: usize,
    from: usize,
    stop: usize,
    credit: usize,
}

// Shorter runs have no parts.
const SHORT_RUN: usize = 8;

// A run is this many times as long as its parts.
const PARTS: usize = 4;

// A search among at most this number of runs asks of no line.
const FEW_RUNS: usize = 128;

// With this credit a longer search asks on which side of a segment's line a run with parts lies. Each short run that
// it tries is worth 1; a run that is passed over, the short runs in it.
const ASKING: usize = 32;

// What a question in vain takes of the credit, so that it is asked seldom where most are in vain.
const VAIN: usize = 32;

// How many lengths of runs there are: the longest has 33,554,432 points.
const LEVELS: u32 = 12;

const LONGEST_RUN: usize = 33_554_432;

fn widened(rect: Rect, p: Pt) -> Result<Rect, AllocError>
    ensures made { IfOk result (HoldsMore rect p) }
{
    let low = lower_left(rect.low(), p);
    let high = upper_right(rect.high(), p);
    let wide = Rect::new(low, high).ok_or(AllocError)?;
    Ok(wide)
}

fn rect_over(points: &[Pt], start: usize, stop: usize) -> Result<Rect, AllocError>
    requires some { start < stop }
    requires within { stop ≤ length points.now }
    ensures made { IfOk result (λ rect. HoldsBetween rect points.now start stop) }
{
    let mut rect = Rect::new(points[start], points[start]).ok_or(AllocError)?;
    for k in start..stop {
        rect = widened(rect, points[k])?;
    }
    Ok(rect)
}

fn least(a: usize, b: usize) -> usize
    ensures left { result ≤ a }
    ensures right { result ≤ b }
    ensures above { (n : ℕ) → n < a → n < b → n < result }
{
    if a <= b { a } else { b }
}

// The number of runs that start before a place.
fn runs_before(place: usize) -> usize {
    let mut count: usize = 0;
    let mut size = SHORT_RUN;
    for _level in 0..LEVELS {
        count = count.wrapping_add(place.div_ceil(size));
        size = size.saturating_mul(PARTS);
    }
    count
}

// Adds the run of `size` points at `start`, where one begins there.
fn add_run(runs: &mut Vec<Run>, points: &[Pt], start: usize, size: usize) -> Result<(), AllocError>
    requires start { start < length points.now }
    requires size { 0 < size }
    ensures ok { OnOk result (All (HoldsRun points.now) runs.old.items → All (HoldsRun points.now) runs.new.items) }
{
    if start % size != 0 {
        return Ok(());
    }
    let stop = least(start.saturating_add(size), points.len());
    let rect = rect_over(points, start, stop)?;
    let next = runs_before(stop);
    runs.push(Run {
        start,
        stop,
        next,
        rect,
    })?;
    Ok(())
}

// How long the parts of a run are.
fn part_of(size: usize) -> usize
    ensures some { 0 < result }
{
    if size < PARTS { 1 } else { size / PARTS }
}

// Adds the runs that begin at `start`, the longest first.
fn add_runs(runs: &mut Vec<Run>, points: &[Pt], start: usize) -> Result<(), AllocError>
    requires { start < length points.now }
    ensures ok { OnOk result (All (HoldsRun points.now) runs.old.items → All (HoldsRun points.now) runs.new.items) }
{
    if start % SHORT_RUN != 0 {
        return Ok(());
    }
    let mut size = LONGEST_RUN;
    for _level in 0..LEVELS {
        add_run(runs, points, start, size)?;
        size = part_of(size);
    }
    Ok(())
}

/// Runs of points, each with a rectangle that holds it: long ones, each followed by its parts.
pub fn runs_over(alloc: Global, points: &[Pt]) -> Result<Vec<Run>, AllocError>
    ensures made { IfOk result (λ runs. All (HoldsRun points.now) runs.items) }
{
    let mut runs = Vec::new(alloc);
    for start in 0..points.len() {
        add_runs(&mut runs, points, start)?;
    }
    Ok(runs)
}

// Whether the box of a segment lies beside a rectangle.
fn is_apart(rect: Rect, s: &Seg) -> bool
    ensures yes { (g : Point) → IsTrue result → Holds rect g → meets s.now g ≡ false }
{
    let (a, b) = (s.a(), s.b());
    let (low, high) = (rect.low(), rect.high());
    if is_outside(a.x(), b.x(), low.x(), high.x()) {
        return true;
    }
    is_outside(a.y(), b.y(), low.y(), high.y())
}

// Whether a run has no parts.
fn is_short(run: &Run) -> bool {
    run.stop <= run.start.saturating_add(SHORT_RUN)
}

// The next points to try: a run that lies beside the segment is passed over.
fn next_place(points: &[Pt], runs: &[Run], s: &Seg, at: Place) -> Place
    requires held { All (HoldsRun points.now) runs.now }
    requires within { at.stop ≤ length points.now }
    ensures from { at.stop ≤ result.from }
    ensures stop { result.from ≤ result.stop }
    ensures within { result.stop ≤ length points.now }
    ensures passed { MeetsNoneBetween s.now points.now at.stop result.from }
{
    let done = at.stop;
    let Some(run) = runs.get(at.run) else {
        return Place {
            run: at.run,
            from: done,
            stop: done,
            credit: at.credit,
        };
    };
    if run.start <= done && done <= run.stop && is_apart(run.rect, s) {
        return Place {
            run: run.next,
            from: run.stop,
            stop: run.stop,
            credit: at.credit,
        };
    }
    if is_short(run) && done <= run.stop {
        return Place {
            run: at.run.saturating_add(1),
            from: done,
            stop: run.stop,
            credit: at.credit.saturating_add(1),
        };
    }
    Place {
        run: at.run.saturating_add(1),
        from: done,
        stop: done,
        credit: at.credit,
    }
}

// The same, where a run that lies on one side of the segment's line is passed over too.
fn next_asked(points: &[Pt], runs: &[Run], s: &Seg, at: Place) -> Place
    requires held { All (HoldsRun points.now) runs.now }
    requires within { at.stop ≤ length points.now }
    ensures from { at.stop ≤ result.from }
    ensures stop { result.from ≤ result.stop }
    ensures within { result.stop ≤ length points.now }
    ensures passed { MeetsNoneBetween s.now points.now at.stop result.from }
{
    let done = at.stop;
    let Some(run) = runs.get(at.run) else {
        return next_place(points, runs, s, at);
    };
    let is_ahead = run.start <= done && done <= run.stop;
    if !is_ahead || is_short(run) || is_apart(run.rect, s) {
        return next_place(points, runs, s, at);
    }
    if is_aside(run.rect, s) {
        let saved = run.stop.saturating_sub(run.start) / SHORT_RUN;
        return Place {
            run: run.next,
            from: run.stop,
            stop: run.stop,
            credit: at.credit.saturating_add(saved),
        };
    }
    Place {
        run: at.run.saturating_add(1),
        from: done,
        stop: done,
        credit: at.credit.saturating_sub(VAIN),
    }
}

// How many points from place `from` to below `stop` the segment meets.
fn count_between(points: &[Pt], from: usize, stop: usize, s: &Seg) -> u64
    requires from { from ≤ stop }
    requires stop { stop ≤ length points.now }
    ensures exact { result + count_by (meets s.now) (take from points.now) ≡ count_by (meets s.now) (take stop points.now) }
{
    let mut count: u64 = 0;
    for k in from..stop {
        if is_met(s, points[k]) {
            count += 1;
        }
    }
    count
}

/// How many points a segment meets.
pub fn count_near(points: &[Pt], runs: &[Run], s: &Seg) -> u64
    requires { All (HoldsRun points.now) runs.now }
    ensures exact { result ≡ count_by (meets s.now) points.now }
{
    let mut at = Place {
        run: 0,
        from: 0,
        stop: 0,
        credit: 0,
    };
    let mut count: u64 = 0;
    for _step in 0..runs.len() {
        if at.run >= runs.len() {
            break;
        }
        at = next_place(points, runs, s, at);
        count += count_between(points, at.from, at.stop, s);
    }
    count + count_between(points, at.stop, points.len(), s)
}

// Adds the points from place `from` to below `stop` that the segment meets.
fn add_between(
    met: &mut Vec<Pt>,
    points: &[Pt],
    from: usize,
    stop: usize,
    s: &Seg,
) -> Result<(), AllocError>
    requires from { from ≤ stop }
    requires stop { stop ≤ length points.now }
    requires met { met.old.items ≡ filter (meets s.now) (take from points.now) }
    ensures ok { OnOk result (met.new.items ≡ filter (meets s.now) (take stop points.now)) }
{
    for k in from..stop {
        if is_met(s, points[k]) {
            met.push(points[k])?;
        }
    }
    Ok(())
}

/// The points that a segment meets, of which each is tried.
pub fn met_among(alloc: Global, points: &[Pt], s: &Seg) -> Result<Vec<Pt>, AllocError>
    ensures exact { IfOk result (λ met. met.items ≡ filter (meets s.now) points.now) }
{
    let mut met = Vec::new(alloc);
    add_between(&mut met, points, 0, points.len(), s)?;
    Ok(met)
}

/// The points that a segment meets.
///
/// A search of few runs asks of each whether it lies beside the segment's box, and a longer one besides on which side
/// of the segment's line some lie.
pub fn met_near(alloc: Global, points: &[Pt], runs: &[Run], s: &Seg) -> Result<Vec<Pt>, AllocError>
    requires { All (HoldsRun points.now) runs.now }
    ensures exact { IfOk result (λ met. met.items ≡ filter (meets s.now) points.now) }
{
    let mut at = Place {
        run: 0,
        from: 0,
        stop: 0,
        credit: 0,
    };
    let mut met = Vec::new(alloc);
    for _step in 0..FEW_RUNS {
        if at.run >= runs.len() {
            break;
        }
        at = next_place(points, runs, s, at);
        add_between(&mut met, points, at.from, at.stop, s)?;
    }
    add_rest(&mut met, points, runs, s, at)?;
    Ok(met)
}

// Adds the points that the segment meets and that a search has not come to.
fn add_rest(
    met: &mut Vec<Pt>,
    points: &[Pt],
    runs: &[Run],
    s: &Seg,
    start: Place,
) -> Result<(), AllocError>
    requires held { All (HoldsRun points.now) runs.now }
    requires within { start.stop ≤ length points.now }
    requires met { met.old.items ≡ filter (meets s.now) (take start.stop points.now) }
    ensures all { OnOk result (met.new.items ≡ filter (meets s.now) points.now) }
{
    let mut at = Place {
        credit: ASKING,
        ..start
    };
    for _step in 0..runs.len() {
        if at.run >= runs.len() {
            break;
        }
        at = if at.credit < ASKING {
            next_place(points, runs, s, at)
        } else {
            next_asked(points, runs, s, at)
        };
        add_between(met, points, at.from, at.stop, s)?;
    }
    add_between(met, points, at.stop, points.len(), s)
}

// Whether the highest bit of m is below that of n.
fn is_shorter(m: u64, n: u64) -> bool {
    m < n && m < m ^ n
}

// The numbers of a point, counted from the least of the grid.
fn raised(p: &Pt) -> (u64, u64) {
    ((p.x() + LIMIT) as u64, (p.y() + LIMIT) as u64)
}

// The order on the Z-shaped curve of Morton, on which near points are mostly near each other: by the numbers that
// differ in the higher bit.
fn curve_order(p: &Pt, q: &Pt) -> Ordering {
    let (px, py) = raised(p);
    let (qx, qy) = raised(q);
    if is_shorter(py ^ qy, px ^ qx) {
        px.cmp(&qx)
    } else {
        py.cmp(&qy)
    }
}

/// The same points, in the order of a curve through the plane.
pub fn along_curve(alloc: Global, points: &[Pt]) -> Result<Vec<Pt>, AllocError>
    ensures made { IfOk result (λ moved. IsPermutation points.now moved.items) }
{
    let mut moved = Vec::with_capacity(alloc, points.len())?;
    moved.extend_from_slice(points)?;
    moved.sort_unstable_by(|p, q| curve_order(p, q));
    Ok(moved)
}
