ghost use Rattle.std.specs.Prelude.{◌≡◌, ◌+◌, ◌-◌, ◌^◌, ◌<◌, ◌≤◌, [], ◌∷◌, ◌++◌, All, OnOk, OnErr, length, map, max, slice_index_or, slice_range, take, vec_len, vec_capacity};
ghost use Rattle.std.specs.List.Sorted.{IsStrictlyIncreasing};
ghost use Rattle.span_pool.specs.SpanPool.{Pool, points_held, picked, begin, cut, CutsUp};

use crate::ids::SpanId;
use grid_base::{IdList, Pt};
use std::alloc::{AllocError, Global};
use std::marker::Model;

/// A region of points, cut into spans that are numbered from 0.
#[derive(Drop)]
pub struct SpanPool {
    // the points of all spans, one span after the other
    points: Vec<Pt>,
    // where each span ends in `points`
    ends: Vec<u32>,
    spare_spans: u32,
    spare_points: u32,
}

impl Model for SpanPool {
    ghost use Rattle.span_pool.specs.SpanPool.{Pool, cut, CutsUp, HasRoom};
    ghost use Rattle.std.specs.Prelude.{◌+◌, ◌<◌, ◌≤◌, length, vec_len, vec_capacity};

    ghost Value = { Pool };

    ghost view = { λ p. record { spans = cut 0 p.ends.items p.points.items; spare_spans = p.spare_spans; spare_points = p.spare_points } };

    ghost invariant = { λ p. CutsUp 0 p.ends.items (length p.points.items)
        × HasRoom (vec_len p.ends) p.spare_spans (vec_capacity p.ends)
        × HasRoom (vec_len p.points) p.spare_points (vec_capacity p.points) };
}

impl SpanPool {
    /// A pool without spans and without room.
    pub fn new(alloc: Global) -> SpanPool
        ensures empty { result ≡ record { spans = []; spare_spans = 0; spare_points = 0 } }
    {
        SpanPool {
            points: Vec::new(alloc),
            ends: Vec::new(alloc),
            spare_spans: 0,
            spare_points: 0,
        }
    }

    /// The number of spans.
    pub fn count(&self) -> u32
        ensures exact { result ≡ length self.now.spans }
        ensures small { result + self.now.spare_spans < 4294967295 }
    {
        self.ends.len() as u32
    }

    /// How many spans can be pushed without taking memory.
    pub fn spare_spans(&self) -> u32
        ensures exact { result ≡ self.now.spare_spans }
    {
        self.spare_spans
    }

    /// How many points the pushed spans may have together.
    pub fn spare_points(&self) -> u32
        ensures exact { result ≡ self.now.spare_points }
    {
        self.spare_points
    }

    /// Makes room for `spans` spans and `points` points; room that is there already counts.
    pub fn reserve(&mut self, spans: u32, points: u32) -> Result<(), AllocError>
        requires spans_counted { length self.old.spans + spans < 4294967295 }
        requires points_counted { points_held self.old + points < 4294967295 }
        ensures ok { OnOk result (self.new ≡ record self.old {
          spare_spans = max self.old.spare_spans spans;
          spare_points = max self.old.spare_points points;
        }) }
        ensures err { OnErr result (self.new ≡ self.old) }
    {
        self.ends.reserve(spans as usize)?;
        self.points.reserve(points as usize)?;
        self.spare_spans = self.spare_spans.max(spans);
        self.spare_points = self.spare_points.max(points);
        Ok(())
    }

    /// Adds a span, of points in order, and answers its number. Takes no memory.
    pub fn push_span(&mut self, pts: &[Pt]) -> SpanId
        requires span_spare { 0 < self.old.spare_spans }
        requires points_spare { length pts.now ≤ self.old.spare_points }
        ensures numbered { result ≡ length self.old.spans }
        ensures pushed { self.new ≡ record {
          spans = self.old.spans ++ pts.now ∷ [];
          spare_spans = self.old.spare_spans - 1;
          spare_points = self.old.spare_points - length pts.now;
        } }
    {
        let number = self.ends.len() as u32;
        self.points.extend_from_slice(pts).unwrap();
        let end = self.points.len() as u32;
        self.ends.push(end).unwrap();
        self.spare_spans -= 1;
        self.spare_points -= pts.len() as u32;
        SpanId::new(number)
    }

    /// The points of a span: a slice of the pool.
    pub fn get(&self, id: SpanId) -> &[Pt]
        requires { id < length self.now.spans }
        ensures exact { result.now ≡ slice_index_or self.now.spans id [] }
    {
        span_in(&self.points, &self.ends, id.num() as usize)
    }

    /// Keeps the spans with these numbers, renumbered in order; the spares stay. Takes no memory.
    pub fn keep_only(&mut self, ids: &IdList)
        requires ascending { IsStrictlyIncreasing ids.now }
        requires below { All (λ i. i < length self.old.spans) ids.now }
        ensures kept { self.new ≡ record self.old { spans = picked self.old.spans ids.now } }
    {
        let (spans, points) = gather(&mut self.points, &mut self.ends, ids.as_slice());
        self.ends.truncate(spans);
        self.points.truncate(points);
    }
}

// Moves the spans with these numbers to the front, in order. Answers how many spans and points stand there.
fn gather(points: &mut Vec<Pt>, ends: &mut Vec<u32>, ids: &[u32]) -> (usize, usize)
    requires ascending { IsStrictlyIncreasing ids.now }
    requires below { All (λ i. i < length ends.old.items) ids.now }
    requires cut_up { CutsUp 0 ends.old.items (length points.old.items) }
    requires counted { length points.old.items < 2 ^ 32 }
    ensures spans { cut 0 (take result.0 ends.new.items) (take result.1 points.new.items)
        ≡ picked (cut 0 ends.old.items points.old.items) ids.now }
    ensures cut_up { CutsUp 0 (take result.0 ends.new.items) result.1 }
    ensures fewer_spans { result.0 ≤ vec_len ends.new }
    ensures fewer_points { result.1 ≤ vec_len points.new }
    ensures ends_there { (vec_len ends.new ≡ vec_len ends.old) × (vec_capacity ends.new ≡ vec_capacity ends.old) }
    ensures points_there { (vec_len points.new ≡ vec_len points.old) × (vec_capacity points.new ≡ vec_capacity points.old) }
{
    let mut kept = 0;
    let mut at = 0;
    let mut from = 0;
    for i in 0..ends.len() {
        let to = ends[i] as usize;
        if kept < ids.len() && ids[kept] as usize == i {
            points.copy_within(from..to, at);
            at += to - from;
            ends[kept] = at as u32;
            kept += 1;
        }
        from = to;
    }
    (kept, at)
}

/// The span with this number, from 0, of items that are cut into spans; `ends` has where each of these ends.
pub fn span_in<'a, T>(items: &'a [T], ends: &[u32], number: usize) -> &'a [T]
    requires there { number < length ends.now }
    requires cut_up { CutsUp 0 ends.now (length items.now) }
    ensures exact { result.now ≡ slice_index_or (cut 0 ends.now items.now) number [] }
{
    part(items, begin_of(ends, number), ends[number] as usize)
}

fn part<T>(items: &[T], start: usize, end: usize) -> &[T]
    requires ordered { start ≤ end }
    requires within { end ≤ length items.now }
    ensures exact { result.now ≡ slice_range items.now start end }
{
    &items[start..end]
}

// Where a span begins.
fn begin_of(ends: &[u32], number: usize) -> usize
    requires { number < length ends.now }
    ensures exact { result ≡ begin 0 ends.now number }
{
    if number == 0 {
        0
    } else {
        ends[number - 1] as usize
    }
}
