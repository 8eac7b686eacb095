ghost use Rattle.std.specs.Prelude.{◌≡◌, ◌+◌, ◌-◌, ◌<◌, ◌≤◌, ◌++◌, ◌∷◌, [], All, drop, IfOk, OnOk, false, length, map, take, true};
ghost use Rattle.std.specs.List.Sorted.{IsPermutation, IsSortedByKey};
ghost use Rattle.grid_base.specs.Order.{point_cmp};
ghost use Rattle.plane_model.specs.Points.{same_point};
ghost use Rattle.arc_table.specs.Around.{IsTurned, signed_below, signed_of, start_of};
ghost use Rattle.arc_table.specs.Direction.{point_at};
ghost use Rattle.arc_table.specs.FirstSteps.{AddsRow};
ghost use Rattle.arc_table.specs.Rows.{AreRows};

use crate::first_steps::{FirstStep, first_step, signed_of, start_of, turning};
use grid_base::{Pt, SignedArc, is_same, next_number};
use span_pool::SpanPool;
use std::alloc::{AllocError, Global};

/// The points where signed arcs start, in order, each once; for each where its row begins among the arcs by their
/// starts, counted from 0, and then where the last row ends; and these arcs, counterclockwise in each row.
#[derive(Drop)]
pub struct NodeRows {
    pub nodes: Vec<Pt>,
    pub rows: Vec<u32>,
    pub outs: Vec<SignedArc>,
}

/// The rows of the signed arcs, whose codes stand by their starts; each row is turned counterclockwise, from the
/// direction of the positive x axis on.
///
/// Errors: `AllocError` for want of memory, or of numbers below 2^32 for the arcs.
pub fn rows_of(alloc: Global, arcs: &SpanPool, codes: &[u32]) -> Result<NodeRows, AllocError>
    requires long { All (λ arc. 1 < length arc) arcs.now.spans }
    requires all { IsPermutation (signed_below (length arcs.now.spans)) (map signed_of codes.now) }
    requires sorted { IsSortedByKey (start_of arcs.now.spans) point_cmp (map signed_of codes.now) }
    ensures turned { IfOk result (λ r. IsTurned arcs.now.spans (map (start_of arcs.now.spans) r.outs.items) r.outs.items) }
    ensures rows { IfOk result (λ r. AreRows (map (start_of arcs.now.spans) r.outs.items) r.nodes.items r.rows.items) }
{
    let mut done = NodeRows::with_room(alloc, row_count(arcs, codes), codes.len())?;
    let mut row = Vec::new(alloc);
    for code in codes {
        let arc = signed_of(*code);
        let step = first_step(arcs, arc);
        if ends_before(&row, step.from()) {
            done.add(&mut row)?;
        }
        row.push(FirstStep { step, arc })?;
    }
    if !row.is_empty() {
        done.add(&mut row)?;
    }
    Ok(done)
}

impl NodeRows {
    // No row, with room for `count` rows of `arcs` arcs.
    fn with_room(alloc: Global, count: usize, arcs: usize) -> Result<NodeRows, AllocError>
        ensures none { IfOk result (λ r. (r.nodes.items ≡ []) × (r.rows.items ≡ 0 ∷ []) × (r.outs.items ≡ [])) }
    {
        let mut rows = Vec::with_capacity(alloc, count.saturating_add(1))?;
        rows.push(0)?;
        Ok(NodeRows {
            nodes: Vec::with_capacity(alloc, count)?,
            rows,
            outs: Vec::with_capacity(alloc, arcs)?,
        })
    }

    // Adds the row of these steps, which start at one node, in turn. No step is left.
    fn add(&mut self, row: &mut Vec<FirstStep>) -> Result<(), AllocError>
        requires some { 0 < length row.old.items }
        ensures added { OnOk result (AddsRow row.old.items self.old self.new) }
        ensures none { OnOk result (row.new.items ≡ []) }
    {
        let node = row[0].step.from();
        row.sort_unstable_by(turning);
        push_arcs(&mut self.outs, row)?;
        self.close(node)?;
        row.clear();
        Ok(())
    }

    // Closes the row of a node, of the last arcs.
    fn close(&mut self, node: Pt) -> Result<(), AllocError>
        ensures node { OnOk result (self.new.nodes.items ≡ self.old.nodes.items ++ node ∷ []) }
        ensures stop { OnOk result (self.new.rows.items ≡ self.old.rows.items ++ length self.old.outs.items ∷ []) }
        ensures outs { OnOk result (self.new.outs.items ≡ self.old.outs.items) }
    {
        let stop = next_number(self.outs.len())?;
        self.nodes.push(node)?;
        self.rows.push(stop)?;
        Ok(())
    }
}

fn push_arcs(outs: &mut Vec<SignedArc>, row: &[FirstStep]) -> Result<(), AllocError>
    ensures pushed { OnOk result (outs.new.items ≡ outs.old.items ++ map (λ f. f.arc) row.now) }
{
    for first in row {
        outs.push(first.arc)?;
    }
    Ok(())
}

// Whether a row has steps, and they start elsewhere than at `p`.
fn ends_before(row: &[FirstStep], p: Pt) -> bool
    ensures some { result ≡ true → 0 < length row.now }
    ensures ends { result ≡ true → same_point (point_at (map (λ f. f.step.start) row.now) 0) p ≡ false }
    ensures goes { result ≡ false → 0 < length row.now → point_at (map (λ f. f.step.start) row.now) 0 ≡ p }
{
    match row.first() {
        Some(first) => !is_same(first.step.from(), p),
        None => false,
    }
}

// How many rows there are, and 1 for no arcs: room is made for them at first.
fn row_count(arcs: &SpanPool, codes: &[u32]) -> usize {
    let mut count: usize = 1;
    let mut last = None;
    for code in codes {
        let from = start_of(arcs, signed_of(*code));
        if has_moved(last, from) {
            count = count.saturating_add(1);
        }
        last = Some(from);
    }
    count
}

// Whether there is a point before, and it is another.
fn has_moved(last: Option<Pt>, p: Pt) -> bool {
    match last {
        Some(before) => !is_same(before, p),
        None => false,
    }
}

/// Whether there is a node with this number, and it is `p`.
pub fn stands_at(nodes: &[Pt], k: usize, p: Pt) -> bool
    ensures there { result ≡ true → k < length nodes.now }
    ensures yes { result ≡ true → point_at nodes.now k ≡ p }
    ensures no { result ≡ false → k < length nodes.now → same_point (point_at nodes.now k) p ≡ false }
{
    k < nodes.len() && is_same(nodes[k], p)
}

/// The signed arcs from place `first` on and before `stop`.
pub fn part_of(outs: &[SignedArc], first: u32, stop: u32) -> &[SignedArc]
    requires ordered { first ≤ stop }
    requires within { stop ≤ length outs.now }
    ensures exact { result.now ≡ take (stop - first) (drop first outs.now) }
{
    &outs[first as usize..stop as usize]
}
