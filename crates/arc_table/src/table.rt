ghost use Rattle.std.specs.Prelude.{◌≡◌, ◌≢◌, AllPairs, ◌+◌, ◌<◌, ◌≤◌, [], ◌++◌, All, IfOk, IfSome, None, OnOk, Some, false, length, slice_get, slice_index_or, true};
ghost use Rattle.plane_model.specs.Arcs.{points_of};
ghost use Rattle.plane_model.specs.Snapped.{links_of};
ghost use Rattle.arc_table.specs.Along.{GoAlong, links_of_arcs};
ghost use Rattle.arc_table.specs.Direction.{IsForward};
ghost use Rattle.arc_table.specs.Around.{IsAround, first_step};
ghost use Rattle.arc_table.specs.Lookup.{IsArcAt, IsBegunBy};
ghost use Rattle.arc_table.specs.Order.{AreNumbered};
ghost use Rattle.arc_table.specs.PathArcs.{IsAloneAt};
ghost use Rattle.arc_table.specs.WholeArcs.{IsWholeArc, StartsAtLeast};

use crate::arc_net::ArcNet;
use crate::arc_order::ArcOrder;
use crate::first_steps::{codes_by_start, comes_first, first_step};
use crate::half_links::{Step, is_step};
use crate::node_rows::{NodeRows, part_of, rows_of, stands_at};
use crate::numbered_arcs::NumberedArcs;
use crate::rows::LinkOrder;
use crate::vertices::{ArcVertex, inner_vertices, least_at, least_of, lesser_of};
use grid_base::{ArcId, Drawing, Pt, SignedArc, Snapped, is_before, is_same};
use span_pool::{SpanId, SpanPool};
use std::alloc::{AllocError, Global};
use std::marker::Model;

/// The arcs of a snapped drawing, numbered from 0. Contracts see the list of their points.
#[derive(Drop)]
pub struct ArcTable {
    arcs: SpanPool,
    // the points where arcs start, in order, and where the row of each begins among `outs`; then where the last ends
    pub(crate) nodes: Vec<Pt>,
    pub(crate) rows: Vec<u32>,
    // the signed arcs by their starts, and counterclockwise at each
    pub(crate) outs: Vec<SignedArc>,
    // the vertices of all arcs between their ends, in order
    inner: Vec<ArcVertex>,
    // `None` once it is let go
    pub(crate) order: Option<LinkOrder>,
}

impl Model for ArcTable {
    ghost use Rattle.std.specs.Prelude.{◌≢◌, ◌<◌, All, AllPairs, List, length, map};
    ghost use Rattle.plane_model.specs.Points.{GridPoint};
    ghost use Rattle.arc_table.specs.Direction.{IsForward};
    ghost use Rattle.arc_table.specs.Along.{links_of_arcs};
    ghost use Rattle.arc_table.specs.Around.{IsTurned, start_of};
    ghost use Rattle.arc_table.specs.Lookup.{AreInner};
    ghost use Rattle.arc_table.specs.Rows.{AreRows};

    ghost Value = { List (List GridPoint) };

    ghost view = { λ t. t.arcs.spans };

    ghost invariant = { λ t. All (λ arc. 1 < length arc) t.arcs.spans
        × AreRows (map (start_of t.arcs.spans) t.outs.items) t.nodes.items t.rows.items
        × All (λ a. a.arc < length t.arcs.spans) t.outs.items
        × AreInner t.arcs.spans t.inner.items
        × All IsForward t.arcs.spans
        × IsTurned t.arcs.spans (map (start_of t.arcs.spans) t.outs.items) t.outs.items
        × AllPairs (λ k l. k ≢ l) (links_of_arcs t.arcs.spans) };
}

impl ArcTable {
    /// The arcs of a snapped drawing: the whole table, or for want of memory nothing. Each arc is a run of links from
    /// node to node with no node between, or a closed run without a node, from its least vertex on. They are numbered
    /// in the order in which the paths first step along them: those of polygons, then lines, then boxes, each from its
    /// first vertex on.
    pub fn build(alloc: Global, s: &Snapped) -> Result<ArcTable, AllocError>
        ensures long { IfOk result (λ t. All (λ arc. 1 < length arc) t) }
        ensures forward { IfOk result (λ t. All IsForward t) }
        ensures links { IfOk result (λ t. GoAlong (links_of s.now) t) }
        ensures whole { IfOk result (λ t. All (IsWholeArc s.now) t) }
        ensures least { IfOk result (λ t. All (StartsAtLeast s.now) t) }
        ensures numbered { IfOk result (λ t. AreNumbered s.now t) }
    {
        let net = ArcNet::of(alloc, s)?;
        let numbered = NumberedArcs::of(alloc, s.paths(), net)?;
        ArcTable::of_numbered(alloc, numbered)
    }

    /// The table of arcs that have their numbers.
    pub fn of_numbered(alloc: Global, numbered: NumberedArcs) -> Result<ArcTable, AllocError>
        ensures same { IfOk result (λ t. t ≡ numbered) }
    {
        let NumberedArcs {
            arcs,
            order,
            highs,
            steps,
        } = numbered;
        ArcTable::of_arcs(alloc, arcs, order, highs, steps)
    }

    fn of_arcs(
        alloc: Global,
        arcs: SpanPool,
        order: ArcOrder,
        highs: Vec<u32>,
        steps: usize,
    ) -> Result<ArcTable, AllocError>
        requires long { All (λ arc. 1 < length arc) arcs.spans }
        requires forward { All IsForward arcs.spans }
        requires once { AllPairs (λ k l. k ≢ l) (links_of_arcs arcs.spans) }
        ensures same { IfOk result (λ t. t ≡ arcs.spans) }
    {
        let ArcOrder {
            firsts: first_keys,
            inner: inner_keys,
            links,
        } = order;
        let codes = codes_by_start(alloc, &arcs, first_keys, steps)?;
        let NodeRows { nodes, rows, outs } = rows_of(alloc, &arcs, &codes)?;
        drop(codes);
        let inner = inner_vertices(alloc, &arcs, &inner_keys, steps)?;
        Ok(ArcTable {
            arcs,
            nodes,
            rows,
            outs,
            inner,
            order: Some(LinkOrder { links, highs }),
        })
    }

    /// How many arcs there are. No link is in two of them, or in one twice.
    pub fn count(&self) -> u32
        ensures exact { result ≡ length self.now }
        ensures once { AllPairs (λ k l. k ≢ l) (links_of_arcs self.now) }
    {
        self.arcs.count()
    }

    /// The points of an arc in its direction, as they stand in the pool.
    pub fn points_of(&self, id: ArcId) -> &[Pt]
        requires { id < length self.now }
        ensures exact { result.now ≡ slice_index_or self.now id [] }
        ensures long { 1 < length result.now }
        ensures forward { IsForward result.now }
    {
        self.arcs.get(SpanId::new(id.num()))
    }

    /// Where a signed arc starts.
    pub fn start_of(&self, a: SignedArc) -> Pt
        requires { a.arc < length self.now }
        ensures exact { slice_get (points_of self.now a) 0 ≡ Some result }
    {
        let points = self.points_of(a.id());
        if a.is_reversed() {
            points[points.len() - 1]
        } else {
            points[0]
        }
    }

    /// The signed arcs that start at `p`, counterclockwise from the direction of the positive x axis, that direction
    /// included. Takes no memory.
    ///
    /// Cost: log n for n vertices where arcs start.
    pub fn around(&self, p: Pt) -> &[SignedArc]
        ensures there { All (λ a. a.arc < length self.now) result.now }
        ensures exact { IsAround self.now p result.now }
    {
        let k = self.nodes.partition_point(|q| is_before(*q, p));
        if !stands_at(&self.nodes, k, p) {
            return &[];
        }
        part_of(&self.outs, self.rows[k], self.rows[k + 1])
    }

    /// The least arc that has `p` as a vertex; `None` exactly where there is none. Where no arc starts at `p`, it is
    /// the only one. Takes no memory.
    ///
    /// Cost: log n for n vertices, and a step for each arc that starts at `p`.
    pub fn arc_at(&self, p: Pt) -> Option<ArcId>
        ensures exact { IsArcAt self.now p result }
        ensures alone { IfSome result (IsAloneAt self.now p) }
        ensures there { IfSome result (λ id. id < length self.now) }
    {
        lesser_of(least_of(self.around(p)), least_at(&self.inner, p))
    }

    /// The only arc that has `p` as a vertex, where none starts there; `None` exactly where none has. Takes no memory.
    ///
    /// Cost: log n for n vertices between the ends of arcs.
    pub fn arc_through(&self, p: Pt) -> Option<ArcId>
        requires off { IsAround self.now p [] }
        ensures exact { IsArcAt self.now p result }
        ensures alone { IfSome result (IsAloneAt self.now p) }
        ensures there { IfSome result (λ id. id < length self.now) }
    {
        least_at(&self.inner, p)
    }

    // The signed arc that begins with a step; `None` exactly where none does.
    pub(crate) fn begun_by(&self, step: Step) -> Option<SignedArc>
        ensures exact { IsBegunBy self.now step result }
        ensures there { IfSome result (λ a. a.arc < length self.now) }
    {
        let row = self.around(step.from());
        match self.begun_in_turn(row, step) {
            Some(a) => Some(a),
            None => self.begun_among(row, step),
        }
    }

    // The signed arc that begins with a step, where it stands in its turn in a row: in the row of a snapped drawing it
    // does if it is there.
    fn begun_in_turn(&self, row: &[SignedArc], step: Step) -> Option<SignedArc>
        requires there { All (λ a. a.arc < length self.now) row.now }
        ensures found { IfSome result (λ a. (a.arc < length self.now) × (first_step self.now a ≡ step)) }
    {
        let a = *row.get(self.place_in_turn(row, step))?;
        if is_step(self.first_step(a), step) {
            Some(a)
        } else {
            None
        }
    }

    // How many arcs of a row that turns counterclockwise come before a step: a wrong number costs time alone.
    fn place_in_turn(&self, row: &[SignedArc], step: Step) -> usize
        requires there { All (λ a. a.arc < length self.now) row.now }
    {
        let mut low = 0;
        let mut count = row.len();
        while count > 0 {
            let half = count / 2;
            if comes_first(&self.first_step(row[low + half]), &step) {
                low += half + 1;
                count -= half + 1;
            } else {
                count = half;
            }
        }
        low
    }

    // The first of some signed arcs that begins with a step; `None` exactly where none does.
    fn begun_among(&self, arcs: &[SignedArc], step: Step) -> Option<SignedArc>
        requires there { All (λ a. a.arc < length self.now) arcs.now }
        ensures found { IfSome result (λ a. (a.arc < length self.now) × (first_step self.now a ≡ step)) }
        ensures none { result ≡ None → All (λ a. first_step self.now a ≢ step) arcs.now }
    {
        for a in arcs {
            if is_step(self.first_step(*a), step) {
                return Some(*a);
            }
        }
        None
    }

    // The step that a signed arc begins with.
    pub(crate) fn first_step(&self, a: SignedArc) -> Step
        requires there { a.arc < length self.now }
        ensures exact { result ≡ first_step self.now a }
    {
        first_step(&self.arcs, a)
    }
}
