ghost use Rattle.std.specs.Prelude.{◌≡◌, ◌≢◌, ◌⊎◌, None, true, false, slice_index, slice_index_or, slice_set, ℕ, ◌+◌, ◌-◌, ◌<◌, ◌≤◌, ◌^◌, [], ◌∷◌, ◌++◌, All, Contains, IfOk, OnOk, IfSome, length, map, sum_by};
ghost use Rattle.std.specs.List.{flat_map};
ghost use Rattle.plane_model.specs.Points.{link_between};
ghost use Rattle.plane_model.specs.Drawing.{steps, paths_of, rings_of};
ghost use Rattle.arc_table.specs.Direction.{IsForward};
ghost use Rattle.arc_table.specs.Order.{AreInOrder, GoesAlong, HasOneMore, links_stepped};
ghost use Rattle.arc_table.specs.Numbering.{AddsMarks, AreWays, BeginsLeast, GoesFrom, GoesOn, GoesRound, HasMark, HaveMarksTogether, IsBegin, IsLastOn, IsLeastAlong, IsNumbering, IsRoundFrom, IsWay, StopsAtMark, arc_points, link_at, points_along, points_of_way};

use crate::arc_order::ArcListing;
use crate::direction::turn_forward;
use crate::half_links::{Net, Step, place_after};
use grid_base::{Drawing, FeatId, Pt, PtList, RingsList};
use span_pool::SpanPool;
use std::alloc::{AllocError, Global};

/// Where an arc starts, as the place of its first step, and how many steps it has.
#[derive(Clone, Copy)]
pub struct Way {
    pub start: u32,
    pub steps: u32,
}

/// The arcs that have a number, in order, and whether each step goes along one of them.
#[derive(Drop)]
pub struct Numbering {
    pub ways: Vec<Way>,
    pub is_numbered: Vec<bool>,
}

/// The arcs in the order in which the paths first step along them: those of polygons, then lines, then boxes.
pub fn ways_of(alloc: Global, net: &Net, s: &Drawing) -> Result<Vec<Way>, AllocError>
    requires covered { (h : ℕ) → h < length net.now.steps → Contains (links_stepped (paths_of s.now)) (link_at net.now h) }
    ensures exact { IfOk result (λ v. AreWays net.now v.items) }
    ensures order { IfOk result (λ v. AreInOrder net.now (links_stepped (paths_of s.now)) v.items) }
{
    let mut numbering = none_numbered(alloc, net)?;
    number_polygon_features(&mut numbering, net, s)?;
    number_line_features(&mut numbering, net, s)?;
    number_boxes(&mut numbering, net, s)?;
    let Numbering {
        ways,
        is_numbered: _,
    } = numbering;
    Ok(ways)
}

fn none_numbered(alloc: Global, net: &Net) -> Result<Numbering, AllocError>
    ensures numbering { IfOk result (IsNumbering net.now) }
    ensures none { IfOk result (λ n. n.ways.items ≡ []) }
{
    let is_numbered = vec![in alloc; false; net.step_count()]?;
    Ok(Numbering {
        ways: Vec::new(alloc),
        is_numbered,
    })
}

#[tactic(auto, using(crate::proofs::Order::along_none))]
fn number_polygon_features(
    numbering: &mut Numbering,
    net: &Net,
    s: &Drawing,
) -> Result<(), AllocError>
    requires { IsNumbering net.now numbering.old }
    ensures numbering { OnOk result (IsNumbering net.now numbering.new) }
    ensures along { OnOk result (GoesAlong net.now numbering.old numbering.new (links_stepped (flat_map rings_of s.now.polygons))) }
{
    for f in 0..s.polygon_count() {
        number_polygons(numbering, net, s.rings_of(FeatId::new(f)))?;
    }
    Ok(())
}

#[tactic(auto, using(crate::proofs::Order::along_none))]
fn number_line_features(numbering: &mut Numbering, net: &Net, s: &Drawing) -> Result<(), AllocError>
    requires { IsNumbering net.now numbering.old }
    ensures numbering { OnOk result (IsNumbering net.now numbering.new) }
    ensures along { OnOk result (GoesAlong net.now numbering.old numbering.new (links_stepped (flat_map (λ feature. feature) s.now.lines))) }
{
    for f in 0..s.line_count() {
        number_paths(numbering, net, s.lines_of(FeatId::new(f)).as_slice())?;
    }
    Ok(())
}

#[tactic(auto, using(crate::proofs::Order::along_none))]
fn number_boxes(numbering: &mut Numbering, net: &Net, s: &Drawing) -> Result<(), AllocError>
    requires { IsNumbering net.now numbering.old }
    ensures numbering { OnOk result (IsNumbering net.now numbering.new) }
    ensures along { OnOk result (GoesAlong net.now numbering.old numbering.new (links_stepped (flat_map (λ path. path ∷ []) s.now.boxes))) }
{
    for b in 0..s.box_count() {
        number_path(numbering, net, s.box_of(b).as_slice())?;
    }
    Ok(())
}

#[tactic(auto, using(crate::proofs::Order::along_none))]
fn number_polygons(
    numbering: &mut Numbering,
    net: &Net,
    polygons: &RingsList,
) -> Result<(), AllocError>
    requires { IsNumbering net.now numbering.old }
    ensures numbering { OnOk result (IsNumbering net.now numbering.new) }
    ensures along { OnOk result (GoesAlong net.now numbering.old numbering.new (links_stepped (flat_map (λ polygon. polygon) polygons.now))) }
{
    for polygon in polygons.as_slice() {
        number_paths(numbering, net, polygon.as_slice())?;
    }
    Ok(())
}

#[tactic(auto, using(crate::proofs::Order::along_none))]
fn number_paths(numbering: &mut Numbering, net: &Net, paths: &[PtList]) -> Result<(), AllocError>
    requires { IsNumbering net.now numbering.old }
    ensures numbering { OnOk result (IsNumbering net.now numbering.new) }
    ensures along { OnOk result (GoesAlong net.now numbering.old numbering.new (links_stepped (flat_map (λ path. path ∷ []) paths.now))) }
{
    for path in paths {
        number_path(numbering, net, path.as_slice())?;
    }
    Ok(())
}

fn number_path(numbering: &mut Numbering, net: &Net, path: &[Pt]) -> Result<(), AllocError>
    requires { IsNumbering net.now numbering.old }
    ensures numbering { OnOk result (IsNumbering net.now numbering.new) }
    ensures along { OnOk result (GoesAlong net.now numbering.old numbering.new (map link_between (steps path.now))) }
{
    let mut last = usize::MAX;
    for i in 1..path.len() {
        last = number_step(numbering, net, last, Step::new(path[i - 1], path[i]))?;
    }
    Ok(())
}

// Gives the arc along a step the next number, where it has none. `last` is the place of the step before it on a path,
// and the answer that of the step.
#[tactic(auto, using(crate::proofs::Order::along_step, crate::proofs::Order::along_missing))]
fn number_step(
    numbering: &mut Numbering,
    net: &Net,
    last: usize,
    step: Step,
) -> Result<usize, AllocError>
    requires { IsNumbering net.now numbering.old }
    ensures numbering { OnOk result (IsNumbering net.now numbering.new) }
    ensures along { OnOk result (GoesAlong net.now numbering.old numbering.new (link_between step ∷ [])) }
{
    let Some(h) = place_after(net, last, step) else {
        return Ok(last);
    };
    number_along(numbering, net, h)?;
    Ok(h)
}

// Gives the arc along step `h` the next number, where it has none.
#[tactic(auto, using(crate::proofs::Marks::kept_all, crate::proofs::Order::along_marked))]
fn number_along(numbering: &mut Numbering, net: &Net, h: usize) -> Result<(), AllocError>
    requires there { h < length net.now.steps }
    requires numbering { IsNumbering net.now numbering.old }
    ensures on { OnOk result (GoesFrom net.now numbering.old numbering.new) }
    ensures here { OnOk result (HasMark numbering.new.is_numbered.items h) }
    ensures along { OnOk result (GoesAlong net.now numbering.old numbering.new (link_at net.now h ∷ [])) }
{
    if numbering.is_numbered[h] {
        return Ok(());
    }
    number_from(numbering, net, start_of(net, h))?;
    Ok(())
}

// Gives the arc that starts with step `start` the next number, where it has none.
#[tactic(auto, using(crate::proofs::Marks::kept_all))]
fn number_from(numbering: &mut Numbering, net: &Net, start: usize) -> Result<(), AllocError>
    requires there { start < length net.now.steps }
    requires begins { IsBegin net.now start }
    requires least { BeginsLeast net.now start }
    requires numbering { IsNumbering net.now numbering.old }
    ensures on { OnOk result (GoesFrom net.now numbering.old numbering.new) }
    ensures here { OnOk result (HasMark numbering.new.is_numbered.items start) }
    ensures one { OnOk result (HasOneMore numbering.old numbering.new) }
{
    if numbering.is_numbered[start] {
        return Ok(());
    }
    let steps = mark_way(&mut numbering.is_numbered, net, start);
    let way = Way {
        start: start as u32,
        steps,
    };
    numbering.ways.push(way)?;
    Ok(())
}

// The place of a step that begins the arc along step `h`, from either of its ends; of a closed run the least.
fn start_of(net: &Net, h: usize) -> usize
    requires { h < length net.now.steps }
    ensures there { result < length net.now.steps }
    ensures begins { IsBegin net.now result }
    ensures least { BeginsLeast net.now result }
    ensures together { HaveMarksTogether net.now h result }
{
    let back = net.twin(h);
    match last_on(net, back) {
        None => least_round(net, back),
        Some(last) => net.twin(last),
    }
}

// The last step on the way on from step `first`; `None` where it comes round to `first`.
fn last_on(net: &Net, first: usize) -> Option<usize>
    requires { first < length net.now.steps }
    ensures there { IfSome result (λ h. h < length net.now.steps) }
    ensures exact { IsLastOn net.now.onward.items first result }
{
    let mut at = first;
    for _step in 0..net.step_count() {
        let next = net.next(at);
        if next == at {
            return Some(at);
        }
        if next == first {
            return None;
        }
        at = next;
    }
    None
}

// The least place of a step along a closed run, either way round.
fn least_round(net: &Net, first: usize) -> usize
    requires { first < length net.now.steps }
    ensures there { result < length net.now.steps }
    ensures round { IsRoundFrom net.now first result }
    ensures least { GoesRound net.now first → IsLeastAlong net.now first result }
{
    let mut least = first;
    let mut at = first;
    for _step in 0..net.step_count() {
        least = least.min(at).min(net.twin(at));
        at = net.next(at);
        if at == first {
            return least;
        }
    }
    least
}

// Marks the steps along the arc that starts with step `start`, both ways, and answers how many it has.
fn mark_way(is_numbered: &mut Vec<bool>, net: &Net, start: usize) -> u32
    requires each { length is_numbered.old.items ≡ length net.now.steps }
    requires there { start < length net.now.steps }
    requires unmarked { slice_index_or is_numbered.old.items start false ≡ false }
    ensures each { length is_numbered.new.items ≡ length net.now.steps }
    ensures some { 0 < result }
    ensures on { GoesOn net.now.onward.items result start }
    ensures marks { AddsMarks net.now is_numbered.old.items is_numbered.new.items result start }
    ensures stops { StopsAtMark net.now is_numbered.old.items is_numbered.new.items result start }
{
    let mut at = start;
    let mut steps = 0u32;
    for _step in 0..net.step_count() {
        mark_both(is_numbered, at, net.twin(at));
        steps += 1;
        match next_unmarked(is_numbered, net, at) {
            Some(next) => {
                at = next;
            }
            None => {
                return steps;
            }
        }
    }
    steps
}

fn mark_both(marks: &mut Vec<bool>, h: usize, twin: usize)
    requires here { h < length marks.old.items }
    requires there { twin < length marks.old.items }
    ensures exact { marks.new.items ≡ slice_set (slice_set marks.old.items h true) twin true }
    ensures each { length marks.new.items ≡ length marks.old.items }
{
    marks[h] = true;
    marks[twin] = true;
}

// The step onward from step `at`, where the arc does not end and has not come round.
fn next_unmarked(marks: &[bool], net: &Net, at: usize) -> Option<usize>
    requires each { length marks.now ≡ length net.now.steps }
    requires there { at < length net.now.steps }
    ensures there { IfSome result (λ next. next < length net.now.steps) }
    ensures onward { IfSome result (λ next. next ≡ slice_index net.now.onward.items at) }
    ensures on { IfSome result (λ next. next ≢ at) }
    ensures unmarked { IfSome result (λ next. slice_index_or marks.now next false ≡ false) }
    ensures none { result ≡ None → (slice_index net.now.onward.items at ≡ at) ⊎ HasMark marks.now (slice_index net.now.onward.items at) }
{
    let next = net.next(at);
    if next == at {
        return None;
    }
    if marks[next] {
        return None;
    }
    Some(next)
}

/// The points of the arcs, in one pool, whose room is taken before the first arc is pushed. What the arcs have is
/// listed beside, while the steps along each are at hand.
pub fn pool_of(
    alloc: Global,
    net: &Net,
    ways: &[Way],
    listing: &mut ArcListing,
) -> Result<SpanPool, AllocError>
    requires { All (IsWay net.now) ways.now }
    ensures exact { IfOk result (λ p. p.spans ≡ map (arc_points net.now) ways.now) }
    ensures each { IfOk result (λ p. length p.spans ≡ length ways.now) }
    ensures long { IfOk result (λ p. All (λ arc. 1 < length arc) p.spans) }
    ensures forward { IfOk result (λ p. All IsForward p.spans) }
{
    if ways.len() >= u32::MAX as usize {
        return Err(AllocError);
    }
    let count = point_count(ways);
    if count >= u32::MAX as u64 {
        return Err(AllocError);
    }
    let mut pool = SpanPool::new(alloc);
    pool.reserve(ways.len() as u32, count as u32)?;
    let mut points = Vec::new(alloc);
    for way in ways {
        arc_points(&mut points, net, *way)?;
        push_arc(&mut pool, &points);
        listing.add(net, *way)?;
    }
    Ok(pool)
}

fn push_arc(pool: &mut SpanPool, points: &Vec<Pt>)
    requires span_spare { 0 < pool.old.spare_spans }
    requires points_spare { length points.now.items ≤ pool.old.spare_points }
    requires arcs { All IsForward pool.old.spans }
    requires forward { IsForward points.now.items }
    ensures pushed { pool.new ≡ record {
      spans = pool.old.spans ++ points.now.items ∷ [];
      spare_spans = pool.old.spare_spans - 1;
      spare_points = pool.old.spare_points - length points.now.items;
    } }
    ensures arcs { All IsForward pool.new.spans }
{
    pool.push_span(points);
}

// How many points the arcs have together.
fn point_count(ways: &[Way]) -> u64
    requires { length ways.now < 2 ^ 32 }
    ensures exact { result ≡ sum_by points_of_way ways.now }
{
    let mut count = 0u64;
    for way in ways {
        count += way.steps as u64 + 1;
    }
    count
}

// The points of an arc in its direction, in place of those that `points` held.
fn arc_points(points: &mut Vec<Pt>, net: &Net, way: Way) -> Result<(), AllocError>
    requires { IsWay net.now way }
    ensures exact { OnOk result (points.new.items ≡ arc_points net.now way) }
    ensures count { OnOk result (length points.new.items ≡ points_of_way way) }
    ensures forward { OnOk result (IsForward points.new.items) }
{
    points_along(points, net, way)?;
    turn_forward(points);
    Ok(())
}

// The points along an arc, from the end that its first step begins at.
fn points_along(points: &mut Vec<Pt>, net: &Net, way: Way) -> Result<(), AllocError>
    requires { IsWay net.now way }
    ensures exact { OnOk result (points.new.items ≡ points_along net.now way) }
    ensures count { OnOk result (length points.new.items ≡ points_of_way way) }
{
    points.clear();
    let mut at = way.start as usize;
    points.push(net.step(at).from())?;
    for _step in 0..way.steps {
        points.push(net.step(at).to())?;
        at = net.next(at);
    }
    Ok(())
}
