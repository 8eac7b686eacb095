ghost use Rattle.std.specs.Prelude.{◌≡◌, ◌+◌, ◌++◌, ◌<◌, All, IfOk, IfSome, OnOk, ℕ, length, take};
ghost use Rattle.std.specs.Option.{option_to_list};
ghost use Rattle.link_search.specs.Rows.{AreByStart};
ghost use Rattle.face_walk.specs.Rays.{AreLinksOf, link_at, links_along};

use arc_table::ArcTable;
use grid_base::{ArcId, Link, Pt, SignedArc, is_before};
use known_order::move_to_positions;
use link_search::ArcLink;
use std::alloc::{AllocError, Global};

/// The links of all arcs, in order.
pub fn links_of(alloc: Global, t: &ArcTable) -> Result<Vec<ArcLink>, AllocError>
    ensures all { IfOk result (λ v. AreLinksOf t.now v.items) }
    ensures there { IfOk result (λ v. All (λ l. l.along.arc < length t.now) v.items) }
    ensures sorted { IfOk result (λ v. AreByStart v.items) }
{
    let mut links = Vec::with_capacity(alloc, step_count(t))?;
    for n in 0..t.count() {
        let id = ArcId::new(n);
        push_links(&mut links, id, t.points_of(id))?;
    }
    let mut positions = t.link_positions(alloc)?;
    move_to_positions(&mut links, &mut positions);
    // After this the sort has only to find the links in order.
    links.sort_unstable();
    Ok(links)
}

// How many steps the arcs have. It is not proved: a wrong one costs time alone.
fn step_count(t: &ArcTable) -> usize {
    let mut count: usize = 0;
    for n in 0..t.count() {
        count = count.saturating_add(t.points_of(ArcId::new(n)).len() - 1);
    }
    count
}

// The links of an arc with more points than one.
fn push_links(links: &mut Vec<ArcLink>, id: ArcId, points: &[Pt]) -> Result<(), AllocError>
    ensures exact { OnOk result (links.new.items ≡ links.old.items ++ links_along id points.now) }
    ensures there { OnOk result ((n : ℕ) → id < n → All (λ l. l.along.arc < n) links.old.items → All (λ l. l.along.arc < n) links.new.items) }
{
    for i in 1..points.len() {
        push_some(links, link_to(id, points, i))?;
    }
    Ok(())
}

fn push_some(links: &mut Vec<ArcLink>, found: Option<ArcLink>) -> Result<(), AllocError>
    ensures exact { OnOk result (links.new.items ≡ links.old.items ++ option_to_list found) }
{
    if let Some(l) = found {
        links.push(l)?;
    }
    Ok(())
}

/// The link of the step of an arc that leads to its point at `i`; `None` where the step stands still.
pub fn link_to(id: ArcId, points: &[Pt], i: usize) -> Option<ArcLink>
    requires after { 0 < i }
    requires there { i < length points.now }
    ensures next { links_along id (take (i + 1) points.now) ≡ links_along id (take i points.now) ++ option_to_list result }
    ensures arc { IfSome result (λ l. l.along.arc ≡ id) }
{
    step_along(id, points[i - 1], points[i])
}

// The link of a step of an arc; `None` where the step stands still.
fn step_along(id: ArcId, from: Pt, to: Pt) -> Option<ArcLink>
    ensures exact { result ≡ link_at id (record { start = from; stop = to }) }
    ensures there { IfSome result (λ l. l.along.arc ≡ id) }
{
    let link = Link::of(from, to)?;
    let along = if is_before(from, to) {
        SignedArc::forward(id)
    } else {
        SignedArc::backward(id)
    };
    Some(ArcLink { link, along })
}
