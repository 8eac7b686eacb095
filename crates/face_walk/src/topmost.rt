ghost use Rattle.std.specs.Prelude.{length};
ghost use Rattle.std.specs.Option.{option_to_list};
ghost use Rattle.link_search.specs.Descent.{IsBelowPoint};
ghost use Rattle.link_search.specs.Topmost.{IsTopmostBelow, IsTopmostWith};
ghost use Rattle.face_walk.specs.Rays.{links_along, links_below};

use crate::links::link_to;
use arc_table::ArcTable;
use grid_base::{ArcId, Pt};
use link_search::{ArcLink, upper};

/// The topmost link below a point, of the links of all arcs. Takes no memory.
///
/// Cost: a step for each link.
pub fn topmost_of_arcs(t: &ArcTable, p: Pt) -> Option<ArcLink>
    ensures exact { IsTopmostBelow (links_below t.now (length t.now)) p result }
{
    let mut topmost = None;
    for n in 0..t.count() {
        let id = ArcId::new(n);
        topmost = upper_along(id, t.points_of(id), p, topmost);
    }
    topmost
}

// The topmost link below `p`, of the topmost one so far and the links of an arc.
fn upper_along(id: ArcId, points: &[Pt], p: Pt, best: Option<ArcLink>) -> Option<ArcLink>
    requires below { IsBelowPoint p best }
    ensures below { IsBelowPoint p result }
    ensures exact { IsTopmostWith (links_along id points.now) p best result }
{
    let mut topmost = best;
    for i in 1..points.len() {
        topmost = upper_some(topmost, link_to(id, points, i), p);
    }
    topmost
}

// The same with the link that is found, if there is one.
fn upper_some(topmost: Option<ArcLink>, found: Option<ArcLink>, p: Pt) -> Option<ArcLink>
    requires below { IsBelowPoint p topmost }
    ensures below { IsBelowPoint p result }
    ensures exact { IsTopmostWith (option_to_list found) p topmost result }
{
    match found {
        Some(l) => upper(topmost, l, p),
        None => topmost,
    }
}
