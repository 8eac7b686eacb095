ghost use Rattle.std.specs.Prelude.{◌≡◌, ◌++◌, ◌∷◌, [], List, IfOk, OnOk};
ghost use Rattle.plane_model.specs.Points.{GridPoint as Point};
ghost use Rattle.hot_pixels.specs.Meetings.{AreBack, meeting_at};
ghost use Rattle.hot_pixels.specs.Marking.{AreEndsAnd};

use grid_base::{Pt, Seg, is_before};
use std::alloc::{AllocError, Global};

// Room for the points of most chains.
const FEW: usize = 8;

/// A hot point that an edge meets besides its ends, and the number of the edge's meeting before.
#[derive(Clone, Copy)]
pub struct Meeting {
    pub point: Pt,
    pub before: Option<u32>,
}

fn meeting_at(meetings: &[Meeting], at: Option<u32>) -> Option<Meeting>
    ensures exact { result ≡ meeting_at meetings.now at }
{
    match at {
        Some(k) => meetings.get(k as usize).copied(),
        None => None,
    }
}

// Adds the points of the meetings from this one back, each followed by the one before.
fn add_back(points: &mut Vec<Pt>, meetings: &[Meeting], last: Option<u32>) -> Result<(), AllocError>
    ensures ok { OnOk result ((back : List Point) → AreBack meetings.now last back → points.new.items ≡ points.old.items ++ back) }
{
    let mut at = last;
    for _step in 0..meetings.len() {
        let Some(meeting) = meeting_at(meetings, at) else {
            return Ok(());
        };
        points.push(meeting.point)?;
        at = meeting.before;
    }
    Ok(())
}

// The points of the meetings from this one back, with a point before them and one after.
fn back_between(
    alloc: Global,
    meetings: &[Meeting],
    last: Option<u32>,
    before: Pt,
    after: Pt,
) -> Result<Vec<Pt>, AllocError>
    ensures exact { IfOk result (λ all. (back : List Point) → AreBack meetings.now last back → all.items ≡ before ∷ [] ++ back ++ after ∷ []) }
{
    let mut all = Vec::with_capacity(alloc, FEW)?;
    all.push(before)?;
    add_back(&mut all, meetings, last)?;
    all.push(after)?;
    Ok(all)
}

/// The ends of a segment, and the points of the meetings from this one back.
///
/// Meetings were gathered in ascending order. So these points are mostly in the order in which the segment passes them.
pub fn ends_and_back(
    alloc: Global,
    meetings: &[Meeting],
    last: Option<u32>,
    s: &Seg,
) -> Result<Vec<Pt>, AllocError>
    ensures made { IfOk result (λ all. (back : List Point) → AreBack meetings.now last back → AreEndsAnd s.now back all.items) }
{
    let (a, b) = (s.a(), s.b());
    if is_before(b, a) {
        let backward = back_between(alloc, meetings, last, a, b)?;
        return Ok(backward);
    }
    let mut forward = back_between(alloc, meetings, last, b, a)?;
    forward.reverse();
    Ok(forward)
}
