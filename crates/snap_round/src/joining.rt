ghost use Rattle.std.specs.Prelude.{◌≡◌, ◌<◌, ◌++◌, ◌∷◌, Contains, IfOk, OnOk};
ghost use Rattle.plane_model.specs.Points.{GridPoint};
ghost use Rattle.std.specs.List.{flat_map};
ghost use Rattle.snap_round.specs.Joining.{steps_after, chain_after, IsHotPath, AreChainsOf};

use grid_base::{Pt, PtList, Seg};
use hot_pixels::HotEdges;
use std::alloc::{AllocError, Global};

/// Why paths are not made: their chains would have more links than there is room for, or memory ran out.
#[derive(Clone, Copy, PartialEq, Eq)]
pub enum PathStop {
    Full,
    Memory,
}

impl From<AllocError> for PathStop {
    ghost use Rattle.snap_round.specs.declared.joining.PathStop.TheVariants.{Memory};

    ghost from_gives = { λ _ stop. stop ≡ Memory };

    fn from(_error: AllocError) -> PathStop {
        PathStop::Memory
    }
}

/// How far paths are made: there is room for `room` more links of chains, and the next step is at `place` among the
/// segments of the drawing. A wrong place costs time alone.
#[derive(Drop)]
pub struct Progress {
    pub room: u64,
    pub place: usize,
    /// The points of the path that is being made. All paths are made in one list, whose room they share.
    pub joined: PtList,
}

// Takes the links of a chain out of the room, and goes on to the next step.
fn go_on(progress: &mut Progress, links: u32) -> Result<(), PathStop>
    ensures exact { progress.new.joined ≡ progress.old.joined }
{
    progress.place = progress.place.wrapping_add(1);
    match progress.room.checked_sub(u64::from(links)) {
        Some(left) => {
            progress.room = left;
            Ok(())
        }
        None => Err(PathStop::Full),
    }
}

// Goes on along the chain of a step between hot points: appends the points after its first.
fn append_step(
    alloc: Global,
    progress: &mut Progress,
    hot: &HotEdges,
    s: &Seg,
) -> Result<(), PathStop>
    requires start { Contains hot.now.points s.now.start }
    requires stop { Contains hot.now.points s.now.stop }
    ensures ok { OnOk result (progress.new.joined ≡ progress.old.joined ++ chain_after hot.now.points s.now) }
{
    let before = progress.joined.len();
    hot.go_along(alloc, &mut progress.joined, s, progress.place)?;
    let links = progress.joined.len().saturating_sub(before);
    go_on(progress, links)
}

// Goes on along the chains of the steps from a point to the first of the rest, and on.
fn append_chains(
    alloc: Global,
    progress: &mut Progress,
    hot: &HotEdges,
    from: Pt,
    rest: &[Pt],
) -> Result<(), PathStop>
    requires hot { (p : GridPoint) → Contains (from ∷ rest.now) p → Contains hot.now.points p }
    ensures ok { OnOk result (progress.new.joined ≡ progress.old.joined ++ flat_map (chain_after hot.now.points) (steps_after from rest.now)) }
{
    let mut last = from;
    for p in rest {
        append_step(alloc, progress, hot, &Seg::new(last, *p))?;
        last = *p;
    }
    Ok(())
}

/// The first vertex of a path, and the chains of its steps, each after its first point.
///
/// Where equal neighbours count once, it is the snapped path. Its links are taken out of the room.
pub fn joined_chains(
    alloc: Global,
    progress: &mut Progress,
    hot: &HotEdges,
    path: &[Pt],
) -> Result<PtList, PathStop>
    requires { IsHotPath hot.now.points path.now }
    ensures made { IfOk result (AreChainsOf hot.now.points path.now) }
{
    go_on(progress, 0)?;
    progress.joined.clear();
    progress.joined.push(path[0])?;
    append_chains(alloc, progress, hot, path[0], &path[1..])?;
    let exact = PtList::of(alloc, progress.joined.as_slice())?;
    Ok(exact)
}
