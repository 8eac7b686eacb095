ghost use Rattle.std.specs.Prelude.{◌≡◌, ◌<◌, [], map, All, IfErr, IfOk, MatchOption, OnOk, Err, Ok, ◌∷◌, ◌++◌, filter, length, true};
ghost use Rattle.json_values.specs.Seen.{json_value};
ghost use Rattle.numerals.specs.Units.{units_of_text};
ghost use Rattle.plane_model.specs.Arcs.{points_of};
ghost use Rattle.geojson_io.specs.Positions.{is_closed as ends_meet};
ghost use Rattle.topo_io.specs.Reads.{Answers};
ghost use Rattle.geojson_io.specs.Sound.{IsRing};
ghost use Rattle.topo_io.specs.Stitching.{arc_at, fresh_points, has_points, named_arc, path_of, ring_of, rings_of, stitched, turned, with_arc, with_points};

use crate::fault::{Stop, TopoWhy};
use geojson_io::is_closed;
use grid_base::{PathList, PolygonRings, Pt, PtList, SignedArc, append_reversed};
use json_values::Json;
use numerals::whole_units;
use std::alloc::{AllocError, Global};

// The arc that an item names. A list there is wrongly nested; anything else that names none is no index.
fn named_arc(json: &Json, count: u32) -> Result<SignedArc, TopoWhy>
    ensures exact { result ≡ named_arc count (json_value json.now) }
    ensures there { IfOk result (λ arc. arc.arc < count) }
{
    match json {
        Json::List(_) => Err(TopoWhy::NotTopology),
        Json::Num(text) => arc_at(text.as_str(), count),
        _ => Err(TopoWhy::ArcIndex),
    }
}

fn arc_at(text: &str, count: u32) -> Result<SignedArc, TopoWhy>
    ensures exact { result ≡ arc_at count (units_of_text 0 text.now) }
    ensures there { IfOk result (λ arc. arc.arc < count) }
{
    let Some(index) = whole_units(text, 0) else {
        return Err(TopoWhy::ArcIndex);
    };
    if index.unsigned_abs() > u128::from(u32::MAX) {
        return Err(TopoWhy::ArcIndex);
    }
    match SignedArc::from_index(index as i64, count) {
        Some(arc) => Ok(arc),
        None => Err(TopoWhy::ArcIndex),
    }
}

// The point that an arc starts at, and the others as they stand in it; `None` exactly where it has none.
fn start_and_rest(points: &[Pt], is_reversed: bool) -> Option<(&Pt, &[Pt])>
    ensures cases { MatchOption result (turned is_reversed points.now ≡ []) (λ p. turned is_reversed points.now ≡ p.0.now ∷ turned is_reversed p.1.now) }
{
    if is_reversed {
        points.split_last()
    } else {
        points.split_first()
    }
}

// The points that an arc adds to a path, as they stand in it: the one that it starts at is the path's last, and is
// dropped.
fn fresh_points<'a>(path: &PtList, points: &'a [Pt], is_reversed: bool) -> Result<&'a [Pt], TopoWhy>
    ensures ok { IfOk result (λ fresh. fresh_points path.now (turned is_reversed points.now) ≡ Ok (turned is_reversed fresh.now)) }
    ensures fault { IfErr result (λ why. fresh_points path.now (turned is_reversed points.now) ≡ Err why) }
{
    let [.., last] = path.as_slice() else {
        return Ok(points);
    };
    match start_and_rest(points, is_reversed) {
        None => Ok(points),
        Some((start, rest)) => {
            if last == start {
                Ok(rest)
            } else {
                Err(TopoWhy::Unstitched)
            }
        }
    }
}

fn append_turned(path: &mut PtList, points: &[Pt], is_reversed: bool) -> Result<(), AllocError>
    ensures exact { OnOk result (path.new ≡ path.old ++ turned is_reversed points.now) }
{
    if is_reversed {
        append_reversed(path, points)
    } else {
        path.append(points)
    }
}

// The path with the points of an arc.
fn with_points(
    path: PtList,
    points: &[Pt],
    is_reversed: bool,
    left: &mut u32,
) -> Result<PtList, Stop>
    ensures answers { Answers (with_points path (turned is_reversed points.now)) left.old result left.new }
{
    let mut path = path;
    let fresh = fresh_points(&path, points, is_reversed)?;
    if fresh.len() > *left as usize {
        return Err(Stop::Why(TopoWhy::TooManyPositions));
    }
    append_turned(&mut path, fresh, is_reversed)?;
    *left -= fresh.len() as u32;
    Ok(path)
}

// The path with an arc that is there.
fn with_signed_arc(
    path: PtList,
    arc: SignedArc,
    arcs: &PathList,
    left: &mut u32,
) -> Result<PtList, Stop>
    requires { arc.arc < length arcs.now }
    ensures answers { Answers (with_points path (points_of arcs.now arc)) left.old result left.new }
{
    let Some(points) = arcs.get(arc.id().num()) else {
        unreachable!()
    };
    with_points(path, points.as_slice(), arc.is_reversed(), left)
}

// The path with the arc that an item names.
fn with_arc(path: PtList, json: &Json, arcs: &PathList, left: &mut u32) -> Result<PtList, Stop>
    ensures answers { Answers (with_arc arcs.now (json_value json.now) path) left.old result left.new }
{
    let arc = named_arc(json, arcs.len())?;
    with_signed_arc(path, arc, arcs, left)
}

/// The arcs that the items name, joined into one path.
pub fn stitched(
    alloc: Global,
    items: &[Json],
    arcs: &PathList,
    left: &mut u32,
) -> Result<PtList, Stop>
    ensures answers { Answers (stitched arcs.now [] (map json_value items.now)) left.old result left.new }
{
    let mut path = PtList::new(alloc);
    for item in items {
        path = with_arc(path, item, arcs, left)?;
    }
    Ok(path)
}

/// The path of a list of arc indexes.
pub fn path_of(alloc: Global, json: &Json, arcs: &PathList, left: &mut u32) -> Result<PtList, Stop>
    ensures answers { Answers (path_of arcs.now (json_value json.now)) left.old result left.new }
{
    match json {
        Json::List(list) => stitched(alloc, list.as_slice(), arcs, left),
        _ => Err(Stop::Why(TopoWhy::NotTopology)),
    }
}

fn ring_of(alloc: Global, json: &Json, arcs: &PathList, left: &mut u32) -> Result<PtList, Stop>
    ensures read { Answers (ring_of arcs.now (json_value json.now)) left.old result left.new }
    ensures closed { IfOk result (λ path. ends_meet path ≡ true) }
{
    let path = path_of(alloc, json, arcs, left)?;
    if !is_closed(&path) {
        return Err(Stop::Why(TopoWhy::RingOpen));
    }
    Ok(path)
}

// Adds a ring, unless it has no positions.
#[tactic(auto, using(geojson_io::proofs::SoundLemmas::has_points, geojson_io::proofs::SoundLemmas::ends_at_start))]
fn push_ring(rings: &mut PolygonRings, ring: PtList) -> Result<(), AllocError>
    requires rings { All IsRing rings.old }
    requires closed { ends_meet ring ≡ true }
    ensures exact { OnOk result (rings.new ≡ rings.old ++ filter has_points (ring ∷ [])) }
    ensures sound { OnOk result (All IsRing rings.new) }
{
    if ring.len() > 0 {
        rings.push(ring)?;
    }
    Ok(())
}

/// The rings of a list of lists of arc indexes; an empty list is none.
pub fn rings_of(
    alloc: Global,
    items: &[Json],
    arcs: &PathList,
    left: &mut u32,
) -> Result<PolygonRings, Stop>
    ensures read { Answers (rings_of arcs.now (map json_value items.now)) left.old result left.new }
    ensures sound { IfOk result (λ rings. All IsRing rings) }
{
    let mut rings = PolygonRings::new(alloc);
    for item in items {
        let ring = ring_of(alloc, item, arcs, left)?;
        push_ring(&mut rings, ring)?;
    }
    Ok(rings)
}
