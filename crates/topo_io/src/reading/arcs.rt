ghost use Rattle.std.specs.Prelude.{◌≤◌, map};
ghost use Rattle.grid_base.specs.Grid.{most_places};
ghost use Rattle.json_values.specs.Lists.{items_list};
ghost use Rattle.json_values.specs.Seen.{json_value};
ghost use Rattle.topo_io.specs.Positions.{no_sums, position_after};
ghost use Rattle.topo_io.specs.Reads.{AnswersAt, AnswersPlain, along};
ghost use Rattle.topo_io.specs.Stitching.{arc, arcs, numbered_arc};

use crate::fault::{Stop, TopoFault, TopoPlace, TopoWhy};
use crate::frame::Frame;
use crate::reading::positions::{Sums, position_after};
use grid_base::{PathList, PtList};
use json_values::{Json, JsonList};
use std::alloc::Global;

// The positions of an arc: the first by itself, each other as a difference where there is a transform.
fn each_position(alloc: Global, items: &[Json], frame: &Frame) -> Result<PtList, Stop>
    requires { frame.now.places ≤ most_places }
    ensures answers { AnswersPlain (along (position_after frame.now) (map json_value items.now) no_sums) result }
{
    let mut path = PtList::new(alloc);
    let mut sums = Sums::START;
    for item in items {
        let next = position_after(item, frame, sums)?;
        path.push(next.0)?;
        sums = next.1;
    }
    Ok(path)
}

fn arc_of(alloc: Global, json: &Json, frame: &Frame) -> Result<PtList, Stop>
    requires { frame.now.places ≤ most_places }
    ensures answers { AnswersPlain (arc frame.now (json_value json.now)) result }
{
    let Json::List(list) = json else {
        return Err(Stop::Why(TopoWhy::NotTopology));
    };
    let path = each_position(alloc, list.as_slice(), frame)?;
    if path.len() < 2 {
        return Err(Stop::Why(TopoWhy::ArcShort));
    }
    Ok(path)
}

fn each_arc(alloc: Global, items: &[Json], frame: &Frame) -> Result<PathList, TopoFault>
    requires { frame.now.places ≤ most_places }
    ensures answers { AnswersAt (along (numbered_arc frame.now) (map json_value items.now) 0) result }
{
    let mut arcs = PathList::new(alloc);
    for item in items {
        match arc_of(alloc, item, frame) {
            Ok(path) => arcs.push(path)?,
            Err(stop) => return Err(stop.at(TopoPlace::Arc { arc: arcs.len() })),
        }
    }
    Ok(arcs)
}

/// The arcs of a topology, each of two or more points.
pub fn arcs_of(alloc: Global, list: &JsonList, frame: &Frame) -> Result<PathList, TopoFault>
    requires { frame.now.places ≤ most_places }
    ensures answers { AnswersAt (arcs frame.now (items_list list.now)) result }
{
    each_arc(alloc, list.as_slice(), frame)
}
