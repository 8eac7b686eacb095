ghost use Rattle.std.specs.Prelude.{◌≡◌, ◌<◌, [], ℕ, List, All, IfOk, OnOk, length, map};
ghost use Rattle.std.specs.List.{range_with_len};
ghost use Rattle.std.specs.List.Sorted.{IsStrictlyIncreasing};
ghost use Rattle.face_walk.specs.Places.{IsBuiltOf};
ghost use Rattle.face_sets.specs.Owners.{AreOwners, IsNumbered, owners_of};
ghost use Rattle.spatial_join.specs.Matches.{AreFoundAlong, AreMatchedPoints, AreMatchedSets, AreSetsAt};

use crate::beside::push_sets_at;
use arc_table::ArcTable;
use face_sets::{FaceOwners, SetList, put_number};
use face_walk::Faces;
use grid_base::{GroupList, IdList, PathList, Pt, empty_lists};
use std::alloc::{AllocError, Global};

/// For each list of points the numbers of the sets that some point of it is inside of, counted from 0 and ascending.
/// The points are vertices of the drawing.
///
/// A point is inside each set that has a face beside it, so a point on a boundary is inside the sets on both sides.
/// Errors: `AllocError` for want of memory.
/// Cost: one step for each face of each set, one for each arc that starts at each point, and n log n for n sets that
/// these have beside a list.
pub fn match_points(
    alloc: Global,
    t: &ArcTable,
    f: &Faces,
    points: &PathList,
    sets: &SetList,
) -> Result<GroupList, AllocError>
    requires built { IsBuiltOf t.now f.now }
    ensures exact { IfOk result (AreMatchedPoints t.now f.now points.now sets.now) }
    ensures each { IfOk result (λ matches. length matches ≡ length points.now) }
    ensures ascending { IfOk result (All IsStrictlyIncreasing) }
    ensures numbers { IfOk result (All (All (λ n. n < length sets.now))) }
{
    let owners = FaceOwners::of(alloc, f, sets)?;
    let mut matches = GroupList::new(alloc);
    for list in points.as_slice() {
        matches.push(sets_at(alloc, t, f, &owners, list.as_slice())?)?;
    }
    Ok(matches)
}

/// For each set the numbers of the lists of points of which some point is inside it, counted from 0 and ascending. The
/// points are vertices of the drawing.
///
/// Errors and cost: those of `match_points`.
pub fn match_sets(
    alloc: Global,
    t: &ArcTable,
    f: &Faces,
    sets: &SetList,
    points: &PathList,
) -> Result<GroupList, AllocError>
    requires built { IsBuiltOf t.now f.now }
    ensures exact { IfOk result (AreMatchedSets t.now f.now points.now sets.now) }
    ensures each { IfOk result (λ matches. length matches ≡ length sets.now) }
    ensures ascending { IfOk result (All IsStrictlyIncreasing) }
    ensures numbers { IfOk result (All (All (λ n. n < length points.now))) }
{
    let matches = match_points(alloc, t, f, points, sets)?;
    turned_round(alloc, &matches, sets.len())
}

// The numbers of the sets that some of these points are inside of, ascending.
fn sets_at(
    alloc: Global,
    t: &ArcTable,
    f: &Faces,
    owners: &FaceOwners,
    points: &[Pt],
) -> Result<IdList, AllocError>
    requires built { IsBuiltOf t.now f.now }
    ensures exact { (sets : List (List ℕ)) → AreOwners sets f.now.count owners.now → IfOk result (AreSetsAt t.now f.now sets points.now) }
{
    let mut found = found_at(alloc, t, f, owners, points)?;
    found.sort_unstable();
    found.dedup();
    IdList::from_vec(found)
}

// The numbers of the sets that have a face beside some of these points, for each such face.
fn found_at(
    alloc: Global,
    t: &ArcTable,
    f: &Faces,
    owners: &FaceOwners,
    points: &[Pt],
) -> Result<Vec<u32>, AllocError>
    requires built { IsBuiltOf t.now f.now }
    ensures found { IfOk result (λ v. AreFoundAlong t.now f.now owners.now points.now v.items) }
{
    let mut found = Vec::new(alloc);
    for p in points {
        push_sets_at(t, f, owners, *p, &mut found)?;
    }
    Ok(found)
}

// For each of `count` numbers the numbers of the lists that have it, ascending.
fn turned_round(alloc: Global, lists: &GroupList, count: u32) -> Result<GroupList, AllocError>
    requires ascending { All IsStrictlyIncreasing lists.now }
    ensures exact { IfOk result (λ g. g ≡ map (owners_of lists.now) (range_with_len 0 count)) }
{
    let mut places = empty_lists(alloc, count as usize)?;
    for n in 0..lists.len() {
        add_number(&mut places, lists.as_slice()[n as usize].as_slice(), n)?;
    }
    group_list(alloc, places)
}

// Puts a number to the lists at each of some places.
fn add_number(lists: &mut Vec<Vec<u32>>, places: &[u32], n: u32) -> Result<(), AllocError>
    requires ascending { IsStrictlyIncreasing places.now }
    ensures ok { OnOk result (IsNumbered n places.now (map (λ list. list.items) lists.old.items) (map (λ list. list.items) lists.new.items)) }
{
    for place in places {
        put_number(lists, *place as usize, n)?;
    }
    Ok(())
}

fn group_list(alloc: Global, lists: Vec<Vec<u32>>) -> Result<GroupList, AllocError>
    ensures same { IfOk result (λ g. g ≡ map (λ list. list.items) lists.items) }
{
    let mut groups = GroupList::new(alloc);
    for list in lists {
        groups.push(IdList::from_vec(list)?)?;
    }
    Ok(groups)
}
