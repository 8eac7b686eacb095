//! Islands among squares. Two squares with a common side, and a small one apart.
use crate::squares::{Plane, Square, plane_of, sets_at};
use calc_ops::drop_islands;
use face_sets::SetList;
use std::alloc::Global;
use std::test::Fail;

const SQUARES: [Square; 3] = [(0, 0, 20), (20, 0, 20), (80, 0, 10)];

/// How many faces are left of each of three features.
fn left_of_three(alloc: Global, least_area: u128, least_links: u32) -> Result<Vec<usize>, Fail> {
    let plane = plane_of(alloc, &SQUARES)?;
    let lists: [&[(i64, i64)]; 3] = [&[(10, 10)], &[(30, 10)], &[(85, 5)]];
    sizes_left(alloc, &plane, &lists, least_area, least_links)
}

fn sizes_left(
    alloc: Global,
    plane: &Plane,
    lists: &[&[(i64, i64)]],
    least_area: u128,
    least_links: u32,
) -> Result<Vec<usize>, Fail> {
    let sets = sets_at(alloc, plane, lists)?;
    let left = drop_islands(
        alloc,
        &plane.arcs,
        &plane.faces,
        &sets,
        least_area,
        least_links,
    )?;
    sizes_of(alloc, &left)
}

fn sizes_of(alloc: Global, sets: &SetList) -> Result<Vec<usize>, Fail> {
    let mut sizes = Vec::new(alloc);
    for set in sets.as_slice() {
        sizes.push(set.faces().len())?;
    }
    Ok(sizes)
}

#[test]
fn small_square_apart_is_dropped(rt: HostRuntime) -> Result<(), Fail> {
    let sizes = left_of_three(rt.alloc(), 400, 0)?;
    assert_eq!(rt; sizes.as_slice(), [1, 1, 0].as_slice());
    Ok(())
}

#[test]
fn squares_with_a_common_side_are_kept_however_small(rt: HostRuntime) -> Result<(), Fail> {
    let sizes = left_of_three(rt.alloc(), 20000, 0)?;
    assert_eq!(rt; sizes.as_slice(), [1, 1, 0].as_slice());
    Ok(())
}

#[test]
fn island_of_just_the_least_area_is_kept(rt: HostRuntime) -> Result<(), Fail> {
    let sizes = left_of_three(rt.alloc(), 200, 0)?;
    assert_eq!(rt; sizes.as_slice(), [1, 1, 1].as_slice());
    Ok(())
}

#[test]
fn square_has_four_links(rt: HostRuntime) -> Result<(), Fail> {
    let four = left_of_three(rt.alloc(), 0, 4)?;
    assert_eq!(rt; four.as_slice(), [1, 1, 1].as_slice());
    let five = left_of_three(rt.alloc(), 0, 5)?;
    assert_eq!(rt; five.as_slice(), [1, 1, 0].as_slice());
    Ok(())
}

/// A feature of a large square and a small one that touches it at a corner, and another feature apart.
#[test]
fn part_that_touches_at_a_vertex_is_detached(rt: HostRuntime) -> Result<(), Fail> {
    let plane = plane_of(rt.alloc(), &[(0, 0, 20), (20, 20, 4), (60, 0, 20)])?;
    let lists: [&[(i64, i64)]; 2] = [&[(10, 10), (22, 22)], &[(70, 10)]];
    let sizes = sizes_left(rt.alloc(), &plane, &lists, 100, 0)?;
    assert_eq!(rt; sizes.as_slice(), [1, 1].as_slice());
    Ok(())
}

/// Two features that both have the small square.
#[test]
fn shared_part_is_kept(rt: HostRuntime) -> Result<(), Fail> {
    let plane = plane_of(rt.alloc(), &[(0, 0, 20), (60, 0, 4)])?;
    let lists: [&[(i64, i64)]; 2] = [&[(10, 10), (62, 2)], &[(62, 2)]];
    let sizes = sizes_left(rt.alloc(), &plane, &lists, 100, 0)?;
    assert_eq!(rt; sizes.as_slice(), [2, 1].as_slice());
    Ok(())
}
