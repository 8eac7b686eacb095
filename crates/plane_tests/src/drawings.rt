//! The drawing of a group, an object. Its members, each of which may be absent:
//!
//! - `holed`: a list of features, each the four corners of an exterior and those of a hole;
//! - `polygons`: a list of features, each the corners of an exterior, one, three or four, gone round from the first;
//! - `lines`: a list of features, each the points of a line;
//! - `points`: a list of features, each a point;
//! - `boxes`: a list of boxes, each its left and lower side and its right and upper one.
//!
//! What is off the grid, or turned over, is left out.
use crate::rings::{add_holed, add_polygon};
use case_lists::{integer_at, list_at, list_in, member_of};
use grid_base::{Drawing, Kind, Pt, PtList, Rect};
use json_read::Json;
use std::alloc::{AllocError, Global};

/// The drawing of a group; empty where it has none.
pub fn drawing_of(alloc: Global, group: &Json) -> Result<Drawing, AllocError> {
    let mut drawing = Drawing::new(alloc);
    if let Some(shapes) = member_of(group, "drawing") {
        add_holed_polygons(alloc, &mut drawing, list_in(shapes, "holed"))?;
        add_polygons(alloc, &mut drawing, list_in(shapes, "polygons"))?;
        add_lines(alloc, &mut drawing, list_in(shapes, "lines"))?;
        add_points(&mut drawing, list_in(shapes, "points"))?;
        add_boxes(&mut drawing, list_in(shapes, "boxes"))?;
    }
    Ok(drawing)
}

/// The point at a place of a list.
pub fn point_at(list: &[Json], place: usize) -> Option<Pt> {
    let coordinates = list_at(list, place);
    Pt::new(integer_at(coordinates, 0), integer_at(coordinates, 1))
}

/// The points of a list.
pub fn points_of(alloc: Global, list: &[Json]) -> Result<PtList, AllocError> {
    let mut points = PtList::new(alloc);
    for place in 0..list.len() {
        if let Some(point) = point_at(list, place) {
            points.push(point)?;
        }
    }
    Ok(points)
}

fn add_holed_polygons(
    alloc: Global,
    drawing: &mut Drawing,
    polygons: &[Json],
) -> Result<(), AllocError> {
    for place in 0..polygons.len() {
        let rings = list_at(polygons, place);
        let exterior = points_of(alloc, list_at(rings, 0))?;
        let hole = points_of(alloc, list_at(rings, 1))?;
        add_holed(alloc, drawing, exterior.as_slice(), hole.as_slice())?;
    }
    Ok(())
}

fn add_polygons(alloc: Global, drawing: &mut Drawing, polygons: &[Json]) -> Result<(), AllocError> {
    for place in 0..polygons.len() {
        let corners = points_of(alloc, list_at(polygons, place))?;
        add_polygon(alloc, drawing, corners.as_slice())?;
    }
    Ok(())
}

fn add_lines(alloc: Global, drawing: &mut Drawing, lines: &[Json]) -> Result<(), AllocError> {
    for place in 0..lines.len() {
        add_line(drawing, points_of(alloc, list_at(lines, place))?)?;
    }
    Ok(())
}

/// Adds a feature of one line, where it has points.
pub fn add_line(drawing: &mut Drawing, line: PtList) -> Result<(), AllocError> {
    if line.len() > 0 {
        drawing.add_feature(Kind::Line)?;
        drawing.add_line(line)?;
    }
    Ok(())
}

fn add_points(drawing: &mut Drawing, points: &[Json]) -> Result<(), AllocError> {
    for place in 0..points.len() {
        if let Some(point) = point_at(points, place) {
            add_point(drawing, point)?;
        }
    }
    Ok(())
}

/// Adds a feature of one point.
pub fn add_point(drawing: &mut Drawing, point: Pt) -> Result<(), AllocError> {
    drawing.add_feature(Kind::Point)?;
    drawing.add_point(point)
}

fn add_boxes(drawing: &mut Drawing, boxes: &[Json]) -> Result<(), AllocError> {
    for place in 0..boxes.len() {
        if let Some(rect) = box_of(list_at(boxes, place)) {
            drawing.add_box(rect)?;
        }
    }
    Ok(())
}

fn box_of(sides: &[Json]) -> Option<Rect> {
    let low = Pt::new(integer_at(sides, 0), integer_at(sides, 1))?;
    let high = Pt::new(integer_at(sides, 2), integer_at(sides, 3))?;
    Rect::new(low, high)
}

/// A drawing of `count` points from (0, 0) to the right, and of as many lines from the first to the last as `times`
/// says; of at most 10,000 each.
pub fn repeated_lines(alloc: Global, count: u32, times: u32) -> Result<Drawing, AllocError> {
    let count = count.min(10_000);
    let mut drawing = Drawing::new(alloc);
    for x in 0..count {
        if let Some(point) = Pt::new(i64::from(x), 0) {
            add_point(&mut drawing, point)?;
        }
    }
    let last = i64::from(count) - 1;
    if let (Some(start), Some(end)) = (Pt::new(0, 0), Pt::new(last, 0)) {
        repeat_line(alloc, &mut drawing, start, end, times.min(10_000))?;
    }
    Ok(drawing)
}

fn repeat_line(
    alloc: Global,
    drawing: &mut Drawing,
    start: Pt,
    end: Pt,
    times: u32,
) -> Result<(), AllocError> {
    for _line in 0..times {
        let mut line = PtList::new(alloc);
        line.push(start)?;
        line.push(end)?;
        add_line(drawing, line)?;
    }
    Ok(())
}
