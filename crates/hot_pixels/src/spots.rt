ghost use Rattle.std.specs.Prelude.{◌≡◌, ◌++◌, OnOk, IfOk};
ghost use Rattle.std.specs.List.{flat_map};
ghost use Rattle.hot_pixels.specs.Spots.{spots_after, path_spots, rings_spots, feature_spots, points_spots, spots_of};

use grid_base::{Drawing, FeatId, PolygonRings, Pt, PtList, Seg};
use std::alloc::{AllocError, Global};

fn add_steps(spots: &mut Vec<Seg>, from: Pt, path: &[Pt]) -> Result<(), AllocError>
    ensures added { OnOk result (spots.new.items ≡ spots.old.items ++ spots_after from path.now) }
{
    let mut last = from;
    for p in path {
        spots.push(Seg::new(last, *p))?;
        last = *p;
    }
    Ok(())
}

fn add_path(spots: &mut Vec<Seg>, path: &[Pt]) -> Result<(), AllocError>
    ensures added { OnOk result (spots.new.items ≡ spots.old.items ++ path_spots path.now) }
{
    if path.is_empty() {
        return Ok(());
    }
    add_steps(spots, path[0], path)
}

fn add_rings(spots: &mut Vec<Seg>, rings: &[PtList]) -> Result<(), AllocError>
    ensures added { OnOk result (spots.new.items ≡ spots.old.items ++ rings_spots rings.now) }
{
    for ring in rings {
        add_path(spots, ring.as_slice())?;
    }
    Ok(())
}

fn add_polygons(spots: &mut Vec<Seg>, polygons: &[PolygonRings]) -> Result<(), AllocError>
    ensures added { OnOk result (spots.new.items ≡ spots.old.items ++ feature_spots polygons.now) }
{
    for polygon in polygons {
        add_rings(spots, polygon.as_slice())?;
    }
    Ok(())
}

fn add_points(spots: &mut Vec<Seg>, points: &[Pt]) -> Result<(), AllocError>
    ensures added { OnOk result (spots.new.items ≡ spots.old.items ++ points_spots points.now) }
{
    for p in points {
        spots.push(Seg::new(*p, *p))?;
    }
    Ok(())
}

fn add_polygon_features(spots: &mut Vec<Seg>, d: &Drawing) -> Result<(), AllocError>
    ensures added { OnOk result (spots.new.items ≡ spots.old.items ++ flat_map feature_spots d.now.polygons) }
{
    for f in 0..d.polygon_count() {
        let polygons = d.rings_of(FeatId::new(f));
        add_polygons(spots, polygons.as_slice())?;
    }
    Ok(())
}

fn add_line_features(spots: &mut Vec<Seg>, d: &Drawing) -> Result<(), AllocError>
    ensures added { OnOk result (spots.new.items ≡ spots.old.items ++ flat_map rings_spots d.now.lines) }
{
    for f in 0..d.line_count() {
        let lines = d.lines_of(FeatId::new(f));
        add_rings(spots, lines.as_slice())?;
    }
    Ok(())
}

fn add_point_features(spots: &mut Vec<Seg>, d: &Drawing) -> Result<(), AllocError>
    ensures added { OnOk result (spots.new.items ≡ spots.old.items ++ flat_map points_spots d.now.points) }
{
    for f in 0..d.point_count() {
        let points = d.points_of(FeatId::new(f));
        add_points(spots, points.as_slice())?;
    }
    Ok(())
}

fn add_boxes(spots: &mut Vec<Seg>, d: &Drawing) -> Result<(), AllocError>
    ensures added { OnOk result (spots.new.items ≡ spots.old.items ++ flat_map path_spots d.now.boxes) }
{
    for b in 0..d.box_count() {
        let ring = d.box_of(b);
        add_path(spots, ring.as_slice())?;
    }
    Ok(())
}

/// The segments of a drawing, and the first point of each path as a segment of no length.
pub fn spots_of(alloc: Global, d: &Drawing) -> Result<Vec<Seg>, AllocError>
    ensures exact { IfOk result (λ spots. spots.items ≡ spots_of d.now) }
{
    let mut spots = Vec::new(alloc);
    add_polygon_features(&mut spots, d)?;
    add_line_features(&mut spots, d)?;
    add_point_features(&mut spots, d)?;
    add_boxes(&mut spots, d)?;
    Ok(spots)
}
