use grid_base::{PathList, PtList, RingsList};
use lists::ItemList;

/// A feature's geometry in grid points: nothing, or at least one polygon, line or point.
#[derive(Drop)]
pub enum GeoShape {
    Nothing,
    Polygons(RingsList),
    Lines(PathList),
    Points(PtList),
}

/// A list of shapes.
pub type GeoShapeList = ItemList<GeoShape>;
