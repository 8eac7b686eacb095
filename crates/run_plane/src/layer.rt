ghost use Rattle.std.specs.Prelude.{◌≡◌, length};

use arc_table::SignedPaths;
use face_sets::FaceSet;
use grid_base::{Kind, PtList};
use json_values::Table;
use text_core::Text;

/// What a feature has of the plane that all layers of a run share. A shape may be empty: the feature then has no
/// geometry, and keeps its row.
#[derive(Drop)]
pub enum Shape {
    /// Of a layer of kind Table.
    Nothing,
    /// Of polygons: the faces that the feature has.
    Faces(FaceSet),
    /// Of lines: its paths along arcs, in order.
    Paths(SignedPaths),
    /// Its points, on the grid of the run, in order.
    Points(PtList),
}

impl Shape {
    ghost use Rattle.std.specs.Prelude.{◌≡◌};
    ghost use Rattle.run_plane.specs.Shapes.{is_empty};

    /// Whether a feature of this shape has no geometry: no face, no path and no point. Takes no memory.
    pub fn is_empty(&self) -> bool
        ensures exact { result ≡ is_empty self.now }
    {
        match self {
            Shape::Nothing => true,
            Shape::Faces(set) => set.is_empty(),
            Shape::Paths(paths) => paths.len() == 0,
            Shape::Points(points) => points.len() == 0,
        }
    }
}

/// A layer of a run: a row and a shape for each feature, in order.
#[derive(Drop)]
pub struct Layer {
    pub name: Text,
    pub kind: Kind,
    pub table: Table,
    pub shapes: Vec<Shape>,
    ghost each: { length shapes.items ≡ length table.rows },
}
