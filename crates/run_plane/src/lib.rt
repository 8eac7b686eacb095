//! The plane of a run, and layers over it.
//!
//! In: the drawing of all sources and boxes. Out: the arcs and faces of the snapped drawing, the faces that each
//! polygon feature and each box holds, and the arcs that each line feature goes along.
//!
//! 1. `plane` snaps a drawing, builds its arcs and faces, and gathers the faces that features and boxes hold. The paths
//!    of the snapped drawing are let go before: arcs stand for them.
//! 2. `lines` has the paths of line features as arcs.
//! 3. `layer` is a layer of a run: a row and a shape for each feature, where a shape is a set of faces, a list of
//!    signed paths, or points.
//! 4. `copies` makes copies of shapes and texts.
#![tactic(auto)]

mod copies;
mod layer;
mod lines;
mod plane;

pub use copies::{copy_path, copy_paths, copy_points, copy_shape, copy_shapes, copy_text};
pub use layer::{Layer, Shape};
pub use plane::{LaidOut, Plane, laid_out};
