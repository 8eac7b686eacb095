//! TopoJSON 1.0 both ways: a topology becomes layers of grid points, or the first fault in order; layers of arcs
//! become the text of a topology.
//!
//! 1. `reading` takes a JSON value, decimal places, and room for positions and features. It reads the transform
//!    (`frame`), then each arc once, then the shapes, which stitch the arcs that they name.
//! 2. `arc_layer` has layers whose shapes are arcs of a table.
//! 3. `writing` takes such layers, the table of arcs and decimal places. The arcs that the layers use get new
//!    numbers, in order, and each is written once, by differences.
#![tactic(auto)]

mod arc_layer;
mod fault;
mod frame;
mod reading;
mod writing;

pub use arc_layer::{ArcLayer, ArcLayers, ArcShape, ArcShapeList};
pub use fault::{TopoFault, TopoPlace, TopoWhy};
pub use frame::{Frame, Transform};
pub use reading::{Numbers, Sums, Topology, read_topojson};
pub use writing::write_topojson;
