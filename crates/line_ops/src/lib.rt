//! The commands on lines and points, by the faces at their sides.
//!
//! - `sided_arcs` are the arcs whose two sides are in different sets of a list; `boundary_arcs` their numbers, and
//!   `inner_arcs` those with a set at each side.
//! - An arc is inside a set of faces that has at least one of its two sides. `clip_paths` cuts paths into their
//!   maximal runs of arcs that are inside, `erase_paths` into those of arcs that aren't.
//! - A point is inside a set that has the face where it lies, or some face next to the vertex on which it stands.
#![tactic(auto)]

mod inside;
mod points;
mod runs;
mod sides;

pub use points::point_inside;
pub use runs::{clip_paths, erase_paths};
pub use sides::{SidedArc, SidedArcs, boundary_arcs, inner_arcs, sided_arcs};
