//! `synth`: the line that tells of a made-up mosaic, to try the speed of the plane.
//!
//! In: a seed, and how many cells stand in a row and in a column, at most 300. Out: the line, with the numbers of
//! cells, arcs, faces and cells that keep a face, and twice the area of all cells; or a `SnapFault`.
//!
//! 1. `cells` draws the cells of the mosaic: overlapping polygons of four corners, three of which the seed moves.
//! 2. `synth` has them laid out by `run_plane`, gives each face to the largest of its cells by `region_ops`, counts,
//!    and makes the line.
#![tactic(auto)]

mod cells;
mod synth;

pub use synth::synth_line;
