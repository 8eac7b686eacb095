//! The texts of outputs.
//!
//! In: the layers of a run over its plane, and the target and the form of an output. Out: the bytes of its text; or a
//! `CommandStop`, where the target doesn't fit the form or memory ran out.
//!
//! 1. `texts` checks an output, and makes its text: one layer as GeoJSON or as comma-separated text, or all layers of
//!    the target as a topology.
//! 2. `arc_pictures` shows a layer as rings and paths of arcs.
//! 3. `pictures` draws it as rings and paths of points, feature by feature, and prints each before it draws the next.
//!    Points are lent to the printing as they are.
#![tactic(auto)]

mod arc_pictures;
mod pictures;
mod texts;

pub use texts::output_text;
