//! Commands on the shapes of one layer: each makes a layer of what it leaves of each feature, or of the pieces.
//!
//! In: the plane, a layer over it, and what the words of a command ask for. Out: the layer that it makes; an error only
//! where memory ran out.
//!
//! 1. `cutting` is `-clip` and `-erase`, by a set of faces.
//! 2. `cleaning` is `-clean` and `-mosaic`.
//! 3. `exploding` is `-explode`.
//! 4. `islands` is `-filter-islands`.
#![tactic(auto)]

mod cleaning;
mod cutting;
mod exploding;
mod islands;

pub use cleaning::{cleaned, mosaic};
pub use cutting::{CutKeeps, cut};
pub use exploding::exploded;
pub use islands::without_islands;
