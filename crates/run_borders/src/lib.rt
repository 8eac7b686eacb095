//! Commands on the borders between features: features of a group or of several layers become one, or lines are drawn
//! along their borders.
//!
//! In: the plane, layers over it, and what the words of a command ask for. Out: the layer that it makes; or a
//! `CommandStop`, where a table is refused or memory ran out.
//!
//! 1. `dissolving` is `-dissolve`.
//! 2. `borders` is `-innerlines` and `-lines`.
//! 3. `uniting` is `-union`.
#![tactic(auto)]

mod borders;
mod dissolving;
mod paths;
mod uniting;

pub use borders::{inner_lines, outlines};
pub use dissolving::dissolved;
pub use uniting::united;
