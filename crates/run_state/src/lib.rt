//! The state of a run between two commands, and what every command asks of it.
//!
//! 1. `state` is the list of layers, and why a command stops a run (`refusal`).
//! 2. `base` is what all commands of a run stand on: the grid, the plane, and the layers of the sources of commands.
//! 3. `targets` says which layers a command works on, `origins` which one it takes from elsewhere, and `placing` where
//!    the layers go that it puts out.
//! 4. `features` takes features out of a layer by their numbers.
//! 5. `layer_sets` has the sets of faces of a layer, and those that `-clip` and `-erase` cut by.
#![tactic(auto)]

mod base;
mod features;
mod layer_sets;
mod origins;
mod placing;
mod refusal;
mod state;
mod targets;

pub use base::Base;
pub use features::{nonempty, numbers_below, take_features, with_geometry, with_shapes};
pub use layer_sets::{cut_set_of, sets_of, shapes_of, union_of, with_sets};
pub use origins::origin_layer;
pub use placing::placed;
pub use refusal::RefuseWhy;
pub use state::{CommandStop, HeldLayer, State};
pub use targets::{check_target, first_target, is_selected, only_target};
