//! Laws of steps: each command of a run makes of its layers, which show those of a state, what shows the step of that
//! state.
//!
//! When layers show those of a state, and that what one command makes of one does, say the laws of `layer_laws`. Here a
//! command takes its targets, works on each or on all of them together, and is refused as in the state;
//! `specs/Steps.antt` says when a step shows that of the state.
//!
//! - The step of a command on the tables of its layers shows that of the state (`table_steps_show`), and so does that
//!   of one that merges them (`merge_steps_show`).
//! - Joins by place show those of the state (`place_joins_show`), and so do their steps (`place_steps_show`).
//! - The step of clip, erase, dissolve, clean, explode, mosaic, innerlines, lines and islands that are dropped shows
//!   that of the state, whatever the kinds of the layers are (`shape_steps_show`), and so does that of a command that
//!   unites layers (`union_steps_show`).
//!
//! Each function carries one law in its contract, and does nothing.
#![tactic(auto)]

ghost use Rattle.state_laws.specs.Places.{PlaceJoinsShow, PlaceStepsShow};
ghost use Rattle.state_laws.specs.PolygonSteps.{ShapeStepsShow, UnionStepsShow};
ghost use Rattle.state_laws.specs.Steps.{MergeStepsShow, TableStepsShow};

/// The step of a command on the tables of its layers shows that of the state.
pub fn table_steps_show()
    ensures holds { TableStepsShow }
{}

/// The step of a command that merges the layers of its target shows that of the state.
pub fn merge_steps_show()
    ensures holds { MergeStepsShow }
{}

/// A join by place of points with polygons, or of polygons with points, shows that of the state's layers.
pub fn place_joins_show()
    ensures holds { PlaceJoinsShow }
{}

/// The step of a command that unites the layers of its target shows that of the state, and is refused alike.
pub fn union_steps_show()
    ensures holds { UnionStepsShow }
{}

/// The step of a clip, an erase, a dissolve, a clean, an explode, a mosaic, innerlines, lines or islands that are
/// dropped shows that of the state, whatever the kinds of its layers.
pub fn shape_steps_show()
    ensures holds { ShapeStepsShow }
{}

/// The step of a join by place shows that of the state, whatever the kinds of its layers.
pub fn place_steps_show()
    ensures holds { PlaceStepsShow }
{}
