//! Laws of arcs: the arcs of a table are those that the model takes.
//!
//! The model (`plane_model`, `specs/Arcs.antt`) goes on from each step of a path to the next nodes both ways, and has
//! each arc where a path first steps along it. A table of arcs has whole arcs, in their directions and in that order:
//! so it has the same arcs with the same numbers (`arcs_are_modelled`).
//!
//! Each function carries one law in its contract, and does nothing.
#![tactic(auto)]

ghost use Rattle.arc_laws.specs.Modelled.{ArcsAreModelled};

/// The arcs of a table are those that the model takes along the steps of the paths, in the same order.
pub fn arcs_are_modelled()
    ensures holds { ArcsAreModelled }
{}
