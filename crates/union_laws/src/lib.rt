//! Laws of the union of layers: what `union_sets` answers is what the definition of a union makes of the regions of the
//! layers.
//!
//! - Where the sets of each layer follow its regions, the items are in order, with their choices, each part of what
//!   each choice leaves, and the sets of the items follow these parts (`union_as_told`).
//! - The features of a union lie apart (`united_are_apart`), and together they have each point on no link that a region
//!   of a layer has (`united_cover`).
//!
//! Each function carries one law in its contract, and does nothing. The laws are stated in `specs/United.antt`.
#![tactic(auto)]

ghost use Rattle.union_laws.specs.United.{UnionAsTold, UnitedAreApart, UnitedCover};

/// The items that `union_sets` answers are in order, with their choices, those that the definition of a union makes of
/// the regions of the layers.
pub fn union_as_told()
    ensures holds { UnionAsTold }
{}

/// No rational point is in two features of a union.
pub fn united_are_apart()
    ensures holds { UnitedAreApart }
{}

/// Each rational point on no link that a region of a layer has is in a feature of the union.
pub fn united_cover()
    ensures holds { UnitedCover }
{}
