//! The law of islands that are dropped: what `drop_islands` leaves of the sets of a layer is what the definition of
//! `-filter-islands` leaves of the regions of the layer.
//!
//! An island is a part of a feature's region that is detached and small: along its boundary no other feature is on its
//! own side, and no feature at all on the other, and twice its area or the number of the links in its boundary is below
//! what is asked. Where the sets follow the regions, the sets that are left follow the regions without their islands
//! (`islands_are_followed`).
//!
//! The function carries the law in its contract, and does nothing. The law is stated in `specs/Left.antt`.
#![tactic(auto)]

ghost use Rattle.island_laws.specs.Left.{IslandsAreFollowed};

/// The sets that `drop_islands` answers follow what the definition leaves of the regions of the layer without their
/// islands.
pub fn islands_are_followed()
    ensures holds { IslandsAreFollowed }
{}
