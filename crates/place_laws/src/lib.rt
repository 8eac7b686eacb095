//! Laws of joins by place: what `match_points` and `match_sets` answer is what rational points show of the regions of
//! the sets.
//!
//! - A set is matched with a list of points exactly if some point of its region sees one of them
//!   (`matches_are_inside`).
//! - So the matches are, list by list and set by set, those that the model of regions makes of regions and points
//!   (`points_are_matched`, `sets_are_matched`).
//!
//! Each function carries one law in its contract, and does nothing. The laws are stated in `specs/Matched.antt`.
#![tactic(auto)]

ghost use Rattle.place_laws.specs.Matched.{MatchesAreInside, PointsAreMatched, SetsAreMatched};

/// A set is matched with a list of vertices exactly if some of them are inside its region: some point of the region
/// sees them.
pub fn matches_are_inside()
    ensures holds { MatchesAreInside }
{}

/// The sets that `match_points` answers for a list of vertices are those of the regions that some of them are inside
/// of.
pub fn points_are_matched()
    ensures holds { PointsAreMatched }
{}

/// The lists of vertices that `match_sets` answers for a set are those of which some are inside its region.
pub fn sets_are_matched()
    ensures holds { SetsAreMatched }
{}
