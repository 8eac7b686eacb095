//! Joins by place: which points lie inside which sets of faces, and the rows that go with them.
//!
//! `match_points` and `match_sets` tell for each list of points the sets that some of them are inside of, and the other
//! way round. `join_matched` then puts fields of the first match, and counts and sums of all matches, to the rows of a
//! table.
//!
//! A point is inside each set that has a face beside it, so one on a boundary is inside the sets on both sides. The
//! faces beside a point are those round the node at which it lies, the two sides of the arc whose vertex it is, or the
//! face in which it lies. The sets of each face are listed once, so no point is compared with all sets.
#![tactic(auto)]

mod beside;
mod calc_columns;
mod calculations;
mod joined;
mod matches;

pub use joined::join_matched;
pub use matches::{match_points, match_sets};
