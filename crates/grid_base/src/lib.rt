//! The grid: points, segments, links, boxes, the numbers of arcs, faces and features, and lists of these.
//!
//! Grid numbers are whole and at most [`LIMIT`] in absolute value. Contracts see a `Pt` as a `GridPoint` of
//! `plane_model`, a `Seg` and a `Link` as a `Segment`, and a list as the list of its items.
//!
//! 1. `point`, `segment`, `link` and `rect`: two grid numbers make a point, two points a segment, a link or a box; or
//!    `None`, where they make none. `turn` says to which side three points turn, and `is_before` which of two comes
//!    first.
//! 2. `numbers`, `signed_arc` and `kinds`: numbers of arcs, faces and features, directions of arcs, kinds of layers;
//!    `next_number` is a count as the number of the next item.
//! 3. `list_types`: lists of points, paths, polygons, boxes, links and numbers.
//! 4. `drawing` takes features and boxes one by one; `snapped` is a drawing after snapping, with its links.
#![tactic(auto)]

mod drawing;
mod kinds;
mod link;
mod list_types;
mod numbers;
mod point;
mod rect;
mod segment;
mod signed_arc;
mod snapped;

pub use drawing::Drawing;
pub use grid_bounds::{LIMIT, MAX_PLACES};
pub use kinds::{Kind, OverlapRule};
pub use link::Link;
pub use list_types::{
    BoxList, GroupList, IdList, LinkList, Path, PathList, PolygonRings, PtList, RingsList,
    append_reversed, empty_lists,
};
pub use numbers::{ArcId, FaceId, FeatId, next_number};
pub use point::{
    Pt, determinant, greater, has_point, is_before, is_same, lesser, lower_left, step, turn,
    upper_right,
};
pub use rect::Rect;
pub use segment::Seg;
pub use signed_arc::SignedArc;
pub use snapped::Snapped;
