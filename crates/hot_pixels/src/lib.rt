//! Hot pixels, after Hobby (1999): the pixels that hold a vertex of a drawing or a crossing of its segments.
//!
//! A pixel is named by its centre, a grid point. It has its left and its lower side, and not the others:
//!
//! ```text
//!     o-------o      open: top and right
//!     |   .   |      closed: left and bottom
//!     *-------o      *: the one corner inside
//! ```
//!
//! - `crossing_pixel` rounds the meeting point of two segments, and `meets` tests a segment against a pixel, in whole
//!   numbers.
//! - `HotSet::of` lists the hot points of a drawing: its vertices, and the crossings of segments that are near each
//!   other, found by buckets; where many are near, lines part them. A border that two areas share is tried once: a
//!   segment and the one that runs back along it have one edge.
//! - `chain_of` lists the hot points whose pixels a segment meets, in the order in which the segment passes them, and
//!   `chain_links` counts the links between them without memory. Both pass over runs of hot points that lie beside the
//!   segment's box, and, where a search has tried many, over those that lie aside of its line.
//! - `HotEdges::of` makes the hot points with the edges of the drawing, for the chains of its own segments. Each hot
//!   point is tried against the segments of its bucket, and the meetings of an edge with points besides its ends are
//!   gathered: none for most in a drawing of areas. They are the chain, mostly in its order. Segments in a crowd
//!   are not tried; for these the inner points are searched alone: those that one of them may meet and doesn't end at.
//! - `go_along` appends the chain of a segment of the drawing, after its first point, to a path that ends there, and
//!   `links` lists the links along the chains of all edges: those of the drawing's snapped paths.
#![tactic(auto)]

mod aside;
mod beside;
mod chains;
mod crossing;
mod edges;
mod half_open;
mod hot_edges;
mod hot_set;
mod marking;
mod meetings;
mod near;
mod pairs;
mod parting;
mod path_links;
mod spots;

pub use crossing::crossing_pixel;
pub use half_open::meets;
pub use hot_edges::HotEdges;
pub use hot_set::HotSet;
pub use spots::spots_of;
