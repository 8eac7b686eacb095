//! Faces: the pieces of the plane between the arcs of a table, and which features and boxes hold each of them.
//!
//! 1. A place is the outside, or the left of a signed arc. Places are numbered, the outside first.
//! 2. Round each vertex where arcs end, the left of an arc is joined with the right of the next arc counterclockwise.
//! 3. From each vertex that all its links leave a ray goes straight down. The place right of the first of these links
//!    is joined with the left of the topmost link below, or where there is none with the outside; `link_search` looks
//!    for that link.
//! 4. The places that are joined are a face. Faces are numbered in the order of their least places, so that the outer
//!    face is the first.
//! 5. The steps of polygons and boxes along the arcs are listed, after which nothing reads their paths any more.
//! 6. Holders go from the outer face from face to face: across an arc, a polygon holds the other face or no longer
//!    holds it where its rings go along the arc an odd number of times.
//! 7. A point on no link lies in the face left of the topmost link below it. The same search looks for that link, or
//!    once it is let go a walk along all arcs.
//!
//! Vertices are in the order of their x, then of their y; a link leaves its lesser end.
#![tactic(auto)]

mod areas;
mod crossings;
mod face_lists;
mod faces;
mod joining;
mod labels;
mod links;
mod numbering;
mod places;
mod rays;
mod ring_steps;
mod sectors;
mod side_places;
mod topmost;

pub use areas::added;
pub use faces::Faces;
pub use joining::Joining;
pub use labels::Labels;
pub use ring_steps::PathSteps;
