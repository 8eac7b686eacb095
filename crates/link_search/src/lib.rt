//! The search for the topmost link below a point.
//!
//! In: the links of arcs, by their lesser ends. Out: for a point the link that a ray straight down from it meets first.
//!
//! 1. `links` has a link with the signed arc along it and its box, and the greater ends in order.
//! 2. `arrivals` looks for a vertex among the greater ends. The lesser ends and the greater ones are both in order, so
//!    that one walk along both finds the places of all.
//! 3. `rows` looks at the links that leave one vertex: whether none arrives there, and which is the first of them
//!    counterclockwise from straight down.
//! 4. `under` says how a link stands to a point, and how two links stand to each other at an abscissa.
//! 5. `link_tree` parts many links by abscissas and along links.
//! 6. `search` goes down from a point bucket by bucket; where many links are in one, by its tree.
//!
//! Vertices are in the order of their x, then of their y; a link leaves its lesser end.
#![tactic(auto)]

mod arrivals;
mod link_tree;
mod links;
mod rows;
mod search;
mod under;

pub use links::ArcLink;
pub use rows::{first_round, lowest_of};
pub use search::{LinkSearch, upper};
