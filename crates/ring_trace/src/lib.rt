//! The rings round sets of faces.
//!
//! Faces of a set that share an arc belong to one part of it (`face_sets`). `trace` answers for each part the polygon
//! that is printed for it: its exterior counterclockwise, then its holes clockwise.
//!
//! A ring goes along whole arcs with the set on its left, and passes each of its vertices once (RFC 7946, section
//! 3.1.6, for exteriors and holes). It begins with its arc of least number.
#![tactic(auto)]

mod pairing;
mod ring_keys;
mod simple_rings;
mod tracing;
mod turns;

pub use tracing::trace;
