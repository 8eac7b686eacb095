//! Sets of faces, their parts and their gaps.
//!
//! - A `FaceSet` is an ascending list of faces; `union`, `meet` and `minus` are those of sets. A `SetList` is a list of
//!   them, and `FaceOwners` tells for each face of a table which sets of a list have it.
//! - Faces of a set that share an arc belong to one part of it: `parts` answers the parts. `Parts` says the same to
//!   those who go along boundaries, and answers the boundary with them.
//! - What lies outside a set and isn't joined outside it to the outer face is a gap of it. `gaps` answers the gaps.
#![tactic(auto)]

mod face_owners;
mod face_set;
mod gap_sets;
mod joined_faces;
mod part_sets;
mod set_list;

pub use face_owners::{FaceOwners, put_number};
pub use face_set::FaceSet;
pub use gap_sets::gaps;
pub use joined_faces::{Parts, Side};
pub use part_sets::parts;
pub use set_list::{SetList, union_of};
