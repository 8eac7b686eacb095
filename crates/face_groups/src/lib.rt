//! Faces grouped by keys.
//!
//! A table of keys tells which faces have a key, and which of two keys comes first. `sets_by_key` sorts the inner faces
//! that have one, and answers a set for each key, in the order of the keys. `pieces_by_key` answers the parts of these
//! sets. The list of the sets that have a face is such a key.
#![tactic(auto)]

mod grouping;
mod keys;
mod pieces;

pub use grouping::sets_by_key;
pub use keys::FaceKeys;
pub use pieces::{Piece, pieces_by_key};
