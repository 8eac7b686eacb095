//! The commands on polygon layers, on the sets of faces that stand for their features.
//!
//! - clip keeps of each set the faces of a cut set, erase those that aren't of it.
//! - dissolve makes one set of the members of each group: all their faces.
//! - clean leaves each face that several sets have with the one that a rule ranks first, and then fills small gaps.
//! - mosaic puts together the faces that the same sets have, and makes a set of each part of them.
//! - explode makes a set of each part of a set.
//!
//! clean and mosaic look at each set once, and then go from face to face. No command compares all pairs of sets.
#![tactic(auto)]

mod cleaned_sets;
mod cut_sets;
mod dissolved_sets;
mod exploded_sets;
mod filled_sets;
mod item_lists;
mod shared_faces;

pub use cleaned_sets::{clean_sets, separate_sets};
pub use cut_sets::{clip_sets, erase_sets};
pub use dissolved_sets::dissolve_sets;
pub use exploded_sets::explode_sets;
pub use item_lists::{MosaicItem, MosaicList, PartItem, PartList};
pub use shared_faces::mosaic_sets;
