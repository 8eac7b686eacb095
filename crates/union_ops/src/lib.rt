//! The union of layers of sets of faces, and the table of its features.
//!
//! Each face has a choice: for each layer the first set that has the face, or none. `union_sets` puts together the
//! faces of one choice, where some set has them, and makes an item of each part of them. `union_tables` sets the
//! columns of all layers side by side: a row has the values of the chosen rows, and null where none is chosen.
//!
//! Each layer is looked at once, and then the faces are sorted by their choices. No sets are compared in pairs, nor
//! names of columns.
#![tactic(auto)]

mod column_names;
mod face_choices;
mod union_lists;
mod united_faces;
mod united_tables;

pub use union_lists::{ChoiceList, LayerSets, UnionItem, UnionList};
pub use united_faces::union_sets;
pub use united_tables::union_tables;
