//! Boxes in buckets: which of many boxes lie near a point.
//!
//! The grid is divided into columns, each column into cells, and a cell that still meets many boxes is cut at medians
//! of the boxes, until a rectangle meets few boxes or a cut no longer parts them (a k-d tree, after Bentley 1975). Each
//! rectangle has a bucket, which lists the boxes that share a grid point with it. These lists all stand in one.
//! - `Buckets::build` takes boxes, and `Buckets::build_over` any items that have one: it asks for their boxes as it
//!   needs them, and makes no list of these. They are known by their numbers in the list that is given.
//! - `bucket_of` finds the bucket of a point, by a few divisions and at most 40 cuts; `area_of` and `each_near` say
//!   what it has.
#![tactic(auto)]

mod boxed;
mod buckets;
mod cutting;
mod dividing;
mod growing;
mod laws;
mod number_lists;
mod sharing;
mod slab_lists;
mod tree;

pub use boxed::Boxed;
pub use buckets::Buckets;
pub use laws::sharing_is_computed;
