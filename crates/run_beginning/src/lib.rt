//! What a run has when its commands begin: the plane of the one drawing of all its sources and boxes, and their
//! layers over it.
//!
//! In: the layers that were read of each source, and the boxes. Out: the plane, the layers of the import and those of
//! each source that belongs to a command (`Begun`); or a `SnapFault`.
//!
//! 1. `drawing` moves the features of all sources, and the boxes, into one drawing, and keeps what is left of the
//!    sources.
//! 2. `beginning` has it laid out, and makes a layer over the plane of each layer that was read.
#![tactic(auto)]

mod beginning;
mod drawing;

pub use beginning::{Begun, begin};
