//! Snap rounding, after Hobby (1999): every vertex and every crossing of a drawing goes to the centre of its pixel.
//!
//! In: a `Drawing`. Out: the `Snapped` drawing with its links, or a `SnapFault`. Each path keeps its ends and stays
//! within half a unit of where it was. Two distinct links meet at common ends alone, and no vertex, points included,
//! lies inside a link.
//!
//! 1. `snapping` has `snap`: the hot points and edges, by `hot_pixels`, then the paths, then the links along the chains
//!    of the edges, each border once; points stay. The hot points are let go before the links are sorted. Where there
//!    is no path, `into_snapped` has the snapped drawing at once.
//! 2. `paths` and `joining` make the paths: each segment becomes the chain of the hot points whose pixels it meets,
//!    and the chains of a path are joined end to end.
//! 3. `vertex_count` counts the vertices of the paths, which have fewer links. Where these may be more than 8,000,000,
//!    `counting` counts them by the hot points alone. `links` has the links in order.
#![tactic(auto)]

mod counting;
mod fault;
mod joining;
mod links;
mod paths;
mod snapping;
mod vertex_count;

pub use fault::SnapFault;
pub use snapping::{into_snapped, snap};
