//! The sources of a run: the bytes of files and of standard input become layers on a grid, within the limits of a run.
//!
//! In: the words of the sources, the files and the stream. Out: the layers of each source, in order, or why the first
//! source that isn't accepted ends the run.
//!
//! 1. `sources` reads the bytes of one source after another, within what the ones before it left of the limits.
//! 2. `formats` tells comma-separated text from JSON, and names the layers of a source.
//! 3. `decoding` makes layers of the bytes: GeoJSON, TopoJSON, or the one layer of a table.
#![tactic(auto)]

mod decoding;
mod fault;
mod formats;
mod sources;

pub use fault::{InputWhy, SourceFault};
pub use sources::{ReadSource, read_sources};
