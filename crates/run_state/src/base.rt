use run_plane::{Layer, Plane};

/// What the commands of a run stand on; it is lent to each of them.
#[derive(Clone, Copy)]
pub struct Base<'a> {
    /// The decimal places of the grid.
    pub places: u8,
    /// The plane of all sources and boxes.
    pub plane: &'a Plane,
    /// The layers of each source, which are counted from 1: those of source `n` stand at `n - 1`, and there are none
    /// where the source is read for the import.
    pub sources: &'a [Vec<Layer>],
}
