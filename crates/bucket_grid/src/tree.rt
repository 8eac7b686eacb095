ghost use Rattle.std.specs.Prelude.{◌≡◌, ◌≤◌, ◌+◌, ◌-◌};
ghost use Rattle.bucket_grid.specs.Slabs.{along, slab_at};

use grid_base::Pt;

/// Along which axis a rectangle is divided.
#[derive(Clone, Copy)]
pub enum Axis {
    Across,
    Upward,
}

/// A division of a rectangle along one axis into slabs of one width, counted from 0.
///
/// The first slab also takes in what lies before it, and the last one what lies past it. Two slabs are a cut.
#[derive(Clone, Copy)]
pub struct Slabs {
    pub axis: Axis,
    /// The number where slab 0 begins.
    pub first: i64,
    /// How far the last number of a slab lies past its first.
    pub reach: u32,
    /// The number of the last slab.
    pub last: u32,
}

/// A node of the tree: the place of a rectangle, or a division, and the number of the node for its last slab;
/// those for the slabs before it follow, the first slab's at the end.
#[derive(Clone, Copy)]
pub enum Node {
    Leaf(u32),
    Split { slabs: Slabs, children: u32 },
}

/// The number of a point along an axis.
pub fn coordinate(p: Pt, axis: Axis) -> i64
    ensures exact { result ≡ along axis p }
{
    match axis {
        Axis::Across => p.x(),
        Axis::Upward => p.y(),
    }
}

/// The slab in which the points with this number along the axis lie.
pub fn slab_of(slabs: &Slabs, number: i64) -> u32
    ensures exact { result ≡ slab_at slabs.now number }
    ensures within { result ≤ slabs.now.last }
{
    if number < slabs.first {
        return 0;
    }
    let slab = number.abs_diff(slabs.first) / (u64::from(slabs.reach) + 1);
    slab.min(u64::from(slabs.last)) as u32
}

/// The number of the node for the slab in which the points with this number along the axis lie.
pub fn child_of(slabs: &Slabs, children: u32, number: i64) -> usize
    ensures exact { result ≡ children + (slabs.now.last - slab_at slabs.now number) }
{
    let slab = slab_of(slabs, number);
    children as usize + (slabs.last - slab) as usize
}
