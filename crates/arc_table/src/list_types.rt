use grid_base::{ArcId, SignedArc};
use lists::ItemList;

/// A list of arcs, of at most 4,294,967,295; counted from 0, as every list here.
pub type ArcList = ItemList<ArcId>;

/// A path of whole arcs, each in its direction or reversed.
pub type SignedPath = ItemList<SignedArc>;

/// A list of such paths; of a polygon, its rings.
pub type SignedPaths = ItemList<SignedPath>;

/// A list of polygons, each with its exterior first.
pub type Polys = ItemList<SignedPaths>;
