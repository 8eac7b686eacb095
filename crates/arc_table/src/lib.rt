//! Arcs: the links of a snapped drawing, joined into runs between nodes.
//!
//! 1. A vertex is a node where its links are not two, or a line path starts or ends there, or a path turns back there.
//! 2. Each link is stepped along in two ways. The steps stand in a flat table, ordered by their start and then by
//!    their end, with the step that follows each of them on its arc. Each is kept as the number of its link and a
//!    direction. The table is merged of the steps up, which are in order as the links are, and the steps down, in the
//!    order of the greater ends of links. After the arcs have their numbers and points the links may go.
//! 3. Paths are gone along in order, and an arc gets its number at the first step along it.
//! 4. The points of the arcs stand in one pool, whose room is taken before the first of them is pushed.
//! 5. Signed arcs stand by their starts, those from one vertex in a row; each such vertex is kept once, with the place
//!    where its row begins. They are put in order by their starts alone, and then each row is turned by itself.
//!
//! A signed arc is numbered as in TopoJSON 1.0, section 2.1.4: arc `n` forward by `n`, reversed by `-n - 1`.
#![tactic(auto)]

mod arc_net;
mod arc_order;
mod direction;
mod first_steps;
mod half_links;
mod list_types;
mod merging;
mod node_rows;
mod nodes;
mod numbered_arcs;
mod numbering;
mod rows;
mod signed_paths;
mod step_list;
mod table;
mod vertices;

pub use arc_net::ArcNet;
pub use list_types::{ArcList, Polys, SignedPath, SignedPaths};
pub use numbered_arcs::NumberedArcs;
pub use table::ArcTable;
