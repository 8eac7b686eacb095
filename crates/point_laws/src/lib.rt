//! Laws of points: a vertex is inside a set of faces, as `point_inside` answers, exactly if some rational point of
//! these faces sees it.
//!
//! They are laws over what `snap`, `ArcTable::build`, `Faces::build` and `point_inside` answer.
//!
//! - A point on no link is inside a set exactly if its own face is in the set (`free_points_are_inside`).
//! - What sees a vertex has the face of a sector there (`seen_from_sectors`), and each sector has a point that sees the
//!   vertex (`sectors_are_seen`): so it is with nodes (`nodes_are_inside`), and with vertices inside an arc
//!   (`inner_vertices_are_inside`).
//! - These are all vertices of a snapped drawing (`vertices_of_a_drawing`).
//!
//! Each function carries one law in its contract, and does nothing. The laws are stated in `specs/Sight.antt`.
#![tactic(auto)]

ghost use Rattle.point_laws.specs.Sight.{FreePointsAreInside, FreePointsAreSeen, FreePointsOfADrawing, InnerVerticesAreInside, NodesAreInside, NodesAreSeen, NodesOfADrawing, SectorsAreSeen, SeenFromOneFace, SeenFromSectors, SeenNodesAreInside, VerticesOfADrawing};

/// What sees a point that lies on no link is of one face with it.
pub fn seen_from_one_face()
    ensures holds { SeenFromOneFace }
{}

/// Some point off the links sees each point that lies on no link.
pub fn free_points_are_seen()
    ensures holds { FreePointsAreSeen }
{}

/// A point on no link is inside a set of faces exactly if its own face is in the set.
pub fn free_points_are_inside()
    ensures holds { FreePointsAreInside }
{}

/// So it is in a table of the whole arcs of a snapped drawing, for a vertex that no arc has.
pub fn free_points_of_a_drawing()
    ensures holds { FreePointsOfADrawing }
{}

/// What sees a vertex has the label of a sector there, on the left of a link directed away from it.
pub fn seen_from_sectors()
    ensures holds { SeenFromSectors }
{}

/// Each sector at a vertex has a point, off the links, that sees the vertex and has the label of the sector.
pub fn sectors_are_seen()
    ensures holds { SectorsAreSeen }
{}

/// So a node that some point of a set sees is inside the set, as it is answered for it.
pub fn seen_nodes_are_inside()
    ensures holds { SeenNodesAreInside }
{}

/// And some point of the set sees each node that is inside it.
pub fn nodes_are_seen()
    ensures holds { NodesAreSeen }
{}

/// So a node is inside a set, as it is answered for it, exactly if some point of the set sees it.
pub fn nodes_are_inside()
    ensures holds { NodesAreInside }
{}

/// So it is in a table of the whole arcs of a snapped drawing.
pub fn nodes_of_a_drawing()
    ensures holds { NodesOfADrawing }
{}

/// And a vertex inside an arc is inside a set, as it is answered for it, exactly if some point of the set sees it.
pub fn inner_vertices_are_inside()
    ensures holds { InnerVerticesAreInside }
{}

/// So it is with each vertex of a snapped drawing, over a table of its whole arcs.
pub fn vertices_of_a_drawing()
    ensures holds { VerticesOfADrawing }
{}
