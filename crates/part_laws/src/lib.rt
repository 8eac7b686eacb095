//! Laws of parts and rings: the parts of a set of faces are the parts that the plane has of their region, and the
//! polygons that are traced for them hold just these parts.
//!
//! They are laws over what `ArcTable::build`, `Faces::build`, `at`, `parts` and `trace` answer.
//!
//! - Two faces of a set are in one part exactly where links within their region join them (`parts_are_classes`).
//! - The rings of a part are one exterior, which comes first, and holes (RFC 7946, section 3.1.6), and a point is in
//!   the part just where it is inside the exterior and in no hole (`traced_polygons_have_exteriors`).
//! - Traced polygons share no point (`polygons_are_apart`), and together they hold the set (`polygons_hold_the_set`).
//!
//! Each function carries one law in its contract, and does nothing. The laws are stated in `specs/Parts.antt`.
#![tactic(auto)]

ghost use Rattle.part_laws.specs.Parts.{
  PartsAreClasses,
  PartsHaveBoundaries,
  PolygonsAreApart,
  PolygonsAreJoinedPoints,
  PolygonsHaveExteriors,
  PolygonsHoldByParity,
  PolygonsHoldTheSet,
  PolygonsOfADrawing,
  RingsGoRound,
  TracedPolygonsFit,
  TracedPolygonsHaveExteriors,
  TracedPolygonsOfADrawing,
  TracedRingsGoRound,
  TracesHoldByParity,
  TracesUseTheBorder,
};

/// The parts of a set of faces, numbered as they stand, are the parts of the region of these faces: links within the
/// region join parts, and nothing else does.
pub fn parts_are_classes()
    ensures holds { PartsAreClasses }
{}

/// A closed run of signed arcs of which no two start at one vertex, and no two are of one arc, goes round a path that
/// passes each of its points once.
pub fn rings_go_round()
    ensures holds { RingsGoRound }
{}

/// The rings that are traced for a part are one exterior, which turns left at its least vertex, and holes, which turn
/// right, and a point is in the part just where it is inside the exterior and in no hole.
pub fn polygons_have_exteriors()
    ensures holds { PolygonsHaveExteriors }
{}

/// So each polygon that `trace` answers has its exterior first and then its holes, in the order of the arcs that they
/// begin with, and holds the part that it stands for.
pub fn traced_polygons_have_exteriors()
    ensures holds { TracedPolygonsHaveExteriors }
{}

/// So it is in a table of the whole arcs of a snapped drawing: a grid point is within a polygon, inside its exterior
/// and in no hole, exactly if its face is in the part.
pub fn traced_polygons_of_a_drawing()
    ensures holds { TracedPolygonsOfADrawing }
{}

/// Each part of a set without the outer face has an arc in its boundary, so that `trace` answers one polygon for each
/// part, in their order.
pub fn parts_have_boundaries()
    ensures holds { PartsHaveBoundaries }
{}

/// No point is within two polygons that `trace` answers for one set.
pub fn polygons_are_apart()
    ensures holds { PolygonsAreApart }
{}

/// A point is within some polygon that `trace` answers for a set exactly if its face is in the set.
pub fn polygons_hold_the_set()
    ensures holds { PolygonsHoldTheSet }
{}

/// Two points of the region of a set are within one polygon of its trace exactly if they are joined in the region: no
/// closed runs of its boundary separate them.
pub fn polygons_are_joined_points()
    ensures holds { PolygonsAreJoinedPoints }
{}

/// A point is within a polygon of a trace, inside its exterior and in no hole, exactly if an odd number of the links of
/// all its rings is below the point: both readings of a polygon agree.
pub fn polygons_hold_by_parity()
    ensures holds { PolygonsHoldByParity }
{}

/// The rings of each polygon of a trace fit the part that it stands for: they use its border once, each passes its
/// vertices once and begins with its arc of least number, the exterior stands first and turns left, and the holes turn
/// right and stand in the order of their least arcs.
pub fn traced_polygons_fit()
    ensures holds { TracedPolygonsFit }
{}

/// A point is within some polygon of a trace exactly if an odd number of the links of all rings of all polygons is
/// below it.
pub fn traces_hold_by_parity()
    ensures holds { TracesHoldByParity }
{}

/// Each ring that `trace` answers passes each of its points once.
pub fn traced_rings_go_round()
    ensures holds { TracedRingsGoRound }
{}

/// All rings of a trace together use each link once that has the set on one side alone, with the set on their left, and
/// no other link.
pub fn traces_use_the_border()
    ensures holds { TracesUseTheBorder }
{}

/// The faces of a table of the whole arcs of a snapped drawing are such faces, so that these laws are true of them; and
/// a grid point is within some polygon of a trace exactly if the face that `at` answers for it is in the set.
pub fn polygons_of_a_drawing()
    ensures holds { PolygonsOfADrawing }
{}
