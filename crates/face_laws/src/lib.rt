//! Laws of faces: the faces of a table of arcs are those of the plane, and what the table lists for a face are the
//! features and boxes that hold it.
//!
//! They are laws over what `ArcTable::build`, `Faces::build`, `at` and `Labels::of` answer.
//!
//! - Two places have one face exactly where no test that takes one value where places meet tells them apart
//!   (`faces_are_classes`). So two points have one face exactly where no closed runs of links separate them
//!   (`points_have_one_face`, `faces_of_a_drawing`), and the plane has as many faces as the table (`count_is_exact`).
//! - The holders of the face over a point are just the features that hold the point (`features_of_a_drawing`), those of
//!   the face beside an arc just the features that hold that side of its links (`features_beside_arcs`).
//!
//! Each function carries one law in its contract, and does nothing. The laws are stated in `specs/Faces.antt` and
//! `specs/Holders.antt`.
#![tactic(auto)]

ghost use Rattle.face_laws.specs.Faces.{CountIsExact, EachTableHasLabels, FacesAreClasses, FacesHaveArcs, FacesOfADrawing, PointsHaveOneFace, PointsOfADrawing};
ghost use Rattle.face_laws.specs.Holders.{FeaturesBesideArcs, FeaturesOfADrawing, ItemsBesideArcs, ItemsHoldByParity, ItemsOfADrawing};

/// The places of the plane can be labelled by the faces of a table of arcs that go along each link of an arrangement
/// once.
pub fn each_table_has_labels()
    ensures holds { EachTableHasLabels }
{}

/// Labels by the faces that are built of the arcs of an arrangement are those of the faces of the plane, where no
/// vertex inside an arc has more links than two.
pub fn faces_are_classes()
    ensures holds { FacesAreClasses }
{}

/// Two points of the grid have one face in a table exactly if they are of one face of the plane: no closed runs of
/// links separate them.
pub fn points_have_one_face()
    ensures holds { PointsHaveOneFace }
{}

/// So it is in a table of the whole arcs of a snapped drawing.
pub fn points_of_a_drawing()
    ensures holds { PointsOfADrawing }
{}

/// So it is with all points that show a face there: that see a link of a signed arc from its left, whose face is left
/// of the arc, that are points of the grid, or that are left of all links, whose face is the outer one.
pub fn faces_of_a_drawing()
    ensures holds { FacesOfADrawing }
{}

/// Each face but the outer one is left of some signed arc.
pub fn faces_have_arcs()
    ensures holds { FacesHaveArcs }
{}

/// And the count of faces is the number of faces of the plane, in a table of the whole arcs of a snapped drawing.
pub fn count_is_exact()
    ensures holds { CountIsExact }
{}

/// An item is in the list of the face over a point exactly if an odd number of its links pass below the point, for
/// lists that follow from the outer face along crossings.
pub fn items_hold_by_parity()
    ensures holds { ItemsHoldByParity }
{}

/// It is in the list of the face beside an arc exactly if its links are odd on that side of each link of the arc.
pub fn items_beside_arcs()
    ensures holds { ItemsBesideArcs }
{}

/// So in a table of the arcs of a snapped drawing the lists of the face over a point have just the polygons and the
/// boxes that hold the point.
pub fn items_of_a_drawing()
    ensures holds { ItemsOfADrawing }
{}

/// And the holders of the face over a point are just the features of which a polygon holds the point.
pub fn features_of_a_drawing()
    ensures holds { FeaturesOfADrawing }
{}

/// Beside each link of a signed arc, the holders and boxes of the face on its left are just the features and boxes that
/// hold the left side of the link.
pub fn features_beside_arcs()
    ensures holds { FeaturesBesideArcs }
{}
