//! Laws of printed polygons: what a reader may take from polygons that fit a region of the plane of a drawing.
//!
//! The headline of a run says of a printed feature that its polygons fit the feature's region: together they use its
//! boundary once, and one by one the boundaries of its parts. A point is held, by counting, where an odd number of the
//! steps of all rings is below it.
//!
//! - A point on no link is held by all rings together exactly if the region has it (`regions_are_printed`).
//! - It is held by those of polygon j exactly if it is in part j of the region (`parts_are_printed`).
//! - No such point is held by two polygons (`none_is_held_twice`). Each such point of the region is held by one, which
//!   holds all of them that are joined with it in the region as well (`joined_points_are_held_by_one`).
//! - There counting all rings of a polygon agrees with its exterior and holes, as RFC 7946 reads them
//!   (`readings_agree`). So no such point lies in two polygons by that reading either (`polygons_are_apart`), and one
//!   lies in some polygon exactly if the region has it (`regions_are_read`).
//! - Two such points of the region lie in one polygon exactly if no closed runs of the region's boundary separate them
//!   (`polygons_are_parts`).
//!
//! Each function carries one law in its contract, and does nothing. The laws are stated in `specs/Printed.antt` of
//! `region_model`, and in `specs/Counted.antt`. They speak of drawings, right answers and regions alone: no table of
//! arcs or faces is in them.
#![tactic(auto)]

ghost use Rattle.region_model.specs.Printed.{PolygonsAreApart, PolygonsAreParts, ReadingsAgree, RegionsArePrinted};
ghost use Rattle.printed_laws.specs.Counted.{
  JoinedPointsAreHeldByOne,
  NoneIsHeldTwice,
  PartsArePrinted,
  RegionsAreRead,
};

/// All rings of polygons that fit a region hold a point on no link exactly if the region has it.
pub fn regions_are_printed()
    ensures holds { RegionsArePrinted }
{}

/// The rings of each polygon hold such a point exactly if it is in the part that the polygon fits.
pub fn parts_are_printed()
    ensures holds { PartsArePrinted }
{}

/// No point off the links is held by the rings of two polygons.
pub fn none_is_held_twice()
    ensures holds { NoneIsHeldTwice }
{}

/// Each point of the region that is on no link is held by one polygon, and by the same each such point that no closed
/// runs of the region's boundary separate from it.
pub fn joined_points_are_held_by_one()
    ensures holds { JoinedPointsAreHeldByOne }
{}

/// A point on no link is held by all rings of a polygon together exactly if it is inside the exterior and inside no
/// hole.
pub fn readings_agree()
    ensures holds { ReadingsAgree }
{}

/// No point off the links lies in two polygons: inside the exteriors and in no holes of both.
pub fn polygons_are_apart()
    ensures holds { PolygonsAreApart }
{}

/// A point on no link lies in some polygon exactly if the region has it.
pub fn regions_are_read()
    ensures holds { RegionsAreRead }
{}

/// Two points of the region, on no link, lie in one polygon exactly if they are joined in it.
pub fn polygons_are_parts()
    ensures holds { PolygonsAreParts }
{}
