//! Laws of regions: the sets of faces that commands on polygons answer follow the regions that the commands stand for.
//! A set follows a region where a rational point on no link is in the region exactly if its face is in the set.
//!
//! They are laws over what `Labels::of`, `parts`, `trace` and the calls of `region_ops` answer.
//!
//! - The faces that a feature or a box holds follow it (`features_are_followed`, `boxes_are_followed`), and only one
//!   set of inner faces follows a region (`one_set_follows`).
//! - So it is after each command: `clipped_sets_are_followed`, `erased_sets_are_followed`,
//!   `dissolved_sets_are_followed`, `cleaned_by_regions`, `mosaics_are_followed`, `exploded_sets_are_followed`. The
//!   gaps of sets follow those between their regions (`gaps_are_followed`), and what clean makes with them its
//!   definition (`filled_as_told`).
//! - What is traced for a set prints its region: the rings use each step of the region's boundary once, and hold just
//!   its points (`traces_use_boundaries`, `traces_print_regions`), part by part (`polygons_print_parts`).
//! - What commands ask of regions is answered from the sets: which sides of links belong to a region, whether it is
//!   empty, its area and its parts (`sides_are_told`, `emptiness_is_told`, `areas_are_told`, `parts_are_told`).
//! - Each region has a set of inner faces that follows it (`regions_have_sets`), so right answers on sides, parts and
//!   gaps exist (`answers_exist`).
//!
//! Each function carries one law in its contract, and does nothing. Regions are those of `region_model`;
//! `specs/Regions.antt` says when a set follows one (`Follows`). The laws are stated in `specs/Followed.antt`,
//! `specs/Gaps.antt`, `specs/Printed.antt`, `specs/Ties.antt` and `specs/Answered.antt`.
#![tactic(auto)]

ghost use Rattle.region_laws.specs.Answered.{AnswersExist, AreasAreTold, CleanedAsTold, EmptinessIsTold, ExplodedAsTold, LayersAreFollowed, MosaicAsTold, PartsAreTold, PartsExist, RegionsHaveSets, SidesAreTold, TracesFit};
ghost use Rattle.region_laws.specs.Followed.{
  AreasAreThoseOfRegions,
  BoxesAreFollowed,
  CleanedSetsAreFollowed,
  ClippedSetsAreFollowed,
  DissolvedSetsAreFollowed,
  ErasedSetsAreFollowed,
  ExactlyHasPoints,
  ExplodedSetsAreFollowed,
  FeaturesAreFollowed,
  MeetsAreFollowed,
  MosaicsAreFollowed,
  PartsAreFollowed,
  RemaindersAreFollowed,
  UnionsAreFollowed,
};
ghost use Rattle.region_laws.specs.Gaps.{FilledAsTold, GapsAreFollowed};
ghost use Rattle.region_laws.specs.Printed.{PolygonsPrintParts, PolygonsUseBoundaries, TracesPrintRegions, TracesUseBoundaries};
ghost use Rattle.region_laws.specs.Ties.{CleanedByRegions, EmptySetsAreEmptyRegions, OneSetFollows, SetsAreOfSides};

/// The faces that a polygon feature holds follow the feature.
pub fn features_are_followed()
    ensures holds { FeaturesAreFollowed }
{}

/// The faces that a box holds follow the box.
pub fn boxes_are_followed()
    ensures holds { BoxesAreFollowed }
{}

/// The union of two sets follows any of their regions.
pub fn unions_are_followed()
    ensures holds { UnionsAreFollowed }
{}

/// The faces of two sets follow both of their regions.
pub fn meets_are_followed()
    ensures holds { MeetsAreFollowed }
{}

/// The faces of a set that are not in another follow its region less that of the other.
pub fn remainders_are_followed()
    ensures holds { RemaindersAreFollowed }
{}

/// The sets that `clip_sets` answers follow their regions within that of the source.
pub fn clipped_sets_are_followed()
    ensures holds { ClippedSetsAreFollowed }
{}

/// The sets that `erase_sets` answers follow their regions less that of the source.
pub fn erased_sets_are_followed()
    ensures holds { ErasedSetsAreFollowed }
{}

/// The sets that `dissolve_sets` answers follow any of the regions of the members of their groups.
pub fn dissolved_sets_are_followed()
    ensures holds { DissolvedSetsAreFollowed }
{}

/// The sets that `separate_sets` answers follow their regions less any of those that rank before them.
pub fn cleaned_sets_are_followed()
    ensures holds { CleanedSetsAreFollowed }
{}

/// The sets that `parts` answers for a set follow the parts of its region, in their order: two points of the region are
/// in one part where no closed runs of its boundary separate them, and parts are numbered by the least arcs in their
/// boundaries.
pub fn parts_are_followed()
    ensures holds { PartsAreFollowed }
{}

/// The sets that `gaps` answers for the union of some sets follow the gaps between their regions, in their order: two
/// points that no region has are in one gap where no closed runs of the boundary of all regions separate them, none of
/// its points is left of all links, and gaps are numbered by the least arcs in their boundaries.
pub fn gaps_are_followed()
    ensures holds { GapsAreFollowed }
{}

/// The sets that `clean_sets` answers follow what clean makes of the regions: what is left of each when overlaps are
/// given away, with the filled gaps that go to it.
pub fn filled_as_told()
    ensures holds { FilledAsTold }
{}

/// The items that `explode_sets` answers follow the parts of the regions, region by region; an empty region stays one
/// item.
pub fn exploded_sets_are_followed()
    ensures holds { ExplodedSetsAreFollowed }
{}

/// What just some of the regions have, as meets, unions and what is left of them, has a point exactly if these regions
/// have it and no others.
pub fn exactly_has_points()
    ensures holds { ExactlyHasPoints }
{}

/// The items that `mosaic_sets` answers are, for each list of numbers of which just the regions have some point, in
/// lexicographic order, those of the parts of what these regions have.
pub fn mosaics_are_followed()
    ensures holds { MosaicsAreFollowed }
{}

/// Twice the area of a set of faces, as each face gives its own, is the sum of `x1 * y2 - y1 * x2` over the steps of
/// the boundary of its region, with the region on the left.
pub fn areas_are_those_of_regions()
    ensures holds { AreasAreThoseOfRegions }
{}

/// All rings that `trace` answers for a set together hold a point on no link exactly if the region of the set has it.
pub fn traces_print_regions()
    ensures holds { TracesPrintRegions }
{}

/// Of the polygons that `trace` answers there is one for each part of the region, in order, and its rings hold the
/// points of this part.
pub fn polygons_print_parts()
    ensures holds { PolygonsPrintParts }
{}

/// The rings that `trace` answers use each step of the boundary of the region once, with the region on its left, and no
/// other.
pub fn traces_use_boundaries()
    ensures holds { TracesUseBoundaries }
{}

/// The faces of a set are just those on the sides of links that belong to its region.
pub fn sets_are_of_sides()
    ensures holds { SetsAreOfSides }
{}

/// A set has no faces exactly if its region has no points, and exactly if the boundary of its region is empty.
pub fn empty_sets_are_empty_regions()
    ensures holds { EmptySetsAreEmptyRegions }
{}

/// The sets that `separate_sets` answers follow their regions less any of those that rank before them, where the areas
/// that rank them are those within the boundaries of the regions.
pub fn cleaned_by_regions()
    ensures holds { CleanedByRegions }
{}

/// The rings of one polygon use each step of the boundary of its part once, with the part on its left, and no other.
pub fn polygons_use_boundaries()
    ensures holds { PolygonsUseBoundaries }
{}

/// Only one ascending set of inner faces follows a region.
pub fn one_set_follows()
    ensures holds { OneSetFollows }
{}

/// The faces of any set of a layer follow any of the regions of its features: so they are the source of a clip.
pub fn layers_are_followed()
    ensures holds { LayersAreFollowed }
{}

/// Which sides of links belong to the region of a set can be told.
pub fn sides_are_told()
    ensures holds { SidesAreTold }
{}

/// Each set of faces has parts.
pub fn parts_exist()
    ensures holds { PartsExist }
{}

/// Each region of a drawing, whatever it is made of, has a set of inner faces that follows it.
pub fn regions_have_sets()
    ensures holds { RegionsHaveSets }
{}

/// So right answers on the sides, the parts and the gaps of all regions exist.
pub fn answers_exist()
    ensures holds { AnswersExist }
{}

/// A set has no faces exactly if its region is empty, as commands ask: its boundary has no links.
pub fn emptiness_is_told()
    ensures holds { EmptinessIsTold }
{}

/// Twice the area of a set of faces is that of its region, as commands ask for it.
pub fn areas_are_told()
    ensures holds { AreasAreTold }
{}

/// The sets that `separate_sets` answers follow what the definition of clean leaves of their regions when overlaps are
/// given away.
pub fn cleaned_as_told()
    ensures holds { CleanedAsTold }
{}

/// A number is below the count of the parts of a set exactly if the part of the region with this number has a point.
pub fn parts_are_told()
    ensures holds { PartsAreTold }
{}

/// The pieces of a set, its parts or itself where it has no faces, are in order those that explode makes of its region.
pub fn exploded_as_told()
    ensures holds { ExplodedAsTold }
{}

/// The items that `mosaic_sets` answers are in order, with their lists of numbers, those that the definition of a
/// mosaic makes of the regions.
pub fn mosaic_as_told()
    ensures holds { MosaicAsTold }
{}

/// What `trace` answers for the set of a region fits the region part by part, as printed polygons have to.
pub fn traces_fit()
    ensures holds { TracesFit }
{}
