//! Snap rounding, after Hobby (1999): what holds of the definitions in plane_model, for every drawing.
//!
//! - Computed tests say what the definitions say: `meets`, `crossing_pixel`, `hot_points`, `chain_of`.
//! - How a program may find hot points and chains: by boxes, and by one key for each point.
//! - The theorem: the links of a snapped drawing are an arrangement, and no vertex lies inside a link.
//! - Closed paths stay closed runs of links; links are counted chain by chain.
//!
//! Each function carries laws in its contract, and does nothing.
#![tactic(auto)]

ghost use Rattle.plane_model.specs.Pixel.{
  MeetsIsComputed,
  CrossingIsComputed,
  MetPixelsLieInTheBox,
  CrossingsLieInBothBoxes,
};
ghost use Rattle.plane_model.specs.Hot.{HotPointsAreHot, HotIsComputed, ChainIsComputed, KeysAgree, KeysOrderChains, HotPointsStayInBounds};
ghost use Rattle.plane_model.specs.Snapped.{
  LinksMeetAtEnds,
  NoHotPointInsideALink,
  SnappedVerticesAreHot,
  NoVertexInsideALink,
  SnappedLinksAreAnArrangement,
  SnappedPathsAreClosedRuns,
  LinksAreCounted,
};

/// The six tests on the sides of a pixel say whether a segment meets it.
pub fn meets_is_computed()
    ensures holds { MeetsIsComputed }
{}

/// The rounded quotients of determinants are the pixel of the meeting point.
pub fn crossing_is_computed()
    ensures holds { CrossingIsComputed }
{}

/// The vertices and the pixels of all crossings are the hot points.
pub fn hot_points_are_computed()
    ensures listed { HotPointsAreHot }
    ensures tested { HotIsComputed }
{}

/// The hot points that a segment meets, sorted in its direction, are its chain, and there is no other.
pub fn chain_is_computed()
    ensures holds { ChainIsComputed }
{}

/// Pixels are passed in the order of their keys, so sorting by the key gives the chain.
pub fn keys_order_chains()
    ensures agree { KeysAgree }
    ensures chain { KeysOrderChains }
{}

/// What a segment meets lies in its box, so a search among boxes misses no chain point and no crossing.
pub fn met_pixels_lie_in_the_box()
    ensures met { MetPixelsLieInTheBox }
    ensures crossing { CrossingsLieInBothBoxes }
{}

/// Rounding leaves the bounds of a drawing as they are.
pub fn hot_points_stay_in_bounds()
    ensures holds { HotPointsStayInBounds }
{}

/// The theorem of snap rounding: links meet at common ends alone, and no hot point lies inside a link.
pub fn links_meet_at_ends()
    ensures apart { LinksMeetAtEnds }
    ensures hot { NoHotPointInsideALink }
{}

/// The vertices of a snapped drawing are hot, so none of them lies inside a link.
pub fn no_vertex_inside_a_link()
    ensures hot { SnappedVerticesAreHot }
    ensures outside { NoVertexInsideALink }
{}

/// The links of a snapped drawing are an arrangement, each link once.
pub fn snapped_links_are_an_arrangement()
    ensures holds { SnappedLinksAreAnArrangement }
{}

/// A closed path, snapped, is a closed run of links.
pub fn snapped_paths_are_closed_runs()
    ensures holds { SnappedPathsAreClosedRuns }
{}

/// The links of the snapped paths can be counted chain by chain, before any path is joined.
pub fn links_are_counted()
    ensures holds { LinksAreCounted }
{}
