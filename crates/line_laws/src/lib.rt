//! Laws of lines: what arcs, paths and vertices are inside is what rational points show.
//!
//! They are laws over what `ArcTable::build`, `Faces::build`, `Labels::of` and the calls of `line_ops` answer.
//!
//! - An arc is inside a set of faces exactly if points of these faces see a side of each of its links
//!   (`arcs_are_inside`). So the paths that a set cuts out are maximal runs of steps along such links
//!   (`line_features_are_cut`).
//! - The arcs between features are those whose links have different features at their two sides
//!   (`arcs_between_features`).
//! - A source is a layer of features, or a box: what is inside its faces is what points see that it holds
//!   (`lines_cut_by_layers`, `lines_cut_by_boxes`, `vertices_inside_layers`, `vertices_inside_boxes`).
//! - Arcs that follow each other are a path: a line of a drawing, or a run of one (`lines_are_linked`,
//!   `runs_are_linked`). Cut by the set of any region, such paths are what the model of regions leaves of them
//!   (`paths_cut_by_regions`), and so it is with vertices (`points_cut_by_regions`) and with the arcs of dissolved
//!   lines (`lines_are_dissolved`).
//! - The sets at the two sides of an arc are those of the regions that have its sides (`sets_are_holders`),
//!   so arcs between sets are arcs between regions (`borders_are_of_regions`).
//!
//! Each function carries one law in its contract, and does nothing. The laws are stated in `specs/Lines.antt`,
//! `specs/ArcsBetween.antt`, `specs/Sources.antt`, `specs/Linked.antt` and `specs/Regions.antt`.
#![tactic(auto)]

ghost use Rattle.line_laws.specs.ArcsBetween.{ArcsBetweenFeatures, ArcsBetweenSets, SetsStandForFeatures, SetsStandForPoints};
ghost use Rattle.line_laws.specs.Lines.{ArcsAreInside, BoundaryIsDirected, BoundaryOfArcs, DrawingsAreLabelled, InsideIsTested, LineFeaturesAreCut, LinesAreCut, PathsAreCut, SidesAreWhole, SidesOfArcs};
ghost use Rattle.line_laws.specs.Linked.{LinesAreDissolved, LinesAreLinked, RunsAreLinked};
ghost use Rattle.line_laws.specs.Regions.{BordersAreOfRegions, InsidesAreTold, PathsCutByRegions, PointsCutByRegions, SetsAreHolders};
ghost use Rattle.line_laws.specs.Sources.{LinesCutByBoxes, LinesCutByLayers, PointsAreOfBoxes, PointsAreOfLayers, SidesOfBoxes, SidesOfLayers, VerticesInsideBoxes, VerticesInsideLayers};

/// These laws are true of the faces of the arcs of a snapped drawing.
pub fn drawings_are_labelled()
    ensures holds { DrawingsAreLabelled }
{}

/// A side of a link of a signed arc is in the points of a set of faces exactly if the set has the face on that side of
/// the arc.
pub fn sides_of_arcs()
    ensures holds { SidesOfArcs }
{}

/// So an arc is inside a set, as it is answered for it, exactly if each of its links is: at least one side of it
/// belongs to the points of the set.
pub fn arcs_are_inside()
    ensures holds { ArcsAreInside }
{}

/// A link is on the boundary of the points of a set exactly if the set has just one of the faces beside its arc.
pub fn boundary_of_arcs()
    ensures holds { BoundaryOfArcs }
{}

/// A signed arc is on the boundary of a set, as it is traced, exactly if the left sides of its links are in the points
/// of the set, and the right sides are not.
pub fn boundary_is_directed()
    ensures holds { BoundaryIsDirected }
{}

/// If some point that sees a side of a link is in the points of a set, each point that sees it is.
pub fn sides_are_whole()
    ensures holds { SidesAreWhole }
{}

/// Some test holds of just those links that are inside the points of a set.
pub fn inside_is_tested()
    ensures holds { InsideIsTested }
{}

/// The arcs of a path, cut by a set of faces, are its maximal runs of steps along links that are inside the points of
/// the set, and of steps along links that are not.
pub fn paths_are_cut()
    ensures holds { PathsAreCut }
{}

/// So it is with each path of a line of a snapped drawing, read from its start.
pub fn lines_are_cut()
    ensures holds { LinesAreCut }
{}

/// And with a line feature, path by path.
pub fn line_features_are_cut()
    ensures holds { LineFeaturesAreCut }
{}

/// The sets of a list stand for their points: the sets at the two sides of an arc are those whose points see the two
/// sides of each of its links.
pub fn sets_stand_for_points()
    ensures holds { SetsStandForPoints }
{}

/// The sets of the faces that features of a snapped drawing hold stand so for the points that the features hold.
pub fn sets_stand_for_features()
    ensures holds { SetsStandForFeatures }
{}

/// So the arcs whose two sides are in different sets are those of whose links the lists of the sets that have points at
/// the left and at the right side differ, each once; and the inner ones those for which, besides, neither list is
/// empty.
pub fn arcs_between_sets()
    ensures holds { ArcsBetweenSets }
{}

/// And for features of a snapped drawing they are the arcs of whose links the lists of the features that have the left
/// and the right side differ, with the lowest feature at each side.
pub fn arcs_between_features()
    ensures holds { ArcsBetweenFeatures }
{}

/// The sides of links that belong to the points of a set of the faces that features of a layer hold are those that
/// belong to the points that some feature of the layer holds.
pub fn sides_of_layers()
    ensures holds { SidesOfLayers }
{}

/// And those of a set of the faces that a box holds are those that belong to the points in the box.
pub fn sides_of_boxes()
    ensures holds { SidesOfBoxes }
{}

/// So line features cut by a layer are their maximal runs of steps along links of which some feature of the layer has a
/// side, and of steps along links of which none has.
pub fn lines_cut_by_layers()
    ensures holds { LinesCutByLayers }
{}

/// And so it is with a box.
pub fn lines_cut_by_boxes()
    ensures holds { LinesCutByBoxes }
{}

/// Off the links, the points of a set of the faces that features of a layer hold are those that some feature of the
/// layer holds.
pub fn points_are_of_layers()
    ensures holds { PointsAreOfLayers }
{}

/// And those of a set of the faces that a box holds are those in the box.
pub fn points_are_of_boxes()
    ensures holds { PointsAreOfBoxes }
{}

/// So a vertex of a snapped drawing is inside a layer, as it is answered for it, exactly if some point that a feature
/// of the layer holds sees it.
pub fn vertices_inside_layers()
    ensures holds { VerticesInsideLayers }
{}

/// And so it is with a box.
pub fn vertices_inside_boxes()
    ensures holds { VerticesInsideBoxes }
{}

/// The arcs along a line of a snapped drawing follow each other, and joined they are the line.
pub fn lines_are_linked()
    ensures holds { LinesAreLinked }
{}

/// The runs of arcs that follow each other do so too: so what a cut leaves of a path is cut again as a path.
pub fn runs_are_linked()
    ensures holds { RunsAreLinked }
{}

/// Dissolved lines are the arcs that their paths go along, each once, in its direction, in order of number.
pub fn lines_are_dissolved()
    ensures holds { LinesAreDissolved }
{}

/// Paths of arcs that follow each other, cut by the set of any region, are as points the maximal runs of steps along
/// links that are inside the region, and of steps along links that are not.
pub fn paths_cut_by_regions()
    ensures holds { PathsCutByRegions }
{}

/// Vertices are inside the set of a region, as it is answered for them, exactly if some point of the region sees them.
pub fn points_cut_by_regions()
    ensures holds { PointsCutByRegions }
{}

/// Which vertices of a drawing are inside a region that a set follows can be told.
pub fn insides_are_told()
    ensures holds { InsidesAreTold }
{}

/// The sets at the two sides of an arc are those of the regions that have the two sides of its first link.
pub fn sets_are_holders()
    ensures holds { SetsAreHolders }
{}

/// So the arcs whose two sides are in different sets are those between the regions of the sets, in order, as points,
/// with the least of them at each side; and the inner ones those with regions at both sides.
pub fn borders_are_of_regions()
    ensures holds { BordersAreOfRegions }
{}
