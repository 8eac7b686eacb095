//! Laws of layers: the layers that a run holds show the layers of a state, and what each command makes of one shows
//! what its definition makes of that of the state.
//!
//! A run holds sets of faces, signed arcs and points; a state has regions, paths and points. `specs/Shown.antt` says
//! when the ones show the others: rows, names and kinds are the same, sets of faces follow regions, arcs run along
//! paths. `specs/Reasons.antt` says when a refusal of a run is that of the state.
//!
//! - What is laid out has a view, in which the sets that features and boxes hold show them (`views_exist`). What a run
//!   draws is the drawing of the state (`drawings_are_one`), and what begins over it shows what begins in the state
//!   (`beginnings_show`).
//! - Features that are taken by their numbers show those that are taken of the state's layer (`taken_features_show`). A
//!   shape is empty exactly if what it shows is (`emptiness_shows`), so the same features are left out
//!   (`left_features_show`).
//! - Commands on rows and columns: `fields_show`, `new_names_show`, `joins_show`, `assigned_fields_show`,
//!   `sorted_rows_show`, `early_rows_show`, `filtered_rows_show`, `pieces_show` and `merged_layers_show`.
//! - Lines and points that are clipped or erased show what the region leaves of the state's (`clipped_lines_show`,
//!   `erased_lines_show`), and so do their paths and points one by one (`exploded_lines_show`) and in groups
//!   (`grouped_lines_show`). Lines between polygons, and all lines around them with their types and ranks, are those of
//!   the state (`inner_lines_show`, `outlines_show`).
//! - A command works on the same layers (`targets_show`), takes the same ones from elsewhere (`origins_show`,
//!   `one_layer_shows`), and its outputs go to the same places (`placed_outputs_show`). The first has all layers for
//!   its target (`first_layers_show`).
//! - Commands on polygons: a run's plane is seen in a view (`planes_are_seen`), and what a command cuts by shows the
//!   region of the state (`cut_sets_show`). So do `clipped_polygons_show`, `erased_polygons_show`,
//!   `dissolved_polygons_show`, `cleaned_polygons_show`, `islands_show`, `mosaics_show`, `exploded_polygons_show` and
//!   `united_layers_show`; a layer that is alone is not united (`lone_layers_are_refused`).
//!
//! Each function carries one law in its contract, and does nothing. The steps of a run stand above, in `state_laws`.
#![tactic(auto)]

ghost use Rattle.layer_laws.specs.Beginnings.{BeginningsShow, DrawingsAreOne};
ghost use Rattle.layer_laws.specs.Lines.{ClippedLinesShow, ErasedLinesShow, ExplodedLinesShow, GroupedLinesShow, InnerLinesShow, OutlinesShow};
ghost use Rattle.layer_laws.specs.Placing.{PlacedOutputsShow};
ghost use Rattle.layer_laws.specs.Polygons.{CutSetsShow, CleanedPolygonsShow, ClippedPolygonsShow, DissolvedPolygonsShow, ErasedPolygonsShow, ExplodedPolygonsShow, IslandsShow, LoneLayersAreRefused, MosaicsShow, PlanesAreSeen, UnitedLayersShow};
ghost use Rattle.layer_laws.specs.Tables.{
  AssignedFieldsShow,
  EarlyRowsShow,
  FieldsShow,
  FilteredRowsShow,
  JoinsShow,
  MergedLayersShow,
  NewNamesShow,
  PiecesShow,
  SortedRowsShow,
};
ghost use Rattle.layer_laws.specs.Taken.{EmptinessShows, LeftFeaturesShow, TakenFeaturesShow};
ghost use Rattle.layer_laws.specs.Targets.{FirstLayersShow, OneLayerShows, OriginsShow, TargetsShow};
ghost use Rattle.layer_laws.specs.Views.{ViewsExist};

/// A snapped drawing that is laid out has a view: its places have labels by their faces, each question about regions
/// has a right answer, and the faces that features and boxes hold follow them.
pub fn views_exist()
    ensures holds { ViewsExist }
{}

/// What a run draws is the drawing of the state.
pub fn drawings_are_one()
    ensures holds { DrawingsAreOne }
{}

/// What begins over a drawing has a view, in which it shows what begins in the state.
pub fn beginnings_show()
    ensures holds { BeginningsShow }
{}

/// Features that are taken by their numbers show those that are taken of the state's layer.
pub fn taken_features_show()
    ensures holds { TakenFeaturesShow }
{}

/// A shape is empty exactly if the shape that it shows is.
pub fn emptiness_shows()
    ensures holds { EmptinessShows }
{}

/// A layer with other shapes, without the empty ones, shows what is left of the state's layer.
pub fn left_features_show()
    ensures holds { LeftFeaturesShow }
{}

/// Kept columns show those that are kept of the state's table.
pub fn fields_show()
    ensures holds { FieldsShow }
{}

/// Columns under other names show those of the state.
pub fn new_names_show()
    ensures holds { NewNamesShow }
{}

/// A join by keys shows that of the state's layers.
pub fn joins_show()
    ensures holds { JoinsShow }
{}

/// Fields that are assigned show those that are assigned in the state's layer.
pub fn assigned_fields_show()
    ensures holds { AssignedFieldsShow }
{}

/// Features in the order of their keys show those of the state.
pub fn sorted_rows_show()
    ensures holds { SortedRowsShow }
{}

/// Features whose key few before them have show those of the state.
pub fn early_rows_show()
    ensures holds { EarlyRowsShow }
{}

/// Features that pass a filter show those that pass it in the state.
pub fn filtered_rows_show()
    ensures holds { FilteredRowsShow }
{}

/// The pieces of a layer show those of the state's layer.
pub fn pieces_show()
    ensures holds { PiecesShow }
{}

/// Layers that are merged show the state's layers merged.
pub fn merged_layers_show()
    ensures holds { MergedLayersShow }
{}

/// What a region leaves of lines and points shows what it leaves of the state's.
pub fn clipped_lines_show()
    ensures holds { ClippedLinesShow }
{}

/// So does what it leaves of them outside of it.
pub fn erased_lines_show()
    ensures holds { ErasedLinesShow }
{}

/// Each path and each point by itself shows those of the state.
pub fn exploded_lines_show()
    ensures holds { ExplodedLinesShow }
{}

/// Lines and points that are grouped, where they may be, show the groups of the state.
pub fn grouped_lines_show()
    ensures holds { GroupedLinesShow }
{}

/// Lines between polygons show those of the state.
pub fn inner_lines_show()
    ensures holds { InnerLinesShow }
{}

/// So do lines around polygons, with their types and ranks.
pub fn outlines_show()
    ensures holds { OutlinesShow }
{}

/// A target has the layers that it selects in the state, or both refuse it.
pub fn targets_show()
    ensures holds { TargetsShow }
{}

/// The layers that a command takes from elsewhere show those that it takes in the state.
pub fn origins_show()
    ensures holds { OriginsShow }
{}

/// One layer among several is found, or refused, as in the state.
pub fn one_layer_shows()
    ensures holds { OneLayerShows }
{}

/// The layers with which the commands begin show the first state.
pub fn first_layers_show()
    ensures holds { FirstLayersShow }
{}

/// The outputs of a command go to the places to which they go in the state.
pub fn placed_outputs_show()
    ensures holds { PlacedOutputsShow }
{}

/// The plane of a run is seen in a view with the same arcs and faces, where the faces of its boxes show them.
pub fn planes_are_seen()
    ensures holds { PlanesAreSeen }
{}

/// What a command cuts by shows the region of the state, or both refuse it.
pub fn cut_sets_show()
    ensures holds { CutSetsShow }
{}

/// What a clip leaves of polygons shows what it leaves of the state's regions.
pub fn clipped_polygons_show()
    ensures holds { ClippedPolygonsShow }
{}

/// What an erasure leaves of polygons shows what it leaves of the state's regions.
pub fn erased_polygons_show()
    ensures holds { ErasedPolygonsShow }
{}

/// Dissolved polygons show those of the state, or both are refused.
pub fn dissolved_polygons_show()
    ensures holds { DissolvedPolygonsShow }
{}

/// Polygons that are cleaned, with the gaps that go to them, show those of the state.
pub fn cleaned_polygons_show()
    ensures holds { CleanedPolygonsShow }
{}

/// Polygons without their islands show those of the state, with or without the features that are left empty.
pub fn islands_show()
    ensures holds { IslandsShow }
{}

/// A mosaic shows that of the state, with the same numbers.
pub fn mosaics_show()
    ensures holds { MosaicsShow }
{}

/// Polygons in pieces show those of the state.
pub fn exploded_polygons_show()
    ensures holds { ExplodedPolygonsShow }
{}

/// Layers that are united show the state's layers united.
pub fn united_layers_show()
    ensures holds { UnitedLayersShow }
{}

/// One layer alone is not united, as in the state.
pub fn lone_layers_are_refused()
    ensures holds { LoneLayersAreRefused }
{}
