//! Laws of pictures: what a run draws of its layers shows the layers of the model.
//!
//! A run traces a set of faces as rings of arcs, and draws rings and paths of arcs as points. The laws of what is drawn
//! are stated in `specs/Drawn.antt`, those that there is something to draw in `specs/Pictured.antt`, and that of the
//! plane in `specs/Planes.antt`.
//!
//! - Arcs that follow each other are drawn as the path that they are when they are joined (`paths_are_joined`), a set of
//!   faces as polygons that fit the region that it follows, or as nothing where that is empty (`regions_are_drawn`), and
//!   any shape as the one that it shows (`shapes_are_drawn`). So pictures show layers of the state (`pictures_show`).
//! - Drawn as points, shapes name the arcs that they are traced as (`drawn_shapes_name_arcs`), so layers in arcs are
//!   those of pictures (`traced_layers_show`).
//! - Each region of a view has polygons that fit it (`each_region_is_pictured`), and each layer a picture
//!   (`each_layer_is_pictured`).
//! - The plane of a view of what is laid out is that of the model for the drawing (`views_are_modelled`).
//!
//! Each function carries one law in its contract, and does nothing.
#![tactic(auto)]

ghost use Rattle.picture_laws.specs.Drawn.{DrawnShapesNameArcs, PathsAreJoined, PicturesShow, RegionsAreDrawn, ShapesAreDrawn, TracedLayersShow};
ghost use Rattle.picture_laws.specs.Pictured.{EachLayerIsPictured, EachRegionIsPictured};
ghost use Rattle.picture_laws.specs.Planes.{ViewsAreModelled};

/// Arcs that follow each other are drawn as the path that they are when they are joined.
pub fn paths_are_joined()
    ensures holds { PathsAreJoined }
{}

/// A set of faces is drawn as polygons that fit the region that it shows, or as nothing where the region is empty.
pub fn regions_are_drawn()
    ensures holds { RegionsAreDrawn }
{}

/// Any shape is drawn as the one that it shows.
pub fn shapes_are_drawn()
    ensures holds { ShapesAreDrawn }
{}

/// Drawn as points, a shape names the arcs that it is traced as.
pub fn drawn_shapes_name_arcs()
    ensures holds { DrawnShapesNameArcs }
{}

/// The picture of a layer shows the state's layer.
pub fn pictures_show()
    ensures holds { PicturesShow }
{}

/// A layer in arcs is that of a picture, which shows the state's layer.
pub fn traced_layers_show()
    ensures holds { TracedLayersShow }
{}

/// Each region of a view has polygons that fit it.
pub fn each_region_is_pictured()
    ensures holds { EachRegionIsPictured }
{}

/// Each layer of a state has a picture.
pub fn each_layer_is_pictured()
    ensures holds { EachLayerIsPictured }
{}

/// The plane of a view of a drawing that is laid out is that of the model, with right answers.
pub fn views_are_modelled()
    ensures holds { ViewsAreModelled }
{}
