//! The regions of a run: the set definitions of the commands on polygons, lines and points over a snapped drawing, and
//! how printed rings fit a region. Definitions alone: they stand below the laws and below all code of faces.
#![tactic(auto)]

ghost use Rattle.std.specs.Prelude.{◌≡◌, [], ℕ};
ghost use Rattle.region_model.specs.Region.{Region, any_of};
ghost use Rattle.region_model.specs.PolygonCommands.{dissolved};

/// A group without members has the empty union for its region.
pub fn nothing_dissolves_to_nothing()
    ensures holds { (region : ℕ → Region) → dissolved region [] ≡ any_of [] }
{}
