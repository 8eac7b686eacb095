ghost use Rattle.std.specs.Prelude.{◌≡◌, ◌<◌, Contains, Some, length, slice_get};
ghost use Rattle.plane_model.specs.Points.{GridPoint, Segment, IsOn, at};
ghost use Rattle.plane_model.specs.Drawing.{vertices_of};
ghost use Rattle.plane_model.specs.Arrangement.{IsArrangement, IsEnd};
ghost use Rattle.plane_model.specs.Snapped.{links_of};
ghost use Rattle.grid_base.specs.Drawn.{HasPaths, IsSnapped};

use crate::drawing::Drawing;
use crate::list_types::{LinkList, PathList, PtList, RingsList};
use crate::numbers::FeatId;
use std::marker::Model;

/// A snapped drawing with its links: the steps of its paths, ascending, each once and without direction. Two
/// distinct links meet at common ends alone, and no vertex lies inside a link.
///
/// Contracts see it as the drawing of its paths.
#[derive(Drop)]
pub struct Snapped {
    paths: Drawing,
    links: LinkList,
}

impl Model for Snapped {
    ghost use Rattle.std.specs.Prelude.{◌≡◌};
    ghost use Rattle.plane_model.specs.Drawing.{Drawing as Drawn};
    ghost use Rattle.plane_model.specs.Snapped.{links_of};
    ghost use Rattle.grid_base.specs.Drawn.{IsSnapped};

    ghost Value = { Drawn };

    ghost view = { λ s. s.paths };

    ghost invariant = { λ s. (s.links ≡ links_of s.paths) × IsSnapped s.paths };
}

impl Snapped {
    /// The snapped drawing of these paths, whose links are these. Takes no memory.
    pub fn new(paths: Drawing, links: LinkList) -> Snapped
        requires links { links ≡ links_of paths }
        requires arrangement { IsArrangement (links_of paths) }
        requires no_vertex_inside { (l : Segment) (p : GridPoint) → Contains (links_of paths) l → Contains (vertices_of paths) p → IsOn l (at p) → IsEnd l (at p) }
        ensures kept { result ≡ paths }
    {
        Snapped { paths, links }
    }

    /// The links of the paths, ascending, each once. Two that differ have at most an end in common, and none has a
    /// vertex of the drawing inside it.
    pub fn links(&self) -> &LinkList
        ensures exact { result.now ≡ links_of self.now }
        ensures snapped { IsSnapped self.now }
    {
        &self.links
    }

    /// The drawing of its paths and points.
    pub fn paths(&self) -> &Drawing
        ensures same { result.now ≡ self.now }
    {
        &self.paths
    }

    /// The drawing of its paths and points; the links are let go.
    pub fn into_paths(self) -> Drawing
        ensures same { result ≡ self }
    {
        self.paths
    }

    /// How many polygon features there are; they are numbered from 0.
    pub fn polygon_count(&self) -> u32
        ensures count { result ≡ length self.now.polygons }
    {
        self.paths.polygon_count()
    }

    /// How many line features there are; they are numbered from 0.
    pub fn line_count(&self) -> u32
        ensures count { result ≡ length self.now.lines }
    {
        self.paths.line_count()
    }

    /// How many point features there are; they are numbered from 0.
    pub fn point_count(&self) -> u32
        ensures count { result ≡ length self.now.points }
    {
        self.paths.point_count()
    }

    /// How many boxes there are; they are numbered from 0.
    pub fn box_count(&self) -> u32
        ensures count { result ≡ length self.now.boxes }
    {
        self.paths.box_count()
    }

    /// The polygons of a feature, in order, with their snapped rings: closed, none of them empty, and without equal
    /// neighbours.
    pub fn rings_of(&self, f: FeatId) -> &RingsList
        requires { f < length self.now.polygons }
        ensures found { slice_get self.now.polygons f ≡ Some result.now }
        ensures paths { HasPaths self.now }
    {
        self.paths.rings_of(f)
    }

    /// The snapped lines of a feature, in order: none of them empty, and without equal neighbours.
    pub fn lines_of(&self, f: FeatId) -> &PathList
        requires { f < length self.now.lines }
        ensures found { slice_get self.now.lines f ≡ Some result.now }
        ensures paths { HasPaths self.now }
    {
        self.paths.lines_of(f)
    }

    /// The points of a feature, in order; some may be equal.
    pub fn points_of(&self, f: FeatId) -> &PtList
        requires { f < length self.now.points }
        ensures found { slice_get self.now.points f ≡ Some result.now }
    {
        self.paths.points_of(f)
    }

    /// The snapped path of a box, by its number from 0: not empty, closed, and without equal neighbours.
    pub fn box_of(&self, b: u32) -> &PtList
        requires { b < length self.now.boxes }
        ensures found { slice_get self.now.boxes b ≡ Some result.now }
        ensures paths { HasPaths self.now }
    {
        self.paths.box_of(b)
    }
}
