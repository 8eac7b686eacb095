ghost use Rattle.std.specs.Prelude.{◌≡◌, ◌≢◌, ◌<◌, ◌++◌, ◌∷◌, [], List, OnOk, OnErr, IfOk, Some, length, slice_get, ◌^◌};
ghost use Rattle.lists.specs.Lists.{last_of};
ghost use Rattle.plane_model.specs.Joined.{IsClosed};
ghost use Rattle.grid_base.specs.Drawn.{with_feature, with_last, add_polygon, add_ring, add_item, without_repeats, outline, HasPaths};

use crate::kinds::Kind;
use crate::list_types::{PathList, PolygonRings, PtList, RingsList, without_repeats};
use crate::numbers::{FeatId, next_number};
use crate::point::Pt;
use crate::rect::Rect;
use std::alloc::{AllocError, Global};
use std::marker::Model;

/// Polygon, line and point features, and boxes, each in the order in which they were added.
///
/// Equal neighbours in a ring, a line or a box count once; a point feature keeps all its points. Features of each
/// kind, and boxes, are counted from 0.
#[derive(Drop)]
pub struct Drawing {
    alloc: Global,
    polygons: Vec<RingsList>,
    lines: Vec<PathList>,
    points: Vec<PtList>,
    boxes: Vec<PtList>,
}

impl Model for Drawing {
    ghost use Rattle.std.specs.Prelude.{◌<◌, ◌^◌, length};
    ghost use Rattle.plane_model.specs.Drawing.{Drawing as Drawn};
    ghost use Rattle.grid_base.specs.Drawn.{HasPaths};

    ghost Value = { Drawn };

    ghost view = { λ d. record { polygons = d.polygons.items; lines = d.lines.items; points = d.points.items; boxes = d.boxes.items } };

    ghost invariant = { λ d.
        HasPaths (record { polygons = d.polygons.items; lines = d.lines.items; points = d.points.items; boxes = d.boxes.items })
        × ((length d.polygons.items < 2 ^ 32) × (length d.lines.items < 2 ^ 32))
        × ((length d.points.items < 2 ^ 32) × (length d.boxes.items < 2 ^ 32)) };
}

impl Drawing {
    /// A drawing without features and without boxes.
    pub fn new(alloc: Global) -> Drawing
        ensures empty { result ≡ record { polygons = []; lines = []; points = []; boxes = [] } }
    {
        Drawing {
            alloc,
            polygons: Vec::new(alloc),
            lines: Vec::new(alloc),
            points: Vec::new(alloc),
            boxes: Vec::new(alloc),
        }
    }
}

impl Drawing {
    /// Adds an empty feature, and answers its number among those of its kind.
    pub fn add_feature(&mut self, kind: Kind) -> Result<FeatId, AllocError>
        requires { kind ≢ Kind.Table }
        ensures ok { IfOk result (λ f. (f, self.new) ≡ with_feature kind self.old) }
        ensures err { OnErr result (self.new ≡ self.old) }
    {
        match kind {
            Kind::Polygon => {
                // Most features have one polygon, and most polygons one ring.
                let polygons = RingsList::with_capacity(self.alloc, 1)?;
                push_feature(&mut self.polygons, polygons)
            }
            Kind::Line => push_feature(&mut self.lines, PathList::new(self.alloc)),
            Kind::Point => push_feature(&mut self.points, PtList::new(self.alloc)),
            Kind::Table => unreachable!(),
        }
    }

    /// Adds an empty polygon to the last polygon feature.
    pub fn add_polygon(&mut self) -> Result<(), AllocError>
        requires { 0 < length self.old.polygons }
        ensures ok { OnOk result (self.new ≡ record self.old { polygons = add_polygon self.old.polygons }) }
        ensures err { OnErr result (self.new ≡ self.old) }
    {
        let last = self.polygons.len() - 1;
        let polygon = PolygonRings::with_capacity(self.alloc, 1)?;
        let feature = &mut self.polygons[last];
        feature.push(polygon)
    }

    /// Adds a ring to the last polygon of the last polygon feature.
    pub fn add_ring(&mut self, ring: PtList) -> Result<(), AllocError>
        requires polygon { 0 < length (last_of [] self.old.polygons) }
        requires not_empty { ring ≢ [] }
        requires closed { IsClosed ring }
        ensures ok { OnOk result (self.new ≡ record self.old { polygons = add_ring ring self.old.polygons }) }
        ensures err { OnErr result (self.new ≡ self.old) }
    {
        let ring = without_repeats(ring);
        let last = self.polygons.len() - 1;
        let feature = &mut self.polygons[last];
        push_ring(feature, ring)
    }

    /// Adds a line to the last line feature.
    pub fn add_line(&mut self, line: PtList) -> Result<(), AllocError>
        requires feature { 0 < length self.old.lines }
        requires not_empty { line ≢ [] }
        ensures ok { OnOk result (self.new ≡ record self.old { lines = add_item (without_repeats line) self.old.lines }) }
        ensures err { OnErr result (self.new ≡ self.old) }
    {
        let line = without_repeats(line);
        let last = self.lines.len() - 1;
        let feature = &mut self.lines[last];
        feature.push(line)
    }

    /// Adds a point to the last point feature.
    pub fn add_point(&mut self, p: Pt) -> Result<(), AllocError>
        requires { 0 < length self.old.points }
        ensures ok { OnOk result (self.new ≡ record self.old { points = add_item p self.old.points }) }
        ensures err { OnErr result (self.new ≡ self.old) }
    {
        let last = self.points.len() - 1;
        let feature = &mut self.points[last];
        feature.push(p)
    }

    /// Adds the outline of `rect` as a box, from its lower left corner to the right, and answers the box's number.
    pub fn add_box(&mut self, rect: Rect) -> Result<u32, AllocError>
        ensures number { IfOk result (λ n. n ≡ length self.old.boxes) }
        ensures ok { OnOk result (self.new ≡ record self.old { boxes = self.old.boxes ++ without_repeats (outline rect) ∷ [] }) }
        ensures err { OnErr result (self.new ≡ self.old) }
    {
        let ring = outline(self.alloc, rect)?;
        self.add_box_path(ring)
    }

    /// Adds a box that is a path already, as snapping leaves it, and answers the box's number.
    pub fn add_box_path(&mut self, path: PtList) -> Result<u32, AllocError>
        requires not_empty { path ≢ [] }
        requires closed { IsClosed path }
        ensures number { IfOk result (λ n. n ≡ length self.old.boxes) }
        ensures ok { OnOk result (self.new ≡ record self.old { boxes = self.old.boxes ++ without_repeats path ∷ [] }) }
        ensures err { OnErr result (self.new ≡ self.old) }
    {
        let number = next_number(self.boxes.len())?;
        self.boxes.push(without_repeats(path))?;
        Ok(number)
    }
}

// The outline of a rectangle, from its lower left corner to the right.
fn outline(alloc: Global, rect: Rect) -> Result<PtList, AllocError>
    ensures exact { IfOk result (λ ring. ring ≡ outline rect) }
{
    let (low, high) = (rect.low(), rect.high());
    let mut ring = PtList::new(alloc);
    ring.push(low)?;
    ring.push(corner(high, low))?;
    ring.push(high)?;
    ring.push(corner(low, high))?;
    ring.push(low)?;
    Ok(ring)
}

// The point right of or left of `q` and above or below `p`.
fn corner(p: Pt, q: Pt) -> Pt
    ensures exact { result ≡ record { x = p.x; y = q.y } }
{
    match Pt::new(p.x(), q.y()) {
        Some(corner) => corner,
        None => unreachable!(),
    }
}

// Adds a ring to the last polygon of a feature.
fn push_ring(polygons: &mut RingsList, ring: PtList) -> Result<(), AllocError>
    requires { 0 < length polygons.old }
    ensures ok { OnOk result (polygons.new ≡ with_last (λ polygon. polygon ++ ring ∷ []) polygons.old) }
    ensures err { OnErr result (polygons.new ≡ polygons.old) }
{
    polygons.last_mut().push(ring)
}

// Adds a feature, and answers its number.
fn push_feature<T>(features: &mut Vec<T>, feature: T) -> Result<FeatId, AllocError>
where
    T: Drop,
    requires { length features.old.items < 2 ^ 32 }
    ensures number { IfOk result (λ f. f ≡ length features.old.items) }
    ensures ok { OnOk result (features.new.items ≡ features.old.items ++ feature ∷ []) }
    ensures small { OnOk result (length features.new.items < 2 ^ 32) }
    ensures err { OnErr result (features.new.items ≡ features.old.items) }
{
    let number = next_number(features.len())?;
    features.push(feature)?;
    Ok(FeatId::new(number))
}

impl Drawing {
    /// What every drawing keeps, for proofs: no path is empty or has equal neighbours, and rings and boxes are closed.
    pub fn keeps_paths(&self)
        ensures paths { HasPaths self.now }
    {
        let _ = &self.polygons;
    }

    /// How many polygon features there are; they are numbered from 0.
    pub fn polygon_count(&self) -> u32
        ensures count { result ≡ length self.now.polygons }
    {
        self.polygons.len() as u32
    }

    /// How many line features there are; they are numbered from 0.
    pub fn line_count(&self) -> u32
        ensures count { result ≡ length self.now.lines }
    {
        self.lines.len() as u32
    }

    /// How many point features there are; they are numbered from 0.
    pub fn point_count(&self) -> u32
        ensures count { result ≡ length self.now.points }
    {
        self.points.len() as u32
    }

    /// How many boxes there are; they are numbered from 0.
    pub fn box_count(&self) -> u32
        ensures count { result ≡ length self.now.boxes }
    {
        self.boxes.len() as u32
    }

    /// The polygons of a feature, with their rings as they were added, but for equal neighbours.
    pub fn rings_of(&self, f: FeatId) -> &RingsList
        requires { f < length self.now.polygons }
        ensures found { slice_get self.now.polygons f ≡ Some result.now }
        ensures paths { HasPaths self.now }
    {
        &self.polygons[f.num() as usize]
    }

    /// The lines of a feature as they were added, but for equal neighbours; none is empty.
    pub fn lines_of(&self, f: FeatId) -> &PathList
        requires { f < length self.now.lines }
        ensures found { slice_get self.now.lines f ≡ Some result.now }
        ensures paths { HasPaths self.now }
    {
        &self.lines[f.num() as usize]
    }

    /// The points of a feature as they were added, equal ones too.
    pub fn points_of(&self, f: FeatId) -> &PtList
        requires { f < length self.now.points }
        ensures found { slice_get self.now.points f ≡ Some result.now }
    {
        &self.points[f.num() as usize]
    }

    /// The path of a box, by its number from 0: not empty, closed, and without equal neighbours.
    pub fn box_of(&self, b: u32) -> &PtList
        requires { b < length self.now.boxes }
        ensures found { slice_get self.now.boxes b ≡ Some result.now }
        ensures paths { HasPaths self.now }
    {
        &self.boxes[b as usize]
    }
}
