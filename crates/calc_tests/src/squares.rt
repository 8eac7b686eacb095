//! Squares on the grid, and the faces between them.
ghost use Rattle.std.specs.Prelude.{◌≡◌, All, IfOk};
ghost use Rattle.face_walk.specs.Places.{IsBuiltOf};
ghost use Rattle.face_sets.specs.Sets.{IsInnerFace, IsSetOf};

use arc_table::ArcTable;
use face_sets::{FaceSet, SetList};
use face_walk::Faces;
use grid_base::{Drawing, FaceId, Pt, Rect};
use snap_round::snap;
use std::alloc::{AllocError, Global};
use std::test::Fail;

/// The arcs of squares on the grid, and the faces between these arcs.
#[derive(Drop)]
pub struct Plane {
    pub arcs: ArcTable,
    pub faces: Faces,
    ghost built: { IsBuiltOf arcs faces },
}

/// A square by its least corner and its side.
pub type Square = (i64, i64, i64);

fn point(x: i64, y: i64) -> Result<Pt, Fail> {
    Ok(Pt::new(x, y).ok_or("off the grid")?)
}

fn add_square(drawing: &mut Drawing, x: i64, y: i64, side: i64) -> Result<(), Fail> {
    if !(-100..100).contains(&x) || !(-100..100).contains(&y) || !(0..100).contains(&side) {
        return Err(Fail::from("too large"));
    }
    let rect = Rect::new(point(x, y)?, point(x + side, y + side)?).ok_or("turned over")?;
    drawing.add_box(rect)?;
    Ok(())
}

/// The faces between squares.
pub fn plane_of(alloc: Global, squares: &[Square]) -> Result<Plane, Fail> {
    let mut drawing = Drawing::new(alloc);
    for square in squares {
        let (x, y, side) = *square;
        add_square(&mut drawing, x, y, side)?;
    }
    match snap(alloc, &drawing) {
        Ok(snapped) => {
            let arcs = ArcTable::build(alloc, &snapped)?;
            let faces = Faces::build(alloc, &arcs)?;
            Ok(Plane { arcs, faces })
        }
        Err(_) => Err(Fail::from("not snapped")),
    }
}

// The inner face that a point lies in.
fn face_at(plane: &Plane, x: i64, y: i64) -> Result<FaceId, Fail>
    ensures inner { IfOk result (IsInnerFace plane.now.faces) }
{
    let face = plane.faces.at(&plane.arcs, point(x, y)?);
    if face == plane.faces.outer() {
        return Err(Fail::from("outside"));
    }
    Ok(face)
}

// The set of the faces that some points lie in.
#[tactic(auto, using(crate::proofs::Faces::set_of_inner))]
fn set_at(alloc: Global, plane: &Plane, points: &[(i64, i64)]) -> Result<FaceSet, Fail>
    ensures inner { IfOk result (IsSetOf plane.now.faces) }
{
    let faces = faces_at(alloc, plane, points)?;
    Ok(FaceSet::from_faces(faces))
}

fn faces_at(alloc: Global, plane: &Plane, points: &[(i64, i64)]) -> Result<Vec<FaceId>, Fail>
    ensures inner { IfOk result (λ faces. All (IsInnerFace plane.now.faces) faces.items) }
{
    let mut faces = Vec::new(alloc);
    for point in points {
        let (x, y) = *point;
        faces.push(face_at(plane, x, y)?)?;
    }
    Ok(faces)
}

/// The sets of the faces that lists of points lie in.
pub fn sets_at(alloc: Global, plane: &Plane, lists: &[&[(i64, i64)]]) -> Result<SetList, Fail>
    ensures inner { IfOk result (All (IsSetOf plane.now.faces)) }
{
    let mut sets = SetList::new(alloc);
    for points in lists {
        sets.push(set_at(alloc, plane, points)?)?;
    }
    Ok(sets)
}
