ghost use Rattle.std.specs.Prelude.{◌≡◌, ◌<◌, ◌++◌, [], All, OnOk, slice_index_or};
ghost use Rattle.arc_table.specs.Around.{IsAround};
ghost use Rattle.face_walk.specs.Places.{HasArc, IsBuiltOf};
ghost use Rattle.line_ops.specs.Inside.{left_of as face_left_of};
ghost use Rattle.line_ops.specs.Points.{IsNode};
ghost use Rattle.spatial_join.specs.Beside.{AreFoundAt, lists_left_of};

use arc_table::ArcTable;
use face_sets::FaceOwners;
use face_walk::Faces;
use grid_base::{FaceId, Pt, SignedArc};
use std::alloc::AllocError;

/// Appends the numbers of the sets that have a face beside a vertex of the drawing, for each such face.
/// Where the vertex is on no link that is the face in which it lies.
///
/// No vertex of a snapped drawing lies between the ends of a link, so a point on a link is a vertex of its arc.
/// Errors: `AllocError` for want of memory.
pub(crate) fn push_sets_at(
    t: &ArcTable,
    f: &Faces,
    owners: &FaceOwners,
    p: Pt,
    found: &mut Vec<u32>,
) -> Result<(), AllocError>
    requires built { IsBuiltOf t.now f.now }
    ensures found { OnOk result (AreFoundAt t.now f.now owners.now p found.old.items found.new.items) }
{
    let around = t.around(p);
    if around.is_empty() {
        push_off_nodes(t, f, owners, p, found)
    } else {
        push_left_of(f, owners, around, found)
    }
}

// The sets of the two sides of the least arc at a vertex, or where there is none of the face over it.
fn push_off_nodes(
    t: &ArcTable,
    f: &Faces,
    owners: &FaceOwners,
    p: Pt,
    found: &mut Vec<u32>,
) -> Result<(), AllocError>
    requires built { IsBuiltOf t.now f.now }
    requires off { IsNode t.now p → ⊥ }
    requires around { IsAround t.now p [] }
    ensures found { OnOk result (AreFoundAt t.now f.now owners.now p found.old.items found.new.items) }
{
    match t.arc_through(p) {
        Some(id) => {
            let sides = [SignedArc::forward(id), SignedArc::backward(id)];
            push_left_of(f, owners, &sides, found)
        }
        None => push_sets_of(owners, f.at(t, p), found),
    }
}

// The sets of the faces on the left of some arcs.
fn push_left_of(
    f: &Faces,
    owners: &FaceOwners,
    arcs: &[SignedArc],
    found: &mut Vec<u32>,
) -> Result<(), AllocError>
    requires arcs { All (HasArc f.now) arcs.now }
    ensures found { OnOk result (found.new.items ≡ found.old.items ++ lists_left_of owners.now f.now arcs.now) }
    ensures there { OnOk result (All (λ a. face_left_of f.now a < f.now.count) arcs.now) }
{
    for a in arcs {
        push_sets_of(owners, f.left_of(*a), found)?;
    }
    Ok(())
}

fn push_sets_of(owners: &FaceOwners, face: FaceId, found: &mut Vec<u32>) -> Result<(), AllocError>
    ensures found { OnOk result (found.new.items ≡ found.old.items ++ slice_index_or owners.now face []) }
{
    found.extend_from_slice(owners.at(face))?;
    Ok(())
}
