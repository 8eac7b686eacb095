//! A drawing laid out as arcs, faces and holders.
ghost use Rattle.std.specs.Prelude.{◌≡◌, ◌<◌, All, IfOk, length};
ghost use Rattle.face_walk.specs.Places.{IsBuiltOf};
ghost use Rattle.face_sets.specs.Sets.{IsInnerFace, IsSetOf};

use arc_table::ArcTable;
use face_sets::{FaceSet, SetList};
use face_walk::{Faces, Labels};
use grid_base::{Drawing, FaceId, FeatId, Snapped};
use snap_round::{SnapFault, snap};
use std::alloc::{AllocError, Global};

/// A snapped drawing, its arcs and faces, and for each face the polygon features and boxes that hold it.
#[derive(Drop)]
pub struct LaidOut {
    pub snapped: Snapped,
    pub arcs: ArcTable,
    pub faces: Faces,
    pub labels: Labels,
    ghost built: { IsBuiltOf arcs faces },
    ghost holders: { length labels.holders ≡ faces.count },
    ghost boxes: { length labels.boxes ≡ faces.count },
}

/// Lays a drawing out: snapped, with its arcs, its faces and their holders.
///
/// Errors: those of `snap`, and `Memory` where there is none for arcs, faces or holders.
pub fn laid_out(alloc: Global, drawing: &Drawing) -> Result<LaidOut, SnapFault> {
    let snapped = snap(alloc, drawing)?;
    Ok(built(alloc, snapped)?)
}

fn built(alloc: Global, snapped: Snapped) -> Result<LaidOut, AllocError> {
    let arcs = ArcTable::build(alloc, &snapped)?;
    let faces = Faces::build(alloc, &arcs)?;
    let labels = Labels::of(alloc, &arcs, &faces, &snapped)?;
    Ok(LaidOut {
        snapped,
        arcs,
        faces,
        labels,
    })
}

/// Who holds faces.
#[derive(Clone, Copy)]
pub enum Holder {
    Feature(u32),
    Box(u32),
}

/// The inner faces that a feature or a box holds.
#[tactic(auto, using(crate::proofs::Faces::set_of_inner))]
pub fn held(alloc: Global, laid: &LaidOut, holder: Holder) -> Result<FaceSet, AllocError>
    ensures inner { IfOk result (IsSetOf laid.now.faces) }
{
    let faces = inner_faces(alloc, laid, holder)?;
    Ok(FaceSet::from_faces(faces))
}

fn inner_faces(alloc: Global, laid: &LaidOut, holder: Holder) -> Result<Vec<FaceId>, AllocError>
    ensures inner { IfOk result (λ faces. All (IsInnerFace laid.now.faces) faces.items) }
{
    let mut faces = Vec::new(alloc);
    for number in 0..laid.faces.count() {
        let face = FaceId::new(number);
        if face != laid.faces.outer() && holds(&laid.labels, face, holder) {
            faces.push(face)?;
        }
    }
    Ok(faces)
}

fn holds(labels: &Labels, face: FaceId, holder: Holder) -> bool
    requires holders { face < length labels.now.holders }
    requires boxes { face < length labels.now.boxes }
{
    match holder {
        Holder::Feature(number) => labels.holders(face).contains(&FeatId::new(number)),
        Holder::Box(number) => labels.boxes(face).contains(&number),
    }
}

/// The faces that each of the first `count` features holds.
pub fn features(alloc: Global, laid: &LaidOut, count: u32) -> Result<SetList, AllocError>
    ensures each { IfOk result (λ sets. length sets ≡ count) }
    ensures inner { IfOk result (All (IsSetOf laid.now.faces)) }
{
    let mut sets = SetList::new(alloc);
    for number in 0..count {
        sets.push(held(alloc, laid, Holder::Feature(number))?)?;
    }
    Ok(sets)
}
