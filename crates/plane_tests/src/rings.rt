ghost use Rattle.std.specs.Prelude.{◌≡◌, ◌≢◌, ◌∷◌, ◌<◌, [], IfOk, OnOk, length};
ghost use Rattle.lists.specs.Lists.{last_of};
ghost use Rattle.plane_model.specs.Joined.{IsClosed};

use grid_base::{Drawing, Kind, Pt, PtList};
use std::alloc::{AllocError, Global};

/// Adds a feature of one polygon, whose exterior goes through one, three or four corners in order; nothing where there
/// is another number of them.
pub fn add_polygon(alloc: Global, drawing: &mut Drawing, corners: &[Pt]) -> Result<(), AllocError> {
    match corners {
        [a] => add_area(drawing, ring_of_one(alloc, *a)?),
        [a, b, c] => add_area(drawing, ring_of_three(alloc, *a, *b, *c)?),
        [a, b, c, d] => add_area(drawing, ring_of_four(alloc, *a, *b, *c, *d)?),
        _ => Ok(()),
    }
}

/// Adds a feature of one polygon with a hole, where its exterior and the hole have four corners each.
pub fn add_holed(
    alloc: Global,
    drawing: &mut Drawing,
    exterior: &[Pt],
    hole: &[Pt],
) -> Result<(), AllocError> {
    let [a, b, c, d] = exterior else {
        return Ok(());
    };
    let [e, f, g, h] = hole else {
        return Ok(());
    };
    let exterior = ring_of_four(alloc, *a, *b, *c, *d)?;
    let hole = ring_of_four(alloc, *e, *f, *g, *h)?;
    add_holed_area(drawing, exterior, hole)
}

fn ring_of_one(alloc: Global, a: Pt) -> Result<PtList, AllocError>
    ensures exact { IfOk result (λ ring. ring ≡ a ∷ []) }
{
    let mut ring = PtList::new(alloc);
    ring.push(a)?;
    Ok(ring)
}

fn ring_of_three(alloc: Global, a: Pt, b: Pt, c: Pt) -> Result<PtList, AllocError>
    ensures exact { IfOk result (λ ring. ring ≡ a ∷ b ∷ c ∷ a ∷ []) }
{
    let mut ring = PtList::new(alloc);
    ring.push(a)?;
    ring.push(b)?;
    ring.push(c)?;
    ring.push(a)?;
    Ok(ring)
}

fn ring_of_four(alloc: Global, a: Pt, b: Pt, c: Pt, d: Pt) -> Result<PtList, AllocError>
    ensures exact { IfOk result (λ ring. ring ≡ a ∷ b ∷ c ∷ d ∷ a ∷ []) }
{
    let mut ring = PtList::new(alloc);
    ring.push(a)?;
    ring.push(b)?;
    ring.push(c)?;
    ring.push(d)?;
    ring.push(a)?;
    Ok(ring)
}

#[tactic(auto, using(crate::proofs::Last::polygon_added, crate::proofs::Last::polygon_kept))]
fn add_area(drawing: &mut Drawing, exterior: PtList) -> Result<(), AllocError>
    requires some { exterior ≢ [] }
    requires closed { IsClosed exterior }
    ensures polygon { OnOk result (0 < length (last_of [] drawing.new.polygons)) }
{
    drawing.add_feature(Kind::Polygon)?;
    drawing.add_polygon()?;
    drawing.add_ring(exterior)?;
    Ok(())
}

fn add_holed_area(drawing: &mut Drawing, exterior: PtList, hole: PtList) -> Result<(), AllocError>
    requires some { exterior ≢ [] }
    requires closed { IsClosed exterior }
    requires some_hole { hole ≢ [] }
    requires closed_hole { IsClosed hole }
{
    add_area(drawing, exterior)?;
    drawing.add_ring(hole)
}
