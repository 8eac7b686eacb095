ghost use Rattle.std.specs.Prelude.{IfOk, OnOk};
ghost use Rattle.std.specs.List.{AllZip};
ghost use Rattle.run_plane.specs.LineArcs.{AreLineArcs, GoesAlong};

use arc_table::{ArcTable, SignedPaths};
use grid_base::{Drawing, FeatId, PtList};
use std::alloc::{AllocError, Global};

/// The paths of each line feature of a snapped drawing, as arcs, in the order of the features; a path without links is
/// dropped.
///
/// Errors: `AllocError` for want of memory.
pub fn lines_along(
    alloc: Global,
    arcs: &ArcTable,
    snapped: &Drawing,
) -> Result<Vec<SignedPaths>, AllocError>
    ensures along { IfOk result (λ lines. AllZip (AreLineArcs arcs.now) snapped.now.lines lines.items) }
{
    let mut lines = Vec::new(alloc);
    for number in 0..snapped.line_count() {
        let paths = snapped.lines_of(FeatId::new(number));
        let along = paths_along(alloc, arcs, paths.as_slice())?;
        lines.push(along)?;
    }
    Ok(lines)
}

fn paths_along(alloc: Global, arcs: &ArcTable, lines: &[PtList]) -> Result<SignedPaths, AllocError>
    ensures along { IfOk result (AreLineArcs arcs.now lines.now) }
{
    let mut paths = SignedPaths::new(alloc);
    for path in lines {
        add_along(alloc, arcs, &mut paths, path)?;
    }
    Ok(paths)
}

fn add_along(
    alloc: Global,
    arcs: &ArcTable,
    paths: &mut SignedPaths,
    path: &PtList,
) -> Result<(), AllocError>
    ensures along { OnOk result (GoesAlong arcs.now path.now paths.old paths.new) }
{
    if path.len() > 1 {
        paths.push(arcs.path_arcs(alloc, path)?)?;
    }
    Ok(())
}
