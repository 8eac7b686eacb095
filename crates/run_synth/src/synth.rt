ghost use Rattle.std.specs.Prelude.{◌≡◌, ◌*◌, ◌≤◌, ◌++◌, All, IfErr, IfOk, OnOk, codes};
ghost use Rattle.std.specs.Fmt.{signed_decimal};
ghost use Rattle.std.specs.String.{string_bytes};
ghost use Rattle.plane_model.specs.Drawing.{Drawing};
ghost use Rattle.snap_round.specs.Snapping.{FaultMeans};
ghost use Rattle.face_sets.specs.Sets.{IsSetOf};
ghost use Rattle.run_plane.specs.LaidOut.{IsLaidOut};
ghost use Rattle.synth_model.specs.Cells.{cells};
ghost use Rattle.synth_model.specs.Line.{line_text, named};
ghost use Rattle.run_synth.specs.Told.{AreNumbersOf, IsLineOf, IsToldOf, filled};

use crate::cells::{cells_of, count_of};
use face_sets::{FaceSet, SetList, union_of};
use grid_base::OverlapRule;
use itoa::Buffer;
use region_ops::separate_sets;
use run_plane::{LaidOut, Plane, laid_out};
use snap_round::SnapFault;
use std::alloc::{AllocError, Global};

/// What is said of a made-up mosaic of `n` by `n` overlapping cells: how many cells, arcs and faces it has, how many
/// cells keep a face when each face goes to the largest of its cells, and twice the area of all cells together, in
/// squares of the grid.
///
/// Errors: `TooDense`, where the snapped cells have more than 8,000,000 links, and `Memory`.
pub fn synth_line(alloc: Global, seed: u32, n: u32) -> Result<String, SnapFault>
    requires few { n ≤ 300 }
    ensures stops { IfErr result (FaultMeans (cells seed n)) }
    ensures told { IfOk result (λ line. IsToldOf (cells seed n) (n * n) (string_bytes line)) }
{
    let drawing = cells_of(alloc, seed, n)?;
    let laid = laid_out(alloc, drawing)?;
    Ok(line_of(alloc, count_of(n), laid)?)
}

// The line of `count` cells that are laid out.
fn line_of(alloc: Global, count: u32, laid: LaidOut) -> Result<String, AllocError>
    requires inner { All (IsSetOf laid.plane.faces) laid.features.items }
    ensures told { (s : Drawing) → IsLaidOut s laid.plane.arcs laid.plane.faces laid.plane.boxes.items laid.features.items → IfOk result (λ line. IsLineOf s count (string_bytes line)) }
{
    let numbers = numbers_of(alloc, count, laid)?;
    text_of(alloc, numbers)
}

// What the line tells: how many cells, arcs, faces and cells with a face there are, and twice the area of all cells.
#[derive(Clone, Copy)]
struct Numbers {
    cells: u32,
    arcs: u32,
    faces: u32,
    features: usize,
    twice_area: i128,
}

fn numbers_of(alloc: Global, count: u32, laid: LaidOut) -> Result<Numbers, AllocError>
    requires inner { All (IsSetOf laid.plane.faces) laid.features.items }
    ensures exact { IfOk result (AreNumbersOf laid.plane.arcs laid.plane.faces laid.features.items count) }
{
    let sets = listed(alloc, laid.features)?;
    numbers_over(alloc, count, &laid.plane, &sets)
}

fn numbers_over(
    alloc: Global,
    count: u32,
    plane: &Plane,
    sets: &SetList,
) -> Result<Numbers, AllocError>
    requires inner { All (IsSetOf plane.now.faces) sets.now }
    ensures exact { IfOk result (AreNumbersOf plane.now.arcs plane.now.faces sets.now count) }
{
    let cleaned = separate_sets(alloc, &plane.faces, sets, OverlapRule::MaxArea)?;
    let covered = union_of(alloc, sets)?;
    let twice_area = covered.twice_area(&plane.faces)?;
    Ok(Numbers {
        cells: count,
        arcs: plane.arcs.count(),
        faces: plane.faces.count(),
        features: filled(cleaned.as_slice()),
        twice_area,
    })
}

fn text_of(alloc: Global, numbers: Numbers) -> Result<String, AllocError>
    ensures exact { IfOk result (λ line. string_bytes line ≡ line_text numbers.cells numbers.arcs numbers.faces numbers.features numbers.twice_area) }
{
    let mut text = String::new(alloc);
    push_count(&mut text, "cells ", u64::from(numbers.cells))?;
    push_count(&mut text, " arcs ", u64::from(numbers.arcs))?;
    push_count(&mut text, " faces ", u64::from(numbers.faces))?;
    push_count(&mut text, " features ", numbers.features as u64)?;
    push_area(&mut text, numbers.twice_area)?;
    text.push_str("\n")?;
    Ok(text)
}

fn push_count(text: &mut String, name: &str, count: u64) -> Result<(), AllocError>
    ensures pushed { OnOk result (string_bytes text.new ≡ string_bytes text.old ++ named name.now count) }
{
    let mut buffer = Buffer::new();
    text.push_str(name)?;
    text.push_str(buffer.format(count))
}

fn push_area(text: &mut String, twice_area: i128) -> Result<(), AllocError>
    ensures pushed { OnOk result (string_bytes text.new ≡ string_bytes text.old ++ (codes " twice-area " ++ signed_decimal twice_area)) }
{
    let mut buffer = Buffer::new();
    text.push_str(" twice-area ")?;
    text.push_str(buffer.format(twice_area))
}

fn listed(alloc: Global, sets: Vec<FaceSet>) -> Result<SetList, AllocError>
    ensures all { IfOk result (λ list. list ≡ sets.items) }
{
    let mut list = SetList::new(alloc);
    for set in sets {
        list.push(set)?;
    }
    Ok(list)
}

fn filled(sets: &[FaceSet]) -> usize
    ensures exact { result ≡ filled sets.now }
{
    sets.iter().filter(|set| !set.is_empty()).count()
}
