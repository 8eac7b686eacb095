ghost use Rattle.std.specs.Prelude.{◌≡◌, ◌≢◌, ◌*◌, ◌/◌, ◌%◌, ◌≤◌, ◌<◌, ◌++◌, ◌∷◌, [], IfOk, OnOk};
ghost use Rattle.plane_model.specs.Joined.{IsClosed};
ghost use Rattle.grid_base.specs.Drawn.{without_repeats};
ghost use Rattle.synth_model.specs.Draws.{drawn, next_state, state_after};
ghost use Rattle.synth_model.specs.Cells.{cell_ring, cells, point};
ghost use Rattle.run_synth.specs.Rings.{ring_through};

use grid_base::{Drawing, Kind, Pt, PtList};
use std::alloc::{AllocError, Global};

/// A mosaic of `n` rows of `n` overlapping cells, each a polygon feature of one ring, whose corners a seed moves. Its
/// points are grid numbers from 0 to 30,080.
///
/// Errors: `AllocError` for want of memory.
pub(crate) fn cells_of(alloc: Global, seed: u32, n: u32) -> Result<Drawing, AllocError>
    requires few { n ≤ 300 }
    ensures exact { IfOk result (λ drawing. drawing ≡ cells seed n) }
{
    let mut drawing = Drawing::new(alloc);
    let mut draws = Draws { state: seed };
    for number in 0..count_of(n) {
        let (column, row) = place_of(number, n);
        let ring = cell(alloc, &mut draws, column, row)?;
        add_cell(&mut drawing, ring)?;
    }
    Ok(drawing)
}

/// How many cells there are in `n` rows of `n`.
pub(crate) fn count_of(n: u32) -> u32
    requires few { n ≤ 300 }
    ensures exact { result ≡ n * n }
{
    n * n
}

// The column and the row of a cell.
fn place_of(number: u32, n: u32) -> (u32, u32)
    requires few { n ≤ 300 }
    requires there { number < n * n }
    ensures column { result.0 ≡ number / n }
    ensures row { result.1 ≡ number % n }
    ensures left { result.0 < 300 }
    ensures low { result.1 < 300 }
{
    (number / n, number % n)
}

/// Numbers that a seed draws: a linear congruence, of which bits 16 to 30 are taken.
#[derive(Drop)]
struct Draws {
    state: u32,
}

impl Draws {
    // A number from 0 to 40.
    fn next(&mut self) -> u32
        ensures stepped { self.new.state ≡ next_state self.old.state }
        ensures exact { result ≡ drawn self.new.state }
        ensures small { result ≤ 40 }
    {
        self.state = self.state.wrapping_mul(1_103_515_245).wrapping_add(12_345);
        self.state / 65_536 % 32_768 % 41
    }
}

// Adds a feature of one polygon, which has this one ring.
fn add_cell(drawing: &mut Drawing, ring: PtList) -> Result<(), AllocError>
    requires not_empty { ring ≢ [] }
    requires closed { IsClosed ring }
    ensures added { OnOk result (drawing.new ≡ record drawing.old { polygons = drawing.old.polygons ++ ((without_repeats ring ∷ []) ∷ []) ∷ [] }) }
{
    drawing.add_feature(Kind::Polygon)?;
    drawing.add_polygon()?;
    drawing.add_ring(ring)
}

// A cell: a corner that stands fast, and three that six draws move.
fn cell(alloc: Global, draws: &mut Draws, column: u32, row: u32) -> Result<PtList, AllocError>
    requires left { column < 300 }
    requires low { row < 300 }
    ensures exact { IfOk result (λ ring. ring ≡ cell_ring (100 * column) (100 * row) (λ k. drawn (state_after draws.old.state k))) }
    ensures moved { draws.new.state ≡ state_after draws.old.state 6 }
{
    let (x, y) = (100 * column, 100 * row);
    let first = corner(x, y);
    let second = corner(x + 140 + draws.next(), y + draws.next());
    let third = corner(x + 140 + draws.next(), y + 140 + draws.next());
    let fourth = corner(x + draws.next(), y + 140 + draws.next());
    ring_through(alloc, first, second, third, fourth)
}

fn ring_through(
    alloc: Global,
    first: Pt,
    second: Pt,
    third: Pt,
    fourth: Pt,
) -> Result<PtList, AllocError>
    ensures exact { IfOk result (λ ring. ring ≡ ring_through first second third fourth) }
{
    let mut ring = PtList::new(alloc);
    ring.push(first)?;
    ring.push(second)?;
    ring.push(third)?;
    ring.push(fourth)?;
    ring.push(first)?;
    Ok(ring)
}

// The last cell's corners lie at 30,080 at most.
fn corner(x: u32, y: u32) -> Pt
    requires left { x ≤ 30080 }
    requires low { y ≤ 30080 }
    ensures exact { result ≡ point x y }
{
    match Pt::new(i64::from(x), i64::from(y)) {
        Some(point) => point,
        None => unreachable!(),
    }
}
