ghost use Rattle.std.specs.Prelude.{◌≡◌, true, IfOk, IfSome, OnOk};
ghost use Rattle.hot_pixels.specs.Edges.{IsEdgeOf, HasEdgeAt, IsEdgeAdded, AreEdgesOf};

use grid_base::{LIMIT, Pt, Seg, next_number};
use std::alloc::{AllocError, Global};

/// Segments without direction, most of them once, and for each segment of a list the number of its edge.
#[derive(Drop)]
pub struct Edges {
    pub segments: Vec<Seg>,
    pub numbers: Vec<u32>,
}

fn is_same(s: &Seg, t: &Seg) -> bool
    ensures yes { result ≡ true → s.now ≡ t.now }
{
    s.a() == t.a() && s.b() == t.b()
}

// Whether an edge is a segment, or runs back along it.
fn is_along(edge: &Seg, s: &Seg) -> bool
    ensures yes { result ≡ true → IsEdgeOf s.now edge.now }
{
    is_same(edge, s) || is_same(edge, &s.back())
}

fn scattered(p: Pt) -> u64 {
    let (x, y) = ((p.x() + LIMIT) as u64, (p.y() + LIMIT) as u64);
    let row = x.wrapping_mul(0x9E37_79B9_7F4A_7C15).wrapping_add(y);
    let product = row.wrapping_mul(0x9E37_79B9_7F4A_7C15);
    product ^ product >> 32
}

// A sum over the ends of a segment; the same for the one that runs back along it.
fn sum_over(s: &Seg) -> u64 {
    let sum = scattered(s.a()).wrapping_add(scattered(s.b()));
    sum.wrapping_mul(0x9E37_79B9_7F4A_7C15)
}

// The number, if it is that of a segment's edge.
fn edge_at(edges: &[Seg], i: u32, s: &Seg) -> Option<u32>
    ensures found { IfSome result (λ i. HasEdgeAt edges.now s.now i) }
{
    let edge = edges.get(i as usize)?;
    if is_along(edge, s) { Some(i) } else { None }
}

/// The number of a segment's edge, if it is the one that stands at this place of a list of numbers.
pub fn known_edge(edges: &[Seg], numbers: &[u32], place: usize, s: &Seg) -> Option<u32>
    ensures found { IfSome result (λ i. HasEdgeAt edges.now s.now i) }
{
    let i = *numbers.get(place)?;
    edge_at(edges, i, s)
}

// The number of a segment's edge, if it stands next to that of the segment before: a path that goes back along another,
// as where two areas meet, passes its edges in reverse.
fn edge_beside(edges: &[Seg], last: u32, s: &Seg) -> Option<u32>
    ensures found { IfSome result (λ i. HasEdgeAt edges.now s.now i) }
{
    match edge_at(edges, last.wrapping_sub(1), s) {
        Some(i) => Some(i),
        None => edge_at(edges, last.wrapping_add(1), s),
    }
}

fn lower_half(sum: u64) -> u32 {
    (sum % (1 << 32)) as u32
}

// A table that leads from the sum over a segment to the number of its edge. An entry has the number in its lower bits,
// and the bits of the sum there above them, so that few other edges are looked at.
#[derive(Drop)]
struct EdgeTable {
    entries: Vec<u32>,
    number_mask: u32,
}

impl EdgeTable {
    // A table with two slots for each segment.
    fn over(alloc: Global, segments: usize) -> Result<EdgeTable, AllocError> {
        let bits = usize::BITS.wrapping_sub(segments.leading_zeros());
        Ok(EdgeTable {
            entries: vec![in alloc; 0; segments.saturating_mul(2)]?,
            number_mask: u32::MAX.wrapping_shr(u32::BITS.saturating_sub(bits).min(31)),
        })
    }

    fn slot_of(&self, sum: u64) -> usize {
        ((sum >> 32).wrapping_mul(self.entries.len() as u64) >> 32) as usize
    }

    // The number that the table has for a sum.
    fn number_at(&self, sum: u64) -> Option<u32> {
        let entry = *self.entries.get(self.slot_of(sum))?;
        if (entry ^ lower_half(sum)) & !self.number_mask == 0 {
            Some(entry & self.number_mask)
        } else {
            None
        }
    }

    fn put(&mut self, sum: u64, number: u32) {
        let slot = self.slot_of(sum);
        if let Some(entry) = self.entries.get_mut(slot) {
            *entry = lower_half(sum) & !self.number_mask | number;
        }
    }
}

// The number of a segment's edge, if the table leads to it.
fn listed_edge(edges: &[Seg], table: &EdgeTable, sum: u64, s: &Seg) -> Option<u32>
    ensures found { IfSome result (λ i. HasEdgeAt edges.now s.now i) }
{
    let i = table.number_at(sum)?;
    edge_at(edges, i, s)
}

// The number of a segment's edge, which is added if neither the edge of the segment before nor the table leads to it.
fn add_edge(
    edges: &mut Vec<Seg>,
    table: &mut EdgeTable,
    last: u32,
    s: &Seg,
) -> Result<u32, AllocError>
    ensures ok { OnOk result (IsEdgeAdded edges.old.items edges.new.items s.now) }
{
    if let Some(i) = edge_beside(edges, last, s) {
        return Ok(i);
    }
    let sum = sum_over(s);
    if let Some(i) = listed_edge(edges, table, sum, s) {
        return Ok(i);
    }
    let i = next_number(edges.len())?;
    table.put(sum, i);
    edges.push(*s)?;
    Ok(i)
}

/// The edges of segments. The numbers are not proved: a wrong one costs time alone.
///
/// A table with two slots for each segment leads to the edges. A slot is the latest edge's that falls on it, so an edge
/// may stand twice.
pub fn edges_of(alloc: Global, segments: &[Seg]) -> Result<Edges, AllocError>
    ensures made { IfOk result (λ found. AreEdgesOf segments.now found.segments.items) }
{
    let mut table = EdgeTable::over(alloc, segments.len())?;
    let mut edges = Vec::with_capacity(alloc, segments.len())?;
    let mut numbers = Vec::with_capacity(alloc, segments.len())?;
    let mut last = 0;
    for s in segments {
        last = add_edge(&mut edges, &mut table, last, s)?;
        numbers.push(last)?;
    }
    Ok(Edges {
        segments: edges,
        numbers,
    })
}
