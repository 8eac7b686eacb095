ghost use Rattle.std.specs.Prelude.{◌≡◌, ◌⊎◌, ◌-◌, ◌<◌, ◌≤◌, [], true, false, All, IfOk, List, OnOk, Some, filter, length, nat_eq, nat_lt, slice_get, slice_index_or};
ghost use Rattle.std.specs.List.Sorted.{IsNonDecreasing, IsNonDecreasingBy, IsPartitionPoint, IsStrictlyIncreasing};
ghost use Rattle.plane_model.specs.Drawing.{Drawing};
ghost use Rattle.plane_model.specs.Points.{Path};
ghost use Rattle.face_walk.specs.Holders.{AreAcross, AreHeldBy, AreHolders, AreOddOnes, AreOwnersOf, AreOwnersOfEach, IsFlipped, IsPut, list_at};
ghost use Rattle.face_walk.specs.PathSteps.{AreAllStepsOf};
ghost use Rattle.face_walk.specs.Places.{IsBuiltOf};
ghost use Rattle.face_walk.specs.Crossings.{AreCrossings, outer_of};

use crate::crossings::{Crossing, crossings_of};
use crate::face_lists::FaceLists;
use crate::faces::Faces;
use crate::ring_steps::{PathSteps, RingStep, steps_along};
use crate::side_places::start_at;
use arc_table::ArcTable;
use grid_base::{ArcId, FaceId, FeatId, Snapped, next_number};
use std::alloc::{AllocError, Global};
use std::marker::Model;

/// The polygon features and the boxes that hold each face.
#[derive(Drop)]
pub struct Labels {
    holders: FaceLists<FeatId>,
    boxes: FaceLists<u32>,
}

impl Model for Labels {
    ghost use Rattle.face_walk.specs.Holders.{HolderTable};

    ghost Value = { HolderTable };

    ghost view = { λ l. record { holders = l.holders; boxes = l.boxes } };
}

impl Labels {
    /// The holders of the faces of a table, from the rings and boxes of the drawing that it was built of.
    ///
    /// A feature holds a face that some polygon of it holds, and a polygon one from whose points it is left after
    /// an odd number of crossings of its rings.
    pub fn of(alloc: Global, t: &ArcTable, f: &Faces, s: &Snapped) -> Result<Labels, AllocError>
        requires built { IsBuiltOf t.now f.now }
        ensures exact { IfOk result (AreHolders t.now s.now f.now) }
        ensures outer_free { IfOk result (λ l. (list_at l.holders (outer_of f.now) ≡ []) × (list_at l.boxes (outer_of f.now) ≡ [])) }
        ensures holders_each { IfOk result (λ l. length l.holders ≡ f.now.count) }
        ensures boxes_each { IfOk result (λ l. length l.boxes ≡ f.now.count) }
    {
        let steps = PathSteps::of(alloc, t, s.paths())?;
        Labels::of_steps(alloc, f, steps)
    }

    /// The same from the steps along the arcs of the table alone, each list of which is let go once it has served.
    pub fn of_steps(alloc: Global, f: &Faces, steps: PathSteps) -> Result<Labels, AllocError>
        ensures exact { (t : List Path) (s : Drawing) → IsBuiltOf t f.now → AreAllStepsOf t s steps → IfOk result (AreHolders t s f.now) }
        ensures outer_free { IfOk result (λ l. (list_at l.holders (outer_of f.now) ≡ []) × (list_at l.boxes (outer_of f.now) ≡ [])) }
        ensures holders_each { IfOk result (λ l. length l.holders ≡ f.now.count) }
        ensures boxes_each { IfOk result (λ l. length l.boxes ≡ f.now.count) }
    {
        let PathSteps {
            polygon_steps,
            owners,
            box_steps,
        } = steps;
        let crossings = crossings_of(alloc, f)?;
        let polygons = held_lists(alloc, f, &crossings, &polygon_steps)?;
        drop(polygon_steps);
        let holders = owner_lists(alloc, f.count(), &owners, &polygons)?;
        drop(polygons);
        drop(owners);
        let boxes = held_lists(alloc, f, &crossings, &box_steps)?;
        Ok(Labels { holders, boxes })
    }

    /// The polygon features that hold a face, ascending. Takes no memory.
    pub fn holders(&self, f: FaceId) -> &[FeatId]
        requires { f < length self.now.holders }
        ensures exact { result.now ≡ slice_index_or self.now.holders f [] }
    {
        self.holders.at(f)
    }

    /// The boxes that hold a face, ascending. Takes no memory.
    pub fn boxes(&self, f: FaceId) -> &[u32]
        requires { f < length self.now.boxes }
        ensures exact { result.now ≡ slice_index_or self.now.boxes f [] }
    {
        self.boxes.at(f)
    }
}

// For each face the items that hold it, ascending: none at first, as for the outer face, and then face by face.
fn held_lists(
    alloc: Global,
    f: &Faces,
    crossings: &[Crossing],
    steps: &[RingStep],
) -> Result<FaceLists<u32>, AllocError>
    requires crossings { AreCrossings f.now crossings.now }
    requires by_arc { IsNonDecreasingBy (λ s. s.arc) steps.now }
    ensures held { IfOk result (AreHeldBy steps.now (outer_of f.now) crossings.now) }
    ensures rising { IfOk result (All IsStrictlyIncreasing) }
    ensures each { IfOk result (λ lists. length lists ≡ f.now.count) }
{
    let mut held: FaceLists<u32> = FaceLists::empty(alloc, f.count())?;
    if steps.is_empty() {
        return Ok(held);
    }
    let starts = starts_of(alloc, steps)?;
    let mut items = Vec::new(alloc);
    for c in crossings {
        let along = run_along(steps, &starts, c.arc);
        list_across(alloc, &mut items, held.at(c.from), along)?;
        held.put(c.into, &items)?;
    }
    Ok(held)
}

// For each arc the place of its first step, or of the next one: a guess, and a wrong one costs time alone.
fn starts_of(alloc: Global, steps: &[RingStep]) -> Result<Vec<u32>, AllocError> {
    let mut starts = Vec::new(alloc);
    for (place, step) in steps.iter().enumerate() {
        let number = next_number(place)?;
        starts.resize((step.arc.num() as usize).saturating_add(1), number)?;
    }
    starts.push(next_number(steps.len())?)?;
    Ok(starts)
}

// The steps along one arc, looked for first where they are guessed to begin and to end.
fn run_along<'a>(steps: &'a [RingStep], starts: &[u32], arc: ArcId) -> &'a [RingStep]
    requires by_arc { IsNonDecreasingBy (λ s. s.arc) steps.now }
    ensures exact { result.now ≡ filter (λ s. nat_eq s.arc arc) steps.now }
{
    let first = start_at(starts, arc.num());
    let stop = start_at(starts, arc.num().wrapping_add(1));
    if begins_at(steps, first, arc) && ends_at(steps, stop, arc) && first <= stop {
        &steps[first..stop]
    } else {
        steps_along(steps, arc)
    }
}

// Whether the first step along an arc stands at a place.
fn begins_at(steps: &[RingStep], first: usize, arc: ArcId) -> bool
    requires by_arc { IsNonDecreasingBy (λ s. s.arc) steps.now }
    ensures there { result ≡ true → first < length steps.now }
    ensures parted { result ≡ true → IsPartitionPoint (λ s. nat_lt s.arc arc ≡ true) (λ s. nat_lt s.arc arc ≡ false) steps.now first }
{
    if first >= steps.len() {
        return false;
    }
    if steps[first].arc.num() != arc.num() {
        return false;
    }
    if first == 0 {
        return true;
    }
    steps[first - 1].arc.num() != arc.num()
}

// Whether the last step along an arc stands before a place.
fn ends_at(steps: &[RingStep], stop: usize, arc: ArcId) -> bool
    requires by_arc { IsNonDecreasingBy (λ s. s.arc) steps.now }
    ensures there { result ≡ true → stop ≤ length steps.now }
    ensures parted { result ≡ true → IsPartitionPoint (λ s. nat_lt arc s.arc ≡ false) (λ s. nat_lt arc s.arc ≡ true) steps.now stop }
{
    if stop == 0 || steps.len() < stop {
        return false;
    }
    if steps[stop - 1].arc.num() != arc.num() {
        return false;
    }
    if stop == steps.len() {
        return true;
    }
    steps[stop].arc.num() != arc.num()
}

// Makes `items` those that hold a face across an arc from a face that `held` holds: those that are in one of the two
// lists, or that step along the arc an even number of times and are in `held`.
//
// Both lists are gone through at once, so that numbers come in order where those of the steps do.
fn list_across(
    alloc: Global,
    items: &mut Vec<u32>,
    held: &[u32],
    steps: &[RingStep],
) -> Result<(), AllocError>
    ensures exact { OnOk result (AreAcross steps.now held.now items.new.items) }
{
    items.clear();
    let count = held.len() + steps.len();
    let (mut i, mut j) = (0, 0);
    for _number in 0..count {
        if is_next(held, i, steps, j) {
            flip(alloc, items, held[i])?;
            i += 1;
        } else {
            flip(alloc, items, steps[j].item)?;
            j += 1;
        }
    }
    Ok(())
}

// Whether the number at `i` comes before the step at `j`, or there is no such step.
fn is_next(held: &[u32], i: usize, steps: &[RingStep], j: usize) -> bool
    ensures yes { result ≡ true → i < length held.now }
    ensures no { result ≡ false → (length held.now ≤ i) ⊎ (j < length steps.now) }
{
    if i >= held.len() {
        false
    } else if j >= steps.len() {
        true
    } else {
        held[i] <= steps[j].item
    }
}

// Puts a number into a rising list, or takes it out where it is there.
fn flip(alloc: Global, items: &mut Vec<u32>, n: u32) -> Result<(), AllocError>
    requires rising { IsStrictlyIncreasing items.old.items }
    ensures flipped { OnOk result (IsFlipped items.old.items n items.new.items) }
{
    if ends_above(items, n) {
        flip_inside(alloc, items, n)
    } else {
        flip_number(items, n)
    }
}

fn ends_above(numbers: &[u32], n: u32) -> bool
    requires rising { IsStrictlyIncreasing numbers.now }
    ensures no { result ≡ false → All (λ m. m ≤ n) numbers.now }
{
    match numbers.last() {
        Some(last) => *last > n,
        None => false,
    }
}

// Puts a number into a list, or takes it out where it is there. No number comes out of order where steps are in the
// order of their items too.
fn flip_inside(alloc: Global, items: &mut Vec<u32>, n: u32) -> Result<(), AllocError>
    ensures flipped { OnOk result (IsFlipped items.old.items n items.new.items) }
{
    items.push(n)?;
    items.sort_unstable();
    *items = odd_ones(alloc, items)?;
    Ok(())
}

// Of numbers in order, those that stand an odd number of times, each once.
fn odd_ones(alloc: Global, sorted: &[u32]) -> Result<Vec<u32>, AllocError>
    requires sorted { IsNonDecreasing sorted.now }
    ensures exact { IfOk result (λ v. AreOddOnes sorted.now v.items) }
{
    let mut odd = Vec::with_capacity(alloc, sorted.len())?;
    for n in sorted {
        flip_number(&mut odd, *n)?;
    }
    Ok(odd)
}

// Adds a number after lesser ones, or takes it away where it is there.
fn flip_number(odd: &mut Vec<u32>, n: u32) -> Result<(), AllocError>
    requires rising { IsStrictlyIncreasing odd.old.items }
    requires low { All (λ m. m ≤ n) odd.old.items }
    ensures flipped { OnOk result (IsFlipped odd.old.items n odd.new.items) }
{
    if ends_in(odd, n) {
        odd.pop();
    } else {
        odd.push(n)?;
    }
    Ok(())
}

fn ends_in(numbers: &[u32], n: u32) -> bool
    ensures yes { result ≡ true → slice_get numbers.now (length numbers.now - 1) ≡ Some n }
    ensures no { result ≡ false → slice_get numbers.now (length numbers.now - 1) ≡ Some n → ⊥ }
{
    match numbers.last() {
        Some(last) => *last == n,
        None => false,
    }
}

// The features of polygons, for each face.
fn owner_lists(
    alloc: Global,
    count: u32,
    owners: &[FeatId],
    polygons: &FaceLists<u32>,
) -> Result<FaceLists<FeatId>, AllocError>
    requires owners { IsNonDecreasing owners.now }
    requires rising { All IsStrictlyIncreasing polygons.now }
    requires each { length polygons.now ≡ count }
    ensures exact { IfOk result (AreOwnersOfEach owners.now count polygons.now) }
    ensures each { IfOk result (λ lists. length lists ≡ count) }
{
    let mut lists: FaceLists<FeatId> = FaceLists::empty(alloc, count)?;
    let mut features = Vec::new(alloc);
    for number in 0..count {
        let face = FaceId::new(number);
        list_owners(&mut features, owners, polygons.at(face))?;
        lists.put(face, &features)?;
    }
    Ok(lists)
}

// Makes `features` those of rising polygons, each once.
fn list_owners(
    features: &mut Vec<FeatId>,
    owners: &[FeatId],
    items: &[u32],
) -> Result<(), AllocError>
    requires owners { IsNonDecreasing owners.now }
    requires rising { IsStrictlyIncreasing items.now }
    ensures exact { OnOk result (AreOwnersOf owners.now items.now features.new.items) }
{
    features.clear();
    for i in items {
        if let Some(owner) = owner_of(owners, *i) {
            put_owner(features, owner)?;
        }
    }
    Ok(())
}

fn owner_of(owners: &[FeatId], i: u32) -> Option<FeatId>
    ensures exact { result ≡ slice_get owners.now i }
{
    owners.get(i as usize).copied()
}

// Adds a feature after lesser ones where it is not there.
fn put_owner(features: &mut Vec<FeatId>, owner: FeatId) -> Result<(), AllocError>
    requires rising { IsStrictlyIncreasing features.old.items }
    requires low { All (λ m. m ≤ owner) features.old.items }
    ensures put { OnOk result (IsPut features.old.items owner features.new.items) }
{
    if !ends_in_feature(features, owner) {
        features.push(owner)?;
    }
    Ok(())
}

fn ends_in_feature(features: &[FeatId], f: FeatId) -> bool
    ensures yes { result ≡ true → slice_get features.now (length features.now - 1) ≡ Some f }
    ensures no { result ≡ false → slice_get features.now (length features.now - 1) ≡ Some f → ⊥ }
{
    match features.last() {
        Some(last) => last.num() == f.num(),
        None => false,
    }
}
