ghost use Rattle.std.specs.Prelude.{◌≡◌, ◌≢◌, ◌+◌, ◌<◌, ◌≤◌, ◌^◌, ◌-◌, ◌++◌, true, false, All, IfOk, OnOk, OnSome, IfSome, None, length, slice_get, slice_index, vec_len, map};
ghost use Rattle.plane_model.specs.Points.{GridPoint, Segment, reversed};
ghost use Rattle.std.specs.List.Sorted.{IsSorted};
ghost use Rattle.grid_base.specs.Order.{point_cmp};
ghost use Rattle.arc_table.specs.Steps.{step_cmp, StartsAt, EndsRow, IsRow, AreLinks, AreMutual, AreLed, AreOnward, AreBothWays, NoneTurnsBack, AreProper, AreSteps, IsPlace, HasBoth, AreTwins};

use crate::merging::{Merged, numbers_below, steps_of};
use crate::step_list::StepList;
use grid_base::{LinkList, Pt, has_point, is_same};
use std::alloc::{AllocError, Global};
use std::marker::Model;

/// A step along a link, from one of its ends to the other. Steps are ordered by their start, then by their end.
#[derive(Clone, Copy, PartialEq, Eq, PartialOrd, Ord)]
pub struct Step {
    from: Pt,
    to: Pt,
}

impl Model for Step {
    ghost use Rattle.plane_model.specs.Points.{Segment, reversed};

    ghost Value = { Segment };

    ghost view = { λ s. record { start = s.from; stop = s.to } };

    ghost inverse = { λ s. record { from = s.start; to = s.stop } };
}

impl Step {
    /// The step from one point to another; equal points are taken too.
    pub fn new(from: Pt, to: Pt) -> Step
        ensures made { result ≡ record { start = from; stop = to } }
    {
        Step { from, to }
    }

    /// The point at which it starts.
    pub fn from(&self) -> Pt
        ensures exact { result ≡ self.now.start }
    {
        self.from
    }

    /// The point at which it ends.
    pub fn to(&self) -> Pt
        ensures exact { result ≡ self.now.stop }
    {
        self.to
    }

    /// The step back.
    pub fn back(&self) -> Step
        ensures exact { result ≡ reversed self.now }
    {
        Step {
            from: self.to,
            to: self.from,
        }
    }
}

/// The steps along the links, in order, each with its twin, which goes back, and the step that follows it on its
/// arc: where the arc ends there, the step itself.
#[derive(Drop)]
pub struct Net<'a> {
    pub steps: StepList<'a>,
    pub twins: Vec<u32>,
    pub onward: Vec<u32>,
    ghost few: { length steps < 2 ^ 32 },
    ghost twin_each: { length twins.items ≡ length steps },
    ghost onward_each: { length onward.items ≡ length steps },
    ghost twins_there: { All (λ t. t < length steps) twins.items },
    ghost onward_there: { All (λ t. t < length steps) onward.items },
    ghost sorted: { IsSorted step_cmp steps },
    ghost proper: { AreProper steps },
    ghost twins_back: { AreTwins steps twins.items (length steps) },
    ghost both_ways: { AreBothWays twins.items onward.items (length steps) },
    ghost none_back: { NoneTurnsBack twins.items onward.items (length steps) },
}

impl<'a> Net<'a> {
    /// The steps along the links, where `turns` are in order the vertices that are nodes whatever their number of
    /// links. `by_high` is the order of the links by their greater ends: a wrong one costs time alone.
    pub fn of(
        alloc: Global,
        links: &'a LinkList,
        turns: &[Pt],
        by_high: &[u32],
    ) -> Result<Net<'a>, AllocError>
        requires links { AreLinks links.now }
        requires turns { IsSorted point_cmp turns.now }
        ensures steps { IfOk result (λ n. AreSteps links.now n.steps) }
        ensures on { IfOk result (λ n. AreOnward n.steps n.twins.items turns.now n.onward.items (length n.steps)) }
    {
        let merged = steps_of(alloc, links.as_slice(), by_high)?;
        let guesses = merged.twins(alloc, by_high)?;
        let Merged { steps, .. } = merged;
        let twins = twins_of(alloc, &steps, &guesses)?;
        drop(guesses);
        let onward = onward_of(alloc, &steps, &twins, turns)?;
        Ok(Net {
            steps,
            twins,
            onward,
        })
    }

    /// How many steps there are: fewer than 2^32.
    pub fn step_count(&self) -> usize
        ensures exact { result ≡ length self.now.steps }
        ensures few { result < 2 ^ 32 }
    {
        let _ = &self.twins;
        self.steps.len()
    }

    /// The step at this place, counted from 0.
    pub fn step(&self, h: usize) -> Step
        requires { h < length self.now.steps }
        ensures exact { slice_get self.now.steps h ≡ Some result }
    {
        self.steps.at(h)
    }

    /// The place of the step that goes back.
    pub fn twin(&self, h: usize) -> usize
        requires { h < length self.now.steps }
        ensures exact { result ≡ slice_index self.now.twins.items h }
        ensures back { (s : Segment) → slice_get self.now.steps h ≡ Some s → slice_get self.now.steps result ≡ Some (reversed s) }
        ensures there { result < length self.now.steps }
    {
        self.twins[h] as usize
    }

    /// The place of the step that goes on, or `h` where the arc ends.
    pub fn next(&self, h: usize) -> usize
        requires { h < length self.now.steps }
        ensures exact { result ≡ slice_index self.now.onward.items h }
        ensures there { result < length self.now.steps }
    {
        self.onward[h] as usize
    }
}

// The place of the twin of each step, looked for where `guesses` has it first.
fn twins_of(alloc: Global, steps: &StepList, guesses: &[u32]) -> Result<Vec<u32>, AllocError>
    requires few { length steps.now < 2 ^ 32 }
    requires sorted { IsSorted step_cmp steps.now }
    requires both { HasBoth steps.now }
    ensures back { IfOk result (λ v. AreTwins steps.now v.items (length steps.now)) }
    ensures each { IfOk result (λ v. length v.items ≡ length steps.now) }
    ensures there { IfOk result (λ v. All (λ t. t < length steps.now) v.items) }
{
    let mut twins = Vec::with_capacity(alloc, steps.len())?;
    for h in 0..steps.len() {
        let twin = twin_of(steps, h, guess_at(guesses, h));
        twins.push(twin as u32)?;
    }
    Ok(twins)
}

fn guess_at(guesses: &[u32], h: usize) -> usize {
    match guesses.get(h) {
        Some(guess) => *guess as usize,
        None => usize::MAX,
    }
}

// The place of the twin of step `h`, looked for at `guess` first.
fn twin_of(steps: &StepList, h: usize, guess: usize) -> usize
    requires here { h < length steps.now }
    requires sorted { IsSorted step_cmp steps.now }
    requires both { HasBoth steps.now }
    ensures back { (s : Segment) → slice_get steps.now h ≡ Some s → slice_get steps.now result ≡ Some (reversed s) }
    ensures there { result < length steps.now }
{
    if steps.goes_back(h, guess) {
        return guess;
    }
    match steps.place_of(steps.at(h).back()) {
        Some(twin) => twin,
        None => h,
    }
}

fn stands_at(steps: &StepList, h: usize, step: Step) -> bool
    ensures there { result ≡ true → h < length steps.now }
    ensures found { result ≡ true → slice_get steps.now h ≡ Some step }
{
    match steps.get(h) {
        Some(found) => is_step(found, step),
        None => false,
    }
}

/// Whether two steps are the same.
#[tactic(auto, using(crate::proofs::StepSearch::same_ends, crate::proofs::StepSearch::other_ends))]
pub fn is_step(a: Step, b: Step) -> bool
    ensures same { result ≡ true → a ≡ b }
    ensures other { result ≡ false → a ≢ b }
{
    is_same(a.from(), b.from()) && is_same(a.to(), b.to())
}

/// The place of a step that comes after the one at `last`; `None` where it goes along no link. It is looked for where
/// that one goes on, then beside the step back, which starts where that one ends.
pub fn place_after(net: &Net, last: usize, step: Step) -> Option<usize>
    ensures exact { IsPlace net.now.steps step result }
    ensures there { IfSome result (λ h. h < length net.now.steps) }
{
    if let Some(next) = net.onward.get(last) {
        if stands_at(&net.steps, *next as usize, step) {
            return Some(*next as usize);
        }
    }
    match net.twins.get(last) {
        Some(twin) => place_beside(&net.steps, *twin as usize, step),
        None => net.steps.place_of(step),
    }
}

// The place of a step, looked for beside `near` first.
fn place_beside(steps: &StepList, near: usize, step: Step) -> Option<usize>
    requires sorted { IsSorted step_cmp steps.now }
    ensures exact { IsPlace steps.now step result }
    ensures there { IfSome result (λ h. h < length steps.now) }
{
    for far in 0..4 {
        let (after, before) = (near.saturating_add(far), near.wrapping_sub(far));
        if stands_at(steps, after, step) {
            return Some(after);
        }
        if stands_at(steps, before, step) {
            return Some(before);
        }
    }
    steps.place_of(step)
}

// The place of the step that follows each step on its arc.
fn onward_of(
    alloc: Global,
    steps: &StepList,
    twins: &[u32],
    turns: &[Pt],
) -> Result<Vec<u32>, AllocError>
    requires few { length steps.now < 2 ^ 32 }
    requires each { length twins.now ≡ length steps.now }
    requires mutual { AreMutual twins.now (length steps.now) }
    requires sorted { IsSorted step_cmp steps.now }
    requires turns { IsSorted point_cmp turns.now }
    ensures each { IfOk result (λ v. length v.items ≡ length steps.now) }
    ensures on { IfOk result (λ v. AreOnward steps.now twins.now turns.now v.items (length steps.now)) }
    ensures there { IfOk result (λ v. All (λ t. t < length steps.now) v.items) }
{
    let mut onward = numbers_below(alloc, steps.len())?;
    let mut first = 0;
    for h in 0..steps.len() {
        if !goes_on(steps, h) {
            lead_through(&mut onward, steps, twins, turns, first, h);
            first = h + 1;
        }
    }
    Ok(onward)
}

// The next step starts where step `h` does.
fn goes_on(steps: &StepList, h: usize) -> bool
    requires here { h < length steps.now }
    ensures yes { result ≡ true → (p : GridPoint) → StartsAt steps.now h p → StartsAt steps.now (h + 1) p }
    ensures no { result ≡ false → EndsRow steps.now h }
{
    let from = steps.at(h).from();
    match steps.get(h + 1) {
        Some(next) => starts_from(next, from),
        None => false,
    }
}

#[tactic(auto, using(crate::proofs::Others::starts_yes, crate::proofs::Others::starts_no))]
fn starts_from(step: Step, p: Pt) -> bool
    ensures yes { result ≡ true → step.start ≡ p }
    ensures no { result ≡ false → step.start ≡ p → ⊥ }
{
    is_same(step.from(), p)
}

// Looks at the row of steps from `first` to `last`, all that start at one point: where they are two and no turn is
// there, the step back of each goes on with the other.
fn lead_through(
    onward: &mut Vec<u32>,
    steps: &StepList,
    twins: &[u32],
    turns: &[Pt],
    first: usize,
    last: usize,
)
    requires each { length twins.now ≡ length steps.now }
    requires mutual { AreMutual twins.now (length steps.now) }
    requires turns { IsSorted point_cmp turns.now }
    requires ordered { first ≤ last }
    requires within { last < length steps.now }
    requires row { IsRow steps.now first last }
    requires all { length onward.old.items ≡ length steps.now }
    requires led { AreLed steps.now turns.now twins.now onward.old.items first }
    ensures all { length onward.new.items ≡ length steps.now }
    ensures led { AreLed steps.now turns.now twins.now onward.new.items (last + 1) }
{
    if last - first != 1 || has_point(turns, steps.at(first).from()) {
        return;
    }
    onward[twins[first] as usize] = last as u32;
    onward[twins[last] as usize] = first as u32;
}
