ghost use Rattle.std.specs.Prelude.{◌≡◌, ◌<◌, ◌/◌, ◌^◌, true, pos, List, Some, IfSome, if◌then◌else◌, length, slice_get};
ghost use Rattle.std.specs.List.Sorted.{IsPermutation, IsSorted};
ghost use Rattle.plane_model.specs.Points.{Segment, reversed};
ghost use Rattle.arc_table.specs.StepCodes.{step_of, steps_of, AreCodes};
ghost use Rattle.arc_table.specs.Steps.{step_cmp, IsPlace};

use crate::half_links::Step;
use grid_base::{Link, Pt};
use std::marker::Model;

/// Fewer than 2^32 steps along links, one after another: for each the number of its link and its direction. Contracts
/// see the steps.
#[derive(Drop)]
pub struct StepList<'a> {
    links: &'a [Link],
    // twice the number of a link, and one more where the step goes down from its greater end
    codes: Vec<u32>,
}

impl<'a> Model for StepList<'a> {
    ghost use Rattle.std.specs.Prelude.{List, ◌<◌, ◌^◌, length};
    ghost use Rattle.plane_model.specs.Points.{Segment};
    ghost use Rattle.arc_table.specs.StepCodes.{steps_of, AreCodes};

    ghost Value = { List Segment };

    ghost view = { λ s. steps_of s.links.now s.codes.items };

    ghost invariant = { λ s. AreCodes s.links.now s.codes.items × (length s.codes.items < 2 ^ 32) };
}

impl<'a> StepList<'a> {
    /// The steps that have these codes, in order. Takes no memory.
    pub fn in_order(links: &'a [Link], codes: Vec<u32>) -> StepList<'a>
        requires there { AreCodes links.now codes.items }
        requires few { length codes.items < 2 ^ 32 }
        ensures same { IsPermutation (steps_of links.now codes.items) result }
        ensures sorted { IsSorted step_cmp result }
    {
        let mut sorted = codes;
        sorted.sort_unstable_by_key(|code| step_or_none(links, *code));
        StepList {
            links,
            codes: sorted,
        }
    }

    /// How many steps there are.
    #[inline(always)]
    pub fn len(&self) -> usize
        ensures exact { result ≡ length self.now }
    {
        self.codes.len()
    }

    /// The step at this place, counted from 0.
    #[inline(always)]
    pub fn at(&self, h: usize) -> Step
        requires here { h < length self.now }
        ensures exact { slice_get self.now h ≡ Some result }
        ensures few { length self.now < 2 ^ 32 }
    {
        step_of(self.links, self.codes[h])
    }

    /// The step at this place, counted from 0; `None` past the end.
    #[inline(always)]
    pub fn get(&self, h: usize) -> Option<Step>
        ensures exact { result ≡ slice_get self.now h }
    {
        match self.codes.get(h) {
            Some(code) => Some(step_of(self.links, *code)),
            None => None,
        }
    }

    /// Whether the step at `k` is the step back of the one at `h`, told by the number of its link: no past the end.
    #[inline(always)]
    pub fn goes_back(&self, h: usize, k: usize) -> bool
        requires here { h < length self.now }
        ensures yes { result ≡ true → (s : Segment) → slice_get self.now h ≡ Some s → slice_get self.now k ≡ Some (reversed s) }
        ensures there { result ≡ true → k < length self.now }
    {
        match self.codes.get(k) {
            Some(code) => are_of_one_link(self.codes[h], *code),
            None => false,
        }
    }

    /// The number of the link that the step at a place goes along, in the order of the links, and past the end
    /// `u32::MAX`. It is not proved.
    pub fn link_at(&self, h: u32) -> u32 {
        match self.codes.get(h as usize) {
            Some(code) => *code / 2,
            None => u32::MAX,
        }
    }

    /// The place of a step; `None` where it isn't there.
    ///
    /// Cost: a binary search.
    pub fn place_of(&self, step: Step) -> Option<usize>
        requires sorted { IsSorted step_cmp self.now }
        ensures exact { IsPlace self.now step result }
        ensures there { IfSome result (λ h. h < length self.now) }
    {
        place_among(self.links, &self.codes, step)
    }
}

// The place of a step among those that have these codes, in order.
fn place_among(links: &[Link], codes: &[u32], step: Step) -> Option<usize>
    requires sorted { IsSorted step_cmp (steps_of links.now codes.now) }
    ensures exact { IsPlace (steps_of links.now codes.now) step result }
    ensures there { IfSome result (λ h. h < length codes.now) }
{
    match codes.binary_search_by_key(&step, |code| step_or_none(links, *code)) {
        Ok(h) => Some(h),
        Err(_) => None,
    }
}

// The two codes are those of both steps along one link.
#[tactic(auto, using(crate::proofs::StepMerge::back_of_code))]
#[inline(always)]
fn are_of_one_link(code: u32, other: u32) -> bool
    ensures yes { result ≡ true → (links : List Segment) → step_of links other ≡ reversed (step_of links code) }
{
    code / 2 == other / 2 && code != other
}

// The step with a code, which is of a link that is there.
#[inline(always)]
fn step_of(links: &[Link], code: u32) -> Step
    requires there { code / 2 < length links.now }
    ensures exact { result ≡ step_of links.now code }
{
    step_along(links[(code / 2) as usize], code % 2 == 0)
}

// The step with a code, where a code of no link stands for a step that stands still.
fn step_or_none(links: &[Link], code: u32) -> Step
    ensures exact { result ≡ step_of links.now code }
{
    match links.get((code / 2) as usize) {
        Some(link) => step_along(*link, code % 2 == 0),
        None => standing_step(),
    }
}

fn standing_step() -> Step
    ensures exact { result ≡ record { start = record { x = pos 0; y = pos 0 }; stop = record { x = pos 0; y = pos 0 } } }
{
    let origin = Pt::new(0, 0).unwrap();
    Step::new(origin, origin)
}

// The step up along a link, or down.
#[inline(always)]
fn step_along(link: Link, is_up: bool) -> Step
    ensures exact { result ≡ (if is_up then link else reversed link) }
{
    if is_up {
        Step::new(link.low(), link.high())
    } else {
        Step::new(link.high(), link.low())
    }
}
