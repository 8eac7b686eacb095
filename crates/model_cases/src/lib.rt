//! The definitions of a run, tried on worked rows: each row is an equation that the kernel computes, in proofs/. The
//! specs have answers of the plane by counting, which these rows alone use.
#![tactic(auto)]

ghost use Rattle.std.specs.Prelude.{◌≡◌, []};
ghost use Rattle.region_model.specs.Answers.{Plane};
ghost use Rattle.region_model.specs.Region.{any_of};
ghost use Rattle.model_cases.specs.Counted.{counted_left};

/// No side of a link belongs to the union of no regions.
pub fn nothing_has_no_side()
    ensures holds { (P : Plane) → counted_left P (any_of []) ≡ (λ l. Rattle.std.specs.Prelude.false) }
{}
