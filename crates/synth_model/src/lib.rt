//! What `synth` makes and tells: the draws of its seed, the cells of its mosaic, and its line of numbers. Definitions
//! alone.
#![tactic(auto)]

ghost use Rattle.std.specs.Prelude.{◌≡◌, ℕ};
ghost use Rattle.synth_model.specs.Draws.{state_after};

/// Before any draw the state is the seed.
pub fn state_begins_with_the_seed()
    ensures holds { (seed : ℕ) → state_after seed 0 ≡ seed }
{}
