//! What a run means: its state and steps with their refusals, its outputs and their texts, its outcome, and what it
//! leaves outside. Definitions alone, over those of regions, texts, tables and words; no code of the run is in them.
#![tactic(auto)]

ghost use Rattle.std.specs.Prelude.{◌≡◌, [], ℕ};
ghost use Rattle.region_model.specs.Answers.{Answers, Plane};
ghost use Rattle.chain_model.specs.Outcome.{done};
ghost use Rattle.chain_model.specs.State.{State};
ghost use Rattle.chain_model.specs.Targets.{SourceLayers};
ghost use Rattle.chain_model.specs.Running.{run_from};

/// A chain without commands is done, and writes nothing.
pub fn no_commands_are_done()
    ensures holds { (P : Plane) (A : Answers) (sources : SourceLayers) (n : ℕ) (s : State) → run_from P A sources n s [] ≡ ([], done) }
{}
