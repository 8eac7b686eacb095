ghost use Rattle.std.specs.Prelude.{◌≡◌, ◌≤◌, IfErr, IfOk, None, false, length, map, true};
ghost use Rattle.run_state.specs.OnPlane.{AreHeldOn};
ghost use Rattle.run_state.specs.Origins.{base_of};
ghost use Rattle.run_state.specs.Stops.{StopsAs, StopsFor};
ghost use Rattle.run_state.specs.Targets.{has_target, placed};
ghost use Rattle.run_steps.specs.Commands.{ChangesEach, ChangesTogether};
ghost use Rattle.run_checks.specs.Checks.{refused_for_origin};
ghost use Rattle.run_steps.specs.Refusals.{FailsEach, RefusesEach, failed_together, most_layers, refusal_together, refused_count};

use crate::outputs::{each_outputs, joint_output};
use job_terms::{Command, JointAction, LayerAction};
use run_checks::{check_each, check_together};
use run_plane::Layer;
use run_state::{Base, CommandStop, HeldLayer, RefuseWhy, State, placed};
use std::alloc::Global;

/// The most layers that a command may leave.
const MAX_LAYERS: usize = 1_000;

/// The state after a command that changes each layer of its target by itself.
///
/// Errors: the first refusal, of the target, the origin, the kinds of the layers, a layer in order, or of too many
/// layers; and `Memory`.
#[tactic(auto, using(crate::proofs::Refusals::past, crate::proofs::Refusals::stops_at_first, crate::proofs::Refusals::stops_after))]
pub fn changed_each(
    alloc: Global,
    base: &Base<'_>,
    command: &Command,
    action: &LayerAction,
    state: State,
) -> Result<State, CommandStop>
    requires on { AreHeldOn base.now.plane.now state.layers.items }
    ensures changes { IfOk result (λ after. ChangesEach (base_of base.now) command.now action.now state.layers.items after.layers.items) }
    ensures on { IfOk result (λ after. AreHeldOn base.now.plane.now after.layers.items) }
    ensures there { IfOk result (λ after. has_target command.now.target state.layers.items ≡ true) }
    ensures absent { has_target command.now.target state.layers.items ≡ false → result ≡ Err (CommandStop.Refused RefuseWhy.NoLayer) }
    ensures accepted { IfOk result (λ after. RefusesEach (base_of base.now) state.layers.items command.now action.now None) }
    ensures stops { IfErr result (StopsAs (RefusesEach (base_of base.now) state.layers.items command.now action.now)) }
{
    check_each(&state.layers, base.sources, &command.target, action)?;
    each_changed(alloc, base, command, action, state)
}

/// The state after a command that changes the layers of its target together.
///
/// Errors: the first refusal, of the target, the kinds of the layers, their number, their tables, or of too many
/// layers; and `Memory`.
#[tactic(auto, using(run_state::proofs::Stops::stops_second))]
pub fn changed_together(
    alloc: Global,
    base: &Base<'_>,
    command: &Command,
    action: &JointAction,
    state: State,
) -> Result<State, CommandStop>
    requires on { AreHeldOn base.now.plane.now state.layers.items }
    ensures changes { IfOk result (λ after. ChangesTogether (base_of base.now) command.now action.now state.layers.items after.layers.items) }
    ensures on { IfOk result (λ after. AreHeldOn base.now.plane.now after.layers.items) }
    ensures there { IfOk result (λ after. has_target command.now.target state.layers.items ≡ true) }
    ensures absent { has_target command.now.target state.layers.items ≡ false → result ≡ Err (CommandStop.Refused RefuseWhy.NoLayer) }
    ensures accepted { IfOk result (λ after. refusal_together state.layers.items command.now action.now ≡ None) }
    ensures stops { IfErr result (StopsFor (refusal_together state.layers.items command.now action.now)) }
{
    check_together(&state.layers, &command.target, action)?;
    together_changed(alloc, base, command, action, state)
}

fn each_changed(
    alloc: Global,
    base: &Base<'_>,
    command: &Command,
    action: &LayerAction,
    state: State,
) -> Result<State, CommandStop>
    requires sourced { refused_for_origin (base_of base.now).sources state.layers.items action.now ≡ None }
    requires on { AreHeldOn base.now.plane.now state.layers.items }
    ensures changes { IfOk result (λ after. ChangesEach (base_of base.now) command.now action.now state.layers.items after.layers.items) }
    ensures on { IfOk result (λ after. AreHeldOn base.now.plane.now after.layers.items) }
    ensures accepted { IfOk result (λ after. FailsEach (base_of base.now) state.layers.items command.now action.now None) }
    ensures stops { IfErr result (StopsAs (FailsEach (base_of base.now) state.layers.items command.now action.now)) }
{
    let outputs = each_outputs(alloc, base, &state.layers, command, action)?;
    put_out(alloc, state.layers, command, outputs)
}

#[tactic(auto, using(run_state::proofs::Stops::stops_first))]
fn together_changed(
    alloc: Global,
    base: &Base<'_>,
    command: &Command,
    action: &JointAction,
    state: State,
) -> Result<State, CommandStop>
    requires there { has_target command.now.target state.layers.items ≡ true }
    requires on { AreHeldOn base.now.plane.now state.layers.items }
    ensures changes { IfOk result (λ after. ChangesTogether (base_of base.now) command.now action.now state.layers.items after.layers.items) }
    ensures on { IfOk result (λ after. AreHeldOn base.now.plane.now after.layers.items) }
    ensures accepted { IfOk result (λ after. failed_together state.layers.items command.now action.now ≡ None) }
    ensures stops { IfErr result (StopsFor (failed_together state.layers.items command.now action.now)) }
{
    let outputs = joint_output(alloc, base, &state.layers, command, action)?;
    put_out(alloc, state.layers, command, outputs)
}

// The layers with those that the command puts out for each.
#[tactic(auto, using(crate::proofs::Refusals::too_many, crate::proofs::Refusals::few_enough))]
fn put_out(
    alloc: Global,
    layers: Vec<HeldLayer>,
    command: &Command,
    outputs: Vec<Vec<Layer>>,
) -> Result<State, CommandStop>
    ensures placed { IfOk result (λ after. after.layers.items ≡ placed command.now layers.items (map (λ out. out.items) outputs.items)) }
    ensures few { IfOk result (λ after. length after.layers.items ≤ most_layers) }
    ensures accepted { IfOk result (λ after. refused_count (length (placed command.now layers.items (map (λ out. out.items) outputs.items))) ≡ None) }
    ensures stops { IfErr result (StopsFor (refused_count (length (placed command.now layers.items (map (λ out. out.items) outputs.items))))) }
{
    let layers = placed(alloc, layers, command, outputs)?;
    if layers.len() > MAX_LAYERS {
        return Err(CommandStop::Refused(RefuseWhy::TooManyLayers));
    }
    Ok(State { layers })
}
