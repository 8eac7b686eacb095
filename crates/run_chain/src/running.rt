ghost use Rattle.std.specs.Prelude.{◌≤◌, ◌+◌, ◌^◌, ◌<◌, IfOk, length, map};
ghost use Rattle.grid_base.specs.Grid.{most_places};
ghost use Rattle.run_plane.specs.OnPlane.{AreLayersOn};
ghost use Rattle.run_sources.specs.Sources.{sources_seen};
ghost use Rattle.run_state.specs.OnPlane.{AreHeldOn};
ghost use Rattle.run_state.specs.Origins.{base_of};
ghost use Rattle.run_outcome.specs.Telling.{TellsOutcome, stream_seen};
ghost use Rattle.run_chain.specs.Effects.{outside_seen};
ghost use Rattle.run_chain.specs.Running.{StepMeans, CommandsRun, BegunRuns, ChainRuns, SynthRuns, WordsRun};

use crate::writing::write_text;
use cmd_words::read_chain;
use io_core::{Failed, Files, Sink, Source, Words, write_whole};
use job_terms::{Action, Chain, Command, Job};
use run_beginning::{Begun, begin};
use run_outcome::{Outcome, tell};
use run_sources::read_sources;
use run_state::{Base, State};
use run_steps::{changed_each, changed_together};
use run_synth::synth_line;
use run_texts::output_text;
use std::alloc::Global;

/// Does what the words ask for: reads the sources, runs the commands in order, and writes the outputs.
///
/// Errors: the outcome says why a run stopped. Nothing is written before all sources are read and accepted; a text is
/// whole before its first byte is written. One line on each outcome other than `Done` goes to `messages`.
pub fn run<F: Files, I: Source, K: Sink, M: Sink>(
    alloc: Global,
    words: &Words,
    files: &mut F,
    input: &mut I,
    output: &mut K,
    messages: &mut M,
) -> Outcome
    ensures means { WordsRun words.now
        (sources_seen F.Files I.Source files.old input.old)
        (sources_seen F.Files I.Source files.new input.new)
        (outside_seen F.Files K.Sink files.old output.old)
        (outside_seen F.Files K.Sink files.new output.new) result }
    ensures told { TellsOutcome result (stream_seen M.Sink messages.old) (stream_seen M.Sink messages.new) }
{
    let outcome = run_words(alloc, words, files, input, output);
    tell(messages, &outcome);
    outcome
}

#[tactic(auto, using(crate::proofs::Refused::reads_words))]
fn run_words<F: Files, I: Source, K: Sink>(
    alloc: Global,
    words: &Words,
    files: &mut F,
    input: &mut I,
    output: &mut K,
) -> Outcome
    ensures means { WordsRun words.now
        (sources_seen F.Files I.Source files.old input.old)
        (sources_seen F.Files I.Source files.new input.new)
        (outside_seen F.Files K.Sink files.old output.old)
        (outside_seen F.Files K.Sink files.new output.new) result }
{
    match read_chain(alloc, words) {
        Ok(Job::Chain(chain)) => run_chain(alloc, &chain, files, input, output),
        Ok(Job::Synth { seed, n }) => run_synth(alloc, seed, n, output),
        Err(fault) => Outcome::of_words(fault),
    }
}

// Writes the line of a made-up mosaic to the standard stream.
fn run_synth<K: Sink>(alloc: Global, seed: u32, n: u32, output: &mut K) -> Outcome
    requires few { n ≤ 300 }
    ensures ran { SynthRuns seed n (stream_seen K.Sink output.old) (stream_seen K.Sink output.new) result }
{
    match synth_line(alloc, seed, n) {
        Ok(line) => match write_whole(output, line.as_bytes()) {
            Ok(()) => Outcome::Done,
            Err(Failed) => Outcome::WriteFault { command: 1 },
        },
        Err(fault) => Outcome::of_drawing(fault),
    }
}

fn run_chain<F: Files, I: Source, K: Sink>(
    alloc: Global,
    chain: &Chain,
    files: &mut F,
    input: &mut I,
    output: &mut K,
) -> Outcome
    requires { chain.now.places ≤ most_places }
    ensures runs { ChainRuns chain.now
        (sources_seen F.Files I.Source files.old input.old)
        (sources_seen F.Files I.Source files.new input.new)
        (outside_seen F.Files K.Sink files.old output.old)
        (outside_seen F.Files K.Sink files.new output.new) result }
{
    let sources = match read_sources(alloc, chain.places, chain.sources.as_slice(), files, input) {
        Ok(sources) => sources,
        Err(fault) => return Outcome::of_sources(fault),
    };
    match begin(alloc, sources, &chain.boxes) {
        Ok(begun) => run_begun(alloc, chain, begun, files, output),
        Err(fault) => Outcome::of_drawing(fault),
    }
}

// Runs the commands over what the sources gave.
fn run_begun<F: Files, K: Sink>(
    alloc: Global,
    chain: &Chain,
    begun: Begun,
    files: &mut F,
    output: &mut K,
) -> Outcome
    requires places { chain.now.places ≤ most_places }
    requires on { AreLayersOn begun.plane begun.layers.items }
    ensures ran { BegunRuns (record { places = chain.now.places; plane = begun.plane; sources = map (λ own. own.items) begun.sources.items }) begun.layers.items chain.now.commands
        (outside_seen F.Files K.Sink files.old output.old)
        (outside_seen F.Files K.Sink files.new output.new) result }
{
    let Begun {
        plane,
        layers,
        sources,
    } = begun;
    let base = Base {
        places: chain.places,
        plane: &plane,
        sources: &sources,
    };
    match State::new(alloc, layers) {
        Ok(state) => run_commands(
            alloc,
            &base,
            0,
            chain.commands.as_slice(),
            state,
            files,
            output,
        ),
        Err(_) => Outcome::Memory,
    }
}

// Runs the commands that follow `done` others.
fn run_commands<F: Files, K: Sink>(
    alloc: Global,
    base: &Base<'_>,
    done: u32,
    commands: &[Command],
    state: State,
    files: &mut F,
    output: &mut K,
) -> Outcome
    requires places { base.now.places ≤ most_places }
    requires few { done + length commands.now < 2 ^ 32 }
    requires on { AreHeldOn base.now.plane.now state.layers.items }
    ensures ran { CommandsRun (base_of base.now) done state.layers.items commands.now
        (outside_seen F.Files K.Sink files.old output.old)
        (outside_seen F.Files K.Sink files.new output.new) result }
{
    let [command, rest @ ..] = commands else {
        return Outcome::Done;
    };
    match step(alloc, base, done + 1, command, state, files, output) {
        Ok(state) => run_commands(alloc, base, done + 1, rest, state, files, output),
        Err(outcome) => outcome,
    }
}

// The state after a command, or the outcome of the run that it stops.
fn step<F: Files, K: Sink>(
    alloc: Global,
    base: &Base<'_>,
    number: u32,
    command: &Command,
    state: State,
    files: &mut F,
    output: &mut K,
) -> Result<State, Outcome>
    requires places { base.now.places ≤ most_places }
    requires on { AreHeldOn base.now.plane.now state.layers.items }
    ensures means { StepMeans (base_of base.now) number command.now state.layers.items
        (outside_seen F.Files K.Sink files.old output.old)
        (outside_seen F.Files K.Sink files.new output.new) result }
    ensures on { IfOk result (λ state. AreHeldOn base.now.plane.now state.layers.items) }
{
    match &command.action {
        Action::Write { to, standard, form } => {
            match output_text(alloc, base, &state.layers, &command.target, *form) {
                Ok(text) => match write_text(files, output, *standard, to.as_str(), &text) {
                    Ok(()) => Ok(state),
                    Err(Failed) => Err(Outcome::WriteFault { command: number }),
                },
                Err(stop) => Err(Outcome::of_command(number, stop)),
            }
        }
        Action::Each(action) => match changed_each(alloc, base, command, action, state) {
            Ok(state) => Ok(state),
            Err(stop) => Err(Outcome::of_command(number, stop)),
        },
        Action::Together(action) => match changed_together(alloc, base, command, action, state) {
            Ok(state) => Ok(state),
            Err(stop) => Err(Outcome::of_command(number, stop)),
        },
    }
}
