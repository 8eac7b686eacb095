ghost use Rattle.cmd_words.specs.Expressions.{AreRefusals, Refusals};
ghost use Rattle.word_model.specs.Words.{words_say};
ghost use Rattle.chain_model.specs.Headline.{HasCause, IsRunOf};
ghost use Rattle.chain_model.specs.Sources.{AreReadings, Readings};
ghost use Rattle.run_sources.specs.Sources.{sources_seen};
ghost use Rattle.run_outcome.specs.Telling.{TellsOutcome, stream_seen};
ghost use Rattle.run_chain.specs.Effects.{outside_seen};
ghost use Rattle.run_chain.specs.Running.{WordsRun};
ghost use Rattle.headline_laws.specs.Outcomes.{outcome_as};
ghost use Rattle.ms_chain.specs.Seen.{counts_seen, run_seen};

use io_core::{Files, Sink, Source, Words};
use run_outcome::Outcome;
use std::alloc::Global;

/// Does what the words ask for: reads the sources, runs the commands in order, and writes the outputs.
///
/// Errors: the outcome says why a run stopped. Nothing is written before all sources are read and accepted; a text is
/// whole before its first byte is written. One line on each outcome other than `Done` goes to `messages`.
pub fn run<F: Files, I: Source, K: Sink, M: Sink>(
    alloc: Global,
    words: &Words,
    files: &mut F,
    input: &mut I,
    output: &mut K,
    messages: &mut M,
) -> Outcome
    // What the words and the contents tell is what comes about; each answer has a cause; and where they tell Done and
    // nothing failed, it is Done, or memory ran out.
    ensures headline { (read : Readings) → AreReadings read → IsRunOf read words.now
        (run_seen F.Files I.Source K.Sink M.Sink files.old input.old output.old messages.old)
        (run_seen F.Files I.Source K.Sink M.Sink files.new input.new output.new messages.new)
        (outcome_as result) }

    // Causes, whatever the readings of JSON are.
    ensures cause { (refuses : Refusals) → AreRefusals refuses → HasCause (words_say refuses words.now) (F.held files.old) (I.left input.old)
        (counts_seen F.Files I.Source K.Sink files.old input.old output.old)
        (counts_seen F.Files I.Source K.Sink files.new input.new output.new)
        (outcome_as result) }

    // The same in faces and arcs of the plane, command by command.
    ensures means { WordsRun words.now
        (sources_seen F.Files I.Source files.old input.old)
        (sources_seen F.Files I.Source files.new input.new)
        (outside_seen F.Files K.Sink files.old output.old)
        (outside_seen F.Files K.Sink files.new output.new) result }
    ensures told { TellsOutcome result (stream_seen M.Sink messages.old) (stream_seen M.Sink messages.new) }
{
    run_chain::run(alloc, words, files, input, output, messages)
}
