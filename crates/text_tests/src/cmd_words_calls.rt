//! Calls of `cmd_words`.
//!
//! `read_chain` takes the words of a command line; it answers how many sources, boxes and commands their chain has, or
//! the fault. `read_repeated` takes a number and the word that stands so often. `read_columns` takes words too; it
//! answers the columns that the first command calculates, if it is a join by place, a line for each, or the fault.
use case_lists::{bytes_of_text, names_at, number_at, text_at, told, unknown_call};
use cmd_words::read_chain;
use io_core::{Bytes, Text, Words};
use job_terms::{Action, Chain, Job, LayerAction};
use join_terms::Calc;
use json_values::Json;
use std::alloc::{AllocError, Global};

/// What a call of `cmd_words` answers to a case, as this module says; to a call that isn't there, what `unknown_call`
/// answers.
pub fn answer(alloc: Global, call: &str, case: &[Json]) -> Result<Bytes, AllocError> {
    match call {
        "read_chain" => read(alloc, &names_at(alloc, case, 0)?),
        "read_repeated" => read(alloc, &repeated(alloc, case)?),
        "read_columns" => columns(alloc, &names_at(alloc, case, 0)?),
        _ => unknown_call(alloc),
    }
}

fn repeated(alloc: Global, case: &[Json]) -> Result<Words, AllocError> {
    let word = text_at(case, 1);
    let mut words = Words::new(alloc);
    for _ in 0..number_at(case, 0) {
        words.push(Text::of(alloc, word)?)?;
    }
    Ok(words)
}

fn read(alloc: Global, words: &Words) -> Result<Bytes, AllocError> {
    match read_chain(alloc, words) {
        Ok(Job::Chain(chain)) => counts(alloc, &chain),
        Ok(_) => bytes_of_text(alloc, "no chain"),
        Err(fault) => told(alloc, &fault),
    }
}

fn counts(alloc: Global, chain: &Chain) -> Result<Bytes, AllocError> {
    let sources = chain.sources.len();
    let boxes = chain.boxes.len();
    let commands = chain.commands.as_slice().len();
    let text = format!(in alloc; "{sources} sources, {boxes} boxes, {commands} commands")?;
    bytes_of_text(alloc, text.as_str())
}

fn columns(alloc: Global, words: &Words) -> Result<Bytes, AllocError> {
    match read_chain(alloc, words) {
        Ok(Job::Chain(chain)) => lines_of(alloc, calculated_in(&chain)),
        Ok(_) => bytes_of_text(alloc, "no chain"),
        Err(fault) => told(alloc, &fault),
    }
}

fn calculated_in(chain: &Chain) -> &[Calc] {
    match chain.commands.as_slice() {
        [] => &[],
        [first, ..] => match &first.action {
            Action::Each(LayerAction::SpatialJoin { spec, .. }) => spec.calc.as_slice(),
            _ => &[],
        },
    }
}

fn lines_of(alloc: Global, columns: &[Calc]) -> Result<Bytes, AllocError> {
    let mut lines = Bytes::new(alloc);
    for column in columns {
        let line = match column {
            Calc::Count { name } => format!(in alloc; "{} = count()\n", name.as_str())?,
            Calc::Sum { name, field } => {
                format!(in alloc; "{} = sum({})\n", name.as_str(), field.as_str())?
            }
        };
        lines.extend(line.as_str().as_bytes())?;
    }
    Ok(lines)
}
