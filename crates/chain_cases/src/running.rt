ghost use Rattle.std.specs.Prelude.{◌≤◌};

use crate::cases::{bytes_of, fields, items, member, number_of, numbers, text_of};
use io_core::{MemFiles, MemSink, MemSource, Text, Words};
use json_read::{Json, JsonFields};
use ms_chain::{run, status_of};
use std::alloc::{AllocError, Global};

/// How many bytes an output may take.
const ROOM: u64 = 400_000;

/// What a run over memory leaves.
#[derive(Drop)]
pub struct Ran {
    pub status: u8,
    pub files: MemFiles,
    pub output: MemSink,
    pub messages: MemSink,
}

/// Runs the words of a case over its files and its input.
pub fn run_case(alloc: Global, case: &Json) -> Result<Ran, AllocError> {
    let words = words_of(alloc, items(case, "words"))?;
    let most = most_of(case);
    let mut files = files_of(alloc, case, most)?;
    let bytes = input_of(alloc, case)?;
    let mut input = MemSource::new(alloc, &bytes, most, &[])?;
    let mut output = MemSink::new(alloc, ROOM, most, &[])?;
    let tells = numbers(alloc, case, "tells")?;
    let mut messages = MemSink::new(alloc, ROOM, most, &tells)?;
    let outcome = run(
        alloc,
        &words,
        &mut files,
        &mut input,
        &mut output,
        &mut messages,
    );
    Ok(Ran {
        status: status_of(&outcome),
        files,
        output,
        messages,
    })
}

fn words_of(alloc: Global, texts: &[Json]) -> Result<Words, AllocError> {
    let mut words = Words::new(alloc);
    for text in texts {
        words.push(Text::of(alloc, text_of(text))?)?;
    }
    Ok(words)
}

// How many bytes a call moves at most.
fn most_of(case: &Json) -> u32
    ensures some { 1 ≤ result }
{
    match member(case, "most") {
        Some(most) => number_of(most).max(1),
        None => 1_000_000,
    }
}

fn input_of(alloc: Global, case: &Json) -> Result<Vec<u8>, AllocError> {
    match member(case, "input") {
        Some(input) => bytes_of(alloc, input),
        None => Ok(Vec::new(alloc)),
    }
}

fn files_of(alloc: Global, case: &Json, most: u32) -> Result<MemFiles, AllocError>
    requires { 1 ≤ most }
{
    let reads = numbers(alloc, case, "reads")?;
    let creates = numbers(alloc, case, "creates")?;
    let appends = numbers(alloc, case, "appends")?;
    let mut files = MemFiles::new(alloc, most, &reads, &creates, &appends)?;
    if let Some(members) = fields(case, "files") {
        put_files(alloc, &mut files, members)?;
    }
    if let Some(members) = fields(case, "made") {
        make_room(&mut files, members)?;
    }
    Ok(files)
}

fn put_files(alloc: Global, files: &mut MemFiles, members: &JsonFields) -> Result<(), AllocError> {
    for i in 0..members.len() {
        if let (Some(name), Some(value)) = (members.name_at(i), members.at(i)) {
            files.put(name, &bytes_of(alloc, value)?)?;
        }
    }
    Ok(())
}

// Room for what the run may write under each name.
fn make_room(files: &mut MemFiles, members: &JsonFields) -> Result<(), AllocError> {
    for i in 0..members.len() {
        if let Some(name) = members.name_at(i) {
            files.ready(name, ROOM)?;
        }
    }
    Ok(())
}
