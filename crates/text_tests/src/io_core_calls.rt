//! Calls of `io_core`. Those that fail are counted from 1, and 0 stands for none.
//!
//! - `read_whole` takes what a source holds, a limit, how many bytes a call moves at most, and which call fails; it
//!   answers how many bytes were read, or why none, and how many calls failed.
//! - `read_file` takes the same of a file `in.json`, and a list of names to read; it answers so for each of them, a
//!   line each. Where nothing is to be held there is only a file `out.json`, made ready and never written.
//! - `write_file` takes bytes, and which creation and which append fails, where an append moves 64 bytes; it answers
//!   how the writing ended, how many bytes the file then has, and how many calls failed.
//! - `write_whole` takes bytes, the room of a sink, and which call fails, where a call moves two bytes; it answers what
//!   is held then, and on a line of its own whether the bytes are whole and how many calls failed.
//! - `push` takes a list of names; it answers the first of them. `extend` takes a text; it answers it.
use case_lists::{
    bytes_at, bytes_of_text, list_at, names_at, number_at, text_at, told, unknown_call,
};
use io_core::{
    Bytes, MemFiles, MemSink, MemSource, read_file, read_whole, write_file, write_whole,
};
use json_values::Json;
use std::alloc::{AllocError, Global};

/// What a call of `io_core` answers to a case, as this module says; to a call that isn't there, what `unknown_call`
/// answers.
pub fn answer(alloc: Global, call: &str, case: &[Json]) -> Result<Bytes, AllocError> {
    match call {
        "read_whole" => whole_read(alloc, case),
        "read_file" => files_read(alloc, case),
        "write_file" => file_written(alloc, case),
        "write_whole" => whole_written(alloc, case),
        "push" => first_pushed(alloc, case),
        "extend" => extended(alloc, text_at(case, 0)),
        _ => unknown_call(alloc),
    }
}

fn whole_read(alloc: Global, case: &[Json]) -> Result<Bytes, AllocError> {
    let held = bytes_at(alloc, case, 0)?;
    let most = number_at(case, 2).max(1);
    let mut source = MemSource::new(alloc, &held, most, &[number_at(case, 3)])?;
    let got = read_whole(alloc, &mut source, u64::from(number_at(case, 1))).map(|all| all.len());
    told(alloc, &(got, source.faults()))
}

// The files of a case of `read_file`.
fn files_of(alloc: Global, case: &[Json]) -> Result<MemFiles, AllocError> {
    let most = number_at(case, 2).max(1);
    let mut files = MemFiles::new(alloc, most, &[number_at(case, 3)], &[], &[])?;
    match case.first() {
        Some(Json::Text(held)) => files.put("in.json", held.as_str().as_bytes())?,
        _ => files.ready("out.json", 10)?,
    }
    Ok(files)
}

fn files_read(alloc: Global, case: &[Json]) -> Result<Bytes, AllocError> {
    let mut files = files_of(alloc, case)?;
    let names = list_at(case, 4);
    let mut out = Bytes::new(alloc);
    for place in 0..names.len() {
        let line = file_read(alloc, &mut files, text_at(names, place), number_at(case, 1))?;
        out.extend(line.as_slice())?;
        out.push(b'\n')?;
    }
    Ok(out)
}

fn file_read(
    alloc: Global,
    files: &mut MemFiles,
    name: &str,
    limit: u32,
) -> Result<Bytes, AllocError> {
    let got = read_file(alloc, files, name, u64::from(limit)).map(|all| all.len());
    told(alloc, &(got, files.read_faults()))
}

// Files with room for `room` bytes in one of them.
fn writable(alloc: Global, case: &[Json], room: usize) -> Result<MemFiles, AllocError> {
    let create = number_at(case, 1);
    let append = number_at(case, 2);
    let mut files = MemFiles::new(alloc, 64, &[], &[create], &[append])?;
    files.ready("a.geojson", room as u64)?;
    Ok(files)
}

fn file_written(alloc: Global, case: &[Json]) -> Result<Bytes, AllocError> {
    let bytes = bytes_at(alloc, case, 0)?;
    let mut files = writable(alloc, case, bytes.len())?;
    let ended = write_file(&mut files, "a.geojson", &bytes);
    let held = files.held("a.geojson").map(|held| held.len());
    told(alloc, &(ended, held, files.write_faults()))
}

fn whole_written(alloc: Global, case: &[Json]) -> Result<Bytes, AllocError> {
    let bytes = bytes_at(alloc, case, 0)?;
    let room = u64::from(number_at(case, 1));
    let mut sink = MemSink::new(alloc, room, 2, &[number_at(case, 2)])?;
    let is_whole = write_whole(&mut sink, &bytes).is_ok();
    held_text(alloc, sink.held(), is_whole, sink.faults())
}

fn held_text(alloc: Global, held: &[u8], is_whole: bool, faults: u64) -> Result<Bytes, AllocError> {
    let mut out = Bytes::new(alloc);
    out.extend(held)?;
    out.push(b'\n')?;
    out.extend(told(alloc, &(is_whole, faults))?.as_slice())?;
    out.push(b'\n')?;
    Ok(out)
}

fn first_pushed(alloc: Global, case: &[Json]) -> Result<Bytes, AllocError> {
    let names = names_at(alloc, case, 0)?;
    match names.as_slice().first() {
        Some(name) => bytes_of_text(alloc, name.as_str()),
        None => bytes_of_text(alloc, "no name"),
    }
}

fn extended(alloc: Global, text: &str) -> Result<Bytes, AllocError> {
    let mut bytes = Bytes::new(alloc);
    bytes.reserve(text.len())?;
    if let Some((first, rest)) = text.as_bytes().split_first() {
        bytes.push(*first)?;
        bytes.extend(rest)?;
    }
    Ok(bytes)
}
