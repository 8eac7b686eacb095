//! Inputs that end too early, and an outside that fails, over files and streams in memory.

use io_core::{MemFiles, MemSink, MemSource, Text, Words};
use ms_chain::{InputWhy, Outcome, run};
use std::alloc::{AllocError, Global};
use std::test::Fail;

// Three points with two columns, and one that lacks them.
const CITIES: &[u8] = b"{\"type\":\"FeatureCollection\",\"features\":[
{\"type\":\"Feature\",\"geometry\":{\"type\":\"Point\",\"coordinates\":[2.3522,48.8566]},\"properties\":{\"name\":\"Paris\",\"pop\":2102650}},
{\"type\":\"Feature\",\"geometry\":{\"type\":\"Point\",\"coordinates\":[-0.1276,51.5072]},\"properties\":{\"name\":\"London\",\"pop\":8866180,\"note\":null}},
{\"type\":\"Feature\",\"geometry\":{\"type\":\"Point\",\"coordinates\":[13.4050,52.52]},\"properties\":{\"name\":\"Berlin\"}}
]}
";

// A topology of one polygon, with whole steps between its positions.
const WORLD: &[u8] =
    b"{\"type\":\"Topology\",\"transform\":{\"scale\":[0.036003600360036005,0.018001800180018002],\"translate\":[-180,-90]},\"objects\":{\"world\":{\"type\":\"GeometryCollection\",\"geometries\":[{\"type\":\"Polygon\",\"arcs\":[[0,-2]],\"properties\":{\"id\":1}},{\"type\":null,\"properties\":{\"id\":2}}]}},\"arcs\":[[[0,0],[9999,0]],[[0,0],[0,9999],[9999,0],[0,-9999]]]}
";

// A header of 14 bytes, and three rows of 7.
const TABLE: &[u8] = b"code,pop,name\n01,5,x\n01,6,y\n02,7,z\n";

const HEADER: usize = 14;

const ROW: usize = 7;

fn words_of(alloc: Global, line: &[&str]) -> Result<Words, AllocError> {
    let mut words = Words::new(alloc);
    for word in line {
        words.push(Text::of(alloc, word)?)?;
    }
    Ok(words)
}

// Runs the words over a file `in.json` and standard input of these bytes.
fn outcome_of(alloc: Global, words: &Words, bytes: &[u8]) -> Result<Outcome, AllocError> {
    let mut files = MemFiles::new(alloc, 100, &[], &[], &[])?;
    files.put("in.json", bytes)?;
    let mut input = MemSource::new(alloc, bytes, 100, &[])?;
    let mut output = MemSink::new(alloc, 10_000, 100, &[])?;
    let mut messages = MemSink::new(alloc, 1_000, 100, &[])?;
    Ok(run(
        alloc,
        words,
        &mut files,
        &mut input,
        &mut output,
        &mut messages,
    ))
}

// What a JSON text that ends with a line feed gives where `left` of its bytes are left, not all.
fn cut_json(whole: &[u8], left: usize) -> Outcome {
    if left.saturating_add(1) == whole.len() {
        return Outcome::Done;
    }
    let at = left as u64;
    Outcome::BadInput {
        source: 1,
        why: InputWhy::Syntax { at },
    }
}

#[test]
fn a_cut_layer_is_refused_at_its_end(rt: HostRuntime) -> Result<(), Fail> {
    let words = words_of(rt.alloc(), &["in.json", "-o", "-"])?;
    for left in 0..CITIES.len() {
        let outcome = outcome_of(rt.alloc(), &words, &CITIES[..left])?;
        assert_eq!(rt; outcome, cut_json(CITIES, left), "{left} bytes left");
    }
    Ok(())
}

#[test]
fn a_cut_topology_is_refused_at_its_end(rt: HostRuntime) -> Result<(), Fail> {
    let words = words_of(rt.alloc(), &["in.json", "-o", "-"])?;
    for left in 0..WORLD.len() {
        let outcome = outcome_of(rt.alloc(), &words, &WORLD[..left])?;
        assert_eq!(rt; outcome, cut_json(WORLD, left), "{left} bytes left");
    }
    Ok(())
}

// What the table gives where `left` of its bytes are left: a row needs the two commas of its cells.
fn cut_table(left: usize) -> Outcome {
    let source = 1;
    if left == 0 {
        let why = InputWhy::NoHeader;
        return Outcome::BadInput { source, why };
    }
    if left <= HEADER {
        return Outcome::Done;
    }
    let row = ((left - HEADER - 1) / ROW).min(2) as u32;
    let in_row = (left - HEADER - 1) % ROW + 1;
    if in_row > 4 {
        return Outcome::Done;
    }
    let why = InputWhy::UnequalRow { row };
    Outcome::BadInput { source, why }
}

#[test]
fn a_cut_table_is_refused_where_cells_lack(rt: HostRuntime) -> Result<(), Fail> {
    let words = words_of(rt.alloc(), &["-", "-o", "-", "format=csv"])?;
    for left in 0..=TABLE.len() {
        let outcome = outcome_of(rt.alloc(), &words, &TABLE[..left])?;
        assert_eq!(rt; outcome, cut_table(left), "{left} bytes left");
    }
    Ok(())
}

const CITIES_PRINTED: &[u8] = b"{\"type\":\"FeatureCollection\",\"features\":[
{\"type\":\"Feature\",\"geometry\":{\"type\":\"Point\",\"coordinates\":[2.3522,48.8566]},\"properties\":{\"name\":\"Paris\",\"pop\":2102650,\"note\":null}},
{\"type\":\"Feature\",\"geometry\":{\"type\":\"Point\",\"coordinates\":[-0.1276,51.5072]},\"properties\":{\"name\":\"London\",\"pop\":8866180,\"note\":null}},
{\"type\":\"Feature\",\"geometry\":{\"type\":\"Point\",\"coordinates\":[13.405,52.52]},\"properties\":{\"name\":\"Berlin\",\"pop\":null,\"note\":null}}
]}
";

// Prints the cities to a stream that takes 100 bytes at a time and fails in the listed writes.
fn printed_with(alloc: Global, failing: &[u32]) -> Result<(Outcome, MemSink), AllocError> {
    let words = words_of(alloc, &["in.json", "-o", "-"])?;
    let mut files = MemFiles::new(alloc, 100, &[], &[], &[])?;
    files.put("in.json", CITIES)?;
    let mut input = MemSource::new(alloc, b"", 1, &[])?;
    let mut output = MemSink::new(alloc, 10_000, 100, failing)?;
    let mut messages = MemSink::new(alloc, 1_000, 100, &[])?;
    let outcome = run(
        alloc,
        &words,
        &mut files,
        &mut input,
        &mut output,
        &mut messages,
    );
    Ok((outcome, output))
}

#[test]
fn a_failed_write_leaves_a_front(rt: HostRuntime) -> Result<(), Fail> {
    let (whole, output) = printed_with(rt.alloc(), &[])?;
    assert_eq!(rt; whole, Outcome::Done);
    assert_eq!(rt; output.held(), CITIES_PRINTED);

    let (first, output) = printed_with(rt.alloc(), &[1])?;
    assert_eq!(rt; first, Outcome::WriteFault { command: 1 });
    assert_eq!(rt; output.held().len(), 0);

    let (second, output) = printed_with(rt.alloc(), &[2])?;
    assert_eq!(rt; second, Outcome::WriteFault { command: 1 });
    assert_eq!(rt; Some(output.held()), CITIES_PRINTED.get(..100));
    Ok(())
}

#[test]
fn a_file_that_is_not_there_is_missing(rt: HostRuntime) -> Result<(), Fail> {
    let words = words_of(rt.alloc(), &["other.json", "-o", "-"])?;
    let outcome = outcome_of(rt.alloc(), &words, CITIES)?;
    assert_eq!(rt; outcome, Outcome::Missing { source: 1 });
    Ok(())
}
