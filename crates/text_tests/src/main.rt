//! Runs calls of the crates of texts, tables and words over cases, and compares what each answers with what it should.
//!
//! No clause says that the definitions which contracts cite are those of the formats, nor that a call succeeds where
//! there is memory. So each case has a text from a standard, or one that was worked out by hand.
//!
//! The cases stand on standard input, as `case_lists` has them; each module `.._calls` is one crate's, and says what
//! its calls take and answer.
#![tactic(auto)]

mod cmd_words_calls;
mod csv_io_calls;
mod expr_lang_calls;
mod geojson_io_calls;
mod io_core_calls;
mod json_read_calls;
mod json_values_calls;
mod numerals_calls;
mod table_ops_calls;
mod topo_io_calls;

use case_lists::{Tally, list_at, list_in, text_in, unknown_call};
use io_core::Bytes;
use json_read::ReadJson;
use json_values::Json;
use std::alloc::{AllocError, Global};
use std::io;

fn main(rt: HostRuntime) -> io::Result<()> {
    let text = io::read_to_string(rt.alloc(), rt.stdin())?;
    let Ok(Json::List(groups)) = Json::parse(rt.alloc(), text.as_bytes()) else {
        return println!(rt; "no list of groups");
    };
    let mut tally = Tally::new();
    for group in groups.as_slice() {
        run_group(&rt, group, &mut tally)?;
    }
    tally.print(&rt)
}

fn run_group(rt: &HostRuntime, group: &Json, tally: &mut Tally) -> io::Result<()> {
    let cases = list_in(group, "cases");
    for place in 0..cases.len() {
        let case = list_at(cases, place);
        let answer = answer_of(rt.alloc(), group, case)?;
        tally.count(rt, group, place, case, &answer)?;
    }
    Ok(())
}

fn answer_of(alloc: Global, group: &Json, case: &[Json]) -> Result<Bytes, AllocError> {
    let call = text_in(group, "call");
    match text_in(group, "of") {
        "cmd_words" => cmd_words_calls::answer(alloc, call, case),
        "csv_io" => csv_io_calls::answer(alloc, call, case),
        "expr_lang" => expr_lang_calls::answer(alloc, call, case),
        "geojson_io" => geojson_io_calls::answer(alloc, call, case),
        "io_core" => io_core_calls::answer(alloc, call, case),
        "json_read" => json_read_calls::answer(alloc, call, case),
        "json_values" => json_values_calls::answer(alloc, call, case),
        "numerals" => numerals_calls::answer(alloc, call, case),
        "table_ops" => table_ops_calls::answer(alloc, call, case),
        "topo_io" => topo_io_calls::answer(alloc, call, case),
        _ => unknown_call(alloc),
    }
}
