//! Runs chains over files and streams in memory, and compares what each leaves with what it should.
//!
//! The cases are a JSON list on standard input. Each is an object:
//!
//! - `words`: the list of words; `files`: what each file holds, by name; `input`: the bytes of standard input;
//! - `status`, `output`, `told`: the status, what the standard stream gained, and what was told; `null` where that is
//!   not compared;
//! - `made`: what files hold at the end, by name, `null` for a name that isn't there;
//! - `most`: how many bytes a call moves at most; `reads`, `creates`, `appends`, `tells`: which calls fail, counted
//!   from 1. These may be absent: then calls move all that there is, and none fails.
//!
//! Bytes are a text, or where they are no UTF-8 text a list of numbers.
#![tactic(auto)]

mod cases;
mod comparing;
mod running;
#[cfg(test)]
mod tests;

use comparing::{Difference, difference_of};
use json_read::{Json, ReadJson};
use running::run_case;
use std::io;

fn main(rt: HostRuntime) -> io::Result<()> {
    let text = io::read_to_string(rt.alloc(), rt.stdin())?;
    let Ok(Json::List(cases)) = Json::parse(rt.alloc(), text.as_bytes()) else {
        return println!(rt; "no list of cases");
    };
    let mut different = 0u64;
    for (number, case) in cases.as_slice().iter().enumerate() {
        let ran = run_case(rt.alloc(), case)?;
        if let Some(difference) = difference_of(rt.alloc(), case, &ran)? {
            different = different.saturating_add(1);
            print_difference(&rt, number, &difference)?;
        }
    }
    println!(rt; "{} cases, {different} differ", cases.len())
}

fn print_difference(rt: &HostRuntime, number: usize, difference: &Difference) -> io::Result<()> {
    println!(rt; "case {number}: {}", difference.part.as_str())
}
