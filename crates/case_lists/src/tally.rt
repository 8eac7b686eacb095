use crate::answers::is_wanted;
use crate::items::text_in;
use json_values::Json;
use std::io;
use text_core::Bytes;

/// How many cases there were, and how many of them differ.
#[derive(Drop)]
pub struct Tally {
    cases: u64,
    different: u64,
}

impl Tally {
    /// Of no case.
    pub fn new() -> Tally {
        Tally {
            cases: 0,
            different: 0,
        }
    }

    /// Counts a case of a group that was answered so, and prints the answer where the case wants another.
    pub fn count(
        &mut self,
        rt: &HostRuntime,
        group: &Json,
        place: usize,
        case: &[Json],
        answer: &Bytes,
    ) -> io::Result<()> {
        self.cases = self.cases.saturating_add(1);
        if is_wanted(rt.alloc(), case, answer)? {
            return Ok(());
        }
        self.different = self.different.saturating_add(1);
        let text = str::from_utf8(answer.as_slice()).unwrap_or("bytes that are no text");
        println!(rt; "{}, case {place}: {text}", text_in(group, "about"))
    }

    /// Prints how many cases there were, and how many of them differ.
    pub fn print(&self, rt: &HostRuntime) -> io::Result<()> {
        let (cases, different) = (self.cases, self.different);
        println!(rt; "{cases} cases, {different} differ")
    }
}
