//! A run of a chain of commands: words, files and streams become outputs and an outcome.
//!
//! 1. The words become a job (`cmd_words`), or are refused.
//! 2. The sources are read within the limits of a run (`run_sources`), and begin as layers over one plane
//!    (`run_beginning`).
//! 3. `running` runs the commands in order: a command changes layers (`run_steps`), or a text is made (`run_texts`) and
//!    written (`writing`).
//! 4. One line tells an outcome other than `Done` (`run_outcome`).
#![tactic(auto)]

mod running;
mod writing;

pub use run_outcome::{Outcome, status_of, tell};
pub use run_sources::InputWhy;
pub use run_state::RefuseWhy;
pub use running::run;
