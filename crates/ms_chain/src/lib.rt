//! The run of a command line: words, files and streams become outputs and an outcome.
//!
//! The contract of `run` says what the model of a run says of these words and contents: `IsRunOf` of `chain_model`. The
//! steps are those of `run_chain`, whose contract speaks of faces and arcs; `headline_laws` proves that it means the
//! model.
#![tactic(auto)]

mod running;

pub use run_outcome::{Outcome, status_of, tell};
pub use run_sources::InputWhy;
pub use run_state::RefuseWhy;
pub use running::run;
