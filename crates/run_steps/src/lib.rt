//! The commands of a run that change layers.
//!
//! In: what commands stand on (`Base`), a command, and the layers before it (`State`). Out: the state after it, or
//! a `CommandStop`: its first refusal, or memory ran out.
//!
//! 1. `commands` has a command tested (`run_checks`), layers put out and placed among the others, and refuses more than
//!    1,000 of them.
//! 2. `outputs` says what a command puts out for each layer of its target, or for all of them together, by the calls
//!    of `run_shapes`, `run_borders` and `run_tables`.
#![tactic(auto)]

mod commands;
mod outputs;

pub use commands::{changed_each, changed_together};
