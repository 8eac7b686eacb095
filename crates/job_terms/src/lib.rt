//! The terms in which a run is asked for: the sources that it reads, its boxes, and its commands in order, each with
//! the layers that it works on and what it does. `cmd_words` reads them from the words of a command line; the crates
//! of a run take them, and know nothing of words.
#![tactic(auto)]

mod chain_lists;
mod job;

pub use chain_lists::{CommandList, SourceList};
pub use job::{
    Action, Chain, Command, Job, JointAction, LayerAction, Origin, OutForm, Owner, SourceWord,
    Target,
};
