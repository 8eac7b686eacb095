//! The words of a command line: the chain that they ask for, or the first that is refused and why.
//!
//! A chain is an import and commands. Each of them is a group of words: a command word, and the words up to the
//! next one. `read_chain` goes over the groups in order, and in a group over its words:
//!
//! 1. `commands` has the table of what may stand in each group: a row for each command.
//! 2. `options` takes one word: an option, a bare word or an argument; `texts`, `values`, `boxes`, `quantities`,
//!    `calculations` and `expressions` read what they hold, and `option_values` keeps the values of options.
//! 3. `word_groups` keeps what a group holds so far.
//! 4. `actions` says what a whole group asks for (`action_words`), and `so_far` adds it to the chain.
#![tactic(auto)]

mod action_words;
mod actions;
mod boxes;
mod calculations;
mod commands;
mod expressions;
mod fault;
mod option_values;
mod options;
mod quantities;
mod reading;
mod so_far;
mod synth;
mod texts;
mod values;
mod word_groups;

pub use action_words::{ActionWords, CommandWords};
pub use fault::{ExprWhy, WordFault, WordWhy};
pub use job_terms::{
    Action, Chain, Command, CommandList, Job, JointAction, LayerAction, Origin, OutForm, Owner,
    SourceList, SourceWord, Target,
};
pub use reading::read_chain;
