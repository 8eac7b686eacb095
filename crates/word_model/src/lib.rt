//! What the words of a command line ask for, by a table of commands: what argument, options and bare words each takes,
//! what it needs, and what it asks for; and why a word is refused, by the words of its group before it. Definitions
//! alone.
#![tactic(auto)]

ghost use Rattle.std.specs.Prelude.{◌≡◌, [], Err};
ghost use Rattle.cmd_words.specs.Expressions.{Refusals};
ghost use Rattle.cmd_words.specs.declared.fault.WordWhy.TheVariants.{NoInput};
ghost use Rattle.word_model.specs.Words.{words_say};

/// Without words there is no input.
pub fn no_words_have_no_input()
    ensures holds { (refuses : Refusals) → words_say refuses [] ≡ Err (1, NoInput) }
{}
