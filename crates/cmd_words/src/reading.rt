ghost use Rattle.std.specs.Prelude.{◌≡◌, ◌+◌, ◌<◌, ◌≤◌, ◌^◌, length, drop, false, IfOk, Err};
ghost use Rattle.std.specs.List.{position_or_len};
ghost use Rattle.grid_base.specs.Grid.{most_places};
ghost use Rattle.cmd_words.specs.Expressions.{Refusals, AreRefusals};
ghost use Rattle.cmd_words.specs.Seen.{form_seen, row_seen};
ghost use Rattle.cmd_words.specs.Texts.{is_command};
ghost use Rattle.cmd_words.specs.Rows.{import_form};
ghost use Rattle.cmd_words.specs.Groups.{empty_group};
ghost use Rattle.cmd_words.specs.Steps.{on_ok};
ghost use Rattle.cmd_words.specs.Options.{take_word};
ghost use Rattle.cmd_words.specs.Words.{at_word, words_from, grouped, take_words, finished, take_command, take_commands, without_import_word, places_in, after_import, read_groups, read_commands, read_chain_words, read_job, read_words};
ghost use Rattle.cmd_words.specs.Cuts.{BeginsACommand, commands_of};
ghost use Rattle.cmd_words.specs.Tells.{Turns, Answers, Tells, FitsChain, FitsJob};
ghost use Rattle.cmd_words.specs.Limits.{KeepsLimits};

use crate::actions::{lacks_argument, lacks_form};
use crate::commands::{CommandRow, GroupForm, IMPORT, Keyword, row_of};
use crate::fault::{WordFault, WordWhy};
use crate::options::take_word;
use crate::so_far::SoFar;
use crate::synth::read_synth;
use crate::texts::is_command;
use crate::word_groups::Group;
use job_terms::{Chain, Job};
use std::alloc::Global;
use text_core::{Text, Words};

/// The greatest number of words on a command line.
const MAX_WORDS: usize = 1000;

/// The decimal places of a chain whose words do not tell them.
const DEFAULT_PLACES: u8 = 6;

/// Reads the words of a command line, which are counted from 1.
///
/// Errors: `Bad` at the first refused word, for the first of the reasons in the order of `WordWhy`; `Memory`
/// for want of memory.
/// Cost: one pass over the words, and one over the table of commands for each command word.
/// Source: the words are ours; numerals are those of RFC 8259, section 6.
pub fn read_chain(alloc: Global, words: &Words) -> Result<Job, WordFault>
    ensures exact { (refuses : Refusals) → AreRefusals refuses → Tells FitsJob (read_words refuses words.now) result }
    ensures too_many { 1000 < length words.now → result ≡ Err (WordFault.Bad 1001 WordWhy.TooManyWords) }
    ensures limits { IfOk result KeepsLimits }
{
    let words = words.as_slice();
    if words.len() > MAX_WORDS {
        return Err(bad(MAX_WORDS as u32 + 1, WordWhy::TooManyWords));
    }
    read_job(alloc, words)
}

fn read_job(alloc: Global, words: &[Text]) -> Result<Job, WordFault>
    requires { length words.now ≤ 1000 }
    ensures exact { (refuses : Refusals) → AreRefusals refuses → Tells FitsJob (read_job refuses words.now) result }
    ensures limits { IfOk result KeepsLimits }
{
    match words {
        [] => read_any(alloc, words),
        [first, rest @ ..] => {
            if first.as_str() == "synth" {
                read_synth(rest)
            } else {
                read_any(alloc, words)
            }
        }
    }
}

fn read_any(alloc: Global, words: &[Text]) -> Result<Job, WordFault>
    requires { length words.now ≤ 1000 }
    ensures exact { (refuses : Refusals) → AreRefusals refuses → Tells FitsJob (read_chain_words refuses words.now) result }
    ensures limits { IfOk result KeepsLimits }
{
    Ok(Job::Chain(read_commands(alloc, words)?))
}

fn bad(word: u32, why: WordWhy) -> WordFault
    ensures exact { result ≡ WordFault.Bad word why }
{
    WordFault::Bad { word, why }
}

fn read_commands(alloc: Global, words: &[Text]) -> Result<Chain, WordFault>
    requires { length words.now ≤ 1000 }
    ensures exact { (refuses : Refusals) → AreRefusals refuses → Tells FitsChain (read_commands refuses (words_from 1 words.now)) result }
    ensures few { IfOk result (λ c. c.places ≤ most_places) }
{
    let skipped = import_words(words);
    let (_, words) = words.split_at(skipped);
    read_groups(alloc, 1 + skipped as u32, words)
}

// How many words the `-i` at the front is.
fn import_words(words: &[Text]) -> usize
    ensures small { result ≤ 1 }
    ensures within { result ≤ length words.now }
    ensures exact { without_import_word (words_from 1 words.now) ≡ words_from (1 + result) (drop result words.now) }
{
    match words {
        [] => 0,
        [first, ..] => { if first.as_str() == "-i" { 1 } else { 0 } }
    }
}

// An import and commands, whose first word has this number.
fn read_groups(alloc: Global, first: u32, words: &[Text]) -> Result<Chain, WordFault>
    requires { first + length words.now < 2 ^ 32 }
    ensures exact { (refuses : Refusals) → AreRefusals refuses → Tells FitsChain (read_groups refuses (grouped (words_from first words.now))) result }
    ensures few { IfOk result (λ c. c.places ≤ most_places) }
{
    let (import, commands) = words.split_at(plain_count(words));
    let group = read_import(alloc, first, import)?;
    read_after(alloc, &group, first + import.len() as u32, commands)
}

// How many words stand before the first command word.
fn plain_count(words: &[Text]) -> usize
    ensures within { result ≤ length words.now }
    ensures exact { result ≡ position_or_len is_command words.now }
{
    let mut count = 0;
    for word in words {
        if is_command(word.as_str()) {
            return count;
        }
        count += 1;
    }
    count
}

fn read_import(alloc: Global, first: u32, words: &[Text]) -> Result<Group, WordFault>
    requires { first + length words.now < 2 ^ 32 }
    ensures exact { (refuses : Refusals) → AreRefusals refuses → Answers (take_words refuses 6 import_form (empty_group false) (words_from first words.now)) result }
{
    let mut group = Group::new(alloc, false);
    take_words(alloc, DEFAULT_PLACES, &IMPORT, &mut group, first, words)?;
    Ok(group)
}

// The chain of an import and of the commands after it.
fn read_after(alloc: Global, group: &Group, first: u32, words: &[Text]) -> Result<Chain, WordFault>
    requires numbers { first + length words.now < 2 ^ 32 }
    requires begins { BeginsACommand words.now }
    ensures exact { (refuses : Refusals) → AreRefusals refuses → Tells FitsChain (after_import refuses (commands_of first words.now) group.now) result }
    ensures few { IfOk result (λ c. c.places ≤ most_places) }
{
    if !group.has_argument() {
        return Err(bad(1, WordWhy::NoInput));
    }
    let places = places_in(group);
    let mut so_far = SoFar::of_import(alloc, group)?;
    take_commands(alloc, places, &mut so_far, first, words)?;
    Ok(so_far.into_chain(alloc, places)?)
}

fn places_in(group: &Group) -> u8
    ensures exact { result ≡ places_in group.now }
    ensures few { result ≤ most_places }
{
    group.values().places.unwrap_or(DEFAULT_PLACES)
}

fn take_words(
    alloc: Global,
    places: u8,
    form: &GroupForm,
    group: &mut Group,
    first: u32,
    words: &[Text],
) -> Result<(), WordFault>
    requires { first + length words.now < 2 ^ 32 }
    ensures exact { (refuses : Refusals) → AreRefusals refuses → Turns (take_words refuses places (form_seen form.now) group.old (words_from first words.now)) group.new result }
{
    let mut number = first;
    for word in words {
        take_numbered(alloc, places, form, group, number, word.as_str())?;
        number += 1;
    }
    Ok(())
}

fn take_numbered(
    alloc: Global,
    places: u8,
    form: &GroupForm,
    group: &mut Group,
    number: u32,
    word: &str,
) -> Result<(), WordFault>
    ensures exact { (refuses : Refusals) → AreRefusals refuses → Turns (at_word number (take_word refuses places (form_seen form.now) group.old (record { number = number; text = word.now }))) group.new result }
{
    match take_word(alloc, places, form, group, number, word) {
        Ok(()) => Ok(()),
        Err(refusal) => Err(refusal.at(number)),
    }
}

// The words begin with a command word, if there are any.
fn take_commands(
    alloc: Global,
    places: u8,
    so_far: &mut SoFar,
    first: u32,
    words: &[Text],
) -> Result<(), WordFault>
    requires numbers { first + length words.now < 2 ^ 32 }
    requires begins { BeginsACommand words.now }
    ensures exact { (refuses : Refusals) → AreRefusals refuses → Turns (take_commands refuses places so_far.old (commands_of first words.now)) so_far.new result }
{
    let mut number = first;
    let mut left = words;
    while let [word, rest @ ..] = left {
        let (group, next) = rest.split_at(plain_count(rest));
        take_command(alloc, places, so_far, number, word.as_str(), group)?;
        number += 1 + group.len() as u32;
        left = next;
    }
    Ok(())
}

fn take_command(
    alloc: Global,
    places: u8,
    so_far: &mut SoFar,
    number: u32,
    word: &str,
    rest: &[Text],
) -> Result<(), WordFault>
    requires { number + 1 + length rest.now < 2 ^ 32 }
    ensures exact { (refuses : Refusals) → AreRefusals refuses → Turns (take_command refuses places so_far.old (record { word = record { number = number; text = word.now }; rest = words_from (number + 1) rest.now })) so_far.new result }
{
    if word == "-i" {
        return Err(bad(number, WordWhy::LaterImport));
    }
    let Some(row) = row_of(word) else {
        return Err(bad(number, WordWhy::UnknownCommand));
    };
    let mut group = Group::new(alloc, so_far.reads_standard());
    take_group(alloc, places, so_far, row, number, rest, &mut group)
}

// The words after a command's own, and then the command.
fn take_group(
    alloc: Global,
    places: u8,
    so_far: &mut SoFar,
    row: &CommandRow,
    number: u32,
    rest: &[Text],
    group: &mut Group,
) -> Result<(), WordFault>
    requires { number + 1 + length rest.now < 2 ^ 32 }
    ensures exact { (refuses : Refusals) → AreRefusals refuses
        → Turns (on_ok (take_words refuses places (row_seen row.now).form group.old (words_from (number + 1) rest.now)) (finished so_far.old (row_seen row.now).keyword number)) so_far.new result }
{
    take_words(alloc, places, &row.form, group, number + 1, rest)?;
    finish(alloc, so_far, row.keyword, number, group)
}

fn finish(
    alloc: Global,
    so_far: &mut SoFar,
    keyword: Keyword,
    number: u32,
    group: &mut Group,
) -> Result<(), WordFault>
    ensures exact { Turns (finished so_far.old keyword number group.old) so_far.new result }
{
    if lacks_argument(keyword, group) {
        return Err(bad(number, WordWhy::MissingArgument));
    }
    if lacks_form(keyword, group) {
        return Err(bad(group.first_number(), WordWhy::UnsupportedFile));
    }
    so_far.add(alloc, keyword, group)?;
    Ok(())
}
