ghost use Rattle.std.specs.Prelude.{◌≡◌, List, ℕ, option_map};
ghost use Rattle.std.specs.List.{list_all};
ghost use Rattle.expr_lang.specs.Tokens.{is_name_byte as stands_in_name};
ghost use Rattle.cmd_words.specs.Calculations.{is_reserved, is_name, after_white, trimmed, enclosed, call_of, calculated, calculation_of, calculations_of};
ghost use Rattle.cmd_words.specs.Seen.{parts_seen};
ghost use Rattle.cmd_words.specs.Steps.{Gives, or_refused};
ghost use Rattle.cmd_words.specs.declared.fault.WordWhy.TheVariants.{BadChoice};

use crate::fault::{Refusal, WordWhy};
use crate::texts::pieces;
use expr_lang::{is_name_start, is_other_word};
use join_terms::{Calc, CalcList};
use std::alloc::Global;
use text_core::Text;

/// Columns to be calculated: items joined by commas, each a name, `=`, and `count()` or `sum(field)`.
pub(crate) fn read_calculations(alloc: Global, value: &str) -> Result<CalcList, Refusal>
    ensures exact { Gives (calculations_of value.now) (λ c. c) result }
{
    let items = pieces(alloc, value)?;
    let mut calculations = CalcList::new(alloc);
    for item in items.as_slice() {
        let calculation = read_calculation(alloc, item.as_str())?;
        calculations.push(calculation)?;
    }
    Ok(calculations)
}

#[tactic(auto, unfolding(crate::specs::Calculations::calculation_of))]
fn read_calculation(alloc: Global, item: &str) -> Result<Calc, Refusal>
    ensures exact { Gives (or_refused BadChoice (calculation_of item.now)) (λ c. c) result }
{
    let Some((name, call)) = item.split_once('=') else {
        return Err(Refusal::Why(WordWhy::BadChoice));
    };
    match call_of(call) {
        Some((function, field)) => calculation(alloc, trimmed(name), function, field),
        None => Err(Refusal::Why(WordWhy::BadChoice)),
    }
}

fn calculation(alloc: Global, name: &str, function: &str, field: &str) -> Result<Calc, Refusal>
    ensures exact { Gives (or_refused BadChoice (calculated name.now (function.now, field.now))) (λ c. c) result }
{
    if !is_name(name) {
        return Err(Refusal::Why(WordWhy::BadChoice));
    }
    if function == "count" && field.is_empty() {
        return Ok(Calc::Count {
            name: Text::of(alloc, name)?,
        });
    }
    if function == "sum" && is_name(field) {
        return Ok(Calc::Sum {
            name: Text::of(alloc, name)?,
            field: Text::of(alloc, field)?,
        });
    }
    Err(Refusal::Why(WordWhy::BadChoice))
}

// A function, and what it takes in parentheses.
fn call_of(text: &str) -> Option<(&str, &str)>
    ensures exact { parts_seen result ≡ call_of text.now }
{
    let (function, rest) = text.split_once('(')?;
    let field = enclosed(rest)?;
    Some((trimmed(function), field))
}

// What stands before the first `)`, where nothing else follows.
fn enclosed(text: &str) -> Option<&str>
    ensures exact { option_map (λ s. s.now) result ≡ enclosed text.now }
{
    let (field, end) = text.split_once(')')?;
    if trimmed(end).is_empty() {
        Some(trimmed(field))
    } else {
        None
    }
}

// The text without the white space of JSON at both ends.
fn trimmed(text: &str) -> &str
    ensures exact { result.now ≡ trimmed text.now }
{
    let mut rest = after_white(text);
    while let [.., b' ' | b'\t' | b'\n' | b'\r'] = rest.as_bytes() {
        rest = &rest[..rest.len() - 1];
    }
    rest
}

fn after_white(text: &str) -> &str
    ensures exact { result.now ≡ after_white text.now }
{
    let mut rest = text;
    while let [b' ' | b'\t' | b'\n' | b'\r', ..] = rest.as_bytes() {
        rest = &rest[1..];
    }
    rest
}

// Whether the text is a name as in expressions.
fn is_name(text: &str) -> bool
    ensures exact { result ≡ is_name text.now }
{
    match text.as_bytes() {
        [] => false,
        [first, rest @ ..] => is_name_start(*first) && are_name_bytes(rest) && !is_reserved(text),
    }
}

fn are_name_bytes(text: &[u8]) -> bool
    ensures exact { result ≡ list_all stands_in_name text.now }
{
    for byte in text {
        if !(is_name_start(*byte) || byte.is_ascii_digit()) {
            return false;
        }
    }
    true
}

fn is_reserved(word: &str) -> bool
    ensures exact { result ≡ is_reserved word.now }
{
    word == "true" || word == "false" || word == "null" || word == "this" || is_other_word(word)
}
