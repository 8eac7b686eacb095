ghost use Rattle.std.specs.Prelude.{◌≡◌, IfOk, option_map};
ghost use Rattle.cmd_words.specs.Texts.{pieces, has_empty_piece, at_first_equals, is_option, option_in, is_command, is_standard, ends_in, form_by_ending, names_file};
ghost use Rattle.cmd_words.specs.Seen.{form_seen, parts_seen};

use crate::commands::{ArgumentForm, GroupForm};
use job_terms::OutForm;
use std::alloc::{AllocError, Global};
use text_core::{NameList, Text};

/// The pieces of a text between its commas; an empty text is one piece.
pub(crate) fn pieces(alloc: Global, text: &str) -> Result<NameList, AllocError>
    ensures exact { IfOk result (λ names. names ≡ pieces text.now) }
{
    let mut names = NameList::new(alloc);
    let mut rest = text;
    while let Some((piece, more)) = rest.split_once(',') {
        names.push(Text::of(alloc, piece)?)?;
        rest = more;
    }
    names.push(Text::of(alloc, rest)?)?;
    Ok(names)
}

pub(crate) fn has_empty_piece(text: &str) -> bool
    ensures exact { result ≡ has_empty_piece text.now }
{
    let mut rest = text;
    while let Some((piece, more)) = rest.split_once(',') {
        if piece.is_empty() {
            return true;
        }
        rest = more;
    }
    rest.is_empty()
}

/// What stands before the first `=` and after it.
pub(crate) fn at_first_equals(word: &str) -> Option<(&str, &str)>
    ensures exact { parts_seen result ≡ at_first_equals word.now }
{
    word.split_once('=')
}

/// The name and the value of a word that is an option. Where an expression or assignments stand, only the
/// command's own options without a further `=` are options, and between renames only its own.
pub(crate) fn option_in<'a>(form: &GroupForm, word: &'a str) -> Option<(&'a str, &'a str)>
    ensures exact { parts_seen result ≡ option_in (form_seen form.now) word.now }
{
    match word.split_once('=') {
        Some((name, value)) if is_option(form, name, value) => Some((name, value)),
        _ => None,
    }
}

fn is_option(form: &GroupForm, name: &str, value: &str) -> bool
    ensures exact { result ≡ is_option (form_seen form.now) (name.now, value.now) }
{
    match form.argument {
        ArgumentForm::Expression | ArgumentForm::Assignments => {
            form.value_form(name).is_some() && !value.starts_with('=')
        }
        ArgumentForm::Renames => form.value_form(name).is_some(),
        _ => true,
    }
}

pub(crate) fn is_command(word: &str) -> bool
    ensures exact { result ≡ is_command word.now }
{
    matches!(word.as_bytes(), [b'-', _, ..])
}

/// Whether the word stands for the standard stream.
pub(crate) fn is_standard(word: &str) -> bool
    ensures exact { result ≡ is_standard word.now }
{
    word == "-"
}

// Whether a text has an ending, in any ASCII letter case.
fn ends_in(text: &str, ending: &str) -> bool
    ensures exact { result ≡ ends_in text.now ending.now }
{
    let text = text.as_bytes();
    let ending = ending.as_bytes();
    if text.len() < ending.len() {
        return false;
    }
    let (_, end) = text.split_at(text.len() - ending.len());
    end.eq_ignore_ascii_case(ending)
}

/// The form of an output of this name.
pub(crate) fn form_by_ending(word: &str) -> Option<OutForm>
    ensures exact { result ≡ form_by_ending word.now }
{
    if is_standard(word) || ends_in(word, ".json") || ends_in(word, ".geojson") {
        Some(OutForm::Geo)
    } else if ends_in(word, ".topojson") {
        Some(OutForm::Topo)
    } else if ends_in(word, ".csv") {
        Some(OutForm::Csv)
    } else {
        None
    }
}

/// Whether the word names a file for reading.
pub(crate) fn names_file(word: &str) -> bool
    ensures exact { result ≡ names_file word.now }
{
    form_by_ending(word).is_some()
}
