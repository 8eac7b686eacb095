ghost use Rattle.std.specs.Prelude.{◌≡◌, ◌&&◌};
ghost use Rattle.cmd_words.specs.Expressions.{Refusals, AreRefusals};
ghost use Rattle.cmd_words.specs.Seen.{form_seen, parts_seen};
ghost use Rattle.cmd_words.specs.Steps.{Makes};
ghost use Rattle.cmd_words.specs.Texts.{has_empty_piece, is_standard};
ghost use Rattle.cmd_words.specs.Options.{lacks_value, take_known, take_bare, is_opposed, has_room, is_list, is_read, is_excluded, take_text, take_argument, take_plain, take_word};

use crate::commands::{ArgumentForm, GroupForm, ValueForm};
use crate::expressions::{Assignments, Expression};
use crate::fault::{Refusal, WordWhy};
use crate::texts::{has_empty_piece, is_standard, names_file, option_in};
use crate::values::read_renames;
use crate::word_groups::Group;
use std::alloc::Global;

/// Takes the next word of a group, with `places` decimal places.
///
/// Errors: the first reason for which the word is refused.
pub(crate) fn take_word(
    alloc: Global,
    places: u8,
    form: &GroupForm,
    group: &mut Group,
    number: u32,
    word: &str,
) -> Result<(), Refusal>
    ensures exact { (refuses : Refusals) → AreRefusals refuses → Makes (take_word refuses places (form_seen form.now) group.old (record { number = number; text = word.now })) group.new result }
{
    match option_in(form, word) {
        Some((name, value)) => take_known(alloc, places, form.value_form(name), group, name, value),
        None => take_plain(alloc, form, group, number, word),
    }
}

fn take_known(
    alloc: Global,
    places: u8,
    form: Option<ValueForm>,
    group: &mut Group,
    name: &str,
    value: &str,
) -> Result<(), Refusal>
    ensures exact { (refuses : Refusals) → AreRefusals refuses → Makes (take_known refuses places form (name.now, value.now) group.old) group.new result }
{
    let Some(form) = form else {
        return Err(Refusal::Why(WordWhy::UnknownOption));
    };
    if group.has_option(name) {
        return Err(Refusal::Why(WordWhy::OptionTwice));
    }
    if lacks_value(form, value) {
        return Err(Refusal::Why(WordWhy::MissingValue));
    }
    if is_excluded(form, group) {
        return Err(Refusal::Why(WordWhy::ExtraWord));
    }
    group.add_option(alloc, name, value)?;
    group.take_value(alloc, places, form, value)
}

fn lacks_value(form: ValueForm, value: &str) -> bool
    ensures exact { result ≡ lacks_value form value.now }
{
    match form {
        ValueForm::List | ValueForm::Keys => has_empty_piece(value),
        _ => value.is_empty(),
    }
}

// Whether the group has what the option may not stand beside.
fn is_excluded(form: ValueForm, group: &Group) -> bool
    ensures exact { result ≡ is_excluded form group.now }
{
    match form {
        ValueForm::Rect => group.has_argument(),
        ValueForm::Keys => group.has_option("calc"),
        ValueForm::Calculations => group.has_option("keys"),
        _ => false,
    }
}

fn take_plain(
    alloc: Global,
    form: &GroupForm,
    group: &mut Group,
    number: u32,
    word: &str,
) -> Result<(), Refusal>
    ensures exact { (refuses : Refusals) → AreRefusals refuses → Makes (take_plain refuses (form_seen form.now) (record { number = number; text = word.now }) group.old) group.new result }
{
    if form.has_bare(word) {
        take_bare(alloc, group, word)
    } else {
        take_argument(alloc, form.argument, group, number, word)
    }
}

fn take_bare(alloc: Global, group: &mut Group, word: &str) -> Result<(), Refusal>
    ensures exact { Makes (take_bare word.now group.old) group.new result }
{
    if group.has_bare(word) {
        return Err(Refusal::Why(WordWhy::OptionTwice));
    }
    if is_opposed(group, word) {
        return Err(Refusal::Why(WordWhy::ExtraWord));
    }
    group.add_bare(alloc, word)?;
    Ok(())
}

// Whether the group has the bare word that says the contrary.
fn is_opposed(group: &Group, word: &str) -> bool
    ensures exact { result ≡ is_opposed group.now word.now }
{
    match word {
        "ascending" => group.has_bare("descending"),
        "descending" => group.has_bare("ascending"),
        _ => false,
    }
}

fn take_argument(
    alloc: Global,
    form: ArgumentForm,
    group: &mut Group,
    number: u32,
    word: &str,
) -> Result<(), Refusal>
    ensures exact { (refuses : Refusals) → AreRefusals refuses → Makes (take_argument refuses form (record { number = number; text = word.now }) group.old) group.new result }
{
    if lacks_item(form, word) {
        return Err(Refusal::Why(WordWhy::MissingValue));
    }
    if !has_room(form, group) {
        return Err(Refusal::Why(WordWhy::ExtraWord));
    }
    let standard = reads_standard(form, word);
    if standard && group.reads_standard() {
        return Err(Refusal::Why(WordWhy::ExtraWord));
    }
    group.add_argument(alloc, number, word, standard)?;
    take_text(alloc, form, group, word)
}

fn lacks_item(form: ArgumentForm, word: &str) -> bool
    ensures exact { result ≡ (is_list form && has_empty_piece word.now) }
{
    matches!(form, ArgumentForm::List | ArgumentForm::Renames) && has_empty_piece(word)
}

fn reads_standard(form: ArgumentForm, word: &str) -> bool
    ensures exact { result ≡ (is_read form && is_standard word.now) }
{
    matches!(form, ArgumentForm::Files | ArgumentForm::Source) && is_standard(word)
}

fn has_room(form: ArgumentForm, group: &Group) -> bool
    ensures exact { result ≡ has_room form group.now }
{
    match form {
        ArgumentForm::Files => true,
        ArgumentForm::Nothing => false,
        _ => !(group.has_argument() || group.values().rect.is_some()),
    }
}

fn take_text(
    alloc: Global,
    form: ArgumentForm,
    group: &mut Group,
    word: &str,
) -> Result<(), Refusal>
    ensures exact { (refuses : Refusals) → AreRefusals refuses → Makes (take_text refuses form word.now group.old) group.new result }
{
    match form {
        ArgumentForm::Files if !names_file(word) => {
            return Err(Refusal::Why(WordWhy::UnsupportedFile));
        }
        ArgumentForm::Renames => group.set_renames(read_renames(alloc, word)?),
        ArgumentForm::Expression => group.set_expression(Expression::read(alloc, word)?),
        ArgumentForm::Assignments => group.set_assigns(Assignments::read(alloc, word)?),
        _ => {}
    }
    Ok(())
}
