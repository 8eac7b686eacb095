ghost use Rattle.std.specs.Prelude.{◌≡◌, ◌++◌, ◌∷◌, [], OnOk, IfOk, None, Some, is_some, unwrap_or, true, ◌||◌, map};
ghost use Rattle.std.specs.Option.{option_copied};
ghost use Rattle.cmd_words.specs.Rows.{has_name};
ghost use Rattle.cmd_words.specs.Settings.{value_named};
ghost use Rattle.cmd_words.specs.Words.{import_source};

use crate::actions::list_or_empty;
use crate::commands::ValueForm;
use crate::expressions::{Assignments, Expression};
use crate::fault::Refusal;
use crate::option_values::Values;
use crate::texts::is_standard;
use job_terms::{Owner, SourceList, SourceWord};
use std::alloc::{AllocError, Global};
use std::marker::Model;
use std::mem;
use table_terms::RenameList;
use text_core::{NameList, Text};

/// A word, and its number from 1.
#[derive(Drop)]
pub(crate) struct Word {
    pub number: u32,
    pub text: Text,
}

/// An option, as its word says it.
#[derive(Drop)]
pub(crate) struct Setting {
    pub name: Text,
    pub value: Text,
}

/// The words that were read so far of a group: of the import, or of one command.
#[derive(Drop)]
pub(crate) struct Group {
    arguments: Vec<Word>,
    options: Vec<Setting>,
    bare: NameList,
    /// Some word of the chain so far reads standard input.
    reads_standard: bool,
    values: Values,
    renames: RenameList,
    expression: Option<Expression>,
    assigns: Option<Assignments>,
}

impl Model for Group {
    ghost use Rattle.std.specs.Prelude.{◌≤◌, IfSome};
    ghost use Rattle.grid_base.specs.Grid.{most_places};
    ghost use Rattle.cmd_words.specs.Groups.{Group as Words};

    ghost Value = { Words };

    ghost view = { λ g. record { arguments = g.arguments.items; options = g.options.items; bare = g.bare; reads_standard = g.reads_standard; values = g.values; renames = g.renames; expression = g.expression; assigns = g.assigns } };

    ghost invariant = { λ g. IfSome g.values.places (λ k. k ≤ most_places) };
}

impl Group {
    ghost use Rattle.cmd_words.specs.Words.{import_sources};
    ghost use Rattle.std.specs.Prelude.{◌≤◌, IfSome};
    ghost use Rattle.grid_base.specs.Grid.{most_places};
    ghost use Rattle.cmd_words.specs.Expressions.{Refusals, AreRefusals};
    ghost use Rattle.cmd_words.specs.Steps.{Makes};
    ghost use Rattle.cmd_words.specs.OptionValues.{no_values};
    ghost use Rattle.cmd_words.specs.Options.{with_value};
    ghost use Rattle.cmd_words.specs.Groups.{empty_group, value_in, argument_in, has_bare, first_number};

    pub(crate) fn new(alloc: Global, reads_standard: bool) -> Group
        ensures empty { result ≡ empty_group reads_standard }
    {
        Group {
            arguments: Vec::new(alloc),
            options: Vec::new(alloc),
            bare: NameList::new(alloc),
            reads_standard,
            values: Values::new(alloc),
            renames: RenameList::new(alloc),
            expression: None,
            assigns: None,
        }
    }

    /// The value of the option of this name.
    pub(crate) fn value(&self, name: &str) -> Option<&str>
        ensures exact { option_copied result ≡ value_in self.now name.now }
    {
        value_named(self.options.as_slice(), name)
    }

    pub(crate) fn has_option(&self, name: &str) -> bool
        ensures exact { result ≡ is_some (value_in self.now name.now) }
    {
        self.value(name).is_some()
    }

    pub(crate) fn has_bare(&self, word: &str) -> bool
        ensures exact { result ≡ has_bare self.now word.now }
    {
        is_among(self.bare.as_slice(), word)
    }

    /// The first argument.
    pub(crate) fn argument(&self) -> Option<&str>
        ensures exact { option_copied result ≡ argument_in self.now }
    {
        match self.arguments.as_slice() {
            [] => None,
            [first, ..] => Some(first.text.as_str()),
        }
    }

    pub(crate) fn has_argument(&self) -> bool
        ensures exact { result ≡ is_some (argument_in self.now) }
    {
        !self.arguments.is_empty()
    }

    /// The number of the word of the first argument, which there is.
    pub(crate) fn first_number(&self) -> u32
        requires some { is_some (argument_in self.now) ≡ true }
        ensures exact { result ≡ first_number self.now }
    {
        match self.arguments.as_slice() {
            [] => unreachable!(),
            [first, ..] => first.number,
        }
    }

    pub(crate) fn reads_standard(&self) -> bool
        ensures exact { result ≡ self.now.reads_standard }
    {
        self.reads_standard
    }

    /// The values of the options.
    pub(crate) fn values(&self) -> &Values
        ensures exact { result.now ≡ self.now.values }
        ensures few { IfSome result.now.places (λ k. k ≤ most_places) }
    {
        &self.values
    }

    pub(crate) fn has_expression(&self) -> bool
        ensures exact { result ≡ is_some self.now.expression }
    {
        self.expression.is_some()
    }

    pub(crate) fn has_assigns(&self) -> bool
        ensures exact { result ≡ is_some self.now.assigns }
    {
        self.assigns.is_some()
    }

    /// The sources of an import.
    pub(crate) fn import_sources(&self, alloc: Global) -> Result<SourceList, AllocError>
        ensures exact { IfOk result (λ s. s ≡ import_sources self.now) }
    {
        sources_of(
            alloc,
            self.arguments.as_slice(),
            self.value("string-fields"),
        )
    }

    pub(crate) fn add_option(
        &mut self,
        alloc: Global,
        name: &str,
        value: &str,
    ) -> Result<(), AllocError>
        ensures ok { OnOk result (self.new ≡ record self.old { options = self.old.options ++ record { name = name.now; value = value.now } ∷ [] }) }
    {
        let name = Text::of(alloc, name)?;
        let value = Text::of(alloc, value)?;
        self.options.push(Setting { name, value })?;
        Ok(())
    }

    pub(crate) fn add_bare(&mut self, alloc: Global, word: &str) -> Result<(), AllocError>
        ensures ok { OnOk result (self.new ≡ record self.old { bare = self.old.bare ++ word.now ∷ [] }) }
    {
        let word = Text::of(alloc, word)?;
        self.bare.push(word)
    }

    /// Adds an argument; `standard` says that it reads standard input.
    pub(crate) fn add_argument(
        &mut self,
        alloc: Global,
        number: u32,
        word: &str,
        standard: bool,
    ) -> Result<(), AllocError>
        ensures ok { OnOk result (self.new ≡ record self.old { arguments = self.old.arguments ++ record { number = number; text = word.now } ∷ []; reads_standard = self.old.reads_standard || standard }) }
    {
        let text = Text::of(alloc, word)?;
        self.arguments.push(Word { number, text })?;
        self.reads_standard = self.reads_standard || standard;
        Ok(())
    }

    /// Takes the value of an option of this form, with `places` decimal places.
    ///
    /// Errors: the value is refused.
    pub(crate) fn take_value(
        &mut self,
        alloc: Global,
        places: u8,
        form: ValueForm,
        value: &str,
    ) -> Result<(), Refusal>
        ensures exact { (refuses : Refusals) → AreRefusals refuses → Makes (with_value refuses places form value.now self.old) self.new result }
    {
        self.values.take(alloc, places, form, value)
    }

    pub(crate) fn set_renames(&mut self, renames: RenameList)
        ensures exact { self.new ≡ record self.old { renames = renames } }
    {
        self.renames = renames;
    }

    pub(crate) fn set_expression(&mut self, expression: Expression)
        ensures exact { self.new ≡ record self.old { expression = Some expression } }
    {
        self.expression = Some(expression);
    }

    pub(crate) fn set_assigns(&mut self, assigns: Assignments)
        ensures exact { self.new ≡ record self.old { assigns = Some assigns } }
    {
        self.assigns = Some(assigns);
    }

    /// The values of the options, of which the group has none from then on.
    pub(crate) fn take_values(&mut self, alloc: Global) -> Values
        ensures exact { result ≡ self.old.values }
        ensures after { self.new ≡ record self.old { values = no_values } }
    {
        mem::replace(&mut self.values, Values::new(alloc))
    }

    pub(crate) fn take_renames(&mut self, alloc: Global) -> RenameList
        ensures exact { result ≡ self.old.renames }
        ensures after { self.new ≡ record self.old { renames = [] } }
    {
        mem::replace(&mut self.renames, RenameList::new(alloc))
    }

    /// The expression that the argument is.
    pub(crate) fn take_expression(&mut self) -> Option<Expression>
        ensures exact { result ≡ self.old.expression }
        ensures after { self.new ≡ record self.old { expression = None } }
    {
        self.expression.take()
    }

    /// The expression of a group that has one.
    pub(crate) fn take_key(&mut self) -> Expression
        requires { is_some self.old.expression ≡ true }
        ensures exact { result ≡ unwrap_or self.old.expression [] }
    {
        self.expression.take().unwrap()
    }

    /// The assignments of a group that has them.
    pub(crate) fn take_assigns(&mut self) -> Assignments
        requires { is_some self.old.assigns ≡ true }
        ensures exact { result ≡ unwrap_or self.old.assigns [] }
    {
        self.assigns.take().unwrap()
    }
}

fn sources_of(alloc: Global, files: &[Word], fields: Option<&str>) -> Result<SourceList, AllocError>
    ensures exact { IfOk result (λ s. s ≡ map (import_source (option_copied fields.entry)) files.now) }
{
    let mut sources = SourceList::new(alloc);
    for file in files {
        let source = import_source(alloc, file, fields)?;
        sources.push(source)?;
    }
    Ok(sources)
}

fn import_source(alloc: Global, file: &Word, fields: Option<&str>) -> Result<SourceWord, AllocError>
    ensures exact { IfOk result (λ s. s ≡ import_source (option_copied fields.entry) file.now) }
{
    let name = file.text.as_str();
    Ok(SourceWord {
        name: Text::of(alloc, name)?,
        standard: is_standard(name),
        owner: Owner::Import,
        string_fields: list_or_empty(alloc, fields)?,
    })
}

fn value_named<'a>(options: &'a [Setting], name: &str) -> Option<&'a str>
    ensures exact { option_copied result ≡ value_named options.now name.now }
{
    for option in options {
        if option.name.as_str() == name {
            return Some(option.value.as_str());
        }
    }
    None
}

fn is_among(names: &[Text], name: &str) -> bool
    ensures exact { result ≡ has_name names.now name.now }
{
    for known in names {
        if known.as_str() == name {
            return true;
        }
    }
    false
}
