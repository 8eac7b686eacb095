ghost use Rattle.std.specs.Prelude.{◌≡◌, ◌+◌, ◌++◌, ◌∷◌, [], IfOk, OnOk, false, length};
ghost use Rattle.std.specs.Option.{option_to_list};
ghost use Rattle.cmd_words.specs.ActionWords.{FitEach};
ghost use Rattle.cmd_words.specs.Chains.{command_words, lacks_argument, lacks_form, source_of, with_command};
ghost use Rattle.cmd_words.specs.Words.{imported};

use crate::action_words::{CommandWords, whole_command};
use crate::actions::{action, argument_text, copy_of, list_or_empty, takes_source, target_of};
use crate::commands::Keyword;
use crate::texts::{is_standard, names_file};
use crate::word_groups::Group;
use grid_base::{BoxList, Rect};
use job_terms::{Chain, CommandList, Owner, SourceList, SourceWord};
use std::alloc::{AllocError, Global};
use std::marker::Model;
use text_core::Text;

/// What a chain asks for so far.
#[derive(Drop)]
pub(crate) struct SoFar {
    sources: SourceList,
    boxes: BoxList,
    commands: Vec<CommandWords>,
    /// Some source is standard input.
    reads_standard: bool,
}

impl Model for SoFar {
    ghost use Rattle.cmd_words.specs.Chains.{SoFar as SoFarWords};
    ghost use Rattle.job_terms.specs.contracts.job.SourceWord as source_type;
    ghost use Rattle.grid_base.specs.contracts.rect.Rect as box_type;
    ghost use Rattle.cmd_words.specs.contracts.action_words.CommandWords as command_type;
    ghost use Rattle.std.specs.Prelude.{refl};
    ghost use Rattle.std.specs.Coded.{code_by, coded×, coded_list, coded_bool};

    ghost Value = { SoFarWords };

    ghost coded = { code_by _ (coded× (coded× (coded_list source_type.the_row.coded) (coded_list box_type.the_row.coded)) (coded× (coded_list command_type.the_row.coded) coded_bool)) (λ s. ((s.sources, s.boxes), (s.commands, s.reads_standard))) (λ p. record { sources = p.0.0; boxes = p.0.1; commands = p.1.0; reads_standard = p.1.1 }) (λ _. refl) };

    ghost view = { λ s. record { sources = s.sources; boxes = s.boxes; commands = s.commands.items; reads_standard = s.reads_standard } };
}

impl SoFar {
    /// The chain of an import.
    pub(crate) fn of_import(alloc: Global, group: &Group) -> Result<SoFar, AllocError>
        ensures exact { IfOk result (λ s. s ≡ imported group.now) }
    {
        Ok(SoFar {
            sources: group.import_sources(alloc)?,
            boxes: BoxList::new(alloc),
            commands: Vec::new(alloc),
            reads_standard: group.reads_standard(),
        })
    }

    pub(crate) fn reads_standard(&self) -> bool
        ensures exact { result ≡ self.now.reads_standard }
    {
        self.reads_standard
    }

    /// Adds the command of a group, and takes what the group holds.
    pub(crate) fn add(
        &mut self,
        alloc: Global,
        keyword: Keyword,
        group: &mut Group,
    ) -> Result<(), AllocError>
        requires argument { lacks_argument keyword group.old ≡ false }
        requires form { lacks_form keyword group.old ≡ false }
        ensures ok { OnOk result (self.new ≡ with_command self.old keyword group.old) }
    {
        let (sources, boxes) = (self.sources.len(), self.boxes.len());
        self.add_source(alloc, keyword, group)?;
        self.add_box(group.values().rect)?;
        self.reads_standard = group.reads_standard();
        let command = command_words(alloc, sources, boxes, keyword, group)?;
        self.commands.push(command)?;
        Ok(())
    }

    // The file that the next command reads, if it reads one.
    fn add_source(
        &mut self,
        alloc: Global,
        keyword: Keyword,
        group: &Group,
    ) -> Result<(), AllocError>
        ensures ok { OnOk result (self.new ≡ record self.old { sources = self.old.sources ++ option_to_list (source_of (length self.old.commands + 1) keyword group.now) }) }
    {
        if let Some(source) = source_of(alloc, self.commands.len(), keyword, group)? {
            self.sources.push(source)?;
        }
        Ok(())
    }

    fn add_box(&mut self, rect: Option<Rect>) -> Result<(), AllocError>
        ensures ok { OnOk result (self.new ≡ record self.old { boxes = self.old.boxes ++ option_to_list rect }) }
    {
        if let Some(rect) = rect {
            self.boxes.push(rect)?;
        }
        Ok(())
    }

    pub(crate) fn into_chain(self, alloc: Global, places: u8) -> Result<Chain, AllocError>
        ensures places { IfOk result (λ c. c.places ≡ places) }
        ensures sources { IfOk result (λ c. c.sources ≡ self.sources) }
        ensures boxes { IfOk result (λ c. c.boxes ≡ self.boxes) }
        ensures commands { IfOk result (λ c. FitEach self.commands c.commands) }
    {
        let SoFar {
            sources,
            boxes,
            commands,
            reads_standard: _,
        } = self;
        Ok(Chain {
            places,
            sources,
            boxes,
            commands: whole_commands(alloc, commands)?,
        })
    }
}

// The file that the command after `commands` others reads.
fn source_of(
    alloc: Global,
    commands: usize,
    keyword: Keyword,
    group: &Group,
) -> Result<Option<SourceWord>, AllocError>
    ensures exact { IfOk result (λ s. s ≡ source_of (commands + 1) keyword group.now) }
{
    let name = argument_text(group);
    if !takes_source(keyword) || !names_file(name) {
        return Ok(None);
    }
    if commands >= u32::MAX as usize {
        return Err(AllocError);
    }
    Ok(Some(SourceWord {
        name: Text::of(alloc, name)?,
        standard: is_standard(name),
        owner: Owner::Command(commands as u32 + 1),
        string_fields: list_or_empty(alloc, group.value("string-fields"))?,
    }))
}

// What a group asks for, where `sources` sources and `boxes` boxes stand before it.
fn command_words(
    alloc: Global,
    sources: u32,
    boxes: u32,
    keyword: Keyword,
    group: &mut Group,
) -> Result<CommandWords, AllocError>
    requires argument { lacks_argument keyword group.old ≡ false }
    requires form { lacks_form keyword group.old ≡ false }
    ensures exact { IfOk result (λ w. w ≡ command_words sources boxes keyword group.old) }
{
    Ok(CommandWords {
        target: target_of(alloc, group.value("target"))?,
        name: copy_of(alloc, group.value("name"))?,
        keep: group.has_bare("+"),
        action: action(alloc, sources, boxes, keyword, group)?,
    })
}

// The commands with their expressions in place.
fn whole_commands(alloc: Global, commands: Vec<CommandWords>) -> Result<CommandList, AllocError>
    ensures fits { IfOk result (λ whole. FitEach commands.items whole) }
{
    let mut whole = CommandList::new(alloc);
    for command in commands {
        whole.push(whole_command(command))?;
    }
    Ok(whole)
}
