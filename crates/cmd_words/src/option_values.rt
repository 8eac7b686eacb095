ghost use Rattle.std.specs.Prelude.{◌≡◌, ◌≤◌, IfSome};
ghost use Rattle.grid_base.specs.Grid.{most_places};
ghost use Rattle.cmd_words.specs.Expressions.{Refusals, AreRefusals};
ghost use Rattle.cmd_words.specs.OptionValues.{no_values, take_value};
ghost use Rattle.cmd_words.specs.Steps.{Makes};

use crate::boxes::{places_of, read_box};
use crate::calculations::read_calculations;
use crate::commands::ValueForm;
use crate::expressions::Expression;
use crate::fault::{Refusal, WordWhy};
use crate::quantities::{count_of, gap_of, least_area_of};
use crate::values::{form_named, read_keys, rule_of};
use grid_base::{OverlapRule, Rect};
use job_terms::OutForm;
use join_terms::CalcList;
use std::alloc::Global;
use text_core::Text;

/// What the options of a group ask for, but for texts and lists: each value as it was read where its word was taken.
#[derive(Drop)]
pub(crate) struct Values {
    pub places: Option<u8>,
    pub rule: Option<OverlapRule>,
    pub form: Option<OutForm>,
    pub rect: Option<Rect>,
    /// The keys of a join, of its target and of its source.
    pub keys: Option<(Text, Text)>,
    /// Twice the area in squares of the grid.
    pub gap: Option<u128>,
    /// Twice the area in squares of the grid.
    pub least_area: Option<u128>,
    pub most: Option<u32>,
    pub least_links: Option<u32>,
    pub calculations: CalcList,
    pub test: Option<Expression>,
}

impl Values {
    pub(crate) fn new(alloc: Global) -> Values
        ensures empty { result ≡ no_values }
    {
        Values {
            places: None,
            rule: None,
            form: None,
            rect: None,
            keys: None,
            gap: None,
            least_area: None,
            most: None,
            least_links: None,
            calculations: CalcList::new(alloc),
            test: None,
        }
    }

    /// Takes the value of an option of this form, with `places` decimal places.
    ///
    /// Errors: the value is refused.
    pub(crate) fn take(
        &mut self,
        alloc: Global,
        places: u8,
        form: ValueForm,
        value: &str,
    ) -> Result<(), Refusal>
        ensures exact { (refuses : Refusals) → AreRefusals refuses → Makes (take_value refuses places form value.now self.old) self.new result }
        ensures few { IfSome self.old.places (λ k. k ≤ most_places) → IfSome self.new.places (λ k. k ≤ most_places) }
    {
        match form {
            ValueForm::Text | ValueForm::List => {}
            ValueForm::Keys => self.keys = Some(read_keys(alloc, value)?),
            ValueForm::Precision => {
                self.places = Some(places_of(value).ok_or(WordWhy::BadPrecision)?);
            }
            ValueForm::Rule => self.rule = Some(rule_of(value).ok_or(WordWhy::BadChoice)?),
            ValueForm::Format => {
                self.form = Some(form_named(value).ok_or(WordWhy::BadChoice)?);
            }
            ValueForm::Rect => self.rect = Some(read_box(alloc, places, value)?),
            ValueForm::Expression => self.test = Some(Expression::read(alloc, value)?),
            ValueForm::Gap => {
                self.gap = Some(gap_of(places, value).ok_or(WordWhy::BadNumber)?);
            }
            ValueForm::LeastArea => {
                let area = least_area_of(places, value).ok_or(WordWhy::BadNumber)?;
                self.least_area = Some(area);
            }
            ValueForm::CountFromOne => {
                self.most = Some(count_of(1, value).ok_or(WordWhy::BadNumber)?);
            }
            ValueForm::CountFromZero => {
                self.least_links = Some(count_of(0, value).ok_or(WordWhy::BadNumber)?);
            }
            ValueForm::Calculations => self.calculations = read_calculations(alloc, value)?,
        }
        Ok(())
    }
}
