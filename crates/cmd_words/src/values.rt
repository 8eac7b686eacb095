ghost use Rattle.std.specs.Prelude.{◌≡◌, Some};
ghost use Rattle.cmd_words.specs.Values.{rule_of, form_named, pair_of, renamed, renames_of};
ghost use Rattle.cmd_words.specs.Texts.{at_first_equals};
ghost use Rattle.cmd_words.specs.Steps.{Gives, or_refused};
ghost use Rattle.cmd_words.specs.declared.fault.WordWhy.TheVariants.{BadChoice};

use crate::fault::{Refusal, WordWhy};
use crate::texts::{at_first_equals, pieces};
use grid_base::OverlapRule;
use job_terms::OutForm;
use std::alloc::Global;
use table_terms::{Rename, RenameList};
use text_core::Text;

pub(crate) fn rule_of(value: &str) -> Option<OverlapRule>
    ensures exact { result ≡ rule_of value.now }
{
    match value {
        "min-id" => Some(OverlapRule::MinId),
        "max-id" => Some(OverlapRule::MaxId),
        "min-area" => Some(OverlapRule::MinArea),
        "max-area" => Some(OverlapRule::MaxArea),
        _ => None,
    }
}

pub(crate) fn form_named(value: &str) -> Option<OutForm>
    ensures exact { result ≡ form_named value.now }
{
    match value {
        "geojson" => Some(OutForm::Geo),
        "topojson" => Some(OutForm::Topo),
        "csv" => Some(OutForm::Csv),
        _ => None,
    }
}

/// The two names of a list.
pub(crate) fn read_keys(alloc: Global, value: &str) -> Result<(Text, Text), Refusal>
    ensures exact { Gives (or_refused BadChoice (pair_of value.now)) (λ keys. keys) result }
{
    let names = pieces(alloc, value)?;
    match names.as_slice() {
        [target, source] => Ok((
            Text::of(alloc, target.as_str())?,
            Text::of(alloc, source.as_str())?,
        )),
        _ => Err(Refusal::Why(WordWhy::BadChoice)),
    }
}

/// A list of renames, each a new name, `=` and the old one.
pub(crate) fn read_renames(alloc: Global, value: &str) -> Result<RenameList, Refusal>
    ensures exact { Gives (renames_of value.now) (λ r. r) result }
{
    let items = pieces(alloc, value)?;
    let mut renames = RenameList::new(alloc);
    for item in items.as_slice() {
        let rename = read_rename(alloc, item.as_str())?;
        renames.push(rename)?;
    }
    Ok(renames)
}

fn read_rename(alloc: Global, item: &str) -> Result<Rename, Refusal>
    ensures exact { Gives (renamed (at_first_equals item.now)) (λ r. r) result }
{
    match at_first_equals(item) {
        Some((label, field)) => rename(alloc, label, field),
        None => Err(Refusal::Why(WordWhy::BadChoice)),
    }
}

fn rename(alloc: Global, label: &str, field: &str) -> Result<Rename, Refusal>
    ensures exact { Gives (renamed (Some (label.now, field.now))) (λ r. r) result }
{
    if label.is_empty() || field.is_empty() {
        return Err(Refusal::Why(WordWhy::BadChoice));
    }
    let label = Text::of(alloc, label)?;
    let field = Text::of(alloc, field)?;
    Ok(Rename { label, field })
}
