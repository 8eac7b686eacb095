ghost use Rattle.std.specs.Prelude.{◌≡◌, ◌+◌, true, false, IfOk, option_map, unwrap_or, is_some, [], List, ℕ, length};
ghost use Rattle.std.specs.Option.{option_copied};
ghost use Rattle.cmd_words.specs.Texts.{pieces as piece_list};
ghost use Rattle.cmd_words.specs.Chains.{list_or_empty, target_of, argument_text, group_spec, join_spec, calc_spec, out_form, origin_of, write_of, dissolve_of, clean_of, filter_islands_of, layer_action_of, join_of, calculated_action_of, joint_action_of, action_of, layer_lacks_argument, calculated_lacks_argument, lacks_argument, lacks_form, takes_source};

use crate::action_words::ActionWords;
use crate::commands::{ExpressionKeyword, JointKeyword, Keyword, LayerKeyword};
use crate::option_values::Values;
use crate::texts::{form_by_ending, is_standard, names_file, pieces};
use crate::word_groups::Group;
use grid_base::OverlapRule;
use job_terms::{Action, JointAction, LayerAction, Origin, OutForm, Target};
use join_terms::{CalcList, CalcSpec, JoinSpec};
use std::alloc::{AllocError, Global};
use table_terms::GroupSpec;
use text_core::{NameList, Text};

/// What a command asks for, where its chain so far has `sources` sources and `boxes` boxes.
pub(crate) fn action(
    alloc: Global,
    sources: u32,
    boxes: u32,
    keyword: Keyword,
    group: &mut Group,
) -> Result<ActionWords, AllocError>
    requires argument { lacks_argument keyword group.old ≡ false }
    requires form { lacks_form keyword group.old ≡ false }
    ensures exact { IfOk result (λ a. a ≡ action_of sources boxes keyword group.old) }
{
    Ok(match keyword {
        Keyword::Write => ActionWords::Whole(write(alloc, group)?),
        Keyword::Each(keyword) => ActionWords::Whole(Action::Each(layer_action(
            alloc, sources, boxes, keyword, group,
        )?)),
        Keyword::Calculated(keyword) => calculated_action(alloc, sources, boxes, keyword, group)?,
        Keyword::Together(keyword) => {
            ActionWords::Whole(Action::Together(joint_action(keyword, group)))
        }
    })
}

fn write(alloc: Global, group: &Group) -> Result<Action, AllocError>
    requires form { is_some (out_form group.now) ≡ true }
    ensures exact { IfOk result (λ a. a ≡ write_of group.now) }
{
    let Some(form) = out_form(group) else {
        unreachable!()
    };
    let name = argument_text(group);
    Ok(Action::Write {
        to: Text::of(alloc, name)?,
        standard: is_standard(name),
        form,
    })
}

fn layer_action(
    alloc: Global,
    sources: u32,
    boxes: u32,
    keyword: LayerKeyword,
    group: &mut Group,
) -> Result<LayerAction, AllocError>
    ensures exact { IfOk result (λ a. a ≡ layer_action_of sources boxes keyword group.old) }
{
    Ok(match keyword {
        LayerKeyword::Clip => LayerAction::Clip {
            from: origin(alloc, sources, boxes, group)?,
        },
        LayerKeyword::Erase => LayerAction::Erase {
            from: origin(alloc, sources, boxes, group)?,
        },
        LayerKeyword::Dissolve => dissolve(alloc, group)?,
        LayerKeyword::Clean => clean(group),
        LayerKeyword::Mosaic => LayerAction::Mosaic,
        LayerKeyword::InnerLines => LayerAction::InnerLines,
        LayerKeyword::Explode => LayerAction::Explode,
        LayerKeyword::Lines => LayerAction::Lines {
            fields: list_or_empty(alloc, group.argument())?,
        },
        LayerKeyword::FilterFields => LayerAction::FilterFields {
            fields: list_or_empty(alloc, group.argument())?,
        },
        LayerKeyword::RenameFields => LayerAction::RenameFields {
            pairs: group.take_renames(alloc),
        },
        LayerKeyword::Split => LayerAction::Split {
            field: copy_of(alloc, group.argument())?,
        },
        LayerKeyword::FilterIslands => filter_islands(group),
    })
}

fn dissolve(alloc: Global, group: &Group) -> Result<LayerAction, AllocError>
    ensures exact { IfOk result (λ a. a ≡ dissolve_of group.now) }
{
    Ok(LayerAction::Dissolve {
        spec: group_spec(alloc, group)?,
        group_points: group.has_bare("group-points"),
    })
}

fn clean(group: &Group) -> LayerAction
    ensures exact { result ≡ clean_of group.now }
{
    let values = group.values();
    LayerAction::Clean {
        rule: values.rule.unwrap_or(OverlapRule::MaxArea),
        allow_empty: group.has_bare("allow-empty"),
        gap: values.gap.unwrap_or(0),
    }
}

fn filter_islands(group: &Group) -> LayerAction
    ensures exact { result ≡ filter_islands_of group.now }
{
    let values = group.values();
    LayerAction::FilterIslands {
        least_area: values.least_area.unwrap_or(0),
        least_links: values.least_links.unwrap_or(0),
        remove_empty: group.has_bare("remove-empty"),
    }
}

fn calculated_action(
    alloc: Global,
    sources: u32,
    boxes: u32,
    keyword: ExpressionKeyword,
    group: &mut Group,
) -> Result<ActionWords, AllocError>
    requires argument { calculated_lacks_argument keyword group.old ≡ false }
    ensures exact { IfOk result (λ a. a ≡ calculated_action_of sources boxes keyword group.old) }
{
    Ok(match keyword {
        ExpressionKeyword::Join => {
            let from = origin(alloc, sources, boxes, group)?;
            join(alloc, from, group)?
        }
        ExpressionKeyword::Filter => ActionWords::Filter {
            invert: group.has_bare("invert"),
            remove_empty: group.has_bare("remove-empty"),
            test: group.take_expression(),
        },
        ExpressionKeyword::Each => ActionWords::Each {
            assigns: group.take_assigns(),
        },
        ExpressionKeyword::Sort => ActionWords::Sort {
            descending: group.has_bare("descending"),
            key: group.take_key(),
        },
        ExpressionKeyword::Uniq => ActionWords::Uniq {
            most: group.values().most.unwrap_or(1),
            invert: group.has_bare("invert"),
            key: group.take_key(),
        },
    })
}

// A join by keys, or else by place.
fn join(alloc: Global, from: Origin, group: &mut Group) -> Result<ActionWords, AllocError>
    ensures exact { IfOk result (λ a. a ≡ join_of from group.old) }
{
    let Values {
        keys,
        calculations,
        test,
        ..
    } = group.take_values(alloc);
    match keys {
        Some(keys) => {
            let spec = join_spec(alloc, keys, group)?;
            Ok(ActionWords::Join { from, spec, test })
        }
        None => {
            let spec = calc_spec(alloc, calculations, group)?;
            Ok(ActionWords::SpatialJoin { from, spec, test })
        }
    }
}

fn joint_action(keyword: JointKeyword, group: &Group) -> JointAction
    ensures exact { result ≡ joint_action_of keyword group.now }
{
    match keyword {
        JointKeyword::MergeLayers => JointAction::MergeLayers {
            force: group.has_bare("force"),
        },
        JointKeyword::Union => JointAction::Union,
    }
}

fn origin(alloc: Global, sources: u32, boxes: u32, group: &Group) -> Result<Origin, AllocError>
    ensures exact { IfOk result (λ o. o ≡ origin_of sources boxes group.now) }
{
    if group.values().rect.is_some() {
        return Ok(Origin::Area(boxes));
    }
    let name = argument_text(group);
    if names_file(name) {
        let next = sources.checked_add(1).ok_or(AllocError)?;
        return Ok(Origin::Source(next));
    }
    Ok(Origin::Layer(Text::of(alloc, name)?))
}

fn group_spec(alloc: Global, group: &Group) -> Result<GroupSpec, AllocError>
    ensures exact { IfOk result (λ s. s ≡ group_spec group.now) }
{
    Ok(GroupSpec {
        by: list_or_empty(alloc, group.argument())?,
        copy: list_or_empty(alloc, group.value("copy-fields"))?,
        sum: list_or_empty(alloc, group.value("sum-fields"))?,
    })
}

fn join_spec(alloc: Global, keys: (Text, Text), group: &Group) -> Result<JoinSpec, AllocError>
    ensures exact { IfOk result (λ s. s ≡ join_spec keys group.now) }
{
    let (target_key, source_key) = keys;
    Ok(JoinSpec {
        target_key,
        source_key,
        fields: list_if_any(alloc, group.value("fields"))?,
        force: group.has_bare("force"),
        test: None,
        prefix: Text::of(alloc, group.value("prefix").unwrap_or(""))?,
    })
}

fn calc_spec(alloc: Global, calc: CalcList, group: &Group) -> Result<CalcSpec, AllocError>
    ensures exact { IfOk result (λ s. s ≡ calc_spec calc group.now) }
{
    Ok(CalcSpec {
        fields: list_if_any(alloc, group.value("fields"))?,
        force: group.has_bare("force"),
        test: None,
        prefix: Text::of(alloc, group.value("prefix").unwrap_or(""))?,
        calc,
    })
}

fn list_if_any(alloc: Global, list: Option<&str>) -> Result<Option<NameList>, AllocError>
    ensures exact { IfOk result (λ names. names ≡ option_map piece_list (option_copied list.entry)) }
{
    Ok(match list {
        None => None,
        Some(list) => Some(pieces(alloc, list)?),
    })
}

/// The names of a list that may be absent.
pub(crate) fn list_or_empty(alloc: Global, list: Option<&str>) -> Result<NameList, AllocError>
    ensures exact { IfOk result (λ names. names ≡ list_or_empty (option_copied list.entry)) }
{
    match list {
        None => Ok(NameList::new(alloc)),
        Some(list) => pieces(alloc, list),
    }
}

pub(crate) fn copy_of(alloc: Global, text: Option<&str>) -> Result<Option<Text>, AllocError>
    ensures exact { IfOk result (λ t. t ≡ option_copied text.entry) }
{
    Ok(match text {
        None => None,
        Some(text) => Some(Text::of(alloc, text)?),
    })
}

/// The layers that the option `target=` names.
pub(crate) fn target_of(alloc: Global, value: Option<&str>) -> Result<Target, AllocError>
    ensures exact { IfOk result (λ t. t ≡ target_of (option_copied value.entry)) }
{
    Ok(match value {
        None => Target::Default,
        Some(value) => {
            if value == "*" {
                Target::All
            } else {
                Target::Names(pieces(alloc, value)?)
            }
        }
    })
}

/// The first argument, or the empty text.
pub(crate) fn argument_text(group: &Group) -> &str
    ensures exact { result.now ≡ argument_text group.now }
{
    group.argument().unwrap_or("")
}

/// The form of an output, by its option, else by its name.
pub(crate) fn out_form(group: &Group) -> Option<OutForm>
    ensures exact { result ≡ out_form group.now }
{
    match group.values().form {
        Some(form) => Some(form),
        None => form_by_ending(argument_text(group)),
    }
}

/// Whether the command lacks an argument, or an option, that it needs.
pub(crate) fn lacks_argument(keyword: Keyword, group: &Group) -> bool
    ensures exact { result ≡ lacks_argument keyword group.now }
{
    match keyword {
        Keyword::Write => !group.has_argument(),
        Keyword::Each(keyword) => layer_lacks_argument(keyword, group),
        Keyword::Calculated(keyword) => calculated_lacks_argument(keyword, group),
        Keyword::Together(_) => false,
    }
}

fn layer_lacks_argument(keyword: LayerKeyword, group: &Group) -> bool
    ensures exact { result ≡ layer_lacks_argument keyword group.now }
{
    match keyword {
        LayerKeyword::Clip | LayerKeyword::Erase => {
            !(group.has_argument() || group.values().rect.is_some())
        }
        LayerKeyword::RenameFields => !group.has_argument(),
        LayerKeyword::FilterIslands => {
            !(group.has_option("min-area") || group.has_option("min-vertices"))
        }
        LayerKeyword::Dissolve
        | LayerKeyword::Clean
        | LayerKeyword::Mosaic
        | LayerKeyword::InnerLines
        | LayerKeyword::Explode
        | LayerKeyword::Lines
        | LayerKeyword::FilterFields
        | LayerKeyword::Split => false,
    }
}

fn calculated_lacks_argument(keyword: ExpressionKeyword, group: &Group) -> bool
    ensures exact { result ≡ calculated_lacks_argument keyword group.now }
{
    match keyword {
        ExpressionKeyword::Join => !group.has_argument(),
        ExpressionKeyword::Filter => !(group.has_argument() || group.has_bare("remove-empty")),
        ExpressionKeyword::Each => !group.has_assigns(),
        ExpressionKeyword::Sort | ExpressionKeyword::Uniq => !group.has_expression(),
    }
}

/// Whether nothing tells the form of an output.
pub(crate) fn lacks_form(keyword: Keyword, group: &Group) -> bool
    ensures exact { result ≡ lacks_form keyword group.now }
{
    matches!(keyword, Keyword::Write) && out_form(group).is_none()
}

/// Whether the argument of the command may name a file for reading.
pub(crate) fn takes_source(keyword: Keyword) -> bool
    ensures exact { result ≡ takes_source keyword }
{
    matches!(
        keyword,
        Keyword::Each(LayerKeyword::Clip | LayerKeyword::Erase)
            | Keyword::Calculated(ExpressionKeyword::Join)
    )
}
