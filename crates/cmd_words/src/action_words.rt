ghost use Rattle.cmd_words.specs.ActionWords.{FitsAction, FitsCommand, FitsJoin, FitsSpatialJoin};
ghost use Rattle.cmd_words.specs.Expressions.{FitsTest};

use crate::expressions::{Assignments, Expression};
use expr_lang::Expr;
use job_terms::{Action, Command, LayerAction, Origin, Target};
use join_terms::{CalcSpec, JoinSpec};
use text_core::Text;

/// An action as its words ask for it, which are seen with the texts of its expressions.
#[derive(Drop)]
pub enum ActionWords {
    /// An action without an expression.
    Whole(Action),
    Join {
        from: Origin,
        /// Its expression is left out.
        spec: JoinSpec,
        test: Option<Expression>,
    },
    SpatialJoin {
        from: Origin,
        /// Its expression is left out.
        spec: CalcSpec,
        test: Option<Expression>,
    },
    Filter {
        test: Option<Expression>,
        invert: bool,
        remove_empty: bool,
    },
    Each {
        assigns: Assignments,
    },
    Sort {
        key: Expression,
        descending: bool,
    },
    Uniq {
        key: Expression,
        most: u32,
        invert: bool,
    },
}

/// A command as its words ask for it.
#[derive(Drop)]
pub struct CommandWords {
    pub target: Target,
    pub name: Option<Text>,
    pub keep: bool,
    pub action: ActionWords,
}

pub(crate) fn whole_command(words: CommandWords) -> Command
    ensures fits { FitsCommand words result }
{
    let CommandWords {
        target,
        name,
        keep,
        action,
    } = words;
    Command {
        target,
        name,
        keep,
        action: whole_action(action),
    }
}

fn whole_action(words: ActionWords) -> Action
    ensures fits { FitsAction words result }
{
    match words {
        ActionWords::Whole(action) => action,
        ActionWords::Join { from, spec, test } => Action::Each(LayerAction::Join {
            from,
            spec: with_test(spec, test),
        }),
        ActionWords::SpatialJoin { from, spec, test } => Action::Each(LayerAction::SpatialJoin {
            from,
            spec: calc_with_test(spec, test),
        }),
        ActionWords::Filter {
            test,
            invert,
            remove_empty,
        } => Action::Each(LayerAction::Filter {
            test: tree_of(test),
            invert,
            remove_empty,
        }),
        ActionWords::Each { assigns } => Action::Each(LayerAction::Each {
            assigns: assigns.into_list(),
        }),
        ActionWords::Sort { key, descending } => Action::Each(LayerAction::Sort {
            key: key.into_tree(),
            descending,
        }),
        ActionWords::Uniq { key, most, invert } => Action::Each(LayerAction::Uniq {
            key: key.into_tree(),
            most,
            invert,
        }),
    }
}

fn with_test(spec: JoinSpec, test: Option<Expression>) -> JoinSpec
    ensures fits { FitsJoin spec test result }
{
    JoinSpec {
        target_key: spec.target_key,
        source_key: spec.source_key,
        fields: spec.fields,
        force: spec.force,
        test: tree_of(test),
        prefix: spec.prefix,
    }
}

fn calc_with_test(spec: CalcSpec, test: Option<Expression>) -> CalcSpec
    ensures fits { FitsSpatialJoin spec test result }
{
    CalcSpec {
        fields: spec.fields,
        force: spec.force,
        test: tree_of(test),
        prefix: spec.prefix,
        calc: spec.calc,
    }
}

fn tree_of(test: Option<Expression>) -> Option<Expr>
    ensures fits { FitsTest test result }
{
    match test {
        None => None,
        Some(test) => Some(test.into_tree()),
    }
}
