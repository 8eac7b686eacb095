ghost use Rattle.std.specs.Prelude.{◌≡◌, IfOk, None, MatchResult};
ghost use Rattle.expr_lang.specs.Tree.{tree_of, all_assigned};
ghost use Rattle.cmd_words.specs.Expressions.{Refusals, AreRefusals, expression, assignments};
ghost use Rattle.cmd_words.specs.ReadsAs.{IsRefusedFor, refusal_of};
ghost use Rattle.expr_lang.specs.Faults.{IsTree, AreAssigns};

use crate::fault::{ExprWhy, Refusal, WordWhy};
use expr_lang::{AssignList, Expr, ExprFault};
use std::alloc::Global;
use std::marker::Model;
use text_core::Text;

/// An expression beside the text that it was read from, and seen as that text.
#[derive(Drop)]
pub struct Expression {
    text: Text,
    tree: Expr,
}

impl Model for Expression {
    ghost use Rattle.std.specs.Prelude.{List, ℕ};
    ghost use Rattle.expr_lang.specs.Tree.{tree_of};
    ghost use Rattle.expr_lang.specs.Faults.{IsTree};

    ghost Value = { List ℕ };

    ghost view = { λ e. e.text };

    ghost invariant = { λ e. IsTree e.text (tree_of e.tree) };
}

impl Expression {
    /// The expression that a text is; a word that holds another text is refused as `BadExpression`.
    pub(crate) fn read(alloc: Global, text: &str) -> Result<Expression, Refusal>
        ensures ok { IfOk result (λ e. e ≡ text.now) }
        ensures exact { (refuses : Refusals) → AreRefusals refuses → MatchResult result (λ _. refuses expression text.now ≡ None) (IsRefusedFor (refuses expression text.now)) }
    {
        let copy = Text::of(alloc, text)?;
        let tree = match Expr::parse(alloc, text) {
            Ok(tree) => tree,
            Err(fault) => return Err(refusal_of(fault)),
        };
        Ok(Expression { text: copy, tree })
    }

    pub(crate) fn into_tree(self) -> Expr
        ensures tree { IsTree self (tree_of result) }
    {
        let Expression { text: _, tree } = self;
        tree
    }
}

/// Assignments beside the text that they were read from, and seen as that text.
#[derive(Drop)]
pub struct Assignments {
    text: Text,
    assigns: AssignList,
}

impl Model for Assignments {
    ghost use Rattle.std.specs.Prelude.{List, ℕ};
    ghost use Rattle.expr_lang.specs.Tree.{all_assigned};
    ghost use Rattle.expr_lang.specs.Faults.{AreAssigns};

    ghost Value = { List ℕ };

    ghost view = { λ a. a.text };

    ghost invariant = { λ a. AreAssigns a.text (all_assigned a.assigns) };
}

impl Assignments {
    /// The assignments that a text is; a word that holds another text is refused as `BadExpression`.
    pub(crate) fn read(alloc: Global, text: &str) -> Result<Assignments, Refusal>
        ensures ok { IfOk result (λ a. a ≡ text.now) }
        ensures exact { (refuses : Refusals) → AreRefusals refuses → MatchResult result (λ _. refuses assignments text.now ≡ None) (IsRefusedFor (refuses assignments text.now)) }
    {
        let copy = Text::of(alloc, text)?;
        let assigns = match Expr::parse_each(alloc, text) {
            Ok(assigns) => assigns,
            Err(fault) => return Err(refusal_of(fault)),
        };
        Ok(Assignments {
            text: copy,
            assigns,
        })
    }

    pub(crate) fn into_list(self) -> AssignList
        ensures assigns { AreAssigns self (all_assigned result) }
    {
        let Assignments { text: _, assigns } = self;
        assigns
    }
}

fn refusal_of(fault: ExprFault) -> Refusal
    ensures exact { result ≡ refusal_of fault }
{
    match fault {
        ExprFault::Syntax { at } => Refusal::Why(WordWhy::BadExpression {
            at,
            why: ExprWhy::Syntax,
        }),
        ExprFault::Unsupported { at } => Refusal::Why(WordWhy::BadExpression {
            at,
            why: ExprWhy::Unsupported,
        }),
        ExprFault::Depth { at } => Refusal::Why(WordWhy::BadExpression {
            at,
            why: ExprWhy::Depth,
        }),
        ExprFault::Memory => Refusal::Memory,
    }
}
