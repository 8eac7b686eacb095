ghost use Rattle.std.specs.Prelude.{◌≡◌, ◌<◌, ◌≤◌, length, IfOk, IfErr, OnOk};
ghost use Rattle.expr_lang.specs.Faults.{byte_limit};
ghost use Rattle.expr_lang.specs.Tree.{tree_of, all_assigned};
ghost use Rattle.expr_lang.specs.declared.fault.ExprFault.TheVariants as fault;

use crate::assign::AssignList;
use crate::expr::Expr;
use crate::fault::ExprFault;
use crate::parser::Parser;
use crate::scanner::tokens;
use std::alloc::Global;

/// The greatest length of a text, in bytes.
pub const MAX_LENGTH: usize = 4096;

impl Expr {
    ghost use Rattle.expr_lang.specs.Faults.{IsTree, FaultFits, AreAssigns, AssignsFaultFits};

    /// The expression that a text is.
    ///
    /// Errors: `Depth` at 4,096 for a longer text, before all else. In every other refused text the fault
    /// stands at the first token, or at the text's end, at which no expression goes on; places are bytes, counted
    /// from 0. And `Memory`.
    pub fn parse(alloc: Global, text: &str) -> Result<Expr, ExprFault>
        ensures ok { IfOk result (λ e. IsTree text.now (tree_of e)) }
        ensures fault { IfErr result (FaultFits text.now) }
    {
        check_length(text)?;
        let tokens = tokens(alloc, text)?;
        let mut parser = Parser::new(alloc, tokens.as_slice());
        match parser.expression() {
            Ok(root) => Ok(Expr { root }),
            Err(stop) => Err(parser.stopped(stop, text.len() as u32)),
        }
    }

    /// The assignments that a text is: `a = 1; b = a + 1`, in which a last `;` may stand. A name is none of
    /// `true`, `false`, `null` and `this`.
    ///
    /// Errors: those of `parse`, at the first place at which no assignments go on. A place counts from the
    /// beginning of the whole text.
    pub fn parse_each(alloc: Global, text: &str) -> Result<AssignList, ExprFault>
        ensures ok { IfOk result (λ l. AreAssigns text.now (all_assigned l)) }
        ensures fault { IfErr result (AssignsFaultFits text.now) }
    {
        check_length(text)?;
        let tokens = tokens(alloc, text)?;
        let mut parser = Parser::new(alloc, tokens.as_slice());
        match parser.assignments() {
            Ok(list) => Ok(list),
            Err(stop) => Err(parser.stopped(stop, text.len() as u32)),
        }
    }
}

fn check_length(text: &str) -> Result<(), ExprFault>
    ensures ok { OnOk result (length text.now ≤ byte_limit) }
    ensures err { IfErr result (λ f. (byte_limit < length text.now) × (f ≡ fault.Depth byte_limit)) }
{
    if text.len() > MAX_LENGTH {
        return Err(ExprFault::Depth {
            at: MAX_LENGTH as u32,
        });
    }
    Ok(())
}
