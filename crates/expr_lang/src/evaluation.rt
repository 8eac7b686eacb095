ghost use Rattle.std.specs.Prelude.{◌≡◌, Ok, IfOk, IfErr, option_map};
ghost use Rattle.expr_lang.specs.Meaning.{Answers, FaultIs, cell as cell_of, column_at, evaluated, joined, on_ok, signed as signed_value};
ghost use Rattle.expr_lang.specs.Tree.{tree_of, node_tree};
ghost use Rattle.expr_lang.specs.declared.fault.EvalFault.TheVariants.{Memory as NoMemory};

use crate::expr::{Expr, Node};
use crate::fault::EvalFault;
use crate::operators::{applied, decided, signed, truth};
use crate::token::{Operator, Sign};
use json_values::{Row, Value};
use numerals::Decimal;
use std::alloc::Global;
use text_core::{NameList, Text};

/// The value of an expression for a row, whose columns have these names and whose feature has the
/// number `id`, counted from 0.
///
/// Operands are evaluated from the left, then the operator; the first fault in this order is the answer.
/// `&&`, `||` and `? :` evaluate only what they need.
/// Errors: `Unknown`, `Types` and `Range` at the place, counted from 0 in bytes, of the operator or the name; `Memory`.
pub fn eval(
    alloc: Global,
    e: &Expr,
    names: &NameList,
    row: &Row,
    id: u32,
) -> Result<Value, EvalFault>
    ensures ok { IfOk result (λ v. evaluated names.now row.now id (tree_of e.now) ≡ Ok v) }
    ensures fault { IfErr result (FaultIs (evaluated names.now row.now id (tree_of e.now))) }
{
    eval_values(alloc, e, names.as_slice(), row.as_slice(), id)
}

/// The same for the first columns of a row: a name past the values is unknown, as one that is not there.
///
/// Errors: those of `eval`.
pub fn eval_values(
    alloc: Global,
    e: &Expr,
    names: &[Text],
    row: &[Value],
    id: u32,
) -> Result<Value, EvalFault>
    ensures ok { IfOk result (λ v. evaluated names.now row.now id (tree_of e.now) ≡ Ok v) }
    ensures fault { IfErr result (FaultIs (evaluated names.now row.now id (tree_of e.now))) }
{
    let scope = Scope {
        alloc,
        names,
        row,
        id,
    };
    scope.value(&e.root)
}

/// The row that an expression is evaluated for.
#[derive(Drop)]
struct Scope<'a> {
    alloc: Global,
    names: &'a [Text],
    row: &'a [Value],
    id: u32,
}

impl<'a> Scope<'a> {
    /// Left operands nest some two thousand deep in `a + a + ..`, so this function has few variables, and the
    /// others are not on the way to them.
    #[cycle(values)]
    fn value(&self, e: &Node) -> Result<Value, EvalFault>
        ensures answers { Answers (evaluated self.now.names.now self.now.row.now self.now.id (node_tree e.now)) result }
    {
        match e {
            Node::Constant(value) => self.constant(value),
            Node::Column(at, name) => self.column(*at, name),
            Node::FeatureNumber => Ok(Value::Num(Decimal::of_grid(i64::from(self.id), 0))),
            Node::Unary(at, sign, operand) => self.after_sign(*at, *sign, operand),
            Node::Binary(at, operator, left, right) => {
                let left = self.value(left)?;
                self.after_left(*at, *operator, &left, right)
            }
            Node::Choice(at, condition, yes, no) => {
                let condition = self.value(condition)?;
                if truth(*at, &condition)? {
                    self.value(yes)
                } else {
                    self.value(no)
                }
            }
        }
    }

    #[cycle(values)]
    fn after_sign(&self, at: u32, sign: Sign, operand: &Node) -> Result<Value, EvalFault>
        ensures answers { Answers (on_ok (evaluated self.now.names.now self.now.row.now self.now.id (node_tree operand.now)) (signed_value at sign)) result }
    {
        let value = self.value(operand)?;
        signed(at, sign, &value)
    }

    /// The value of an operator whose left operand has this value.
    #[cycle(values)]
    fn after_left(
        &self,
        at: u32,
        operator: Operator,
        left: &Value,
        right: &Node,
    ) -> Result<Value, EvalFault>
        ensures answers { Answers (joined at operator (evaluated self.now.names.now self.now.row.now self.now.id (node_tree right.now)) left.now) result }
    {
        if let Some(b) = decided(at, operator, left)? {
            return Ok(Value::Bool(b));
        }
        let right = self.value(right)?;
        applied(self.alloc, at, operator, left, &right)
    }

    fn constant(&self, value: &Value) -> Result<Value, EvalFault>
        ensures ok { IfOk result (λ v. v ≡ value.now) }
        ensures err { IfErr result (λ f. f ≡ NoMemory) }
    {
        Ok(value.copy(self.alloc)?)
    }

    fn column(&self, at: u32, name: &Text) -> Result<Value, EvalFault>
        ensures answers { Answers (column_at at (cell_of self.now.names.now self.now.row.now name.now)) result }
    {
        match cell(self.names, self.row, name.as_str()) {
            None => Err(EvalFault::Unknown { at }),
            Some(Value::Long(_) | Value::Tree(_)) => Err(EvalFault::Types { at }),
            Some(value) => Ok(value.copy(self.alloc)?),
        }
    }
}

// The first value under a name; `None` where there is none.
fn cell<'a>(mut names: &[Text], mut row: &'a [Value], name: &str) -> Option<&'a Value>
    ensures exact { option_map (λ v. v.now) result ≡ cell_of names.now row.now name.now }
{
    while let (Some(first), Some(value)) = (names.first(), row.first()) {
        if first.as_str() == name {
            return Some(value);
        }
        names = &names[1..];
        row = &row[1..];
    }
    None
}
