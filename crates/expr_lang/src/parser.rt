ghost use Rattle.std.specs.Prelude.{◌≡◌, ◌∷◌, ◌+◌, ◌<◌, ◌≤◌, [], List, ℕ, true, false, length, MatchOption, MatchResult, OnOk, IfOk, option_map, Some};
ghost use Rattle.expr_lang.specs.Grammar.{Placed, Toks, Cond, Level, Unary, Atom, OneAssign, Assigns, level_of as level_number, leaf_of, sign_of};
ghost use Rattle.expr_lang.specs.Machine.{after_this, operator};
ghost use Rattle.expr_lang.specs.Reading.{Part, PartOf, AssignEnds, ThisText, NextIsNot, IsMark, IsName, IsAName, IsText, IsSign, AtMisfit, EndsLevel, level_at, before, past, plainly, anywhere, before_assign, after_assign};
ghost use Rattle.expr_lang.specs.Faults.{IsStopAt, fault_of, is_unsupported as unsupported_token};
ghost use Rattle.expr_lang.specs.Stuck.{ReadsAll};
ghost use Rattle.expr_lang.specs.Tree.{node_tree, assigned, all_assigned};
ghost use Rattle.expr_lang.specs.Tree as tree;
ghost use Rattle.expr_lang.specs.declared.parser.Stop.TheVariants.{Memory};
ghost use Rattle.expr_lang.specs.declared.parser.Misfit.TheVariants.{Unfit};
ghost use Rattle.expr_lang.specs.declared.token.Mark.TheVariants as mark;
ghost use Rattle.expr_lang.specs.declared.token.Token.{Token};
ghost use Rattle.expr_lang.specs.declared.token.Token.TheVariants as token;

use crate::assign::{Assign, AssignList};
use crate::expr::{Expr, Node};
use crate::fault::ExprFault;
use crate::token::{Mark, Operator, Sign, Token};
use json_values::Value;
use std::alloc::{AllocError, Global};
use text_core::Text;

/// How many parentheses, signs and branches may enclose one another.
pub const MAX_DEPTH: u32 = 64;

/// How a token fails to fit.
#[derive(Clone, Copy, PartialEq, Eq, Drop)]
pub enum Misfit {
    /// It opens one level too many.
    TooDeep,
    /// It goes on with nothing that stands before it.
    Unfit,
}

/// Why a parser stopped.
#[derive(Drop)]
pub enum Stop {
    /// The next token, or the end, doesn't fit.
    Misfit(Misfit),
    /// No memory was left.
    Memory,
}

/// The tokens that are left. At a misfit it stands at the token that does not fit, or at the end.
#[derive(Drop)]
pub struct Parser<'a> {
    alloc: Global,
    rest: &'a [(u32, Token)],
}

impl<'a> Parser<'a> {
    /// A parser with all of these tokens left. Each stands with its place, counted from 0 in bytes of the text.
    pub fn new(alloc: Global, tokens: &'a [(u32, Token)]) -> Self
        ensures exact { result.rest.now ≡ tokens.now }
    {
        Parser {
            alloc,
            rest: tokens,
        }
    }

    // The next token and its place.
    fn next(&self) -> Option<(u32, &'a Token)>
        ensures exact { MatchOption result (self.now.rest.now ≡ [])
            (λ r. (ts : Toks) × (self.now.rest.now ≡ (r.0, r.1.now) ∷ ts)) }
    {
        let (at, token) = self.rest.first()?;
        Some((*at, token))
    }

    // Goes past one token.
    fn advance(&mut self)
        requires { 0 < length self.old.rest.now }
        ensures next { (t : Placed) × (self.old.rest.now ≡ t ∷ self.new.rest.now) }
    {
        self.rest = &self.rest[1..];
    }

    // The place of the mark, where it comes next.
    fn next_mark(&self, mark: Mark) -> Option<u32>
        ensures exact { MatchOption result (NextIsNot (IsMark mark) self.now.rest.now)
            (λ at. (ts : Toks) × (self.now.rest.now ≡ (at, token.Mark mark) ∷ ts)) }
    {
        if let Some((at, Token::Mark(next))) = self.rest.first() {
            if *next == mark {
                return Some(*at);
            }
        }
        None
    }

    // Goes past the mark, where it comes next.
    fn take(&mut self, mark: Mark) -> bool
        ensures taken { result ≡ true → (at : ℕ) × (self.old.rest.now ≡ (at, token.Mark mark) ∷ self.new.rest.now) }
        ensures absent { result ≡ false → (self.new.rest.now ≡ self.old.rest.now) × NextIsNot (IsMark mark) self.old.rest.now }
    {
        if let Some((_, Token::Mark(next))) = self.rest.first() {
            if *next == mark {
                self.advance();
                return true;
            }
        }
        false
    }

    fn expect(&mut self, mark: Mark) -> Result<(), Stop>
        ensures exact { MatchResult result (λ _. (at : ℕ) × (self.old.rest.now ≡ (at, token.Mark mark) ∷ self.new.rest.now))
            (AtMisfit (λ f. (f ≡ Unfit) × (self.new.rest.now ≡ self.old.rest.now) × NextIsNot (IsMark mark) self.old.rest.now)) }
    {
        if self.take(mark) {
            Ok(())
        } else {
            Err(Stop::Misfit(Misfit::Unfit))
        }
    }

    // Goes past the name `word`, where it comes next.
    fn name(&mut self, word: &str) -> bool
        ensures taken { result ≡ true → (at : ℕ) × (self.old.rest.now ≡ (at, token.Name word.now) ∷ self.new.rest.now) }
        ensures absent { result ≡ false → (self.new.rest.now ≡ self.old.rest.now) × NextIsNot (IsName word.now) self.old.rest.now }
    {
        if let Some((_, Token::Name(name))) = self.rest.first() {
            if name.as_str() == word {
                self.advance();
                return true;
            }
        }
        false
    }

    fn text(&mut self) -> Result<Text, Stop>
        ensures exact { MatchResult result (λ s. (at : ℕ) × (self.old.rest.now ≡ (at, token.Text s) ∷ self.new.rest.now))
            (AtMisfit (λ f. (f ≡ Unfit) × (self.new.rest.now ≡ self.old.rest.now) × NextIsNot IsText self.old.rest.now)) }
    {
        let Some((_, Token::Text(text))) = self.rest.first() else {
            return Err(Stop::Misfit(Misfit::Unfit));
        };
        let text = Text::of(self.alloc, text.as_str())?;
        self.advance();
        Ok(text)
    }

    // What stands after `this`, which stood at `at`.
    fn this(&mut self, at: u32) -> Result<Node, Stop>
        ensures read { (n : ℕ) → Part (ThisText at) n (anywhere after_this) (anywhere operator) result self.old.rest.now self.new.rest.now }
    {
        self.expect(Mark::Dot)?;
        if self.name("id") {
            return Ok(Node::FeatureNumber);
        }
        if !self.name("properties") {
            return Err(Stop::Misfit(Misfit::Unfit));
        }
        self.expect(Mark::OpenBracket)?;
        let name = self.text()?;
        self.expect(Mark::CloseBracket)?;
        Ok(Node::Column(at, name))
    }

    // Goes past an operator of the level, where one comes next.
    fn operator(&mut self, level: u32) -> Option<(u32, Operator)>
        requires { level < 7 }
        ensures exact { MatchOption result ((self.new.rest.now ≡ self.old.rest.now)
            × ((j : ℕ) → level ≡ j + 1 → EndsLevel j self.old.rest.now → EndsLevel level self.old.rest.now))
            (λ r. (self.old.rest.now ≡ (r.0, token.Operator r.1) ∷ self.new.rest.now) × (level_number r.1 ≡ level)) }
    {
        if let Some((at, Token::Operator(operator))) = self.rest.first() {
            if level_of(*operator) == level {
                let (at, operator) = (*at, *operator);
                self.advance();
                return Some((at, operator));
            }
        }
        None
    }

    /// All tokens, as one expression.
    ///
    /// Errors: at the first token, or the end, that doesn't fit; and `Memory`.
    pub(crate) fn expression(&mut self) -> Result<Node, Stop>
        ensures read { ReadsAll node_tree Cond 64 result self.old.rest.now self.new.rest.now }
    {
        let e = self.cond(MAX_DEPTH)?;
        self.end()?;
        Ok(e)
    }

    /// All tokens, as assignments.
    ///
    /// Errors: those of `expression`.
    pub(crate) fn assignments(&mut self) -> Result<AssignList, Stop>
        ensures read { ReadsAll all_assigned Assigns 64 result self.old.rest.now self.new.rest.now }
    {
        let mut list = AssignList::new(self.alloc);
        loop {
            let item = self.assignment()?;
            list.push(item)?;
            if self.is_last()? {
                return Ok(list);
            }
        }
    }

    // A name, and the expression that it is set to.
    fn assignment(&mut self) -> Result<Assign, Stop>
        ensures part { PartOf assigned OneAssign 64 (before_assign 64) (after_assign 64) result self.old.rest.now self.new.rest.now }
        ensures ends { OnOk result (EndsLevel 7 self.new.rest.now) }
    {
        let name = self.target()?;
        self.expect(Mark::Becomes)?;
        let root = self.cond(MAX_DEPTH)?;
        Ok(Assign {
            name,
            value: Expr { root },
        })
    }

    // Whether an assignment is the last one: nothing comes next, or a `;` that ends all. Goes past a `;`.
    fn is_last(&mut self) -> Result<bool, Stop>
        ensures exact { MatchResult result (λ last. AssignEnds last self.old.rest.now self.new.rest.now)
            (AtMisfit (λ f. (f ≡ Unfit) × (self.new.rest.now ≡ self.old.rest.now) × (t : Placed) × (ts : Toks) × (self.old.rest.now ≡ t ∷ ts) × (IsMark mark.Semicolon t.1 → ⊥))) }
    {
        if self.take(Mark::Semicolon) {
            return Ok(self.rest.is_empty());
        }
        self.end()?;
        Ok(true)
    }

    fn end(&self) -> Result<(), Stop>
        ensures exact { MatchResult result (λ _. self.now.rest.now ≡ [])
            (AtMisfit (λ f. (f ≡ Unfit) × (t : Placed) × (ts : Toks) × (self.now.rest.now ≡ t ∷ ts))) }
    {
        match self.next() {
            None => Ok(()),
            Some(_) => Err(Stop::Misfit(Misfit::Unfit)),
        }
    }

    // The name that an assignment sets.
    fn target(&mut self) -> Result<Text, Stop>
        ensures exact { MatchResult result (λ s. (at : ℕ) × (self.old.rest.now ≡ (at, token.Name s) ∷ self.new.rest.now))
            (AtMisfit (λ f. (f ≡ Unfit) × (self.new.rest.now ≡ self.old.rest.now) × NextIsNot IsAName self.old.rest.now)) }
    {
        let Some((_, Token::Name(name))) = self.rest.first() else {
            return Err(Stop::Misfit(Misfit::Unfit));
        };
        let name = Text::of(self.alloc, name.as_str())?;
        self.advance();
        Ok(name)
    }

    // A choice, or what stands in its place, with at most `depth` levels in one another.
    #[cycle(parts)]
    fn cond(&mut self, depth: u32) -> Result<Node, Stop>
        ensures part { Part Cond depth (plainly before depth) (plainly past depth) result self.old.rest.now self.new.rest.now }
        ensures ends { OnOk result (EndsLevel 7 self.new.rest.now) }
    {
        let condition = self.level(6, depth)?;
        let Some(at) = self.next_mark(Mark::Question) else {
            return Ok(condition);
        };
        if depth == 0 {
            return Err(Stop::Misfit(Misfit::TooDeep));
        }
        self.advance();
        let yes = self.cond(depth - 1)?;
        self.expect(Mark::Colon)?;
        let no = self.cond(depth - 1)?;
        Ok(choice(self.alloc, at, condition, yes, no)?)
    }

    // Operands with operators of the level, and of lower ones, between them.
    #[cycle(parts)]
    fn level(&mut self, level: u32, depth: u32) -> Result<Node, Stop>
        requires { level < 7 }
        ensures part { Part (Level level) depth (plainly before depth) (plainly past depth) result self.old.rest.now self.new.rest.now }
        ensures ends { OnOk result (EndsLevel level self.new.rest.now) }
    {
        if level == 0 {
            return self.unary(depth);
        }
        let mut left = self.level(level - 1, depth)?;
        while let Some((at, operator)) = self.operator(level) {
            let right = self.level(level - 1, depth)?;
            left = binary(self.alloc, at, operator, left, right)?;
        }
        Ok(left)
    }

    // An operand with the signs before it.
    #[cycle(parts)]
    fn unary(&mut self, depth: u32) -> Result<Node, Stop>
        ensures read { Part Unary depth (before depth) (past depth) result self.old.rest.now self.new.rest.now }
    {
        let Some((at, sign)) = self.sign() else {
            return self.atom(depth);
        };
        if depth == 0 {
            return Err(Stop::Misfit(Misfit::TooDeep));
        }
        self.advance();
        let operand = self.unary(depth - 1)?;
        Ok(unary(self.alloc, at, sign, operand)?)
    }

    #[cycle(parts)]
    fn atom(&mut self, depth: u32) -> Result<Node, Stop>
        requires { NextIsNot IsSign self.old.rest.now }
        ensures read { Part Atom depth (before depth) (past depth) result self.old.rest.now self.new.rest.now }
    {
        let Some((at, token)) = self.next() else {
            return Err(Stop::Misfit(Misfit::Unfit));
        };
        if let Some(leaf) = leaf(self.alloc, at, token)? {
            self.advance();
            return Ok(leaf);
        }
        if let Token::This = token {
            self.advance();
            return self.this(at);
        }
        let Some(_) = self.next_mark(Mark::Open) else {
            return Err(Stop::Misfit(Misfit::Unfit));
        };
        if depth == 0 {
            return Err(Stop::Misfit(Misfit::TooDeep));
        }
        self.advance();
        let inner = self.cond(depth - 1)?;
        self.expect(Mark::Close)?;
        Ok(inner)
    }

    // The place and the sign of the next token, where it is one.
    fn sign(&self) -> Option<(u32, Sign)>
        ensures exact { MatchOption result (NextIsNot IsSign self.now.rest.now)
            (λ r. (t : Token) × (ts : Toks) × (self.now.rest.now ≡ (r.0, t) ∷ ts) × (sign_of t ≡ Some r.1)) }
    {
        let (at, token) = self.rest.first()?;
        match token {
            Token::Mark(Mark::Not) => Some((*at, Sign::Not)),
            Token::Operator(Operator::Minus) => Some((*at, Sign::Negative)),
            _ => None,
        }
    }
}

impl<'a> Parser<'a> {
    /// The fault of a text of `end` bytes, by the token at which the parser stopped.
    pub(crate) fn stopped(&self, stop: Stop, end: u32) -> ExprFault
        ensures exact { IsStopAt self.now.rest.now end stop result }
    {
        match stop {
            Stop::Memory => ExprFault::Memory,
            Stop::Misfit(misfit) => self.fault(misfit, end),
        }
    }

    // The same, where the next token does not fit.
    fn fault(&self, misfit: Misfit, end: u32) -> ExprFault
        ensures exact { result ≡ fault_of misfit self.now.rest.now end }
    {
        let Some((at, token)) = self.next() else {
            return match misfit {
                Misfit::TooDeep => ExprFault::Depth { at: end },
                Misfit::Unfit => ExprFault::Syntax { at: end },
            };
        };
        match misfit {
            Misfit::TooDeep => ExprFault::Depth { at },
            Misfit::Unfit => {
                if is_unsupported(token) {
                    ExprFault::Unsupported { at }
                } else {
                    ExprFault::Syntax { at }
                }
            }
        }
    }
}

fn is_unsupported(token: &Token) -> bool
    ensures exact { result ≡ unsupported_token token.now }
{
    match token {
        Token::Other
        | Token::Mark(
            Mark::OpenBracket | Mark::Dot | Mark::Open | Mark::Becomes | Mark::Semicolon,
        ) => true,
        _ => false,
    }
}

fn level_of(operator: Operator) -> u32
    ensures exact { result ≡ level_number operator }
{
    match operator {
        Operator::Times => 1,
        Operator::Plus | Operator::Minus => 2,
        Operator::AtMost | Operator::AtLeast | Operator::Less | Operator::Greater => 3,
        Operator::Same | Operator::NotSame | Operator::Equal | Operator::NotEqual => 4,
        Operator::Both => 5,
        Operator::Either => 6,
    }
}

// The tree of a token that is an operand by itself.
fn leaf(alloc: Global, at: u32, token: &Token) -> Result<Option<Node>, AllocError>
    ensures exact { IfOk result (λ r. leaf_of at token.now ≡ option_map node_tree r) }
{
    Ok(Some(match token {
        Token::Number(number) => Node::Constant(Value::Num(*number)),
        Token::Text(text) => Node::Constant(Value::Text(Text::of(alloc, text.as_str())?)),
        Token::True => Node::Constant(Value::Bool(true)),
        Token::False => Node::Constant(Value::Bool(false)),
        Token::Null => Node::Constant(Value::Null),
        Token::Name(name) => Node::Column(at, Text::of(alloc, name.as_str())?),
        _ => return Ok(None),
    }))
}

fn unary(alloc: Global, at: u32, sign: Sign, operand: Node) -> Result<Node, AllocError>
    ensures exact { IfOk result (λ e. node_tree e ≡ tree.unary at sign (node_tree operand)) }
{
    Ok(Node::Unary(at, sign, Box::new(alloc, operand)?))
}

fn binary(
    alloc: Global,
    at: u32,
    operator: Operator,
    left: Node,
    right: Node,
) -> Result<Node, AllocError>
    ensures exact { IfOk result (λ e. node_tree e ≡ tree.binary at operator (node_tree left) (node_tree right)) }
{
    let left = Box::new(alloc, left)?;
    let right = Box::new(alloc, right)?;
    Ok(Node::Binary(at, operator, left, right))
}

fn choice(alloc: Global, at: u32, condition: Node, yes: Node, no: Node) -> Result<Node, AllocError>
    ensures exact { IfOk result (λ e. node_tree e ≡ tree.choice at (node_tree condition) (node_tree yes) (node_tree no)) }
{
    let condition = Box::new(alloc, condition)?;
    let yes = Box::new(alloc, yes)?;
    let no = Box::new(alloc, no)?;
    Ok(Node::Choice(at, condition, yes, no))
}

impl From<AllocError> for Stop {
    ghost from_gives = { λ _ s. s ≡ Memory };

    fn from(_e: AllocError) -> Stop {
        Stop::Memory
    }
}
