//! Expressions over the columns of a row: JavaScript's, on booleans, null, exact decimals and texts.
//!
//! `Expr::parse` reads a text of at most 4,096 bytes, in which at most 64 parentheses, signs and branches
//! enclose one another, or says at which byte and why it is none. `Expr::parse_each` reads assignments so, as
//! `a = 1; b = a + 1`. `eval` gives the value of an expression for a row, `eval_values` for a row that is
//! still being made.
//!
//! 1. `scanner` cuts the text into tokens, the longest that fit, and says which words and bytes make names.
//! 2. `parser` builds the tree by recursive descent, a function for each rule and one for all levels of
//!    operators.
//! 3. `evaluation` walks the tree; `operators` has what each operator does to values.
#![tactic(auto)]

mod assign;
mod evaluation;
mod expr;
mod fault;
pub mod laws;
mod operators;
mod parser;
mod parsing;
mod scanner;
mod symbols;
mod token;

pub use assign::{Assign, AssignList};
pub use evaluation::{eval, eval_values};
pub use expr::{Expr, Node};
pub use fault::{EvalFault, ExprFault};
pub use parser::Misfit;
pub use scanner::{is_name_start, is_other_word};
pub use token::{Mark, Operator, Sign, Symbol, Token};
