use crate::token::{Operator, Sign};
use json_values::Value;
use text_core::Text;

/// An expression that was read. Only `Expr::parse` and `Expr::parse_each` make one.
#[derive(Drop)]
pub struct Expr {
    pub(crate) root: Node,
}

/// A part of an expression. The number that comes first is the place of its operator or name: of that
/// byte of the text, counted from 0.
pub enum Node {
    Constant(Value),
    /// A name, or `this.properties["name"]`, whose place is that of `this`.
    Column(u32, Text),
    /// `this.id`, the number of the feature, counted from 0.
    FeatureNumber,
    Unary(u32, Sign, Box<Node>),
    /// An operator, and its left and its right operand.
    Binary(u32, Operator, Box<Node>, Box<Node>),
    /// `? :` with the place of its `?`: a condition, and what it chooses where that is true, and where it is false.
    Choice(u32, Box<Node>, Box<Node>, Box<Node>),
}

// One call, wherever a function lets go of a part, in the place of a look at each variant.
impl Drop for Node {
    fn drop(self) {
        match self {
            Node::Constant(_)
            | Node::Column(_, _)
            | Node::FeatureNumber
            | Node::Unary(_, _, _)
            | Node::Binary(_, _, _, _)
            | Node::Choice(_, _, _, _) => {}
        }
    }
}
