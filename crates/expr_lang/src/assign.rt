use crate::expr::Expr;
use lists::ItemList;
use text_core::Text;

/// An assignment: the name of a column, and the expression to whose value it is set in each row.
#[derive(Drop)]
pub struct Assign {
    pub name: Text,
    pub value: Expr,
}

/// Assignments in the order in which they are made; counted from 0.
pub type AssignList = ItemList<Assign>;
